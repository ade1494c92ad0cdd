//! Numbers and bytes that words mean.

ghost use Rattle.std.specs.Prelude.{◌≡◌, ◌+◌, [], ◌∷◌, length, IfSome, MatchOption, IfOk, option_map};
ghost use Rattle.coap_text.specs.Words as spec;

use hex::FromHexError;
use std::alloc::{AllocError, Global};

/// Returns the bytes before the first separator and the bytes after it, or `None` if there is no separator.
pub fn split_once(bytes: &[u8], separator: u8) -> Option<(&[u8], &[u8])>
    ensures parts { MatchOption result
        (spec.parts separator bytes.now ≡ bytes.now ∷ [])
        (λ x. spec.parts separator bytes.now ≡ x.0.now ∷ spec.parts separator x.1.now) }
    ensures lengths { IfSome result (λ x. length x.0.now + 1 + length x.1.now ≡ length bytes.now) }
{
    let at = bytes.iter().position(|byte| *byte == separator)?;
    Some((&bytes[..at], &bytes[at + 1..]))
}

/// The maximum number of digits of a number.
const MAX_DIGITS: usize = 20;

/// Returns the number that a word of 1 to 20 decimal digits means, if the number fits in 64 bits. Leading zeros count
/// as digits. Returns `None` for any other word.
pub fn number_in(word: &[u8]) -> Option<u64>
    ensures { result ≡ spec.decimal_value word.now }
{
    if word.len() > MAX_DIGITS || !word.iter().all(|byte| byte.is_ascii_digit()) {
        return None;
    }
    let text = str::from_utf8(word).ok()?;
    text.parse::<u64>().ok()
}

/// Returns the bytes that a word of one or more pairs of hexadecimal digits means. The digits may be of either case.
/// Returns `None` for any other word.
///
/// # Errors
///
/// Returns `AllocError` if allocation fails.
pub fn bytes_in(alloc: Global, word: &[u8]) -> Result<Option<Vec<u8>>, AllocError>
    ensures { IfOk result (λ found. option_map (λ v. v.items) found ≡ spec.hex_value word.now) }
{
    if word.is_empty() {
        return Ok(None);
    }
    match hex::decode(alloc, word) {
        Ok(bytes) => Ok(Some(bytes)),
        Err(fault) => match fault {
            FromHexError::OutOfMemory => Err(AllocError),
            _ => Ok(None),
        },
    }
}

/// Returns `true` if a word is one hyphen.
pub fn is_hyphen(word: &[u8]) -> bool
    ensures { result ≡ spec.is_hyphen word.now }
{
    word == b"-".as_slice()
}
