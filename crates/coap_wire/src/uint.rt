//! Option values of format uint (RFC 7252 section 3.2).

ghost use Rattle.std.specs.Prelude.{◌≡◌, ◌≤◌, ◌<◌, length, Some, None};
ghost use Rattle.coap_wire.specs.Prelude.{uint_of, bytes_of_uint, without_leading_zeros};

use crate::encode::append_short;
use arrayvec::ArrayVec;

/// Maximum length of the encoding of a number below 2^64, in bytes.
const MAX_UINT_BYTES: usize = 8;

/// Encoding of a number below 2^64: at most 8 bytes.
pub type UintBytes = ArrayVec<u8, MAX_UINT_BYTES>;

/// Returns the number that the bytes encode in network order, or `None` if there are more than 4 bytes. Leading zero
/// bytes are accepted.
pub fn uint_value(bytes: &[u8]) -> Option<u32>
    ensures within { length bytes.now ≤ 4 → result ≡ Some (uint_of bytes.now) }
    ensures above { 4 < length bytes.now → result ≡ None }
{
    match bytes {
        [] => Some(0),
        [a] => Some(u32::from(*a)),
        [a, b] => Some(u32::from_be_bytes([0, 0, *a, *b])),
        [a, b, c] => Some(u32::from_be_bytes([0, *a, *b, *c])),
        [a, b, c, d] => Some(u32::from_be_bytes([*a, *b, *c, *d])),
        _ => None,
    }
}

/// Returns the bytes without the leading zero bytes: the shortest encoding of the same number in network order.
#[tactic(auto, using(crate::proofs::UintLemmas::zeros))]
pub fn significant_bytes(bytes: &[u8]) -> &[u8]
    ensures rest { result.now ≡ without_leading_zeros bytes.now }
    ensures value { uint_of result.now ≡ uint_of bytes.now }
    ensures few { length result.now ≤ length bytes.now }
    ensures fewest { without_leading_zeros result.now ≡ result.now }
{
    let mut rest = bytes;
    while let Some((first, after)) = rest.split_first() {
        if *first != 0 {
            return rest;
        }
        rest = after;
    }
    rest
}

/// Returns the shortest encoding of the number in network order: no byte for 0, at most 8 bytes.
///
/// # Examples
///
/// ```
/// let bytes = uint_bytes(300);
/// assert!(&rt; bytes.as_slice() == b"\x01\x2c".as_slice());
/// assert!(&rt; uint_value(&bytes) == Some(300));
/// ```
#[tactic(auto, unfolding(crate::specs::Uint::bytes_of_uint))]
pub fn uint_bytes(number: u64) -> UintBytes
    ensures bytes { result.items ≡ bytes_of_uint number }
    ensures value { uint_of result.items ≡ number }
    ensures fewest { without_leading_zeros result.items ≡ result.items }
{
    let mut fewest = UintBytes::new();
    if number < 256 {
        if number > 0 {
            fewest.push(number as u8);
        }
        return fewest;
    }
    append_short(&mut fewest, significant_bytes(&number.to_be_bytes()));
    fewest
}
