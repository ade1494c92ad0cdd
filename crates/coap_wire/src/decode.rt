//! Functions that decode the parts of a frame, from left to right.

ghost use Rattle.std.specs.Prelude.{◌≡◌, ◌≤◌, length, option_map, IfSome, IfOk, Ok};
ghost use Rattle.coap_wire.specs.Prelude.{greatest_length, MAX_EXTENDED_LENGTH, one_byte_at, two_bytes_at};
ghost use Rattle.coap_wire.specs.Prelude.{four_bytes_at, length_at, option_number_at, token_length_at, head_at};
ghost use Rattle.coap_wire.specs.Prelude.{option_head_at, option_at, body_at, Gives, GivesPayload, coap_option};
ghost use Rattle.coap_wire.specs.Prelude.{IsLaidOut};

use crate::code::Code;
use crate::fault::FormatFault;
use crate::layout::FrameLayout;
use crate::option::{OptionRef, PAYLOAD_MARKER};
use crate::token::TokenRef;

/// Nibble that encodes no token length (RFC 8974 section 2.1).
pub(crate) const NO_TOKEN_LENGTH: u8 = 15;

#[tactic(auto, unfolding(crate::specs::Reading::two_bytes_at))]
fn two_bytes(bytes: &[u8]) -> Option<(u16, &[u8])>
    ensures value { option_map (λ x. (x.0, x.1.now)) result ≡ two_bytes_at bytes.now }
    ensures rest { IfSome result (λ x. length x.1.now ≤ length bytes.now) }
{
    if bytes.len() < 2 {
        return None;
    }
    let (front, rest) = bytes.split_at(2);
    Some((u16::from_be_bytes([front[0], front[1]]), rest))
}

#[tactic(auto, unfolding(crate::specs::Reading::four_bytes_at))]
fn four_bytes(bytes: &[u8]) -> Option<(u32, &[u8])>
    ensures value { option_map (λ x. (x.0, x.1.now)) result ≡ four_bytes_at bytes.now }
    ensures rest { IfSome result (λ x. length x.1.now ≤ length bytes.now) }
{
    if bytes.len() < 4 {
        return None;
    }
    let (front, rest) = bytes.split_at(4);
    Some((
        u32::from_be_bytes([front[0], front[1], front[2], front[3]]),
        rest,
    ))
}

/// Returns the length that a nibble and the bytes after it encode, and the bytes after the extension. Returns `None` if
/// the extension is incomplete (RFC 8323 section 3.2).
#[tactic(auto, unfolding(crate::specs::Reading::length_at, crate::specs::Reading::one_byte_at))]
pub(crate) fn read_length(nibble: u8, bytes: &[u8]) -> Option<(u64, &[u8])>
    ensures value { option_map (λ x. (x.0, x.1.now)) result ≡ length_at nibble bytes.now }
    ensures bound { IfSome result (λ x. x.0 ≤ greatest_length) }
    ensures rest { IfSome result (λ x. length x.1.now ≤ length bytes.now) }
{
    if nibble < 13 {
        return Some((u64::from(nibble), bytes));
    }
    if nibble == 13 {
        let (byte, rest) = bytes.split_first()?;
        return Some((u64::from(*byte) + 13, rest));
    }
    if nibble == 14 {
        let (number, rest) = two_bytes(bytes)?;
        return Some((u64::from(number) + 269, rest));
    }
    let (number, rest) = four_bytes(bytes)?;
    Some((u64::from(number) + 65805, rest))
}

/// Returns the option delta or option length that a nibble below 15 and the bytes after it encode, and the bytes after
/// the extension. Returns `None` if the extension is incomplete (RFC 7252 section 3.1).
#[tactic(auto, unfolding(crate::specs::Reading::option_number_at, crate::specs::Reading::one_byte_at))]
fn read_option_number(nibble: u8, bytes: &[u8]) -> Option<(u32, &[u8])>
    ensures value { option_map (λ x. (x.0, x.1.now)) result ≡ option_number_at nibble bytes.now }
    ensures bound { IfSome result (λ x. x.0 ≤ MAX_EXTENDED_LENGTH) }
    ensures rest { IfSome result (λ x. length x.1.now ≤ length bytes.now) }
{
    if nibble < 13 {
        return Some((u32::from(nibble), bytes));
    }
    if nibble == 13 {
        let (byte, rest) = bytes.split_first()?;
        return Some((u32::from(*byte) + 13, rest));
    }
    let (number, rest) = two_bytes(bytes)?;
    Some((u32::from(number) + 269, rest))
}

/// Returns the token length that a nibble below 15 encodes, if `bytes` follow the code, and the bytes after the
/// extension. Returns `None` if the extension is incomplete (RFC 8974 section 2.1).
pub(crate) fn read_token_length(nibble: u8, bytes: &[u8]) -> Option<(u32, &[u8])>
    ensures value { option_map (λ x. (x.0, x.1.now)) result ≡ token_length_at nibble bytes.now }
    ensures bound { IfSome result (λ x. x.0 ≤ MAX_EXTENDED_LENGTH) }
    ensures rest { IfSome result (λ x. length x.1.now ≤ length bytes.now) }
{
    read_option_number(nibble, bytes)
}

/// Returns the token, the body and the code of a frame with this layout. The body: options, marker and payload.
#[inline(always)]
pub(crate) fn head_laid_out(frame: &[u8], layout: FrameLayout) -> (TokenRef<'_>, &[u8], Code)
    requires { IsLaidOut frame.now layout }
    ensures { head_at frame.now ≡ Ok (record { code = result.2; token = result.0; body = result.1.now }) }
{
    let (_, later) = frame.split_at(layout.token_at);
    let (token, body) = later.split_at(layout.token_length);
    (
        TokenRef::of_bytes(token),
        body,
        Code::new(frame[layout.code_at]),
    )
}

/// Returns the delta and the length of an option with this first byte, and the bytes after both extensions.
// An option without extensions is common, and is therefore tested first.
#[tactic(auto, unfolding(crate::specs::Reading::option_head_at, crate::specs::Reading::option_number_at))]
fn option_head(first: u8, after: &[u8]) -> Result<(u32, u32, &[u8]), FormatFault>
    ensures value { Gives (λ x. (x.0, x.1, x.2.now)) result (option_head_at first after.now) }
    ensures bound { IfOk result (λ x. x.0 ≤ MAX_EXTENDED_LENGTH) }
{
    if first / 16 < 13 && first % 16 < 13 {
        return Ok((u32::from(first / 16), u32::from(first % 16), after));
    }
    if first / 16 == 15 {
        return Err(FormatFault::OptionDelta);
    }
    if first % 16 == 15 {
        return Err(FormatFault::OptionLength);
    }
    let Some((delta, rest)) = read_option_number(first / 16, after) else {
        return Err(FormatFault::OptionCut);
    };
    let Some((length, rest)) = read_option_number(first % 16, rest) else {
        return Err(FormatFault::OptionCut);
    };
    Ok((delta, length, rest))
}

/// Decodes an option (RFC 7252 section 3.1). Returns the option, and the bytes after it.
///
/// `first` is the first byte of the option, and `after` the bytes that follow this byte. The option number is the delta
/// plus `base`: the number of the option before this one, or 0 if this is the first one. Before the call, the caller
/// compares `first` with `PAYLOAD_MARKER`, which begins no option.
///
/// # Errors
///
/// The first that applies:
///
/// - `OptionDelta`: the nibble of the delta is 15. The payload marker has this nibble too.
/// - `OptionLength`: the nibble of the length is 15.
/// - `OptionCut`: the bytes end before both extensions are complete.
/// - `OptionNumber`: the option number is above 65,535.
/// - `OptionCut`: the bytes end before the value is complete.
#[tactic(auto, unfolding(crate::specs::Reading::option_at))]
pub fn read_option(
    base: u16,
    first: u8,
    after: &[u8],
) -> Result<(OptionRef<'_>, &[u8]), FormatFault>
    ensures { Gives (λ x. (coap_option x.0, x.1.now)) result (option_at base first after.now) }
{
    let (delta, length, rest) = option_head(first, after)?;
    let Ok(number) = u16::try_from(u32::from(base) + delta) else {
        return Err(FormatFault::OptionNumber);
    };
    let length = length as usize;
    if rest.len() < length {
        return Err(FormatFault::OptionCut);
    }
    let (value, rest) = rest.split_at(length);
    Ok((OptionRef { number, value }, rest))
}

/// Returns the payload of a body, which is empty if the body ends after the options (RFC 7252 section 3).
///
/// A body is the part of a frame after the token: the encoded options, the payload marker and the payload. The call
/// decodes each option.
///
/// # Errors
///
/// The first error of the body:
///
/// - `EmptyPayload`: no byte follows the payload marker.
/// - The error of a malformed option, as `read_option` returns it.
#[tactic(auto, using(crate::proofs::BodyLemmas::body_turns))]
#[inline(always)]
pub fn payload_of(body: &[u8]) -> Result<&[u8], FormatFault>
    ensures { GivesPayload result (body_at 0 body.now) }
{
    let mut base = 0;
    let mut rest = body;
    while let Some((first, after)) = rest.split_first() {
        if *first == PAYLOAD_MARKER {
            if after.is_empty() {
                return Err(FormatFault::EmptyPayload);
            }
            return Ok(after);
        }
        let (option, later) = read_option(base, *first, after)?;
        base = option.number;
        rest = later;
    }
    Ok(rest)
}
