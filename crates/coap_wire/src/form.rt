//! The encoding of a number as a nibble and extension bytes.

ghost use Rattle.std.specs.Prelude.{◌≡◌, ◌+◌, ◌≤◌, ◌++◌, length};
ghost use Rattle.coap_wire.specs.Prelude.{length_form, option_form, greatest_length, MAX_EXTENDED_LENGTH};

use crate::sink::Sink;

/// Returns the nibble of the length of a body: options, marker and payload (RFC 8323 section 3.2).
#[inline]
pub(crate) fn length_nibble(count: u64) -> u8
    requires { count ≤ greatest_length }
    ensures nibble { result ≡ (length_form count).0 }
    ensures small { result ≤ 15 }
{
    if count < 13 {
        return count as u8;
    }
    if count < 269 {
        return 13;
    }
    if count < 65805 {
        return 14;
    }
    15
}

/// Returns the number of bytes that extend the nibble of the length of a body.
#[inline]
pub(crate) fn length_extension_size(count: u64) -> u64
    requires { count ≤ greatest_length }
    ensures size { result ≡ length (length_form count).1 }
    ensures bound { result ≤ 4 }
{
    if count < 13 {
        return 0;
    }
    if count < 269 {
        return 1;
    }
    if count < 65805 {
        return 2;
    }
    4
}

/// Writes the bytes that extend the nibble of the length of a body.
#[inline]
pub(crate) fn write_length_extension<S: Sink>(out: &mut S, count: u64)
    requires fits { count ≤ greatest_length }
    requires room { length (length_form count).1 ≤ S.space out.old }
    ensures appended { S.contents out.new ≡ S.contents out.old ++ (length_form count).1 }
    ensures less_room { S.space out.new + length (length_form count).1 ≡ S.space out.old }
{
    if count < 13 {
        return;
    }
    if count < 269 {
        return out.push((count - 13) as u8);
    }
    if count < 65805 {
        return out.append(&((count - 269) as u16).to_be_bytes());
    }
    out.append(&((count - 65805) as u32).to_be_bytes())
}

/// Returns the nibble of an option delta, option length or token length (RFC 7252 section 3.1, RFC 8974 section 2.1).
#[inline]
pub(crate) fn option_nibble(number: u32) -> u8
    requires { number ≤ MAX_EXTENDED_LENGTH }
    ensures nibble { result ≡ (option_form number).0 }
    ensures small { result ≤ 14 }
{
    if number < 13 {
        return number as u8;
    }
    if number < 269 {
        return 13;
    }
    14
}

/// Returns the number of bytes that extend the nibble of an option delta, an option length or a token length.
#[inline]
pub(crate) fn option_extension_size(number: u32) -> u64
    requires { number ≤ MAX_EXTENDED_LENGTH }
    ensures size { result ≡ length (option_form number).1 }
    ensures bound { result ≤ 2 }
{
    if number < 13 {
        return 0;
    }
    if number < 269 {
        return 1;
    }
    2
}

/// Writes the bytes that extend the nibble of an option delta, an option length or a token length.
#[inline]
pub(crate) fn write_option_extension<S: Sink>(out: &mut S, number: u32)
    requires fits { number ≤ MAX_EXTENDED_LENGTH }
    requires room { length (option_form number).1 ≤ S.space out.old }
    ensures appended { S.contents out.new ≡ S.contents out.old ++ (option_form number).1 }
    ensures less_room { S.space out.new + length (option_form number).1 ≡ S.space out.old }
{
    if number < 13 {
        return;
    }
    if number < 269 {
        return out.push((number - 13) as u8);
    }
    out.append(&((number - 269) as u16).to_be_bytes())
}
