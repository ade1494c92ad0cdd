//! Functions that encode the parts of a frame, and functions that return the length of an encoding.

ghost use Rattle.std.specs.Prelude.{◌≡◌, ℕ, ◌+◌, ◌-◌, ◌*◌, ◌≤◌, ◌<◌, List, ◌∷◌, ◌++◌, length};
ghost use Rattle.coap_wire.specs.Prelude.{AllByRecursion, AreOrdered, greatest_token, greatest_length};
ghost use Rattle.coap_wire.specs.Prelude.{MAX_EXTENDED_LENGTH, HasOptionForm, option_head_spelling, option_spelling};
ghost use Rattle.coap_wire.specs.Prelude.{options_spelling, payload_marker, head_spelling, length_form, coap_option};
ghost use Rattle.coap_wire.specs.Prelude.{coap_options};

use crate::code::Code;
use crate::form::{
    length_extension_size, length_nibble, option_extension_size, option_nibble,
    write_length_extension, write_option_extension,
};
use crate::option::{OptionRef, PAYLOAD_MARKER};
use crate::sink::Sink;

/// Returns the length of the encoding of an option in bytes. The delta is the difference of its number and `base`.
pub(crate) fn option_size(base: u16, option: &OptionRef) -> u64
    requires ordered { base ≤ option.now.number }
    requires short { length option.now.value.now ≤ MAX_EXTENDED_LENGTH }
    ensures size { result ≡ length (option_spelling base (coap_option option.now)) }
    ensures bound { result ≤ 65809 }
{
    let delta = u32::from(option.number - base);
    let count = option.value.len() as u32;
    1 + option_extension_size(delta) + option_extension_size(count) + u64::from(count)
}

/// Returns the length of a head in bytes. A head is the first byte, the extension of the length, the code, the
/// extension of the token length, and the token.
pub(crate) fn head_size(token: usize, body: u64) -> u64
    requires token { token ≤ greatest_token }
    requires body { body ≤ greatest_length }
    ensures size { (code : ℕ) (bytes : List ℕ) → length bytes ≡ token
        → result ≡ length (head_spelling code bytes body) }
    ensures bound { result ≤ 72 }
{
    2 + length_extension_size(body) + option_extension_size(token as u32) + token as u64
}

/// Writes the head of a message (RFC 8323 section 3.2, RFC 8974 section 2.1). A head has at most 72 bytes: the first
/// byte, the extension of the length, the code, that of the token length, and the token.
///
/// The caller writes the body next. `body` is its length: that of the options, the payload marker and the payload.
///
/// # Preconditions
///
/// - The token has at most 64 bytes.
/// - `body` is at most 4,295,033,100, the largest length that can be encoded.
/// - The sink has space for the head.
#[inline(always)]
pub fn write_head<S: Sink>(out: &mut S, code: Code, token: &[u8], body: u64)
    requires token { length token.now ≤ greatest_token }
    requires body { body ≤ greatest_length }
    requires room { length (head_spelling code token.now body) ≤ S.space out.old }
    ensures appended { S.contents out.new ≡ S.contents out.old ++ head_spelling code token.now body }
    ensures less_room { S.space out.new + length (head_spelling code token.now body) ≡ S.space out.old }
{
    // A token has at most 64 bytes, so its length has at most one byte of extension, and then the nibble 13.
    let token_length = token.len();
    write_length(out, body, token_length.min(13) as u8);
    out.push(code.byte());
    if token_length >= 13 {
        out.push((token_length - 13) as u8);
    }
    append_short(out, token);
}

/// Appends bytes as `Sink::append` does. There must be space for them. At most 8 bytes are moved without a call of
/// memcpy, which costs more. No byte or one, as of most tokens, costs no call at all.
#[inline(always)]
pub fn append_short<S: Sink>(out: &mut S, bytes: &[u8])
    requires { length bytes.now ≤ S.space out.old }
    ensures appended { S.contents out.new ≡ S.contents out.old ++ bytes.now }
    ensures less_room { S.space out.new + length bytes.now ≡ S.space out.old }
{
    match bytes {
        [] => {}
        [one] => out.push(*one),
        _ => append_several(out, bytes),
    }
}

/// Does the same as `append_short`, and is never inlined.
#[inline(never)]
fn append_several<S: Sink>(out: &mut S, bytes: &[u8])
    requires { length bytes.now ≤ S.space out.old }
    ensures appended { S.contents out.new ≡ S.contents out.old ++ bytes.now }
    ensures less_room { S.space out.new + length bytes.now ≡ S.space out.old }
{
    if bytes.len() <= 4 {
        return append_few(out, bytes);
    }
    append_many(out, bytes);
}

/// Does the same as `append_short`. (A separate function: it saves registers, which 4 bytes do not need.)
#[inline(never)]
fn append_many<S: Sink>(out: &mut S, bytes: &[u8])
    requires { length bytes.now ≤ S.space out.old }
    ensures appended { S.contents out.new ≡ S.contents out.old ++ bytes.now }
    ensures less_room { S.space out.new + length bytes.now ≡ S.space out.old }
{
    if bytes.len() < 4 || 8 < bytes.len() {
        return out.append(bytes);
    }
    let (four, rest) = bytes.split_at(4);
    append_few(out, four);
    append_few(out, rest);
}

/// Appends bytes as `Sink::append` does. At most 4 bytes are an array, whose length the compiler knows.
#[inline(always)]
fn append_few<S: Sink>(out: &mut S, bytes: &[u8])
    requires { length bytes.now ≤ S.space out.old }
    ensures appended { S.contents out.new ≡ S.contents out.old ++ bytes.now }
    ensures less_room { S.space out.new + length bytes.now ≡ S.space out.old }
{
    match bytes {
        [] => {}
        [one] => out.push(*one),
        [one, two] => out.append(&[*one, *two]),
        [one, two, three] => out.append(&[*one, *two, *three]),
        [one, two, three, four] => out.append(&[*one, *two, *three, *four]),
        _ => out.append(bytes),
    }
}

/// Writes the first byte of a head, with this nibble of the token length, and the extension of the body's length.
#[inline(always)]
fn write_length<S: Sink>(out: &mut S, body: u64, nibble: u8)
    requires body { body ≤ greatest_length }
    requires nibble { nibble ≤ 14 }
    requires room { 1 + length (length_form body).1 ≤ S.space out.old }
    ensures appended { S.contents out.new
        ≡ S.contents out.old ++ (16 * (length_form body).0 + nibble) ∷ (length_form body).1 }
    ensures less_room { S.space out.new + (1 + length (length_form body).1) ≡ S.space out.old }
{
    // Most bodies are short.
    if body < 13 {
        return out.push(body as u8 * 16 + nibble);
    }
    if body < 269 {
        out.push(13 * 16 + nibble);
        return out.push((body - 13) as u8);
    }
    out.push(length_nibble(body) * 16 + nibble);
    write_length_extension(out, body);
}

/// Writes the head of an option: the first byte, the extension of the delta, and the extension of the length (RFC 7252
/// section 3.1). The head has at most 5 bytes.
///
/// The caller writes the value next. `count` is its length. The delta is the difference of `number` and `base`: the
/// number of the option before this one, or 0 if this is the first one.
///
/// # Preconditions
///
/// - `number` is not below `base`.
/// - `count` is at most 65,804, the largest length of a value.
/// - The sink has space for the head.
#[inline(always)]
pub fn write_option_head<S: Sink>(out: &mut S, base: u16, number: u16, count: u32)
    requires ordered { base ≤ number }
    requires short { count ≤ MAX_EXTENDED_LENGTH }
    requires room { length (option_head_spelling base number count) ≤ S.space out.old }
    ensures appended { S.contents out.new ≡ S.contents out.old ++ option_head_spelling base number count }
    ensures less_room { S.space out.new + length (option_head_spelling base number count) ≡ S.space out.old }
    // The head and a value of this length are the encoding of the option.
    ensures completed { (value : List ℕ) → length value ≡ count → option_head_spelling base number count ++ value
        ≡ option_spelling base (record { number = number; value = value }) }
{
    let delta = u32::from(number - base);
    out.push(option_nibble(delta) * 16 + option_nibble(count));
    write_option_extension(out, delta);
    write_option_extension(out, count);
}

/// Writes an option. The delta is the difference of its number and `base`.
#[inline(always)]
pub(crate) fn write_option<S: Sink>(out: &mut S, base: u16, number: u16, value: &[u8])
    requires ordered { base ≤ number }
    requires short { length value.now ≤ MAX_EXTENDED_LENGTH }
    requires room { length (option_spelling base (record { number = number; value = value.now })) ≤ S.space out.old }
    ensures appended { S.contents out.new
        ≡ S.contents out.old ++ option_spelling base (record { number = number; value = value.now }) }
    ensures less_room { S.space out.new + length (option_spelling base (record { number = number; value = value.now }))
        ≡ S.space out.old }
{
    let delta = u32::from(number - base);
    let count = value.len() as u32;
    // Most options have no extensions.
    if delta < 13 && count < 13 {
        out.push(delta as u8 * 16 + count as u8);
        return append_short(out, value);
    }
    write_option_head(out, base, number, count);
    out.append(value);
}

/// Writes all options.
pub(crate) fn write_options<S: Sink>(out: &mut S, options: &[OptionRef])
    requires ordered { AreOrdered 0 (coap_options options.now) }
    requires each { AllByRecursion HasOptionForm (coap_options options.now) }
    requires room { length (options_spelling 0 (coap_options options.now)) ≤ S.space out.old }
    ensures appended { S.contents out.new ≡ S.contents out.old ++ options_spelling 0 (coap_options options.now) }
    ensures less_room { S.space out.new + length (options_spelling 0 (coap_options options.now)) ≡ S.space out.old }
{
    let mut base = 0;
    for option in options {
        write_option(out, base, option.number, option.value);
        base = option.number;
    }
}

/// Returns the length of the payload marker: 1, or 0 if there is no payload.
pub(crate) fn marker_size(payload: &[u8]) -> u64
    ensures size { result ≡ length (payload_marker payload.now) }
    ensures bound { result ≤ 1 }
{
    u64::from(!payload.is_empty())
}

/// Writes the payload marker, or nothing if there is no payload.
pub(crate) fn write_marker<S: Sink>(out: &mut S, payload: &[u8])
    requires { length (payload_marker payload.now) ≤ S.space out.old }
    ensures appended { S.contents out.new ≡ S.contents out.old ++ payload_marker payload.now }
    ensures less_room { S.space out.new + length (payload_marker payload.now) ≡ S.space out.old }
{
    if !payload.is_empty() {
        out.push(PAYLOAD_MARKER);
    }
}
