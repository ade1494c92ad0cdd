//! `describe_head`, which describes a message by its first bytes.

ghost use Rattle.std.specs.Prelude.{◌≡◌, ◌≤◌, ◌<◌, ◌++◌, [], ◌∷◌, length, drop};
ghost use Rattle.coap_wire.specs.Forms.{extension_of};
ghost use Rattle.coap_wire.specs.Reading.{declared_of};
ghost use Rattle.coap_print.specs.Lines.{appended};
ghost use Rattle.coap_print.specs.declared.line.TheConstants.{LINE_LENGTH};
ghost use Rattle.coap_log.specs.Glimpses as spec;

use crate::tap::DESCRIBED;
use arrayvec::ArrayVec;
use coap_print::{Line, describe};
use coap_wire::{Code, Declared, declared, parse};

/// Maximum number of bytes of a header with a two-byte extension of the length, up to the code.
const HEADER: usize = 3;

/// Maximum number of bytes of a frame that is made of the first bytes of a message and another header.
const REFRAMED: usize = DESCRIBED + HEADER;

/// Appends a message to a line, by its first bytes and its size.
///
/// If these are all bytes of the message, `describe` appends it. Otherwise the number of these bytes and the size come
/// first, as in `first 2048 of 70312 bytes: 0.03 PUT token 2a Uri-Path="log" payload 2029 bytes "..."`. If the options
/// do not end within these bytes, only the code and the token are appended.
///
/// # Preconditions
///
/// There are at most 2,048 first bytes.
#[tactic(auto, using(coap_print::proofs::LineLaws::pieces), unfolding(crate::specs::Glimpses::head_text))]
pub fn describe_head(line: &mut Line, head: &[u8], size: u64)
    requires { length head.now ≤ DESCRIBED }
    ensures { line.new ≡ appended LINE_LENGTH line.old (spec.head_text head.now size) }
{
    if size <= head.len() as u64 {
        append_frame(line, head);
        return;
    }
    line.text("first ");
    line.number(head.len() as u64);
    line.text(" of ");
    line.number(size);
    line.text(" bytes: ");
    append_long(line, head);
}

/// Returns the code of a message, by its first bytes. The result is `None` if the code is not one of them.
#[tactic(auto, unfolding(crate::specs::Glimpses::head_code))]
pub fn head_code(head: &[u8]) -> Option<Code>
    ensures { result ≡ spec.head_code head.now }
{
    let (first, after) = head.split_first()?;
    let code = from_code(*first / 16, after).first()?;
    Some(Code::new(*code))
}

/// Appends a whole frame.
fn append_frame(line: &mut Line, frame: &[u8])
    ensures { line.new ≡ appended LINE_LENGTH line.old (spec.frame_text frame.now) }
{
    match parse(frame) {
        Ok(message) => describe(line, &message),
        Err(_) => line.text("malformed message"),
    }
}

/// Appends a frame of which these are the first bytes.
fn append_long(line: &mut Line, head: &[u8])
    requires { length head.now ≤ DESCRIBED }
    ensures { line.new ≡ appended LINE_LENGTH line.old (spec.long_text head.now) }
{
    match head.split_first() {
        Some((first, after)) => append_cut(line, *first % 16, from_code(*first / 16, after)),
        None => line.text("malformed message"),
    }
}

/// Returns the bytes from the code on, if the length has this nibble and these bytes follow the first one.
fn from_code(nibble: u8, after: &[u8]) -> &[u8]
    requires { nibble < 16 }
    ensures bytes { result.now ≡ drop (extension_of nibble) after.now }
    ensures fewer { length result.now ≤ length after.now }
{
    let count = match nibble {
        0..=12 => 0,
        13 => 1,
        14 => 2,
        _ => 4,
    };
    after.get(count..).unwrap_or_default()
}

/// Appends a frame whose body is cut, or its code and token if its options are cut.
fn append_cut(line: &mut Line, nibble: u8, rest: &[u8])
    requires nibble { nibble < 16 }
    requires room { length rest.now < DESCRIBED }
    ensures { line.new ≡ appended LINE_LENGTH line.old (spec.cut_frame_text nibble rest.now) }
{
    let spare = spare_bytes(nibble, rest);
    let frame = reframed(&long_header(nibble, spare), rest);
    match parse(frame.as_slice()) {
        Ok(message) => describe(line, &message),
        Err(_) => append_bare(line, nibble, rest),
    }
}

/// Appends the code and the token of a frame.
fn append_bare(line: &mut Line, nibble: u8, rest: &[u8])
    requires { length rest.now < DESCRIBED }
    ensures { line.new ≡ appended LINE_LENGTH line.old (spec.frame_text (spec.bare_frame nibble rest.now)) }
{
    let frame = reframed(&[nibble], rest);
    let size = size_in(frame.as_slice()).min(frame.len());
    append_frame(line, &frame.as_slice()[..size]);
}

/// Returns the number of bytes that a body of 269 bytes leaves over.
fn spare_bytes(nibble: u8, rest: &[u8]) -> u16
    requires nibble { nibble < 16 }
    requires room { length rest.now < DESCRIBED }
    ensures { result ≡ spec.spare nibble rest.now }
{
    let frame = reframed(&long_header(nibble, 0), rest);
    frame.len().saturating_sub(size_in(frame.as_slice())) as u16
}

/// Returns the bytes before the code of a frame with a body of 269 + `extension` bytes.
fn long_header(nibble: u8, extension: u16) -> [u8; 3]
    requires { nibble < 16 }
    ensures { result ≡ spec.long_header nibble extension }
{
    [
        224 + nibble,
        (extension / 256) as u8,
        (extension % 256) as u8,
    ]
}

/// Returns the size that the first bytes of a frame declare, or 0.
fn size_in(frame: &[u8]) -> usize
    ensures { result ≡ spec.size_in (declared_of frame.now) }
{
    match declared(frame) {
        Declared::Unknown => 0,
        Declared::Size(size) => size as usize,
        Declared::BadToken => 0,
    }
}

/// Returns a header, followed by other bytes.
fn reframed(header: &[u8], rest: &[u8]) -> ArrayVec<u8, REFRAMED>
    requires header { length header.now ≤ HEADER }
    requires rest { length rest.now < DESCRIBED }
    ensures { result.items ≡ header.now ++ rest.now }
{
    let mut frame = ArrayVec::new();
    let (Ok(()), Ok(())) = (
        frame.try_extend_from_slice(header),
        frame.try_extend_from_slice(rest),
    ) else {
        unreachable!()
    };
    frame
}
