//! Paths, Content-Formats and methods as a C program names them.

ghost use Rattle.std.specs.Prelude.{◌≡◌, ◌≢◌, ◌<◌, length, map, drop, IfSome, IfNone, IfOk, OnOk, [], ◌∷◌, ◌++◌};
ghost use Rattle.std.specs.Prelude.{if◌then◌else◌, true, false, Some};
ghost use Rattle.c_api.specs.PathTexts.{text_segments, text_path, format_named, format_number, methods_named};
ghost use Rattle.c_api.specs.PathTexts.{listed_segments, listed_path, slashed, IsPathWritten};

use crate::bytes::put;
use crate::numbers::{NO_ROOM, NOT_A_PATH, SUCCESS};
use arrayvec::ArrayVec;
use coap_path::PathKey;
use coap_text::split_once;
use coap_wire::Code;
use std::alloc::{AllocError, Global};

/// Largest number of segments of a path.
const MAX_SEGMENTS: usize = 16;

/// Largest number of bytes of a path, with a slash before each segment.
const MAX_SLASHED: usize = 255;

/// Segments of a path, each after a slash.
type SlashedPath = ArrayVec<u8, MAX_SLASHED>;

/// Returns the segments of a text, or `None` if there are more than 16.
fn segments_in(text: &[u8]) -> Option<ArrayVec<&[u8], MAX_SEGMENTS>>
    ensures few { IfSome result (λ segments. map (λ s. s.now) segments.items ≡ text_segments text.now) }
    ensures many { IfNone result (16 < length (text_segments text.now)) }
{
    let mut segments = ArrayVec::new();
    if text.is_empty() {
        return Some(segments);
    }
    let mut left = text;
    while let Some((segment, rest)) = split_once(left, b'/') {
        segments.try_push(segment).ok()?;
        left = rest;
    }
    segments.try_push(left).ok()?;
    Some(segments)
}

/// Returns the path that a text names: segments with slashes between them. Returns `None` if a path cannot have these
/// segments.
pub(crate) fn path_in(text: &[u8]) -> Option<PathKey>
    ensures { result ≡ text_path text.now }
{
    let Some(segments) = segments_in(text) else {
        return None;
    };
    PathKey::from_segments(segments.as_slice())
}

/// Returns the segments of a list, each after a byte with its length. Returns `None` if the last one is truncated, or
/// if there are more than 16.
fn segments_at(list: &[u8]) -> Option<ArrayVec<&[u8], MAX_SEGMENTS>>
    ensures some { IfSome result (λ segments. listed_segments list.now ≡ Some (map (λ s. s.now) segments.items)) }
    ensures none { IfNone result (None ≡ listed_path list.now) }
{
    let mut segments = ArrayVec::new();
    let mut left = list;
    while let Some((size, rest)) = left.split_first() {
        let (segment, later) = rest.split_at_checked(usize::from(*size))?;
        segments.try_push(segment).ok()?;
        left = later;
    }
    Some(segments)
}

/// Returns the path that a list of segments names: each segment after a byte with its length. Returns `None` if the
/// list is truncated, or if a path cannot have these segments.
pub(crate) fn path_at(list: &[u8]) -> Option<PathKey>
    ensures { result ≡ listed_path list.now }
{
    let Some(segments) = segments_at(list) else {
        return None;
    };
    PathKey::from_segments(segments.as_slice())
}

/// Returns the segments of a path, each after a slash.
fn slashed(path: &PathKey) -> SlashedPath
    ensures { result.items ≡ slashed path.now }
{
    let mut text = ArrayVec::new();
    for segment in path.segments() {
        text.push(b'/');
        let Ok(()) = text.try_extend_from_slice(segment) else {
            unreachable!()
        };
    }
    text
}

/// Returns `true` if a text names this path.
fn names(text: &[u8], path: &PathKey) -> bool
    ensures yes { result ≡ true → text_path text.now ≡ Some path.now }
    ensures no { result ≡ false → text_path text.now ≢ Some path.now }
{
    match path_in(text) {
        Some(found) => found == *path,
        None => false,
    }
}

/// Writes the text that names a path to the start of a buffer, and sets the number of its bytes. Returns `NOT_A_PATH`
/// if no text names the path, or `NO_ROOM` if the text has more bytes than the buffer.
pub(crate) fn write_path(path: &PathKey, buffer: &mut [u8], length: &mut usize) -> u32
    ensures { IsPathWritten (Some path.now) buffer.old buffer.new length.old length.new result }
{
    let slashed = slashed(path);
    let text = without_first(&slashed);
    if !names(text, path) {
        return NOT_A_PATH;
    }
    if buffer.len() < text.len() {
        return NO_ROOM;
    }
    *length = put(buffer, 0, text);
    SUCCESS
}

/// Returns the bytes after the first one.
fn without_first(bytes: &[u8]) -> &[u8]
    ensures { result.now ≡ drop 1 bytes.now }
{
    match bytes.split_first() {
        Some((_, rest)) => rest,
        None => &[],
    }
}

/// Returns the Content-Format with this number, or `None` if the number is above 65,535.
pub(crate) fn format_of(number: u32) -> Option<u16>
    ensures { result ≡ format_named number }
{
    u16::try_from(number).ok()
}

/// Returns the number of a Content-Format, or 65,536 for none.
pub(crate) fn number_of_format(format: Option<u16>) -> u32
    ensures { result ≡ format_number format }
{
    match format {
        Some(number) => u32::from(number),
        None => 65_536,
    }
}

/// Returns the codes whose bits are set: bit n is the code 0.n.
///
/// # Errors
///
/// Returns `AllocError` if allocation fails.
pub(crate) fn methods_in(alloc: Global, bits: u32) -> Result<Vec<Code>, AllocError>
    ensures { IfOk result (λ methods. methods.items ≡ methods_named bits) }
{
    let mut methods = Vec::new(alloc);
    let mut rest = bits;
    for number in 0..32u8 {
        push_if(&mut methods, Code::new(number), rest % 2 == 1)?;
        rest /= 2;
    }
    Ok(methods)
}

/// Appends a code if its bit is set.
///
/// # Errors
///
/// Returns `AllocError` if allocation fails.
fn push_if(methods: &mut Vec<Code>, code: Code, is_set: bool) -> Result<(), AllocError>
    ensures { OnOk result (methods.new.items ≡ methods.old.items ++ (if is_set then code ∷ [] else [])) }
{
    if is_set {
        methods.push(code)?;
    }
    Ok(())
}
