//! The words of a script's lines, and their values.

ghost use Rattle.std.specs.Prelude.{◌≡◌, ◌<◌, length, map, IfSome, IfNone, IfOk, option_map};
ghost use Rattle.coap_script.specs.Prelude.{cow_slice_items};
ghost use Rattle.coap_script.specs.script.Words as spec;

use arrayvec::ArrayVec;
use coap_store::PathKey;
use coap_text::{bytes_in, is_hyphen, number_in, split_once};
use percent_encoding::percent_decode;
use std::alloc::{AllocError, Global};
use std::borrow::CowSlice;

/// Returns the bytes that a word encodes in hexadecimal digits, or no bytes if the word is a hyphen. Returns `None` for
/// any other word.
///
/// # Errors
///
/// Returns `AllocError` if allocation fails.
pub(super) fn payload_in(alloc: Global, word: &[u8]) -> Result<Option<Vec<u8>>, AllocError>
    ensures { IfOk result (λ found. option_map (λ v. v.items) found ≡ spec.payload_value word.now) }
{
    if is_hyphen(word) {
        return Ok(Some(Vec::new(alloc)));
    }
    bytes_in(alloc, word)
}

/// Returns the Content-Format that a word names: a number of at most 65,535, or no format if the word is a hyphen.
/// Returns `None` for any other word.
pub(super) fn format_in(word: &[u8]) -> Option<Option<u16>>
    ensures { result ≡ spec.format_value word.now }
{
    if is_hyphen(word) {
        return Some(None);
    }
    let number = number_in(word)?;
    let format = u16::try_from(number).ok()?;
    Some(Some(format))
}

/// Returns the segments of a path after its first slash, each percent-decoded.
///
/// # Errors
///
/// Returns `AllocError` if allocation fails.
fn segments_in(alloc: Global, text: &[u8]) -> Result<Vec<CowSlice<'_, u8>>, AllocError>
    ensures { IfOk result (λ v. map cow_slice_items v.items ≡ spec.segments_of text.now) }
{
    let mut segments = Vec::new(alloc);
    if text.is_empty() {
        return Ok(segments);
    }
    let mut left = text;
    while let Some((segment, rest)) = split_once(left, b'/') {
        segments.push(percent_decode(segment).into_cow(alloc)?)?;
        left = rest;
    }
    segments.push(percent_decode(left).into_cow(alloc)?)?;
    Ok(segments)
}

/// Returns the path that a word names, or `None` if it names none. The word is a slash, followed by percent-encoded
/// segments with a slash between each two.
///
/// # Errors
///
/// Returns `AllocError` if allocation fails.
pub fn path_in(alloc: Global, word: &[u8]) -> Result<Option<PathKey>, AllocError>
    ensures { IfOk result (λ found. found ≡ spec.path_value word.now) }
{
    let Some((first, text)) = word.split_first() else {
        return Ok(None);
    };
    if *first != b'/' {
        return Ok(None);
    }
    let decoded = segments_in(alloc, text)?;
    let segments: Vec<&[u8]> = decoded
        .iter()
        .map(|segment| segment.as_slice())
        .collect(alloc)?;
    Ok(PathKey::from_segments(&segments))
}

/// Largest number of words in a line.
const MAX_WORDS: usize = 4;

/// Returns the words of a line, or `None` if there are more than four.
pub(super) fn words_in(line: &[u8]) -> Option<ArrayVec<&[u8], MAX_WORDS>>
    ensures few { IfSome result (λ words. map (λ w. w.now) words.items ≡ spec.words_of line.now) }
    ensures many { IfNone result (4 < length (spec.words_of line.now)) }
{
    let mut words = ArrayVec::new();
    let mut left = line;
    while let Some((word, rest)) = split_once(left, b' ') {
        words.try_push(word).ok()?;
        left = rest;
    }
    words.try_push(left).ok()?;
    Some(words)
}
