//! The calls that make spans. They alone set the bytes that contracts see of a span.

ghost use Rattle.std.specs.Prelude.{◌≡◌, ◌+◌, ◌≤◌, length};
ghost use Rattle.c_handle.specs.Spans.{place_whole, span_with, span_whole, span_at};

use crate::span::Span;

/// Address of the first byte, and number of bytes.
#[derive(Drop)]
struct Place {
    at: *const u8,
    count: usize,
}

/// Returns the place of these bytes.
fn place_of(bytes: &[u8]) -> Place
    ensures { result ≡ place_whole bytes.entry }
{
    Place {
        at: bytes.as_ptr(),
        count: bytes.len(),
    }
}

/// Returns the span at this place. Contracts see these bytes of it.
fn span_with(at: *const u8, count: usize, _bytes: &[u8]) -> Span
    ensures { result ≡ span_with at count _bytes.now }
{
    Span { at, count }
}

/// Returns the span of these bytes.
pub fn span_of(bytes: &[u8]) -> Span
    ensures { result ≡ span_whole bytes.entry }
{
    let place = place_of(bytes);
    span_with(place.at, place.count, bytes)
}

/// Returns the span of the `count` bytes from `at` on.
pub fn span_within(bytes: &[u8], at: usize, count: usize) -> Span
    requires { at + count ≤ length bytes.now }
    ensures { result ≡ span_at bytes.entry at count }
{
    let place = place_of(bytes);
    span_with(
        unsafe { place.at.byte_add(at) },
        count,
        &bytes[at..at + count],
    )
}
