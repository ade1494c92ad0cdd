//! Finds a frame at the beginning of a chunk, and fills a buffer with the bytes of a split frame.
//!
//! A split frame is copied byte by byte up to the last byte that states its size, then in one copy.

ghost use Rattle.std.specs.Prelude.{◌≡◌, ◌+◌, ◌≤◌, ◌<◌, ◌++◌, [], length, take, vec_len, vec_capacity};
ghost use Rattle.coap_frame.specs.Prelude.{Unfinished, prefix_kind, token_bytes, size_bytes as size_bytes_of};
ghost use Rattle.coap_frame.specs.Prelude.{extension_of, IsHead, IsFilled, BASE_MESSAGE_SIZE, declared_in};
ghost use Rattle.coap_frame.specs.Prelude.{declared_of, outline_of};

use coap_wire::{FrameFault, FrameLayout, Outline, outline};

/// Reserved nibble of the token length (RFC 8974 section 2.1).
const NO_TOKEN_LENGTH: u8 = 15;

/// Status of the bytes taken from a chunk or collected in a buffer.
#[derive(Clone, Copy)]
pub(crate) enum FrameStatus {
    /// Beginning of a frame, or no byte: more bytes are needed.
    Unfinished,
    /// Exactly one whole frame, with this layout.
    Whole(FrameLayout),
    /// Malformed or oversized frame.
    Fault(FrameFault),
}

/// Returns the number of bytes to take from a chunk that begins a frame, and the status of these bytes.
pub(crate) fn classify(piece: &[u8], max: usize) -> (usize, FrameStatus)
    ensures { IsFilled max [] piece.now (take result.0 piece.now) result.0 result.1 }
{
    match outline(piece) {
        Outline::Unknown => (piece.len(), FrameStatus::Unfinished),
        Outline::BadToken => (
            size_bytes(piece),
            FrameStatus::Fault(FrameFault::TokenLength),
        ),
        Outline::Known { size, layout } => {
            if size > max as u64 {
                return (size_bytes(piece), FrameStatus::Fault(FrameFault::TooLarge));
            }
            if size > piece.len() as u64 {
                return (piece.len(), FrameStatus::Unfinished);
            }
            (size as usize, FrameStatus::Whole(layout))
        }
    }
}

/// Returns the number of bytes up to the last byte that states the size of a frame, or 0 without bytes. This is the
/// last byte of the length or, if the token length is extended, the last byte of that extension. A reserved token
/// length is known at the first byte (RFC 8323 section 3.2, RFC 8974 section 2.1).
fn size_bytes(frame: &[u8]) -> usize
    ensures { result ≡ size_bytes_of frame.now }
{
    let Some(first) = frame.first() else {
        return 0;
    };
    if *first % 16 == NO_TOKEN_LENGTH {
        return 1;
    }
    1 + extension(*first / 16) + code_and_extension(*first % 16)
}

/// Returns the number of bytes that extend a length with this nibble.
fn extension(nibble: u8) -> usize
    ensures { result ≡ extension_of nibble }
{
    match nibble {
        0..=12 => 0,
        13 => 1,
        14 => 2,
        _ => 4,
    }
}

/// Returns the number of bytes of the code and the token length's extension, or 0 if the token length has no extension.
fn code_and_extension(nibble: u8) -> usize
    ensures { result ≡ token_bytes nibble }
{
    match nibble {
        0..=12 => 0,
        13 => 2,
        _ => 3,
    }
}

/// Appends bytes to a buffer that has room for them.
pub(crate) fn append(buffer: &mut Vec<u8>, bytes: &[u8])
    requires { vec_len buffer.old + length bytes.now ≤ vec_capacity buffer.old }
    ensures items { buffer.new.items ≡ buffer.old.items ++ bytes.now }
    ensures capacity { vec_capacity buffer.old ≤ vec_capacity buffer.new }
{
    let Ok(()) = buffer.extend_from_slice(bytes) else {
        unreachable!()
    };
}

/// Returns the outline of the frame in a buffer. This is a function of its own so that `outline` is not inlined twice
/// more, for split frames alone.
#[inline(never)]
fn outline_in(buffer: &[u8]) -> Outline
    ensures exact { result ≡ outline_of buffer.now }
    ensures declared { declared_in result ≡ declared_of buffer.now }
{
    outline(buffer)
}

/// Appends bytes of the chunk until the buffer declares its size or an invalid token length, or the chunk ends. At most
/// 8 bytes are appended. Returns their number.
fn fill_head(buffer: &mut Vec<u8>, piece: &[u8]) -> (usize, Outline)
    requires { 8 ≤ vec_capacity buffer.old }
    ensures head { IsHead buffer.old.items piece.now buffer.new.items result.0 (declared_in result.1) }
    ensures outline { result.1 ≡ outline_of buffer.new.items }
    ensures capacity { vec_capacity buffer.old ≤ vec_capacity buffer.new }
{
    let mut taken = 0;
    let mut known = outline_in(buffer);
    while known == Outline::Unknown && taken < piece.len() {
        buffer.push_reserved(piece[taken]);
        taken += 1;
        known = outline_in(buffer);
    }
    (taken, known)
}

/// Appends bytes of the chunk until the buffer has a whole frame of at most `max` bytes or an error, or the chunk ends.
/// Returns the number of bytes taken.
pub(crate) fn fill(buffer: &mut Vec<u8>, max: usize, piece: &[u8]) -> (usize, FrameStatus)
    requires unfinished { prefix_kind max buffer.old.items ≡ Unfinished }
    requires low { BASE_MESSAGE_SIZE ≤ max }
    requires room { max ≤ vec_capacity buffer.old }
    ensures filled { IsFilled max buffer.old.items piece.now buffer.new.items result.0 result.1 }
    ensures capacity { vec_capacity buffer.old ≤ vec_capacity buffer.new }
{
    let (taken, known) = fill_head(buffer, piece);
    match known {
        Outline::Unknown => (taken, FrameStatus::Unfinished),
        Outline::BadToken => (taken, FrameStatus::Fault(FrameFault::TokenLength)),
        Outline::Known { size, layout } => {
            if size > max as u64 {
                return (taken, FrameStatus::Fault(FrameFault::TooLarge));
            }
            let missing = size as usize - buffer.len();
            let rest = &piece[taken..];
            if rest.len() < missing {
                append(buffer, rest);
                return (piece.len(), FrameStatus::Unfinished);
            }
            append(buffer, &rest[..missing]);
            (taken + missing, FrameStatus::Whole(layout))
        }
    }
}
