//! Writes the words of a line to an outlet, piece by piece.

ghost use Rattle.std.specs.Prelude.{◌≡◌, ◌∷◌, map, false, is_err};
ghost use Rattle.coap_record.specs.Prelude.{concat, flat_map, encode_lower, bytes_text, encoded_byte, path_bytes};
ghost use Rattle.coap_record.specs.Prelude.{path_word, slash, WritesText};

use coap_io::{Outlet, WriteFailed, write_all};
use coap_store::{ESCAPED, PathKey};
use percent_encoding::percent_encode;

/// Number of bytes that are written in hexadecimal at once.
const PIECE: usize = 64;

/// Writes the bytes of all slices, in order.
///
/// # Errors
///
/// - `WriteFailed`: a write failed. Only a prefix of the bytes was written.
pub(crate) fn write_pieces<O: Outlet>(outlet: &mut O, pieces: &[&[u8]]) -> Result<(), WriteFailed>
    requires { O.is_failed outlet.old ≡ false }
    ensures text { WritesText (O.written outlet.old) (O.written outlet.new) (concat (map (λ p. p.now) pieces.now))
        result }
    ensures failure { O.is_failed outlet.new ≡ is_err result }
{
    for piece in pieces {
        write_all(outlet, piece)?;
    }
    Ok(())
}

/// Writes bytes as pairs of hexadecimal digits, in lower case.
///
/// # Errors
///
/// - `WriteFailed`: a write failed. Only a prefix of the digits was written.
pub(crate) fn write_hex<O: Outlet>(outlet: &mut O, bytes: &[u8]) -> Result<(), WriteFailed>
    requires { O.is_failed outlet.old ≡ false }
    ensures text { WritesText (O.written outlet.old) (O.written outlet.new) (encode_lower bytes.now) result }
    ensures failure { O.is_failed outlet.new ≡ is_err result }
{
    let mut digits = [0; 2 * PIECE];
    let mut left = bytes;
    while !left.is_empty() {
        let (piece, rest) = left.split_at(left.len().min(PIECE));
        let count = 2 * piece.len();
        let Ok(()) = hex::encode_to_slice(piece, &mut digits[..count]) else {
            unreachable!()
        };
        write_all(outlet, &digits[..count])?;
        left = rest;
    }
    Ok(())
}

/// Writes bytes as pairs of hexadecimal digits, or a hyphen if there are none.
///
/// # Errors
///
/// - `WriteFailed`: a write failed. Only a prefix of the text was written.
pub(crate) fn write_payload<O: Outlet>(outlet: &mut O, bytes: &[u8]) -> Result<(), WriteFailed>
    requires { O.is_failed outlet.old ≡ false }
    ensures text { WritesText (O.written outlet.old) (O.written outlet.new) (bytes_text bytes.now) result }
    ensures failure { O.is_failed outlet.new ≡ is_err result }
{
    if bytes.is_empty() {
        return write_all(outlet, b"-");
    }
    write_hex(outlet, bytes)
}

/// Writes a slash and the escaped segment (RFC 3986 section 2.1).
///
/// # Errors
///
/// - `WriteFailed`: a write failed. Only a prefix of the text was written.
fn write_segment<O: Outlet>(outlet: &mut O, segment: &[u8]) -> Result<(), WriteFailed>
    requires { O.is_failed outlet.old ≡ false }
    ensures text { WritesText (O.written outlet.old) (O.written outlet.new)
        (slash ∷ flat_map encoded_byte segment.now) result }
    ensures failure { O.is_failed outlet.new ≡ is_err result }
{
    write_all(outlet, b"/")?;
    for piece in percent_encode(segment, ESCAPED) {
        write_all(outlet, piece.as_bytes())?;
    }
    Ok(())
}

/// Writes each segment of a path after a slash, and one slash for the root.
///
/// # Errors
///
/// - `WriteFailed`: a write failed. Only a prefix of the text was written.
pub(crate) fn write_path<O: Outlet>(outlet: &mut O, path: &PathKey) -> Result<(), WriteFailed>
    requires { O.is_failed outlet.old ≡ false }
    ensures text { WritesText (O.written outlet.old) (O.written outlet.new) (path_word path.now) result }
    ensures failure { O.is_failed outlet.new ≡ is_err result }
{
    let mut segments = path.segments();
    let Some(first) = segments.next() else {
        return write_all(outlet, b"/");
    };
    write_segment(outlet, first)?;
    for segment in segments {
        write_segment(outlet, segment)?;
    }
    Ok(())
}
