//! Functions that write whole slices to an outlet.

ghost use Rattle.std.specs.Prelude.{◌≡◌, ◌++◌, false, OnOk, OnErr, is_err};
ghost use Rattle.coap_io.specs.Prelude.{AddsBytes, WritesPart};

use crate::device::Outlet;
use thiserror::Error;

/// Error of `write_all` and `write_parts`: a write failed.
#[derive(Clone, Copy, Debug, PartialEq, Eq, Error)]
#[error("cannot write")]
pub struct WriteFailed;

/// Writes the bytes of two slices to an outlet, one after the other.
///
/// # Errors
///
/// - `WriteFailed`: a write failed. Only a prefix of the bytes was written, not all of them.
///
/// # Preconditions
///
/// No write to the outlet has failed before.
pub fn write_parts<W: Outlet>(
    writer: &mut W,
    first: &[u8],
    second: &[u8],
) -> Result<(), WriteFailed>
    requires { W.is_failed writer.old ≡ false }
    ensures ok { OnOk result (AddsBytes (W.written writer.old) (W.written writer.new) (first.now ++ second.now)) }
    ensures part { OnErr result (WritesPart (W.written writer.old) (W.written writer.new)
        (first.now ++ second.now)) }
    ensures failure { W.is_failed writer.new ≡ is_err result }
{
    write_all(writer, first)?;
    write_all(writer, second)?;
    Ok(())
}

/// Writes all bytes of a slice to an outlet.
///
/// # Errors
///
/// - `WriteFailed`: a write failed. Only a prefix of the bytes was written, not all of them.
///
/// # Preconditions
///
/// No write to the outlet has failed before.
pub fn write_all<W: Outlet>(writer: &mut W, bytes: &[u8]) -> Result<(), WriteFailed>
    requires { W.is_failed writer.old ≡ false }
    ensures ok { OnOk result (AddsBytes (W.written writer.old) (W.written writer.new) bytes.now) }
    ensures part { OnErr result (WritesPart (W.written writer.old) (W.written writer.new) bytes.now) }
    ensures failure { W.is_failed writer.new ≡ is_err result }
{
    let mut left = bytes;
    while !left.is_empty() {
        let Some(count) = writer.write(left) else {
            return Err(WriteFailed);
        };
        if count == 0 {
            return Err(WriteFailed);
        }
        left = &left[count..];
    }
    Ok(())
}
