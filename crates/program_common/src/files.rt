//! Reads whole files.

ghost use Rattle.std.specs.Prelude.{◌≡◌, ◌≢◌, ◌≤◌, length, IfOk, IfSome};
ghost use Rattle.std.specs.IoError.{error_kind};
ghost use Rattle.std.specs.declared.io.ErrorKind.TheVariants as kind;
ghost use Rattle.program_common.specs.declared.files.FileError.TheVariants as answer;

use std::alloc::Global;
use std::fs;
use std::io::{Error, ErrorKind, Read};
use std::rt::Files;

/// Error of `read_whole`.
#[derive(Clone, Copy, Debug, PartialEq, Eq)]
pub enum FileError {
    /// File that cannot be opened.
    Open,
    /// File that cannot be read.
    Read,
    /// File that is longer than the limit.
    TooLong,
    /// Failed allocation.
    Memory,
}

impl FileError {
    /// Returns the error for a file that could not be opened.
    pub fn of_opening(fault: &Error) -> FileError
        ensures memory { error_kind fault.now ≡ kind.OutOfMemory → result ≡ answer.Memory }
        ensures other { error_kind fault.now ≢ kind.OutOfMemory → result ≡ answer.Open }
    {
        if fault.kind() == ErrorKind::OutOfMemory {
            FileError::Memory
        } else {
            FileError::Open
        }
    }
}

/// Returns all bytes of a reader, at most `most`.
fn bytes_of<R: Read>(alloc: Global, reader: &mut R, most: usize) -> Result<Vec<u8>, FileError>
    ensures most { IfOk result (λ bytes. length bytes.items ≤ most) }
    ensures all { IfOk result (λ bytes. IfSome (R.remaining reader.old) (λ rest. bytes.items ≡ rest)) }
{
    let mut bytes = Vec::new(alloc);
    match reader
        .take((most as u64).saturating_add(1))
        .read_to_end(&mut bytes)
    {
        Ok(_) if bytes.len() > most => Err(FileError::TooLong),
        Ok(_) => Ok(bytes),
        Err(fault) if fault.kind() == ErrorKind::OutOfMemory => Err(FileError::Memory),
        Err(_) => Err(FileError::Read),
    }
}

/// Returns the bytes of the file with this name, or of standard input if the name is `-`: at most `most` bytes.
///
/// # Errors
///
/// - `Open`: the file cannot be opened.
/// - `Read`: the file cannot be read.
/// - `TooLong`: the file has more bytes. One byte more than `most` was read.
/// - `Memory`: an allocation failed.
pub fn read_whole(
    rt: &(impl Input + Files + AllocGlobal),
    name: &str,
    most: usize,
) -> Result<Vec<u8>, FileError>
    ensures { IfOk result (λ bytes. length bytes.items ≤ most) }
{
    if name == "-" {
        return bytes_of(rt.alloc(), &mut rt.reader(), most);
    }
    match fs::open(rt, name) {
        Ok(mut file) => bytes_of(rt.alloc(), &mut file, most),
        Err(fault) => Err(FileError::of_opening(&fault)),
    }
}
