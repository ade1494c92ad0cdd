//! Readers and writers of bytes: the traits `Source` and `Outlet`, and their implementations for those of std.

ghost use Rattle.std.specs.Prelude.{◌≡◌, ◌≤◌, ℕ, Bool, List, [], ◌∷◌, length, take, Option, None, is_none, IfSome};
ghost use Rattle.std.specs.Prelude.{IfNone, ◌||◌, false};
ghost use Rattle.coap_io.specs.Prelude.{DeviceTrace, HasGiven, pieces_read, AddsBytes, is_failed_write};

use std::io::{Read, Write};

/// Reader of bytes, such as standard input.
pub trait Source {
    /// Chunks that the reads returned so far, in order, and the bytes left to read, each if the source records them. A
    /// read that found the end gives an empty chunk.
    ghost trace: { Self → DeviceTrace };

    /// `true` if a read has failed.
    ghost is_failed: { Self → Bool };

    /// Reads at most `buffer.len()` bytes to the start of `buffer`, and returns their number: 0 at the end of input.
    /// Returns `None` if reading fails.
    fn read(&mut self, buffer: &mut [u8]) -> Option<usize>
        ensures within { IfSome result (λ n. n ≤ length buffer.new) }
        ensures given { IfSome result (λ n. HasGiven (trace self.old) (trace self.new) (pieces_read buffer.new n)) }
        ensures nothing { IfNone result (HasGiven (trace self.old) (trace self.new) []) }
        ensures failure { is_failed self.new ≡ (is_failed self.old || is_none result) };

    /// Returns `true` if a read has failed.
    fn failed(&self) -> bool
        ensures { result ≡ is_failed self.now };
}

/// Writer of bytes, such as standard output.
pub trait Outlet {
    /// Bytes written so far, if the outlet records them.
    ghost written: { Self → Option (List ℕ) };

    /// `true` if a write has failed: it returned no number, or 0 for at least one byte.
    ghost is_failed: { Self → Bool };

    /// Writes a prefix of `bytes` and returns its length. Returns `None` if writing fails.
    fn write(&mut self, bytes: &[u8]) -> Option<usize>
        ensures within { IfSome result (λ n. n ≤ length bytes.now) }
        ensures taken { IfSome result (λ n. AddsBytes (written self.old) (written self.new) (take n bytes.now)) }
        ensures nothing { IfNone result (AddsBytes (written self.old) (written self.new) []) }
        ensures failure { is_failed self.new ≡ (is_failed self.old || is_failed_write result bytes.now) };

    /// Returns `true` if a write has failed.
    fn failed(&self) -> bool
        ensures { result ≡ is_failed self.now };
}

/// `Source` over a reader of std. The bytes left to read are recorded if the reader records them. A read that a signal
/// interrupts has failed.
#[derive(Drop)]
pub struct ReadSource<R> {
    reader: R,
    failed: bool,
}

impl<R: Read> ReadSource<R> {
    /// Creates a source that has not failed.
    pub fn new(reader: R) -> ReadSource<R>
        ensures works { ⟦<ReadSource<R> as Source>⟧.is_failed result ≡ false }
        ensures trace { ⟦<ReadSource<R> as Source>⟧.trace result
            ≡ record { pieces = None; remaining = R.remaining reader } }
    {
        ReadSource {
            reader,
            failed: false,
        }
    }
}

impl<R: Read> Source for ReadSource<R> {
    ghost trace = { λ s. record { pieces = None; remaining = R.remaining s.reader } };

    ghost is_failed = { λ s. s.failed };

    fn read(&mut self, buffer: &mut [u8]) -> Option<usize> {
        match self.reader.read(buffer) {
            Ok(count) => Some(count),
            Err(_) => {
                self.failed = true;
                None
            }
        }
    }

    fn failed(&self) -> bool {
        self.failed
    }
}

/// `Outlet` over a writer of std. The bytes written are recorded if the writer records them. A write that a signal
/// interrupts has failed.
#[derive(Drop)]
pub struct WriteOutlet<W> {
    writer: W,
    failed: bool,
}

impl<W: Write> WriteOutlet<W> {
    /// Creates an outlet that has not failed.
    pub fn new(writer: W) -> WriteOutlet<W>
        ensures works { ⟦<WriteOutlet<W> as Outlet>⟧.is_failed result ≡ false }
        ensures written { ⟦<WriteOutlet<W> as Outlet>⟧.written result ≡ W.contents writer }
    {
        WriteOutlet {
            writer,
            failed: false,
        }
    }
}

impl<W: Write> Outlet for WriteOutlet<W> {
    ghost written = { λ s. W.contents s.writer };

    ghost is_failed = { λ s. s.failed };

    fn write(&mut self, bytes: &[u8]) -> Option<usize> {
        match self.writer.write(bytes) {
            Ok(count) => {
                if count == 0 && !bytes.is_empty() {
                    self.failed = true;
                }
                Some(count)
            }
            Err(_) => {
                self.failed = true;
                None
            }
        }
    }

    fn failed(&self) -> bool {
        self.failed
    }
}
