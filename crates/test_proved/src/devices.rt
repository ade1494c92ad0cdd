//! A reader and a writer that record everything.

ghost use Rattle.std.specs.Prelude.{◌≡◌, false, [], Some, None, map, vec_items};

use coap_serve::{Outlet, Source};
use std::alloc::Global;

/// Reader over bytes that records the result of each read. A read returns at most `most` bytes.
#[derive(Drop)]
pub struct Pieces<'a> {
    pub rest: &'a [u8],
    most: usize,
    pub given: Vec<Vec<u8>>,
    pub failed: bool,
}

impl<'a> Pieces<'a> {
    /// Creates a reader over these bytes.
    pub fn new(alloc: Global, bytes: &'a [u8], most: usize) -> Pieces<'a>
        ensures works { result.failed ≡ false }
        ensures fresh { result.given.items ≡ [] }
    {
        Pieces {
            rest: bytes,
            most,
            given: Vec::new(alloc),
            failed: false,
        }
    }
}

impl Source for Pieces<'_> {
    ghost trace = { λ s. record { pieces = Some (map vec_items s.given.items); remaining = None } };

    ghost is_failed = { λ s. s.failed };

    fn read(&mut self, buffer: &mut [u8]) -> Option<usize> {
        let count = buffer.len().min(self.rest.len()).min(self.most);
        if buffer.is_empty() {
            return Some(0);
        }
        let front = &self.rest[..count];
        let Ok(piece) = front.to_vec(*self.given.allocator()) else {
            self.failed = true;
            return None;
        };
        let Ok(()) = self.given.push(piece) else {
            self.failed = true;
            return None;
        };
        buffer[..count].copy_from_slice(front);
        self.rest = &self.rest[count..];
        Some(count)
    }

    fn failed(&self) -> bool {
        self.failed
    }
}

/// Writer that records the bytes written. A write accepts at most `most` bytes. Writes after the first `left` fail.
#[derive(Drop)]
pub struct RecordingOutlet {
    pub bytes: Vec<u8>,
    most: usize,
    left: usize,
    pub failed: bool,
}

impl RecordingOutlet {
    /// Creates a writer.
    pub fn new(alloc: Global, most: usize, left: usize) -> RecordingOutlet
        ensures works { result.failed ≡ false }
        ensures fresh { result.bytes.items ≡ [] }
    {
        RecordingOutlet {
            bytes: Vec::new(alloc),
            most,
            left,
            failed: false,
        }
    }
}

impl Outlet for RecordingOutlet {
    ghost written = { λ l. Some l.bytes.items };

    ghost is_failed = { λ l. l.failed };

    fn write(&mut self, bytes: &[u8]) -> Option<usize> {
        let count = bytes.len().min(self.most);
        if self.left == 0 || self.bytes.extend_from_slice(&bytes[..count]).is_err() {
            self.failed = true;
            return None;
        }
        self.left -= 1;
        if count == 0 && !bytes.is_empty() {
            self.failed = true;
        }
        Some(count)
    }

    fn failed(&self) -> bool {
        self.failed
    }
}
