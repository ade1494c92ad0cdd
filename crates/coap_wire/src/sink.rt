//! `Sink`, the destination of an encoding, for `Vec<u8>` with reserved capacity, for `ArrayVec`, and for a slice
//! (`SliceSink`).

ghost use Rattle.std.specs.Prelude.{◌≡◌, ℕ, ◌+◌, ◌-◌, ◌<◌, ◌≤◌, List, [], ◌∷◌, ◌++◌, length, take, drop, vec_len};
ghost use Rattle.std.specs.Prelude.{vec_capacity};

use arrayvec::ArrayVec;
use std::marker::Model;

/// Destination of bytes, with space that was allocated before.
pub trait Sink {
    /// Bytes in the sink.
    ghost contents: { Self → List ℕ };

    /// Number of bytes that can still be appended.
    ghost space: { Self → ℕ };

    /// Returns the number of bytes that can still be appended.
    fn room(&self) -> usize
        ensures { result ≡ space self.now };

    /// Appends a byte.
    ///
    /// # Preconditions
    ///
    /// There is space for the byte.
    fn push(&mut self, byte: u8)
        requires { 0 < space self.old }
        ensures appended { contents self.new ≡ contents self.old ++ byte ∷ [] }
        ensures less_room { space self.new + 1 ≡ space self.old };

    /// Appends a slice.
    ///
    /// # Preconditions
    ///
    /// There is space for all bytes of the slice.
    fn append(&mut self, bytes: &[u8])
        requires { length bytes.now ≤ space self.old }
        ensures appended { contents self.new ≡ contents self.old ++ bytes.now }
        ensures less_room { space self.new + length bytes.now ≡ space self.old }
    {
        for byte in bytes {
            self.push(*byte);
        }
    }
}

/// A `Vec<u8>` accepts bytes up to its capacity and never grows.
impl Sink for Vec<u8> {
    ghost contents = { λ v. v.items };

    ghost space = { λ v. vec_capacity v - vec_len v };

    fn room(&self) -> usize {
        self.capacity() - self.len()
    }

    fn push(&mut self, byte: u8) {
        self.push_reserved(byte);
    }
}

/// An `ArrayVec<u8, N>` accepts bytes until it has `N`.
impl<const N: usize> Sink for ArrayVec<u8, N> {
    ghost contents = { λ v. v.items };

    ghost space = { λ v. N - length v.items };

    fn room(&self) -> usize {
        self.remaining_capacity()
    }

    fn push(&mut self, byte: u8) {
        self.push(byte);
    }

    fn append(&mut self, bytes: &[u8]) {
        prove!(bytes.len() <= self.remaining_capacity());
        let Ok(()) = self.try_extend_from_slice(bytes) else {
            unreachable!()
        };
    }
}

/// Slice that is filled from its start. Contracts see the bytes written and the bytes after them.
#[derive(Drop)]
pub struct SliceSink<'a> {
    bytes: &'a mut [u8],
    filled: usize,
}

impl<'a> Model for SliceSink<'a> {
    ghost Value = { List ℕ × List ℕ };

    ghost view = { λ s. (take s.filled s.bytes.now, drop s.filled s.bytes.now) };

    ghost invariant = { λ s. s.filled ≤ length s.bytes.now };
}

impl<'a> SliceSink<'a> {
    /// Creates a sink over the whole slice, with no byte written.
    pub fn new(bytes: &'a mut [u8]) -> SliceSink<'a>
        ensures empty { result.0 ≡ [] }
        ensures after { result.1 ≡ bytes.old }
    {
        SliceSink { bytes, filled: 0 }
    }

    /// Returns the bytes written so far.
    pub fn written(&self) -> &[u8]
        ensures { result.now ≡ self.now.0 }
    {
        &self.bytes[..self.filled]
    }
}

impl Sink for SliceSink<'_> {
    ghost contents = { λ s. s.0 };

    ghost space = { λ s. length s.1 };

    fn room(&self) -> usize {
        self.bytes.len() - self.filled
    }

    // The bytes after the written ones are unchanged.
    fn push(&mut self, byte: u8)
        requires { 0 < length self.old.1 }
        ensures appended { self.new.0 ≡ self.old.0 ++ byte ∷ [] }
        ensures less_room { length self.new.1 + 1 ≡ length self.old.1 }
        ensures after { self.new.1 ≡ drop 1 self.old.1 }
    {
        self.bytes[self.filled] = byte;
        self.filled += 1;
    }
}
