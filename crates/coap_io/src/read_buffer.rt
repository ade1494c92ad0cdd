//! Read buffer of a connection: bytes read from a wire that are not accepted yet.

ghost use Rattle.std.specs.Prelude.{◌≡◌, ◌≤◌, length, ◌==◌, ◌-◌, [], ◌∷◌, drop, IfOk};
ghost use Rattle.coap_io.specs.Prelude.{AddsBytes, AddsCalls, count_passed, READ_SIZE};

use crate::wire::{Got, Wire};
use std::alloc::{AllocError, Global};
use std::marker::Model;

/// Maximum number of bytes of one read.
pub const READ_SIZE: usize = 16_384;

/// Read buffer of a connection. In contracts its value is the list of bytes that were read and are not accepted yet.
#[derive(Drop)]
pub struct ReadBuffer {
    buffer: Vec<u8>,
    from: usize,
    to: usize,
}

impl Model for ReadBuffer {
    ghost use Rattle.std.specs.Prelude.{ℕ, List};

    ghost Value = { List ℕ };

    ghost use Rattle.coap_io.specs.views.ReadBufferViews.{rest_value, is_rest};

    ghost view = { rest_value };

    ghost invariant = { is_rest };
}

impl ReadBuffer {
    /// Creates an empty buffer. The memory of 16,384 bytes is reserved once.
    ///
    /// # Errors
    ///
    /// Returns `AllocError` if allocation fails.
    pub fn new(alloc: Global) -> Result<ReadBuffer, AllocError>
        ensures { IfOk result (λ r. r ≡ []) }
    {
        Ok(ReadBuffer {
            buffer: vec![in alloc; 0; READ_SIZE]?,
            from: 0,
            to: 0,
        })
    }

    /// Returns `true` if all bytes that were read have been accepted.
    pub fn is_empty(&self) -> bool
        ensures { result ≡ (length self.now == 0) }
    {
        self.from == self.to
    }

    /// Returns the bytes that are not accepted yet.
    pub fn bytes(&self) -> &[u8]
        ensures { result.now ≡ self.now }
    {
        &self.buffer[self.from..self.to]
    }

    /// Removes the first `count` bytes, after they were accepted.
    ///
    /// # Preconditions
    ///
    /// `count` is at most the number of bytes in the buffer.
    pub fn advance(&mut self, count: usize)
        requires { count ≤ length self.old }
        ensures { self.new ≡ drop count self.old }
    {
        self.from += count;
    }

    /// Removes all bytes.
    pub fn clear(&mut self)
        ensures { self.new ≡ [] }
    {
        self.from = 0;
        self.to = 0;
    }

    /// Replaces the bytes in the buffer with those of one read from the wire: at most 16,384, and none unless the
    /// result is `Bytes`.
    pub fn read<W: Wire>(&mut self, wire: &mut W) -> Got
        ensures count { length self.new ≡ count_passed result }
        ensures gave { AddsBytes (W.given wire.old) (W.given wire.new) self.new }
        ensures wrote { AddsBytes (W.written wire.old) (W.written wire.new) [] }
        ensures answered { AddsCalls (W.answers wire.old) (W.answers wire.new) (result ∷ []) }
        ensures had_room { AddsCalls (W.rooms wire.old) (W.rooms wire.new) (READ_SIZE ∷ []) }
    {
        self.from = 0;
        self.to = 0;
        let got = wire.read(&mut self.buffer);
        if let Got::Bytes(count) = got {
            self.to = count;
        }
        got
    }
}
