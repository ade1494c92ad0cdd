//! Transport connections, the listener that hands them out, and the clock.

ghost use Rattle.std.specs.Prelude.{◌≡◌, ◌≤◌, ℕ, Bool, List, [], ◌∷◌, length, Option, None, option_and_then};
ghost use Rattle.coap_io.specs.Prelude.{AddsBytes, AddsCalls, Closed, DoorCall, Requested, Waited, IsWithin};
ghost use Rattle.coap_io.specs.Prelude.{MatchesTrace, bytes_passed, Got, wait_at_most};

/// Result of a read or a write of a wire.
#[derive(Clone, Copy, Debug, PartialEq, Eq)]
pub enum Got {
    /// Number of bytes read or written, at least 1.
    Bytes(usize),
    /// No byte now: the caller may try again later.
    Later,
    /// End of the bytes that the peer sends. A write with this result has failed.
    End,
    /// Failure of the wire.
    Failed,
}

/// Transport connection, which delivers bytes in order (RFC 8323 section 3). The wires of a door never block; that of a
/// client may block in `read`.
pub trait Wire {
    /// Bytes that the reads returned so far, in order, if the wire records them.
    ghost given: { Self → Option (List ℕ) };

    /// Bytes that the writes accepted so far, in order, if the wire records them.
    ghost written: { Self → Option (List ℕ) };

    /// Results of the reads and writes so far, in order, if the wire records them.
    ghost answers: { Self → Option (List Got) } = { λ _. None };

    /// Length of the buffer of each read so far, in order, if the wire records them.
    ghost rooms: { Self → Option (List ℕ) } = { λ _. None };

    /// Reads at least 1 and at most `buffer.len()` bytes to the start of `buffer`. Returns `Later` if no byte is
    /// available now, `End` if the peer sends nothing more, and `Failed` if reading fails.
    ///
    /// # Preconditions
    ///
    /// `buffer` is not empty.
    fn read(&mut self, buffer: &mut [u8]) -> Got
        requires room { 1 ≤ length buffer.old }
        ensures within { IsWithin (length buffer.new) result }
        ensures gave { AddsBytes (given self.old) (given self.new) (bytes_passed buffer.new result) }
        ensures wrote { AddsBytes (written self.old) (written self.new) [] }
        ensures answered { AddsCalls (answers self.old) (answers self.new) (result ∷ []) }
        ensures had_room { AddsCalls (rooms self.old) (rooms self.new) (length buffer.new ∷ []) };

    /// Writes a prefix of `bytes`, at least 1 byte. Returns `Later` if no byte can be written now, and `Failed` or
    /// `End` if writing fails.
    ///
    /// # Preconditions
    ///
    /// `bytes` is not empty.
    fn write(&mut self, bytes: &[u8]) -> Got
        requires some { 1 ≤ length bytes.now }
        ensures within { IsWithin (length bytes.now) result }
        ensures wrote { AddsBytes (written self.old) (written self.new) (bytes_passed bytes.now result) }
        ensures gave { AddsBytes (given self.old) (given self.new) [] }
        ensures answered { AddsCalls (answers self.old) (answers self.new) (result ∷ []) }
        ensures no_read { AddsCalls (rooms self.old) (rooms self.new) [] };
}

/// Readiness of a wire, as far as its owner knows it without a system call. `Tried` implements it for any wire.
pub trait Ready {
    /// `true` if a read may return something other than `Later`, if the wire records its readiness.
    ghost readable: { Self → Option Bool } = { λ _. None };

    /// `true` if a write may return something other than `Later`, if the wire records its readiness.
    ghost writable: { Self → Option Bool } = { λ _. None };

    /// Returns `true` if a read may return something other than `Later`. Otherwise no read is tried.
    fn may_read(&self) -> bool
        ensures { MatchesTrace (readable self.now) result };

    /// Returns `true` if a write may return something other than `Later`. Otherwise no write is tried.
    fn may_write(&self) -> bool
        ensures { MatchesTrace (writable self.now) result };

    /// Returns the place of the wire, by which `Door::woken` names it. No two wires of a door have the same place at
    /// the same time. The default is `None`: no call names the wire.
    fn place(&self) -> Option<usize> {
        None
    }
}

/// Longest time that a door may wait.
#[derive(Clone, Copy, Debug, PartialEq, Eq)]
pub enum Wait {
    /// No wait.
    No,
    /// Wait until this time, in seconds.
    Until(u64),
    /// Wait without a limit, until a wire or the door is ready.
    Forever,
}

impl Wait {
    /// Returns this wait, but until `moment`, in seconds, at most. A program uses it if it has other work at that time.
    pub fn at_most(self, moment: u64) -> Wait
        ensures { result ≡ wait_at_most moment self }
    {
        match self {
            Wait::No => Wait::No,
            Wait::Until(due) => Wait::Until(due.min(moment)),
            Wait::Forever => Wait::Until(moment),
        }
    }
}

/// Listener, which hands out a wire for each connection that a peer opens. `Polled` makes a door of a listener that
/// cannot wait.
pub trait Door {
    /// Type of the wires that it hands out.
    type Wire: Wire + Ready + Drop;

    /// Calls of the door so far, in order, if it records them.
    ghost calls: { Self → Option (List (DoorCall Self.Wire)) } = { λ _. None };

    /// Returns the next wire, if a peer has opened a connection that was not handed out yet. Never blocks.
    fn next(&mut self) -> Option<Self::Wire>
        ensures { AddsCalls (calls self.old) (calls self.new) (Requested result ∷ []) };

    /// Waits until a wire becomes ready, at most as long as `wait` says, and learns which wires are ready. With
    /// `opens`, a peer that opens a connection ends the wait too, and the wait is zero if such a peer is waiting
    /// already.
    fn wait(&mut self, wait: Wait, opens: bool)
        ensures { AddsCalls (calls self.old) (calls self.new) (Waited wait opens ∷ []) };

    /// Takes back the wire of a connection that has ended. To drop it closes the transport connection.
    fn closed(&mut self, wire: Self::Wire)
        ensures { AddsCalls (calls self.old) (calls self.new) (Closed wire ∷ []) };

    /// Returns the places of the wires that may have become ready since the last call, and perhaps others. The default
    /// is `None`: any wire may have become ready. While no call names a wire with a place and nobody uses the wire, its
    /// readiness does not change.
    fn woken(&self) -> Option<&[usize]> {
        None
    }
}

/// Clock that gives the time in seconds.
pub trait Clock {
    /// Times that the clock returned so far, in order, if it records them.
    ghost moments: { Self → Option (List ℕ) } = { λ _. None };

    /// Returns the time, in seconds.
    fn now(&mut self) -> u64
        ensures { AddsCalls (moments self.old) (moments self.new) (result ∷ []) };
}

/// Clock that may be absent. An absent one always returns 0, and records nothing.
impl<C: Clock> Clock for Option<C> {
    ghost moments = { λ clock. option_and_then C.moments clock };

    fn now(&mut self) -> u64
        ensures reported { AddsCalls (option_and_then C.moments self.old)
            (option_and_then C.moments self.new) (result ∷ []) }
        ensures absent { self.old ≡ None → result ≡ 0 }
        ensures stays { self.old ≡ None → self.new ≡ None }
    {
        match self {
            Some(clock) => clock.now(),
            None => 0,
        }
    }
}
