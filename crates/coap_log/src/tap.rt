//! `Tap`, which follows the messages of one direction of a connection.

ghost use Rattle.std.specs.Prelude.{◌≡◌, ◌≤◌, ◌+◌, ◌-◌, ◌++◌, length, min, take, vec_capacity, IfOk};
ghost use Rattle.coap_wire.specs.Reading.{declared_of};
ghost use Rattle.coap_log.specs.Taps as spec;

use arrayvec::ArrayVec;
use coap_print::LogLevel;
use coap_wire::{Declared, LARGEST_MESSAGE, declared};
use std::alloc::{AllocError, Global};
use std::marker::Model;

/// Number of bytes that a tap keeps of a message, so that a log can describe it.
pub const DESCRIBED: usize = 2_048;

/// Number of bytes that a tap keeps of a message, if only its code is needed.
const COUNTED: usize = 16;

/// Number of bytes that declare the size of a message.
const HEAD: usize = 8;

/// Observer of one direction of a connection: it finds the end of each message, and counts messages and bytes.
///
/// Its caller passes the bytes of the stream, in any pieces. The tap keeps only the first bytes of a message, so its
/// memory does not depend on the peer. After malformed input or a message of more than 1,048,576 bytes, the tap shows
/// no message any more.
#[derive(Drop)]
pub struct Tap {
    room: usize,
    kept: Vec<u8>,
    passed: u64,
    is_whole: bool,
    is_silent: bool,
    messages: u64,
    bytes: u64,
}

impl Model for Tap {
    ghost use Rattle.coap_log.specs.Taps.{TapValue};

    ghost Value = { TapValue };

    ghost use Rattle.coap_log.specs.TapViews.{tap_value, is_tap};

    ghost view = { tap_value };

    ghost invariant = { is_tap };
}

impl Tap {
    /// Creates a tap that keeps at most `room` bytes of a message, such as `DESCRIBED`. The memory is reserved
    /// once.
    ///
    /// # Errors
    ///
    /// Returns `AllocError` if allocation fails.
    ///
    /// # Preconditions
    ///
    /// `room` is at least 8.
    pub fn new(alloc: Global, room: usize) -> Result<Tap, AllocError>
        requires { 8 ≤ room }
        ensures { IfOk result (λ t. t ≡ spec.new_tap room) }
    {
        Ok(Tap {
            room,
            kept: Vec::with_capacity(alloc, room)?,
            passed: 0,
            is_whole: false,
            is_silent: false,
            messages: 0,
            bytes: 0,
        })
    }

    /// Creates a tap for a log of a level. It keeps as much of a message as the lines of this level need.
    ///
    /// # Errors
    ///
    /// Returns `AllocError` if allocation fails.
    pub fn at_level(alloc: Global, level: LogLevel) -> Result<Tap, AllocError>
        ensures { IfOk result (λ t. t ≡ spec.new_tap (spec.room_of level)) }
    {
        Tap::new(alloc, room_of(level))
    }

    /// Takes bytes of the next piece of the stream: up to the end of the present message, or all. Returns their number.
    ///
    /// If a message ends with these bytes, `is_whole` returns `true` until the next call. The caller passes the other
    /// bytes of the piece with the next call.
    pub fn take(&mut self, piece: &[u8]) -> usize
        ensures taken { result ≡ spec.taken self.old piece.now }
        ensures after { self.new ≡ spec.tap_after self.old piece.now }
        ensures within { result ≤ length piece.now }
    {
        self.begin();
        let taken = self.advance(piece);
        self.bytes = self.bytes.saturating_add(taken as u64);
        taken
    }

    /// Returns `true` if a message ended with the last byte taken.
    pub fn is_whole(&self) -> bool
        ensures { result ≡ self.now.is_whole }
    {
        self.is_whole
    }

    /// Returns the first bytes of the present message.
    pub fn head(&self) -> &[u8]
        ensures { result.now ≡ self.now.kept }
    {
        &self.kept
    }

    /// Returns the number of bytes taken of the present message. After its last byte, this is its size.
    pub fn size(&self) -> u64
        ensures { result ≡ self.now.passed }
    {
        self.passed
    }

    /// Returns the number of whole messages so far. It saturates at the maximum of `u64`.
    pub fn messages(&self) -> u64
        ensures { result ≡ self.now.messages }
    {
        self.messages
    }

    /// Returns the number of bytes so far. It saturates at the maximum of `u64`.
    pub fn bytes(&self) -> u64
        ensures { result ≡ self.now.bytes }
    {
        self.bytes
    }

    /// Discards a whole message.
    fn begin(&mut self)
        ensures { self.new ≡ spec.begun self.old }
    {
        if self.is_whole {
            self.kept.clear();
            self.passed = 0;
            self.is_whole = false;
        }
    }

    /// Takes bytes of a message that is not whole, or all bytes after malformed input.
    #[tactic(auto, unfolding(crate::specs::Taps::taken_by, crate::specs::Taps::followed_by))]
    fn advance(&mut self, piece: &[u8]) -> usize
        ensures taken { result ≡ spec.taken_by self.old piece.now }
        ensures after { self.new ≡ spec.followed_by self.old piece.now }
        ensures within { result ≤ length piece.now }
    {
        if self.is_silent {
            return piece.len();
        }
        self.follow(piece)
    }

    /// Takes bytes of a message that is not whole.
    fn follow(&mut self, piece: &[u8]) -> usize
        ensures taken { result ≡ spec.taken_at self.old piece.now (spec.declared_after self.old piece.now) }
        ensures after { self.new ≡ spec.followed_at self.old (take result piece.now)
            (spec.declared_after self.old piece.now) }
        ensures within { result ≤ length piece.now }
    {
        match declared_after(&self.kept, piece) {
            Declared::Unknown => {
                self.append(piece);
                piece.len()
            }
            Declared::BadToken => {
                self.is_silent = true;
                piece.len()
            }
            Declared::Size(size) => {
                if size > LARGEST_MESSAGE as u64 {
                    self.is_silent = true;
                    return piece.len();
                }
                self.follow_to(size, piece)
            }
        }
    }

    /// Takes bytes up to the end of a message of this size.
    fn follow_to(&mut self, size: u64, piece: &[u8]) -> usize
        requires { size ≤ LARGEST_MESSAGE }
        ensures taken { result ≡ min (size - self.old.passed) (length piece.now) }
        ensures after { self.new ≡ spec.ended_at size (spec.with_bytes self.old (take result piece.now)) }
        ensures within { result ≤ length piece.now }
    {
        let missing = size.saturating_sub(self.passed);
        let taken = missing.min(piece.len() as u64) as usize;
        self.append(&piece[..taken]);
        if self.passed == size {
            self.is_whole = true;
            self.messages = self.messages.saturating_add(1);
        }
        taken
    }

    /// Counts bytes of the present message, and keeps those for which there is room.
    fn append(&mut self, bytes: &[u8])
        requires { self.old.passed + length bytes.now ≤ LARGEST_MESSAGE }
        ensures { self.new ≡ spec.with_bytes self.old bytes.now }
    {
        let room = self.room - self.kept.len();
        append_first(&mut self.kept, room, bytes);
        self.passed += bytes.len() as u64;
    }
}

/// Returns the number of bytes that a tap keeps of a message for a log of a level.
fn room_of(level: LogLevel) -> usize
    ensures value { result ≡ spec.room_of level }
    ensures enough { 8 ≤ result }
{
    if level.includes(LogLevel::Messages) {
        DESCRIBED
    } else {
        COUNTED
    }
}

/// Returns the size that the kept bytes of a message and the next piece declare.
fn declared_after(kept: &[u8], piece: &[u8]) -> Declared
    ensures { result ≡ declared_of (kept.now ++ piece.now) }
{
    let mut head: ArrayVec<u8, HEAD> = ArrayVec::new();
    fill(&mut head, kept);
    fill(&mut head, piece);
    declared(head.as_slice())
}

/// Appends the first bytes of a slice to an array until it is full.
fn fill(head: &mut ArrayVec<u8, HEAD>, bytes: &[u8])
    ensures { head.new.items ≡ take HEAD (head.old.items ++ bytes.now) }
{
    let count = bytes.len().min(HEAD - head.len());
    let Ok(()) = head.try_extend_from_slice(&bytes[..count]) else {
        unreachable!()
    };
}

/// Appends at most `room` bytes of a slice to a buffer that has room for them.
fn append_first(buffer: &mut Vec<u8>, room: usize, bytes: &[u8])
    requires { length buffer.old.items + room ≤ vec_capacity buffer.old }
    ensures items { buffer.new.items ≡ buffer.old.items ++ take room bytes.now }
    ensures capacity { vec_capacity buffer.old ≤ vec_capacity buffer.new }
{
    let count = bytes.len().min(room);
    let Ok(()) = buffer.extend_from_slice(&bytes[..count]) else {
        unreachable!()
    };
}
