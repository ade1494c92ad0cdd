//! Output queue of a connection: bytes that are queued for writing.

ghost use Rattle.std.specs.Prelude.{◌≡◌, ◌≤◌, ◌++◌, IfOk, [], ⊤, length, drop, if◌then◌else◌};
ghost use Rattle.coap_conn.specs.Prelude.{sem, follows_so, none, spelling, front_spelling, IsQueue, IsNextPart};
ghost use Rattle.coap_conn.specs.Prelude.{free_of, fits as message_fits};
ghost use Rattle.coap_conn.specs.contracts.out_queue.OutQueue.{the_row};
ghost use Rattle.coap_conn.specs.Prelude.{BASE_MESSAGE_SIZE, LARGEST_QUEUE};

use crate::ring::contiguous;
use arrayvec::ArrayVec;
use circular_buffer::HeapCircularBuffer;
use coap_wire::{CompactBuilder, MessageBuilder, SHORT_OPTIONS, ShortBuilder, Sink};
use std::alloc::{AllocError, Global};
use std::marker::Model;

/// Size of the array in which a message is encoded up to its payload: 48 bytes of options, and at most 73 of all else.
const FRONT: usize = 128;

/// Queue of bytes for writing, in a ring buffer whose memory is reserved once. In contracts its value is a
/// `QueueValue`: the capacity of the queue, and the queued bytes.
///
/// A message is appended in at most two steps: first the part before its payload, encoded in an array on the stack,
/// then its payload. A message whose options do not fit that array is appended in more steps.
#[derive(Drop)]
pub struct OutQueue {
    ring: HeapCircularBuffer<u8>,
}

impl Model for OutQueue {
    ghost use Rattle.coap_conn.specs.QueueValue.{QueueValue};

    ghost Value = { QueueValue };

    ghost use Rattle.coap_conn.specs.QueueViews.{queue_value, is_queue};

    ghost view = { queue_value };

    ghost invariant = { is_queue };
}

impl OutQueue {
    /// Creates an empty queue of this size.
    ///
    /// # Errors
    ///
    /// Returns `AllocError` if allocation fails.
    ///
    /// # Preconditions
    ///
    /// `bytes` is between 1,152 and 4,194,304.
    pub fn new(alloc: Global, bytes: usize) -> Result<OutQueue, AllocError>
        requires low { BASE_MESSAGE_SIZE ≤ bytes }
        requires high { bytes ≤ LARGEST_QUEUE }
        ensures { IfOk result (λ q. q ≡ record { bytes = bytes; waiting = [] }) }
    {
        Ok(OutQueue {
            ring: HeapCircularBuffer::with_capacity(alloc, bytes)?,
        })
    }

    /// Returns the number of bytes that can still be queued.
    pub fn free(&self) -> usize
        ensures { result ≡ free_of self.now }
    {
        self.ring.capacity() - self.ring.len()
    }

    /// Returns the number of bytes queued.
    pub fn waiting(&self) -> usize
        ensures count { result ≡ length self.now.waiting }
        ensures within { IsQueue self.now }
    {
        self.ring.len()
    }

    /// Returns all queued bytes in one slice. If they wrap around the end of the ring, they are moved first; `parts`
    /// moves none.
    pub fn front<'a>(&'a mut self) -> &'a [u8]
        ensures* unchanged { sem 𝓛 (follows_so the_row the_row self.entry.ghost_name none (λ _ _. ⊤)
            (λ q. q ≡ self.old)) }
        ensures front { result.now ≡ self.old.waiting }
    {
        contiguous(&mut self.ring)
    }

    /// Returns the queued bytes in the two slices that they occupy: the first ones, and those after them.
    pub fn parts(&self) -> (&[u8], &[u8])
        ensures { result.0.now ++ result.1.now ≡ self.now.waiting }
    {
        self.ring.as_slices()
    }

    /// Queues the encoding of a message. There must be room for it.
    pub(crate) fn put<const N: usize>(&mut self, message: &MessageBuilder<N>)
        requires { length (spelling message.now) ≤ free_of self.old }
        ensures { self.new ≡ record self.old { waiting = self.old.waiting ++ spelling message.now } }
    {
        let payload = message.payload_bytes();
        prove!(message.front_size() <= message.size());
        self.put_front(message);
        self.extend(payload);
    }

    /// Queues the encoding of a message up to its payload.
    fn put_front<const N: usize>(&mut self, message: &MessageBuilder<N>)
        requires { length (front_spelling message.now) ≤ free_of self.old }
        ensures { self.new ≡ record self.old { waiting = self.old.waiting ++ front_spelling message.now } }
    {
        if message.front_size() > FRONT as u64 {
            let _ = &self.ring;
            message.write_front(self);
            let _ = &self.ring;
            return;
        }
        let mut front: ArrayVec<u8, FRONT> = ArrayVec::new();
        message.write_front(&mut front);
        self.extend(&front);
    }

    /// Queues the encoding of a message with compact options. There must be room for it.
    pub(crate) fn put_compact<const N: usize>(&mut self, message: &CompactBuilder<N>)
        requires { length (spelling message.now) ≤ free_of self.old }
        ensures { self.new ≡ record self.old { waiting = self.old.waiting ++ spelling message.now } }
    {
        let _ = &self.ring;
        message.write(self);
        let _ = &self.ring;
    }

    /// Queues the encoding of a message and returns `true`, if the encoding has at most `limit` bytes. Otherwise queues
    /// nothing and returns `false`. There must be room for `limit` bytes.
    #[inline(always)]
    pub(crate) fn offer<const N: usize>(
        &mut self,
        message: &CompactBuilder<N>,
        limit: usize,
    ) -> bool
        requires { limit ≤ free_of self.old }
        ensures fits { result ≡ message_fits limit message.now }
        ensures queued { self.new ≡ (if message_fits limit message.now
            then record self.old { waiting = self.old.waiting ++ spelling message.now } else self.old) }
    {
        if N > SHORT_OPTIONS {
            return self.offer_long(message, limit);
        }
        prove!(message.front_size() <= FRONT as u64);
        let payload = message.payload_bytes();
        let mut front: ArrayVec<u8, FRONT> = ArrayVec::new();
        message.write_front(&mut front);
        // The size is known only after encoding.
        if front.len() + payload.len() > limit {
            return false;
        }
        // A short payload is appended in the same step.
        if payload.len() <= front.remaining_capacity() {
            front.append(payload);
            self.extend(&front);
            return true;
        }
        self.extend(&front);
        self.extend(payload);
        true
    }

    /// Does the same as `offer` for a short message, and is never inlined.
    #[inline(never)]
    pub(crate) fn offer_short(&mut self, message: &ShortBuilder, limit: usize) -> bool
        requires { limit ≤ free_of self.old }
        ensures fits { result ≡ message_fits limit message.now }
        ensures queued { self.new ≡ (if message_fits limit message.now
            then record self.old { waiting = self.old.waiting ++ spelling message.now } else self.old) }
    {
        self.offer(message, limit)
    }

    /// Does the same as `offer`, for a message whose options may not fit the array.
    #[inline(never)]
    fn offer_long<const N: usize>(&mut self, message: &CompactBuilder<N>, limit: usize) -> bool
        requires { limit ≤ free_of self.old }
        ensures fits { result ≡ message_fits limit message.now }
        ensures queued { self.new ≡ (if message_fits limit message.now
            then record self.old { waiting = self.old.waiting ++ spelling message.now } else self.old) }
    {
        if message.size() > limit as u64 {
            return false;
        }
        self.put_compact(message);
        true
    }

    /// Appends bytes. There must be room for them.
    pub(crate) fn extend(&mut self, bytes: &[u8])
        requires { length bytes.now ≤ free_of self.old }
        ensures { self.new ≡ record self.old { waiting = self.old.waiting ++ bytes.now } }
    {
        // Parts of a message are often empty; this saves the call.
        if bytes.is_empty() {
            return;
        }
        let _ = self.ring.fill_from_slice(bytes);
    }

    /// Removes the first `count` bytes, after the caller has written them. No byte is moved.
    ///
    /// # Preconditions
    ///
    /// `count` is at most the number of queued bytes.
    pub fn written(&mut self, count: usize)
        requires { count ≤ length self.old.waiting }
        ensures { self.new ≡ record self.old { waiting = drop count self.old.waiting } }
    {
        let left = self.ring.len() - count;
        self.ring.truncate_front(left);
    }
}

/// Returns the first of two slices that is not empty, or an empty one if both are. Of the `parts` of a queue, this
/// slice is written next.
pub fn first_part<'a>(parts: (&'a [u8], &'a [u8])) -> &'a [u8]
    ensures { IsNextPart (parts.entry.0.now ++ parts.entry.1.now) result.now }
{
    let (first, second) = parts;
    if first.is_empty() { second } else { first }
}

impl Sink for OutQueue {
    ghost contents = { λ q. q.waiting };

    ghost space = { free_of };

    fn room(&self) -> usize {
        self.free()
    }

    fn push(&mut self, byte: u8) {
        let _ = self.ring.push_back(byte);
    }

    fn append(&mut self, bytes: &[u8]) {
        self.extend(bytes);
    }
}
