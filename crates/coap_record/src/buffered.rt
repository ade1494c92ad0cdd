//! `BufferedOutlet`, an outlet that passes bytes on in large slices.

ghost use Rattle.std.specs.Prelude.{◌≡◌, ◌<◌, [], false, is_err, OnOk};
ghost use Rattle.coap_record.specs.Writes.{room_in, WritesUpTo};

use coap_conn::{OutQueue, first_part};
use coap_io::{Outlet, WriteFailed};
use coap_wire::Sink;
use std::alloc::{AllocError, Global};

/// Passes the bytes of a queue on to an outlet, until none are left or a write fails.
///
/// # Errors
///
/// - `WriteFailed`: a write failed. The bytes that were not written stay in the queue.
fn write_queue<O: Outlet>(outlet: &mut O, queue: &mut OutQueue) -> Result<(), WriteFailed>
    requires { O.is_failed outlet.old ≡ false }
    ensures moved { WritesUpTo queue.old.waiting queue.new.waiting (O.written outlet.old) (O.written outlet.new) }
    ensures all { OnOk result (queue.new.waiting ≡ []) }
    ensures room { room_in queue.new ≡ room_in queue.old }
    ensures failure { O.is_failed outlet.new ≡ is_err result }
{
    while queue.waiting() > 0 {
        let part = first_part(queue.parts());
        let Some(count) = outlet.write(part) else {
            return Err(WriteFailed);
        };
        if count == 0 {
            return Err(WriteFailed);
        }
        queue.written(count);
    }
    Ok(())
}

/// Outlet that collects bytes in a queue. It passes them on to another outlet when the queue is full or `flush` is
/// called. The memory of the queue is reserved once. In contracts the bytes written are those that were passed on,
/// followed by those in the queue.
#[derive(Drop)]
pub struct BufferedOutlet<O> {
    outlet: O,
    queue: OutQueue,
    /// Number of bytes that `write` accepted, at most 2^64 - 1.
    count: u64,
    ghost sized: { 0 < room_in queue },
}

impl<O: Outlet + Drop> BufferedOutlet<O> {
    ghost use Rattle.std.specs.Prelude.{◌≤◌, IfOk};
    ghost use Rattle.coap_record.specs.Prelude.{BASE_MESSAGE_SIZE, LARGEST_QUEUE};

    /// Creates an outlet over another one, with a queue of this number of bytes.
    ///
    /// # Errors
    ///
    /// Returns `AllocError` if allocation fails.
    ///
    /// # Preconditions
    ///
    /// `bytes` is between 1,152 and 4,194,304.
    pub fn new(alloc: Global, outlet: O, bytes: usize) -> Result<BufferedOutlet<O>, AllocError>
        requires low { BASE_MESSAGE_SIZE ≤ bytes }
        requires high { bytes ≤ LARGEST_QUEUE }
        ensures outlet { IfOk result (λ b. b.outlet ≡ outlet) }
        ensures none { IfOk result (λ b. b.queue.waiting ≡ []) }
        ensures count { IfOk result (λ b. b.count ≡ 0) }
    {
        let queue = OutQueue::new(alloc, bytes)?;
        Ok(BufferedOutlet {
            outlet,
            queue,
            count: 0,
        })
    }

    /// Returns the number of bytes that were written to this outlet, at most 2^64 - 1.
    pub fn count(&self) -> u64
        ensures { result ≡ self.now.count }
    {
        self.count
    }

    /// Passes all bytes in the queue on.
    ///
    /// # Errors
    ///
    /// - `WriteFailed`: a write failed. The bytes that were not passed on stay in the queue.
    ///
    /// # Preconditions
    ///
    /// No write to the outlet has failed before.
    pub fn flush(&mut self) -> Result<(), WriteFailed>
        requires { O.is_failed self.old.outlet ≡ false }
        ensures moved { WritesUpTo self.old.queue.waiting self.new.queue.waiting (O.written self.old.outlet)
            (O.written self.new.outlet) }
        ensures all { OnOk result (self.new.queue.waiting ≡ []) }
        ensures failure { O.is_failed self.new.outlet ≡ is_err result }
        ensures count { self.new.count ≡ self.old.count }
    {
        write_queue(&mut self.outlet, &mut self.queue)
    }
}

impl<O: Outlet + Drop> Outlet for BufferedOutlet<O> {
    ghost use Rattle.std.specs.Prelude.{◌+◌, ◌≤◌, ◌||◌, length, take, min, IfSome, IfNone};
    ghost use Rattle.coap_record.specs.Prelude.{append_known, AddsBytes, is_failed_write};

    ghost written = { λ b. append_known (O.written b.outlet) b.queue.waiting };

    ghost is_failed = { λ b. O.is_failed b.outlet };

    fn write(&mut self, bytes: &[u8]) -> Option<usize>
        ensures within { IfSome result (λ n. n ≤ length bytes.now) }
        ensures taken { IfSome result (λ n. AddsBytes (append_known (O.written self.old.outlet) self.old.queue.waiting)
            (append_known (O.written self.new.outlet) self.new.queue.waiting) (take n bytes.now)) }
        ensures nothing { IfNone result (AddsBytes (append_known (O.written self.old.outlet) self.old.queue.waiting)
            (append_known (O.written self.new.outlet) self.new.queue.waiting) []) }
        ensures failure { O.is_failed self.new.outlet
            ≡ (O.is_failed self.old.outlet || is_failed_write result bytes.now) }
        ensures count { IfSome result (λ n. self.new.count ≡ min (self.old.count + n) 18446744073709551615) }
    {
        if self.outlet.failed() {
            return None;
        }
        if self.queue.free() == 0 {
            self.flush().ok()?;
        }
        let count = bytes.len().min(self.queue.free());
        self.queue.append(&bytes[..count]);
        self.count = self.count.saturating_add(count as u64);
        Some(count)
    }

    fn failed(&self) -> bool {
        self.outlet.failed()
    }
}
