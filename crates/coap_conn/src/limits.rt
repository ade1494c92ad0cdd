//! Limits of a connection: sizes in bytes, and numbers of entries.

ghost use Rattle.std.specs.Prelude.{◌≡◌, ◌≤◌, IfOk};
ghost use Rattle.coap_conn.specs.Prelude.{RefusedBy, limits_of, limit_refusal, AreInRange};
ghost use Rattle.coap_conn.specs.Prelude.{BASE_MESSAGE_SIZE, LARGEST_MESSAGE, LARGEST_SENT_MESSAGE, LARGEST_QUEUE};

mod builder;

pub use builder::LimitsBuilder;
use coap_wire::{BASE_MESSAGE_SIZE, LARGEST_MESSAGE, LARGEST_QUEUE, LARGEST_SENT_MESSAGE};
use std::marker::Model;
use thiserror::Error;

/// Error of `Limits::new` and `LimitsBuilder::build`: the first limit that is out of range. The discriminant is its
/// number.
#[derive(Clone, Copy, Debug, PartialEq, Eq, Error)]
pub enum LimitFault {
    /// `max_message` is not between 1,152 and 1,048,576 bytes.
    #[error("max_message must be between 1,152 and 1,048,576 bytes")]
    MaxMessage = 1,
    /// `max_sent` is not between 1,152 and 65,536 bytes.
    #[error("max_sent must be between 1,152 and 65,536 bytes")]
    MaxSent = 2,
    /// `queue` is not between `max_sent` and 4,194,304 bytes.
    #[error("queue size must be between max_sent and 4,194,304 bytes")]
    Queue = 3,
    /// `pending` is above 256.
    #[error("pending limit must be at most 256")]
    Pending = 4,
    /// `observers` is above 256.
    #[error("observer limit must be at most 256")]
    Observers = 5,
    /// `outstanding` is not between 1 and 256.
    #[error("outstanding limit must be between 1 and 256")]
    Outstanding = 6,
}

const _: () = prove!(LimitFault::MaxMessage as u8 == 1);

const _: () = prove!(LimitFault::MaxSent as u8 == 2);

const _: () = prove!(LimitFault::Queue as u8 == 3);

const _: () = prove!(LimitFault::Pending as u8 == 4);

const _: () = prove!(LimitFault::Observers as u8 == 5);

const _: () = prove!(LimitFault::Outstanding as u8 == 6);

/// Limits of one connection, each within its range. In contracts its value is a `LimitValues`, with the fields below.
///
/// # Examples
///
/// ```
/// let limits = Limits::builder().max_message(1_152).pending(64).build()?;
/// assert!(&rt; limits.max_message() == 1_152);
/// // Each endpoint accepts messages of 1,152 bytes.
/// assert!(&rt; Limits::builder().max_message(1_000).build().is_err());
/// ```
#[derive(Clone, Copy, Debug, PartialEq, Eq)]
pub struct Limits {
    max_message: usize,
    max_sent: usize,
    queue: usize,
    pending: usize,
    observers: usize,
    outstanding: usize,
}

impl Model for Limits {
    ghost use Rattle.coap_conn.specs.Limits.{LimitValues};

    ghost Value = { LimitValues };

    ghost use Rattle.coap_conn.specs.LimitViews.{limit_values, are_limits, limit_fields};

    ghost view = { limit_values };

    ghost invariant = { are_limits };

    ghost inverse = { limit_fields };
}

impl Limits {
    /// Creates limits from these values. `Limits::builder` sets them by name.
    ///
    /// Sizes are in bytes: of the largest message that is accepted at first, of the largest that is sent, and of the
    /// output queue. The others are numbers of entries: delayed responses and Pongs, observers, outstanding requests.
    ///
    /// # Errors
    ///
    /// Returns the first of these that applies, in the order of the parameters:
    ///
    /// - `MaxMessage`: `max_message` is not between 1,152 and 1,048,576.
    /// - `MaxSent`: `max_sent` is not between 1,152 and 65,536.
    /// - `Queue`: `queue` is not between `max_sent` and 4,194,304.
    /// - `Pending`: `pending` is above 256.
    /// - `Observers`: `observers` is above 256.
    /// - `Outstanding`: `outstanding` is not between 1 and 256.
    pub fn new(
        max_message: usize,
        max_sent: usize,
        queue: usize,
        pending: usize,
        observers: usize,
        outstanding: usize,
    ) -> Result<Limits, LimitFault>
        ensures answer { RefusedBy result (limit_refusal (limits_of max_message max_sent queue pending observers
            outstanding)) }
        ensures ok { IfOk result (λ l. l ≡ limits_of max_message max_sent queue pending observers outstanding) }
    {
        if max_message < BASE_MESSAGE_SIZE || max_message > LARGEST_MESSAGE {
            return Err(LimitFault::MaxMessage);
        }
        if max_sent < BASE_MESSAGE_SIZE || max_sent > LARGEST_SENT_MESSAGE {
            return Err(LimitFault::MaxSent);
        }
        if queue < max_sent || queue > LARGEST_QUEUE {
            return Err(LimitFault::Queue);
        }
        if pending > 256 {
            return Err(LimitFault::Pending);
        }
        if observers > 256 {
            return Err(LimitFault::Observers);
        }
        if outstanding < 1 || outstanding > 256 {
            return Err(LimitFault::Outstanding);
        }
        Ok(Limits {
            max_message,
            max_sent,
            queue,
            pending,
            observers,
            outstanding,
        })
    }

    /// Returns the size in bytes of the largest message that is accepted at first. The first CSM announces this size as
    /// Max-Message-Size (RFC 8323 section 5.3.1).
    pub fn max_message(&self) -> usize
        ensures value { result ≡ self.now.max_message }
        ensures ranges { AreInRange self.now }
        ensures low { BASE_MESSAGE_SIZE ≤ result }
        ensures high { result ≤ LARGEST_MESSAGE }
    {
        self.max_message
    }

    /// Returns the size in bytes of the largest message that is sent.
    pub fn max_sent(&self) -> usize
        ensures value { result ≡ self.now.max_sent }
        ensures low { BASE_MESSAGE_SIZE ≤ result }
        ensures high { result ≤ LARGEST_SENT_MESSAGE }
    {
        self.max_sent
    }

    /// Returns the size in bytes of the output queue.
    pub fn queue(&self) -> usize
        ensures value { result ≡ self.now.queue }
        ensures low { self.now.max_sent ≤ result }
        ensures high { result ≤ LARGEST_QUEUE }
    {
        self.queue
    }

    /// Returns the maximum number of delayed responses and Pongs.
    pub fn pending(&self) -> usize
        ensures value { result ≡ self.now.pending }
        ensures high { result ≤ 256 }
    {
        self.pending
    }

    /// Returns the maximum number of observers.
    pub fn observers(&self) -> usize
        ensures value { result ≡ self.now.observers }
        ensures high { result ≤ 256 }
    {
        self.observers
    }

    /// Returns the maximum number of outstanding requests, observations and Pings.
    pub fn outstanding(&self) -> usize
        ensures value { result ≡ self.now.outstanding }
        ensures low { 1 ≤ result }
        ensures high { result ≤ 256 }
    {
        self.outstanding
    }
}
