//! A builder of `Limits`, which sets each limit by its name.

ghost use Rattle.std.specs.Prelude.{◌≡◌, IfOk};
ghost use Rattle.coap_conn.specs.Prelude.{RefusedBy, limit_refusal, default_limits};

use super::{LimitFault, Limits};
use coap_wire::{DEFAULT_QUEUE, LARGEST_SENT_MESSAGE};
use std::marker::Model;

/// Builder of `Limits`. Each limit has its default until it is set; `build` checks the ranges. In contracts its value
/// is a `LimitValues`.
#[derive(Clone, Copy, Debug)]
pub struct LimitsBuilder {
    max_message: usize,
    max_sent: usize,
    queue: usize,
    pending: usize,
    observers: usize,
    outstanding: usize,
}

impl Model for LimitsBuilder {
    ghost use Rattle.coap_conn.specs.Limits.{LimitValues};

    ghost Value = { LimitValues };

    ghost use Rattle.coap_conn.specs.LimitViews.{builder_values, builder_fields};

    ghost view = { builder_values };

    ghost inverse = { builder_fields };
}

impl Limits {
    /// Returns a builder in which each limit has its default.
    pub fn builder() -> LimitsBuilder
        ensures { result ≡ default_limits }
    {
        LimitsBuilder {
            max_message: LARGEST_SENT_MESSAGE,
            max_sent: LARGEST_SENT_MESSAGE,
            queue: DEFAULT_QUEUE,
            pending: 16,
            observers: 16,
            outstanding: 16,
        }
    }
}

impl LimitsBuilder {
    /// Sets the largest message that is accepted at first, in bytes: 1,152 to 1,048,576, by default 65,536. It is the
    /// Max-Message-Size of the first CSM (RFC 8323 section 5.3.1).
    pub fn max_message(self, bytes: usize) -> LimitsBuilder
        ensures { result ≡ record self { max_message = bytes } }
    {
        LimitsBuilder {
            max_message: bytes,
            ..self
        }
    }

    /// Sets the largest message that is sent, in bytes: 1,152 to 65,536, by default 65,536.
    pub fn max_sent(self, bytes: usize) -> LimitsBuilder
        ensures { result ≡ record self { max_sent = bytes } }
    {
        LimitsBuilder {
            max_sent: bytes,
            ..self
        }
    }

    /// Sets the size of the output queue, in bytes: `max_sent` to 4,194,304, by default 131,072.
    pub fn queue(self, bytes: usize) -> LimitsBuilder
        ensures { result ≡ record self { queue = bytes } }
    {
        LimitsBuilder {
            queue: bytes,
            ..self
        }
    }

    /// Sets the largest number of delayed responses and Pongs: 0 to 256, by default 16.
    pub fn pending(self, count: usize) -> LimitsBuilder
        ensures { result ≡ record self { pending = count } }
    {
        LimitsBuilder {
            pending: count,
            ..self
        }
    }

    /// Sets the largest number of observers: 0 to 256, by default 16.
    pub fn observers(self, count: usize) -> LimitsBuilder
        ensures { result ≡ record self { observers = count } }
    {
        LimitsBuilder {
            observers: count,
            ..self
        }
    }

    /// Sets the largest number of outstanding requests: 1 to 256, by default 16.
    pub fn outstanding(self, count: usize) -> LimitsBuilder
        ensures { result ≡ record self { outstanding = count } }
    {
        LimitsBuilder {
            outstanding: count,
            ..self
        }
    }

    /// Returns the limits, if each is within its range.
    ///
    /// # Errors
    ///
    /// Returns the first limit that is out of its range, in the order of the methods, as `Limits::new` does.
    pub fn build(self) -> Result<Limits, LimitFault>
        ensures answer { RefusedBy result (limit_refusal self) }
        ensures ok { IfOk result (λ l. l ≡ self) }
    {
        Limits::new(
            self.max_message,
            self.max_sent,
            self.queue,
            self.pending,
            self.observers,
            self.outstanding,
        )
    }
}
