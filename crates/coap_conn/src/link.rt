//! One end of a connection, without framing.
//!
//! The clauses `after`, `answer` and `err` of a call state its exact effect on the `Link`. The clause `shows` states
//! its meaning: which history of messages the link represents after the call.

mod application;
mod due_entries;
mod new_requests;
mod receive;
mod transmit;

use crate::limits::Limits;
use crate::out_queue::OutQueue;
use crate::outstanding::Outstanding;
use crate::pending::{PendingEntry, next_of};
use crate::phase::{Phase, Role};
use crate::signal_messages::announce_first;
use crate::signal_options::BASE_TOKEN;
use coap_wire::BASE_MESSAGE_SIZE;
use std::alloc::{AllocError, Global};
use std::marker::Model;

/// One end of a connection: its phase, the announced sizes, the pending and outstanding entries, and the bytes queued
/// for writing. In contracts its value is a `LinkValue`, and `LinkShows` relates it to a history of messages.
#[derive(Drop)]
pub struct Link {
    role: Role,
    limits: Limits,
    queue: OutQueue,
    phase: Phase,
    own_max: usize,
    peer_max: u32,
    peer_token: u32,
    /// Delayed responses and Pongs. The memory is reserved once.
    pending: Vec<PendingEntry>,
    /// Outstanding requests, observations and Pings. The memory is reserved once.
    outstanding: Vec<Outstanding>,
    tokens: u64,
}

impl Model for Link {
    ghost use Rattle.coap_conn.specs.LinkValue.{LinkValue};

    ghost Value = { LinkValue };

    ghost use Rattle.coap_conn.specs.LinkViews.{link_value, is_link};

    ghost view = { link_value };

    ghost invariant = { is_link };
}

impl Link {
    ghost use Rattle.std.specs.Prelude.{◌≡◌, ◌≤◌, ◌++◌, ◌↔◌, ⊤, length, IsTrue, IfOk};
    ghost use Rattle.coap_conn.specs.Prelude.{sem, follows_so, none, next_moment as moment_next, History, new_history};
    ghost use Rattle.coap_conn.specs.Prelude.{after, LinkShows, IsLink, IsReady, free_in, limit_in, is_finished};
    ghost use Rattle.coap_conn.specs.Prelude.{new_link, link_after};
    ghost use Rattle.coap_conn.specs.Calls as call;
    ghost use Rattle.coap_conn.specs.contracts.link.Link.{the_row};

    /// Creates a link in phase `Waiting`, with the first CSM queued. The memory of the queue, of the pending list and
    /// of the outstanding list is reserved here. The first token is the number `tokens_from` + 1.
    ///
    /// # Errors
    ///
    /// Returns `AllocError` if allocation fails.
    pub fn open(
        alloc: Global,
        role: Role,
        limits: Limits,
        tokens_from: u64,
    ) -> Result<Link, AllocError>
        ensures new { IfOk result (λ l. l ≡ new_link role limits tokens_from) }
        ensures shows { IfOk result (λ l. LinkShows l (new_history role limits tokens_from)) }
    {
        let mut queue = OutQueue::new(alloc, limits.queue())?;
        let pending = Vec::with_capacity(alloc, limits.pending())?;
        let outstanding = Vec::with_capacity(alloc, limits.outstanding())?;
        announce_first(&mut queue, limits.max_message());
        Ok(Link {
            role,
            limits,
            queue,
            phase: Phase::Waiting,
            own_max: limits.max_message(),
            peer_max: BASE_MESSAGE_SIZE as u32,
            peer_token: BASE_TOKEN,
            pending,
            outstanding,
            tokens: tokens_from,
        })
    }

    /// Returns all queued bytes in one slice. If they wrap around the end of the queue's ring, they are moved first;
    /// `parts` moves none.
    pub fn front<'a>(&'a mut self) -> &'a [u8]
        ensures* unchanged { sem 𝓛 (follows_so the_row the_row self.entry.ghost_name none (λ _ _. ⊤)
            (λ l. l ≡ self.old)) }
        ensures front { result.now ≡ self.old.waiting }
    {
        self.queue.front()
    }

    /// Returns the queued bytes in the two slices that they occupy: the first ones, and those after them.
    pub fn parts(&self) -> (&[u8], &[u8])
        ensures { result.0.now ++ result.1.now ≡ self.now.waiting }
    {
        self.queue.parts()
    }

    /// Removes the first `count` bytes from the queue, after the caller has written them.
    ///
    /// # Preconditions
    ///
    /// `count` is at most the number of queued bytes.
    pub fn written(&mut self, count: usize)
        requires { count ≤ length self.old.waiting }
        ensures after { self.new ≡ link_after self.old (call.Written count) }
        ensures shows { (h : History) → LinkShows self.old h → LinkShows self.new (after h (call.Written count)) }
    {
        self.queue.written(count);
    }

    /// Returns the number of bytes queued for writing.
    pub fn waiting(&self) -> usize
        ensures count { result ≡ length self.now.waiting }
        ensures kept { IsLink self.now }
    {
        self.queue.waiting()
    }

    /// Returns the number of bytes that can still be queued.
    pub fn free(&self) -> usize
        ensures { result ≡ free_in self.now }
    {
        self.queue.free()
    }

    /// Returns `true` if the queue has room for a message of `max_sent` bytes.
    pub fn ready(&self) -> bool
        ensures { IsTrue result ↔ IsReady self.now }
    {
        self.limits.max_sent() <= self.queue.free()
    }

    /// Returns the phase of the connection.
    pub fn phase(&self) -> Phase
        ensures { result ≡ self.now.phase }
    {
        self.phase
    }

    /// Returns the size in bytes of the largest message that is accepted. This is the Max-Message-Size announced last,
    /// at first that of the limits (RFC 8323 section 5.3.1).
    pub fn own_max(&self) -> usize
        ensures { result ≡ self.now.own_max }
    {
        self.own_max
    }

    /// Returns the Max-Message-Size in bytes that the peer announced last, or 1,152 if there is none (RFC 8323 section
    /// 5.3.1).
    pub fn peer_max(&self) -> u32
        ensures { result ≡ self.now.peer_max }
    {
        self.peer_max
    }

    /// Returns the length in bytes of the longest token that the peer accepts, as it announced last. The length is 8 if
    /// the peer has announced none (RFC 8974 section 2.2.1).
    pub fn peer_token(&self) -> u32
        ensures { result ≡ self.now.peer_token }
    {
        self.peer_token
    }

    /// Returns the number of pending entries: delayed responses and Pongs.
    pub fn pending(&self) -> usize
        ensures count { result ≡ length self.now.pending }
        ensures within { length self.now.pending ≤ self.now.limits.pending }
    {
        self.pending.len()
    }

    /// Returns the earliest time, in seconds and after `now`, at which a pending response is due. The caller uses it as
    /// the deadline of its next call of `due`.
    pub fn next_moment(&self, now: u64) -> Option<u64>
        ensures { result ≡ moment_next now self.now.pending }
    {
        next_of(&self.pending, now)
    }

    /// Returns the number of outstanding requests, observations and Pings.
    pub fn outstanding(&self) -> usize
        ensures count { result ≡ length self.now.outstanding }
        ensures within { length self.now.outstanding ≤ self.now.limits.outstanding }
    {
        self.outstanding.len()
    }

    /// Returns `true` if nothing is left to write: no more messages are accepted, no entry is pending, and no byte is
    /// queued. A request that the caller has not answered yet does not count.
    pub fn finished(&self) -> bool
        ensures { result ≡ is_finished self.now }
    {
        self.phase.stop().is_some() && self.pending.is_empty() && self.queue.waiting() == 0
    }

    /// Returns the size in bytes of the largest message that may be sent: the smaller of `max_sent` and `peer_max`.
    fn limit(&self) -> usize
        ensures { result ≡ limit_in self.now }
    {
        self.limits.max_sent().min(self.peer_max as usize)
    }
}
