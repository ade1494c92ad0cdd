//! Requests that the application answers: they are pending until its response or their deadline.

ghost use Rattle.std.specs.Prelude.{◌≡◌, ◌≤◌, ◌<◌, ◌++◌, ℕ, List, true, false, length, IsTrue, IsFalse, IfOk, IfSome};
ghost use Rattle.std.specs.Prelude.{OnOk, OnErr, Err, nat_lt, not, remove};
ghost use Rattle.coap_conn.specs.Prelude.{is_open, History, Message, after, LinkShows, can_hold, link_after, RefusedBy};
ghost use Rattle.coap_conn.specs.Prelude.{frame_refusal, OnMessage, is_plain_response as is_plain, observes};
ghost use Rattle.coap_conn.specs.Prelude.{is_response as is_response_code, fit, fits, limit_in};
ghost use Rattle.coap_conn.specs.Prelude.{bare_response, free_in, message_of, stop, state_in, link_with, spelling};
ghost use Rattle.coap_conn.specs.Prelude.{send, response_refusal, room_refusal};
ghost use Rattle.coap_conn.specs.Calls as call;

use super::Link;
use crate::pending::{PendingEntry, Responder, request_in};
use crate::phase::{Full, Reply, RespondFault};
use crate::reason::Reason;
use crate::signal_messages::bare_of;
use coap_wire::option_numbers::OBSERVE;
use coap_wire::{Code, MessageRef, Token, parse};

impl Link {
    /// Appends a request for the application to the pending list. The application may respond until `moment`, in
    /// seconds. `token` is that of the request.
    ///
    /// # Errors
    ///
    /// - `Full`: the pending list has reached its limit. The link is unchanged.
    ///
    /// # Preconditions
    ///
    /// The phase is `Open`.
    pub fn hold_request(&mut self, token: Token, moment: u64) -> Result<(), Full>
        requires open { is_open self.old.phase ≡ true }
        ensures pending { OnOk result (IsTrue (can_hold self.old)) }
        ensures full { OnErr result (IsFalse (can_hold self.old)) }
        ensures after { OnOk result (self.new ≡ link_after self.old (call.HoldRequest token.items moment)) }
        ensures shows { OnOk result ((h : History) → LinkShows self.old h →
            LinkShows self.new (after h (call.HoldRequest token.items moment))) }
        ensures err { OnErr result (self.new ≡ self.old) }
    {
        if self.pending.len() >= self.limits.pending() {
            return Err(Full);
        }
        self.pending.push_reserved(PendingEntry::Answer {
            responder: Responder::Application,
            token,
            moment,
        });
        Ok(())
    }

    /// Queues the response of the application to the first pending request with its token, and removes that request.
    ///
    /// `response` is one encoded message. A response that does not fit the peer's limit is reduced, as by `reply`. If
    /// the reduced one does not fit either, the connection stops.
    ///
    /// # Errors
    ///
    /// Returns the first of these that applies; the link is then unchanged:
    ///
    /// - `NotAResponse`: the bytes do not encode a message.
    /// - `NoSuchRequest`: no request with this token waits for a response of the application.
    /// - `NotAResponse`: the code has no class 2, 4 or 5, or the message has an Observe option.
    /// - `NoRoom`: the free space of the queue is smaller than the response, as it would be sent.
    pub fn respond(&mut self, response: &[u8]) -> Result<Reply, RespondFault>
        ensures answer { RefusedBy result (frame_refusal self.old (message_of response.now)) }
        ensures reply { IfOk result (λ r. OnMessage (message_of response.now) (λ m.
            r ≡ fit (limit_in self.old) m (bare_response m))) }
        ensures after { OnOk result (OnMessage (message_of response.now) (λ m.
            self.new ≡ link_after self.old (call.Respond m))) }
        ensures shows { OnOk result (OnMessage (message_of response.now) (λ m.
            (h : History) → LinkShows self.old h → LinkShows self.new (after h (call.Respond m)))) }
        ensures err { OnErr result (self.new ≡ self.old) }
    {
        match parse(response) {
            Ok(message) => self.respond_with(&message, response),
            Err(_) => Err(RespondFault::NotAResponse),
        }
    }

    /// Does the same as `respond`, for the message that the frame encodes.
    fn respond_with(&mut self, message: &MessageRef, frame: &[u8]) -> Result<Reply, RespondFault>
        requires { frame.now ≡ spelling message.now }
        ensures answer { RefusedBy result (response_refusal self.old message.now) }
        ensures reply { IfOk result (λ r. r ≡ fit (limit_in self.old) message.now (bare_response message.now)) }
        ensures after { OnOk result (self.new ≡ link_after self.old (call.Respond message.now)) }
        ensures err { OnErr result (self.new ≡ self.old) }
    {
        let Some(index) = request_in(&self.pending, message.token()) else {
            return Err(RespondFault::NoSuchRequest);
        };
        if !is_plain_response(message) {
            return Err(RespondFault::NotAResponse);
        }
        if frame.len() > self.limit() {
            return self.respond_bare(index, message);
        }
        if frame.len() > self.queue.free() {
            return Err(RespondFault::NoRoom);
        }
        self.pending.remove(index);
        self.queue.extend(frame);
        Ok(Reply::Whole)
    }

    /// Queues the bare form of a response that does not fit the peer's limit, and removes the pending entry at this
    /// index. If the bare form does not fit either, stops the connection.
    ///
    /// # Errors
    ///
    /// `NoRoom`: the queue has no room for the bare form. The link is unchanged.
    fn respond_bare(&mut self, index: usize, message: &MessageRef) -> Result<Reply, RespondFault>
        requires within { index < length self.old.pending }
        requires large { fits (limit_in self.old) message.now ≡ false }
        ensures reply { IfOk result (λ r. r ≡ fit (limit_in self.old) message.now (bare_response message.now)) }
        ensures after { OnOk result (self.new ≡ link_with self.old (send (record (state_in self.old)
            { pending = remove self.old.pending index }) message.now (bare_response message.now))) }
        ensures room { RefusedBy result (room_refusal self.old message.now) }
        ensures err { OnErr result (self.new ≡ self.old) }
    {
        let bare = bare_of(message.code(), message.token());
        if bare.size() > self.limit() as u64 {
            self.pending.remove(index);
            self.stop(Reason::PeerTooSmall);
            return Ok(Reply::Stopped);
        }
        if bare.size() > self.queue.free() as u64 {
            return Err(RespondFault::NoRoom);
        }
        self.pending.remove(index);
        self.queue.put_compact(&bare);
        Ok(Reply::Bare)
    }
}

/// Returns `true` if a message may answer a request for the application. Its code has class 2, 4 or 5, and it has no
/// Observe option.
fn is_plain_response(message: &MessageRef) -> bool
    ensures { result ≡ is_plain message.now }
{
    is_response(message.code()) && !has_observe(message)
}

/// Returns `true` if a message has an Observe option.
fn has_observe(message: &MessageRef) -> bool
    ensures { result ≡ observes message.now }
{
    message.options().any(|option| option.number == OBSERVE)
}

/// Returns `true` if a code has class 2, 4 or 5, which are those of responses (RFC 7252 section 12.1).
fn is_response(code: Code) -> bool
    ensures { (m : Message) → m.code ≡ code → result ≡ is_response_code m }
{
    code.class() == 2 || (code.class() == 4 || code.class() == 5)
}
