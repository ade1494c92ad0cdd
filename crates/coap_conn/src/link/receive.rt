//! Input of a link: received messages, malformed bytes, and the end of input.

ghost use Rattle.std.specs.Prelude.{◌≡◌, if◌then◌else◌};
ghost use Rattle.coap_conn.specs.Prelude.{bad_csm_option, IsLive, IsAnswering, is_waiting as waits};
ghost use Rattle.coap_conn.specs.Prelude.{is_reserved as reserved, checks_critical_options as minds_critical, react};
ghost use Rattle.coap_conn.specs.Prelude.{csm_reaction, live_reaction, open_reaction, ping_reaction, request_reaction};
ghost use Rattle.coap_conn.specs.Prelude.{release_reaction, response_reaction, pong_reaction, History, after};
ghost use Rattle.coap_conn.specs.Prelude.{LinkShows, IsReady, state_in, link_with, link_handled, link_after_csm};
ghost use Rattle.coap_conn.specs.Prelude.{link_after, verdict_value};
ghost use Rattle.coap_conn.specs.Verdicts as verdict;
ghost use Rattle.coap_conn.specs.declared.phase.Phase.TheVariants as phase;
ghost use Rattle.coap_conn.specs.declared.phase.Role.TheVariants as role;
ghost use Rattle.coap_conn.specs.Calls as call;

use super::Link;
use crate::outstanding::{has_ping_in, last_in, remove_ping_in, remove_request_in};
use crate::pending::PendingEntry;
use crate::phase::{Phase, Reject, Role, Verdict};
use crate::reason::Reason;
use crate::signal_messages::bare_of;
use crate::signal_options::{announced_size, announced_token, asks_custody, has_critical_option};
use coap_wire::{Code, MessageRef, ShortBuilder};

impl Link {
    /// Processes a received message (RFC 8323 sections 3.3, 3.4 and 5). If the result is `Request`, the caller responds
    /// by `reply`, or delays the response by `hold`, before it passes in the next message.
    ///
    /// # Preconditions
    ///
    /// The queue has room for a message of `max_sent` bytes, and the phase is `Waiting` or `Open`.
    #[tactic(auto, using(crate::proofs::RequestLemmas::react_live, crate::proofs::RequestLemmas::handled_is))]
    pub fn on<'m>(&mut self, message: &MessageRef<'m>) -> Verdict<'m>
        requires ready { IsReady self.old }
        requires live { IsLive self.old.phase }
        ensures verdict { verdict_value result ≡ (react (state_in self.old) message.now).verdict }
        ensures after { self.new ≡ link_after self.old (call.Handle message.now) }
        ensures shows { (h : History) → LinkShows self.old h → LinkShows self.new (after h (call.Handle message.now)) }
        // After a request the link is unchanged, and the preconditions of `reply` hold.
        ensures unchanged { verdict_value result ≡ verdict.Request → self.new ≡ self.old }
        ensures requested { verdict_value result ≡ verdict.Request → IsReady self.new × IsAnswering self.new.phase }
    {
        self.handle(message)
    }

    /// Stops the connection because of malformed input, and queues the Abort for it.
    ///
    /// # Preconditions
    ///
    /// The queue has room for a message of `max_sent` bytes, and the phase is `Waiting` or `Open`.
    pub fn reject(&mut self, fault: Reject)
        requires ready { IsReady self.old }
        requires live { IsLive self.old.phase }
        ensures after { self.new ≡ link_after self.old (call.Reject fault) }
        ensures shows { (h : History) → LinkShows self.old h → LinkShows self.new (after h (call.Reject fault)) }
    {
        self.abort(Reason::from(fault));
    }

    /// Stops the connection at the end of input. With `cut`, the input ended within a frame. Nothing changes if the
    /// phase is `Releasing` or `Stopped`.
    pub fn end(&mut self, cut: bool)
        ensures after { self.new ≡ link_after self.old (call.End cut) }
        ensures shows { (h : History) → LinkShows self.old h → LinkShows self.new (after h (call.End cut)) }
    {
        if self.phase.stop().is_none() {
            self.stop(if cut { Reason::Cut } else { Reason::Ended });
        }
    }

    /// Processes a message on a connection that accepts messages.
    #[tactic(auto, unfolding(crate::specs::Reaction::live_reaction))]
    fn handle<'m>(&mut self, message: &MessageRef<'m>) -> Verdict<'m>
        requires { IsReady self.old }
        ensures verdict { verdict_value result ≡ (live_reaction (state_in self.old) message.now).verdict }
        ensures after { self.new ≡ link_handled self.old message.now }
    {
        let code = message.code();
        if code == Code::CSM {
            return self.on_csm(message);
        }
        if is_reserved(code) {
            return self.abort(Reason::ReservedCode);
        }
        if code == Code::EMPTY {
            return Verdict::Done;
        }
        if code == Code::ABORT {
            return self.abort(Reason::PeerAbort);
        }
        if is_waiting(self.phase) {
            return self.abort(Reason::CsmExpected);
        }
        self.on_open(message)
    }

    /// Processes a CSM (RFC 8323 section 5.3).
    fn on_csm<'m>(&mut self, message: &MessageRef<'m>) -> Verdict<'m>
        requires { IsReady self.old }
        ensures verdict { verdict_value result
            ≡ (csm_reaction (state_in self.old) (bad_csm_option message.now)).verdict }
        ensures after { self.new ≡ link_after_csm self.old message.now }
    {
        match announced_size(message) {
            Err(number) => self.abort(Reason::BadCsm(number)),
            Ok(size) => {
                if let Some(bytes) = size {
                    self.peer_max = bytes;
                }
                if let Some(length) = announced_token(message) {
                    self.peer_token = length;
                }
                self.open_now()
            }
        }
    }

    /// Sets the phase `Open`. Returns `Opened` if the phase was `Waiting`, and `Done` otherwise.
    fn open_now(&mut self) -> Verdict<'static>
        ensures verdict { verdict_value result ≡ (if waits self.old.phase then verdict.Opened else verdict.Done) }
        ensures after { self.new ≡ record self.old { phase = phase.Open } }
    {
        let was_waiting = is_waiting(self.phase);
        self.phase = Phase::Open;
        if was_waiting {
            Verdict::Opened
        } else {
            Verdict::Done
        }
    }

    /// Processes any other message on an open connection.
    fn on_open<'m>(&mut self, message: &MessageRef<'m>) -> Verdict<'m>
        requires { IsReady self.old }
        ensures verdict { verdict_value result ≡ (open_reaction (state_in self.old) message.now).verdict }
        ensures after { self.new ≡ link_with self.old (open_reaction (state_in self.old) message.now).effect }
    {
        let code = message.code();
        if checks_critical_options(code) && has_critical_option(message) {
            return self.abort(Reason::BadSignalOption);
        }
        if code == Code::PING {
            return self.on_ping(message);
        }
        if code == Code::RELEASE {
            return self.on_release();
        }
        if code == Code::PONG {
            return self.on_pong(message);
        }
        match code.class() {
            7 => Verdict::Done,
            0 => self.on_request(message),
            _ => self.on_response(message),
        }
    }

    /// Queues the Pong to a Ping. If the Ping has Custody and an entry is pending, the Pong is appended to the pending
    /// list. If that list is full, the Pong is sent at once without Custody.
    fn on_ping<'m>(&mut self, message: &MessageRef<'m>) -> Verdict<'m>
        requires { IsReady self.old }
        ensures verdict { verdict_value result ≡ (ping_reaction (state_in self.old) message.now).verdict }
        ensures after { self.new ≡ link_with self.old (ping_reaction (state_in self.old) message.now).effect }
    {
        let custody = asks_custody(message);
        if !custody || self.pending.is_empty() {
            return self.pong(message.token(), custody);
        }
        if self.pending.len() >= self.limits.pending() {
            return self.pong(message.token(), false);
        }
        self.pending
            .push_reserved(PendingEntry::Pong(message.token().to_token()));
        Verdict::Done
    }

    /// Processes a Pong: removes the outstanding Ping with its token (RFC 8323 section 5.4).
    fn on_pong<'m>(&mut self, message: &MessageRef<'m>) -> Verdict<'m>
        ensures verdict { verdict_value result ≡ (pong_reaction (state_in self.old) message.now).verdict }
        ensures after { self.new ≡ link_with self.old (pong_reaction (state_in self.old) message.now).effect }
    {
        if !has_ping_in(&self.outstanding, message.token()) {
            return Verdict::Stranger;
        }
        remove_ping_in(&mut self.outstanding, message.token());
        Verdict::Pong {
            token: message.token().copy(),
            custody: asks_custody(message),
        }
    }

    /// Processes a Release: drops all outstanding entries, since no response is accepted after it (RFC 8323 section
    /// 5.5).
    fn on_release(&mut self) -> Verdict<'static>
        ensures verdict { verdict_value result ≡ (release_reaction (state_in self.old)).verdict }
        ensures after { self.new ≡ link_with self.old (release_reaction (state_in self.old)).effect }
    {
        self.phase = Phase::Releasing(Reason::PeerRelease);
        self.outstanding.clear();
        Verdict::Stopped(Reason::PeerRelease)
    }

    /// Processes a response: if it is the last one, removes the request or observation with its token (RFC 7252 section
    /// 5.3.2, RFC 7641 section 4.2).
    fn on_response<'m>(&mut self, message: &MessageRef<'m>) -> Verdict<'m>
        ensures verdict { verdict_value result ≡ (response_reaction (state_in self.old) message.now).verdict }
        ensures after { self.new ≡ link_with self.old (response_reaction (state_in self.old) message.now).effect }
    {
        let Some(last) = last_in(&self.outstanding, message) else {
            return Verdict::Stranger;
        };
        if last {
            remove_request_in(&mut self.outstanding, message.token());
        }
        Verdict::Answer {
            token: message.token().copy(),
            last,
        }
    }

    /// Processes a request. A server leaves the response to the caller; a client responds with 5.01 (Not Implemented).
    fn on_request<'m>(&mut self, message: &MessageRef<'m>) -> Verdict<'m>
        requires { IsReady self.old }
        ensures verdict { verdict_value result
            ≡ (request_reaction (state_in self.old) message.now self.old.role).verdict }
        ensures after { self.new
            ≡ link_with self.old (request_reaction (state_in self.old) message.now self.old.role).effect }
    {
        match self.role {
            Role::Server => Verdict::Request,
            Role::Client => self.refuse(message),
        }
    }

    /// Queues a 5.01 response to a request.
    // Always inlined, as `abort`.
    #[inline(always)]
    fn refuse<'m>(&mut self, message: &MessageRef<'m>) -> Verdict<'m>
        requires { IsReady self.old }
        ensures verdict { verdict_value result
            ≡ (request_reaction (state_in self.old) message.now role.Client).verdict }
        ensures after { self.new
            ≡ link_with self.old (request_reaction (state_in self.old) message.now role.Client).effect }
    {
        let response = ShortBuilder::new(Code::NOT_IMPLEMENTED, message.token().copy());
        let bare = bare_of(response.code(), response.token());
        self.answer(&response, &bare)
    }
}

/// Returns `true` if a code has the reserved class 1 or 6 (RFC 7252 section 12.1).
fn is_reserved(code: Code) -> bool
    ensures { result ≡ reserved code }
{
    code.class() == 1 || code.class() == 6
}

/// Returns `true` if a critical option stops the connection in messages with this code: Ping, Pong and Release.
fn checks_critical_options(code: Code) -> bool
    ensures { result ≡ minds_critical code }
{
    code == Code::PING || code == Code::PONG || code == Code::RELEASE
}

/// Returns `true` if the peer's first CSM has not been received.
fn is_waiting(phase: Phase) -> bool
    ensures { result ≡ waits phase }
{
    match phase {
        Phase::Waiting => true,
        Phase::Open | Phase::Releasing(_) | Phase::Stopped(_) => false,
    }
}
