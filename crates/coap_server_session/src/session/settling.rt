//! Settles a connection of a server: queues everything that is due, as long as the queue has room.

use super::{Session, discard_if_closed};
use crate::answering::{notify, send_due};
use crate::cause::Cause;
use crate::server_state::ServerState;

impl Session {
    ghost use Rattle.std.specs.Prelude.{◌≡◌, false, ◌≤◌, ◌||◌, Some, length, is_some};
    ghost use Rattle.coap_server_session.specs.Prelude.{IsReady, IsMarkedBut, IsMarked, next_pending_in, next_stale};
    ghost use Rattle.coap_server_session.specs.Prelude.{session_notified, session_settled_once, session_written};
    ghost use Rattle.coap_server_session.specs.Prelude.{session_settled, IsSettled, settled_pending};

    /// Settles the connection: sends the pending entries that are due, then notifies the stale observers, one after the
    /// other.
    ///
    /// Ends early if the queue has no room for a message of `max_sent` bytes. (RFC 8323 section 5.4.1, RFC 7641 section
    /// 4.2)
    ///
    /// # Preconditions
    ///
    /// The changed marks of the observers are current.
    #[tactic(auto, using(crate::proofs::values::SettleLemmas::settled_is_settled), unfolding(crate::specs::values::Sessions::session_settled, crate::specs::values::Sessions::session_settled_within))]
    #[inline]
    pub fn settle(&mut self, shared: &ServerState)
        requires { IsMarked shared.now self.old }
        ensures after { self.new.session ≡ session_settled shared.entry.now self.old.session }
        ensures settled { IsSettled shared.entry.now self.new.session }
        ensures marked { IsMarked shared.entry.now self.new }
        ensures split { self.new.split ≡ self.old.split }
    {
        if self.settle_bound() > 0 {
            self.settle_each(shared);
        }
    }

    /// Settles the connection as `settle` does, in at most `more` iterations.
    #[tactic(auto, using(crate::proofs::values::SettleLemmas::last_turn, crate::proofs::values::SettleLemmas::settled_is_settled), unfolding(crate::specs::values::Sessions::session_settled, crate::specs::values::Sessions::session_settled_within))]
    // Never inlined, so that `settle` costs one comparison on a connection with nothing to send.
    #[inline(never)]
    fn settle_each(&mut self, shared: &ServerState)
        requires { IsMarked shared.now self.old }
        ensures after { self.new.session ≡ session_settled shared.entry.now self.old.session }
        ensures settled { IsSettled shared.entry.now self.new.session }
        ensures marked { IsMarked shared.entry.now self.new }
        ensures split { self.new.split ≡ self.old.split }
    {
        for _ in 0..self.settle_bound() {
            if !self.settle_once(shared) {
                return;
            }
        }
    }

    /// Recomputes the changed marks of the observers that a change affects, and settles the connection.
    ///
    /// # Preconditions
    ///
    /// The changed marks of all other observers are current.
    pub fn mark_and_settle(&mut self, shared: &ServerState, cause: Cause)
        requires { IsMarkedBut cause shared.now self.old }
        ensures after { self.new.session ≡ session_settled shared.entry.now self.old.session }
        ensures marked { IsMarked shared.entry.now self.new }
        ensures split { self.new.split ≡ self.old.split }
    {
        self.observers.mark(cause, shared);
        self.settle(shared);
    }

    /// Settles the connection if an entry is pending. Use it when no observer is stale.
    ///
    /// # Preconditions
    ///
    /// The changed marks of the observers are current.
    pub fn settle_if_pending(&mut self, shared: &ServerState)
        requires { IsMarked shared.now self.old }
        ensures after { self.new.session ≡ settled_pending shared.entry.now self.old.session }
        ensures marked { IsMarked shared.entry.now self.new }
        ensures split { self.new.split ≡ self.old.split }
    {
        if self.link.pending() > 0 {
            self.settle(shared);
        }
    }

    /// Sends the first due entry, or notifies the first stale observer if none is due. Returns `false` if there was
    /// neither, or if the queue has no room.
    fn settle_once(&mut self, shared: &ServerState) -> bool
        requires { IsMarked shared.now self.old }
        ensures after { self.new.session ≡ session_settled_once shared.entry.now self.old.session }
        ensures found { result ≡ (is_some (next_pending_in shared.entry.now.now self.old.session)
            || is_some (next_stale shared.entry.now self.old.session)) }
        ensures marked { IsMarked shared.entry.now self.new }
        ensures split { self.new.split ≡ self.old.split }
    {
        if !self.link.ready() {
            return false;
        }
        if send_due(&mut self.link, shared.now) {
            discard_if_closed(&mut self.framer, &self.link, &mut self.observers);
            return true;
        }
        self.notify_once(shared)
    }

    /// Notifies the first stale observer, and returns `true` if there was one. The queue must have room.
    fn notify_once(&mut self, shared: &ServerState) -> bool
        requires ready { IsReady self.old.session.link }
        requires marked { IsMarked shared.now self.old }
        ensures after { self.new.session
            ≡ session_notified shared.entry.now self.old.session (next_stale shared.entry.now self.old.session) }
        ensures found { result ≡ is_some (next_stale shared.entry.now self.old.session) }
        ensures marked { IsMarked shared.entry.now self.new }
        ensures split { self.new.split ≡ self.old.split }
    {
        let Some(stale) = self.observers.first_changed() else {
            return false;
        };
        notify(&mut self.link, &mut self.observers, shared, stale);
        discard_if_closed(&mut self.framer, &self.link, &mut self.observers);
        true
    }

    /// Removes the first `count` bytes from the queue as `written` does, and settles the connection.
    ///
    /// The connection must be settled before. If its queue had room then, nothing was due, so nothing needs to be sent
    /// now.
    ///
    /// # Preconditions
    ///
    /// At least `count` bytes are queued, the connection is settled, and the changed marks of the observers are
    /// current.
    #[tactic(auto, using(crate::proofs::values::SettleLemmas::settled_stays, crate::proofs::values::SettleLemmas::settled_where_room, crate::proofs::values::SessionLemmas::ready_is))]
    pub fn written_and_settled(&mut self, shared: &ServerState, count: usize)
        requires within { count ≤ length self.old.session.link.waiting }
        requires settled { IsSettled shared.now self.old.session }
        requires marked { IsMarked shared.now self.old }
        ensures after { self.new.session ≡ session_settled shared.entry.now (session_written self.old.session count) }
        ensures marked { IsMarked shared.entry.now self.new }
    {
        let had_room = self.link.ready();
        self.written(count);
        if !had_room {
            self.settle(shared);
        }
    }
}
