//! The input and the output of a server's connections.

use super::sessions::{find, flush_at, written_at};
use super::{ConnIndex, FlushStep, Server};
use crate::index_set::IndexSet;
use crate::monitor::{Call, Monitor};
use coap_io::{Outlet, WriteFailed};
use coap_model::{ConnId, Handled, TakeFault, Taken, WrittenFault};
use std::alloc::AllocError;

impl Server {
    ghost use Rattle.std.specs.Prelude.{◌≡◌, ◌+◌, ◌≤◌, ◌++◌, ◌∷◌, ⊤, List, [], length, take, true, false, is_err};
    ghost use Rattle.std.specs.Prelude.{is_some, IfOk, IfErr, IfNone, IfSome, OnOk, OnErr, option_copied};
    ghost use Rattle.coap_server_engine.specs.Prelude.{sem, follows_so, none, RefusedBy, IsPartialIn, in_result, took};
    ghost use Rattle.coap_server_engine.specs.Prelude.{ShowsMore, ShowsPartlyFed, AddsBytes, WritesPart, waiting_at};
    ghost use Rattle.coap_server_engine.specs.Prelude.{more_at, IsFlushedOnce, session_of, is_there, count_taken};
    ghost use Rattle.coap_server_engine.specs.Prelude.{server_taken, server_written, can_take_on, handled_by};
    ghost use Rattle.coap_server_engine.specs.Prelude.{IsNotTaken, written_refusal, front_of, stop_on, LiesAt};
    ghost use Rattle.coap_server_engine.specs.Prelude.{AcceptedCall, Took, Wrote, takes, handled_in, Shows};
    ghost use Rattle.coap_server_engine.specs.Prelude.{ShowsRefused, IsRefusedFor, FollowsMore, IsTakenFor};
    ghost use Rattle.coap_server_engine.specs.Prelude.{IsNotTakenFor, AreUnanswered, AreSettled};
    ghost use Rattle.coap_server_engine.specs.contracts.server.Server.{the_row};

    /// Returns `true` if a connection accepts bytes.
    ///
    /// It does if it exists, has not stopped, was not released by the peer, and its queue has room for a message of
    /// `max_sent` bytes.
    #[tactic(auto, using(crate::proofs::values::ServerLemmas::unmarked_at, crate::proofs::values::ServerLemmas::within_unmarked))]
    pub fn can_take(&self, id: ConnId) -> bool
        ensures { result ≡ can_take_on (session_of id self.now.sessions) }
    {
        let Some(at) = find(&self.sessions, self.recent, id) else {
            return false;
        };
        self.sessions[at].takes()
    }

    /// Accepts the first bytes of `piece`, which a connection received, and processes at most one message.
    ///
    /// The accepted bytes end with the first message, with the byte at which malformed input is recognised, or with the
    /// slice. None is accepted if `can_take` returns `false`. The caller offers the other bytes again.
    ///
    /// # Errors
    ///
    /// - `NoSuch`: no connection has this id. Nothing has changed.
    /// - `Memory`: allocation failed for the representation that the message stores. The bytes before its last one are
    ///   accepted, and the message was not processed. The caller may offer the last byte again.
    #[tactic(auto, using(crate::proofs::values::ServerLemmas::unmarked_at, crate::proofs::values::ServerLemmas::within_unmarked))]
    pub fn take(&mut self, id: ConnId, piece: &[u8]) -> Result<Taken, TakeFault>
        ensures within { IfOk result (λ t. t.bytes ≤ length piece.now) }
        ensures count { IfOk result (λ t. t.bytes ≡ count_taken self.old id piece.now) }
        ensures takes { IfOk result (λ t. (events : List AcceptedCall) → Shows self.old events →
            t.bytes ≡ takes self.old.config events id piece.now) }
        ensures handled { IfOk result (λ t. t.handled ≡ handled_by self.old id piece.now) }
        ensures says { IfOk result (λ t. (events : List AcceptedCall) → Shows self.old events →
            t.handled ≡ handled_in self.old.config events (Took id (take t.bytes piece.now)) id) }
        ensures there { OnOk result (is_there (session_of id self.old.sessions) ≡ true) }
        ensures ok { OnOk result (self.new ≡ server_taken self.old id piece.now) }
        ensures shows { IfOk result (λ t. (events : List AcceptedCall) → Shows self.old events →
            Shows self.new (events ++ Took id (take t.bytes piece.now) ∷ [])) }
        ensures refused { IfErr result (λ fault. IsNotTaken self.old id piece.now fault self.new) }
        ensures shows_refused { IfErr result (λ fault. (events : List AcceptedCall) → Shows self.old events →
            ShowsRefused events id piece.now fault self.new) }
        ensures refused_for { IfErr result (λ fault.
            (events : List AcceptedCall) → Shows self.old events
            → IsRefusedFor self.old.config events id piece.now fault) }
    {
        let Some(at) = self.seek(id) else {
            return Err(TakeFault::NoSuch);
        };
        self.take_at(ConnIndex { id, at }, piece)
    }

    /// Returns the index of a connection, or `None` if no connection has this id.
    ///
    /// The index stays the same until a connection is dropped. `take_at` and `flush_once_at` use it and search for no
    /// connection.
    pub fn index_of(&self, id: ConnId) -> Option<usize>
        ensures there { is_some result ≡ is_there (session_of id self.now.sessions) }
        ensures at { IfSome result (λ at. LiesAt id at self.now.sessions) }
        ensures settled { AreSettled self.now.shared self.now.sessions }
    {
        find(&self.sessions, self.recent, id)
    }

    /// Returns the index of a connection as `index_of` does. The next search looks there first.
    pub(super) fn seek(&mut self, id: ConnId) -> Option<usize>
        ensures none { IfNone result (session_of id self.old.sessions ≡ None) }
        ensures at { IfSome result (λ at. LiesAt id at self.old.sessions) }
        ensures same { self.new ≡ self.old }
    {
        let at = find(&self.sessions, self.recent, id)?;
        self.recent = at;
        Some(at)
    }

    /// Accepts bytes as `take` does, on the connection at an index.
    ///
    /// # Errors
    ///
    /// - `Memory`: as for `take`.
    ///
    /// # Preconditions
    ///
    /// The connection is at the index, as `index_of` returned it.
    #[inline(always)]
    pub fn take_at(&mut self, index: ConnIndex, piece: &[u8]) -> Result<Taken, TakeFault>
        requires { LiesAt index.id index.at self.old.sessions }
        ensures within { IfOk result (λ t. t.bytes ≤ length piece.now) }
        ensures count { IfOk result (λ t. t.bytes ≡ count_taken self.old index.id piece.now) }
        ensures takes { IfOk result (λ t. (events : List AcceptedCall) → Shows self.old events →
            t.bytes ≡ takes self.old.config events index.id piece.now) }
        ensures handled { IfOk result (λ t. t.handled ≡ handled_by self.old index.id piece.now) }
        ensures says { IfOk result (λ t. (events : List AcceptedCall) → Shows self.old events →
            t.handled ≡ handled_in self.old.config events (Took index.id (take t.bytes piece.now)) index.id) }
        ensures there { OnOk result (is_there (session_of index.id self.old.sessions) ≡ true) }
        ensures ok { OnOk result (self.new ≡ server_taken self.old index.id piece.now) }
        ensures shows { IfOk result (λ t. (events : List AcceptedCall) → Shows self.old events →
            Shows self.new (events ++ Took index.id (take t.bytes piece.now) ∷ [])) }
        ensures refused { IfErr result (λ fault. IsNotTaken self.old index.id piece.now fault self.new) }
        ensures shows_refused { IfErr result (λ fault. (events : List AcceptedCall) → Shows self.old events →
            ShowsRefused events index.id piece.now fault self.new) }
        ensures refused_for { IfErr result (λ fault.
            (events : List AcceptedCall) → Shows self.old events →
            IsRefusedFor self.old.config events index.id piece.now fault) }
        ensures lies { OnOk result (LiesAt index.id index.at self.new.sessions) }
    {
        let mut affected = IndexSet::empty();
        Ok(self.take_request_at(index, piece, &mut affected)?.taken)
    }

    /// Accepts bytes until none is left or none is accepted, and returns the number accepted.
    ///
    /// Returns 0 if no connection has this id.
    ///
    /// # Errors
    ///
    /// Returns `AllocError` if allocation fails. The messages before the failure were processed then.
    pub fn take_all(&mut self, id: ConnId, bytes: &[u8]) -> Result<usize, AllocError>
        ensures count { IfOk result (λ n. n ≡ (in_result self.old id bytes.now).count) }
        ensures within { IfOk result (λ n. n ≤ length bytes.now) }
        ensures after { OnOk result (self.new ≡ (in_result self.old id bytes.now).server) }
        ensures shows { OnOk result (ShowsMore self.old self.new (took self.old id bytes.now)) }
        ensures err { OnErr result (IsPartialIn self.old id bytes.now self.new) }
        ensures shows_refused { OnErr result (ShowsPartlyFed self.old id bytes.now self.new) }
    {
        let Some(at) = find(&self.sessions, self.recent, id) else {
            return Ok(0);
        };
        let mut taken = 0;
        while taken < bytes.len() {
            match self.take_at(ConnIndex { id, at }, &bytes[taken..]) {
                Ok(piece) => {
                    if piece.bytes == 0 {
                        return Ok(taken);
                    }
                    taken += piece.bytes;
                }
                Err(TakeFault::NoSuch) => return Ok(taken),
                Err(TakeFault::Memory { .. }) => return Err(AllocError),
            }
        }
        Ok(taken)
    }

    /// Returns the number of pending entries plus the number of observers of a connection, or 0 if there is none. A
    /// connection settles in at most this number of steps.
    #[tactic(auto, using(crate::proofs::values::ServerLemmas::unmarked_at, crate::proofs::values::ServerLemmas::within_unmarked))]
    pub fn settle_bound(&self, id: ConnId) -> usize
        ensures { result ≡ more_at id self.now }
    {
        let Some(at) = find(&self.sessions, self.recent, id) else {
            return 0;
        };
        self.sessions[at].settle_bound()
    }

    /// Returns all queued bytes of a connection in one slice, or `None` if no connection has this id.
    ///
    /// If the bytes wrap around the end of the queue, they are moved first; `parts` moves none.
    #[tactic(auto, using(crate::proofs::values::ServerLemmas::unmarked_at, crate::proofs::values::ServerLemmas::within_unmarked))]
    pub fn front<'a>(&'a mut self, id: ConnId) -> Option<&'a [u8]>
        ensures* unchanged { sem 𝓛 (follows_so the_row the_row self.entry.ghost_name none (λ _ _. ⊤)
            (λ s. s ≡ self.old)) }
        ensures front { option_copied result ≡ front_of self.old id }
    {
        let at = find(&self.sessions, self.recent, id)?;
        self.recent = at;
        Some(self.sessions[at].front())
    }

    /// Returns the queued bytes of a connection in the two slices that they occupy, or `None` if no connection has this
    /// id.
    ///
    /// The first slice comes before the second in the output. Unlike `front`, this function moves no bytes.
    #[tactic(auto, using(crate::proofs::values::ServerLemmas::unmarked_at, crate::proofs::values::ServerLemmas::within_unmarked))]
    pub fn parts(&self, id: ConnId) -> Option<(&[u8], &[u8])>
        ensures there { is_some result ≡ is_there (session_of id self.now.sessions) }
        ensures parts { IfSome result (λ parts. parts.0.now ++ parts.1.now ≡ waiting_at id self.now) }
    {
        let at = find(&self.sessions, self.recent, id)?;
        Some(self.sessions[at].parts())
    }

    /// Removes the first `count` bytes from the queue of a connection, after the caller has written them.
    ///
    /// # Errors
    ///
    /// In this order, and nothing has changed then:
    ///
    /// - `NoSuch`: no connection has this id.
    /// - `TooMany`: `count` exceeds the number of queued bytes.
    #[tactic(auto, using(crate::proofs::values::ServerLemmas::unmarked_at, crate::proofs::values::ServerLemmas::within_unmarked))]
    pub fn written(&mut self, id: ConnId, count: usize) -> Result<(), WrittenFault>
        ensures settled { AreSettled self.old.shared self.old.sessions }
        ensures answer { RefusedBy result (written_refusal self.old id count) }
        ensures ok { OnOk result (self.new ≡ server_written self.old id count) }
        ensures shows { OnOk result ((events : List AcceptedCall) → Shows self.old events →
            Shows self.new (events ++ Wrote id count ∷ [])) }
        ensures err { OnErr result (self.new ≡ self.old) }
    {
        let Some(at) = find(&self.sessions, self.recent, id) else {
            return Err(WrittenFault::NoSuch);
        };
        if self.sessions[at].waiting() < count {
            return Err(WrittenFault::TooMany);
        }
        written_at(&mut self.sessions, at, &self.shared, count);
        Ok(())
    }

    /// Writes all queued bytes of the connection at an index, if there are any, and settles the connection.
    ///
    /// # Errors
    ///
    /// Returns `WriteFailed` if a write fails. A prefix of the queued bytes was written then. The server is unchanged.
    ///
    /// # Preconditions
    ///
    /// The outlet has not failed before. The connection is at the index, as `index_of` returned it.
    #[inline(always)]
    pub fn flush_once_at<W: Outlet>(
        &mut self,
        index: ConnIndex,
        writer: &mut W,
    ) -> Result<FlushStep, WriteFailed>
        requires works { W.is_failed writer.old ≡ false }
        requires at { LiesAt index.id index.at self.old.sessions }
        ensures ok { IfOk result (λ f. IsFlushedOnce index.id self.old self.new
            (AddsBytes (W.written writer.old) (W.written writer.new)) f.waited) }
        ensures more { IfOk result (λ f. f.more ≡ more_at index.id self.old) }
        ensures stop { IfOk result (λ f. f.stop ≡ stop_on (session_of index.id self.new.sessions)) }
        ensures part { OnErr result (WritesPart (W.written writer.old) (W.written writer.new)
            (waiting_at index.id self.old)) }
        ensures err { OnErr result (self.new ≡ self.old) }
        ensures failure { W.is_failed writer.new ≡ is_err result }
        ensures lies { OnOk result (LiesAt index.id index.at self.new.sessions) }
    {
        let more = self.sessions[index.at].settle_bound();
        let waited = flush_at(&mut self.sessions, index.at, &self.shared, writer)?;
        let stop = self.sessions[index.at].phase().stop();
        Ok(FlushStep { waited, more, stop })
    }
}
