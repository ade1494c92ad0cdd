//! The connections of a server: opened, ended, released, dropped, and their status.

use super::sessions::{announce_at, end_at, find, release_at};
use super::{ConnIndex, ConnectionWork, Server};
use coap_model::{AnnounceFault, ConnId, NoSuch, OpenFault, ReleaseFault, Status};
use coap_server_session::Session;

impl Server {
    ghost use Rattle.std.specs.Prelude.{◌≡◌, ◌<◌, ◌≤◌, ◌+◌, ◌++◌, ◌∷◌, List, [], Some, length, is_ok, is_none};
    ghost use Rattle.std.specs.Prelude.{IfOk, OnOk, OnErr};
    ghost use Rattle.coap_server_engine.specs.Prelude.{RefusedBy, AreInRange, AreSettled, session_of, is_there};
    ghost use Rattle.coap_server_engine.specs.Prelude.{server_opened, server_ended, server_released, server_announced};
    ghost use Rattle.coap_server_engine.specs.Prelude.{server_dropped, OpenedOrMemory, open_refusal, released_refusal};
    ghost use Rattle.coap_server_engine.specs.Prelude.{IsAnnounced, status_of, work_of, AcceptedCall, Opened, Ended};
    ghost use Rattle.coap_server_engine.specs.Prelude.{Released, Announced, Dropped, Shows, LiesAt, waiting_at};

    /// Returns `true` if `open` can fail only for lack of memory.
    pub fn can_open(&self) -> bool
        ensures answer { result ≡ is_none (open_refusal self.now) }
        ensures settled { AreSettled self.now.shared self.now.sessions }
    {
        self.sessions.len() < self.config.connections() && self.ids < u64::MAX
    }

    /// Opens a connection, queues the server's Capabilities and Settings Message (CSM) on it, and returns its id.
    ///
    /// Ids count up: the new one is the last id plus one.
    ///
    /// # Errors
    ///
    /// In this order, and nothing has changed then:
    ///
    /// - `Full`: the connection limit of the configuration is reached.
    /// - `IdsSpent`: no id is left.
    /// - `Memory`: allocation failed.
    pub fn open(&mut self) -> Result<ConnId, OpenFault>
        ensures answer { OpenedOrMemory result (open_refusal self.old) }
        ensures id { IfOk result (λ id. id ≡ self.old.ids + 1) }
        ensures ok { OnOk result (self.new ≡ server_opened self.old) }
        ensures lies { IfOk result (λ id. LiesAt id (length self.old.sessions) self.new.sessions) }
        ensures ranges { OnOk result (AreInRange self.old.config.limits) }
        ensures shows { IfOk result (λ id. (events : List AcceptedCall) → Shows self.old events →
            Shows self.new (events ++ Opened id ∷ [])) }
        ensures err { OnErr result (self.new ≡ self.old) }
    {
        if self.sessions.len() >= self.config.connections() {
            return Err(OpenFault::Full);
        }
        if self.ids == u64::MAX {
            return Err(OpenFault::IdsSpent);
        }
        let Ok(session) = Session::open(self.alloc, self.config.limits()) else {
            return Err(OpenFault::Memory);
        };
        let id = self.ids + 1;
        let Ok(_) = self.sessions.insert(id, session) else {
            return Err(OpenFault::Memory);
        };
        self.ids = id;
        Ok(id)
    }

    /// Records the end of the input of a connection. The connection stops, unless it has stopped or the peer has
    /// released it.
    ///
    /// # Errors
    ///
    /// - `NoSuch`: no connection has this id. Nothing has changed.
    #[tactic(auto, using(crate::proofs::values::ServerLemmas::unmarked_at, crate::proofs::values::ServerLemmas::within_unmarked))]
    pub fn ended(&mut self, id: ConnId) -> Result<(), NoSuch>
        ensures settled { AreSettled self.old.shared self.old.sessions }
        ensures answer { is_ok result ≡ is_there (session_of id self.old.sessions) }
        ensures ok { OnOk result (self.new ≡ server_ended self.old id) }
        ensures shows { OnOk result ((events : List AcceptedCall) → Shows self.old events →
            Shows self.new (events ++ Ended id ∷ [])) }
        ensures err { OnErr result (self.new ≡ self.old) }
    {
        let Some(at) = find(&self.sessions, self.recent, id) else {
            return Err(NoSuch);
        };
        end_at(&mut self.sessions, at, &self.shared);
        Ok(())
    }

    /// Queues a Release, drops the pending entries, and stops the connection (RFC 8323 section 5.5).
    ///
    /// # Errors
    ///
    /// In this order, and nothing has changed then:
    ///
    /// - `NoSuch`: no connection has this id.
    /// - `NotOpen`: the connection is not open.
    /// - `NoRoom`: fewer than 2 bytes are free in the queue.
    /// - `PeerTooSmall`: the peer accepts fewer than 2 bytes.
    #[tactic(auto, using(crate::proofs::values::ServerLemmas::unmarked_at, crate::proofs::values::ServerLemmas::within_unmarked))]
    pub fn release(&mut self, id: ConnId) -> Result<(), ReleaseFault>
        ensures settled { AreSettled self.old.shared self.old.sessions }
        ensures answer { RefusedBy result (released_refusal self.old id) }
        ensures ok { OnOk result (self.new ≡ server_released self.old id) }
        ensures shows { OnOk result ((events : List AcceptedCall) → Shows self.old events →
            Shows self.new (events ++ Released id ∷ [])) }
        ensures err { OnErr result (self.new ≡ self.old) }
    {
        let Some(at) = find(&self.sessions, self.recent, id) else {
            return Err(ReleaseFault::NoSuch);
        };
        release_at(&mut self.sessions, at, &self.shared)
    }

    /// Announces `new` as the largest message accepted on a connection from now on (RFC 8323 section 5.3.1).
    ///
    /// Allocates the memory for a message of that size, in bytes, and queues a CSM. The current size may be announced
    /// again. Bytes of an unfinished message stay. The new size applies to that message if its length was not received
    /// in full.
    ///
    /// # Errors
    ///
    /// In this order, and nothing has changed then:
    ///
    /// - `NoSuch`: no connection has this id.
    /// - `NotOpen`: the connection is not open.
    /// - `Lower`: the size is below the current one.
    /// - `TooLarge`: the size is above 1,048,576 bytes.
    /// - `NoRoom`: the queue has no room for a message of `max_sent` bytes.
    /// - `PeerTooSmall`: the CSM exceeds the largest message that may be sent.
    /// - `Memory`: the size is above the current one, and allocation failed.
    #[tactic(auto, using(crate::proofs::values::ServerLemmas::unmarked_at, crate::proofs::values::ServerLemmas::within_unmarked))]
    pub fn announce(&mut self, id: ConnId, new: u32) -> Result<(), AnnounceFault>
        ensures answer { IsAnnounced new (session_of id self.old.sessions) result }
        ensures ok { OnOk result (self.new ≡ server_announced self.old id new) }
        ensures shows { OnOk result ((events : List AcceptedCall) → Shows self.old events →
            Shows self.new (events ++ Announced id new ∷ [])) }
        ensures err { OnErr result (self.new ≡ self.old) }
    {
        let Some(at) = find(&self.sessions, self.recent, id) else {
            return Err(AnnounceFault::NoSuch);
        };
        announce_at(&mut self.sessions, at, &self.shared, new)
    }

    /// Removes a connection, with its queued bytes and pending entries.
    ///
    /// # Errors
    ///
    /// - `NoSuch`: no connection has this id. Nothing has changed.
    #[tactic(auto, using(crate::proofs::values::ServerLemmas::unmarked_at, crate::proofs::values::ServerLemmas::within_unmarked))]
    pub fn drop_conn(&mut self, id: ConnId) -> Result<(), NoSuch>
        ensures settled { AreSettled self.old.shared self.old.sessions }
        ensures answer { is_ok result ≡ is_there (session_of id self.old.sessions) }
        ensures ok { OnOk result (self.new ≡ server_dropped self.old id) }
        ensures shows { OnOk result ((events : List AcceptedCall) → Shows self.old events →
            Shows self.new (events ++ Dropped id ∷ [])) }
        ensures err { OnErr result (self.new ≡ self.old) }
    {
        let Some(at) = find(&self.sessions, self.recent, id) else {
            return Err(NoSuch);
        };
        self.sets.follow_removal(at, self.sessions.len());
        self.sessions.shift_remove_index(at);
        Ok(())
    }

    /// Returns the number of connections.
    pub fn connection_count(&self) -> usize
        ensures count { result ≡ length self.now.sessions }
        ensures few { result ≤ 256 }
        ensures settled { AreSettled self.now.shared self.now.sessions }
    {
        // Gives the proof the largest number of connections.
        self.config.connections();
        self.sessions.len()
    }

    /// Returns the id of the connection at an index, and the number of bytes queued on it.
    ///
    /// # Preconditions
    ///
    /// The index is less than the number of connections.
    pub fn queued_at(&self, at: usize) -> (ConnId, usize)
        requires { at < length self.now.sessions }
        ensures lies { LiesAt result.0 at self.now.sessions }
        ensures count { result.1 ≡ length (waiting_at result.0 self.now) }
    {
        let Some((id, session)) = self.sessions.as_slice().get_index(at) else {
            unreachable!()
        };
        (*id, session.waiting())
    }

    /// Returns the status of a connection, or `None` if no connection has this id.
    pub fn status(&self, id: ConnId) -> Option<Status>
        ensures { result ≡ status_of self.now id }
    {
        let at = find(&self.sessions, self.recent, id)?;
        let session = &self.sessions[at];
        Some(Status {
            phase: session.phase(),
            kept: session.kept(),
            waiting: session.waiting(),
            pending: session.pending(),
            observers: session.observers(),
            peer_max: session.peer_max(),
            finished: session.finished(),
        })
    }

    /// Returns the work left on the connection at an index.
    ///
    /// # Preconditions
    ///
    /// The connection is at the index, as `index_of` returned it.
    #[tactic(auto, using(crate::proofs::values::ServerLemmas::unmarked_at, crate::proofs::values::ServerLemmas::within_unmarked))]
    #[inline(always)]
    pub fn work_at(&self, index: ConnIndex) -> ConnectionWork
        requires { LiesAt index.id index.at self.now.sessions }
        ensures { work_of self.now index.id ≡ Some result }
    {
        let session = &self.sessions[index.at];
        ConnectionWork {
            takes: session.takes(),
            stopped: session.phase().stop().is_some(),
            waits: session.waiting() > 0,
            finished: session.finished(),
            due: session.due(self.shared.now),
        }
    }
}
