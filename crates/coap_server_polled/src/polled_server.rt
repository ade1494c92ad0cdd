//! `PolledServer`, a server with the set of the connections that are due.

ghost use Rattle.std.specs.Prelude.{◌≡◌, ◌≢◌, ◌<◌, ◌+◌, ◌++◌, ◌∷◌, ℕ, List, [], Option, Some, IfNone, IfOk, IfSome};
ghost use Rattle.std.specs.Prelude.{OnErr, OnOk, is_ok, nat_le};
ghost use Rattle.coap_server_engine.specs.Prelude.{AcceptedCall, Announced, Dropped, Ended, IsAnnounced, IsOutside};
ghost use Rattle.coap_server_engine.specs.Prelude.{IsReplyOn, OpenedOrMemory, Opened, RefusedBy, RefusedOrMemory};
ghost use Rattle.coap_server_engine.specs.Prelude.{Released, Removed, Shows, Stored, Ticked, Wrote, bit_of, is_there};
ghost use Rattle.coap_server_engine.specs.Prelude.{message_of, open_refusal, put_refusal, released_refusal};
ghost use Rattle.coap_server_engine.specs.Prelude.{remove_refusal, responded_refusal, response_event};
ghost use Rattle.coap_server_engine.specs.Prelude.{server_announced, server_dropped, server_ended, server_given};
ghost use Rattle.coap_server_engine.specs.Prelude.{server_opened, server_put, server_released, server_removed};
ghost use Rattle.coap_server_engine.specs.Prelude.{server_ticked, server_written, session_of, written_refusal};
ghost use Rattle.coap_server_polled.specs.Reports.{HasNoOutput, IsReported, KeepsReported, Reports, Yields};

use crate::due::follow_removal;
use coap_conn::Reply;
use coap_model::{
    AnnounceFault, Backwards, ConnId, NoSuch, OpenFault, ReleaseFault, ResponseFault, WrittenFault,
};
use coap_server_engine::{IndexSet, Server};
use coap_store::{PathKey, StoreFault};

/// Server with the set of the connections that are due.
///
/// A connection becomes due if its unwritten output may have changed. It stays due until `next_output` yields it, or
/// finds that it has no unwritten output. A call may make connections due whose output is the same: `next_output` then
/// yields these again. `written` with a count of 0 makes none due.
///
/// A `take` is made on `engine` by `Server::take_request_at`, which adds to `due` the other connections that the
/// message concerns. The program adds the connection itself by `wake_at`. If the take handled nothing, it leaves `due`
/// as it was.
#[derive(Drop)]
pub struct PolledServer {
    /// The server.
    pub engine: Server,
    /// Indices of the connections that are due.
    pub due: IndexSet,
}

impl PolledServer {
    /// Returns a server all of whose connections are due.
    #[tactic(auto, using(crate::proofs::ReportLemmas::keeps_new))]
    pub fn new(engine: Server) -> PolledServer
        ensures engine { result.engine ≡ engine }
        ensures output { (h : Option PolledServer) → KeepsReported h (Some result) }
    {
        PolledServer {
            engine,
            due: IndexSet::full(),
        }
    }

    /// Makes a connection due, if there is one with this id.
    fn wake(&mut self, id: ConnId)
        ensures engine { self.new.engine ≡ self.old.engine }
        ensures own { IsReported id self.new → ⊥ }
        ensures others { (i : ℕ) → IsOutside self.new.due.words i → IsOutside self.old.due.words i }
    {
        let Some(at) = self.engine.index_of(id) else {
            return;
        };
        self.due.insert(at);
    }

    /// Makes the connection at an index due.
    ///
    /// # Preconditions
    ///
    /// The index is below 256, the largest number of connections.
    // `IndexSet::insert` compares the index too: 2 instructions in each call of a program in C.
    pub fn wake_at(&mut self, at: usize)
        requires { at < 256 }
        ensures engine { self.new.engine ≡ self.old.engine }
        ensures set { bit_of self.new.due.words at ≡ 1 }
        ensures others { (i : ℕ) → i ≢ at → bit_of self.new.due.words i ≡ bit_of self.old.due.words i }
    {
        self.due.words[at / 64] |= 1 << (at % 64);
    }

    /// Opens a connection as `Server::open` does. It is due.
    ///
    /// # Errors
    ///
    /// Those of `Server::open`. Nothing has changed then.
    pub fn open(&mut self) -> Result<ConnId, OpenFault>
        ensures answer { OpenedOrMemory result (open_refusal self.old.engine) }
        ensures id { IfOk result (λ id. id ≡ self.old.engine.ids + 1) }
        ensures ok { OnOk result (self.new.engine ≡ server_opened self.old.engine) }
        ensures shows { IfOk result (λ id. (events : List AcceptedCall) → Shows self.old.engine events →
            Shows self.new.engine (events ++ Opened id ∷ [])) }
        ensures err { OnErr result (self.new ≡ self.old) }
        ensures output { KeepsReported (Some self.old) (Some self.new) }
    {
        let at = self.engine.connection_count();
        let id = self.engine.open()?;
        self.due.insert(at);
        Ok(id)
    }

    /// Queues a response of the application as `Server::respond` does. The connection is due.
    ///
    /// # Errors
    ///
    /// Those of `Server::respond`. Nothing has changed then.
    pub fn respond(&mut self, id: ConnId, response: &[u8]) -> Result<Reply, ResponseFault>
        ensures answer { RefusedBy result (responded_refusal self.old.engine id response.now) }
        ensures reply { IfOk result (λ r. IsReplyOn response.now r (session_of id self.old.engine.sessions)) }
        ensures ok { OnOk result (self.new.engine ≡ server_given self.old.engine id response.now) }
        ensures shows { OnOk result ((events : List AcceptedCall) → Shows self.old.engine events →
            Shows self.new.engine (events ++ response_event id (message_of response.now))) }
        ensures err { OnErr result (self.new ≡ self.old) }
        ensures output { KeepsReported (Some self.old) (Some self.new) }
    {
        let reply = self.engine.respond(id, response)?;
        self.wake(id);
        Ok(reply)
    }

    /// Removes the first `count` bytes from the queue of a connection as `Server::written` does. The connection is due,
    /// unless `count` is 0.
    ///
    /// # Errors
    ///
    /// Those of `Server::written`. Nothing has changed then.
    pub fn written(&mut self, id: ConnId, count: usize) -> Result<(), WrittenFault>
        ensures answer { RefusedBy result (written_refusal self.old.engine id count) }
        ensures ok { OnOk result (self.new.engine ≡ server_written self.old.engine id count) }
        ensures shows { OnOk result ((events : List AcceptedCall) → Shows self.old.engine events →
            Shows self.new.engine (events ++ Wrote id count ∷ [])) }
        ensures err { OnErr result (self.new ≡ self.old) }
        ensures none { count ≡ 0 → self.new ≡ self.old }
        ensures output { KeepsReported (Some self.old) (Some self.new) }
    {
        // The search of `Server::written` is the same: one after the call costs 5 instructions more.
        let Some(at) = self.engine.index_of(id) else {
            return Err(WrittenFault::NoSuch);
        };
        // Gives the proof that the index is below 256.
        self.engine.connection_count();
        self.engine.written(id, count)?;
        if count == 0 {
            return Ok(());
        }
        self.wake_at(at);
        Ok(())
    }

    /// Sets the time as `Server::tick` does. If it changes, the connections are due that have a pending entry or an
    /// observer of the time.
    ///
    /// # Errors
    ///
    /// Those of `Server::tick`. Nothing has changed then.
    pub fn tick(&mut self, now: u64) -> Result<(), Backwards>
        ensures answer { is_ok result ≡ nat_le self.old.engine.shared.now now }
        ensures ok { OnOk result (self.new.engine ≡ server_ticked self.old.engine now) }
        ensures shows { OnOk result ((events : List AcceptedCall) → Shows self.old.engine events →
            Shows self.new.engine (events ++ Ticked now ∷ [])) }
        ensures err { OnErr result (self.new ≡ self.old) }
        ensures output { KeepsReported (Some self.old) (Some self.new) }
    {
        let before = self.engine.moment();
        let affected = self.engine.concerned_by_time();
        self.engine.tick(now)?;
        if now == before {
            return Ok(());
        }
        self.due.join(&affected);
        Ok(())
    }

    /// Records the end of the input of a connection as `Server::ended` does. The connection is due.
    ///
    /// # Errors
    ///
    /// Those of `Server::ended`. Nothing has changed then.
    pub fn ended(&mut self, id: ConnId) -> Result<(), NoSuch>
        ensures answer { is_ok result ≡ is_there (session_of id self.old.engine.sessions) }
        ensures ok { OnOk result (self.new.engine ≡ server_ended self.old.engine id) }
        ensures shows { OnOk result ((events : List AcceptedCall) → Shows self.old.engine events →
            Shows self.new.engine (events ++ Ended id ∷ [])) }
        ensures err { OnErr result (self.new ≡ self.old) }
        ensures output { KeepsReported (Some self.old) (Some self.new) }
    {
        self.engine.ended(id)?;
        self.wake(id);
        Ok(())
    }

    /// Queues a Release as `Server::release` does. The connection is due.
    ///
    /// # Errors
    ///
    /// Those of `Server::release`. Nothing has changed then.
    pub fn release(&mut self, id: ConnId) -> Result<(), ReleaseFault>
        ensures answer { RefusedBy result (released_refusal self.old.engine id) }
        ensures ok { OnOk result (self.new.engine ≡ server_released self.old.engine id) }
        ensures shows { OnOk result ((events : List AcceptedCall) → Shows self.old.engine events →
            Shows self.new.engine (events ++ Released id ∷ [])) }
        ensures err { OnErr result (self.new ≡ self.old) }
        ensures output { KeepsReported (Some self.old) (Some self.new) }
    {
        self.engine.release(id)?;
        self.wake(id);
        Ok(())
    }

    /// Announces a size as `Server::announce` does. The connection is due.
    ///
    /// # Errors
    ///
    /// Those of `Server::announce`. Nothing has changed then.
    pub fn announce(&mut self, id: ConnId, new: u32) -> Result<(), AnnounceFault>
        ensures answer { IsAnnounced new (session_of id self.old.engine.sessions) result }
        ensures ok { OnOk result (self.new.engine ≡ server_announced self.old.engine id new) }
        ensures shows { OnOk result ((events : List AcceptedCall) → Shows self.old.engine events →
            Shows self.new.engine (events ++ Announced id new ∷ [])) }
        ensures err { OnErr result (self.new ≡ self.old) }
        ensures output { KeepsReported (Some self.old) (Some self.new) }
    {
        // Gives the proof that all connections are settled.
        self.engine.moment();
        self.engine.announce(id, new)?;
        self.wake(id);
        Ok(())
    }

    /// Removes a connection as `Server::drop_conn` does. The others are due as before.
    ///
    /// # Errors
    ///
    /// Those of `Server::drop_conn`. Nothing has changed then.
    pub fn drop_conn(&mut self, id: ConnId) -> Result<(), NoSuch>
        ensures answer { is_ok result ≡ is_there (session_of id self.old.engine.sessions) }
        ensures ok { OnOk result (self.new.engine ≡ server_dropped self.old.engine id) }
        ensures shows { OnOk result ((events : List AcceptedCall) → Shows self.old.engine events →
            Shows self.new.engine (events ++ Dropped id ∷ [])) }
        ensures err { OnErr result (self.new ≡ self.old) }
        ensures output { KeepsReported (Some self.old) (Some self.new) }
    {
        let Some(at) = self.engine.index_of(id) else {
            return Err(NoSuch);
        };
        let count = self.engine.connection_count();
        let Ok(()) = self.engine.drop_conn(id) else {
            unreachable!()
        };
        follow_removal(&mut self.due, at, count);
        Ok(())
    }

    /// Stores a representation as `Server::put` does. The connections are due that may have an observer of the path.
    ///
    /// # Errors
    ///
    /// Those of `Server::put`. Nothing has changed then.
    pub fn put(
        &mut self,
        path: &PathKey,
        format: Option<u16>,
        bytes: &[u8],
    ) -> Result<u64, StoreFault>
        ensures answer { RefusedOrMemory result (put_refusal self.old.engine.shared.store path.now bytes.now) }
        ensures version { IfOk result (λ version. version ≡ self.old.engine.shared.store.versions + 1) }
        ensures ok { OnOk result (self.new.engine ≡ server_put self.old.engine path.now format bytes.now) }
        ensures shows { OnOk result ((events : List AcceptedCall) → Shows self.old.engine events →
            Shows self.new.engine (events ++ Stored path.now format bytes.now ∷ [])) }
        ensures err { OnErr result (self.new ≡ self.old) }
        ensures output { KeepsReported (Some self.old) (Some self.new) }
    {
        let affected = self.engine.concerned_by(path);
        let version = self.engine.put(path, format, bytes)?;
        self.due.join(&affected);
        Ok(version)
    }

    /// Removes a resource as `Server::remove` does. The connections are due that may have an observer of the path.
    ///
    /// # Errors
    ///
    /// Those of `Server::remove`. Nothing has changed then.
    pub fn remove(&mut self, path: &PathKey) -> Result<(), StoreFault>
        ensures answer { RefusedBy result (remove_refusal self.old.engine.shared.store path.now) }
        ensures ok { OnOk result (self.new.engine ≡ server_removed self.old.engine path.now) }
        ensures shows { OnOk result ((events : List AcceptedCall) → Shows self.old.engine events →
            Shows self.new.engine (events ++ Removed path.now ∷ [])) }
        ensures err { OnErr result (self.new ≡ self.old) }
        ensures output { KeepsReported (Some self.old) (Some self.new) }
    {
        let affected = self.engine.concerned_by(path);
        self.engine.remove(path)?;
        self.due.join(&affected);
        Ok(())
    }

    /// Returns the first connection that is due and has unwritten output, or `None` if there is none. The connection is
    /// no longer due. Nor are those that the call passed, which have no unwritten output.
    pub fn next_output(&mut self) -> Option<ConnId>
        ensures engine { self.new.engine ≡ self.old.engine }
        ensures found { IfSome result (λ id. Yields id self.old self.new) }
        ensures none { IfNone result (HasNoOutput self.old) }
        ensures output { Reports result (Some self.old) (Some self.new) }
        ensures kept { (id : ℕ) → IsReported id self.old → IsReported id self.new }
    {
        let end = self.engine.connection_count();
        let mut at = self.due.next(0, end);
        while at < end {
            self.due.remove(at);
            let (id, count) = self.engine.queued_at(at);
            if count > 0 {
                return Some(id);
            }
            at = self.due.next(at + 1, end);
        }
        None
    }
}
