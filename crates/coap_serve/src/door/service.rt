//! A server over the connections of a listener, for a program that embeds it and runs the event loop.

ghost use Rattle.std.specs.Prelude.{◌≡◌, false, vec_capacity};
ghost use Rattle.std.proofs.Props.{props};
ghost use Rattle.coap_server_engine.specs.values.ApplicationCalls.{HasResponseRoom};
ghost use Rattle.coap_serve.specs.listener.Sleepers.{ArePaired, AreAsleep};

use super::awake::Awake;
use super::peer::Peers;
use super::removal::release_on;
use super::wait::{limit_for, wait_within};
use coap_io::{Door, Ready, Wait, Wire};
use coap_model::{Config, ConnId, NoSuch, ReleaseFault, Status};
use coap_path::Applications;
use coap_server_engine::{Application, Call, DropReason, IoFault, Monitor, Server};
use coap_store::{PathKey, StoreFault};
use indexmap::IndexMap;
use std::alloc::{AllocError, Global};

/// Configuration of a service.
#[derive(Drop)]
pub struct ServiceConfig {
    /// Configuration of the server.
    pub config: Config,
    /// Entries of the requests that the application answers, if there is one.
    pub applications: Option<Applications>,
    /// Seconds after which a silent connection is released, or `None` if none is.
    pub idle: Option<u32>,
}

impl ServiceConfig {
    /// Returns the configuration of a service without an application, which releases no silent connection.
    pub fn new(config: Config) -> ServiceConfig
        ensures { (result.config ≡ config) × (result.applications ≡ None) × (result.idle ≡ None) }
    {
        ServiceConfig {
            config,
            applications: None,
            idle: None,
        }
    }
}

/// Times of a turn.
#[derive(Clone, Copy)]
pub struct Times {
    /// Time of the server, in seconds.
    pub now: u64,
    /// Seconds of a clock that never goes back.
    pub second: u64,
}

/// Server together with the transport connections that it serves. A program embeds it and calls `turn` for each
/// iteration of its event loop. Each connection of the server has one transport connection. Unless an allocation failed
/// in a turn, nothing can be done on those that sleep.
#[derive(Drop)]
pub struct Service<W: Ready> {
    pub(super) alloc: Global,
    pub(super) server: Server,
    pub(super) peers: Peers<W>,
    pub(super) awake: Awake,
    /// Buffer for the responses of an application.
    pub(super) response: Vec<u8>,
    /// Seconds after which a silent connection is released.
    pub(super) idle: Option<u32>,
    /// `second` of the last turn.
    pub(super) second: u64,
    pub(super) is_spent: bool,
    ghost paired: { ArePaired server peers.entries } by { Prim.hlevel props },
    ghost room: { HasResponseRoom server.config (vec_capacity response) } by { Prim.hlevel props },
    ghost asleep: { is_spent ≡ false → AreAsleep W.readable W.writable awake server peers.entries },
}

impl<W: Wire + Ready + Drop> Service<W> {
    ghost use Rattle.std.specs.Prelude.{◌+◌, ◌++◌, ◌∷◌, true, List, [], is_none, is_ok, IfErr, IfOk, OnErr, OnOk, Err};
    ghost use Rattle.std.specs.Prelude.{Option, Some, nat_eq, option_map};
    ghost use Rattle.std.specs.Map.{lookup};
    ghost use Rattle.coap_serve.specs.Prelude.{environment, Continues, HasAccepted, journal, closings, RefusedBy};
    ghost use Rattle.coap_serve.specs.Prelude.{RefusedOrMemory, put_refusal, remove_refusal, HasRun};
    ghost use Rattle.coap_serve.specs.Prelude.{IsCutTurn, IsTurnFor, config_of, service_of, AnswersMore};
    ghost use Rattle.coap_serve.specs.Prelude.{Gone, FollowsMore, AddsCalls, views_of, IsMemory};
    ghost use Rattle.coap_serve.specs.Prelude.{open_refusal, new_server, server_put, server_removed};
    ghost use Rattle.coap_serve.specs.Prelude.{AcceptedCall, Stored, Removed, Shows, Released, Dropped};
    ghost use Rattle.coap_serve.specs.Prelude.{released_refusal, server_released, server_dropped, is_there};
    ghost use Rattle.coap_serve.specs.Prelude.{session_of, status_of, released_on, shift_remove_entry};
    ghost use Rattle.coap_server_engine.specs.declared.io_fault.IoFault.TheVariants as fault;

    /// Returns a server with no connection and an empty store. Its counters begin at the values that the configuration
    /// gives.
    ///
    /// # Errors
    ///
    /// - `AllocError`: an allocation failed.
    pub fn new(alloc: Global, config: ServiceConfig) -> Result<Service<W>, AllocError>
        ensures value { IfOk result (λ s. s.server ≡ new_server (config_of config)) }
        ensures shows { IfOk result (λ s. Shows s.server []) }
        ensures none { IfOk result (λ s. s.peers.entries ≡ []) }
        ensures idle { IfOk result (λ s. s.idle ≡ config.idle) }
        ensures second { IfOk result (λ s. s.second ≡ 0) }
        ensures ready { IfOk result (λ s. s.is_spent ≡ false) }
    {
        let ServiceConfig {
            config,
            applications,
            idle,
        } = config;
        let response = if applications.is_some() {
            Vec::with_capacity(alloc, config.limits().max_sent())?
        } else {
            Vec::new(alloc)
        };
        let server = match applications {
            Some(applications) => Server::with_applications(alloc, config, applications)?,
            None => Server::new(alloc, config)?,
        };
        Ok(Service {
            alloc,
            server,
            peers: IndexMap::with_capacity(alloc, config.connections())?,
            awake: Awake::new(),
            response,
            idle,
            second: 0,
            is_spent: false,
        })
    }

    /// Returns `true` if another connection may be opened. A program passes this value to `Door::wait`.
    pub fn can_open(&self) -> bool
        ensures { result ≡ is_none (open_refusal self.now.server) }
    {
        self.server.can_open()
    }

    /// Stores a representation as `Server::put` does, and returns its version. Observers of the path are notified. If
    /// it succeeds, the monitor receives the call.
    ///
    /// # Errors
    ///
    /// Those of `Server::put`. The server is unchanged.
    pub fn put<M: Monitor<W>>(
        &mut self,
        path: &PathKey,
        format: Option<u16>,
        bytes: &[u8],
        monitor: &mut M,
    ) -> Result<u64, StoreFault>
        ensures answer { RefusedOrMemory result (put_refusal self.old.server.shared.store path.now bytes.now) }
        ensures version { IfOk result (λ version. version ≡ self.old.server.shared.store.versions + 1) }
        ensures ok { OnOk result (self.new.server ≡ server_put self.old.server path.now format bytes.now) }
        ensures shows { OnOk result ((events : List AcceptedCall) → Shows self.old.server events →
            Shows self.new.server (events ++ Stored path.now format bytes.now ∷ [])) }
        ensures reported { OnOk result (FollowsMore (M.follows monitor.old) (M.follows monitor.new)
            (Stored path.now format bytes.now ∷ [])) }
        ensures err { OnErr result ((self.new.server ≡ self.old.server) × (monitor.new ≡ monitor.old)) }
        ensures peers { self.new.peers ≡ self.old.peers }
        ensures times { (self.new.second ≡ self.old.second) × (self.new.idle ≡ self.old.idle) }
        ensures spent { self.new.is_spent ≡ self.old.is_spent }
    {
        self.awake.join(&self.server.concerned_by(path));
        let version = self.server.put(path, format, bytes)?;
        monitor.accepted(Call::Stored(path, format, bytes), &self.server);
        Ok(version)
    }

    /// Removes the resource at a path as `Server::remove` does. Its observers are notified. If it succeeds, the monitor
    /// receives the call.
    ///
    /// # Errors
    ///
    /// Those of `Server::remove`. The server is unchanged.
    pub fn remove<M: Monitor<W>>(
        &mut self,
        path: &PathKey,
        monitor: &mut M,
    ) -> Result<(), StoreFault>
        ensures answer { RefusedBy result (remove_refusal self.old.server.shared.store path.now) }
        ensures ok { OnOk result (self.new.server ≡ server_removed self.old.server path.now) }
        ensures shows { OnOk result ((events : List AcceptedCall) → Shows self.old.server events →
            Shows self.new.server (events ++ Removed path.now ∷ [])) }
        ensures reported { OnOk result (FollowsMore (M.follows monitor.old) (M.follows monitor.new)
            (Removed path.now ∷ [])) }
        ensures err { OnErr result ((self.new.server ≡ self.old.server) × (monitor.new ≡ monitor.old)) }
        ensures peers { self.new.peers ≡ self.old.peers }
        ensures times { (self.new.second ≡ self.old.second) × (self.new.idle ≡ self.old.idle) }
        ensures spent { self.new.is_spent ≡ self.old.is_spent }
    {
        self.awake.join(&self.server.concerned_by(path));
        self.server.remove(path)?;
        monitor.accepted(Call::Removed(path), &self.server);
        Ok(())
    }

    /// Returns the status of a connection, or `None` if no connection has this number.
    pub fn status(&self, id: ConnId) -> Option<Status>
        ensures { result ≡ status_of self.now.server id }
    {
        self.server.status(id)
    }

    /// Queues a Release on a connection and stops it, as `Server::release` does (RFC 8323 section 5.5). If it
    /// succeeds, the monitor receives the call. Later turns write its queue. The turn that writes the last byte drops
    /// the connection.
    ///
    /// # Errors
    ///
    /// Those of `Server::release`. The server is unchanged.
    pub fn release<M: Monitor<W>>(
        &mut self,
        id: ConnId,
        monitor: &mut M,
    ) -> Result<(), ReleaseFault>
        ensures answer { RefusedBy result (released_refusal self.old.server id) }
        ensures ok { OnOk result (self.new.server ≡ server_released self.old.server id) }
        ensures shows { OnOk result ((events : List AcceptedCall) → Shows self.old.server events →
            Shows self.new.server (events ++ Released id ∷ [])) }
        ensures reported { OnOk result (FollowsMore (M.follows monitor.old) (M.follows monitor.new)
            (Released id ∷ [])) }
        // The release is recorded, and no wire is touched.
        ensures peers { OnOk result (self.new.peers.entries
            ≡ released_on self.old.second id self.old.peers.entries) }
        ensures err { OnErr result ((self.new.server ≡ self.old.server) × (self.new.peers ≡ self.old.peers)
            × (monitor.new ≡ monitor.old)) }
        ensures times { (self.new.second ≡ self.old.second) × (self.new.idle ≡ self.old.idle) }
        ensures spent { self.new.is_spent ≡ self.old.is_spent }
    {
        self.server.release(id)?;
        monitor.accepted(Call::Released(id), &self.server);
        release_on(&mut self.peers, id, self.second);
        self.awake.wake_all();
        Ok(())
    }

    /// Removes a connection, with its queued bytes, and returns its transport connection. To drop that closes it. If it
    /// succeeds, the monitor receives the call, and the application the end of the connection.
    ///
    /// # Errors
    ///
    /// - `NoSuch`: no connection has this number. Nothing has changed.
    pub fn drop_conn<A: Application, M: Monitor<W>>(
        &mut self,
        id: ConnId,
        application: &mut A,
        monitor: &mut M,
    ) -> Result<W, NoSuch>
        ensures answer { is_ok result ≡ is_there (session_of id self.old.server.sessions) }
        ensures wire { IfOk result (λ wire. option_map (λ p. p.wire) (lookup (nat_eq id) self.old.peers.entries)
            ≡ Some wire) }
        ensures ok { OnOk result (self.new.server ≡ server_dropped self.old.server id) }
        ensures shows { OnOk result ((events : List AcceptedCall) → Shows self.old.server events →
            Shows self.new.server (events ++ Dropped id ∷ [])) }
        ensures reported { OnOk result (FollowsMore (M.follows monitor.old) (M.follows monitor.new) (Dropped id ∷ [])) }
        ensures gone { OnOk result
            (AnswersMore (A.follows application.old) (A.follows application.new) (Gone id ∷ [])) }
        ensures peers { OnOk result (self.new.peers.entries
            ≡ shift_remove_entry (nat_eq id) self.old.peers.entries) }
        ensures err { OnErr result ((self.new.server ≡ self.old.server) × (self.new.peers ≡ self.old.peers)
            × (monitor.new ≡ monitor.old) × (application.new ≡ application.old)) }
        ensures times { (self.new.second ≡ self.old.second) × (self.new.idle ≡ self.old.idle) }
        ensures spent { self.new.is_spent ≡ self.old.is_spent }
    {
        let Some(_) = self.server.index_of(id) else {
            return Err(NoSuch);
        };
        monitor.accepted(Call::Dropped(id, DropReason::Requested), &self.server);
        let Ok(()) = self.server.drop_conn(id) else {
            unreachable!()
        };
        application.gone(id);
        let Some(peer) = self.peers.shift_remove(&id) else {
            unreachable!()
        };
        self.awake.wake_all();
        Ok(peer.into_wire())
    }

    /// Runs one turn of the event loop at these times. Returns how long the listener may wait before the next turn.
    ///
    /// A turn has these parts, in order:
    ///
    /// - If there is a limit of silence, and `second` differs from that of the last turn, silent connections are
    ///   released or dropped (`silence_action`). The application receives the end of each one that is dropped.
    /// - The time of the server becomes `now`. An earlier time changes nothing.
    /// - The application gives later responses, at most 256.
    /// - If another connection may be opened, the listener is asked for one. Then each connection is served, or skipped
    ///   if nothing can be done on it. The application is shown each request that it answers directly after the call of
    ///   `take` that accepted it, and may respond at once.
    ///
    /// The listener gets back the wire of each connection that is dropped or could not be opened (`Door::closed`).
    /// Those of open connections are dropped with the service.
    ///
    /// The wait is that of `serve_door`, at most as long as the application allows, and zero after 256 later responses.
    /// With a limit of silence and a connection, it lasts at most until the next second.
    ///
    /// # Errors
    ///
    /// - `Memory`: an allocation failed, in this turn or in an earlier one. No later turn does anything.
    #[tactic(auto, using(crate::proofs::listener::ServingLemmas::none_made))]
    pub fn turn<D: Door<Wire = W>, A: Application, M: Monitor<W>>(
        &mut self,
        door: &mut D,
        times: Times,
        application: &mut A,
        monitor: &mut M,
    ) -> Result<Wait, IoFault>
        // The events of a turn, made in full or in part, and its exchanges with the application.
        ensures ran { HasRun (Continues
            (journal (M.follows monitor.old) (A.follows application.old) (D.calls door.old))
            (journal (M.follows monitor.new) (A.follows application.new) (D.calls door.new)))
            self.old.server self.new.server }
        // The clause determines how each connection was served, the wires that the listener got back, and the result.
        ensures turn { IfOk result (λ wait. HasAccepted (IsTurnFor (environment A.follows A.idle
            (A.waits application.new) (views_of W.readable W.writable W.given W.written W.answers W.rooms)) times
            (service_of self.old.server self.old.peers.entries self.old.second self.old.idle)
            (service_of self.new.server self.new.peers.entries self.new.second self.new.idle) wait) (Continues (journal
            (M.follows monitor.old) (A.follows application.old) (D.calls door.old)) (journal (M.follows monitor.new)
            (A.follows application.new) (D.calls door.new))) self.old.server self.new.server) }
        // The monitor has passed on what it received.
        ensures passed { OnOk result (M.has_passed monitor.new) }
        // After a failed allocation, only the visits may lack parts.
        ensures cut { OnErr result (self.old.is_spent ≡ false → HasAccepted (IsCutTurn A.follows A.idle times
            (service_of self.old.server self.old.peers.entries self.old.second self.old.idle) self.new.server)
            (Continues (journal (M.follows monitor.old) (A.follows application.old) (D.calls door.old))
            (journal (M.follows monitor.new) (A.follows application.new) (D.calls door.new)))
            self.old.server self.new.server) }
        ensures fault { IfErr result IsMemory }
        ensures ready { OnOk result (self.new.is_spent ≡ false) }
        ensures spent { OnErr result (self.new.is_spent ≡ true) }
        ensures over { self.old.is_spent ≡ true → (result ≡ Err fault.Memory) × (self.new ≡ self.old)
            × (door.new ≡ door.old) × (application.new ≡ application.old) × (monitor.new ≡ monitor.old) }
    {
        if self.is_spent {
            return Err(IoFault::Memory);
        }
        self.end_silent(times.second, door, application, monitor);
        let _ = self.tick(times.now, monitor);
        let is_full = self.answer_later(application, monitor);
        let next = self.visit(door, application, monitor)?;
        monitor.turn_ended();
        let limit = limit_for(is_full, application.wait(times.now));
        Ok(self.at_most_a_second(wait_within(limit, next)))
    }

    /// Gives the wires of all connections back to the listener, in order.
    pub(super) fn close<D: Door<Wire = W>>(self, door: &mut D)
        ensures { AddsCalls (D.calls door.old) (D.calls door.new) (closings self.peers.entries) }
    {
        let Service { peers, .. } = self;
        for peer in peers.into_values() {
            door.closed(peer.into_wire());
        }
    }
}
