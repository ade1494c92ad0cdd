//! The visits of a turn: at most one connection is opened, and each connection is served.

use super::next_ready::{next_ready, next_wait};
use super::peer::{Peer, PeerOutcome, PeerTurn, serve_peer};
use super::removal::drop_at;
use super::service::Service;
use super::silence::Activity;
use coap_io::{Door, ReadBuffer, Ready, Wait, Wire};
use coap_server_engine::{Application, ConnIndex, IoFault, Monitor};

impl<W: Wire + Ready + Drop> Service<W> {
    ghost use Rattle.std.specs.Prelude.{◌≡◌, ◌<◌, ◌≤◌, ◌+◌, ◌-◌, ◌^◌, false, true, Ok, Some, length, is_none};
    ghost use Rattle.std.specs.Prelude.{slice_get, IfSome, IfOk, IfErr, OnOk, OnErr, None, [], ◌∷◌};
    ghost use Rattle.coap_serve.specs.Prelude.{CanGoOn, peer_status, AreAsleep, HasServed, HasTurned, Continues};
    ghost use Rattle.coap_serve.specs.Prelude.{journal, loop_state, way, AreServed, HasGoneOn, FollowsMore};
    ghost use Rattle.coap_serve.specs.Prelude.{IsOpening, AddsCalls, HasAccepted, views_of, IsMemory, open_refusal};
    ghost use Rattle.coap_serve.specs.Prelude.{IsTurnBy, Closed};
    ghost use Rattle.coap_io.specs.streams.DeviceTraces.{Requested};

    /// Opens at most one connection, if the listener returns one, and serves each connection. Returns how long the
    /// listener may wait before the next turn, as `turn` describes.
    ///
    /// # Errors
    ///
    /// - `Memory`: an allocation failed. No later turn does anything.
    pub(super) fn visit<D: Door<Wire = W>, A: Application, M: Monitor<W>>(
        &mut self,
        door: &mut D,
        application: &mut A,
        monitor: &mut M,
    ) -> Result<Wait, IoFault>
        requires { self.old.is_spent ≡ false }
        ensures shows { HasTurned (Continues
            (journal (M.follows monitor.old) (A.follows application.old) (D.calls door.old))
            (journal (M.follows monitor.new) (A.follows application.new) (D.calls door.new)))
            self.old.server self.new.server }
        // Each connection is served, and the result is the time that the listener may wait. The monitor and the
        // listener receive the calls of this turn, and no others.
        ensures turn { IfOk result (λ wait. HasAccepted (IsTurnBy (way A.follows self.old.second (views_of W.readable
            W.writable W.given W.written W.answers W.rooms)) (loop_state self.old.server self.old.peers.entries)
            (loop_state self.new.server self.new.peers.entries) wait) (Continues
            (journal (M.follows monitor.old) (A.follows application.old) (D.calls door.old))
            (journal (M.follows monitor.new) (A.follows application.new) (D.calls door.new)))
            self.old.server self.new.server) }
        ensures fault { IfErr result IsMemory }
        ensures times { (self.new.second ≡ self.old.second) × (self.new.idle ≡ self.old.idle) }
        ensures ready { OnOk result (self.new.is_spent ≡ false) }
        ensures spent { OnErr result (self.new.is_spent ≡ true) }
    {
        self.is_spent = true;
        self.awake.wake_places(door.woken());
        let opens = self.accept(door, monitor)?;
        self.serve_each(door, application, monitor)?;
        let wait = next_wait(&self.server, &self.peers, &mut self.awake, opens);
        self.is_spent = false;
        Ok(wait)
    }

    /// Opens one connection if another one may be opened and the listener returns one. Returns `true` if it did.
    ///
    /// # Errors
    ///
    /// - `Memory`: an allocation failed. The listener has its wire back.
    fn accept<D: Door<Wire = W>, M: Monitor<W>>(
        &mut self,
        door: &mut D,
        monitor: &mut M,
    ) -> Result<bool, IoFault>
        requires spent { self.old.is_spent ≡ true }
        requires asleep { AreAsleep W.readable W.writable self.old.awake self.old.server self.old.peers.entries }
        ensures asleep { OnOk result
            (AreAsleep W.readable W.writable self.new.awake self.new.server self.new.peers.entries) }
        ensures fault { IfErr result IsMemory }
        // The listener is asked once if another connection may be opened. Otherwise it is not asked, so it returns no
        // wire for which none could be opened.
        ensures opened { IfOk result (λ opens. IsOpening self.old.second (λ h. FollowsMore (M.follows monitor.old)
            (M.follows monitor.new) h.events × AddsCalls (D.calls door.old) (D.calls door.new) h.calls)
            (loop_state self.old.server self.old.peers.entries)
            (loop_state self.new.server self.new.peers.entries) opens) }
        ensures passes { is_none (open_refusal self.old.server) ≡ false →
            (door.new ≡ door.old) × (result ≡ Ok false) }
        // An allocation fails only for a wire that the listener returned, and it gets this wire back.
        ensures refused { OnErr result ((self.new.server ≡ self.old.server) × (monitor.new ≡ monitor.old)
            × (is_none (open_refusal self.old.server) ≡ true) × (wire : W)
            × AddsCalls (D.calls door.old) (D.calls door.new) (Requested (Some wire) ∷ Closed wire ∷ [])) }
        ensures times { (self.new.second ≡ self.old.second) × (self.new.idle ≡ self.old.idle) }
        ensures spent { self.new.is_spent ≡ true }
    {
        if !self.server.can_open() {
            return Ok(false);
        }
        let Some(wire) = door.next() else {
            return Ok(false);
        };
        let Ok(rest) = ReadBuffer::new(self.alloc) else {
            door.closed(wire);
            return Err(IoFault::Memory);
        };
        let Ok(()) = self.peers.reserve(1) else {
            door.closed(wire);
            return Err(IoFault::Memory);
        };
        let Ok(id) = self.server.open() else {
            door.closed(wire);
            return Err(IoFault::Memory);
        };
        monitor.opened(id, &wire, &self.server);
        let activity = Activity::new(self.second);
        let peer = Peer {
            wire,
            rest,
            activity,
        };
        let at = self.peers.len();
        let Ok(_) = self.peers.insert(id, peer) else {
            unreachable!()
        };
        self.awake.wake(at);
        Ok(true)
    }

    /// Serves each connection on which something can be done, in order of their numbers, and drops those with the
    /// outcome `Over`.
    ///
    /// # Errors
    ///
    /// - `Memory`: an allocation failed.
    #[tactic(auto, using(crate::proofs::listener::ServingLemmas::both_made))]
    fn serve_each<D: Door<Wire = W>, A: Application, M: Monitor<W>>(
        &mut self,
        door: &mut D,
        application: &mut A,
        monitor: &mut M,
    ) -> Result<(), IoFault>
        requires spent { self.old.is_spent ≡ true }
        requires asleep { AreAsleep W.readable W.writable self.old.awake self.old.server self.old.peers.entries }
        ensures shows { HasServed (Continues
            (journal (M.follows monitor.old) (A.follows application.old) (D.calls door.old))
            (journal (M.follows monitor.new) (A.follows application.new) (D.calls door.new)))
            self.old.server self.new.server }
        // Each connection in order is served, or skipped if nothing can be done on it.
        ensures served { OnOk result (HasAccepted (AreServed (way A.follows self.old.second (views_of W.readable
            W.writable W.given W.written W.answers W.rooms)) (loop_state self.old.server self.old.peers.entries)
            (loop_state self.new.server self.new.peers.entries)) (Continues
            (journal (M.follows monitor.old) (A.follows application.old) (D.calls door.old))
            (journal (M.follows monitor.new) (A.follows application.new) (D.calls door.new)))
            self.old.server self.new.server) }
        ensures asleep { OnOk result
            (AreAsleep W.readable W.writable self.new.awake self.new.server self.new.peers.entries) }
        ensures fault { IfErr result IsMemory }
        ensures times { (self.new.second ≡ self.old.second) × (self.new.idle ≡ self.old.idle) }
        ensures spent { self.new.is_spent ≡ true }
    {
        let mut at = next_ready(&self.server, &self.peers, &self.awake, 0);
        while at < self.peers.len() {
            let later = self.serve_next(at, door, application, monitor)?;
            at = next_ready(&self.server, &self.peers, &self.awake, later);
        }
        Ok(())
    }

    /// Serves the connection at an index, and drops it if its outcome is `Over`. Returns the index of the next one.
    ///
    /// # Errors
    ///
    /// - `Memory`: an allocation failed.
    #[tactic(auto, using(crate::proofs::listener::EntryLemmas::length_written, crate::proofs::listener::ServingLemmas::both_made, crate::proofs::listener::SleepLemmas::paired_written))]
    fn serve_next<D: Door<Wire = W>, A: Application, M: Monitor<W>>(
        &mut self,
        at: usize,
        door: &mut D,
        application: &mut A,
        monitor: &mut M,
    ) -> Result<usize, IoFault>
        requires spent { self.old.is_spent ≡ true }
        requires there { at < length self.old.peers.entries }
        requires fits { length self.old.peers.entries < 2 ^ 64 }
        requires asleep { AreAsleep W.readable W.writable self.old.awake self.old.server self.old.peers.entries }
        requires ready { IfSome (slice_get self.old.peers.entries at)
            (λ e. CanGoOn (peer_status W.readable W.writable self.old.server e) true) }
        ensures shows { HasServed (Continues
            (journal (M.follows monitor.old) (A.follows application.old) (D.calls door.old))
            (journal (M.follows monitor.new) (A.follows application.new) (D.calls door.new)))
            self.old.server self.new.server }
        // The connection was served, and the others are unchanged.
        ensures part { IfOk result (λ later. HasAccepted (HasGoneOn (way A.follows self.old.second (views_of W.readable
            W.writable W.given W.written W.answers W.rooms)) (loop_state self.old.server self.old.peers.entries) at
            (loop_state self.new.server self.new.peers.entries) later) (Continues
            (journal (M.follows monitor.old) (A.follows application.old) (D.calls door.old))
            (journal (M.follows monitor.new) (A.follows application.new) (D.calls door.new)))
            self.old.server self.new.server) }
        ensures asleep { OnOk result
            (AreAsleep W.readable W.writable self.new.awake self.new.server self.new.peers.entries) }
        ensures within { IfOk result (λ later. later ≤ length self.new.peers.entries) }
        // The number of connections still to visit is one lower.
        ensures fewer { IfOk result (λ later. length self.new.peers.entries - later + 1 ≡
            length self.old.peers.entries - at) }
        ensures fault { IfErr result IsMemory }
        ensures times { (self.new.second ≡ self.old.second) × (self.new.idle ≡ self.old.idle) }
        ensures spent { self.new.is_spent ≡ true }
    {
        let (id, peer) = self.peers.pair_mut(at);
        let turn = PeerTurn {
            index: ConnIndex { id: *id, at },
            second: self.second,
        };
        let served = serve_peer::<W, A, M>(
            &mut self.server,
            turn,
            peer,
            application,
            &mut self.response,
            monitor,
        )?;
        match served.outcome {
            PeerOutcome::Over(reason) => {
                let wire = drop_at::<W, A, M>(
                    &mut self.server,
                    &mut self.peers,
                    at,
                    reason,
                    application,
                    monitor,
                );
                door.closed(wire);
                self.awake.wake_all();
                Ok(at)
            }
            PeerOutcome::Open => {
                self.awake.join(&served.affected);
                let peer = &self.peers[at];
                let is_ready = peer.is_ready(served.interest);
                self.awake
                    .record_look(at, peer.wire.place(), is_ready, served.interest.due);
                Ok(at + 1)
            }
        }
    }
}
