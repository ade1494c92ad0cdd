//! The transport side of a connection, and how a turn serves it.

ghost use Rattle.std.specs.Prelude.{◌≡◌, ◌≢◌, ◌≤◌, ◌||◌, nat_lt, false, [], length, is_some, Some, IfOk, IfErr};
ghost use Rattle.std.specs.Prelude.{vec_capacity};
ghost use Rattle.coap_serve.specs.Prelude.{Continues, HasServed, IsTakenInPart, IsVisited, journal, keys_of, views_of};
ghost use Rattle.coap_serve.specs.Prelude.{way};
ghost use Rattle.coap_serve.specs.Prelude.{visit, AddsBytes, AreCallsBetween, KeepsBeside};
ghost use Rattle.coap_serve.specs.Prelude.{HasAccepted, IsTakenWith, AddsCalls, read_events, wrote_events};
ghost use Rattle.coap_serve.specs.Prelude.{has_written, trace_by, IsLaidOut, is_read_due, server_read};
ghost use Rattle.coap_serve.specs.Prelude.{server_wrote, waiting_once, has_failed, peer_outcome};
ghost use Rattle.coap_serve.specs.Prelude.{interest_of, IsWithin, IsMemory, IsOneWrite, bytes_passed, stop_on};
ghost use Rattle.coap_serve.specs.Prelude.{session_of, IsReadiness, CanGoOn, status_with, IsOutcomeFor};
ghost use Rattle.coap_serve.specs.Prelude.{work_of, KeepsOthers, KeepsWork, LiesAt};
ghost use Rattle.coap_server_engine.specs.values.ApplicationCalls.{HasResponseRoom};
ghost use Rattle.coap_io.specs.declared.wire.Got.TheVariants.{Later, End};

use super::peer_interest::{PeerInterest, interest_by};
use super::silence::Activity;
use coap_conn::first_part;
use coap_io::{Got, ReadBuffer, Ready, Wire};
use coap_model::ConnId;
use coap_server_engine::{
    Application, Call, ConnIndex, DropReason, IndexSet, IoFault, Monitor, Served, Server,
};
use indexmap::IndexMap;

/// Transport side of a connection.
#[derive(Drop)]
pub(super) struct Peer<W> {
    /// Transport connection to the peer.
    pub(super) wire: W,
    /// Bytes that were read and that the server has not accepted yet.
    pub(super) rest: ReadBuffer,
    /// Times of the connection.
    pub(super) activity: Activity,
}

impl<W> Peer<W> {
    /// Returns the transport connection.
    pub(super) fn into_wire(self) -> W
        ensures { result ≡ self.wire }
    {
        let Peer {
            wire,
            rest: _rest,
            activity: _activity,
        } = self;
        wire
    }
}

impl<W: Ready> Peer<W> {
    /// Returns `true` if the connection must be read and its wire may have input. (The wire is asked first, because
    /// most wires have no input.)
    fn can_read(&self, interest: PeerInterest) -> bool
        ensures { IsReadiness interest.read (W.readable self.now.wire) result }
    {
        self.wire.may_read() && interest.read
    }

    /// Returns `true` if the connection must be written and its wire may have room.
    fn can_write(&self, interest: PeerInterest) -> bool
        ensures { IsReadiness interest.write (W.writable self.now.wire) result }
    {
        interest.write && self.wire.may_write()
    }

    /// Returns `true` if something can be done at once on the connection, which has this I/O interest.
    pub(super) fn is_ready(&self, interest: PeerInterest) -> bool
        ensures { CanGoOn (status_with W.readable W.writable self.now.wire interest) result }
    {
        interest.visit || self.can_read(interest) || self.can_write(interest)
    }
}

/// Transport sides by the numbers of their connections, in order.
pub(super) type Peers<W> = IndexMap<u64, Peer<W>>;

/// Outcome for a connection after a turn has served it.
#[derive(Clone, Copy, PartialEq, Eq)]
pub(super) enum PeerOutcome {
    /// Connection that stays open.
    Open,
    /// Connection to be dropped for this reason.
    Over(DropReason),
}

/// Result of serving a connection once.
#[derive(Clone, Copy)]
pub(super) struct PeerVisit {
    /// Outcome for the connection.
    pub(super) outcome: PeerOutcome,
    /// Present I/O interest of the connection.
    pub(super) interest: PeerInterest,
    /// Indices of the other connections whose work left may have changed.
    pub(super) affected: IndexSet,
}

/// Connection that a turn serves, and the time of the turn.
#[derive(Clone, Copy)]
pub(super) struct PeerTurn {
    /// Number and index of the connection.
    pub(super) index: ConnIndex,
    /// Time of the turn, in seconds.
    pub(super) second: u64,
}

/// Serves a connection once: reads, processes and writes.
///
/// The wire is asked first if it may be read and if it may be written. It is read once if it may be read, all bytes of
/// earlier reads were accepted, and the connection accepts bytes. The connection then processes the received bytes. If
/// the wire may be written, queued bytes are written once. If the read fails, the other steps are skipped.
///
/// # Errors
///
/// - `Memory`: an allocation failed.
#[tactic(auto, using(crate::proofs::listener::ServingLemmas::read_served, crate::proofs::listener::SleepLemmas::beside_read, coap_server_engine::proofs::values::ServerLemmas::lies_still))]
pub(super) fn serve_peer<W: Wire + Ready, A: Application, M: Monitor<W>>(
    server: &mut Server,
    turn: PeerTurn,
    peer: &mut Peer<W>,
    application: &mut A,
    response: &mut Vec<u8>,
    monitor: &mut M,
) -> Result<PeerVisit, IoFault>
    requires lies { LiesAt turn.index.id turn.index.at server.old.sessions }
    requires room { HasResponseRoom server.old.config (vec_capacity response.old) }
    // The wire is read once if a read is due, and written once if bytes are queued and it may be written. Otherwise it
    // is not touched. The monitor receives the calls of these steps, and no others.
    ensures part { IfOk result (λ x. HasAccepted (λ h. IsVisited (way A.follows turn.second (views_of W.readable
        W.writable W.given W.written W.answers W.rooms)) server.old (turn.index.id, peer.old)
        (visit server.new peer.new x.outcome h)) (Continues
        (journal (M.follows monitor.old) (A.follows application.old) (Some []))
        (journal (M.follows monitor.new) (A.follows application.new) (Some []))) server.old server.new) }
    ensures shows { HasServed {W = W} (Continues
        (journal (M.follows monitor.old) (A.follows application.old) (Some []))
        (journal (M.follows monitor.new) (A.follows application.new) (Some []))) server.old server.new }
    // No connection was added, removed or moved.
    ensures keys { keys_of server.new.sessions ≡ keys_of server.old.sessions }
    ensures interest { IfOk result (λ x. x.interest ≡ interest_of server.new turn.index.id peer.new.rest) }
    // Each other connection that is not affected has the same work left.
    ensures kept { IfOk result (λ x. KeepsBeside turn.index.id x.affected.words server.old server.new) }
    ensures reason { IfOk result (λ x. IsOutcomeFor x.outcome (work_of server.new turn.index.id)) }
    ensures fault { IfErr result IsMemory }
    ensures capacity { vec_capacity response.old ≤ vec_capacity response.new }
{
    let PeerTurn { index, second } = turn;
    let id = index.id;
    let may_read = peer.wire.may_read();
    let may_write = peer.wire.may_write();
    let received = read_wire(server, id, peer, may_read, monitor);
    if failed(received) {
        return Ok(PeerVisit {
            outcome: PeerOutcome::Over(DropReason::Failed),
            interest: interest_by(server.work_at(index), peer.rest.is_empty()),
            affected: IndexSet::empty(),
        });
    }
    let taken = take_buffered::<W, A, M>(
        server,
        id,
        &mut peer.rest,
        application,
        response,
        monitor,
    )?;
    let wrote = write_once(server, id, &mut peer.wire, may_write, monitor);
    let moved = has_moved(taken.count, wrote);
    let activity = peer.activity.after(second, moved);
    peer.activity = activity;
    let work = server.work_at(index);
    Ok(PeerVisit {
        outcome: outcome(wrote, work.finished),
        interest: interest_by(work, peer.rest.is_empty()),
        affected: taken.affected,
    })
}

/// Returns `true` for `Got::Failed`.
fn failed(got: Got) -> bool
    ensures { result ≡ has_failed got }
{
    match got {
        Got::Failed => true,
        Got::Bytes(_) => false,
        Got::Later => false,
        Got::End => false,
    }
}

/// Returns `true` if a write with this result accepted bytes.
fn has_accepted_bytes(wrote: Got) -> bool
    ensures { result ≡ has_written wrote }
{
    match wrote {
        Got::Bytes(count) => count > 0,
        Got::Later => false,
        Got::End => false,
        Got::Failed => false,
    }
}

/// Returns `true` if this number of bytes was accepted from the peer, or a write with this result accepted bytes.
fn has_moved(taken: usize, wrote: Got) -> bool
    ensures { result ≡ (nat_lt 0 taken || has_written wrote) }
{
    taken > 0 || has_accepted_bytes(wrote)
}

/// Returns the outcome from the result of the write. `is_over` is `true` if nothing more will be written on the
/// connection.
fn outcome(wrote: Got, is_over: bool) -> PeerOutcome
    ensures { result ≡ peer_outcome wrote is_over }
{
    if failed(wrote) {
        return PeerOutcome::Over(DropReason::Failed);
    }
    if is_over {
        return PeerOutcome::Over(DropReason::Finished);
    }
    PeerOutcome::Open
}

/// Reads once if `may_read` is `true`, all bytes of earlier reads were accepted, and the connection accepts bytes.
/// Returns the result of the read, or `Later` if there was none. The end of input is reported to the connection.
#[tactic(auto, using(coap_server_engine::proofs::values::WorkLemmas::keeps_all))]
fn read_wire<W: Wire, M: Monitor<W>>(
    server: &mut Server,
    id: ConnId,
    peer: &mut Peer<W>,
    may_read: bool,
    monitor: &mut M,
) -> Got
    ensures server { server.new ≡ server_read server.old id result }
    ensures accepted { AreCallsBetween (M.follows monitor.old) (M.follows monitor.new) server.old server.new
        (read_events id result) }
    // If a read is due, the wire is read once, into a buffer of 16,384 bytes, and `peer.rest` has the bytes of that
    // read.
    ensures laid { IsLaidOut (is_read_due may_read server.old id peer.old.rest) peer.old.rest
        (trace_by W.given W.written W.answers W.rooms peer.old.wire) result peer.new.rest
        (trace_by W.given W.written W.answers W.rooms peer.new.wire) }
    ensures activity { peer.new.activity ≡ peer.old.activity }
    // If no read is due, nothing changes.
    ensures passed { is_read_due may_read server.old id peer.old.rest ≡ false → peer.new ≡ peer.old }
    ensures kept { KeepsOthers id server.old server.new }
{
    if !may_read || !peer.rest.is_empty() || !server.can_take(id) {
        return Got::Later;
    }
    let got = peer.rest.read(&mut peer.wire);
    if got == Got::End {
        let Ok(()) = server.ended(id) else {
            unreachable!()
        };
        monitor.accepted(Call::Ended(id), server);
    }
    got
}

/// Passes the bytes that were read to a connection, message by message, until all are accepted or none is. If the
/// connection then processes no further message, the other bytes are discarded. Returns the number of bytes accepted,
/// and the connections that they affected.
///
/// # Errors
///
/// - `Memory`: an allocation failed for a representation that a message stores.
#[tactic(auto, using(crate::proofs::listener::ServingLemmas::with_served, crate::proofs::listener::ServingLemmas::with_part_served, crate::proofs::listener::ServingLemmas::taken_in_part))]
fn take_buffered<W, A: Application, M: Monitor<W>>(
    server: &mut Server,
    id: ConnId,
    rest: &mut ReadBuffer,
    application: &mut A,
    response: &mut Vec<u8>,
    monitor: &mut M,
) -> Result<Served, IoFault>
    requires { HasResponseRoom server.old.config (vec_capacity response.old) }
    ensures taken { IfOk result (λ s. HasAccepted {W = W} (λ h. IsTakenInPart (IsTakenWith A.follows) server.old id
        rest.old rest.new (record { server = server.new; count = s.count; history = h })) (Continues
        (journal (M.follows monitor.old) (A.follows application.old) (Some []))
        (journal (M.follows monitor.new) (A.follows application.new) (Some []))) server.old server.new) }
    ensures kept { IfOk result (λ s. KeepsWork s.affected.words server.old server.new) }
    ensures shows { HasServed {W = W} (Continues
        (journal (M.follows monitor.old) (A.follows application.old) (Some []))
        (journal (M.follows monitor.new) (A.follows application.new) (Some []))) server.old server.new }
    ensures keys { keys_of server.new.sessions ≡ keys_of server.old.sessions }
    ensures fault { IfErr result IsMemory }
    ensures capacity { vec_capacity response.old ≤ vec_capacity response.new }
{
    let taken = server.take_all_for::<W, M, A>(id, rest.bytes(), application, response, monitor);
    let Ok(served) = taken else {
        return Err(IoFault::Memory);
    };
    rest.advance(served.count);
    // Most visits end here, without a search for the connection.
    if rest.is_empty() {
        return Ok(served);
    }
    if has_stopped(server, id) {
        rest.clear();
    }
    Ok(served)
}

/// Writes queued bytes of a connection once, from the first, if some are queued and `may_write` is `true`. Returns the
/// result of the write, or `Later` if there was none. The result `End` of a write is returned as `Failed`.
#[tactic(auto, using(coap_conn::proofs::NextPartLemmas::few_written, coap_server_engine::proofs::values::WorkLemmas::keeps_all))]
fn write_once<W: Wire, M: Monitor<W>>(
    server: &mut Server,
    id: ConnId,
    wire: &mut W,
    may_write: bool,
    monitor: &mut M,
) -> Got
    ensures server { server.new ≡ server_wrote server.old id result }
    ensures accepted { AreCallsBetween (M.follows monitor.old) (M.follows monitor.new) server.old server.new
        (wrote_events id result) }
    ensures within { IsWithin (length (waiting_once may_write id server.old)) result }
    ensures idle { waiting_once may_write id server.old ≡ [] → (wire.new ≡ wire.old) × (result ≡ Later) }
    ensures wrote { waiting_once may_write id server.old ≢ [] →
        AddsBytes (W.written wire.old) (W.written wire.new)
        (bytes_passed (waiting_once may_write id server.old) result) }
    ensures gave { waiting_once may_write id server.old ≢ [] → AddsBytes (W.given wire.old) (W.given wire.new) [] }
    ensures no_read { waiting_once may_write id server.old ≢ [] → AddsCalls (W.rooms wire.old) (W.rooms wire.new) [] }
    // If bytes are queued and the wire may be written, it is written once.
    ensures answered { waiting_once may_write id server.old ≢ [] →
        IsOneWrite (W.answers wire.old) (W.answers wire.new) result }
    ensures no_end { result ≢ End }
    ensures kept { KeepsOthers id server.old server.new }
{
    if !may_write {
        return Got::Later;
    }
    let Some(parts) = server.parts(id) else {
        return Got::Later;
    };
    let part = first_part(parts);
    if part.is_empty() {
        return Got::Later;
    }
    match wire.write(part) {
        Got::Bytes(count) => {
            monitor.accepted(Call::Wrote(id, &part[..count], &[]), server);
            let Ok(()) = server.written(id, count) else {
                unreachable!()
            };
            Got::Bytes(count)
        }
        Got::Later => Got::Later,
        Got::End => Got::Failed,
        Got::Failed => Got::Failed,
    }
}

/// Returns `true` if a connection processes no further message.
fn has_stopped(server: &Server, id: ConnId) -> bool
    ensures { result ≡ is_some (stop_on (session_of id server.now.sessions)) }
{
    let Some(status) = server.status(id) else {
        return false;
    };
    status.phase.stop().is_some()
}
