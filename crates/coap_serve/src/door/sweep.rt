//! The sweep, which releases or drops silent connections.

ghost use Rattle.std.specs.Prelude.{◌≡◌, ◌<◌, ◌≤◌, ◌+◌, ◌-◌, ◌^◌, [], Some, length, slice_get, IfSome};
ghost use Rattle.coap_serve.specs.Prelude.{AddsCalls, ArePaired, Continues, HasSwept, HasSweptAt, drop_one};
ghost use Rattle.coap_serve.specs.Prelude.{given_back, journal, loop_state, swept, swept_one};

use super::peer::Peers;
use super::removal::{drop_at as drop_for, release_at};
use super::silence::{SilenceAction, SilenceLimit, silence_action};
use coap_io::Door;
use coap_server_engine::{Application, Call, DropReason, Monitor, Server};

/// Releases or drops the silent connections, in order of their numbers, by their times and the limit of silence. The
/// monitor receives each call, the application the end of each connection that is dropped, and the listener its wire.
pub(super) fn sweep<W: Drop, D: Door<Wire = W>, A: Application, M: Monitor<W>>(
    server: &mut Server,
    peers: &mut Peers<W>,
    limit: SilenceLimit,
    door: &mut D,
    application: &mut A,
    monitor: &mut M,
)
    requires { ArePaired server.old peers.old.entries }
    ensures has { HasSwept (Continues
        (journal (M.follows monitor.old) (A.follows application.old) (D.calls door.old))
        (journal (M.follows monitor.new) (A.follows application.new) (D.calls door.new)))
        (swept limit.idle limit.now server.old peers.old.entries) server.old server.new }
    ensures entries { peers.new.entries ≡ (swept limit.idle limit.now server.old peers.old.entries).entries }
    ensures paired { ArePaired server.new peers.new.entries }
{
    let mut at = 0;
    while at < peers.len() {
        let (next, wire) = sweep_at::<W, A, M>(server, peers, at, limit, application, monitor);
        give_back(door, wire);
        at = next;
    }
}

/// Gives a wire back to the listener, if there is one.
fn give_back<D: Door>(door: &mut D, wire: Option<D::Wire>)
    ensures { AddsCalls (D.calls door.old) (D.calls door.new) (given_back wire) }
{
    if let Some(wire) = wire {
        door.closed(wire);
    }
}

/// Sweeps the connection at an index. If it must be released and cannot be, it is dropped. Returns the index of the
/// next one, and the wire of one that was dropped.
fn sweep_at<W: Drop, A: Application, M: Monitor<W>>(
    server: &mut Server,
    peers: &mut Peers<W>,
    at: usize,
    limit: SilenceLimit,
    application: &mut A,
    monitor: &mut M,
) -> (usize, Option<W>)
    requires there { at < length peers.old.entries }
    requires fits { length peers.old.entries < 2 ^ 64 }
    requires paired { ArePaired server.old peers.old.entries }
    ensures part { IfSome (slice_get peers.old.entries at) (λ e. HasSweptAt (Continues
        (journal (M.follows monitor.old) (A.follows application.old) (Some []))
        (journal (M.follows monitor.new) (A.follows application.new) (Some (given_back result.1))))
        (swept_one limit.idle limit.now server.old e) (loop_state server.old peers.old.entries) at
        (loop_state server.new peers.new.entries) result.0) }
    ensures paired { ArePaired server.new peers.new.entries }
    ensures within { result.0 ≤ length peers.new.entries }
    // The number of connections still to visit is one lower.
    ensures fewer { length peers.new.entries - result.0 + 1 ≡ length peers.old.entries - at }
{
    let Some((id, peer)) = peers.get_index(at) else {
        unreachable!()
    };
    let (id, activity) = (*id, peer.activity);
    let Some(status) = server.status(id) else {
        return (at + 1, None);
    };
    match silence_action(limit, Some(status), activity) {
        SilenceAction::Keep => (at + 1, None),
        SilenceAction::Release => {
            let Ok(()) = server.release(id) else {
                return drop_at::<W, A, M>(server, peers, at, application, monitor);
            };
            monitor.accepted(Call::Released(id), server);
            release_at(peers, at, limit.now);
            (at + 1, None)
        }
        SilenceAction::Drop => drop_at::<W, A, M>(server, peers, at, application, monitor),
    }
}

/// Drops the connection at an index. Returns the index of the next one, which is the same, and its wire.
fn drop_at<W: Drop, A: Application, M: Monitor<W>>(
    server: &mut Server,
    peers: &mut Peers<W>,
    at: usize,
    application: &mut A,
    monitor: &mut M,
) -> (usize, Option<W>)
    requires there { at < length peers.old.entries }
    requires paired { ArePaired server.old peers.old.entries }
    ensures part { IfSome (slice_get peers.old.entries at) (λ e. HasSweptAt (Continues
        (journal (M.follows monitor.old) (A.follows application.old) (Some []))
        (journal (M.follows monitor.new) (A.follows application.new) (Some (given_back result.1))))
        (drop_one server.old e) (loop_state server.old peers.old.entries) at
        (loop_state server.new peers.new.entries) result.0) }
    ensures paired { ArePaired server.new peers.new.entries }
    ensures within { result.0 ≤ length peers.new.entries }
    ensures fewer { length peers.new.entries - result.0 + 1 ≡ length peers.old.entries - at }
{
    let wire = drop_for::<W, A, M>(server, peers, at, DropReason::Silent, application, monitor);
    (at, Some(wire))
}
