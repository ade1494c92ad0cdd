//! The drop of a connection, and the record of one that was released.

ghost use Rattle.std.specs.Prelude.{◌≡◌, ◌<◌, ◌+◌, [], ◌∷◌, Some, length, remove, slice_get, IfSome};
ghost use Rattle.coap_serve.specs.Prelude.{ArePaired, Closed, Continues, HasSwept, IsReasonFor, drop_one, journal};
ghost use Rattle.coap_serve.specs.Prelude.{work_of, released_at as released, released_on, set_value_at};

use super::peer::Peers;
use coap_model::ConnId;
use coap_server_engine::{Application, Call, DropReason, Monitor, Server};

/// Records the release of the connection with this number at the time `now`, if it has an entry.
pub(super) fn release_on<W>(peers: &mut Peers<W>, id: ConnId, now: u64)
    ensures { peers.new.entries ≡ released_on now id peers.old.entries }
{
    let Some(at) = peers.get_index_of(&id) else {
        return;
    };
    release_at(peers, at, now);
}

/// Records the release of the connection at an index at the time `now`.
pub(super) fn release_at<W>(peers: &mut Peers<W>, at: usize, now: u64)
    requires { at < length peers.old.entries }
    ensures { IfSome (slice_get peers.old.entries at)
        (λ e. peers.new.entries ≡ set_value_at peers.old.entries at (released now e.1)) }
{
    let (_, peer) = peers.pair_mut(at);
    peer.activity = peer.activity.ended(now);
}

/// Drops the connection at an index, for this reason. Returns its wire, which the caller gives back to the listener.
pub(super) fn drop_at<W: Drop, A: Application, M: Monitor<W>>(
    server: &mut Server,
    peers: &mut Peers<W>,
    at: usize,
    reason: DropReason,
    application: &mut A,
    monitor: &mut M,
) -> W
    requires there { at < length peers.old.entries }
    requires paired { ArePaired server.old peers.old.entries }
    requires reason { IfSome (slice_get peers.old.entries at)
        (λ e. IfSome (work_of server.old e.0) (IsReasonFor reason)) }
    ensures paired { ArePaired server.new peers.new.entries }
    ensures peers { peers.new.entries ≡ remove peers.old.entries at }
    ensures fewer { length peers.new.entries + 1 ≡ length peers.old.entries }
    // The result is the wire that the listener is to get.
    ensures dropped { IfSome (slice_get peers.old.entries at) (λ e. HasSwept (Continues
        (journal (M.follows monitor.old) (A.follows application.old) (Some []))
        (journal (M.follows monitor.new) (A.follows application.new) (Some (Closed result ∷ []))))
        (drop_one server.old e) server.old server.new) }
{
    let Some((id, peer)) = peers.shift_remove_index(at) else {
        unreachable!()
    };
    monitor.accepted(Call::Dropped(id, reason), server);
    let Ok(()) = server.drop_conn(id) else {
        unreachable!()
    };
    application.gone(id);
    peer.into_wire()
}
