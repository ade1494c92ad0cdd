//! Looks at the connections that are awake: which one a turn visits next, and how long the listener may wait.

ghost use Rattle.std.specs.Prelude.{ℕ, ◌≡◌, ◌<◌, ◌≤◌, length, map, slice_get, IfSome, false, true};
ghost use Rattle.coap_serve.specs.Prelude.{ArePaired, AreAsleep, CanGoOn, IsWaitAfter, peer_status};
ghost use Rattle.coap_serve.specs.Prelude.{wait_until, interest_of};

use super::awake::Awake;
use super::peer::Peers;
use super::peer_interest::{PeerInterest, interest_by};
use coap_io::{Ready, Wait};
use coap_server_engine::{ConnIndex, Server};
use coap_server_session::sooner;

/// Returns the present I/O interest of the connection at an index.
#[inline(always)]
fn interest_at<W>(server: &Server, peers: &Peers<W>, at: usize) -> PeerInterest
    requires there { at < length peers.now.entries }
    requires paired { ArePaired server.now peers.now.entries }
    ensures { IfSome (slice_get peers.now.entries at) (λ e. result ≡ interest_of server.now e.0 e.1.rest) }
{
    let Some((id, peer)) = peers.get_index(at) else {
        unreachable!()
    };
    let index = ConnIndex { id: *id, at };
    interest_by(server.work_at(index), peer.rest.is_empty())
}

/// Returns the index of the first connection from `from` on that is ready: something can be done on it at once. Without
/// one, it returns the number of connections. Connections that sleep are skipped without a look at them.
// Always inlined, since each turn calls it twice.
#[inline(always)]
pub(super) fn next_ready<W: Ready>(
    server: &Server,
    peers: &Peers<W>,
    awake: &Awake,
    from: usize,
) -> usize
    requires within { from ≤ length peers.now.entries }
    requires paired { ArePaired server.now peers.now.entries }
    requires asleep { AreAsleep W.readable W.writable awake.now server.now peers.now.entries }
    ensures from { from ≤ result }
    ensures within { result ≤ length peers.now.entries }
    // Nothing can be done on the connections before it.
    ensures skipped { (i : ℕ) → from ≤ i → i < result → IfSome (slice_get peers.now.entries i)
        (λ e. CanGoOn (peer_status W.readable W.writable server.now e) false) }
    ensures next { IfSome (slice_get peers.now.entries result)
        (λ e. CanGoOn (peer_status W.readable W.writable server.now e) true) }
{
    let mut at = awake.next(from, peers.len());
    while at < peers.len() {
        let interest = interest_at(server, peers, at);
        if peers[at].is_ready(interest) {
            return at;
        }
        at = awake.next(at + 1, peers.len());
    }
    at
}

/// Returns how long the listener may wait after a turn. `opens` is `true` if the turn opened a connection. Connections
/// on which nothing can be done and that have no deadline fall asleep.
pub(super) fn next_wait<W: Ready>(
    server: &Server,
    peers: &Peers<W>,
    awake: &mut Awake,
    opens: bool,
) -> Wait
    requires paired { ArePaired server.now peers.now.entries }
    requires asleep { AreAsleep W.readable W.writable awake.old server.now peers.now.entries }
    ensures wait { IsWaitAfter opens (map (peer_status W.readable W.writable server.now) peers.now.entries) result }
    ensures asleep { AreAsleep W.readable W.writable awake.new server.now peers.now.entries }
{
    if opens {
        return Wait::No;
    }
    let mut due = None;
    let mut at = awake.next(0, peers.len());
    while at < peers.len() {
        let interest = interest_at(server, peers, at);
        let peer = &peers[at];
        if peer.is_ready(interest) {
            return Wait::No;
        }
        due = sooner(due, interest.due);
        awake.record_look(at, peer.wire.place(), false, interest.due);
        at = awake.next(at + 1, peers.len());
    }
    wait_for(due)
}

/// Returns the wait until this time, or without a limit.
fn wait_for(due: Option<u64>) -> Wait
    ensures { result ≡ wait_until due }
{
    match due {
        Some(moment) => Wait::Until(moment),
        None => Wait::Forever,
    }
}
