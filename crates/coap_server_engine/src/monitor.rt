//! The interface through which a program follows the calls that a server accepts, for a log or a record.

ghost use Rattle.std.specs.Prelude.{◌≡◌, false, ℕ, List, [], ◌∷◌};
ghost use Rattle.coap_server_engine.specs.Prelude.{AcceptedCall, Opened, FollowsMore, IsTrueCall, call_value};
ghost use Rattle.coap_server_engine.specs.Prelude.{follows_if, has_passed_if};

use crate::server::Server;
use coap_model::{ConnId, Handled};
use coap_store::PathKey;

/// Call that a server accepted, with its arguments and its result. `Monitor::opened` receives that of `open`.
#[derive(Clone, Copy)]
pub enum Call<'a> {
    /// Bytes that a connection accepted, at most up to the end of one message.
    Took {
        /// Number of the connection.
        id: ConnId,
        /// Accepted bytes, in the order in which they were received.
        bytes: &'a [u8],
        /// Message that they complete, or stop that they cause.
        handled: Handled,
    },
    /// Queued bytes of a connection that were written, in the two slices that they occupy.
    Wrote(ConnId, &'a [u8], &'a [u8]),
    /// Time that was set, in seconds.
    Ticked(u64),
    /// Representation that the embedding program stored: path, Content-Format and bytes.
    Stored(&'a PathKey, Option<u16>, &'a [u8]),
    /// Path of the resource that the embedding program removed.
    Removed(&'a PathKey),
    /// Connection whose input ended.
    Ended(ConnId),
    /// Connection on which the server queued a Release.
    Released(ConnId),
    /// Connection, and the encoded response of the application to one of its requests.
    Responded(ConnId, &'a [u8]),
    /// Connection and the message size that was announced on it, in bytes.
    Announced(ConnId, u32),
    /// Connection that was removed, and the reason.
    Dropped(ConnId, DropReason),
}

/// Reason for which a connection was removed.
#[derive(Clone, Copy, Debug, PartialEq, Eq)]
pub enum DropReason {
    /// Transport connection that failed.
    Failed,
    /// Connection on which nothing more will be written: it has stopped, and its queue is empty.
    Finished,
    /// Silent connection that was not released (`coap_serve`).
    Silent,
    /// Call of the embedding program.
    Requested,
}

/// Receiver of the calls that a server accepts, each once and in their order. `W` is the type of the transport
/// connections. `NoMonitor` ignores them, at no cost.
pub trait Monitor<W> {
    /// States what the monitor made of the calls received, in order. `follows m start calls` holds if `m` has received
    /// `calls` since its text was `start`. A monitor without a text leaves `start` out. By default nothing is stated.
    ghost follows: { Self → List ℕ → List AcceptedCall → Type 0 } = { λ _ _ _. Unit {0} };

    /// States that the monitor has passed on what it received, as a recorder does at the end of a turn. By default
    /// nothing is stated.
    ghost has_passed: { Self → Type 0 } = { λ _. Unit {0} };

    /// Receives a call of `open`: the number of the new connection, and its transport connection. `server` is the
    /// server after the call.
    fn opened(&mut self, id: ConnId, wire: &W, server: &Server)
        ensures { FollowsMore (follows self.old) (follows self.new) (Opened id ∷ []) };

    /// Receives any other call that the server accepted. `server` is the server after the call. Only for `Call::Wrote`
    /// and `Call::Dropped` is it the server before the call, which still has the bytes and the connection.
    ///
    /// # Preconditions
    ///
    /// The details of the call are true for this server.
    fn accepted(&mut self, call: Call<'_>, server: &Server)
        requires { IsTrueCall call server.now }
        ensures { FollowsMore (follows self.old) (follows self.new) (call_value call.entry ∷ []) };

    /// Returns `false` if the monitor ignores all calls. A caller may then do without reporting them.
    fn listens(&self) -> bool
        ensures { result ≡ false →
            (more : List AcceptedCall) → FollowsMore (follows self.now) (follows self.now) more }
    {
        true
    }

    /// Receives the end of a turn of the event loop: the caller waits or reads next.
    fn turn_ended(&mut self)
        ensures follows { FollowsMore (follows self.old) (follows self.new) [] }
        ensures passed { has_passed self.new };
}

/// Monitor that may be absent. An absent one ignores all calls.
#[tactic(auto, unfolding(crate::specs::values::Calls::FollowsMore))]
impl<W, M: Monitor<W>> Monitor<W> for Option<M> {
    ghost follows = { follows_if M.follows };

    ghost has_passed = { has_passed_if M.has_passed };

    fn opened(&mut self, id: ConnId, wire: &W, server: &Server) {
        if let Some(monitor) = self {
            monitor.opened(id, wire, server);
        }
    }

    fn accepted(&mut self, call: Call<'_>, server: &Server) {
        if let Some(monitor) = self {
            monitor.accepted(call, server);
        }
    }

    fn listens(&self) -> bool {
        match self {
            Some(monitor) => monitor.listens(),
            None => false,
        }
    }

    fn turn_ended(&mut self) {
        if let Some(monitor) = self {
            monitor.turn_ended();
        }
    }
}

/// Monitor that ignores all calls.
#[derive(Clone, Copy)]
pub struct NoMonitor;

impl<W> Monitor<W> for NoMonitor {
    #[tactic(auto, unfolding(crate::specs::values::Calls::FollowsMore))]
    fn opened(&mut self, _id: ConnId, _wire: &W, _server: &Server) {}

    #[tactic(auto, unfolding(crate::specs::values::Calls::FollowsMore))]
    fn accepted(&mut self, _call: Call<'_>, _server: &Server) {}

    #[tactic(auto, unfolding(crate::specs::values::Calls::FollowsMore))]
    fn listens(&self) -> bool {
        false
    }

    #[tactic(auto, unfolding(crate::specs::values::Calls::FollowsMore))]
    fn turn_ended(&mut self) {}
}
