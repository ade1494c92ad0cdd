//! `MonitorPair`, which passes each call on to two monitors.

use coap_model::ConnId;
use coap_server_engine::{Call, Monitor, Server};

/// Monitor that passes each call on to two others, in their order.
#[derive(Drop)]
pub struct MonitorPair<A, B> {
    first: A,
    second: B,
}

impl<A, B> MonitorPair<A, B> {
    ghost use Rattle.std.specs.Prelude.{◌≡◌};

    /// Creates a monitor over two others.
    pub fn new(first: A, second: B) -> MonitorPair<A, B>
        ensures first { result.first ≡ first }
        ensures second { result.second ≡ second }
    {
        MonitorPair { first, second }
    }

    /// Returns both monitors.
    pub fn into_parts(self) -> (A, B)
        ensures first { result.0 ≡ self.first }
        ensures second { result.1 ≡ self.second }
    {
        (self.first, self.second)
    }
}

impl<W, A: Monitor<W>, B: Monitor<W>> Monitor<W> for MonitorPair<A, B> {
    ghost follows = { λ p start calls. A.follows p.first start calls × B.follows p.second start calls };

    ghost has_passed = { λ p. A.has_passed p.first × B.has_passed p.second };

    #[tactic(auto, unfolding(crate::specs::Prelude::FollowsMore))]
    fn opened(&mut self, id: ConnId, wire: &W, server: &Server) {
        self.first.opened(id, wire, server);
        self.second.opened(id, wire, server);
    }

    #[tactic(auto, unfolding(crate::specs::Prelude::FollowsMore))]
    fn accepted(&mut self, call: Call<'_>, server: &Server) {
        self.first.accepted(call, server);
        self.second.accepted(call, server);
    }

    #[tactic(auto, unfolding(crate::specs::Prelude::FollowsMore))]
    fn listens(&self) -> bool {
        self.first.listens() || self.second.listens()
    }

    #[tactic(auto, unfolding(crate::specs::Prelude::FollowsMore))]
    fn turn_ended(&mut self) {
        self.first.turn_ended();
        self.second.turn_ended();
    }
}
