//! The parts of a turn of a service before its visits, and the limit of its wait.

ghost use Rattle.std.specs.Prelude.{ℕ, ◌≡◌, ◌≢◌, ◌≤◌, ◌==◌, false, Option, is_some, vec_capacity};
ghost use Rattle.coap_serve.specs.Prelude.{AnswersMore, AreRequestedLater, FollowsMore, IsRequestedLater, SleepOn};

use super::awake::Awake;
use super::service::Service;
use super::silence::SilenceLimit;
use super::sweep::sweep;
use coap_io::{Door, Ready, Wait, Wire};
use coap_model::Backwards;
use coap_server_engine::{Application, Call, Monitor, Server};

/// Number of later responses that a turn takes from an application at most.
const MOST_RESPONSES: usize = 256;

impl<W: Wire + Ready + Drop> Service<W> {
    ghost use Rattle.std.specs.Prelude.{◌++◌, List, is_ok, nat_le, OnErr, OnOk};
    ghost use Rattle.coap_serve.specs.Prelude.{AcceptedCall, Continues, HasSwept, Shows, due_sweep, journal, moved_to};
    ghost use Rattle.coap_serve.specs.Prelude.{short_wait, ticked_calls};

    /// Releases or drops the silent connections, if there is a limit and `second` differs from that of the last turn.
    pub(super) fn end_silent<D: Door<Wire = W>, A: Application, M: Monitor<W>>(
        &mut self,
        second: u64,
        door: &mut D,
        application: &mut A,
        monitor: &mut M,
    )
        requires { self.old.is_spent ≡ false }
        ensures swept { HasSwept (Continues
            (journal (M.follows monitor.old) (A.follows application.old) (D.calls door.old))
            (journal (M.follows monitor.new) (A.follows application.new) (D.calls door.new)))
            (due_sweep self.old.idle self.old.second second self.old.server self.old.peers.entries) self.old.server
            self.new.server }
        ensures entries { self.new.peers.entries
            ≡ (due_sweep self.old.idle self.old.second second self.old.server self.old.peers.entries).entries }
        ensures second { self.new.second ≡ second }
        ensures idle { self.new.idle ≡ self.old.idle }
        ensures spent { self.new.is_spent ≡ false }
    {
        let last = self.second;
        self.second = second;
        let Some(idle) = self.idle else {
            return;
        };
        if second == last {
            return;
        }
        sweep::<W, D, A, M>(
            &mut self.server,
            &mut self.peers,
            SilenceLimit { idle, now: second },
            door,
            application,
            monitor,
        );
        self.awake.wake_all();
    }

    /// Sets the time of the server, in seconds. If it has changed, the monitor receives the call.
    ///
    /// # Errors
    ///
    /// - `Backwards`: the time is earlier than that of the server, which is unchanged.
    pub(super) fn tick<M: Monitor<W>>(&mut self, now: u64, monitor: &mut M) -> Result<(), Backwards>
        ensures answer { is_ok result ≡ nat_le self.old.server.shared.now now }
        ensures moved { self.new.server ≡ moved_to self.old.server now }
        ensures shows { OnOk result ((events : List AcceptedCall) → Shows self.old.server events →
            Shows self.new.server (events ++ ticked_calls self.old.server now)) }
        ensures reported { OnOk result (FollowsMore (M.follows monitor.old) (M.follows monitor.new)
            (ticked_calls self.old.server now)) }
        ensures err { OnErr result ((self.new.server ≡ self.old.server) × (monitor.new ≡ monitor.old)) }
        ensures peers { self.new.peers ≡ self.old.peers }
        ensures times { (self.new.second ≡ self.old.second) × (self.new.idle ≡ self.old.idle) }
        ensures spent { self.new.is_spent ≡ self.old.is_spent }
    {
        if now == self.server.moment() {
            return Ok(());
        }
        self.awake.join(&self.server.concerned_by_time());
        self.server.tick(now)?;
        monitor.accepted(Call::Ticked(now), &self.server);
        Ok(())
    }

    /// Asks the application for later responses, until it has none or has given 256 of them, and gives each as
    /// `Server::respond` does. Returns `true` if the application may have more.
    #[tactic(auto, using(crate::proofs::listener::ServingLemmas::not_requested))]
    pub(super) fn answer_later<A: Application, M: Monitor<W>>(
        &mut self,
        application: &mut A,
        monitor: &mut M,
    ) -> bool
        // The application received the result of each response. Those that the server accepted are its events.
        ensures shows { AreRequestedLater self.old.server 256 result self.new.server
            (FollowsMore (M.follows monitor.old) (M.follows monitor.new))
            (AnswersMore (A.follows application.old) (A.follows application.new)) }
        ensures idle { result ≡ false → A.idle application.new }
        // No wire is touched, and no byte that was read is discarded.
        ensures peers { self.new.peers ≡ self.old.peers }
        ensures times { (self.new.second ≡ self.old.second) × (self.new.idle ≡ self.old.idle) }
        ensures spent { self.new.is_spent ≡ self.old.is_spent }
    {
        if !application.answers() {
            return false;
        }
        let count = answer_each::<W, A, M>(
            &mut self.server,
            &mut self.awake,
            application,
            &mut self.response,
            monitor,
        );
        count == MOST_RESPONSES
    }

    /// Returns a wait that lasts at most until the next second of the server's time, if there are a limit of silence
    /// and a connection.
    pub(super) fn at_most_a_second(&self, wait: Wait) -> Wait
        ensures { result ≡ short_wait self.now.idle self.now.server.shared.now self.now.peers.entries wait }
    {
        if self.idle.is_none() || self.peers.is_empty() {
            return wait;
        }
        wait.at_most(self.server.moment().saturating_add(1))
    }
}

/// Asks the application for later responses, until it has none or has given `MOST_RESPONSES` of them, and gives each.
/// Returns their number. Each connection with a response wakes.
fn answer_each<W, A: Application, M: Monitor<W>>(
    server: &mut Server,
    awake: &mut Awake,
    application: &mut A,
    response: &mut Vec<u8>,
    monitor: &mut M,
) -> usize
    ensures shows { AreRequestedLater server.old 256 (result == 256) server.new
        (FollowsMore (M.follows monitor.old) (M.follows monitor.new))
        (AnswersMore (A.follows application.old) (A.follows application.new)) }
    ensures kept { SleepOn awake.old awake.new server.old server.new }
    // The application has no later response now.
    ensures idle { result ≢ 256 → A.idle application.new }
    ensures capacity { vec_capacity response.old ≤ vec_capacity response.new }
{
    for count in 0..MOST_RESPONSES {
        if !answer_once::<W, A, M>(server, awake, application, response, monitor) {
            return count;
        }
    }
    MOST_RESPONSES
}

/// Asks the application for one later response, and gives it. Returns `false` if there is none. Its connection wakes.
fn answer_once<W, A: Application, M: Monitor<W>>(
    server: &mut Server,
    awake: &mut Awake,
    application: &mut A,
    response: &mut Vec<u8>,
    monitor: &mut M,
) -> bool
    ensures requested { (id : Option ℕ) × (result ≡ is_some id) × IsRequestedLater server.old id server.new
        (FollowsMore (M.follows monitor.old) (M.follows monitor.new))
        (AnswersMore (A.follows application.old) (A.follows application.new)) }
    ensures kept { SleepOn awake.old awake.new server.old server.new }
    ensures idle { result ≡ false → A.idle application.new }
    ensures capacity { vec_capacity response.old ≤ vec_capacity response.new }
{
    let Some(id) = server.answer_next::<W, M, A>(application, response, monitor) else {
        return false;
    };
    let Some(at) = server.index_of(id) else {
        awake.wake_all();
        return true;
    };
    awake.wake(at);
    true
}
