//! Runs a server over the connections that a listener (`Door`) accepts.

ghost use Rattle.coap_serve.specs.Prelude.{environment, Continues, journal, known_of_run, some_waits, IsMemoryOrTurns};
ghost use Rattle.coap_serve.specs.Prelude.{IsRun, Resting, Silent, Unlimited, AddsCalls, clock_and_door};
ghost use Rattle.coap_serve.specs.Prelude.{plain_config, views_of, waited_after};

mod awake;
mod next_ready;
mod parts;
mod peer;
mod peer_interest;
mod removal;
mod service;
mod silence;
mod sweep;
mod turn;
mod wait;

use coap_io::{Clock, Door, Wait};
use coap_model::Config;
use coap_server_engine::{Application, IoFault, Monitor, NoApplication, NoMonitor};
pub use service::{Service, ServiceConfig, Times};
use std::alloc::Global;

/// Clocks of a run.
#[derive(Drop)]
pub struct Clocks<C, U> {
    /// Clock of the server.
    pub time: C,
    /// Clock that never goes back, such as `RunClock` of `coap_sockets`. Without a limit of silence, it may be an
    /// absent clock (`None`).
    pub uptime: U,
}

/// Clock that always returns 0.
#[derive(Clone, Copy)]
struct NoUptime;

impl Clock for NoUptime {
    fn now(&mut self) -> u64 {
        0
    }
}

/// Serves the connections that a listener accepts, for as many turns as the configuration allows.
///
/// A turn is one iteration of the event loop of one `Service`, whose store is empty at first. Its parts, in order:
///
/// - The time of the server becomes that of the clock. An earlier time changes nothing.
/// - If another connection may be opened, the listener is asked once for one.
/// - Each connection on which something can be done is served, in order of its number. It processes the bytes left from
///   an earlier read, or else those of one read of at most 16,384 bytes. Then its queued bytes are written once.
///
/// A connection is not read if it accepts no bytes. Either it has stopped or was released (RFC 8323 section 5.5), or
/// its queue has no room for a message of the maximum size. A connection is read and written only if it is ready. A
/// connection is dropped if its transport has failed or nothing more will be written. This affects no other connection.
/// The listener gets back the wire of each dropped connection, and at the end those of all others.
///
/// The listener waits between turns, and then the clock is read. The wait is zero if and only if a connection was
/// opened in the turn, or something can be done at once on a connection.
///
/// Otherwise the wait ends as soon as a connection is ready, or a client connects and another connection may be opened.
/// The wait ends at the latest when time alone may queue something. At that time a delayed response is due or an
/// observer of `/time` must be notified. A connection on which nothing can be done is skipped.
///
/// # Errors
///
/// The function returns only with an error:
///
/// - `Memory`: an allocation failed.
/// - `Turns`: the configured number of turns was made.
///
/// A connection that fails is no error.
pub fn serve_door<D: Door, C: Clock>(
    alloc: Global,
    door: &mut D,
    clock: &mut C,
    config: Config,
) -> Result<(), IoFault>
    ensures fault { IsMemoryOrTurns result }
    // The run consists of whole turns, as the traces of the clock and of the listener record them. They are all allowed
    // turns, or those before an allocation failed. No application responds.
    ensures run { IsRun
        (environment Silent Resting (some_waits Unlimited) (views_of D.Wire.readable D.Wire.writable D.Wire.given
        D.Wire.written D.Wire.answers D.Wire.rooms)) (plain_config config) (clock_and_door (AddsCalls
        (C.moments clock.old) (C.moments clock.new)) (AddsCalls (D.calls door.old) (D.calls door.new))) result }
{
    let config = ServiceConfig::new(config);
    run(
        Setup { alloc, config },
        door,
        clock,
        &mut NoUptime,
        &mut NoApplication,
        &mut NoMonitor,
    )
}

/// Serves the connections that a listener accepts, as `serve_door` does, for an application and with a limit of
/// silence. Each turn is one of `Service::turn`. The monitor receives each call that the server accepts, in order, and
/// the end of each turn.
///
/// # Errors
///
/// Those of `serve_door`.
pub fn serve_door_with<D: Door, C: Clock, U: Clock, A: Application, M: Monitor<D::Wire>>(
    alloc: Global,
    door: &mut D,
    clocks: &mut Clocks<C, U>,
    config: ServiceConfig,
    application: &mut A,
    monitor: &mut M,
) -> Result<(), IoFault>
    ensures fault { IsMemoryOrTurns result }
    // The monitor received exactly the events of the run. The application had exactly its exchanges: the requests that
    // the server handed over, in order, and the responses that it gave.
    ensures run { IsRun (environment A.follows A.idle (some_waits A.waits) (views_of D.Wire.readable D.Wire.writable
        D.Wire.given D.Wire.written D.Wire.answers D.Wire.rooms)) config (known_of_run (AddsCalls
        (C.moments clocks.old.time) (C.moments clocks.new.time)) (AddsCalls (U.moments clocks.old.uptime)
        (U.moments clocks.new.uptime)) (Continues
        (journal (M.follows monitor.old) (A.follows application.old) (D.calls door.old))
        (journal (M.follows monitor.new) (A.follows application.new) (D.calls door.new)))) result }
{
    run(
        Setup { alloc, config },
        door,
        &mut clocks.time,
        &mut clocks.uptime,
        application,
        monitor,
    )
}

/// Allocator and configuration of the service of a run.
struct Setup {
    alloc: Global,
    config: ServiceConfig,
}

/// Runs turns of a new service, at most as many as the configuration allows.
fn run<D: Door, C: Clock, U: Clock, A: Application, M: Monitor<D::Wire>>(
    setup: Setup,
    door: &mut D,
    clock: &mut C,
    uptime: &mut U,
    application: &mut A,
    monitor: &mut M,
) -> Result<(), IoFault>
    ensures fault { IsMemoryOrTurns result }
    ensures run { IsRun (environment A.follows A.idle (some_waits A.waits)
        (views_of D.Wire.readable D.Wire.writable D.Wire.given D.Wire.written D.Wire.answers D.Wire.rooms))
        setup.config (known_of_run (AddsCalls (C.moments clock.old) (C.moments clock.new))
        (AddsCalls (U.moments uptime.old) (U.moments uptime.new)) (Continues
        (journal (M.follows monitor.old) (A.follows application.old) (D.calls door.old))
        (journal (M.follows monitor.new) (A.follows application.new) (D.calls door.new)))) result }
{
    let Setup { alloc, config } = setup;
    let turns = config.config.turns();
    let Ok(mut service) = Service::new(alloc, config) else {
        return Err(IoFault::Memory);
    };
    let mut wait = Wait::No;
    let mut fault = IoFault::Turns;
    for turn in 0..turns {
        wait_after_turn(door, turn, wait, service.can_open());
        let now = clock.now();
        let second = uptime.now();
        let times = Times { now, second };
        match service.turn(door, times, application, monitor) {
            Ok(next) => wait = next,
            Err(memory) => {
                fault = memory;
                break;
            }
        }
    }
    service.close(door);
    Err(fault)
}

/// Lets the listener wait after a turn; `turns` is the number of turns made. There is no wait before the first turn.
fn wait_after_turn<D: Door>(door: &mut D, turns: u64, wait: Wait, opens: bool)
    ensures { AddsCalls (D.calls door.old) (D.calls door.new) (waited_after turns wait opens) }
{
    if turns > 0 {
        door.wait(wait, opens);
    }
}
