//! Listens at an address and serves the connections that clients open.

ghost use Rattle.std.specs.Prelude.{◌≡◌, ◌∷◌, ℕ, [], true, is_some, IfSome, IfNone};
ghost use Rattle.coap_model.specs.Configs.{config_refusal};
ghost use Rattle.coap_io.specs.streams.DeviceTraces.{AddsCalls};
ghost use Rattle.std.specs.Prelude.{IsErr};
ghost use Rattle.program_server_common.specs.Planned.{planned, starts_of};

use crate::PROGRAM;
use coap_command_line::ServerPlan;
use coap_io::{Clock, Outlet};
use coap_model::{Config, Starts};
use coap_serve::{Clocks, ServiceConfig, serve_door_with};
use coap_server_engine::{IoFault, Monitor, NoApplication, NoMonitor};
use coap_sockets::{RunClock, SocketDoor, SocketWire, SystemClock};
use program_common::{FAULT, USAGE};
use program_server_common::{
    ServerDescription, ServerRecord, config_of, finish, monitor_with, open_record,
    print_listen_fault,
};
use std::net::{Net, SocketAddr};
use std::rt::Files;
use std::time;

/// Returns the configuration of a plan for a server that starts at the time of the clock. If a limit is out of its
/// range, the result is `None`.
fn config_now<C: Clock>(clock: &mut C, plan: &ServerPlan) -> Option<Config>
    ensures now { IfSome result (λ config.
        AddsCalls (C.moments clock.old) (C.moments clock.new) (config.starts.moment ∷ [])) }
    ensures value { IfSome result (λ config. config ≡ planned plan.now (starts_of config.starts.moment)) }
    ensures refused { IfNone result
        ((moment : ℕ) → is_some (config_refusal (planned plan.now (starts_of moment))) ≡ true) }
{
    config_of(plan, Starts::at(clock.now()))
}

/// Listens at an address, writes one line that says so to standard error, and serves the connections that clients open.
/// Returns an exit status only after an error. The file of a record is created once the server listens, so that none is
/// left if it cannot.
///
/// The errors are a limit out of its range, a system that cannot listen, and a record that cannot be created. A failed
/// allocation and the limit of turns are errors too.
pub(crate) fn run<'a>(
    rt: &'a (impl Print + Eprint + Files + Net + time::Clock + AllocGlobal),
    address: SocketAddr,
    plan: &'a ServerPlan,
) -> u8 {
    let mut clock = SystemClock::new(rt);
    let Some(config) = config_now(&mut clock, plan) else {
        return PROGRAM.print_fault(rt, "a limit is out of its range", USAGE);
    };
    let mut door = match SocketDoor::listen(rt, rt.alloc(), address, config.connections()) {
        Ok(door) => door,
        Err(fault) => return print_listen_fault(rt, &PROGRAM, fault, address),
    };
    serve_at(rt, address, &mut door, clock, config, plan)
}

/// Creates the file of the record, writes the address of a listener to standard error, and serves its connections.
/// Returns an exit status only after an error.
fn serve_at<'a, R: Print + Eprint + Files + Net + time::Clock + AllocGlobal>(
    rt: &'a R,
    address: SocketAddr,
    door: &mut SocketDoor<'a, R>,
    clock: SystemClock<'a, R>,
    config: Config,
    plan: &'a ServerPlan,
) -> u8 {
    let record = match open_record(rt, &PROGRAM, plan.record.as_deref(), plan.record_limit) {
        Ok(record) => record,
        Err(status) => return status,
    };
    let _ = eprintln!(rt;
        "coap-server: listening on {}",
        door.address().unwrap_or(address)
    );
    match serve(rt, door, clock, config, plan, record) {
        Ok(()) => unreachable!(),
        Err(fault) => PROGRAM.print_fault(rt, fault, FAULT),
    }
}

/// Serves the connections of a listener, with the log and the record of the plan.
fn serve<'a, R: Net + time::Clock + AllocGlobal, O: Outlet + Drop>(
    rt: &'a R,
    door: &mut SocketDoor<'a, R>,
    clock: SystemClock<'a, R>,
    config: Config,
    plan: &ServerPlan,
    record: Option<ServerRecord<'_, O>>,
) -> Result<(), IoFault>
    ensures { IsErr result }
{
    let server = ServerDescription {
        program: &PROGRAM,
        config: &config,
        entries: &[],
    };
    let Ok(mut monitor) = monitor_with(rt, server, plan.log, door, record) else {
        return Err(IoFault::Memory);
    };
    let served = if Monitor::<SocketWire>::listens(&monitor) {
        serve_with(rt, door, clock, config, plan.idle, &mut monitor)
    } else {
        // A request then costs a twentieth less.
        serve_with(rt, door, clock, config, plan.idle, &mut NoMonitor)
    };
    finish(monitor, None);
    served
}

/// Serves the connections of a listener. The monitor receives the calls that the server accepts. Connections are ended
/// after `idle` seconds without a byte, or never if it is 0.
fn serve_with<'a, R: Net + time::Clock + AllocGlobal, M: Monitor<SocketWire>>(
    rt: &'a R,
    door: &mut SocketDoor<'a, R>,
    clock: SystemClock<'a, R>,
    config: Config,
    idle: u32,
    monitor: &mut M,
) -> Result<(), IoFault>
    ensures ends { IsErr result }
    // The monitor has passed on what it received, also in the last turn.
    ensures passed { M.has_passed monitor.new }
{
    let idle = if idle == 0 { None } else { Some(idle) };
    let mut clocks = Clocks {
        time: clock,
        uptime: idle.map(|_| RunClock::start(rt)),
    };
    let config = ServiceConfig {
        config,
        applications: None,
        idle,
    };
    let served = serve_door_with(
        rt.alloc(),
        door,
        &mut clocks,
        config,
        &mut NoApplication,
        monitor,
    );
    // After a failed allocation, the lines of the last turn still wait.
    monitor.turn_ended();
    served
}
