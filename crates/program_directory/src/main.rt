//! The program `coap-directory`: a CoRE resource directory (RFC 9176) for CoAP over TCP (RFC 8323).
//!
//! The function `coap_command_line::directory_words` defines its arguments. The program listens at an address.
//! The server hands the requests below `/rd` and `/rd-lookup` to a `Directory` (`application.rt`), which
//! answers each at once.
#![tactic(auto)]

ghost use Rattle.std.specs.Prelude.{[], IfOk, IsErr};
ghost use Rattle.program_directory.specs.Answers.{Answers};

mod application;
mod laws;

use application::DirectoryApplication;
use coap_command_line::{DirectoryPlan, directory_reason, directory_words, entries_in};
use coap_io::{Clock, Outlet};
use coap_model::{Config, Starts};
use coap_serve::{Clocks, ServiceConfig, serve_door_with};
use coap_server_engine::{IoFault, Monitor, NoMonitor};
use coap_sockets::{RunClock, SocketDoor, SocketWire, SystemClock};
use coap_wire::LARGEST_SENT_MESSAGE;
use directory_core::Directory;
use program_common::{FAULT, Program, occupy_standard_descriptors};
use program_server_common::{
    ServerDescription, ServerMonitor, finish, monitor_with, open_record, print_listen_fault,
};
use std::alloc::{AllocError, Global};
use std::net::{Net, SocketAddr};
use std::process::ExitCode;
use std::rt::{Env, Files};
use std::time;

/// Name of the program, for its messages.
const PROGRAM: Program = Program {
    name: "coap-directory",
};

/// Entry points of a directory (RFC 9176 section 4.3), in the form of the option `--application` of `coap-server`.
const ENTRIES: &[&str] = &[
    "/rd;get,post,put,delete;rt=\"core.rd\";ct=40",
    "/rd-lookup/ep;get,post,put,delete;rt=\"core.rd-lookup-ep\";ct=40",
    "/rd-lookup/res;get,post,put,delete;rt=\"core.rd-lookup-res\";ct=40",
];

/// Returns the directory of a plan, whose clock starts now.
///
/// # Errors
///
/// Returns `AllocError` if allocation fails.
fn directory_of<'a, R: time::Clock + AllocGlobal>(
    rt: &'a R,
    plan: &DirectoryPlan,
) -> Result<DirectoryApplication<RunClock<'a, R>>, AllocError>
    // The application has answered nothing.
    ensures { IfOk result (λ a. Answers [] a.directory) }
{
    let directory = Directory::new(rt.alloc(), plan.registrations, LARGEST_SENT_MESSAGE)?;
    Ok(DirectoryApplication::new(directory, RunClock::start(rt)))
}

/// Returns the configuration of a plan for a server that starts at this time, with the entry points of a directory. The
/// result is `None` if a limit is out of its range or allocation fails.
fn config_of(alloc: Global, plan: &DirectoryPlan, now: u64) -> Option<ServiceConfig> {
    let config = Config::builder()
        .connections(plan.connections)
        .starts(Starts::at(now))
        .build()
        .ok()?;
    let applications = entries_in(alloc, ENTRIES).ok()?;
    Some(ServiceConfig {
        config,
        applications: Some(applications),
        idle: if plan.idle == 0 {
            None
        } else {
            Some(plan.idle)
        },
    })
}

/// Runs a plan: serves the connections that clients open. Returns an exit status only after an error.
fn run<'a>(
    rt: &'a (impl Print + Eprint + Files + Net + time::Clock + AllocGlobal),
    plan: &'a DirectoryPlan,
) -> u8 {
    let mut clock = SystemClock::new(rt);
    let (Some(config), Ok(mut directory)) = (
        config_of(rt.alloc(), plan, clock.now()),
        directory_of(rt, plan),
    ) else {
        return PROGRAM.print_fault(rt, "no memory", FAULT);
    };
    listen(rt, plan, clock, config, &mut directory)
}

/// Listens at the address of a plan, and serves the connections that clients open. Returns an exit status only after an
/// error. The file of a record is created once the server listens, so that none is left if it cannot.
fn listen<'a, R: Print + Eprint + Files + Net + time::Clock + AllocGlobal>(
    rt: &'a R,
    plan: &'a DirectoryPlan,
    clock: SystemClock<'a, R>,
    config: ServiceConfig,
    directory: &mut DirectoryApplication<RunClock<'a, R>>,
) -> u8 {
    let address = SocketAddr::new(plan.address, plan.port);
    let connections = config.config.connections();
    let mut door = match SocketDoor::listen(rt, rt.alloc(), address, connections) {
        Ok(door) => door,
        Err(fault) => return print_listen_fault(rt, &PROGRAM, fault, address),
    };
    serve_at(rt, plan, &mut door, clock, config, directory)
}

/// Creates the file of the record, writes the address of a listener to standard error, and serves its connections.
/// Returns an exit status only after an error.
fn serve_at<'a, R: Print + Eprint + Files + Net + time::Clock + AllocGlobal>(
    rt: &'a R,
    plan: &'a DirectoryPlan,
    door: &mut SocketDoor<'a, R>,
    clock: SystemClock<'a, R>,
    config: ServiceConfig,
    directory: &mut DirectoryApplication<RunClock<'a, R>>,
) -> u8 {
    let record = match open_record(rt, &PROGRAM, plan.record.as_deref(), plan.record_limit) {
        Ok(record) => record,
        Err(status) => return status,
    };
    let _ = eprintln!(rt;
        "coap-directory: listening on {}",
        door.address()
            .unwrap_or(SocketAddr::new(plan.address, plan.port))
    );
    let server = ServerDescription {
        program: &PROGRAM,
        config: &config.config,
        entries: ENTRIES,
    };
    let Ok(monitor) = monitor_with(rt, server, plan.log, door, record) else {
        return PROGRAM.print_fault(rt, IoFault::Memory, FAULT);
    };
    match serve(rt, door, clock, config, directory, monitor) {
        Ok(()) => unreachable!(),
        Err(fault) => PROGRAM.print_fault(rt, fault, FAULT),
    }
}

/// Serves the connections of a listener, with the log and the record of a monitor.
fn serve<'a, R: Net + time::Clock + AllocGlobal, O: Outlet + Drop>(
    rt: &'a R,
    door: &mut SocketDoor<'a, R>,
    clock: SystemClock<'a, R>,
    config: ServiceConfig,
    directory: &mut DirectoryApplication<RunClock<'a, R>>,
    mut monitor: ServerMonitor<'_, R, O>,
) -> Result<(), IoFault>
    ensures { IsErr result }
{
    let served = if Monitor::<SocketWire>::listens(&monitor) {
        serve_with(rt, door, clock, config, directory, &mut monitor)
    } else {
        // A request then costs a twentieth less.
        serve_with(rt, door, clock, config, directory, &mut NoMonitor)
    };
    finish(monitor, None);
    served
}

/// Serves the connections of a listener. The monitor receives the calls that the server accepts.
fn serve_with<'a, R: Net + time::Clock + AllocGlobal, M: Monitor<SocketWire>>(
    rt: &'a R,
    door: &mut SocketDoor<'a, R>,
    clock: SystemClock<'a, R>,
    config: ServiceConfig,
    directory: &mut DirectoryApplication<RunClock<'a, R>>,
    monitor: &mut M,
) -> Result<(), IoFault>
    ensures ends { IsErr result }
    // The monitor has passed on what it received, also in the last turn.
    ensures passed { M.has_passed monitor.new }
{
    let mut clocks = Clocks {
        time: clock,
        uptime: config.idle.map(|_| RunClock::start(rt)),
    };
    let served = serve_door_with(rt.alloc(), door, &mut clocks, config, directory, monitor);
    // After a failed allocation, the lines of the last turn still wait.
    monitor.turn_ended();
    served
}

/// Runs the program with its arguments, and returns the exit status.
fn start(rt: &(impl Print + Eprint + Env + Files + Net + time::Clock + AllocGlobal)) -> u8 {
    let words = match PROGRAM.words(rt) {
        Ok(words) => words,
        Err(exit) => return exit.status,
    };
    match directory_words(rt.alloc(), &words) {
        Ok(plan) => run(rt, &plan),
        Err(fault) => {
            let reason = directory_reason(rt.alloc(), &words, &fault).unwrap_or(None);
            PROGRAM.refuse(rt, &fault, reason.as_ref())
        }
    }
}

fn main(rt: HostRuntime) -> ExitCode {
    let _files = occupy_standard_descriptors(&rt);
    ExitCode::from(start(&rt))
}
