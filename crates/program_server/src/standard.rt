//! Serves one connection over standard input and output.

ghost use Rattle.std.specs.Prelude.{◌<◌, ◌+◌, ◌^◌};

use crate::PROGRAM;
use coap_command_line::ServerPlan;
use coap_io::{Outlet, ReadSource, WriteOutlet};
use coap_model::Config;
use coap_serve::{Report, serve_one_with};
use coap_server_engine::{IoFault, Monitor, NoMonitor};
use program_common::{ENDED, FAULT};
use program_server_common::{ServerDescription, ServerRecord, finish, monitor_of, open_record};
use std::rt::Files;
use std::{io, time};

/// Serves one connection over standard input and output, and returns the exit status. The file of a record is created
/// before anything is read.
pub(crate) fn run<'a>(
    rt: &'a (impl Input + Print + Eprint + Files + time::Clock + AllocGlobal),
    plan: &'a ServerPlan,
    config: &Config,
) -> u8
    requires { config.now.starts.ids + 1 < 2 ^ 64 }
{
    let record = match open_record(rt, &PROGRAM, plan.record.as_deref(), plan.record_limit) {
        Ok(record) => record,
        Err(status) => return status,
    };
    match serve(rt, plan, config, record) {
        Ok(_) => ENDED,
        Err(fault) => PROGRAM.print_fault(rt, fault, FAULT),
    }
}

/// Serves the connection, with the log and the record of the plan.
fn serve<O: Outlet + Drop>(
    rt: &(impl Input + Print + time::Clock + AllocGlobal),
    plan: &ServerPlan,
    config: &Config,
    record: Option<ServerRecord<'_, O>>,
) -> Result<Report, IoFault>
    requires { config.now.starts.ids + 1 < 2 ^ 64 }
{
    let server = ServerDescription {
        program: &PROGRAM,
        config,
        entries: &[],
    };
    let monitor = monitor_of(rt, server, plan.log, None, record);
    let Ok(mut monitor) = monitor else {
        return Err(IoFault::Memory);
    };
    let served = if Monitor::<()>::listens(&monitor) {
        serve_with(rt, config, &mut monitor)
    } else {
        // A request then costs an eighth less.
        serve_with(rt, config, &mut NoMonitor)
    };
    finish(monitor, Some(config.starts().ids + 1));
    served
}

/// Serves the connection. The monitor receives the calls that the server accepts, and at last the end of a turn.
fn serve_with<M: Monitor<()>>(
    rt: &(impl Input + Print + AllocGlobal),
    config: &Config,
    monitor: &mut M,
) -> Result<Report, IoFault>
    requires { config.now.starts.ids + 1 < 2 ^ 64 }
    // The monitor has passed on what it received, also after an error.
    ensures passed { M.has_passed monitor.new }
{
    let mut input = ReadSource::new(rt.reader());
    let mut output = WriteOutlet::new(io::writer(rt));
    let served = serve_one_with(rt.alloc(), &mut input, &mut output, config, monitor);
    // An error ends a run within a turn.
    monitor.turn_ended();
    served
}
