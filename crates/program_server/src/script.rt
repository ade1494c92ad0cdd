//! Runs scripts of events.

use crate::PROGRAM;
use coap_io::WriteOutlet;
use coap_model::Config;
use coap_path::Applications;
use coap_script::{Event, ScriptFault, script};
use coap_server_engine::{ReplayFault, Server};
use program_common::{ENDED, FAULT, FileError, USAGE, read_whole};
use std::alloc::{AllocError, Global};
use std::io;
use std::rt::Files;

/// Error that ends a script.
enum ScriptError {
    /// Failure to read the file.
    File(FileError),
    /// Number of the first line that is no event, from 1.
    Line(u64),
    /// Failed write of a line.
    Write,
    /// Failed allocation.
    Memory,
}

/// Returns a new server, whose application has these entries.
fn server_in(
    alloc: Global,
    config: &Config,
    applications: Option<Applications>,
) -> Result<Server, AllocError> {
    match applications {
        Some(applications) => Server::with_applications(alloc, *config, applications),
        None => Server::new(alloc, *config),
    }
}

/// Runs events on a new server, and writes the lines of each to standard output.
fn replay(
    rt: &(impl Print + AllocGlobal),
    events: &[Event],
    config: &Config,
    applications: Option<Applications>,
) -> Result<(), ScriptError> {
    let Ok(mut server) = server_in(rt.alloc(), config, applications) else {
        return Err(ScriptError::Memory);
    };
    let mut output = WriteOutlet::new(io::writer(rt));
    match server.replay(events, &mut output) {
        Ok(()) => Ok(()),
        Err(ReplayFault::Write) => Err(ScriptError::Write),
        Err(ReplayFault::Memory(_)) => Err(ScriptError::Memory),
    }
}

/// Reads a script and runs it.
fn read_and_run(
    rt: &(impl Input + Print + Files + AllocGlobal),
    name: &str,
    config: &Config,
    applications: Option<Applications>,
) -> Result<(), ScriptError> {
    let text = match read_whole(rt, name, usize::MAX) {
        Ok(text) => text,
        Err(trouble) => return Err(ScriptError::File(trouble)),
    };
    match script(rt.alloc(), &text) {
        Ok(events) => replay(rt, &events, config, applications),
        Err(ScriptFault::Line(number)) => Err(ScriptError::Line(number)),
        Err(ScriptFault::Memory) => Err(ScriptError::Memory),
    }
}

/// Runs the script in the file with this name, or in standard input if the name is `-`. The application of the server
/// has these entries. Returns the exit status: 1 for a line that is no event, 3 for a failed file, device or
/// allocation. If a line is no event, no event is run.
pub(crate) fn run(
    rt: &(impl Input + Print + Eprint + Files + AllocGlobal),
    name: &str,
    config: &Config,
    applications: Option<Applications>,
) -> u8 {
    let Err(trouble) = read_and_run(rt, name, config, applications) else {
        return ENDED;
    };
    match trouble {
        ScriptError::File(FileError::Open) => {
            PROGRAM.print_fault(rt, format_args!("cannot open {name}"), FAULT)
        }
        ScriptError::File(FileError::Read | FileError::TooLong) => {
            PROGRAM.print_fault(rt, "cannot read", FAULT)
        }
        ScriptError::Line(number) => PROGRAM.print_fault(
            rt,
            format_args!("bad script line {number}"),
            USAGE,
        ),
        ScriptError::Write => PROGRAM.print_fault(rt, "cannot write", FAULT),
        ScriptError::File(FileError::Memory) | ScriptError::Memory => PROGRAM.print_fault(
            rt,
            "no memory",
            FAULT,
        ),
    }
}
