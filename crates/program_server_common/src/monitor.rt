//! The log and the record of a server, as one monitor.

ghost use Rattle.std.specs.Prelude.{◌≡◌, true};
ghost use Rattle.std.specs.List.{flat_map};
ghost use Rattle.coap_print.specs.Texts.{is_text};

use crate::log::ServerLog;
use crate::record::ServerRecord;
use coap_io::Outlet;
use coap_model::{Config, ConnId};
use coap_print::LogLevel;
use coap_record::MonitorPair;
use coap_sockets::{DoorTroubles, SocketDoor};
use program_common::Program;
use std::alloc::AllocError;
use std::cell::Cell;
use std::net::Net;
use std::rc::Rc;
use std::time;

/// Log and record of a server, each if there is one.
pub type ServerMonitor<'a, R, O> = MonitorPair<
    Option<ServerLog<'a, R>>,
    Option<ServerRecord<'a, O>>,
>;

/// Server that a log and the header of a record describe.
#[derive(Clone, Copy)]
pub struct ServerDescription<'a> {
    /// Program that runs the server.
    pub program: &'a Program<'a>,
    /// Configuration of the server.
    pub config: &'a Config,
    /// Entries that its application answers.
    pub entries: &'a [&'a str],
}

/// Returns the monitor of a server. It has a log if the level asks for one. Writes the header of the record. `troubles`
/// counts the failed system calls of the listener, if the server has one.
///
/// # Errors
///
/// Returns `AllocError` if allocation fails.
///
/// # Preconditions
///
/// The name of the program and the entries are printable ASCII.
pub fn monitor_of<'a, R: time::Clock + AllocGlobal, O: Outlet + Drop>(
    rt: &'a R,
    server: ServerDescription<'_>,
    level: LogLevel,
    troubles: Option<Rc<Cell<DoorTroubles>>>,
    record: Option<ServerRecord<'a, O>>,
) -> Result<ServerMonitor<'a, R, O>, AllocError>
    requires name { is_text server.program.now.name.now ≡ true }
    requires entries { is_text (flat_map (λ e. e.now) server.entries.now) ≡ true }
{
    let alloc = rt.alloc();
    let log = if level == LogLevel::Nothing {
        None
    } else {
        Some(ServerLog::new(rt, alloc, server.program, level, server.config, troubles)?)
    };
    let mut record = record;
    if let Some(record) = &mut record {
        record.begin(alloc, server.program, server.config, server.entries)?;
    }
    Ok(MonitorPair::new(log, record))
}

/// Returns the monitor of a server that serves the connections of a listener, as `monitor_of` does. With a log, the
/// listener wakes up each second.
///
/// # Errors
///
/// Returns `AllocError` if allocation fails.
///
/// # Preconditions
///
/// The name of the program and the entries are printable ASCII.
pub fn monitor_with<'a, R: Net + time::Clock + AllocGlobal, O: Outlet + Drop>(
    rt: &'a R,
    server: ServerDescription<'_>,
    level: LogLevel,
    door: &mut SocketDoor<'_, R>,
    record: Option<ServerRecord<'a, O>>,
) -> Result<ServerMonitor<'a, R, O>, AllocError>
    requires name { is_text server.program.now.name.now ≡ true }
    requires entries { is_text (flat_map (λ e. e.now) server.entries.now) ≡ true }
{
    if level != LogLevel::Nothing {
        door.wake_each_second();
    }
    monitor_of(rt, server, level, door.troubles(), record)
}

/// Ends the log of a monitor, with the last line of this connection if it is still open.
pub fn finish<R: time::Clock, O: Drop>(monitor: ServerMonitor<'_, R, O>, id: Option<ConnId>) {
    let (log, _record) = monitor.into_parts();
    if let Some(mut log) = log {
        log.finish(id);
    }
}
