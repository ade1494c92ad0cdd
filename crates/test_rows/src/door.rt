//! Rows for runs of a server over a listener, connections and a clock in memory, with the configuration of `= stdio`.
//!
//! The event is `HOW HEX TIMES CONNECTIONS`. HOW is one of these words:
//!
//! - `door`: each connection is always ready.
//! - `waits`: the calls of `Door::wait` are recorded, and a connection is ready when its text says so.
//! - `polled`: the listener cannot wait, and is served through `Polled`.
//! - `answer`: as `waits`, for the application of `board.rt`.
//!
//! TIMES has the times of the clock, or `passes,` and the start time of a clock that advances in waits alone. A
//! connection has the words of its writes, those of its reads (`wires.rt`), and the number of bytes of these reads. HEX
//! has the bytes of all connections in order.
//!
//! The result has all calls of the devices in order, and then the result of the run.

mod devices;

use crate::board::{Board, entries};
use crate::log::{Page, tell_result};
use crate::row_words::{cut, number};
use crate::wires::Moments;
use coap_io::Polled;
use coap_model::Config;
use coap_serve::{Clocks, ServiceConfig, serve_door, serve_door_with};
use coap_server_engine::{IoFault, NoMonitor};
use devices::{CallLog, DoorClock, ScriptedDoor};
use std::alloc::Global;

/// Runs a server for an application. After the calls, writes the numbers of requests, of later responses that were
/// accepted, and of connections that ended.
fn answer(
    alloc: Global,
    config: Config,
    door: &mut ScriptedDoor,
    clock: DoorClock,
) -> Result<(), IoFault> {
    let Ok(applications) = entries(alloc) else {
        return Err(IoFault::Memory);
    };
    let mut board = Board::new();
    let mut clocks = Clocks {
        time: clock,
        uptime: None::<DoorClock>,
    };
    let config = ServiceConfig {
        config,
        applications: Some(applications),
        idle: None,
    };
    let result = serve_door_with(alloc, door, &mut clocks, config, &mut board, &mut NoMonitor);
    tell_result(door.log.page, &board.counts);
    result
}

/// Runs a server over devices that record their calls in a log, and returns the result.
fn run(
    alloc: Global,
    config: Config,
    how: &str,
    mut door: ScriptedDoor,
    mut clock: DoorClock,
) -> Result<(), IoFault> {
    match how {
        "answer" => answer(alloc, config, &mut door, clock),
        "polled" => serve_door(alloc, &mut Polled(door), &mut clock, config),
        _ => serve_door(alloc, &mut door, &mut clock, config),
    }
}

/// Executes an event, and writes its result.
pub(crate) fn play(
    alloc: Global,
    config: &Config,
    how: &str,
    bytes: &[u8],
    text: &str,
    page: &Page,
) {
    let (times, wires) = cut(text);
    let passes = times.strip_prefix("passes,");
    let records_waits = how == "waits" || how == "answer";
    let log = CallLog::new(page, records_waits, number(passes.unwrap_or("0")) as u64);
    let moments = match passes {
        Some(_) => None,
        None => Some(Moments { text: times }),
    };
    let door = ScriptedDoor {
        wires,
        bytes,
        count: 0,
        log: &log,
    };
    let result = run(alloc, *config, how, door, DoorClock { moments, log: &log });
    tell_result(page, &result);
}
