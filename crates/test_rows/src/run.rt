//! Rows for runs of a client over a connection in memory: `= run`.
//!
//! A row is `KIND WRITES TIMES READS HEX ARGUMENTS`, with commas between times, between reads and between writes
//! (`wires.rt`). HEX has the bytes of all reads. KIND is `full` for an output that accepts no byte,
//! `mute` for such an error output, or another word.

mod devices;

use crate::command_line::{tell_fault, words_of};
use crate::row_line::RowLine;
use crate::row_words::{cut, read_hex};
use crate::wires::{Moments, Reads, Writes};
use arrayvec::ArrayVec;
use coap_client_engine::run_client;
use coap_client_request::ClientPlan;
use coap_command_line::client_words;
use devices::{Line, ScriptedOutlet};
use std::alloc::Global;

/// Runs a client. Writes its status or its error, its output, its error output, and the bytes written to the
/// connection.
fn run(
    alloc: Global,
    kind: &str,
    moments: &str,
    mut wire: Line,
    plan: &ClientPlan,
    results: &mut RowLine,
) {
    let mut clock = Moments { text: moments };
    let mut out = ScriptedOutlet::new(kind == "full");
    let mut err = ScriptedOutlet::new(kind == "mute");
    match run_client(alloc, &mut wire, &mut clock, &mut out, &mut err, plan) {
        Ok(status) => results.number(status as u64),
        Err(fault) => results.fault(&fault, fault as u8),
    }
    results.hex(&out.bytes);
    results.hex(&err.bytes);
    results.hex(&wire.written);
}

/// Executes a row, and writes its result.
pub(crate) fn play(alloc: Global, event: &str, bytes: &mut Vec<u8>, results: &mut RowLine) {
    let (kind, event) = cut(event);
    let (writes, event) = cut(event);
    let (moments, event) = cut(event);
    let (reads, event) = cut(event);
    let (digits, line) = cut(event);
    read_hex(digits, bytes);
    let wire = Line {
        reads: Reads { text: reads, bytes },
        writes: Writes { text: writes },
        written: ArrayVec::new(),
    };
    match client_words(alloc, words_of(line).as_slice()) {
        Ok(plan) => run(alloc, kind, moments, wire, &plan, results),
        Err(fault) => tell_fault(&fault, results),
    }
}
