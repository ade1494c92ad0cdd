//! Rows for scripts, which need no value: `= script`.
//!
//! The event `read BYTES` writes the events of a script, with a semicolon after each, or the number and the text of the
//! error. The event `faults` writes the number and the text of each error.
//!
//! After the name of an event come its connection or its time, its bytes and an optional number. For events with a path
//! these are an optional number, the segments of the path, and the bytes.

use crate::row_line::RowLine;
use crate::row_words::{cut, read_hex};
use coap_script::{Event, ScriptFault, script};
use coap_store::PathKey;
use std::alloc::Global;
use std::fmt::Write;

/// Writes the name of an event, its number, which is that of a connection or a time, and its bytes.
fn on(word: &str, number: u64, bytes: &[u8], results: &mut RowLine) {
    results.word(word);
    results.number(number);
    results.hex(bytes);
}

/// Writes the hex digits of each segment of a path with a slash before each, and bytes.
fn at(path: &PathKey, bytes: &[u8], results: &mut RowLine) {
    for segment in path.segments() {
        let _ = results.write_str("/");
        results.hex(segment);
    }
    results.hex(bytes);
}

/// Writes an event.
fn tell_event(event: &Event, results: &mut RowLine) {
    match event {
        Event::Open => results.word("Open"),
        Event::In { connection, bytes } => on("In", *connection, bytes, results),
        Event::Drain { connection, most } => {
            on("Drain", *connection, &[], results);
            results.debug(most);
        }
        Event::Tick { moment } => on("Tick", *moment, &[], results),
        Event::Put {
            path,
            format,
            payload,
        } => {
            results.word("Put");
            results.debug(format);
            at(path, payload, results);
        }
        Event::Remove { path, text } => {
            results.word("Remove");
            at(path, text, results);
        }
        Event::End { connection } => on("End", *connection, &[], results),
        Event::Release { connection } => on("Release", *connection, &[], results),
        Event::Respond {
            connection,
            response,
        } => on("Respond", *connection, response, results),
        Event::Drop { connection } => on("Drop", *connection, &[], results),
        Event::Status { connection } => on("Status", *connection, &[], results),
    }
    results.word(";");
}

/// Writes the number and the text of an error.
fn tell_fault(fault: ScriptFault, results: &mut RowLine) {
    results.number(fault.number() as u64);
    results.text(&fault);
}

/// Executes a row, and writes its result.
pub(crate) fn play(alloc: Global, row: &str, bytes: &mut Vec<u8>, results: &mut RowLine) {
    let (word, rest) = cut(row);
    read_hex(rest, bytes);
    match word {
        "read" => match script(alloc, bytes) {
            Ok(events) => {
                for event in &events {
                    tell_event(event, results);
                }
            }
            Err(fault) => tell_fault(fault, results),
        },
        "faults" => {
            tell_fault(ScriptFault::Line(12), results);
            tell_fault(ScriptFault::Memory, results);
        }
        _ => results.word("strange"),
    }
}
