//! Executes rows of text from standard input on values of all layers, from messages to servers, clients and the command
//! lines of the programs. Prints a result line for each row. The rows are those of `tests/vectors/rows`.
//!
//! A row that begins with `= ` creates the value that the following rows use: `= frame 1152`. Every other row is an
//! event. Its bytes are hex digits, or absent. The result line of a row has the result, followed by the state of the
//! value. A row that would violate a `requires` is not executed, and its result is `refused`. The result is `strange`
//! if the row is malformed, and has the word `memory` if allocation fails.
//!
//! Results are written as `Debug` prints them where it can. The modules of tests/harness/layers convert them.
//!
//! `row_words.rt` parses the words of a row, and `row_line.rt` writes the result line. `layer.rt` has the trait of a
//! value on which rows are played. Most other modules are a layer, with the events of its rows.
//!
//! One function creates a value and plays the rows of its layer (`play_rows`). So no type has the values of all layers:
//! the proof of such a type, and of a function that drops it, is long. The layers are one crate, since each proof loads
//! the statements of all libraries below. That costs as much as most of the functions here.
#![tactic(auto)]

mod application;
mod board;
mod client;
mod command_line;
mod config;
mod directory;
mod door;
mod fields;
mod frame;
mod joined;
mod layer;
mod limits;
mod link;
mod log;
mod plain;
mod print;
mod queue;
mod row_line;
mod row_words;
mod run;
mod script;
mod serve;
mod stdio;
mod store;
mod target;
mod wire;
mod wires;

use coap_client_engine::Client;
use coap_conn::{Link, OutQueue};
use coap_frame::Framer;
use coap_model::Config;
use coap_server_engine::Server;
use coap_store::Store;
use directory_core::Directory;
use joined::ClientServerPair;
use layer::Layer;
use plain::Plain;
use row_line::RowLine;
use row_words::cut;
use std::io;
use std::io::Read;
use std::process::ExitCode;

/// Maximum number of bytes that a row names.
const ROOM: usize = 4_194_304;

/// Capacity of a result line, in bytes: `ROOM` bytes as hex digits, and some words.
const LINE_ROOM: usize = 8_454_144;

/// Capacity for the input, in bytes. One allocation reserves it, so that the number of allocations before the first row
/// does not depend on the rows.
const ROWS_ROOM: usize = 67_108_864;

/// Exit status if the rows cannot be read or allocation for them fails.
const FAULT: u8 = 3;

/// Creates a value. Prints `memory` if allocation failed, `refused` if a word of the opening row is out of range, and
/// otherwise an empty line. Then executes each row on the value, and prints its result line, or `nothing` without a
/// value.
fn play_rows<L: Layer, R: Print + AllocGlobal>(
    rt: &R,
    words: &str,
    rows: &str,
    bytes: &mut Vec<u8>,
    results: &mut RowLine,
) {
    let mut opened = L::opened(rt.alloc(), words);
    match &opened {
        Some(Ok(_)) => {}
        Some(Err(_)) => results.word("memory"),
        None => results.word("refused"),
    }
    results.write_line(&mut io::writer(rt));
    for row in rows.lines() {
        match &mut opened {
            Some(Ok(value)) => value.play(rt.alloc(), row, bytes, results),
            _ => results.word("nothing"),
        }
        results.write_line(&mut io::writer(rt));
    }
}

/// Creates the value that an opening row names, and plays the rows after it.
fn play<R: Print + AllocGlobal>(
    rt: &R,
    opening: &str,
    rows: &str,
    bytes: &mut Vec<u8>,
    results: &mut RowLine,
) {
    let (layer, words) = cut(opening);
    match layer {
        "frame" => play_rows::<Framer, R>(rt, words, rows, bytes, results),
        "queue" => play_rows::<OutQueue, R>(rt, words, rows, bytes, results),
        "link" => play_rows::<Link, R>(rt, words, rows, bytes, results),
        "store" => play_rows::<Store, R>(rt, words, rows, bytes, results),
        "serve" => play_rows::<Server, R>(rt, words, rows, bytes, results),
        "directory" => play_rows::<Directory, R>(rt, words, rows, bytes, results),
        "client" => play_rows::<Client, R>(rt, words, rows, bytes, results),
        "joined" => play_rows::<ClientServerPair, R>(rt, words, rows, bytes, results),
        "stdio" => play_rows::<Config, R>(rt, words, rows, bytes, results),
        _ => play_rows::<Plain, R>(rt, layer, rows, bytes, results),
    }
}

/// Plays each opening row of a text with the rows after it.
fn play_all<R: Print + AllocGlobal>(
    rt: &R,
    text: &str,
    bytes: &mut Vec<u8>,
    results: &mut RowLine,
) {
    let text = text.strip_prefix("= ").unwrap_or(text);
    for section in text.split("\n= ") {
        let (opening, rows) = section.split_once('\n').unwrap_or((section, ""));
        play(rt, opening, rows, bytes, results);
    }
}

/// Executes rows. Returns `false` if they are no text, or if allocation fails before the first row. The result line has
/// its capacity from the start, so that a later allocation failure is that of a row.
fn play_text<R: Print + AllocGlobal>(rt: &R, rows: &[u8]) -> bool {
    let Ok(mut bytes) = Vec::with_capacity(rt.alloc(), ROOM) else {
        return false;
    };
    let Ok(mut results) = RowLine::new(rt.alloc(), LINE_ROOM) else {
        return false;
    };
    let Ok(rows) = str::from_utf8(rows) else {
        return false;
    };
    if !rows.is_empty() {
        play_all(rt, rows, &mut bytes, &mut results);
    }
    true
}

/// Reads the rows and executes them. Returns `false` if they cannot be read, or as `play_text`.
fn read_and_play<R: Input + Print + AllocGlobal>(rt: &R) -> bool {
    let Ok(mut text) = Vec::with_capacity(rt.alloc(), ROWS_ROOM) else {
        return false;
    };
    rt.reader().read_to_end(&mut text).is_ok() && play_text(rt, &text)
}

fn main(rt: HostRuntime) -> ExitCode {
    if read_and_play(&rt) {
        return ExitCode::SUCCESS;
    }
    ExitCode::from(FAULT)
}
