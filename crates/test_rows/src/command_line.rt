//! Rows for command lines: `= words`.
//!
//! The events are `server ARGUMENTS` and `client ARGUMENTS`. With `server-text ARGUMENTS` and `client-text ARGUMENTS`
//! the result is the text of the error.

use crate::limits::tell_limits;
use crate::row_line::RowLine;
use crate::row_words::{cut, put_for};
use crate::target::tell_target;
use arrayvec::ArrayVec;
use coap_client_request::ClientPlan;
use coap_command_line::{Mode, ServerPlan, WordsFault, client_words, server_words};
use coap_path::ApplicationEntry;
use std::alloc::Global;

/// Maximum number of arguments.
const MOST: usize = 32;

/// Splits a text at its first `MOST` spaces. Empty words, and the text after these spaces, are dropped.
pub(crate) fn words_of(text: &str) -> ArrayVec<&str, MOST> {
    let mut words = ArrayVec::new();
    let mut rest = text;
    for _ in 0..MOST {
        let (word, later) = cut(rest);
        if !word.is_empty() {
            let _ = words.try_push(word);
        }
        rest = later;
    }
    words
}

/// Writes an error: the kind if `clap` rejects the arguments, otherwise the text.
pub(crate) fn tell_fault(fault: &WordsFault, results: &mut RowLine) {
    results.number(fault.number() as u64);
    match fault {
        WordsFault::Usage(error) => {
            results.debug(&error.kind());
            results.debug(&fault.is_help_or_version());
        }
        _ => results.text(fault),
    }
}

/// Writes an entry of an application in hexadecimal digits: the segments of its path, its methods and its attributes.
fn tell_entry(entry: &ApplicationEntry, results: &mut RowLine) {
    for segment in entry.prefix().segments() {
        results.word("segment");
        results.hex(segment);
    }
    results.word("methods");
    for method in entry.methods() {
        results.number(method.byte() as u64);
    }
    results.hex(entry.attributes());
}

/// Writes the entries of an application.
fn tell_applications(plan: &ServerPlan, results: &mut RowLine) {
    if let Some(applications) = &plan.applications {
        results.word("application");
        results.number(applications.deadline() as u64);
        for entry in applications.entries() {
            tell_entry(entry, results);
        }
    }
}

/// Writes a plan of `coap-server`.
fn tell_server(plan: &ServerPlan, results: &mut RowLine) {
    match &plan.mode {
        Mode::Listen(address, port) => {
            results.word("listen");
            results.text(address);
            results.number(*port as u64);
        }
        Mode::Stdio => results.word("stdio"),
        Mode::Script(name) => {
            results.word("script");
            results.text(name);
        }
    }
    tell_limits(&plan.limits, results);
    results.sizes(&[plan.connections, plan.dynamic_max, plan.turns as usize]);
    results.debug(&plan.log);
    let starts = &plan.starts;
    results.sizes(&[
        plan.idle as usize,
        starts.moment as usize,
        starts.versions as usize,
        starts.ids as usize,
    ]);
    results.debug(&plan.record);
    results.number(plan.record_limit);
    tell_applications(plan, results);
}

/// Writes a plan of `coap-client`.
fn tell_client(plan: &ClientPlan, results: &mut RowLine) {
    results.debug(&plan.method);
    tell_target(&plan.target, results);
    results.debug(&plan.observe);
    results.number(plan.wait as u64);
    results.debug(&plan.plain);
    results.debug(&plan.newline);
    results.debug(&plan.content_format);
    results.debug(&plan.accept);
    match &plan.option {
        Some((number, value)) => {
            results.number(*number as u64);
            results.hex(value);
        }
        None => results.word("None"),
    }
    results.hex(&plan.payload);
    results.debug(&plan.input);
    results.debug(&plan.output);
    results.debug(&plan.log);
}

/// Writes an error as `tell_fault`, or its text alone, in which byte 7 means a line feed.
fn tell_fault_or_text(fault: &WordsFault, is_text: bool, results: &mut RowLine) {
    if is_text {
        results.text(fault);
        put_for(results.writer(), b'\n', 7);
    } else {
        tell_fault(fault, results);
    }
}

/// Parses arguments of `coap-server`, and writes the plan or the error. If `is_text`, writes the text of the error, or
/// `none`.
fn read_server(alloc: Global, words: &[&str], is_text: bool, results: &mut RowLine) {
    match &server_words(alloc, words) {
        Ok(_) if is_text => results.word("none"),
        Ok(plan) => tell_server(plan, results),
        Err(fault) => tell_fault_or_text(fault, is_text, results),
    }
}

/// Parses arguments of `coap-client`, and writes the plan or the error. If `is_text`, writes the text of the error, or
/// `none`.
fn read_client(alloc: Global, words: &[&str], is_text: bool, results: &mut RowLine) {
    match &client_words(alloc, words) {
        Ok(_) if is_text => results.word("none"),
        Ok(plan) => tell_client(plan, results),
        Err(fault) => tell_fault_or_text(fault, is_text, results),
    }
}

/// Parses the arguments of a command line, and writes the plan or the error.
pub(crate) fn play(alloc: Global, event: &str, results: &mut RowLine) {
    let (word, rest) = cut(event);
    let words = words_of(rest);
    match word {
        "server" => read_server(alloc, words.as_slice(), false, results),
        "client" => read_client(alloc, words.as_slice(), false, results),
        "server-text" => read_server(alloc, words.as_slice(), true, results),
        _ => read_client(alloc, words.as_slice(), true, results),
    }
}
