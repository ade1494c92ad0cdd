//! Events that pass no bytes. Each has one line, or none.

ghost use Rattle.std.specs.Prelude.{◌≡◌, ◌≤◌, ◌-◌, [], ◌∷◌, true, false, length, take, get_or, option_map};
ghost use Rattle.std.specs.Prelude.{IfOk, OnOk};
ghost use Rattle.coap_print.specs.Texts.{is_text};
ghost use Rattle.coap_script.specs.script.EventViews.{event_value};
ghost use Rattle.coap_script.specs.script.Events as event;
ghost use Rattle.coap_script.specs.script.Words.{words_of};
ghost use Rattle.coap_server_engine.specs.script.Replay.{event_ran};
ghost use Rattle.coap_server_engine.specs.script.Replay as replay;
ghost use Rattle.coap_server_engine.specs.values.Servers.{session_of};
ghost use Rattle.coap_store.specs.Refusals.{refusal_in};
ghost use Rattle.program_explain.specs.Printed.{listed};
ghost use Rattle.program_explain.specs.Explanations.{explained, messages_in, passes_bytes};
ghost use Rattle.program_explain.specs.Explanations as spec;

use crate::layout::{connection_line, dropped_line, output_line, removed_line, stored_line};
use crate::messages::{Followed, is_within};
use crate::printer::OutputLine;
use coap_model::{ConnId, OpenFault, ReleaseFault, ResponseFault};
use coap_script::{Event, StatusCounts, fault_line, status_line};
use coap_server_engine::Server;
use coap_store::{PathKey, StoreFault};
use coap_text::split_once;
use indexmap::IndexMap;
use std::alloc::{AllocError, Global};

/// Runs an event that passes no bytes, and returns its line, if it has one. `script` is the line of the script with the
/// event.
///
/// # Errors
///
/// Returns `AllocError` if allocation fails.
#[tactic(auto, unfolding(crate::specs::Explanations::explained))]
pub(super) fn run_event(
    alloc: Global,
    server: &mut Server,
    connections: &mut IndexMap<u64, Followed>,
    event: &Event,
    script: &[u8],
) -> Result<Option<OutputLine>, AllocError>
    requires { passes_bytes (event_value event.now) ≡ false }
    ensures explained { IfOk result (λ line.
        explained 0 server.old (messages_in connections.old) script.now (event_value event.now)
        ≡ record { lines = listed line; messages = messages_in connections.new }) }
    ensures server { OnOk result (server.new ≡ (event_ran server.old (event_value event.now)).server) }
{
    match event {
        Event::Open => Ok(Some(open(alloc, server, connections)?)),
        Event::In { .. } => unreachable!(),
        Event::Drain { .. } => unreachable!(),
        Event::Tick { moment } => Ok(Some(tick(server, *moment))),
        Event::Put {
            path,
            format,
            payload,
        } => Ok(Some(put(server, path, second_word(script), *format, payload)?)),
        Event::Remove { path, text } => Ok(Some(remove(server, path, text))),
        Event::End { connection } => Ok(Some(end(server, connections, *connection))),
        Event::Release { connection } => Ok(Some(release(server, *connection))),
        Event::Respond {
            connection,
            response,
        } => Ok(Some(respond(server, *connection, response))),
        Event::Drop { connection } => Ok(drop_connection(server, connections, *connection)),
        Event::Status { connection } => Ok(Some(status(alloc, server, *connection)?)),
    }
}

/// Runs an `open` event, and returns its line. The messages of the new connection are followed.
///
/// # Errors
///
/// Returns `AllocError` if allocation fails.
#[tactic(auto, unfolding(coap_server_engine::specs::script::Replay::event_ran))]
fn open(
    alloc: Global,
    server: &mut Server,
    connections: &mut IndexMap<u64, Followed>,
) -> Result<OutputLine, AllocError>
    ensures line { IfOk result (λ line. line ∷ [] ≡ (spec.opened server.old (messages_in connections.old)).lines) }
    ensures messages { OnOk result (messages_in connections.new
        ≡ (spec.opened server.old (messages_in connections.old)).messages) }
    ensures server { OnOk result (server.new ≡ (event_ran server.old event.Open).server) }
{
    match server.open() {
        Ok(id) => {
            connections.insert(id, Followed::new(alloc)?)?;
            Ok(words_line(id, "opened"))
        }
        Err(OpenFault::Memory) => Err(AllocError),
        Err(OpenFault::Full) => Ok(refusal_line("open", None, OpenFault::Full as u8)),
        Err(OpenFault::IdsSpent) => Ok(refusal_line("open", None, OpenFault::IdsSpent as u8)),
    }
}

/// Runs a `tick` event, and returns its line.
#[tactic(auto, unfolding(coap_server_engine::specs::script::Replay::event_ran))]
fn tick(server: &mut Server, moment: u64) -> OutputLine
    ensures line { result ≡ spec.ticked server.old moment }
    ensures server { server.new ≡ (event_ran server.old (event.Tick moment)).server }
{
    match server.tick(moment) {
        Ok(()) => OutputLine::Time(moment),
        Err(_) => refusal_line("tick", None, 1),
    }
}

/// Runs a `put` event, and returns its line. `text` is the path as the script has it.
///
/// # Errors
///
/// Returns `AllocError` if allocation fails.
#[tactic(auto, unfolding(coap_server_engine::specs::script::Replay::event_ran))]
fn put(
    server: &mut Server,
    path: &PathKey,
    text: &[u8],
    format: Option<u16>,
    payload: &[u8],
) -> Result<OutputLine, AllocError>
    ensures line { IfOk result (λ line. line ≡ spec.stored server.old path.now text.now format payload.now) }
    ensures server { OnOk result (server.new
        ≡ (event_ran server.old (event.Put path.now format payload.now)).server) }
{
    match server.put(path, format, payload) {
        Ok(_) => Ok(OutputLine::Text(None, stored_line(text, format, payload))),
        Err(fault) => match store_refused(fault) {
            Some(number) => Ok(refusal_line("put", None, number)),
            None => Err(AllocError),
        },
    }
}

/// Runs a `remove` event, and returns its line. `text` is the path as the script has it.
#[tactic(auto, unfolding(coap_server_engine::specs::script::Replay::event_ran))]
fn remove(server: &mut Server, path: &PathKey, text: &[u8]) -> OutputLine
    ensures line { result ≡ spec.removed server.old path.now text.now }
    ensures server { server.new ≡ (event_ran server.old (event.Remove path.now text.now)).server }
{
    match server.remove(path) {
        Ok(()) => OutputLine::Text(None, removed_line(text)),
        Err(fault) => refusal_line("remove", None, store_number(fault)),
    }
}

/// Runs an `end` event, and returns its line.
#[tactic(auto, unfolding(coap_server_engine::specs::script::Replay::event_ran))]
fn end(server: &mut Server, connections: &IndexMap<u64, Followed>, id: ConnId) -> OutputLine
    ensures line { result
        ≡ spec.input_ended (messages_in connections.now) id (session_of id server.old.sessions) }
    ensures server { server.new ≡ (event_ran server.old (event.End id)).server }
{
    match server.ended(id) {
        Ok(()) => words_line(id, end_words(is_cut(connections, id))),
        Err(_) => refusal_line("end", Some(id), 1),
    }
}

/// Returns the words about the end of the input of a connection.
fn end_words(is_cut: bool) -> &'static str
    ensures words { result.now ≡ spec.end_words is_cut }
    ensures printable { is_text result.now ≡ true }
{
    if is_cut {
        "input ended within a message"
    } else {
        "input ended"
    }
}

/// Returns `true` if the last byte of a message of a client is missing.
fn is_cut(connections: &IndexMap<u64, Followed>, id: ConnId) -> bool
    ensures { result ≡ spec.is_cut (messages_in connections.now id) }
{
    match connections.get(&id) {
        Some(followed) => is_within(&followed.incoming),
        None => false,
    }
}

/// Runs a `release` event, and returns its line.
#[tactic(auto, unfolding(coap_server_engine::specs::script::Replay::event_ran))]
fn release(server: &mut Server, id: ConnId) -> OutputLine
    ensures line { result ≡ spec.released server.old id }
    ensures server { server.new ≡ (event_ran server.old (event.Release id)).server }
{
    match server.release(id) {
        Ok(()) => words_line(id, "released"),
        Err(fault) => refusal_line("release", Some(id), release_number(fault)),
    }
}

/// Runs a `respond` event, and returns its line.
#[tactic(auto, unfolding(coap_server_engine::specs::script::Replay::event_ran))]
fn respond(server: &mut Server, id: ConnId, response: &[u8]) -> OutputLine
    ensures line { result ≡ spec.responded server.old id response.now }
    ensures server { server.new ≡ (event_ran server.old (event.Respond id response.now)).server }
{
    match server.respond(id, response) {
        Ok(_) => words_line(id, "response of the application"),
        Err(fault) => refusal_line("respond", Some(id), response_number(fault)),
    }
}

/// Runs a `drop` event, and returns its line, if it has one. The messages of the connection are followed no longer.
#[tactic(auto, unfolding(coap_server_engine::specs::script::Replay::event_ran))]
fn drop_connection(
    server: &mut Server,
    connections: &mut IndexMap<u64, Followed>,
    id: ConnId,
) -> Option<OutputLine>
    ensures line { listed result
        ≡ (spec.dropped (messages_in connections.old) id (session_of id server.old.sessions)).lines }
    ensures messages { messages_in connections.new
        ≡ (spec.dropped (messages_in connections.old) id (session_of id server.old.sessions)).messages }
    ensures server { server.new ≡ (event_ran server.old (event.Drop id)).server }
{
    let Ok(()) = server.drop_conn(id) else {
        return Some(refusal_line("drop", Some(id), 1));
    };
    let followed = connections.shift_remove(&id)?;
    let line = dropped_line(id, &followed.incoming, &followed.outgoing);
    Some(OutputLine::Text(Some(id), line))
}

/// Runs a `status` event, and returns its line.
///
/// # Errors
///
/// Returns `AllocError` if allocation fails.
#[tactic(auto, unfolding(coap_server_engine::specs::script::Replay::event_ran))]
fn status(alloc: Global, server: &Server, id: ConnId) -> Result<OutputLine, AllocError>
    ensures line { IfOk result (λ line. line ≡ spec.status_shown id (session_of id server.now.sessions)) }
    ensures server { server.now ≡ (event_ran server.now (event.Status id)).server }
{
    let Some(status) = server.status(id) else {
        return Ok(refusal_line("status", Some(id), 1));
    };
    let counts = StatusCounts {
        kept: status.kept,
        waiting: status.waiting,
        pending: status.pending,
        observers: status.observers,
    };
    let line = status_line(alloc, id, status.phase, counts)?;
    Ok(server_line(Some(id), &line))
}

/// Returns the line with words about a connection.
pub(super) fn words_line(id: ConnId, words: &str) -> OutputLine
    requires { is_text words.now ≡ true }
    ensures { result ≡ spec.words_line id words.now }
{
    OutputLine::Text(Some(id), connection_line(id, words))
}

/// Returns the line that the server writes for an event.
fn server_line(id: Option<ConnId>, text: &[u8]) -> OutputLine
    ensures { result ≡ spec.server_line id text.now }
{
    OutputLine::Text(id, output_line(id, without_newline(text)))
}

/// Returns the line of an event that fails.
pub(super) fn refusal_line(word: &str, id: Option<ConnId>, number: u8) -> OutputLine
    requires { length word.now ≤ 8 }
    ensures { result ≡ spec.refusal_line word.now id number }
{
    server_line(id, fault_line(word, id, number).as_slice())
}

/// Returns the number of an error of the store, or `None` for `Memory`.
fn store_refused(fault: StoreFault) -> Option<u8>
    ensures { result ≡ option_map replay.store_number (refusal_in fault) }
{
    match fault {
        StoreFault::Memory => None,
        _ => Some(store_number(fault)),
    }
}

/// Returns the number of an error of the store.
fn store_number(fault: StoreFault) -> u8
    ensures { result ≡ replay.store_number fault }
{
    fault as u8
}

/// Returns the number of an error of `release`.
fn release_number(fault: ReleaseFault) -> u8
    ensures { result ≡ replay.release_number fault }
{
    fault as u8
}

/// Returns the number of an error of `respond`.
fn response_number(fault: ResponseFault) -> u8
    ensures { result ≡ replay.response_number fault }
{
    fault as u8
}

/// Returns a line without its last byte, the newline.
fn without_newline(line: &[u8]) -> &[u8]
    ensures { result.now ≡ take (length line.now - 1) line.now }
{
    match line {
        [text @ .., _] => text,
        [] => line,
    }
}

/// Returns the second word of a line, or no bytes if it has only one.
fn second_word(line: &[u8]) -> &[u8]
    ensures { result.now ≡ get_or (words_of line.now) 1 [] }
{
    let Some((_, rest)) = split_once(line, b' ') else {
        return b"";
    };
    match split_once(rest, b' ') {
        Some((word, _)) => word,
        None => rest,
    }
}
