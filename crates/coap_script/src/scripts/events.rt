//! Reads the event that a line of a script names.

ghost use Rattle.std.specs.Prelude.{◌≡◌, IfOk, map, option_map};
ghost use Rattle.coap_script.specs.Prelude.{event_value, TakesLine};
ghost use Rattle.coap_script.specs.script.Events as spec;
ghost use Rattle.coap_script.specs.script.Script as lines;

use crate::event::Event;
use crate::scripts::words::{format_in, path_in, payload_in, words_in};
use coap_text::{bytes_in, number_in};
use std::alloc::{AllocError, Global};

/// Returns the event of a word without values.
#[tactic(auto, unfolding(crate::specs::script::Events::event_alone))]
fn alone(word: &[u8]) -> Option<Event>
    ensures { option_map event_value result ≡ spec.event_alone word.now }
{
    if word != b"open".as_slice() {
        return None;
    }
    Some(Event::Open)
}

/// Returns the event of a word with a number.
#[tactic(auto, unfolding(crate::specs::script::Events::number_event))]
fn with_number(word: &[u8], number: u64) -> Option<Event>
    ensures { option_map event_value result ≡ spec.number_event word.now number }
{
    let connection = number;
    if word == b"tick".as_slice() {
        Some(Event::Tick { moment: number })
    } else if word == b"drain".as_slice() {
        Some(Event::Drain {
            connection,
            most: None,
        })
    } else if word == b"end".as_slice() {
        Some(Event::End { connection })
    } else if word == b"release".as_slice() {
        Some(Event::Release { connection })
    } else if word == b"drop".as_slice() {
        Some(Event::Drop { connection })
    } else if word == b"status".as_slice() {
        Some(Event::Status { connection })
    } else {
        None
    }
}

/// Returns the event of `remove` with a path.
#[tactic(auto, unfolding(crate::specs::script::Events::remove_event))]
fn removal(alloc: Global, text: &[u8]) -> Result<Option<Event>, AllocError>
    ensures { IfOk result (λ event. option_map event_value event ≡ spec.remove_event text.now) }
{
    let Some(path) = path_in(alloc, text)? else {
        return Ok(None);
    };
    let text = Vec::from_slice(alloc, text)?;
    Ok(Some(Event::Remove { path, text }))
}

/// Returns the event of a word with one value.
#[tactic(auto, unfolding(crate::specs::script::Events::event_with_one))]
fn with_one(alloc: Global, word: &[u8], value: &[u8]) -> Result<Option<Event>, AllocError>
    ensures { IfOk result (λ event. option_map event_value event ≡ spec.event_with_one word.now value.now) }
{
    if word == b"remove".as_slice() {
        return removal(alloc, value);
    }
    let Some(number) = number_in(value) else {
        return Ok(None);
    };
    Ok(with_number(word, number))
}

/// Returns the event of `in` with a connection id and bytes.
#[tactic(auto, unfolding(crate::specs::script::Events::in_event))]
fn arrival(alloc: Global, id: &[u8], hex: &[u8]) -> Result<Option<Event>, AllocError>
    ensures { IfOk result (λ event. option_map event_value event ≡ spec.in_event id.now hex.now) }
{
    let Some(connection) = number_in(id) else {
        return Ok(None);
    };
    let Some(bytes) = bytes_in(alloc, hex)? else {
        return Ok(None);
    };
    Ok(Some(Event::In { connection, bytes }))
}

/// Returns the event of `respond` with a connection id and a response.
#[tactic(auto, unfolding(crate::specs::script::Events::respond_event))]
fn application_response(alloc: Global, id: &[u8], hex: &[u8]) -> Result<Option<Event>, AllocError>
    ensures { IfOk result (λ event. option_map event_value event ≡ spec.respond_event id.now hex.now) }
{
    let Some(connection) = number_in(id) else {
        return Ok(None);
    };
    let Some(response) = bytes_in(alloc, hex)? else {
        return Ok(None);
    };
    Ok(Some(Event::Respond {
        connection,
        response,
    }))
}

/// Returns the event of `drain` with a connection id and a count.
#[tactic(auto, unfolding(crate::specs::script::Events::drain_event))]
fn drain(id: &[u8], count: &[u8]) -> Option<Event>
    ensures { option_map event_value result ≡ spec.drain_event id.now count.now }
{
    let connection = number_in(id)?;
    let most = number_in(count)?;
    Some(Event::Drain {
        connection,
        most: Some(most),
    })
}

/// Returns the event of a word with two values.
#[tactic(auto, unfolding(crate::specs::script::Events::event_with_two))]
fn with_two(
    alloc: Global,
    word: &[u8],
    first: &[u8],
    second: &[u8],
) -> Result<Option<Event>, AllocError>
    ensures { IfOk result (λ event. option_map event_value event ≡ spec.event_with_two word.now first.now second.now) }
{
    if word == b"in".as_slice() {
        arrival(alloc, first, second)
    } else if word == b"drain".as_slice() {
        Ok(drain(first, second))
    } else if word == b"respond".as_slice() {
        application_response(alloc, first, second)
    } else {
        Ok(None)
    }
}

/// Returns the event of `put` with a path, a format and bytes.
#[tactic(auto, unfolding(crate::specs::script::Events::put_event))]
fn storing(
    alloc: Global,
    path: &[u8],
    format: &[u8],
    hex: &[u8],
) -> Result<Option<Event>, AllocError>
    ensures { IfOk result (λ event. option_map event_value event ≡ spec.put_event path.now format.now hex.now) }
{
    let Some(path) = path_in(alloc, path)? else {
        return Ok(None);
    };
    let Some(format) = format_in(format) else {
        return Ok(None);
    };
    let Some(payload) = payload_in(alloc, hex)? else {
        return Ok(None);
    };
    Ok(Some(Event::Put {
        path,
        format,
        payload,
    }))
}

/// Returns the event of the words of a line, or `None` if they name none.
#[tactic(auto, unfolding(crate::specs::script::Events::event_of))]
fn event_of(alloc: Global, words: &[&[u8]]) -> Result<Option<Event>, AllocError>
    ensures { IfOk result (λ event. option_map event_value event ≡ spec.event_of (map (λ w. w.now) words.now)) }
{
    match words {
        [word] => Ok(alone(word)),
        [word, value] => with_one(alloc, word, value),
        [word, first, second] => with_two(alloc, word, first, second),
        [word, path, format, hex] => {
            if *word != b"put".as_slice() {
                return Ok(None);
            }
            storing(alloc, path, format, hex)
        }
        _ => Ok(None),
    }
}

/// Returns the event that a line names. A line with a byte that is not ASCII names none.
#[tactic(auto, unfolding(crate::specs::script::Script::event_in))]
fn event_in(alloc: Global, line: &[u8]) -> Result<Option<Event>, AllocError>
    ensures { IfOk result (λ event. option_map event_value event ≡ lines.event_in line.now) }
{
    if !line.iter().all(|byte| byte.is_ascii()) {
        return Ok(None);
    }
    let Some(words) = words_in(line) else {
        return Ok(None);
    };
    event_of(alloc, words.as_slice())
}

/// Returns `true` if a line is empty or a comment.
#[tactic(auto, unfolding(crate::specs::script::Script::says_nothing))]
fn says_nothing(line: &[u8]) -> bool
    ensures { result ≡ lines.says_nothing line.now }
{
    match line {
        [] => true,
        [first, ..] => *first == b'#',
    }
}

/// Appends the event that a line names, if it names one. Returns `true` if the line names an event, is empty or is a
/// comment.
///
/// # Errors
///
/// Returns `AllocError` if allocation fails.
#[tactic(auto, unfolding(crate::specs::script::Script::events_in))]
pub(super) fn take_line(
    alloc: Global,
    events: &mut Vec<Event>,
    line: &[u8],
) -> Result<bool, AllocError>
    ensures { IfOk result (λ is_right. TakesLine is_right (map event_value events.old.items)
        (map event_value events.new.items) (lines.events_in line.now)) }
{
    if says_nothing(line) {
        return Ok(true);
    }
    let Some(event) = event_in(alloc, line)? else {
        return Ok(false);
    };
    events.push(event)?;
    Ok(true)
}
