//! The lines of an explanation.
//!
//! A line about a connection begins with the number of the connection, right-aligned in six columns. Other lines begin
//! with blanks, except for comments.
#![tactic(auto, using(coap_print::proofs::LineLaws::pieces))]

ghost use Rattle.std.specs.Prelude.{◌≡◌, true, nat_le};
ghost use Rattle.coap_print.specs.Texts.{is_text};
ghost use Rattle.coap_print.specs.Lines.{appended};
ghost use Rattle.coap_print.specs.declared.line.TheConstants.{LINE_LENGTH};
ghost use Rattle.program_explain.specs.Layout as spec;

use coap_conn::Reason;
use coap_log::{Tap, append_counts, append_message, append_time};
use coap_model::ConnId;
use coap_print::{Line, describe_representation};
use program_server_common::text_of;
use std::time::Duration;

/// Direction of a message.
#[derive(Clone, Copy)]
pub(crate) enum Way {
    /// From the client to the server.
    In,
    /// From the server to the client.
    Out,
}

/// Last second of the year 9999, after the start of 1970.
const LAST_SECOND: u64 = 253_402_300_799;

/// Returns the blanks before the number of a connection.
#[tactic(auto, unfolding(crate::specs::Layout::padding))]
fn padding(id: ConnId) -> &'static str
    ensures text { result.now ≡ spec.padding id }
    ensures printable { is_text result.now ≡ true }
{
    if id < 10 {
        "     "
    } else if id < 100 {
        "    "
    } else if id < 1_000 {
        "   "
    } else if id < 10_000 {
        "  "
    } else if id < 100_000 {
        " "
    } else {
        ""
    }
}

/// Appends the number of a connection, in its column.
fn append_id(line: &mut Line, id: ConnId)
    ensures { line.new ≡ appended LINE_LENGTH line.old (spec.id_text id) }
{
    line.text(padding(id));
    line.number(id);
    line.text("  ");
}

/// Appends the number of a connection and the direction of a message.
fn append_way(line: &mut Line, id: ConnId, way: Way)
    ensures { line.new ≡ appended LINE_LENGTH line.old (spec.way_text id way) }
{
    append_id(line, id);
    match way {
        Way::In => line.text("<-  "),
        Way::Out => line.text("->  "),
    }
}

/// Returns a line about a connection.
pub(crate) fn connection_line(id: ConnId, words: &str) -> Line
    requires { is_text words.now ≡ true }
    ensures { result ≡ spec.connection_line id words.now }
{
    let mut line = Line::new();
    append_id(&mut line, id);
    line.text(words);
    line
}

/// Returns the line of the present message of a tap.
pub(crate) fn message_line(id: ConnId, way: Way, tap: &Tap) -> Line
    ensures { result ≡ spec.message_line id way tap.now }
{
    let mut line = Line::new();
    append_way(&mut line, id, way);
    append_message(&mut line, tap);
    line
}

/// Returns the line about a message of which the last byte is missing.
pub(crate) fn unfinished_line(id: ConnId, way: Way, bytes: u64) -> Line
    ensures { result ≡ spec.unfinished_line id way bytes }
{
    let mut line = Line::new();
    append_way(&mut line, id, way);
    line.text("unfinished message, bytes so far: ");
    line.number(bytes);
    line
}

/// Returns the line about bytes of which a connection did not accept all.
pub(crate) fn accepted_line(id: ConnId, count: u64, all: u64) -> Line
    ensures { result ≡ spec.accepted_line id count all }
{
    let mut line = Line::new();
    append_way(&mut line, id, Way::In);
    line.text("bytes accepted: ");
    line.number(count);
    line.text(" of ");
    line.number(all);
    line
}

/// Returns the line about a number of bytes to write of which fewer were queued.
pub(crate) fn queued_line(id: ConnId, count: u64, most: u64) -> Line
    ensures { result ≡ spec.queued_line id count most }
{
    let mut line = Line::new();
    append_way(&mut line, id, Way::Out);
    line.text("bytes queued: ");
    line.number(count);
    line.text(" of ");
    line.number(most);
    line
}

/// Returns the line about a connection that stopped.
pub(crate) fn stopped_line(id: ConnId, reason: Reason) -> Line
    ensures { result ≡ spec.stopped_line id reason }
{
    let mut line = Line::new();
    append_id(&mut line, id);
    line.text("stopped: ");
    line.escaped(text_of(reason).as_bytes());
    line
}

/// Returns the line about a connection that was dropped, with the numbers of its messages and bytes.
pub(crate) fn dropped_line(id: ConnId, incoming: &Tap, outgoing: &Tap) -> Line
    ensures { result ≡ spec.dropped_line id incoming.now outgoing.now }
{
    let mut line = Line::new();
    append_id(&mut line, id);
    line.text("dropped: ");
    append_counts(&mut line, incoming, outgoing);
    line
}

/// Returns the line that the server writes for an event, in the column of the connection, or without a connection.
pub(crate) fn output_line(id: Option<ConnId>, text: &[u8]) -> Line
    ensures { result ≡ spec.output_line id text.now }
{
    let mut line = Line::new();
    match id {
        Some(id) => append_id(&mut line, id),
        None => line.text("        "),
    }
    line.escaped(text);
    line
}

/// Returns the line about a stored representation, with the path as the script has it.
pub(crate) fn stored_line(path: &[u8], format: Option<u16>, bytes: &[u8]) -> Line
    ensures { result ≡ spec.stored_line path.now format bytes.now }
{
    let mut line = Line::new();
    line.text("        put ");
    line.escaped(path);
    describe_representation(&mut line, format, bytes);
    line
}

/// Returns the line about a removed resource, with the path as the script has it.
pub(crate) fn removed_line(text: &[u8]) -> Line
    ensures { result ≡ spec.removed_line text.now }
{
    let mut line = Line::new();
    line.text("        removed ");
    line.escaped(text);
    line
}

/// Returns a line of the record as it is, with its other bytes escaped.
pub(crate) fn comment_line(text: &[u8]) -> Line
    ensures { result ≡ spec.comment_line text.now }
{
    let mut line = Line::new();
    line.escaped(text);
    line
}

/// Returns the line about the time of the server, in seconds. The date and the time of day follow in parentheses, in
/// UTC. They are left out if the number, counted from the start of 1970, is a time after the year 9999.
pub(crate) fn time_line(seconds: u64) -> Line
    ensures { spec.IsTimeLine seconds result }
{
    let mut line = Line::new();
    line.text("        time ");
    line.number(seconds);
    if has_date(seconds) {
        line.text(" (");
        append_time(&mut line, Duration::from_secs(seconds), 0);
        line.text(")");
    }
    line
}

/// Returns `true` if the year of a second has at most four digits.
fn has_date(seconds: u64) -> bool
    ensures { result ≡ nat_le seconds spec.last_second }
{
    seconds <= LAST_SECOND
}
