//! Lines of a connection: its messages, and their number.

ghost use Rattle.std.specs.Prelude.{◌≡◌, ◌≤◌, true, length, take};
ghost use Rattle.std.specs.Duration.{as_nanos};
ghost use Rattle.coap_print.specs.Texts.{is_text};
ghost use Rattle.coap_print.specs.Lines.{appended};
ghost use Rattle.coap_print.specs.declared.line.TheConstants.{LINE_LENGTH};
ghost use Rattle.coap_log.specs.Logs.{LogsLine, trace_of};
ghost use Rattle.coap_log.specs.Connections.{LogsBytes, LogsWhole};
ghost use Rattle.coap_log.specs.Connections as spec;

use crate::glimpse::describe_head;
use crate::levels::MessageLevels;
use crate::log::Log;
use crate::tap::{DESCRIBED, Tap};
use crate::writer::LogWriter;
use coap_print::{Line, LogLevel};
use std::time::Duration;

/// Passes bytes of one direction of a connection to its tap. For each message that ends with them, writes a line of its
/// level at a time, which counts from the start of 1970. `front` is the text before the message, such as
/// `connection 3 in: `.
pub fn log_messages<W: LogWriter, K: MessageLevels>(
    log: &mut Log<W>,
    levels: &K,
    now: Duration,
    tap: &mut Tap,
    front: &Line,
    bytes: &[u8],
)
    ensures { LogsBytes (length bytes.now) (K.level levels.now) (as_nanos now) front.now bytes.now tap.old tap.new
        (trace_of W.offers W.accepted log.old) (trace_of W.offers W.accepted log.new) }
{
    let mut left = bytes;
    while !left.is_empty() {
        let taken = tap.take(left);
        if taken == 0 {
            return;
        }
        left = &left[taken..];
        log_message(log, levels, now, tap, front);
    }
}

/// Writes a line for the present message of a tap, if it is whole and the log has lines of its level.
fn log_message<W: LogWriter, K: MessageLevels>(
    log: &mut Log<W>,
    levels: &K,
    now: Duration,
    tap: &Tap,
    front: &Line,
)
    ensures { LogsWhole (K.level levels.now) (as_nanos now) front.now tap.now
        (trace_of W.offers W.accepted log.old) (trace_of W.offers W.accepted log.new) tap.now.is_whole }
{
    if tap.is_whole() {
        log_whole(log, levels.level_of(tap.head()), now, tap, front);
    }
}

/// Writes the present message of a tap as a line of a level, if the log has lines of this level.
fn log_whole<W: LogWriter>(
    log: &mut Log<W>,
    level: LogLevel,
    now: Duration,
    tap: &Tap,
    front: &Line,
)
    ensures { LogsLine level (as_nanos now) (spec.message_line front.now tap.now)
        (trace_of W.offers W.accepted log.old) (trace_of W.offers W.accepted log.new) }
{
    if log.is_on(level) {
        log.line(level, now, &message_line(front, tap));
    }
}

/// Returns the text of the present message of a tap, after other text.
#[tactic(auto, using(coap_print::proofs::LineLaws::pieces))]
fn message_line(front: &Line, tap: &Tap) -> Line
    ensures { result ≡ spec.message_line front.now tap.now }
{
    let mut line = Line::new();
    line.line(front);
    append_message(&mut line, tap);
    line
}

/// Appends the present message of a tap, by its first bytes and its size, as `describe_head` does.
pub fn append_message(line: &mut Line, tap: &Tap)
    ensures { line.new ≡ appended LINE_LENGTH line.old (spec.tap_text tap.now) }
{
    describe_head(line, described(tap.head()), tap.size());
}

/// Returns the first bytes of a message, at most 2,048.
fn described(head: &[u8]) -> &[u8]
    ensures bytes { result.now ≡ take DESCRIBED head.now }
    ensures few { length result.now ≤ DESCRIBED }
{
    if head.len() <= DESCRIBED {
        head
    } else {
        &head[..DESCRIBED]
    }
}

/// Appends the numbers of messages and bytes of a connection, as in
/// `12 messages, 345 bytes in; 1 message, 45 bytes out`.
#[tactic(auto, using(coap_print::proofs::LineLaws::pieces))]
pub fn append_counts(line: &mut Line, incoming: &Tap, outgoing: &Tap)
    ensures { line.new ≡ appended LINE_LENGTH line.old (spec.counts_text incoming.now outgoing.now) }
{
    append_passed(line, incoming);
    line.text(" in; ");
    append_passed(line, outgoing);
    line.text(" out");
}

/// Appends the numbers of messages and bytes in one direction.
#[tactic(auto, using(coap_print::proofs::LineLaws::pieces))]
fn append_passed(line: &mut Line, tap: &Tap)
    ensures { line.new ≡ appended LINE_LENGTH line.old (spec.passed_text tap.now) }
{
    append_count(line, tap.messages(), "message");
    line.text(", ");
    append_count(line, tap.bytes(), "byte");
}

/// Appends a number of things.
#[tactic(auto, using(coap_print::proofs::LineLaws::pieces))]
fn append_count(line: &mut Line, count: u64, thing: &str)
    requires { is_text thing.now ≡ true }
    ensures { line.new ≡ appended LINE_LENGTH line.old (spec.count_text count thing.now) }
{
    line.number(count);
    line.text(" ");
    line.text(thing);
    append_plural(line, count);
}

/// Appends the end of the plural, unless there is one thing.
#[tactic(auto, using(coap_print::proofs::LineLaws::pieces))]
fn append_plural(line: &mut Line, count: u64)
    ensures { line.new ≡ appended LINE_LENGTH line.old (spec.plural count) }
{
    if count != 1 {
        line.text("s");
    }
}
