//! `LoggedWire`, a wire whose messages are written to a log.

ghost use Rattle.std.specs.Prelude.{◌≡◌, ◌≤◌, ◌++◌, IfOk, [], ◌∷◌, true, length, codes};
ghost use Rattle.coap_io.specs.Prelude.{AddsBytes, AddsCalls, IsWithin, bytes_passed};
ghost use Rattle.coap_io.specs.streams.Wires.{write_outcome};
ghost use Rattle.coap_print.specs.Texts.{is_text};
ghost use Rattle.coap_print.specs.Lines.{appended};
ghost use Rattle.coap_print.specs.declared.line.TheConstants.{LINE_LENGTH};
ghost use Rattle.coap_print.specs.declared.level.LogLevel.TheVariants.{Warnings, Connections, Messages};
ghost use Rattle.coap_log.specs.Logs.{trace_of};
ghost use Rattle.coap_log.specs.Taps.{new_tap, room_of};
ghost use Rattle.coap_log.specs.Connections.{LogsAtATime, LogsLast, LogsPassed, LogsResult, number_text};
ghost use Rattle.coap_log.specs.Connections.{connection_line, end_line};

use crate::connection::{append_counts, log_messages};
use crate::log::Log;
use crate::tap::Tap;
use crate::writer::LogWriter;
use coap_io::{Got, Wire};
use coap_print::{Line, LogLevel};
use std::alloc::{AllocError, Global};
use std::time;
use std::time::Duration;

/// Text before a message in its line: the number of the connection, followed by the direction of the message.
#[derive(Clone, Copy)]
struct LineFront {
    number: u64,
    direction: &'static str,
}

/// Wire over another wire, which passes every call on and writes the messages that it passes to a log.
///
/// Each line begins with the number of the connection. With the level `Warnings`, the log has a line for a read or
/// a write that failed, and the lines of `warn`. With the level `Connections`, it has a line for the start and one
/// for the end. With the level `Messages`, it has a line for each message too. A `LoggedWire` records the same as
/// the inner wire.
#[derive(Drop)]
pub struct LoggedWire<'a, W, L, C> {
    wire: W,
    log: Log<L>,
    clock: &'a C,
    number: u64,
    incoming: Tap,
    outgoing: Tap,
}

impl<'a, W: Wire + Drop, L: LogWriter + Drop, C: time::Clock> LoggedWire<'a, W, L, C> {
    /// Creates a wire over `wire`, and writes the first line of the connection, such as
    /// `connection 1 opened to 127.0.0.1:5683`.
    ///
    /// # Errors
    ///
    /// Returns `AllocError` if allocation fails.
    pub fn new(
        alloc: Global,
        wire: W,
        log: Log<L>,
        clock: &'a C,
        number: u64,
        peer: &Line,
    ) -> Result<LoggedWire<'a, W, L, C>, AllocError>
        ensures wire { IfOk result (λ logged. (logged.wire ≡ wire) × (logged.number ≡ number)) }
        ensures log { IfOk result (λ logged.
            LogsAtATime Connections (connection_line number (codes " opened to " ++ peer.now))
            (trace_of L.offers L.accepted log) (trace_of L.offers L.accepted logged.log)) }
        ensures taps { IfOk result (λ logged. (logged.incoming ≡ new_tap (room_of log.level))
            × (logged.outgoing ≡ new_tap (room_of log.level))) }
    {
        let incoming = Tap::at_level(alloc, log.level)?;
        let outgoing = Tap::at_level(alloc, log.level)?;
        let mut logged = LoggedWire {
            wire,
            log,
            clock,
            number,
            incoming,
            outgoing,
        };
        let line = text_line(number, " opened to ", peer);
        log_now(&mut logged.log, clock, LogLevel::Connections, &line);
        Ok(logged)
    }

    /// Writes a warning about the connection, such as `connection 1: no memory`.
    pub fn warn(&mut self, text: &Line)
        ensures kept { self.new ≡ record self.old { log = self.new.log } }
        ensures log { LogsAtATime Warnings (connection_line self.old.number (codes ": " ++ text.now))
            (trace_of L.offers L.accepted self.old.log) (trace_of L.offers L.accepted self.new.log) }
    {
        let line = text_line(self.number, ": ", text);
        log_now(&mut self.log, self.clock, LogLevel::Warnings, &line);
    }

    /// Ends the log: writes the report of lines left out, if there are any, and the last line of the connection. This
    /// line has the reason for the end, and the numbers of messages and bytes.
    pub fn end(&mut self, reason: &Line)
        ensures kept { self.new ≡ record self.old { log = self.new.log } }
        ensures log { LogsLast (end_line self.old.number reason.now self.old.incoming self.old.outgoing)
            (trace_of L.offers L.accepted self.old.log) (trace_of L.offers L.accepted self.new.log) }
    {
        let line = end_line(self.number, reason, &self.incoming, &self.outgoing);
        log_last(&mut self.log, self.clock, &line);
    }
}

impl<'a, W: Wire, L: LogWriter, C: time::Clock> Wire for LoggedWire<'a, W, L, C> {
    ghost given = { λ logged. W.given logged.wire };

    ghost written = { λ logged. W.written logged.wire };

    ghost answers = { λ logged. W.answers logged.wire };

    ghost rooms = { λ logged. W.rooms logged.wire };

    fn read(&mut self, buffer: &mut [u8]) -> Got
        requires room { 1 ≤ length buffer.old }
        ensures within { IsWithin (length buffer.new) result }
        ensures gave { AddsBytes (W.given self.old.wire) (W.given self.new.wire) (bytes_passed buffer.new result) }
        ensures wrote { AddsBytes (W.written self.old.wire) (W.written self.new.wire) [] }
        ensures answered { AddsCalls (W.answers self.old.wire) (W.answers self.new.wire) (result ∷ []) }
        ensures had_room { AddsCalls (W.rooms self.old.wire) (W.rooms self.new.wire) (length buffer.new ∷ []) }
        // A failure is logged, and so are the messages that end with the bytes read.
        ensures logged { LogsResult self.old.number (codes " in: ") result buffer.new
            self.old.incoming self.new.incoming
            (trace_of L.offers L.accepted self.old.log) (trace_of L.offers L.accepted self.new.log) }
        ensures others { (self.new.outgoing ≡ self.old.outgoing) × (self.new.number ≡ self.old.number) }
    {
        let got = self.wire.read(buffer);
        let front = LineFront {
            number: self.number,
            direction: " in: ",
        };
        log_result(
            &mut self.log,
            self.clock,
            front,
            &mut self.incoming,
            buffer,
            got,
        );
        got
    }

    fn write(&mut self, bytes: &[u8]) -> Got
        requires some { 1 ≤ length bytes.now }
        ensures within { IsWithin (length bytes.now) result }
        ensures wrote { AddsBytes (W.written self.old.wire) (W.written self.new.wire)
            (bytes_passed bytes.now result) }
        ensures gave { AddsBytes (W.given self.old.wire) (W.given self.new.wire) [] }
        ensures answered { AddsCalls (W.answers self.old.wire) (W.answers self.new.wire) (result ∷ []) }
        ensures no_read { AddsCalls (W.rooms self.old.wire) (W.rooms self.new.wire) [] }
        // A failure is logged, and so are the messages that end with the bytes written.
        ensures logged { LogsResult self.old.number (codes " out: ") (write_outcome result) bytes.now
            self.old.outgoing self.new.outgoing
            (trace_of L.offers L.accepted self.old.log) (trace_of L.offers L.accepted self.new.log) }
        ensures others { (self.new.incoming ≡ self.old.incoming) × (self.new.number ≡ self.old.number) }
    {
        let got = self.wire.write(bytes);
        let front = LineFront {
            number: self.number,
            direction: " out: ",
        };
        log_result(
            &mut self.log,
            self.clock,
            front,
            &mut self.outgoing,
            bytes,
            write_outcome(got),
        );
        got
    }
}

/// Returns the outcome of a write with this result: `End` counts as `Failed`.
fn write_outcome(got: Got) -> Got
    ensures { result ≡ write_outcome got }
{
    match got {
        Got::Bytes(count) => Got::Bytes(count),
        Got::Later => Got::Later,
        Got::End => Got::Failed,
        Got::Failed => Got::Failed,
    }
}

/// Logs the result of a read or a write: a failure as a warning, and each message that ends with the bytes passed on.
fn log_result<L: LogWriter>(
    log: &mut Log<L>,
    clock: &impl time::Clock,
    front: LineFront,
    tap: &mut Tap,
    bytes: &[u8],
    got: Got,
)
    requires within { IsWithin (length bytes.now) got }
    requires text { is_text front.direction.now ≡ true }
    ensures { LogsResult front.number front.direction.now got bytes.now tap.old tap.new
        (trace_of L.offers L.accepted log.old) (trace_of L.offers L.accepted log.new) }
{
    match got {
        Got::Bytes(count) => pass(log, clock, front, tap, &bytes[..count]),
        Got::Later => {}
        Got::End => {}
        Got::Failed => {
            let line = connection_line(front.number, " failed");
            log_now(log, clock, LogLevel::Warnings, &line);
        }
    }
}

/// Logs the messages that end with bytes passed on.
fn pass<L: LogWriter>(
    log: &mut Log<L>,
    clock: &impl time::Clock,
    front: LineFront,
    tap: &mut Tap,
    bytes: &[u8],
)
    requires { is_text front.direction.now ≡ true }
    ensures { LogsPassed (λ head. Messages) (connection_line front.number front.direction.now) bytes.now tap.old tap.new
        (trace_of L.offers L.accepted log.old) (trace_of L.offers L.accepted log.new) }
{
    log_messages(
        log,
        &LogLevel::Messages,
        now(clock),
        tap,
        &connection_line(front.number, front.direction),
        bytes,
    );
}

/// Writes a line of a level now.
fn log_now<L: LogWriter>(log: &mut Log<L>, clock: &impl time::Clock, level: LogLevel, text: &Line)
    ensures { LogsAtATime level text.now
        (trace_of L.offers L.accepted log.old) (trace_of L.offers L.accepted log.new) }
{
    log.line(level, now(clock), text);
}

/// Writes the report of lines left out, if there are any, and the last line of a log now.
fn log_last<L: LogWriter>(log: &mut Log<L>, clock: &impl time::Clock, text: &Line)
    ensures { LogsLast text.now (trace_of L.offers L.accepted log.old) (trace_of L.offers L.accepted log.new) }
{
    let moment = now(clock);
    log.end(moment);
    log.line(LogLevel::Connections, moment, text);
}

/// Returns the time since the start of 1970, or zero if the clock cannot be read.
fn now(clock: &impl time::Clock) -> Duration {
    clock.since_1970().unwrap_or(Duration::ZERO)
}

/// Returns the first words of the lines of a connection.
#[tactic(auto, using(coap_print::proofs::LineLaws::pieces))]
fn front(number: u64) -> Line
    ensures { result ≡ appended LINE_LENGTH [] (number_text number) }
{
    let mut line = Line::new();
    line.text("connection ");
    line.number(number);
    line
}

/// Returns a line of a connection: its first words, followed by a text.
#[tactic(auto, using(coap_print::proofs::LineLaws::pieces))]
fn connection_line(number: u64, text: &str) -> Line
    requires { is_text text.now ≡ true }
    ensures { result ≡ connection_line number text.now }
{
    let mut line = front(number);
    line.text(text);
    line
}

/// Returns a line of a connection: its first words, followed by words and a text.
#[tactic(auto, using(coap_print::proofs::LineLaws::pieces))]
fn text_line(number: u64, words: &str, text: &Line) -> Line
    requires { is_text words.now ≡ true }
    ensures { result ≡ connection_line number (words.now ++ text.now) }
{
    let mut line = front(number);
    line.text(words);
    line.line(text);
    line
}

/// Returns the last line of a connection.
#[tactic(auto, using(coap_print::proofs::LineLaws::pieces))]
fn end_line(number: u64, reason: &Line, incoming: &Tap, outgoing: &Tap) -> Line
    ensures { result ≡ end_line number reason.now incoming.now outgoing.now }
{
    let mut line = front(number);
    line.text(" ended: ");
    line.line(reason);
    line.text("; ");
    append_counts(&mut line, incoming, outgoing);
    line
}
