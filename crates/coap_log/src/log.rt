//! `Log`, which writes lines with the time, up to the limit of lines a second.

ghost use Rattle.std.specs.Prelude.{◌≡◌, ◌≤◌, ◌/◌, ◌++◌, List, [], ◌∷◌, Bool, true, false, codes, nat_le};
ghost use Rattle.std.specs.Prelude.{length};
ghost use Rattle.std.specs.Duration.{as_nanos};
ghost use Rattle.coap_print.specs.Lines.{appended};
ghost use Rattle.coap_print.specs.Levels.{level_number};
ghost use Rattle.coap_print.specs.declared.line.TheConstants.{LINE_LENGTH};
ghost use Rattle.coap_log.specs.Limits.{fresh, admission, after_admission, report, after_report, last_report};
ghost use Rattle.coap_log.specs.Limits.{after_end};
ghost use Rattle.coap_log.specs.Writers.{Offer, AddsOffers, RefusedIf};
ghost use Rattle.coap_log.specs.Logs.{IsDated, IsOffered, IsReported, report_text, limit_after};

use crate::limit::{Admission, LineLimit};
use crate::moment::append_time;
use crate::writer::LogWriter;
use coap_print::{Line, LogLevel};
use std::time::Duration;

/// Log of a program: lines up to a level, each with the time and the name of the program, as in
/// `2026-11-27T05:18:31.042Z coap-server: connection 3 opened by 127.0.0.1:50022`.
///
/// At most 100 lines a second are offered to the writer. Lines can be left out by this limit, or not accepted by the
/// writer. The first line of a later second reports their number, or `end` does.
#[derive(Drop)]
pub struct Log<W> {
    /// Level of the log: lines of higher levels are ignored.
    pub level: LogLevel,
    program: Line,
    limit: LineLimit,
    writer: W,
}

impl<W: LogWriter> Log<W> {
    /// Creates a log without lines. `program` is the name of the program.
    pub fn new(level: LogLevel, program: Line, writer: W) -> Log<W>
        ensures { result ≡ record { level = level; program = program; limit = fresh; writer = writer } }
    {
        Log {
            level,
            program,
            limit: LineLimit::new(),
            writer,
        }
    }

    /// Returns `true` if lines of a level are written. A caller composes a line only in this case.
    pub fn is_on(&self, level: LogLevel) -> bool
        ensures { result ≡ nat_le (level_number level) (level_number self.now.level) }
    {
        self.level.includes(level)
    }

    /// Writes a text as a line of a level at a time, which counts from the start of 1970. Nothing changes if the log
    /// has no lines of this level.
    pub fn line(&mut self, level: LogLevel, now: Duration, text: &Line)
        ensures off { nat_le (level_number level) (level_number self.old.level) ≡ false → self.new ≡ self.old }
        ensures on { nat_le (level_number level) (level_number self.old.level) ≡ true →
            (offers : List Offer) × IsOffered self.old.program (as_nanos now) text.now
            (admission self.old.limit (as_nanos now / 1_000_000_000))
            (after_admission self.old.limit (as_nanos now / 1_000_000_000)) self.new.limit offers
            × AddsOffers (W.offers self.old.writer) (W.offers self.new.writer)
            (W.accepted self.old.writer) (W.accepted self.new.writer) offers }
        ensures level { self.new.level ≡ self.old.level }
        ensures program { self.new.program ≡ self.old.program }
    {
        if !self.is_on(level) {
            return;
        }
        match self.limit.admit(now.as_secs()) {
            Admission::LeftOut => {}
            Admission::Line => self.offer(now, text, 1),
            Admission::AfterReport(count) => {
                self.offer_report(now, count);
                self.offer(now, text, 1);
            }
        }
    }

    /// Writes what was accepted and is not written yet, and the report of lines left out, if it is due. A caller calls
    /// it about once a second, so that the report comes even if no other line does.
    pub fn tick(&mut self, now: Duration)
        ensures reported { (offers : List Offer) × IsReported self.old.program (as_nanos now)
            (report self.old.limit (as_nanos now / 1_000_000_000))
            (after_report self.old.limit (as_nanos now / 1_000_000_000)) self.new.limit offers
            × AddsOffers (W.offers self.old.writer) (W.offers self.new.writer)
            (W.accepted self.old.writer) (W.accepted self.new.writer) offers }
        ensures flushed { RefusedIf (W.answers self.old.writer) (W.answers self.new.writer)
            (1 ≤ length (W.left self.new.writer)) }
        ensures level { self.new.level ≡ self.old.level }
        ensures program { self.new.program ≡ self.old.program }
    {
        self.writer.flush();
        if let Some(count) = self.limit.report(now.as_secs()) {
            self.offer_report(now, count);
        }
    }

    /// Begins the end of the log: writes what was accepted and is not written yet, and the report of lines left out.
    /// The next line is offered too, even if the second had no more lines, so that a caller can write a last one.
    pub fn end(&mut self, now: Duration)
        ensures reported { (offers : List Offer) × IsReported self.old.program (as_nanos now)
            (last_report self.old.limit (as_nanos now / 1_000_000_000))
            (after_end self.old.limit (as_nanos now / 1_000_000_000)) self.new.limit offers
            × AddsOffers (W.offers self.old.writer) (W.offers self.new.writer)
            (W.accepted self.old.writer) (W.accepted self.new.writer) offers }
        ensures flushed { RefusedIf (W.answers self.old.writer) (W.answers self.new.writer)
            (1 ≤ length (W.left self.new.writer)) }
        ensures level { self.new.level ≡ self.old.level }
        ensures program { self.new.program ≡ self.old.program }
    {
        self.writer.flush();
        if let Some(count) = self.limit.end(now.as_secs()) {
            self.offer_report(now, count);
        }
    }

    /// Offers a report of lines left out to the writer.
    fn offer_report(&mut self, now: Duration, count: u64)
        ensures offered { (line : Offer) × IsDated self.old.program (as_nanos now) (report_text count) line.line
            × (self.new.limit ≡ limit_after count line.accepted self.old.limit)
            × AddsOffers (W.offers self.old.writer) (W.offers self.new.writer)
            (W.accepted self.old.writer) (W.accepted self.new.writer) (line ∷ []) }
        ensures flushed { RefusedIf (W.answers self.old.writer) (W.answers self.new.writer)
            (1 ≤ length (W.left self.new.writer)) }
        ensures level { self.new.level ≡ self.old.level }
        ensures program { self.new.program ≡ self.old.program }
    {
        self.offer(now, &report_line(count), count);
    }

    /// Offers a line with the time and the name of the program to the writer. If the writer does not accept it, `count`
    /// lines are left out.
    fn offer(&mut self, now: Duration, text: &Line, count: u64)
        ensures offered { (line : Offer) × IsDated self.old.program (as_nanos now) text.now line.line
            × (self.new.limit ≡ limit_after count line.accepted self.old.limit)
            × AddsOffers (W.offers self.old.writer) (W.offers self.new.writer)
            (W.accepted self.old.writer) (W.accepted self.new.writer) (line ∷ []) }
        ensures flushed { RefusedIf (W.answers self.old.writer) (W.answers self.new.writer)
            (1 ≤ length (W.left self.new.writer)) }
        ensures level { self.new.level ≡ self.old.level }
        ensures program { self.new.program ≡ self.old.program }
    {
        let line = dated(now, &self.program, text);
        if !self.writer.write(&line) {
            self.limit.miss(count);
        }
    }
}

/// Returns a text as a line with the time and the name of a program.
#[tactic(auto, using(coap_print::proofs::LineLaws::pieces))]
fn dated(now: Duration, program: &Line, text: &Line) -> Line
    ensures { IsDated program.now (as_nanos now) text.now result }
{
    let mut line = Line::new();
    append_time(&mut line, now, 3);
    line.text(" ");
    line.line(program);
    line.text(": ");
    line.line(text);
    line
}

/// Returns the text of a report of lines left out.
#[tactic(auto, using(coap_print::proofs::LineLaws::pieces))]
fn report_line(count: u64) -> Line
    ensures { result ≡ report_text count }
{
    let mut line = Line::new();
    line.text("lines left out: ");
    line.number(count);
    line
}
