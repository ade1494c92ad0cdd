//! `Printer`, which writes the lines of an explanation.

ghost use Rattle.std.specs.Prelude.{◌≡◌, ◌≢◌, false, [], ◌∷◌, Some, None, is_err, OnOk};
ghost use Rattle.coap_io.specs.Prelude.{AddsBytes};
ghost use Rattle.coap_record.specs.Prelude.{WritesText};
ghost use Rattle.program_explain.specs.Shown.{IsShown, ended};
ghost use Rattle.program_explain.specs.Printed.{Prints, PrintsTo, Text, Time, listed, time_lines};

use crate::layout::time_line;
use coap_io::{Outlet, WriteFailed, write_parts};
use coap_model::ConnId;
use coap_print::Line;
use coap_record::BufferedOutlet;

/// Line of an explanation.
#[derive(Drop)]
pub(crate) enum OutputLine {
    /// Line about a connection, or about none.
    Text(Option<ConnId>, Line),
    /// Line of a time in seconds.
    Time(u64),
}

/// Printer of the lines of all connections, or of one.
///
/// If only the lines of one connection are printed, the time is printed before such a line, if it has changed since the
/// last one.
#[derive(Drop)]
pub(crate) struct Printer<O> {
    out: O,
    only: Option<ConnId>,
    /// Time that was not printed yet.
    time: Option<u64>,
}

impl<O: Outlet> Printer<O> {
    /// Creates a printer of all lines, or of those of one connection.
    pub(crate) fn new(out: O, only: Option<ConnId>) -> Printer<O>
        ensures { result ≡ record { out = out; only = only; time = None } }
    {
        Printer {
            out,
            only,
            time: None,
        }
    }

    /// Prints a line, if there is one.
    ///
    /// # Errors
    ///
    /// - `WriteFailed`: a write failed.
    pub(crate) fn show_line(&mut self, line: &Option<OutputLine>) -> Result<(), WriteFailed>
        requires { O.is_failed self.old.out ≡ false }
        ensures prints { OnOk result (Prints O.written self.old self.new (listed line.now)) }
        ensures shown { IsShown (O.written self.old.out) → IsShown (O.written self.new.out) }
        ensures failure { O.is_failed self.new.out ≡ is_err result }
    {
        match line {
            Some(OutputLine::Text(id, text)) => self.show(*id, text),
            Some(OutputLine::Time(seconds)) => self.show_time(*seconds),
            None => Ok(()),
        }
    }

    /// Prints a line about a connection, or about none.
    ///
    /// # Errors
    ///
    /// - `WriteFailed`: a write failed.
    pub(crate) fn show(&mut self, id: Option<ConnId>, line: &Line) -> Result<(), WriteFailed>
        requires { O.is_failed self.old.out ≡ false }
        ensures prints { OnOk result (Prints O.written self.old self.new (Text id line.now ∷ [])) }
        ensures all { self.old.only ≡ None →
            WritesText (O.written self.old.out) (O.written self.new.out) (ended line.now) result }
        ensures other { self.old.only ≢ None → id ≢ self.old.only → self.new ≡ self.old }
        ensures shown { IsShown (O.written self.old.out) → IsShown (O.written self.new.out) }
        ensures only { self.new.only ≡ self.old.only }
        ensures failure { O.is_failed self.new.out ≡ is_err result }
    {
        if self.only.is_none() {
            return self.print(line);
        }
        if id != self.only {
            return Ok(());
        }
        self.print_time()?;
        self.print(line)
    }

    /// Prints the time of the server, or keeps it if only the lines of one connection are printed.
    ///
    /// # Errors
    ///
    /// - `WriteFailed`: a write failed.
    pub(crate) fn show_time(&mut self, seconds: u64) -> Result<(), WriteFailed>
        requires { O.is_failed self.old.out ≡ false }
        ensures prints { OnOk result (Prints O.written self.old self.new (Time seconds ∷ [])) }
        ensures shown { IsShown (O.written self.old.out) → IsShown (O.written self.new.out) }
        ensures kept { self.old.only ≢ None → self.new ≡ record self.old { time = Some seconds } }
        ensures only { self.new.only ≡ self.old.only }
        ensures failure { O.is_failed self.new.out ≡ is_err result }
    {
        if self.only.is_some() {
            self.time = Some(seconds);
            return Ok(());
        }
        self.print(&time_line(seconds))
    }

    /// Prints the time that was not printed yet.
    fn print_time(&mut self) -> Result<(), WriteFailed>
        requires { O.is_failed self.old.out ≡ false }
        ensures shown { IsShown (O.written self.old.out) → IsShown (O.written self.new.out) }
        ensures prints { OnOk result (PrintsTo None None (time_lines self.old.time) (O.written self.old.out)
            (O.written self.new.out) None) }
        ensures none { self.new.time ≡ None }
        ensures only { self.new.only ≡ self.old.only }
        ensures failure { O.is_failed self.new.out ≡ is_err result }
    {
        let Some(seconds) = self.time else {
            return Ok(());
        };
        self.time = None;
        self.print(&time_line(seconds))
    }

    /// Prints a line.
    fn print(&mut self, line: &Line) -> Result<(), WriteFailed>
        requires { O.is_failed self.old.out ≡ false }
        ensures text { WritesText (O.written self.old.out) (O.written self.new.out) (ended line.now) result }
        ensures shown { IsShown (O.written self.old.out) → IsShown (O.written self.new.out) }
        ensures only { self.new.only ≡ self.old.only }
        ensures time { self.new.time ≡ self.old.time }
        ensures failure { O.is_failed self.new.out ≡ is_err result }
    {
        write_parts(&mut self.out, line.as_bytes(), b"\n")
    }
}

impl<O: Outlet + Drop> Printer<BufferedOutlet<O>> {
    /// Passes all lines on that wait in the buffer.
    ///
    /// # Errors
    ///
    /// - `WriteFailed`: a write failed.
    pub(crate) fn flush(&mut self) -> Result<(), WriteFailed>
        requires { O.is_failed self.old.out.outlet ≡ false }
        ensures shown { IsShown (⟦<BufferedOutlet<O> as Outlet>⟧.written self.old.out) →
            IsShown (⟦<BufferedOutlet<O> as Outlet>⟧.written self.new.out) }
        ensures passed { OnOk result (self.new.out.queue.waiting ≡ []) }
        ensures failure { O.is_failed self.new.out.outlet ≡ is_err result }
    {
        self.out.flush()
    }
}
