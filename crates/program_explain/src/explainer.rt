//! `Explainer`, which runs the events of a record and prints them. `bytes` has the events that pass bytes, `events` the
//! others.

ghost use Rattle.std.specs.Prelude.{◌≡◌, ℕ, [], ◌∷◌, false, None, is_err, IfOk, IfErr, OnOk};
ghost use Rattle.coap_script.specs.script.EventViews.{event_value};
ghost use Rattle.coap_server_engine.specs.script.Replay.{event_ran};
ghost use Rattle.coap_server_engine.specs.values.Servers.{new_server};
ghost use Rattle.program_explain.specs.Header.{values_of};
ghost use Rattle.program_explain.specs.Shown.{IsShown, fails_write};
ghost use Rattle.program_explain.specs.Printed.{Prints, Text};
ghost use Rattle.program_explain.specs.Explanations.{ExplainsEvent, messages_of, passes_bytes};
ghost use Rattle.program_explain.specs.Explanations as spec;
ghost use Rattle.program_explain.specs.Records.{IsOfDevice};
ghost use Rattle.program_explain.specs.declared.trouble.Trouble.TheVariants as trouble;

mod bytes;
mod events;

use crate::header::{ReplayConfig, server_of};
use crate::messages::Followed;
use crate::printer::Printer;
use crate::trouble::Trouble;
use coap_io::{Outlet, WriteFailed};
use coap_print::Line;
use coap_record::BufferedOutlet;
use coap_script::Event;
use coap_server_engine::Server;
use events::run_event;
use indexmap::IndexMap;
use std::alloc::{AllocError, Global};

/// Server on which the events of a record run, with the messages of its connections.
///
/// Each method that runs an event leaves the server that `coap-server --script` has after it, unless an error ends the
/// explanation.
#[derive(Drop)]
pub(crate) struct Explainer<O> {
    alloc: Global,
    printer: Printer<O>,
    server: Server,
    connections: IndexMap<u64, Followed>,
}

impl<O: Outlet + Drop> Explainer<O> {
    /// Creates an explainer of events on a new server.
    ///
    /// # Errors
    ///
    /// Returns `AllocError` if allocation fails.
    pub(crate) fn new(
        alloc: Global,
        printer: Printer<O>,
        config: ReplayConfig,
    ) -> Result<Explainer<O>, AllocError>
        ensures server { IfOk result (λ e. e.server ≡ new_server (values_of config)) }
        ensures printer { IfOk result (λ e. e.printer ≡ printer) }
        ensures messages { IfOk result (λ e. (id : ℕ) → messages_of e id ≡ None) }
    {
        Ok(Explainer {
            alloc,
            printer,
            connections: IndexMap::with_capacity(alloc, config.config.connections())?,
            server: server_of(alloc, config)?,
        })
    }

    /// Replaces the server by a new one.
    ///
    /// # Errors
    ///
    /// Returns `AllocError` if allocation fails.
    pub(crate) fn configure(&mut self, config: ReplayConfig) -> Result<(), AllocError>
        ensures server { OnOk result (self.new.server ≡ new_server (values_of config)) }
        ensures printer { self.new.printer ≡ self.old.printer }
        ensures messages { self.new.connections ≡ self.old.connections }
    {
        self.server = server_of(self.alloc, config)?;
        Ok(())
    }

    /// Prints the time at which the server starts, unless it is 0.
    ///
    /// # Errors
    ///
    /// - `Write`: a write failed.
    pub(crate) fn begin(&mut self) -> Result<(), Trouble>
        requires { O.is_failed self.old.printer.out ≡ false }
        ensures prints { OnOk result (Prints O.written self.old.printer self.new.printer
            (spec.first_lines self.old.server.shared.now)) }
        ensures messages { self.new.connections ≡ self.old.connections }
        ensures server { self.new.server ≡ self.old.server }
        ensures shown { IsShown (O.written self.old.printer.out) → IsShown (O.written self.new.printer.out) }
        ensures failure { O.is_failed self.new.printer.out ≡ fails_write result }
        ensures err { IfErr result (λ t. t ≡ trouble.Write) }
    {
        let moment = self.server.moment();
        if moment > 0 {
            self.printer.show_time(moment)?;
        }
        Ok(())
    }

    /// Prints a line of the record that is no event.
    ///
    /// # Errors
    ///
    /// - `Write`: a write failed.
    pub(crate) fn show_comment(&mut self, line: &Line) -> Result<(), Trouble>
        requires { O.is_failed self.old.printer.out ≡ false }
        ensures server { self.new.server ≡ self.old.server }
        ensures prints { OnOk result (Prints O.written self.old.printer self.new.printer (Text None line.now ∷ [])) }
        ensures messages { self.new.connections ≡ self.old.connections }
        ensures shown { IsShown (O.written self.old.printer.out) → IsShown (O.written self.new.printer.out) }
        ensures failure { O.is_failed self.new.printer.out ≡ fails_write result }
        ensures err { IfErr result (λ t. t ≡ trouble.Write) }
    {
        self.printer.show(None, line)?;
        Ok(())
    }

    /// Runs an event, and prints it with the messages that it passes. `line` is the line of the script with the event.
    ///
    /// # Errors
    ///
    /// - `Write`: a write failed.
    /// - `Memory`: an allocation failed.
    pub(crate) fn explain(&mut self, event: &Event, line: &[u8]) -> Result<(), Trouble>
        requires { O.is_failed self.old.printer.out ≡ false }
        ensures explained { OnOk result (ExplainsEvent O.written self.old self.new line.now (event_value event.now)) }
        ensures server { OnOk result (self.new.server ≡ (event_ran self.old.server (event_value event.now)).server) }
        ensures shown { IsShown (O.written self.old.printer.out) → IsShown (O.written self.new.printer.out) }
        ensures failure { O.is_failed self.new.printer.out ≡ fails_write result }
        ensures err { IfErr result IsOfDevice }
    {
        match event {
            Event::In { connection, bytes } => self.receive(*connection, bytes),
            Event::Drain { connection, most } => self.send(*connection, *most),
            _ => self.run(event, line),
        }
    }

    /// Runs an event that passes no bytes, and prints its line, if it has one.
    fn run(&mut self, event: &Event, line: &[u8]) -> Result<(), Trouble>
        requires works { O.is_failed self.old.printer.out ≡ false }
        requires other { passes_bytes (event_value event.now) ≡ false }
        ensures explained { OnOk result (ExplainsEvent O.written self.old self.new line.now (event_value event.now)) }
        ensures server { OnOk result (self.new.server ≡ (event_ran self.old.server (event_value event.now)).server) }
        ensures shown { IsShown (O.written self.old.printer.out) → IsShown (O.written self.new.printer.out) }
        ensures failure { O.is_failed self.new.printer.out ≡ fails_write result }
        ensures err { IfErr result IsOfDevice }
    {
        let shown = run_event(
            self.alloc,
            &mut self.server,
            &mut self.connections,
            event,
            line,
        )?;
        self.printer.show_line(&shown)?;
        Ok(())
    }
}

impl<O: Outlet + Drop> Explainer<BufferedOutlet<O>> {
    /// Passes all lines on that wait in the buffer.
    ///
    /// # Errors
    ///
    /// - `WriteFailed`: a write failed.
    pub(crate) fn flush(&mut self) -> Result<(), WriteFailed>
        requires { O.is_failed self.old.printer.out.outlet ≡ false }
        ensures server { self.new.server ≡ self.old.server }
        ensures shown { IsShown (⟦<BufferedOutlet<O> as Outlet>⟧.written self.old.printer.out) →
            IsShown (⟦<BufferedOutlet<O> as Outlet>⟧.written self.new.printer.out) }
        ensures messages { self.new.connections ≡ self.old.connections }
        ensures passed { OnOk result (self.new.printer.out.queue.waiting ≡ []) }
        ensures failure { O.is_failed self.new.printer.out.outlet ≡ is_err result }
    {
        self.printer.flush()
    }
}
