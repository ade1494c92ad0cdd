//! `Record`, which explains the lines of a record as its bytes come.

ghost use Rattle.std.specs.Prelude.{◌≡◌, ◌<◌, ◌≤◌, ◌+◌, ◌++◌, ◌==◌, ◌⊎◌, [], true, false, Err, is_ok, length, map};
ghost use Rattle.std.specs.Prelude.{vec_capacity, OnOk, IfOk, IfErr};
ghost use Rattle.coap_script.specs.script.EventViews.{event_value, IsScript};
ghost use Rattle.coap_server_engine.specs.script.Replay.{replayed};
ghost use Rattle.coap_model.specs.Configs.{ConfigValues};
ghost use Rattle.program_server_common.specs.RecordHeaders.{options_line};
ghost use Rattle.program_explain.specs.Records.{PrintsEvents, lines_at_start};
ghost use Rattle.program_explain.specs.Explanations.{ExplainsEvents};
ghost use Rattle.program_explain.specs.Printed.{Prints};
ghost use Rattle.program_explain.specs.Shown.{IsShown, fails_write};
ghost use Rattle.program_explain.specs.Stated.{IsReadAs, IsStartable, replay_config};
ghost use Rattle.program_explain.specs.Header.{options_in};
ghost use Rattle.program_explain.specs.Records.{next_number, whole_line, RunsEvents, IsConfiguredBy, IsTrueOf};
ghost use Rattle.program_explain.specs.Records.{IsOfDevice};
ghost use Rattle.program_explain.specs.declared.trouble.TheConstants.{LONGEST_LINE};
ghost use Rattle.program_explain.specs.declared.trouble.Trouble.TheVariants as trouble;

use crate::explainer::Explainer;
use crate::header::{OptionsFault, config_of_options, default_config, options_in};
use crate::layout::comment_line;
use crate::printer::Printer;
use crate::trouble::{LONGEST_LINE, Trouble};
use coap_io::{Outlet, Source};
use coap_record::BufferedOutlet;
use coap_script::{Event, ScriptFault, script};
use coap_text::split_once;
use std::alloc::{AllocError, Global};

/// Maximum number of bytes of one read.
const PIECE: usize = 16_384;

/// Record that is explained: its lines so far, and the line whose newline is missing.
#[derive(Drop)]
pub(crate) struct Record<O> {
    alloc: Global,
    explainer: Explainer<O>,
    /// Bytes of the present line.
    line: Vec<u8>,
    /// Number of whole lines.
    lines: u64,
    /// `true` if the options of the server are known, by a line or because an event came.
    is_configured: bool,
    /// `true` if an event came.
    has_begun: bool,
    ghost room: { LONGEST_LINE + 1 ≤ vec_capacity line },
    ghost fits: { length line.items ≤ LONGEST_LINE },
}

impl<O: Outlet + Drop> Record<O> {
    /// Creates a record without lines. The memory for a line is reserved once.
    ///
    /// # Errors
    ///
    /// Returns `AllocError` if allocation fails.
    pub(crate) fn new(alloc: Global, printer: Printer<O>) -> Result<Record<O>, AllocError>
        ensures printer { IfOk result (λ r. r.explainer.printer ≡ printer) }
        ensures line { IfOk result (λ r. r.line.items ≡ []) }
        ensures lines { IfOk result (λ r. r.lines ≡ 0) }
        ensures options { IfOk result (λ r. r.is_configured ≡ false) }
    {
        Ok(Record {
            alloc,
            line: Vec::with_capacity(alloc, LONGEST_LINE + 1)?,
            explainer: Explainer::new(alloc, printer, default_config(alloc)?)?,
            lines: 0,
            is_configured: false,
            has_begun: false,
        })
    }

    /// Returns the bytes of the present line.
    pub(crate) fn line(&self) -> &[u8]
        ensures { result.now ≡ self.now.line.items }
    {
        &self.line
    }

    /// Explains the lines that end with these bytes.
    ///
    /// # Errors
    ///
    /// - `Write`: a write failed.
    /// - `Memory`: an allocation failed.
    /// - `NoEvent`, `TooLong`, `Options`: a line is invalid. The lines before it were explained.
    pub(crate) fn take(&mut self, piece: &[u8]) -> Result<(), Trouble>
        requires { O.is_failed self.old.explainer.printer.out ≡ false }
        ensures shown { IsShown (O.written self.old.explainer.printer.out) →
            IsShown (O.written self.new.explainer.printer.out) }
        ensures failure { O.is_failed self.new.explainer.printer.out ≡ fails_write result }
    {
        let mut left = piece;
        while let Some((front, rest)) = split_once(left, b'\n') {
            self.append(front)?;
            self.explain_line()?;
            self.next_line();
            left = rest;
        }
        self.append(left)
    }

    /// Ends the record. Its last line must have a newline.
    ///
    /// # Errors
    ///
    /// - `Torn`: the last line has no newline.
    pub(crate) fn end(&self) -> Result<(), Trouble>
        ensures whole { is_ok result ≡ (length self.now.line.items == 0) }
        ensures torn { IfErr result (λ t. t ≡ trouble.Torn (next_number self.now.lines)) }
    {
        if self.line.is_empty() {
            Ok(())
        } else {
            Err(Trouble::Torn(self.number()))
        }
    }

    /// Returns the number of the present line, from 1.
    fn number(&self) -> u64
        ensures { result ≡ next_number self.now.lines }
    {
        self.lines.saturating_add(1)
    }

    /// Appends bytes to the present line.
    ///
    /// # Errors
    ///
    /// - `TooLong`: the line would have more than `LONGEST_LINE` bytes.
    fn append(&mut self, bytes: &[u8]) -> Result<(), Trouble>
        ensures ok { OnOk result (self.new.line.items ≡ self.old.line.items ++ bytes.now) }
        ensures long { IfErr result (λ t. (t ≡ trouble.TooLong (next_number self.old.lines))
            × (LONGEST_LINE < length self.old.line.items + length bytes.now)) }
        ensures explainer { self.new.explainer ≡ self.old.explainer }
        ensures lines { self.new.lines ≡ self.old.lines }
        ensures options { self.new.is_configured ≡ self.old.is_configured }
    {
        if bytes.len() > LONGEST_LINE - self.line.len() {
            return Err(Trouble::TooLong(self.number()));
        }
        let Ok(()) = self.line.extend_from_slice(bytes) else {
            unreachable!()
        };
        Ok(())
    }

    /// Begins the next line.
    fn next_line(&mut self)
        ensures line { self.new.line.items ≡ [] }
        ensures lines { self.new.lines ≡ next_number self.old.lines }
        ensures explainer { self.new.explainer ≡ self.old.explainer }
        ensures options { self.new.is_configured ≡ self.old.is_configured }
    {
        self.line.clear();
        self.lines = self.number();
    }

    /// Explains the present line.
    ///
    /// # Errors
    ///
    /// - `Write`: a write failed.
    /// - `Memory`: an allocation failed.
    /// - `NoEvent`, `Options`: the line is invalid.
    fn explain_line(&mut self) -> Result<(), Trouble>
        requires { O.is_failed self.old.explainer.printer.out ≡ false }
        ensures shown { IsShown (O.written self.old.explainer.printer.out) →
            IsShown (O.written self.new.explainer.printer.out) }
        ensures failure { O.is_failed self.new.explainer.printer.out ≡ fails_write result }
        ensures err { IfErr result (IsTrueOf self.old.line.items) }
    {
        match self.line.as_slice() {
            [] => self.show_comment(),
            [b'#', ..] => {
                self.configure()?;
                self.show_comment()
            }
            _ => self.explain_event(),
        }
    }

    /// Prints the present line as it is.
    ///
    /// # Errors
    ///
    /// - `Write`: a write failed.
    fn show_comment(&mut self) -> Result<(), Trouble>
        requires { O.is_failed self.old.explainer.printer.out ≡ false }
        ensures server { self.new.explainer.server ≡ self.old.explainer.server }
        ensures shown { IsShown (O.written self.old.explainer.printer.out) →
            IsShown (O.written self.new.explainer.printer.out) }
        ensures failure { O.is_failed self.new.explainer.printer.out ≡ fails_write result }
        ensures err { IfErr result (λ t. t ≡ trouble.Write) }
    {
        self.explainer.show_comment(&comment_line(&self.line))
    }

    /// Gives the server the options of the present line, if it is the first line with options and no event came before.
    ///
    /// # Errors
    ///
    /// - `Options`: the server does not have these options.
    /// - `Memory`: an allocation failed.
    fn configure(&mut self) -> Result<(), Trouble>
        ensures server { OnOk result (IsConfiguredBy self.old.is_configured (options_in self.old.line.items)
            self.old.explainer.server self.new.explainer.server) }
        ensures printer { self.new.explainer.printer ≡ self.old.explainer.printer }
        ensures line { self.new.line.items ≡ self.old.line.items }
        // The options that a record of `coap-server` states are read back.
        ensures stated { (c : ConfigValues) → IsStartable c → self.old.is_configured ≡ false →
            self.old.line.items ≡ options_line c → IsReadAs (replay_config c) self.new.explainer.server result }
        ensures no_write { fails_write result ≡ false }
        ensures err { IfErr result (IsTrueOf self.old.line.items) }
    {
        if self.is_configured {
            return Ok(());
        }
        let Some(options) = options_in(&self.line) else {
            return Ok(());
        };
        let config = match config_of_options(self.alloc, options) {
            Ok(config) => config,
            Err(OptionsFault::Refused) => return Err(Trouble::Options(self.number())),
            Err(OptionsFault::Memory) => return Err(Trouble::Memory),
        };
        self.explainer.configure(config)?;
        self.is_configured = true;
        Ok(())
    }

    /// Runs the event of the present line.
    ///
    /// # Errors
    ///
    /// - `Write`: a write failed.
    /// - `Memory`: an allocation failed.
    /// - `NoEvent`: the line is no event.
    fn explain_event(&mut self) -> Result<(), Trouble>
        requires { O.is_failed self.old.explainer.printer.out ≡ false }
        ensures server { OnOk result (RunsEvents self.old.line.items self.old.explainer.server
            self.new.explainer.server) }
        ensures prints { OnOk result (PrintsEvents O.written self.old.has_begun self.old.line.items self.old.explainer
            self.new.explainer) }
        ensures begun { OnOk result (self.new.is_configured ≡ true) }
        ensures shown { IsShown (O.written self.old.explainer.printer.out) →
            IsShown (O.written self.new.explainer.printer.out) }
        ensures failure { O.is_failed self.new.explainer.printer.out ≡ fails_write result }
        ensures err { IfErr result (IsTrueOf self.old.line.items) }
    {
        let events = match self.events() {
            Ok(events) => events,
            Err(ScriptFault::Line(_)) => return Err(Trouble::NoEvent(self.number())),
            Err(ScriptFault::Memory) => return Err(Trouble::Memory),
        };
        self.begin()?;
        self.explain_events(&events)
    }

    /// Returns the events of the present line: one, if the line is valid.
    ///
    /// # Errors
    ///
    /// - `Line`: the line is no event.
    /// - `Memory`: an allocation failed.
    fn events(&mut self) -> Result<Vec<Event>, ScriptFault>
        ensures script { IsScript (whole_line self.old.line.items) result }
        ensures line { self.new.line.items ≡ self.old.line.items }
        ensures begun { self.new.has_begun ≡ self.old.has_begun }
        ensures explainer { self.new.explainer ≡ self.old.explainer }
        ensures lines { self.new.lines ≡ self.old.lines }
    {
        let Ok(()) = self.line.push(b'\n') else {
            unreachable!()
        };
        let events = script(self.alloc, &self.line);
        let _newline = self.line.pop();
        events
    }

    /// Begins with the events, if none came before.
    ///
    /// # Errors
    ///
    /// - `Write`: a write failed.
    fn begin(&mut self) -> Result<(), Trouble>
        requires { O.is_failed self.old.explainer.printer.out ≡ false }
        ensures server { self.new.explainer.server ≡ self.old.explainer.server }
        ensures prints { OnOk result (Prints O.written self.old.explainer.printer self.new.explainer.printer
            (lines_at_start self.old.has_begun self.old.explainer.server)) }
        ensures messages { self.new.explainer.connections ≡ self.old.explainer.connections }
        ensures begun { OnOk result (self.new.is_configured ≡ true) }
        ensures line { self.new.line.items ≡ self.old.line.items }
        ensures shown { IsShown (O.written self.old.explainer.printer.out) →
            IsShown (O.written self.new.explainer.printer.out) }
        ensures failure { O.is_failed self.new.explainer.printer.out ≡ fails_write result }
        ensures err { IfErr result (λ t. t ≡ trouble.Write) }
    {
        self.is_configured = true;
        if self.has_begun {
            return Ok(());
        }
        self.explainer.begin()?;
        self.has_begun = true;
        Ok(())
    }

    /// Runs events in order.
    ///
    /// # Errors
    ///
    /// - `Write`: a write failed.
    /// - `Memory`: an allocation failed.
    fn explain_events(&mut self, events: &[Event]) -> Result<(), Trouble>
        requires { O.is_failed self.old.explainer.printer.out ≡ false }
        ensures server { OnOk result (self.new.explainer.server
            ≡ (replayed self.old.explainer.server (map event_value events.now)).server) }
        ensures prints { OnOk result (ExplainsEvents O.written self.old.explainer self.new.explainer
            self.old.line.items (map event_value events.now) []) }
        ensures options { self.new.is_configured ≡ self.old.is_configured }
        ensures shown { IsShown (O.written self.old.explainer.printer.out) →
            IsShown (O.written self.new.explainer.printer.out) }
        ensures failure { O.is_failed self.new.explainer.printer.out ≡ fails_write result }
        ensures err { IfErr result IsOfDevice }
    {
        let mut left = events;
        while let Some((event, rest)) = left.split_first() {
            self.explainer.explain(event, &self.line)?;
            left = rest;
        }
        Ok(())
    }
}

/// Explains all lines of a source. Lines that were explained are written before each read, and also if an
/// error follows.
///
/// # Errors
///
/// - `Read`: a read failed.
/// - `Write`: a write failed.
/// - `Memory`: an allocation failed.
/// - `NoEvent`, `TooLong`, `Torn`, `Options`: a line is invalid. The lines before it were explained.
pub(crate) fn read_record<S: Source, O: Outlet + Drop>(
    source: &mut S,
    explained: &mut Record<BufferedOutlet<O>>,
) -> Result<(), Trouble>
    requires source { S.is_failed source.old ≡ false }
    requires works { O.is_failed explained.old.explainer.printer.out.outlet ≡ false }
    ensures shown { IsShown (⟦<BufferedOutlet<O> as Outlet>⟧.written explained.old.explainer.printer.out) →
        IsShown (⟦<BufferedOutlet<O> as Outlet>⟧.written explained.new.explainer.printer.out) }
    ensures failure { O.is_failed explained.new.explainer.printer.out.outlet ≡ fails_write result }
    ensures passed { fails_write result ≡ false → explained.new.explainer.printer.out.queue.waiting ≡ [] }
    ensures read { S.is_failed source.new ≡ true → (result ≡ Err trouble.Read) ⊎ (result ≡ Err trouble.Write) }
{
    let result = read_lines(source, explained);
    if result != Err(Trouble::Write) {
        explained.explainer.flush()?;
    }
    result
}

/// Explains all lines of a source.
///
/// # Errors
///
/// Those of `read_record`.
fn read_lines<S: Source, O: Outlet + Drop>(
    source: &mut S,
    explained: &mut Record<BufferedOutlet<O>>,
) -> Result<(), Trouble>
    requires source { S.is_failed source.old ≡ false }
    requires works { O.is_failed explained.old.explainer.printer.out.outlet ≡ false }
    ensures shown { IsShown (⟦<BufferedOutlet<O> as Outlet>⟧.written explained.old.explainer.printer.out) →
        IsShown (⟦<BufferedOutlet<O> as Outlet>⟧.written explained.new.explainer.printer.out) }
    ensures failure { O.is_failed explained.new.explainer.printer.out.outlet ≡ fails_write result }
    ensures read { S.is_failed source.new ≡ true → result ≡ Err trouble.Read }
{
    let mut buffer = [0; PIECE];
    for _ in 0..u64::MAX {
        explained.explainer.flush()?;
        let Some(count) = source.read(&mut buffer) else {
            return Err(Trouble::Read);
        };
        if count == 0 {
            return explained.end();
        }
        explained.take(&buffer[..count])?;
    }
    Err(Trouble::Read)
}
