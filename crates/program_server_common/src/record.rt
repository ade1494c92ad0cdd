//! The record of a server: its file, its header, and the report of its end.

ghost use Rattle.std.specs.Prelude.{◌≡◌, [], map, true, Some, OnOk, IfOk, IfErr, IfSome};
ghost use Rattle.std.specs.List.{flat_map};
ghost use Rattle.coap_command_line.specs.declared.arguments.tables.TheConstants.{VERSION};
ghost use Rattle.coap_print.specs.Lines.{appended};
ghost use Rattle.coap_print.specs.Texts.{is_text};
ghost use Rattle.coap_print.specs.declared.line.TheConstants.{LINE_LENGTH};
ghost use Rattle.coap_record.specs.Prelude.{FollowsMore};
ghost use Rattle.program_server_common.specs.RecordEnds.{end_text, front_text, title_text};
ghost use Rattle.program_server_common.specs.RecordHeaders.{header_text};

use crate::header::header;
use coap_io::{Outlet, WriteOutlet};
use coap_log::{LineWriter, LogWriter, Stderr};
use coap_model::{Config, ConnId};
use coap_print::Line;
use coap_record::{BufferedOutlet, NotedOutlet, Recorder};
use coap_server_engine::{Call, Monitor, Server};
use coap_text::is_hyphen;
use program_common::{FAULT, FileError, Program};
use std::alloc::{AllocError, Global};
use std::fs::OpenOptions;
use std::io;
use std::io::{Error, ErrorKind, Printer, Write};
use std::os::unix::fs::OpenOptionsExt;
use std::rt::Files;

/// Number of bytes of the buffer of a record.
const BUFFER: usize = 65_536;

/// Permissions of the file of a record: its owner may read and write it.
const PERMISSIONS: u32 = 0o600;

/// Writer of a record.
#[derive(Drop)]
pub enum RecordWriter<F, O> {
    /// File that was created for the record.
    File(F),
    /// Standard output.
    Output(O),
}

impl<F: Write, O: Write> Write for RecordWriter<F, O> {
    ghost use Rattle.program_server_common.specs.declared.record.RecordWriter.TheVariants.{File, Output};

    ghost contents = { elim [ File f ↦ F.contents f | Output o ↦ O.contents o ] };

    fn write(&mut self, bytes: &[u8]) -> io::Result<usize> {
        match self {
            RecordWriter::File(file) => file.write(bytes),
            RecordWriter::Output(output) => output.write(bytes),
        }
    }

    fn flush(&mut self) -> io::Result<()> {
        match self {
            RecordWriter::File(file) => file.flush(),
            RecordWriter::Output(output) => output.flush(),
        }
    }
}

/// Outlet of the record of a program with this runtime, which keeps the bytes that it passes on.
pub type RecordOutlet<'a, R> = NotedOutlet<
    WriteOutlet<RecordWriter<<R as Files>::File, Printer<'a, R>>>,
>;

/// Record of a server, which writes a line for each call that the server accepts. If it has ended, because a write
/// failed or its limit is reached, it reports that once, and ignores all further calls.
#[derive(Drop)]
pub struct ServerRecord<'a, O> {
    recorder: Recorder<O>,
    /// Name of the program.
    program: &'a str,
    name: &'a str,
    limit: u64,
    /// `true` if the end of the record was reported.
    is_reported: bool,
    errors: LineWriter<Stderr>,
}

/// Creates the file of a record with this name, or takes standard output if the name is `-`. The record ends when it
/// has `limit` bytes. The result is `None` without a name.
///
/// # Errors
///
/// The exit status of the program. The error was written to standard error. A file that exists is left as it is.
pub fn open_record<'a, R: Files + Print + Eprint + AllocGlobal>(
    rt: &'a R,
    program: &Program<'a>,
    name: Option<&'a str>,
    limit: u64,
) -> Result<Option<ServerRecord<'a, RecordOutlet<'a, R>>>, u8>
    ensures err { IfErr result (λ status. status ≡ 3) }
    ensures empty { IfOk result (λ found. IfSome found (λ r.
        ⟦<Recorder<RecordOutlet<'a, R>> as Monitor<()>>⟧.follows r.recorder [] [])) }
{
    let Some(name) = name else {
        return Ok(None);
    };
    let writer = match create(rt, name) {
        Ok(writer) => writer,
        Err(error) => return Err(print_open_fault(rt, program, name, &error)),
    };
    let outlet = NotedOutlet::new(WriteOutlet::new(writer));
    match ServerRecord::new(rt.alloc(), outlet, program.name, name, limit) {
        Ok(record) => Ok(Some(record)),
        Err(_) => Err(program.print_fault(rt, "no memory", FAULT)),
    }
}

/// Creates the file with this name, which must not exist, or takes standard output if the name is `-`.
fn create<'a, R: Files + Print>(
    rt: &'a R,
    name: &str,
) -> io::Result<RecordWriter<R::File, Printer<'a, R>>> {
    if is_hyphen(name.as_bytes()) {
        return Ok(RecordWriter::Output(io::writer(rt)));
    }
    let file = OpenOptions::new()
        .write(true)
        .create_new(true)
        .mode(PERMISSIONS)
        .open(rt, name)?;
    Ok(RecordWriter::File(file))
}

/// Reports that the program cannot create the file of a record, with the reason and a remedy, and returns the exit
/// status.
fn print_open_fault(rt: &impl Eprint, program: &Program, name: &str, error: &Error) -> u8
    ensures { result ≡ 3 }
{
    let FileError::Open = FileError::of_opening(error) else {
        return program.print_fault(rt, "no memory", FAULT);
    };
    let status = program.print_fault(rt, format_args!("cannot open {name}"), FAULT);
    match error.kind() {
        ErrorKind::AlreadyExists => program.print_fault(
            rt,
            format_args!("{name} exists already; choose another name"),
            status,
        ),
        ErrorKind::PermissionDenied => program.print_fault(
            rt,
            format_args!(
                "permission denied for {name}; choose a directory in which you may create files"
            ),
            status,
        ),
        ErrorKind::NotFound => program.print_fault(
            rt,
            format_args!("no such directory for {name}; create it or choose another name"),
            status,
        ),
        _ => program.print_fault(rt, format_args!("{name}: {error}"), status),
    }
}

impl<'a, O: Outlet + Drop> ServerRecord<'a, O> {
    /// Returns a record without a header that ends when it has `limit` bytes.
    ///
    /// # Errors
    ///
    /// Returns `AllocError` if allocation fails.
    fn new(
        alloc: Global,
        outlet: O,
        program: &'a str,
        name: &'a str,
        limit: u64,
    ) -> Result<ServerRecord<'a, O>, AllocError>
        // If the outlet has no bytes so far, the record is one of no header and no calls.
        ensures empty { IfOk result (λ r. O.written outlet ≡ Some [] →
            ⟦<Recorder<O> as Monitor<()>>⟧.follows r.recorder [] []) }
        ensures name { IfOk result (λ r. r.name.now ≡ name.now) }
    {
        let outlet = BufferedOutlet::new(alloc, outlet, BUFFER)?;
        Ok(ServerRecord {
            recorder: Recorder::new(outlet, limit),
            program,
            name,
            limit,
            is_reported: false,
            errors: LineWriter::new(Stderr::new()),
        })
    }

    /// Writes the header for a server with this configuration, whose application answers these entries. The lines
    /// of calls follow.
    ///
    /// # Errors
    ///
    /// Returns `AllocError` if allocation fails.
    ///
    /// # Preconditions
    ///
    /// The name of the program and the entries are printable ASCII.
    #[tactic(auto, unfolding(coap_record::specs::Prelude::FollowsMore))]
    pub fn begin(
        &mut self,
        alloc: Global,
        program: &Program,
        config: &Config,
        entries: &[&str],
    ) -> Result<(), AllocError>
        requires name { is_text program.now.name.now ≡ true }
        requires entries { is_text (flat_map (λ e. e.now) entries.now) ≡ true }
        ensures header { OnOk result (⟦<Recorder<O> as Monitor<()>>⟧.follows self.old.recorder [] [] →
            ⟦<Recorder<O> as Monitor<()>>⟧.follows self.new.recorder
            (header_text program.now.name.now VERSION.now self.old.name.now config.now
            (map (λ e. e.now) entries.now)) []) }
    {
        let text = header(alloc, program.name, self.name, config, entries)?;
        self.recorder.write_header(text.as_slice());
        self.pass_on();
        Ok(())
    }

    /// Passes the lines on that wait in the buffer, and reports the end of the record if it has ended.
    fn pass_on(&mut self)
        ensures follows { FollowsMore (⟦<Recorder<O> as Monitor<()>>⟧.follows self.old.recorder)
            (⟦<Recorder<O> as Monitor<()>>⟧.follows self.new.recorder) [] }
        ensures passed { ⟦<Recorder<O> as Monitor<()>>⟧.has_passed self.new.recorder }
    {
        Monitor::<()>::turn_ended(&mut self.recorder);
        if self.recorder.has_ended() {
            self.report();
        }
    }

    /// Reports the end of the record once, as soon as standard error accepts the line.
    fn report(&mut self)
        ensures { self.new.recorder ≡ self.old.recorder }
    {
        if self.is_reported {
            self.errors.flush();
            return;
        }
        let line = end_line(
            self.program,
            self.name,
            self.limit,
            self.recorder.has_failed(),
        );
        self.is_reported = self.errors.write(&line);
    }
}

/// Returns the first words of the line that reports the end of a record.
#[tactic(auto, using(coap_print::proofs::LineLaws::pieces))]
fn front(program: &str) -> Line
    ensures { result ≡ appended LINE_LENGTH [] (front_text program.now) }
{
    let mut line = Line::new();
    line.escaped(program.as_bytes());
    line.text(": record ended: ");
    line
}

/// Returns the line that reports the end of a record: a write has failed, or the record has reached the limit.
#[tactic(auto, using(coap_print::proofs::LineLaws::pieces), unfolding(crate::specs::RecordEnds::end_text))]
fn end_line(program: &str, name: &str, limit: u64, has_failed: bool) -> Line
    ensures { result ≡ appended LINE_LENGTH [] (end_text program.now name.now limit has_failed) }
{
    let mut line = front(program);
    if has_failed {
        line.text("cannot write ");
        append_title(&mut line, name);
        return line;
    }
    append_title(&mut line, name);
    line.text(" has reached ");
    line.number(limit);
    line.text(" bytes");
    line
}

/// Appends the name of a record to a line. A hyphen means standard output.
#[tactic(auto, using(coap_print::proofs::LineLaws::pieces))]
fn append_title(line: &mut Line, name: &str)
    ensures { line.new ≡ appended LINE_LENGTH line.old (title_text name.now) }
{
    if is_hyphen(name.as_bytes()) {
        line.text("standard output");
    } else {
        line.escaped(name.as_bytes());
    }
}

#[tactic(auto, unfolding(coap_record::specs::Prelude::FollowsMore))]
impl<W, O: Outlet + Drop> Monitor<W> for ServerRecord<'_, O> {
    ghost follows = { λ r start calls. ⟦<Recorder<O> as Monitor<W>>⟧.follows r.recorder start calls };

    ghost has_passed = { λ r. ⟦<Recorder<O> as Monitor<W>>⟧.has_passed r.recorder };

    fn opened(&mut self, id: ConnId, wire: &W, server: &Server) {
        self.recorder.opened(id, wire, server);
    }

    fn accepted(&mut self, call: Call<'_>, server: &Server) {
        Monitor::<W>::accepted(&mut self.recorder, call, server);
    }

    fn listens(&self) -> bool {
        Monitor::<W>::listens(&self.recorder)
    }

    fn turn_ended(&mut self) {
        self.pass_on();
    }
}
