//! The program `coap-explain`: prints a record of `coap-server` or `coap-directory` with the meaning of each line.
//!
//! The function `coap_command_line::explain_words` defines its arguments. The program reads the record line by
//! line, and runs each event on a `Server` with the options of the record. It prints the event and the messages
//! that it passes.
#![tactic(auto)]

ghost use Rattle.std.specs.Prelude.{◌≡◌, ◌≤◌, false};
ghost use Rattle.program_explain.specs.Statuses.{trouble_status};

mod explainer;
mod header;
mod layout;
mod messages;
mod printer;
mod record;
mod trouble;

use coap_command_line::{ExplainPlan, explain_reason, explain_words};
use coap_io::{ReadSource, Source, WriteOutlet};
use coap_record::BufferedOutlet;
use header::options_reason;
use printer::Printer;
use program_common::{ENDED, FAULT, FileError, Program, USAGE, occupy_standard_descriptors};
use record::{Record, read_record};
use std::process::ExitCode;
use std::rt::{Env, Files};
use std::{fs, io};
use trouble::{LONGEST_LINE, Trouble};

/// Name of the program, for its messages.
const PROGRAM: Program = Program {
    name: "coap-explain",
};

/// Size of the buffer of standard output, in bytes.
const BUFFER: usize = 65_536;

/// Reports a line of the record that is no event, and returns the exit status.
fn print_bad_line(rt: &impl Eprint, number: u64) -> u8
    ensures { result ≡ 1 }
{
    PROGRAM.print_fault(rt, format_args!("bad script line {number}"), USAGE)
}

/// Reports options of the record that the server does not have, and returns the exit status.
fn print_bad_options(rt: &(impl Eprint + AllocGlobal), number: u64, line: &[u8]) -> u8
    ensures { result ≡ 1 }
{
    let status = PROGRAM.print_fault(rt, format_args!("bad options in line {number}"), USAGE);
    match options_reason(rt.alloc(), line) {
        Some(reason) => PROGRAM.print_fault(rt, reason.as_str(), status),
        None => status,
    }
}

/// Reports an error, and returns the exit status. `line` is the last line that was read.
fn print_trouble(rt: &(impl Eprint + AllocGlobal), trouble: Trouble, line: &[u8]) -> u8
    ensures status { result ≡ trouble_status trouble }
    ensures within { result ≤ 3 }
{
    match trouble {
        Trouble::Read => PROGRAM.print_fault(rt, "cannot read", FAULT),
        Trouble::Write => PROGRAM.print_fault(rt, "cannot write", FAULT),
        Trouble::Memory => PROGRAM.print_fault(rt, "no memory", FAULT),
        Trouble::NoEvent(number) => print_bad_line(rt, number),
        Trouble::TooLong(number) => {
            let status = print_bad_line(rt, number);
            PROGRAM.print_fault(
                rt,
                format_args!("the line has more than {LONGEST_LINE} bytes"),
                status,
            )
        }
        Trouble::Torn(number) => {
            let status = print_bad_line(rt, number);
            PROGRAM.print_fault(rt, "the last line has no newline", status)
        }
        Trouble::Options(number) => print_bad_options(rt, number, line),
    }
}

/// Explains the record in a source, and returns the exit status.
fn run_over<S: Source + Drop>(
    rt: &(impl Print + Eprint + AllocGlobal),
    mut source: S,
    plan: &ExplainPlan,
) -> u8
    requires { S.is_failed source ≡ false }
    ensures { result ≤ 3 }
{
    let out = WriteOutlet::new(io::writer(rt));
    let Ok(out) = BufferedOutlet::new(rt.alloc(), out, BUFFER) else {
        return PROGRAM.print_fault(rt, "no memory", FAULT);
    };
    let Ok(mut record) = Record::new(rt.alloc(), Printer::new(out, plan.connection)) else {
        return PROGRAM.print_fault(rt, "no memory", FAULT);
    };
    match read_record(&mut source, &mut record) {
        Ok(()) => ENDED,
        Err(trouble) => print_trouble(rt, trouble, record.line()),
    }
}

/// Explains the record that a plan names, and returns the exit status.
fn run(rt: &(impl Input + Print + Eprint + Files + AllocGlobal), plan: &ExplainPlan) -> u8
    ensures { result ≤ 3 }
{
    let name = plan.file.as_str();
    if name == "-" {
        return run_over(rt, ReadSource::new(rt.reader()), plan);
    }
    match fs::open(rt, name) {
        Ok(file) => run_over(rt, ReadSource::new(file), plan),
        Err(fault) => match FileError::of_opening(&fault) {
            FileError::Memory => PROGRAM.print_fault(rt, "no memory", FAULT),
            _ => PROGRAM.print_fault(rt, format_args!("cannot open {name}"), FAULT),
        },
    }
}

/// Runs the program with its arguments, and returns the exit status.
fn start(rt: &(impl Input + Print + Eprint + Env + Files + AllocGlobal)) -> u8
    ensures { result ≤ 3 }
{
    let words = match PROGRAM.words(rt) {
        Ok(words) => words,
        Err(exit) => return exit.status,
    };
    match explain_words(rt.alloc(), &words) {
        Ok(plan) => run(rt, &plan),
        Err(fault) => {
            let reason = explain_reason(rt.alloc(), &words, &fault).unwrap_or(None);
            PROGRAM.refuse(rt, &fault, reason.as_ref())
        }
    }
}

fn main(rt: HostRuntime) -> ExitCode {
    let _files = occupy_standard_descriptors(&rt);
    ExitCode::from(start(&rt))
}
