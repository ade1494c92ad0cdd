//! The program `coap-client`: one request over a reliable transport (RFC 8323).
//!
//! The arguments are those of `coap_command_line::client_words`. The program reads the payload file of `-f`, connects
//! to the host of the URI, opens the response file of `-o`, and then runs `coap_client_engine::run_to_end`. If the
//! run has a cause for its end, a last line on standard error gives it in words.
#![tactic(auto)]

ghost use Rattle.std.specs.Prelude.{◌≡◌, ◌≤◌, IfOk, IfErr, IfSome, IfNone};
ghost use Rattle.std.specs.Str.{IsUtf8};
ghost use Rattle.coap_client_engine.specs.Prelude.{IsStatus};

mod logged;

use coap_client_engine::{ClientFault, RunEnd, explain, run_to_end};
use coap_client_request::{ClientPlan, Target};
use coap_command_line::{client_reason, client_words};
use coap_io::WriteOutlet;
use coap_print::{Line, LogLevel};
use coap_sockets::{ClientWire, ConnectError, ConnectFault};
use coap_wire::LARGEST_MESSAGE;
use logged::run_logged;
use program_common::{FAULT, FileError, Program, USAGE, occupy_standard_descriptors, read_whole};
use std::io::Write;
use std::net::Net;
use std::process::ExitCode;
use std::rt::{Env, Files};
use std::{fs, io, str, time};

/// Name of the program, for its messages.
const PROGRAM: Program = Program {
    name: "coap-client",
};

/// Reports an error with a file, and returns the exit status.
fn print_file_error(rt: &impl Eprint, trouble: FileError, name: &str) -> u8
    ensures { result ≤ 4 }
{
    match trouble {
        FileError::Open => PROGRAM.print_fault(rt, format_args!("cannot open {name}"), FAULT),
        FileError::Read => PROGRAM.print_fault(rt, "cannot read", FAULT),
        FileError::TooLong => {
            let status = PROGRAM.print_fault(rt, "bad value for -f", USAGE);
            PROGRAM.print_fault(rt, "-f takes a file of at most 1048576 bytes", status)
        }
        FileError::Memory => PROGRAM.print_fault(rt, "no memory", FAULT),
    }
}

/// Reports a failed connection, with the error for the last address that was tried, and returns the exit status.
fn report_unconnected(rt: &impl Eprint, fault: ConnectFault) -> u8
    ensures { result ≡ 3 }
{
    let status = PROGRAM.print_fault(rt, fault, FAULT);
    match fault {
        ConnectFault::Socket(hindrance) => PROGRAM.print_fault(rt, hindrance, status),
        ConnectFault::Memory => status,
    }
}

/// Creates the file for responses, or truncates it if it exists.
fn create<R: Files>(rt: &R, name: &str) -> Result<R::File, FileError> {
    match fs::create(rt, name) {
        Ok(file) => Ok(file),
        Err(fault) => Err(FileError::of_opening(&fault)),
    }
}

/// Returns the host and the port of a target, or `None` if the host is not UTF-8.
fn endpoint_of(target: &Target) -> Option<(&str, u16)>
    ensures none { IfNone result (¬ (IsUtf8 target.now.host)) }
    ensures place { IfSome result (λ place. (place.0.now ≡ target.now.host) × (place.1 ≡ target.now.port)) }
{
    match str::from_utf8(target.host()) {
        Ok(host) => Some((host, target.port())),
        Err(_) => None,
    }
}

/// Connects to the host of the target, within the time that the plan allows for a response.
fn connect<'a, R: Net + time::Clock + AllocGlobal>(
    rt: &'a R,
    plan: &ClientPlan,
) -> Result<ClientWire<'a, R>, ConnectFault> {
    match endpoint_of(&plan.target) {
        Some(place) => ClientWire::connect(rt, rt.alloc(), place, plan.wait),
        None => Err(ConnectFault::Socket(ConnectError::UnknownName)),
    }
}

/// Writes the cause of the end of a run in words, if it has one, and returns the exit status.
fn print_cause(rt: &impl Eprint, end: &RunEnd) -> u8
    ensures { result ≡ end.now.status }
{
    let Some(cause) = &end.cause else {
        return end.status;
    };
    let mut line = Line::new();
    explain(&mut line, cause);
    PROGRAM.print_fault(rt, line.as_str(), end.status)
}

/// Writes the cause of the end of a run in words, if it has one, or the error of the run. Returns the exit status.
pub(crate) fn print_end(rt: &impl Eprint, end: &Result<RunEnd, ClientFault>) -> u8
    requires { IfOk end.now (λ e. IsStatus e.status) }
    ensures small { result ≤ 4 }
    ensures ended { IfOk end.now (λ e. result ≡ e.status) }
    ensures fault { IfErr end.now (λ _. result ≡ 3) }
{
    match end {
        Ok(end) => print_cause(rt, end),
        Err(fault) => PROGRAM.print_fault(rt, fault, FAULT),
    }
}

/// Runs a client over a connection, with or without a log, and returns the exit status.
fn run_on_connection<R: Eprint + Net + time::Clock + AllocGlobal>(
    rt: &R,
    mut wire: ClientWire<'_, R>,
    out: impl Write + Drop,
    err: impl Write + Drop,
    plan: &ClientPlan,
) -> u8
    ensures { result ≤ 4 }
{
    let mut clock = wire.clock();
    let mut out = WriteOutlet::new(out);
    let mut err = WriteOutlet::new(err);
    if plan.log == LogLevel::Nothing {
        let end = run_to_end(rt.alloc(), &mut wire, &mut clock, &mut out, &mut err, plan);
        return print_end(rt, &end);
    }
    run_logged(rt, wire, &mut clock, &mut out, &mut err, plan)
}

/// Runs a plan, with a writer for reports, and returns the exit status.
///
/// The payload file is read first, then the client connects, and then the file for responses is opened. This file is
/// therefore unchanged if there is no connection.
fn run(
    rt: &(impl Input + Print + Eprint + Files + Net + time::Clock + AllocGlobal),
    err: impl Write + Drop,
    plan: &mut ClientPlan,
) -> u8
    ensures { result ≤ 4 }
{
    if let Some(name) = &plan.input {
        match read_whole(rt, name.as_str(), LARGEST_MESSAGE) {
            Ok(bytes) => plan.payload = bytes,
            Err(trouble) => return print_file_error(rt, trouble, name.as_str()),
        }
    }
    let line = match connect(rt, plan) {
        Ok(line) => line,
        Err(fault) => return report_unconnected(rt, fault),
    };
    match &plan.output {
        Some(name) if name.as_str() != "-" => match create(rt, name.as_str()) {
            Ok(file) => run_on_connection(rt, line, file, err, plan),
            Err(trouble) => print_file_error(rt, trouble, name.as_str()),
        },
        _ => run_on_connection(rt, line, io::writer(rt), err, plan),
    }
}

/// Parses the arguments, runs the plan, and returns the exit status.
fn start(
    rt: &(impl Input + Print + Eprint + Env + Files + Net + time::Clock + AllocGlobal),
    err: impl Write + Drop,
) -> u8
    ensures { result ≤ 4 }
{
    let words = match PROGRAM.words(rt) {
        Ok(words) => words,
        Err(exit) => return exit.status,
    };
    match client_words(rt.alloc(), &words) {
        Ok(mut plan) => run(rt, err, &mut plan),
        Err(fault) => {
            let reason = client_reason(rt.alloc(), &words, &fault).unwrap_or(None);
            PROGRAM.refuse(rt, &fault, reason.as_ref())
        }
    }
}

fn main(rt: HostRuntime) -> ExitCode {
    let _files = occupy_standard_descriptors(&rt);
    ExitCode::from(start(&rt, rt.stderr()))
}
