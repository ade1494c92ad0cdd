//! A run with a log of its connection and messages.

ghost use Rattle.std.specs.Prelude.{◌≡◌, ◌≤◌, [], false};
ghost use Rattle.coap_print.specs.Lines.{appended};
ghost use Rattle.coap_print.specs.declared.line.TheConstants.{LINE_LENGTH};
ghost use Rattle.program_client.specs.Ends as spec;

use crate::{PROGRAM, print_end};
use coap_client_engine::{Cause, ClientFault, RunEnd, explain, run_to_end};
use coap_client_request::ClientPlan;
use coap_conn::{Reason, RequestFault};
use coap_io::{Clock, Outlet};
use coap_log::{LineWriter, Log, LoggedWire, Stderr};
use coap_print::Line;
use coap_sockets::ClientWire;
use program_common::FAULT;
use std::net::Net;
use std::time;

/// Number of the connection: a client has one.
const NUMBER: u64 = 1;

/// Status of a run that ended with a response, at most.
const RESPONDED: u8 = 2;

/// Returns the address of the peer, if the system reports it.
fn peer_of<R: Net + time::Clock + AllocGlobal>(rt: &R, wire: &ClientWire<'_, R>) -> Line {
    let mut line = Line::new();
    let text = match wire.peer() {
        Ok(peer) => format!(in rt.alloc(); "{peer}").ok(),
        Err(_) => None,
    };
    match text {
        Some(text) => line.escaped(text.as_bytes()),
        None => line.text("unknown address"),
    }
    line
}

/// Returns the reason for the end of a run, in words.
fn reason_of(end: &Result<RunEnd, ClientFault>) -> Line
    ensures { result ≡ appended LINE_LENGTH [] (spec.reason_text end.now) }
{
    let mut line = Line::new();
    match end {
        Ok(end) => append_end(&mut line, end),
        Err(ClientFault::Output) => line.text("cannot write"),
        Err(ClientFault::Memory) => line.text("no memory"),
    }
    line
}

/// Appends the reason for the end of a run. A run without a cause ended with the last response, or it had all its
/// iterations.
fn append_end(line: &mut Line, end: &RunEnd)
    ensures { line.new ≡ appended LINE_LENGTH line.old (spec.end_text end.now.status end.now.cause) }
{
    match &end.cause {
        Some(cause) => explain(line, cause),
        None => {
            if end.status <= RESPONDED {
                line.text("last response");
            } else {
                line.text("too many turns");
            }
        }
    }
}

/// Returns `true` if the end of a run is a warning. A limit has then refused a message, or a system call or an
/// allocation has failed.
fn is_warning(end: &Result<RunEnd, ClientFault>) -> bool
    ensures { result ≡ spec.is_warning end.now }
{
    match end {
        Ok(end) => is_limit(&end.cause),
        Err(_) => true,
    }
}

/// Returns `true` for a cause that is a limit.
fn is_limit(cause: &Option<Cause>) -> bool
    ensures { result ≡ spec.is_limit cause.now }
{
    match cause {
        Some(Cause::Request(refusal)) => is_limit_fault(refusal.fault),
        Some(Cause::Cancellation(refusal)) => is_limit_fault(refusal.fault),
        Some(Cause::Stopped(reason)) => is_limit_stop(*reason),
        Some(Cause::BadOption(_)) => false,
        Some(Cause::TimedOut(_, _)) => false,
        None => false,
    }
}

/// Returns `true` for an error of a message that exceeds a limit.
fn is_limit_fault(fault: RequestFault) -> bool
    ensures { result ≡ spec.is_limit_fault fault }
{
    match fault {
        RequestFault::TooMany => true,
        RequestFault::TooBig => true,
        RequestFault::NoRoom => true,
        RequestFault::TokensSpent => true,
        RequestFault::NotOpen => false,
        RequestFault::NoSuchToken => false,
    }
}

/// Returns `true` for a stop because of a message that exceeds a limit.
fn is_limit_stop(reason: Reason) -> bool
    ensures { result ≡ spec.is_limit_stop reason }
{
    match reason {
        Reason::TooLarge => true,
        Reason::PeerTooSmall => true,
        _ => false,
    }
}

/// Runs a client over a connection with the log that the plan asks for, and returns the exit status.
pub(crate) fn run_logged<R: Eprint + Net + time::Clock + AllocGlobal, O: Outlet, E: Outlet>(
    rt: &R,
    wire: ClientWire<'_, R>,
    clock: &mut impl Clock,
    out: &mut O,
    err: &mut E,
    plan: &ClientPlan,
) -> u8
    requires out_works { O.is_failed out.old ≡ false }
    requires err_works { E.is_failed err.old ≡ false }
    ensures { result ≤ 4 }
{
    let mut program = Line::new();
    program.text("coap-client");
    let log = Log::new(plan.log, program, LineWriter::new(Stderr::new()));
    let peer = peer_of(rt, &wire);
    let Ok(mut logged) = LoggedWire::new(rt.alloc(), wire, log, rt, NUMBER, &peer) else {
        return PROGRAM.print_fault(rt, "no memory", FAULT);
    };
    let end = run_to_end(rt.alloc(), &mut logged, clock, out, err, plan);
    let reason = reason_of(&end);
    if is_warning(&end) {
        logged.warn(&reason);
    }
    logged.end(&reason);
    print_end(rt, &end)
}
