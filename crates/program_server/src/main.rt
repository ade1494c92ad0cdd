//! The program `coap-server`: a server for CoAP over reliable transports (RFC 8323).
//!
//! The function `coap_command_line::server_words` defines its arguments. With `--stdio` it serves one connection over
//! standard input and output. With `--script FILE` it runs the events of the script in that file, and writes the lines
//! of each event. `--application` names the requests that the script answers. If FILE is `-`, the script is read from
//! standard input. In these modes the time, the versions and the connection ids begin at the values of `--starts`.
//! Otherwise it listens at an address and serves the connections that clients open.
#![tactic(auto)]

ghost use Rattle.std.specs.Prelude.{◌<◌, ◌+◌, ◌^◌};

mod listening;
mod script;
mod standard;

use coap_command_line::{Mode, ServerPlan, server_reason, server_words};
use program_common::{Program, USAGE, occupy_standard_descriptors};
use program_server_common::config_in;
use std::net::{Net, SocketAddr};
use std::process::ExitCode;
use std::rt::{Env, Files};
use std::time;

/// Name of the program, for its messages.
pub(crate) const PROGRAM: Program = Program {
    name: "coap-server",
};

/// Runs a plan, and returns the exit status.
fn run(
    rt: &(impl Input + Print + Eprint + Files + Net + time::Clock + AllocGlobal),
    plan: &mut ServerPlan,
) -> u8
    requires { plan.old.starts.ids + 1 < 2 ^ 64 }
{
    if let Mode::Listen(address, port) = &plan.mode {
        return listening::run(rt, SocketAddr::new(*address, *port), plan);
    }
    let Some(config) = config_in(plan) else {
        return PROGRAM.print_fault(rt, "a limit is out of its range", USAGE);
    };
    let applications = plan.applications.take();
    match &plan.mode {
        Mode::Script(name) => script::run(rt, name.as_str(), &config, applications),
        _ => standard::run(rt, plan, &config),
    }
}

/// Runs the program with its arguments, and returns the exit status.
fn start(rt: &(impl Input + Print + Eprint + Env + Files + Net + time::Clock + AllocGlobal)) -> u8 {
    let words = match PROGRAM.words(rt) {
        Ok(words) => words,
        Err(exit) => return exit.status,
    };
    match server_words(rt.alloc(), &words) {
        Ok(mut plan) => run(rt, &mut plan),
        Err(fault) => {
            let reason = server_reason(rt.alloc(), &words, &fault).unwrap_or(None);
            PROGRAM.refuse(rt, &fault, reason.as_ref())
        }
    }
}

fn main(rt: HostRuntime) -> ExitCode {
    let _files = occupy_standard_descriptors(&rt);
    ExitCode::from(start(&rt))
}
