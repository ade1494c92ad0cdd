//! An actuator: a program that embeds the server over a transport of its own, and answers the requests of one path
//! itself. PUT /valve with the payload `open` or `closed` sets the valve, and GET /valve returns its position.
//!
//! The transport is reliable and ordered, such as a serial line. Standard input has a line for bytes of the client, as
//! hexadecimal digits. An empty line says that a second has passed. After each line, the program prints a line with the
//! bytes for the client, which is empty if there are none. If a line has many requests, it can print more than one:
//!
//!     printf '00e1\n610101b576616c7665\n' | example_actuator
#![tactic(auto)]

mod valve;

use anyhow::{Context, Result};
use coap_serve::{Applications, Code, Config, ConnId, NoMonitor, Server, bytes_in};
use std::alloc::Global;
use valve::Valve;

/// Creates a server whose application answers these methods of /valve, within 10 seconds.
fn create(alloc: Global) -> Result<Server> {
    let mut applications = Applications::new(alloc, 10).context("no memory")?;
    let path = valve::path().context("no path")?;
    let methods = [Code::GET, Code::POST, Code::PUT, Code::DELETE];
    applications
        .add(&path, &methods, b"if=\"actuator\"")
        .context("no memory")?;
    let config = Config::builder().connections(1).build()?;
    Server::with_applications(alloc, config, applications).context("no memory for the server")
}

/// Prints all queued bytes as a line.
fn send(rt: &(impl Print + AllocGlobal), server: &mut Server, id: ConnId) -> Result<()> {
    let bytes = server.front(id).context("no connection")?;
    let count = bytes.len();
    let digits = hex::encode(rt.alloc(), bytes)?;
    println!(rt; "{digits}")?;
    server.written(id, count)?;
    Ok(())
}

/// Passes bytes of the client to the server, and sends its output. After a stop, the server accepts no more of them.
fn receive(
    rt: &(impl Print + AllocGlobal),
    server: &mut Server,
    id: ConnId,
    bytes: &[u8],
    valve: &mut Valve,
) -> Result<()> {
    let mut rest = bytes;
    // Each turn accepts at least one byte.
    for _ in 0..bytes.len() {
        let mut response = server.response_buffer().context("no memory")?;
        let served = server
            .take_all_for::<(), NoMonitor, Valve>(id, rest, valve, &mut response, &mut NoMonitor)
            .context("no memory")?;
        if served.count == 0 {
            break;
        }
        send(rt, server, id)?;
        rest = &rest[served.count..];
    }
    Ok(())
}

/// Serves a client until its input ends, or until the connection has ended and everything was sent.
fn serve(
    rt: &(impl Input + Print + AllocGlobal),
    server: &mut Server,
    id: ConnId,
    valve: &mut Valve,
) -> Result<()> {
    let mut now: u64 = 0;
    for line in rt.lines(rt.alloc()) {
        let line = line.context("cannot read")?;
        if line.is_empty() {
            now = now.saturating_add(1);
            let _ = server.tick(now);
            send(rt, server, id)?;
        } else {
            let bytes = bytes_in(rt.alloc(), line.as_bytes()).context("no memory")?;
            let bytes = bytes.context("a line is not hexadecimal")?;
            receive(rt, server, id, &bytes, valve)?;
        }
        if server.status(id).is_none_or(|status| status.finished) {
            return Ok(());
        }
    }
    server.ended(id)?;
    send(rt, server, id)
}

fn main(rt: HostRuntime) -> Result<()> {
    let mut server = create(rt.alloc())?;
    let id = server.open()?;
    serve(&rt, &mut server, id, &mut Valve::new())
}
