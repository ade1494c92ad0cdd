//! A client that observes a resource, and prints each notification in a line: a program that embeds `Client`.
//!
//!     example_observer coap+tcp://127.0.0.1/sensors/1 [COUNT]
//!
//! It ends after COUNT notifications, with the cancellation of the observation. Without a COUNT, it ends with the
//! connection.
#![tactic(auto)]

ghost use Rattle.std.specs.Prelude.{◌≤◌, length, IfOk};

use anyhow::{Context, Result, bail};
use coap_client::{Client, Event, Extras, Got, Limits, MessageRef, Method, Target, Token, Wire};
use coap_sockets::ClientWire;
use std::io::Write;
use std::net::Net;
use std::rt::Env;
use std::{env, io, str, time};

/// Number of seconds in which the client must connect.
const SECONDS: u32 = 30;

/// Number of bytes that a read returns at most.
const READ_ROOM: usize = 4_096;

/// Step after an event.
#[derive(Clone, Copy)]
enum Next {
    /// Nothing.
    Wait,
    /// The observation, since requests can be sent from now on.
    Observe,
    /// The end of the observation, after its last response.
    End,
}

/// Observation of a target.
#[derive(Drop)]
struct Observer {
    client: Client,
    target: Target,
    /// Token of the observation, once it was sent.
    token: Option<Token>,
    /// Number of notifications that are still wanted.
    left: u64,
}

/// Prints the code and the payload of a response in a line.
fn print(out: &mut impl Write, message: &MessageRef) -> Result<()> {
    let code = message.code().byte();
    write!(out, "{}.{:02} ", code / 32, code % 32)?;
    out.write_all(message.payload())?;
    out.write_all(b"\n")?;
    out.flush()?;
    Ok(())
}

impl Observer {
    /// Writes queued bytes once. A read waits for room if some are left.
    fn write(&mut self, wire: &mut impl Wire) -> Result<()> {
        if self.client.waiting() == 0 {
            return Ok(());
        }
        match wire.write(self.client.front()) {
            Got::Bytes(count) => self.client.written(count),
            Got::Later => {}
            Got::End | Got::Failed => bail!("the connection failed"),
        }
        Ok(())
    }

    /// Accepts the first message of these bytes, and processes its event. Returns the number of bytes accepted, and
    /// what follows.
    fn take(&mut self, bytes: &[u8], out: &mut impl Write) -> Result<(usize, Next)>
        ensures { IfOk result (λ x. x.0 ≤ length bytes.now) }
    {
        let taken = self.client.take(bytes);
        let count = taken.bytes;
        let next = match taken.event() {
            Some(Event::Ready) => Next::Observe,
            Some(Event::Notification(message)) => {
                if self.left > 0 {
                    print(out, &message)?;
                    self.left -= 1;
                }
                Next::Wait
            }
            Some(Event::Response(message)) => {
                if self.left > 0 {
                    print(out, &message)?;
                    bail!("the server ended the observation");
                }
                Next::End
            }
            Some(Event::Rejected { .. }) => bail!("the response has an unknown critical option"),
            Some(Event::Stopped(_)) => bail!("the connection stopped"),
            _ => Next::Wait,
        };
        Ok((count, next))
    }

    /// Sends the observation, or its cancellation if no more notifications are wanted.
    fn send(&mut self, next: Next) -> Result<()> {
        let extras = Extras {
            observe: true,
            ..Extras::default()
        };
        if let Next::Observe = next {
            let token = self.client.send(Method::Get, &self.target, &extras)?;
            self.token = Some(token);
        }
        if self.left == 0 {
            if let Some(token) = self.token.take() {
                self.client.cancel(&token, &self.target, &extras)?;
            }
        }
        Ok(())
    }

    /// Processes received bytes. Returns `true` if the observation has ended.
    fn process(
        &mut self,
        wire: &mut impl Wire,
        bytes: &[u8],
        out: &mut impl Write,
    ) -> Result<bool> {
        let mut rest = bytes;
        // Each turn accepts at least one byte.
        for _ in 0..bytes.len() {
            if rest.is_empty() {
                break;
            }
            let (count, next) = self.take(rest, out)?;
            if let Next::End = next {
                return Ok(true);
            }
            self.send(next)?;
            self.write(wire)?;
            if count == 0 {
                bail!("the server does not read");
            }
            rest = &rest[count..];
        }
        Ok(false)
    }

    /// Observes over a connection until the observation or the connection ends.
    fn run(&mut self, wire: &mut impl Wire, out: &mut impl Write) -> Result<()> {
        let mut buffer = [0; READ_ROOM];
        for _ in 0..u64::MAX {
            self.write(wire)?;
            match wire.read(&mut buffer) {
                Got::Bytes(count) => {
                    if self.process(wire, &buffer[..count], out)? {
                        return Ok(());
                    }
                }
                Got::Later => {}
                Got::End => bail!("the server ended the connection"),
                Got::Failed => bail!("the connection failed"),
            }
        }
        Ok(())
    }
}

/// Connects to the host of a URI, and observes it for this number of notifications.
fn observe(
    rt: &(impl Print + Net + time::Clock + AllocGlobal),
    uri: &str,
    left: u64,
) -> Result<()> {
    let target = Target::read(rt.alloc(), uri).context("not a URI of coap+tcp")?;
    let host = str::from_utf8(target.host()).context("the host is not a text")?;
    let mut wire = ClientWire::connect(rt, rt.alloc(), (host, target.port()), SECONDS).context(
        "cannot connect",
    )?;
    let client = Client::open(rt.alloc(), Limits::builder().build()?, 0)?;
    let mut observer = Observer {
        client,
        target,
        token: None,
        left,
    };
    observer.run(&mut wire, &mut io::writer(rt))
}

fn main(rt: HostRuntime) -> Result<()> {
    let mut words = env::args(&rt)?;
    let _name = words.next();
    let Some(uri) = words.next() else {
        return println!(&rt; "usage: example_observer URI [COUNT]").context("cannot write");
    };
    let left = match words.next() {
        Some(count) => count.parse::<u64>().context("the count is not a number")?,
        None => u64::MAX,
    };
    observe(&rt, uri.as_str(), left)
}
