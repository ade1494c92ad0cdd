//! CoAP client over reliable transports (RFC 8323): the engine of one connection, and a run that joins it to a
//! transport.
//!
//! - `Client` is the engine of one connection. It does no I/O: the caller passes in received bytes and writes the
//!   queued bytes. `Event` is the event that a call of `Client::take` reports.
//! - `run_client` joins a `Client` to a wire, a clock and two outlets, and runs it as a plan says. The value that it
//!   returns is the exit status of `coap-client`. `run_to_end` also returns the cause of the end, a `Cause`.
//! - `laws` has the theorems over all clients.
//!
//! The contracts use the definitions of `specs/ClientWorld.antt` for the calls of a client, and those of
//! `specs/ClientRun.antt` for a run.
//!
//! This crate opens no socket and reads no command line. `coap_client_request` makes requests and plans, framing is in
//! `coap_frame`, and signalling and the output queue are in `coap_conn`. Programs import all this from `coap_client`.
//! Continue with `client.rt`, and then `run.rt`.
//!
//! # Examples
//!
//! ```
//! let mut client = Client::open(rt.alloc(), Limits::builder().build()?, 0)?;
//! // The server's CSM.
//! let taken = client.take(b"\x00\xe1");
//! assert!(&rt; matches!(taken.event(), Some(Event::Ready)));
//! let target = Target::read(rt.alloc(), "coap+tcp://127.0.0.1/time")?;
//! let token = client.send(Method::Get, &target, &Extras::default())?;
//! assert!(&rt; token.as_slice() == b"\x01".as_slice());
//! // The client's CSM, and the request.
//! assert!(&rt; client.front().ends_with(b"\x51\x01\x01\xb4time"));
//! ```
#![tactic(auto)]

mod cause_line;
mod client;
mod error_lines;
pub mod laws;
mod run;
mod run_end;

pub use cause_line::explain;
pub use client::{Client, ClientAnnounceFault, Event, Taken};
pub use run::{ClientFault, run_client, run_to_end};
pub use run_end::{Awaited, Cause, Refusal, RunEnd};
