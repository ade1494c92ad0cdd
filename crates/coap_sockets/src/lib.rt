//! The TCP sockets of both programs, and their clocks.
//!
//! - `SocketDoor` is the listener of a server (`coap_io::Door`), and `SocketWire` one connection that it accepted.
//!   `ListenFault` and `ListenError` are the reasons if there is none. `DoorTroubles` counts system calls that failed.
//! - `ClientWire` is the connection of a client (`coap_io::Wire`). `ConnectFault` and `ConnectError` are the reasons if
//!   there is none.
//! - `RunClock` and `SystemClock` return the time (`coap_io::Clock`).
//!
//! No call on a socket blocks. A listener waits for the events of all its connections together. The connection of a
//! client waits for its own.
//!
//! No contract states what the system returns, so a listener that never returns a connection would meet its contract.
//! The test `tests/system/sockets.py` would fail with it.
//!
//! This crate contains no CoAP: it implements the traits of `coap_io`, over which `coap_serve` and `coap_client` run.
//! Continue with `door.rt` for a server and `client_wire.rt` for a client.
#![tactic(auto)]

mod client_wire;
mod clock;
mod door;
mod durations;
mod io_results;
mod keepalive;
mod readiness;
mod server_wire;
mod troubles;
mod woken;

pub use client_wire::{ClientWire, ConnectFault};
pub use clock::{RunClock, SystemClock};
pub use door::{ListenFault, SocketDoor};
pub use io_results::{ConnectError, ListenError};
pub use readiness::Readiness;
pub use server_wire::SocketWire;
pub use troubles::DoorTroubles;
