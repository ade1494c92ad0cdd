//! The traits through which a server and a client access the outside: bytes, connections and the time.
//!
//! - `Source` is a reader and `Outlet` a writer, such as standard input and standard output. `ReadSource` and
//!   `WriteOutlet` implement them for every reader and writer of std.
//! - `Wire` is one transport connection. `Ready` says whether a read or a write of it may succeed now.
//! - `Door` is a listener: it accepts connections and waits until one of them is ready. `Polled` makes a door of a
//!   listener that cannot wait (`Wires`).
//! - `Clock` returns the time, in seconds.
//!
//! The ghost members of these traits are the bytes and calls so far, if the implementation records them. The contract
//! of a run states its input and its output by them.
//!
//! `write_all` writes a whole slice to an outlet. `ReadBuffer` is the read buffer of one connection.
//!
//! This crate contains no CoAP and opens no socket. The crate `coap_sockets` implements `Wire`, `Door` and `Clock` over
//! TCP. A server runs over these traits by `coap_serve::serve_one` and `coap_serve::serve_door`, a client by
//! `coap_client::run_client`. To write a transport of your own, continue with `wire.rt` and docs/EMBEDDING.md.
#![tactic(auto)]

mod device;
mod output;
mod polled;
mod read_buffer;
mod wire;

pub use device::{Outlet, ReadSource, Source, WriteOutlet};
pub use output::{WriteFailed, write_all, write_parts};
pub use polled::{Polled, Tried, Wires};
pub use read_buffer::{READ_SIZE, ReadBuffer};
pub use wire::{Clock, Door, Got, Ready, Wait, Wire};
