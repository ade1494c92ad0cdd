//! A CoAP server over TCP (RFC 8323): all its connections, as a state machine.
//!
//! - `Server` has one method for each event. A connection opens or ends, bytes are received or were written, time
//!   passes, or a resource is stored or removed. The server queues the responses and notifications that the event
//!   causes.
//! - `Monitor` is the interface through which a program follows the calls that a server accepts.
//! - `Application` is the interface through which a program answers the requests that a server hands to it.
//!   `TakenRequest` lends such a request.
//! - `Server::replay` runs the events of a script (`coap_script`) and writes a line for each.
//! - `ConnectionWork` is the work left on a connection.
//! - `IndexSet` is a set of the indices of connections. By it, `Server::concerned_by` and `Served` name the connections
//!   on which a call may change the work left.
//! - `IoFault` is the error that ends a run of a server.
//! - `laws` has the theorems on servers and on scripts.
//!
//! The contracts name the definitions of `specs/values/Servers.antt`, and those of `specs/world/Shows.antt` for the
//! server after a list of events.
//!
//! This crate performs no I/O. One connection is in `coap_server_session`, the model of a server is in `coap_model`,
//! and `coap_serve` runs a server over transports. Continue with `server.rt`.
#![tactic(auto)]

mod application;
mod index_set;
mod io_fault;
pub mod laws;
mod monitor;
mod replay;
mod server;
mod taken_request;

pub use application::{Application, NoApplication};
pub use index_set::IndexSet;
pub use io_fault::IoFault;
pub use monitor::{Call, DropReason, Monitor, NoMonitor};
pub use replay::ReplayFault;
pub use server::{ConnIndex, ConnectionWork, FlushStep, Served, Server};
pub use taken_request::TakenRequest;
