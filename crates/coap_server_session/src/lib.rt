//! One connection of a CoAP server over TCP (RFC 8323): its frames, its link and its observers.
//!
//! - `Session` accepts input slices, processes one message at a time and queues everything that is due. That includes
//!   delayed responses, Pongs with Custody, and the notifications of its observers (RFC 7641).
//! - `ServerState` is the state that all connections of a server share: the store of resources, and the time.
//! - `Cause` is a change of a path, by its hash (`hash_of`), or of the time. `Session::is_touched` returns `true` if a
//!   change may make something due on a connection.
//!
//! This crate has one connection and performs no I/O. `coap_server_engine` has all connections of a server, and
//! `coap_serve` runs them over transports. The crate `coap_model` defines the events of a server and the state after
//! them. Continue with `session.rt`.
#![tactic(auto)]

mod answering;
mod cause;
mod chains;
mod flags;
mod observer;
mod observers;
mod path_hash;
mod response;
mod server_state;
mod session;
mod take_outcome;

pub use cause::Cause;
pub use path_hash::hash_of;
pub use server_state::ServerState;
pub use session::{Session, sooner};
pub use take_outcome::{StorageError, TakeOutcome};
