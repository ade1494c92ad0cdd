//! Model of a CoAP server: its state and output as a function of its events.
//!
//! - `Config` is the configuration of a server: the limits of its connections, and the values at which its counts begin
//!   (`Starts`).
//! - `answers.rt` has the results and the errors of a server's calls, such as `Taken`, `Status` and `OpenFault`.
//! - `laws` has theorems on events: their effect on each connection, on the store and on the time. Each is the contract
//!   of a function that does nothing.
//!
//! The definitions are in `specs/world`. They compute the world after a list of events: the messages that each
//! connection handled and queued, its observers, the store and the time. `specs/streams/Output.antt` computes the
//! output of a server with one connection.
//!
//! This crate contains no server and no session. `coap_server_engine` has `Server`, and its contracts say that each
//! call leaves the server with exactly the state that this model computes from its events. Continue with docs/MODEL.md
//! and `specs/world/World.antt`.
#![tactic(auto)]

mod answers;
mod config;
pub mod laws;

pub use answers::{
    AnnounceFault, Backwards, ConnId, Handled, NoSuch, OpenFault, ReleaseFault, ResponseFault,
    Status, TakeFault, Taken, WrittenFault,
};
pub use config::{Config, ConfigBuilder, ConfigFault, Starts};
