//! A server that reports which connections have output to be written, without a look at all of them.
//!
//! - `PolledServer` has a server, and the set of the connections that are *due*: their output may have changed since
//!   it was reported. It has the calls that change a `Server`, and `next_output`.
//! - `laws` has the theorem that no output is lost.
//!
//! The contracts name the definitions of `specs/Reports.antt`. The crate performs no I/O. `c_api` passes the calls on
//! to programs in C. Continue with `polled_server.rt`.
#![tactic(auto)]

mod due;
pub mod laws;
mod polled_server;

pub use polled_server::PolledServer;
