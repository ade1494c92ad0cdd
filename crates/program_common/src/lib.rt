//! The parts that all programs share: their arguments, files, messages on standard error, and exit statuses.
//!
//! The meaning of the arguments is in `coap_command_line`, and sockets are in `coap_sockets`. Continue with
//! `program.rt`.
#![tactic(auto)]

mod files;
mod program;
mod standard;

pub use files::{FileError, read_whole};
pub use program::{ENDED, EarlyExit, FAULT, Program, USAGE};
pub use standard::occupy_standard_descriptors;
