//! Records of the calls that a server accepted, as scripts that make the same calls again.
//!
//! - `write_call` and `write_opened` write the line of a call to an outlet. They allocate nothing.
//! - `Recorder` is a monitor that writes these lines to a `BufferedOutlet`, up to a limit, and passes them on at the
//!   end of each turn. `MonitorPair` passes each call on to two monitors, such as a recorder and a log.
//! - `NotedOutlet` lets contracts know the bytes that a recorder passed to an outlet that records none, such as a file.
//! - `read_range` gives the range of a call's values, which the theorems ask for, and that a response is read back.
//! - `laws` has the theorems. The script reader reads the line of a call back as the event of the call. The text of a
//!   record replays the run of which it is the record.
//!
//! The contracts name the definitions of `specs/`: `RecordLines` for the line of a call, `SaidEvents` for the events
//! that it says. An announced message size has no event, so its line is a comment. A record is faithful up to the
//! first such line.
//!
//! This crate reads no script and runs no server: `coap_script` and `coap_server_engine` do. Continue with `lines.rt`.
#![tactic(auto)]

mod buffered;
pub mod laws;
mod lines;
mod noted;
mod pair;
mod pieces;
mod ranges;
mod recorder;

pub use buffered::BufferedOutlet;
pub use lines::{write_call, write_opened};
pub use noted::{NotedBytes, NotedOutlet};
pub use pair::MonitorPair;
pub use ranges::read_range;
pub use recorder::Recorder;
