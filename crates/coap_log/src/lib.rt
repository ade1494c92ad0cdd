//! The log of a program: lines of printable text with the time, at most 100 a second. Standard error may block or fail.
//!
//! - `Log` writes a line of a level, as in
//!   `2026-11-27T05:18:31.042Z coap-server: connection 3 opened by 127.0.0.1:50022`.
//! - `LineLimit` limits the number of lines a second, and counts those left out.
//! - `LogWriter` is a writer of whole lines that never blocks. `LineWriter` makes one of a `LogOutlet`, which may take
//!   only a part of a line. `Stderr` is the outlet for standard error.
//! - `Tap` follows the messages of one direction of a connection. `log_messages` passes bytes to a tap, and writes a
//!   line for each message that ends with them. `MessageLevels` decides its level. `describe_head` and `head_code` read
//!   the first bytes of a message.
//! - `LoggedWire` is a wire whose messages are logged.
//! - `laws` has the theorems on logs and taps.
//!
//! The contracts name definitions of `specs`:
//!
//! - `Limits.antt` defines the limit, `Times.antt` the time as text, and `Writers.antt` lines offered to a writer.
//! - `Logs.antt` defines the lines of a log, and `Connections.antt` those of a connection.
//! - `Taps.antt` defines taps, and `Glimpses.antt` the text of a message by its first bytes.
//!
//! No contract states what the system does with the bytes given to it, so a `Stderr` that writes nothing would meet its
//! contract.
//!
//! This crate opens no file. Its callers pass the time; only `LoggedWire` reads a clock. Continue with `log.rt` for
//! lines, and with `tap.rt` for messages.
#![tactic(auto)]

mod connection;
mod glimpse;
pub mod laws;
mod levels;
mod limit;
mod log;
mod logged_wire;
mod moment;
mod stderr;
mod tap;
mod writer;

pub use connection::{append_counts, append_message, log_messages};
pub use glimpse::{describe_head, head_code};
pub use levels::MessageLevels;
pub use limit::{Admission, LINES_A_SECOND, LineLimit};
pub use log::Log;
pub use logged_wire::LoggedWire;
pub use moment::append_time;
pub use stderr::Stderr;
pub use tap::{DESCRIBED, Tap};
pub use writer::{LineWriter, LogOutlet, LogWriter};
