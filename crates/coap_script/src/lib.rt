//! Scripts: texts whose lines name events of a server, and the lines that report the result of each event.
//!
//! - `script` reads a text: its events in order, or the number of the first malformed line. `Event` has a variant for
//!   each kind of line.
//! - `open_line`, `in_line`, `out_line` and the other functions of `scripts/lines.rt` build the lines that report
//!   results.
//! - `scripts_continue_after_whole_lines` is a theorem: a text is read line by line.
//!
//! The contracts name the definitions of `specs/script/`: `Script` for the meaning of a text, `Lines` for the lines.
//!
//! This crate runs no event and contains no server. `Server::replay` runs the events of a script and writes their lines
//! (`coap_server_engine/src/replay.rt`). `path_in` reads a path as the lines have it. The functions of `coap_text` read
//! decimal numbers and hexadecimal bytes. Continue with `scripts.rt`.
#![tactic(auto)]

mod event;
mod scripts;

pub use event::Event;
pub use scripts::lines::{
    ShortLine, StatusCounts, append_request_line, fault_line, in_line, open_line, out_line,
    put_line, remove_line, status_line, tick_line, word_line,
};
pub use scripts::words::path_in;
pub use scripts::{ScriptFault, script, scripts_continue_after_whole_lines};
