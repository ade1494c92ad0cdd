//! Messages as lines of printable text, for a log.
//!
//! - `Line` is one line of at most 1,024 bytes, all of them printable ASCII. A piece of text that does not fit is cut,
//!   and the line then ends with `...` and accepts nothing more.
//! - `describe` appends a message to a line: its code, its token, its options and its payload. An example is
//!   `2.05 Content token 2a Content-Format=0 (text/plain) payload "21.5"`. `describe_representation` appends a
//!   Content-Format and a payload alone.
//! - `LogLevel` says what a log contains.
//! - `option_name` returns the registered name of an option.
//! - `laws` has the theorems on lines.
//!
//! The contracts name definitions of five files. `specs/Texts.antt` defines bytes as text, `specs/Lines.antt` text that
//! is appended to a line. `specs/Names.antt` defines the names in the tables, `specs/Descriptions.antt` a message as
//! text. `specs/Levels.antt` defines the numbers of levels.
//!
//! This crate allocates nothing and does no I/O: the caller writes the bytes of a line where its log is. Continue with
//! `line.rt`.
#![tactic(auto)]

mod description;
pub mod laws;
mod level;
mod line;
mod names;
mod tables;

pub use description::{describe, describe_representation};
pub use level::LogLevel;
pub use line::{LINE_LENGTH, Line};
pub use names::option_name;
