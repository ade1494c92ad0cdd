//! Reads scripts: texts whose lines name events.

ghost use Rattle.std.specs.Prelude.{◌≡◌};
ghost use Rattle.coap_script.specs.Prelude.{IsScript, fault_number};

mod events;
mod laws;
pub(crate) mod lines;
pub(crate) mod words;

use crate::event::Event;
use coap_text::split_once;
use events::take_line;
pub use laws::scripts_continue_after_whole_lines;
use std::alloc::Global;
use thiserror::Error;

/// Error of `script`.
#[derive(Clone, Copy, Debug, PartialEq, Eq, Error)]
pub enum ScriptFault {
    /// A line names no event. The field is the number of the line, from 1; empty lines and comments count.
    #[error("no event: line {0}")]
    Line(u64),
    /// Allocation failed.
    #[error("no memory")]
    Memory,
}

impl ScriptFault {
    /// Returns the number of the error, 1 or 2.
    pub const fn number(self) -> u8
        ensures { result ≡ fault_number self }
    {
        match self {
            ScriptFault::Line(_) => 1,
            ScriptFault::Memory => 2,
        }
    }
}

/// Returns the events that the lines of a text name, in order.
///
/// Each line ends with a newline. An empty line names no event, and neither does a comment: a line that begins with
/// `#`.
///
/// # Errors
///
/// - `Line`: a line is neither an event nor empty nor a comment, or bytes follow the last newline. The first such line
///   is reported.
/// - `Memory`: allocation failed.
///
/// # Examples
///
/// ```
/// let mut server = Server::new(rt.alloc(), Config::builder().build()?)?;
/// let events = script(rt.alloc(), b"open\nin 1 00e1\ntick 60\n")?;
/// let mut lines = Vec::new(rt.alloc());
/// server.replay(&events, &mut WriteOutlet::new(&mut lines))?;
/// assert!(&rt; lines.as_slice() == b"open 1\nin 1 2\ntick 60\n".as_slice());
/// ```
pub fn script(alloc: Global, text: &[u8]) -> Result<Vec<Event>, ScriptFault>
    ensures { IsScript text.now result }
{
    let mut events = Vec::new(alloc);
    let mut lines = 0;
    let mut left = text;
    while let Some((line, rest)) = split_once(left, b'\n') {
        let Ok(is_right) = take_line(alloc, &mut events, line) else {
            return Err(ScriptFault::Memory);
        };
        lines += 1;
        if !is_right {
            return Err(ScriptFault::Line(lines));
        }
        left = rest;
    }
    if !left.is_empty() {
        return Err(ScriptFault::Line(lines + 1));
    }
    Ok(events)
}
