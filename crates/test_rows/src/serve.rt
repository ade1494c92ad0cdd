//! Rows for servers. `= serve ENTRIES DEADLINE` with thirteen numbers creates one. ENTRIES are those of an application
//! (`application`), which has DEADLINE seconds for a response, or `-` for a server without an application. The numbers
//! are:
//!
//! - the six limits of a connection,
//! - the limits on connections, created resources, bytes of a representation, and turns,
//! - the initial time, version and connection number.
//!
//! An event is a line of a script, or several lines with `|` between them. The result has the lines of the server, also
//! with `|` between them. If allocation fails, the result has the lines before that, and the number of the event.
//!
//! Four further events are single calls: `take CONNECTION BYTES`, `written CONNECTION COUNT`,
//! `announce CONNECTION SIZE` and `part CONNECTION`, which writes a prefix of the queued bytes.

use crate::application::applications;
use crate::config::configured;
use crate::layer::Layer;
use crate::row_line::RowLine;
use crate::row_words::{cut, number, put_for, read_hex};
use coap_conn::first_part;
use coap_io::WriteOutlet;
use coap_path::ApplicationFault;
use coap_script::{ScriptFault, script};
use coap_server_engine::{ReplayFault, Server};
use std::alloc::{AllocError, Global};

/// Replays the lines of a script, and writes the lines of the server.
fn replay(
    alloc: Global,
    server: &mut Server,
    row: &str,
    bytes: &mut Vec<u8>,
    results: &mut RowLine,
) {
    bytes.clear();
    let _ = bytes.extend_from_slice(row.as_bytes());
    let _ = bytes.push(b'\n');
    put_for(bytes, b'|', b'\n');
    match script(alloc, bytes) {
        Ok(events) => {
            let outcome = server.replay(&events, &mut WriteOutlet::new(results.writer()));
            put_for(results.writer(), b'\n', b'|');
            match outcome {
                Ok(()) => {
                    let _ = results.writer().pop();
                }
                Err(ReplayFault::Write) => results.word(" unwritten"),
                Err(ReplayFault::Memory(number)) => {
                    results.word(" memory");
                    results.number(number);
                }
            }
        }
        Err(ScriptFault::Line(_)) => results.word("strange"),
        Err(ScriptFault::Memory) => results.word("memory"),
    }
}

impl Layer for Server {
    fn opened(alloc: Global, words: &str) -> Option<Result<Server, AllocError>> {
        let (entries, words) = cut(words);
        let (deadline, words) = cut(words);
        let config = configured(words)?;
        if entries == "-" {
            return Some(Server::new(alloc, config));
        }
        match applications(alloc, number(deadline), entries) {
            Ok(applications) => Some(Server::with_applications(alloc, config, applications)),
            Err(ApplicationFault::Memory) => Some(Err(AllocError)),
            Err(_) => None,
        }
    }

    /// Executes a row: a single call, or the lines of a script that the server replays. Writes the result.
    fn play(&mut self, alloc: Global, event: &str, bytes: &mut Vec<u8>, results: &mut RowLine) {
        let (word, rest) = cut(event);
        let (connection, last) = cut(rest);
        let connection = number(connection) as u64;
        match word {
            "take" => {
                read_hex(last, bytes);
                results.debug(&self.take(connection, bytes));
            }
            "written" => results.debug(&self.written(connection, number(last))),
            "announce" => {
                let size = number(last).min(4_294_967_295) as u32;
                results.debug(&self.announce(connection, size));
            }
            "part" => match self.parts(connection) {
                Some(parts) => results.hex(first_part(parts)),
                None => results.word("nosuch"),
            },
            _ => replay(alloc, self, event, bytes, results),
        }
    }
}
