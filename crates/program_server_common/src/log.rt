//! The log of a serving server: warnings, connections and messages, up to a level.

ghost use Rattle.std.specs.Prelude.{◌≡◌, IfOk, Some};
ghost use Rattle.coap_log.specs.Taps.{new_tap, room_of};
ghost use Rattle.program_server_common.specs.ConnectionEnds.{end_text};
ghost use Rattle.program_server_common.specs.Refusals.{is_refusal, level_of_code, message_level};

use crate::text_of;
use coap_conn::Reason;
use coap_log::{
    LineWriter, Log, MessageLevels, Stderr, Tap, append_counts, head_code, log_messages,
};
use coap_model::{Config, ConnId, Handled};
use coap_print::{Line, LogLevel};
use coap_server_engine::{Call, DropReason, Monitor, Server};
use coap_sockets::{DoorTroubles, SocketWire};
use coap_wire::Code;
use indexmap::IndexMap;
use program_common::Program;
use std::alloc::{AllocError, Global};
use std::cell::Cell;
use std::net::SocketAddr;
use std::rc::Rc;
use std::time;
use std::time::Duration;

/// Connection in the log.
#[derive(Drop)]
struct Followed {
    /// Bytes received.
    incoming: Tap,
    /// Bytes written.
    outgoing: Tap,
    /// Reason for which the connection stopped, if it did.
    stop: Option<Reason>,
}

/// Log of a server, which receives the calls that the server accepts.
///
/// The level `Warnings` has a line for each of these:
///
/// - A response that refuses a request because of a limit, or a message above the maximum size.
/// - The last connection that the limit of connections allows, and each connection that failed.
/// - System calls of the listener that failed.
#[derive(Drop)]
pub struct ServerLog<'a, R> {
    rt: &'a R,
    alloc: Global,
    log: Log<LineWriter<Stderr>>,
    connections: IndexMap<u64, Followed>,
    /// Maximum number of resources that clients may create.
    dynamic_max: usize,
    troubles: Option<Rc<Cell<DoorTroubles>>>,
    reported: DoorTroubles,
}

/// Returns `true` if a response with this code refuses a request because of a limit. Its code is 4.13, 5.00 or 5.03, or
/// it is 4.06 and the server has its maximum number of resources (`is_full`).
fn is_refusal(code: Code, is_full: bool) -> bool
    ensures { result ≡ is_refusal code is_full }
{
    is_full && code == Code::NOT_ACCEPTABLE
        || code == Code::REQUEST_ENTITY_TOO_LARGE
        || code == Code::INTERNAL_SERVER_ERROR
        || code == Code::SERVICE_UNAVAILABLE
}

/// Levels of the messages of a server: a response that refuses a request because of a limit is a warning.
#[derive(Drop)]
struct ServerLevels {
    /// `true` if the server has its maximum number of resources.
    is_full: bool,
}

impl MessageLevels for ServerLevels {
    ghost level = { λ levels. message_level levels.is_full };

    fn level_of(&self, head: &[u8]) -> LogLevel {
        match head_code(head) {
            Some(code) => level_of_code(code, self.is_full),
            None => LogLevel::Messages,
        }
    }
}

/// Returns the level of a message with this code.
fn level_of_code(code: Code, is_full: bool) -> LogLevel
    ensures { result ≡ level_of_code is_full (Some code) }
{
    if is_refusal(code, is_full) {
        LogLevel::Warnings
    } else {
        LogLevel::Messages
    }
}

/// Returns the first words of the lines of a connection.
fn front(id: ConnId) -> Line {
    let mut line = Line::new();
    line.text("connection ");
    line.number(id);
    line
}

/// Returns the text before a message of a connection.
fn front_of(id: ConnId, direction: &'static str) -> Line {
    let mut line = front(id);
    line.escaped(direction.as_bytes());
    line
}

/// Appends an address and a port to a line.
fn append_address(alloc: Global, line: &mut Line, address: SocketAddr) {
    match format!(in alloc; "{address}") {
        Ok(text) => line.escaped(text.as_bytes()),
        Err(_) => line.text("unknown address"),
    }
}

impl<'a, R: time::Clock> ServerLog<'a, R> {
    /// Returns the log of a program whose server has this configuration. `troubles` counts the failed system calls of
    /// its listener.
    ///
    /// # Errors
    ///
    /// Returns `AllocError` if allocation fails.
    pub fn new(
        rt: &'a R,
        alloc: Global,
        program: &Program,
        level: LogLevel,
        config: &Config,
        troubles: Option<Rc<Cell<DoorTroubles>>>,
    ) -> Result<ServerLog<'a, R>, AllocError> {
        let mut name = Line::new();
        name.escaped(program.name.as_bytes());
        Ok(ServerLog {
            rt,
            alloc,
            log: Log::new(level, name, LineWriter::new(Stderr::new())),
            connections: IndexMap::with_capacity(alloc, config.connections())?,
            dynamic_max: config.dynamic_max(),
            troubles,
            reported: DoorTroubles {
                full: 0,
                other: 0,
                waits: 0,
            },
        })
    }

    /// Returns the time since the start of 1970, or zero if the clock cannot be read.
    fn now(&self) -> Duration {
        self.rt.since_1970().unwrap_or(Duration::ZERO)
    }

    /// Writes a line of a level.
    fn write(&mut self, level: LogLevel, line: &Line) {
        let now = self.now();
        self.log.line(level, now, line);
    }

    /// Writes a warning about a connection.
    fn warn(&mut self, id: ConnId, text: &'static str) {
        let mut line = front(id);
        line.escaped(text.as_bytes());
        self.write(LogLevel::Warnings, &line);
    }

    /// Returns a new connection of the log.
    fn followed(&self) -> Result<Followed, AllocError>
        ensures { IfOk result (λ followed. (followed.incoming ≡ new_tap (room_of self.now.log.level))
            × (followed.outgoing ≡ new_tap (room_of self.now.log.level))) }
    {
        Ok(Followed {
            incoming: Tap::at_level(self.alloc, self.log.level)?,
            outgoing: Tap::at_level(self.alloc, self.log.level)?,
            stop: None,
        })
    }

    /// Adds a connection to the log.
    fn follow(&mut self, id: ConnId) -> Result<(), AllocError> {
        let followed = self.followed()?;
        self.connections.insert(id, followed)?;
        Ok(())
    }

    /// Follows bytes that a connection accepted.
    fn receive(&mut self, id: ConnId, bytes: &[u8], handled: Handled) {
        let now = self.now();
        if let Some(followed) = self.connections.get_mut(&id) {
            log_messages(
                &mut self.log,
                &ServerLevels { is_full: false },
                now,
                &mut followed.incoming,
                &front_of(id, " in: "),
                bytes,
            );
            if let Handled::Stopped(reason) = handled {
                followed.stop = Some(reason);
            }
        }
        if handled == Handled::Stopped(Reason::TooLarge) {
            self.warn(id, ": message above the maximum size");
        }
    }

    /// Follows bytes of a connection that were written. `is_full` is `true` if the server has its maximum number of
    /// resources.
    fn send(&mut self, id: ConnId, bytes: &[u8], is_full: bool) {
        let now = self.now();
        if let Some(followed) = self.connections.get_mut(&id) {
            log_messages(
                &mut self.log,
                &ServerLevels { is_full },
                now,
                &mut followed.outgoing,
                &front_of(id, " out: "),
                bytes,
            );
        }
    }

    /// Records the reason for which a connection stopped.
    fn note_stop(&mut self, id: ConnId, server: &Server) {
        let Some(status) = server.status(id) else {
            return;
        };
        if let Some(followed) = self.connections.get_mut(&id) {
            followed.stop = status.phase.stop();
        }
    }

    /// Writes the first line of a connection, and follows it.
    fn open(&mut self, id: ConnId, peer: &Line, server: &Server) {
        let mut line = front(id);
        line.text(" opened by ");
        line.line(peer);
        self.write(LogLevel::Connections, &line);
        if self.follow(id).is_err() {
            self.warn(id, ": no memory to follow it");
        }
        if !server.can_open() {
            self.warn(id, " is the last of the maximum number of connections");
        }
    }

    /// Processes a call that the server accepted.
    fn process(&mut self, call: Call<'_>, server: &Server) {
        match call {
            Call::Took { id, bytes, handled } => self.receive(id, bytes, handled),
            Call::Wrote(id, first, second) => {
                let is_full = self.dynamic_max > 0 && server.resource_count() >= self.dynamic_max;
                self.send(id, first, is_full);
                self.send(id, second, is_full);
            }
            Call::Ended(id) => self.note_stop(id, server),
            Call::Released(id) => self.note_stop(id, server),
            Call::Dropped(id, reason) => {
                if let Some(line) = self.last_line(id, reason == DropReason::Failed) {
                    self.write(LogLevel::Connections, &line);
                }
            }
            _ => {}
        }
    }

    /// Ends the log, with the last line of this connection if it is still open. If it has not stopped, it has failed.
    /// The lines left out are reported first.
    pub fn finish(&mut self, id: Option<ConnId>) {
        let line = match id {
            Some(id) => self.last_line(id, true),
            None => None,
        };
        let now = self.now();
        self.log.end(now);
        if let Some(line) = line {
            self.write(LogLevel::Connections, &line);
        }
    }

    /// Removes a connection from the log, and returns its last line. Writes a warning if the connection has failed.
    fn last_line(&mut self, id: ConnId, has_failed: bool) -> Option<Line> {
        let followed = self.connections.shift_remove(&id)?;
        if followed.stop.is_none() && has_failed {
            self.warn(id, " failed");
        }
        Some(end_line(id, &followed, has_failed))
    }

    /// Writes a warning if a number of failed system calls has grown.
    fn report(&mut self, before: u64, now: u64, text: &'static str) {
        if now != before {
            let mut line = Line::new();
            line.escaped(text.as_bytes());
            line.text(": ");
            line.number(now);
            line.text(" so far");
            self.write(LogLevel::Warnings, &line);
        }
    }

    /// Writes a warning for each kind of system call of the listener that has failed since the last report.
    fn report_troubles(&mut self) {
        let Some(troubles) = &self.troubles else {
            return;
        };
        let now = troubles.get();
        let before = self.reported;
        if now == before {
            return;
        }
        self.reported = now;
        self.report(
            before.full,
            now.full,
            "connections not accepted for lack of descriptors or memory",
        );
        self.report(before.other, now.other, "connections not accepted");
        self.report(before.waits, now.waits, "failed waits");
    }
}

/// Returns the last line of a connection.
fn end_line(id: ConnId, followed: &Followed, has_failed: bool) -> Line {
    let mut line = front(id);
    line.text(" ended: ");
    line.escaped(reason_of(followed, has_failed).as_bytes());
    line.text("; ");
    append_counts(&mut line, &followed.incoming, &followed.outgoing);
    line
}

/// Returns the reason for the end of a connection, in words. If there is no reason of the protocol, its wire has
/// failed, or it was silent and could not be released. It has then sent no CSM, or its queue was full.
fn reason_of(followed: &Followed, has_failed: bool) -> &'static str
    ensures { result.now ≡ end_text followed.now.stop has_failed followed.now.incoming.messages }
{
    if let Some(reason) = followed.stop {
        return text_of(reason);
    }
    if has_failed {
        return "failed connection";
    }
    if followed.incoming.messages() == 0 {
        return "no CSM in time";
    }
    "silent connection that could not be released"
}

#[tactic(auto, unfolding(coap_record::specs::Prelude::FollowsMore))]
impl<'a, R: time::Clock> Monitor<SocketWire> for ServerLog<'a, R> {
    fn opened(&mut self, id: ConnId, wire: &SocketWire, server: &Server) {
        let mut peer = Line::new();
        append_address(self.alloc, &mut peer, wire.peer());
        self.open(id, &peer, server);
    }

    fn accepted(&mut self, call: Call<'_>, server: &Server) {
        self.process(call, server);
    }

    fn turn_ended(&mut self) {
        self.report_troubles();
        let now = self.now();
        self.log.tick(now);
    }
}

// The only connection of a server over standard input and output.
#[tactic(auto, unfolding(coap_record::specs::Prelude::FollowsMore))]
impl<'a, R: time::Clock> Monitor<()> for ServerLog<'a, R> {
    fn opened(&mut self, id: ConnId, _wire: &(), server: &Server) {
        let mut peer = Line::new();
        peer.text("standard input");
        self.open(id, &peer, server);
    }

    fn accepted(&mut self, call: Call<'_>, server: &Server) {
        self.process(call, server);
    }

    fn turn_ended(&mut self) {}
}
