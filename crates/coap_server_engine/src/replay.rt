//! Runs the events of a script on a server, and writes one line for each. The line of an `in` is followed by one for
//! each request that the application receives.
//!
//! If the line of an event needs memory, the line is built before the event runs, so that no event runs without its
//! line. Only the lines of requests are built while their event runs. `remove` calls `can_remove` first, so that an
//! event that fails needs no memory.

ghost use Rattle.std.specs.Prelude.{◌≡◌, ◌++◌, option_map, true, false, List, map, IfOk, OnErr};
ghost use Rattle.coap_server_engine.specs.Prelude.{refusal_in, open_refusal_in, replay_number, line_bytes, event_value};
ghost use Rattle.coap_server_engine.specs.Prelude.{event_ran, stop_number, drained, IsReplayed, fails_write};
ghost use Rattle.coap_server_engine.specs.Prelude.{events_made, ShowsMore, ShowsRun, IsShownReplay, AddsBytes};
ghost use Rattle.coap_server_engine.specs.Prelude.{session_of, is_there, IsRun, IsDrainable, Shows};
ghost use Rattle.coap_server_engine.specs.script.Replay as spec;
ghost use Rattle.coap_script.specs.script.Events as event;
ghost use Rattle.coap_script.specs.script.Lines as lines;
ghost use Rattle.coap_model.specs.world.Events as world;

mod listed;

use crate::server::Server;
use coap_io::{Outlet, write_parts};
use coap_model::{ConnId, OpenFault, ReleaseFault, ResponseFault};
use coap_script::{
    Event, ShortLine, StatusCounts, fault_line, in_line, open_line, out_line, put_line,
    remove_line, status_line, tick_line, word_line,
};
use coap_store::{PathKey, StoreFault};
use std::alloc::AllocError;
use thiserror::Error;

/// Error that ended a replay early.
#[derive(Clone, Copy, Debug, PartialEq, Eq, Error)]
pub enum ReplayFault {
    /// Failure of a write.
    #[error("cannot write")]
    Write,
    /// Failure of an allocation, with the number of its event, from 1.
    #[error("no memory: event {0}")]
    Memory(u64),
}

impl ReplayFault {
    /// Returns the number of the error, 1 or 2.
    pub const fn number(self) -> u8
        ensures { result ≡ replay_number self }
    {
        match self {
            ReplayFault::Write => 1,
            ReplayFault::Memory(_) => 2,
        }
    }
}

/// Output of an event.
#[derive(Drop)]
enum OutputLine {
    /// Line built without allocation.
    Short(ShortLine),
    /// Line allocated before the event ran.
    Long(Vec<u8>),
    /// Line of an `in`, followed by those of the requests that were handed to the application.
    Listed { line: ShortLine, requests: Vec<u8> },
}

impl OutputLine {
    /// Returns the bytes of the output, in two slices.
    fn parts(&self) -> (&[u8], &[u8])
        ensures { result.0.now ++ result.1.now ≡ line_bytes self.now }
    {
        match self {
            OutputLine::Short(line) => (line.as_slice(), b""),
            OutputLine::Long(line) => (line.as_slice(), b""),
            OutputLine::Listed { line, requests } => (line.as_slice(), requests.as_slice()),
        }
    }
}

/// Output line with queued bytes of a connection, and the number of these bytes.
#[derive(Drop)]
struct Drained {
    line: Vec<u8>,
    count: usize,
}

/// Returns the number of an error of `open`, or `None` for `Memory`.
fn open_refused(fault: OpenFault) -> Option<u8>
    ensures { result ≡ option_map spec.open_number (open_refusal_in fault) }
{
    match fault {
        OpenFault::Full => Some(1),
        OpenFault::IdsSpent => Some(2),
        OpenFault::Memory => None,
    }
}

/// Returns the number of an error of the store, or `None` for `Memory`.
fn store_refused(fault: StoreFault) -> Option<u8>
    ensures { result ≡ option_map spec.store_number (refusal_in fault) }
{
    match fault {
        StoreFault::NoSuch => Some(1),
        StoreFault::TooLarge => Some(2),
        StoreFault::Limit => Some(3),
        StoreFault::BadPath => Some(4),
        StoreFault::VersionsSpent => Some(5),
        StoreFault::Memory => None,
    }
}

/// Returns the number of an error of `respond`.
fn response_number(fault: ResponseFault) -> u8
    ensures { result ≡ spec.response_number fault }
{
    fault as u8
}

/// Returns the number of an error of `release`.
fn release_number(fault: ReleaseFault) -> u8
    ensures { result ≡ spec.release_number fault }
{
    fault as u8
}

/// Returns the number of an error of the store.
fn store_number(fault: StoreFault) -> u8
    ensures { result ≡ spec.store_number fault }
{
    fault as u8
}

impl Server {
    /// Runs events in order, and writes the line of each before the next one runs.
    ///
    /// # Errors
    ///
    /// - `Write`: a write failed. The event whose line is incomplete was the last one that ran.
    /// - `Memory`: allocation failed for the event with this number, from 1. The events before it ran, and their lines
    ///   were written. This event did not run, but an `in` accepted bytes. These are all before the last one of the
    ///   message that needed memory. If the line of a request did, they are all up to the end of that request.
    ///
    /// # Preconditions
    ///
    /// The outlet has not failed before.
    pub fn replay<W: Outlet>(&mut self, events: &[Event], out: &mut W) -> Result<(), ReplayFault>
        requires { W.is_failed out.old ≡ false }
        ensures replayed { IsReplayed self.old (map event_value events.now) self.new
            (AddsBytes (W.written out.old) (W.written out.new)) result }
        ensures failure { W.is_failed out.new ≡ fails_write result }
        ensures shows { (before : List world.AcceptedCall) → Shows self.old before →
            IsShownReplay before self.old (map event_value events.now) self.new result }
    {
        for (index, event) in events.iter().enumerate() {
            let Ok(line) = self.run_event(event) else {
                return Err(ReplayFault::Memory(index as u64 + 1));
            };
            let (first, second) = line.parts();
            let Ok(()) = write_parts(out, first, second) else {
                return Err(ReplayFault::Write);
            };
        }
        Ok(())
    }

    /// Runs an event, and returns its line.
    ///
    /// # Errors
    ///
    /// Returns `AllocError` if allocation fails. The event did not run then, but an `in` accepted bytes, as
    /// `replay` says.
    fn run_event(&mut self, event: &Event) -> Result<OutputLine, AllocError>
        ensures run { IsRun self.old (event_value event.now) self.new result }
        ensures shows { ShowsRun self.old (event_value event.now) self.new result }
    {
        match event {
            Event::Open => self.run_open(),
            Event::In { connection, bytes } => self.run_in(*connection, bytes),
            Event::Drain { connection, most } => self.run_drain(*connection, *most),
            Event::Tick { moment } => Ok(self.run_tick(*moment)),
            Event::Put {
                path,
                format,
                payload,
            } => self.run_put(path, *format, payload),
            Event::Remove { path, text } => self.run_remove(path, text),
            Event::End { connection } => Ok(self.run_end(*connection)),
            Event::Release { connection } => Ok(self.run_release(*connection)),
            Event::Respond {
                connection,
                response,
            } => Ok(self.run_respond(*connection, response)),
            Event::Drop { connection } => Ok(self.run_drop(*connection)),
            Event::Status { connection } => self.run_status(*connection),
        }
    }

    /// Runs an `open` event.
    #[tactic(auto, using(crate::proofs::scripting::ShownLemmas::shows_same), unfolding(crate::specs::script::Replay::event_ran, crate::specs::script::Shown::events_made))]
    fn run_open(&mut self) -> Result<OutputLine, AllocError>
        ensures run { IsRun self.old event.Open self.new result }
        ensures shows { ShowsRun self.old event.Open self.new result }
    {
        match self.open() {
            Ok(id) => Ok(OutputLine::Short(open_line(id))),
            Err(fault) => match open_refused(fault) {
                Some(number) => Ok(OutputLine::Short(fault_line("open", None, number))),
                None => Err(AllocError),
            },
        }
    }

    /// Runs an `in` event.
    #[tactic(auto, using(crate::proofs::scripting::ShownLemmas::shows_same), unfolding(crate::specs::script::Replay::event_ran, crate::specs::script::Shown::events_made))]
    fn run_in(&mut self, id: ConnId, bytes: &[u8]) -> Result<OutputLine, AllocError>
        ensures run { IsRun self.old (event.In id bytes.now) self.new result }
        ensures shows { ShowsRun self.old (event.In id bytes.now) self.new result }
    {
        let Some(at) = self.index_of(id) else {
            return Ok(OutputLine::Short(fault_line("in", Some(id), 1)));
        };
        let mut requests = Vec::new(self.alloc());
        let taken = self.take_all_listed(at, id, bytes, &mut requests)?;
        let stop = self.stop_number(id);
        let line = in_line(id, taken as u64, stop);
        Ok(OutputLine::Listed { line, requests })
    }

    /// Returns the number of the reason for which a connection no longer accepts messages, if there is one.
    fn stop_number(&self, id: ConnId) -> Option<u8>
        ensures { result ≡ stop_number (session_of id self.now.sessions) }
    {
        let status = self.status(id)?;
        let reason = status.phase.stop()?;
        Some(reason.number())
    }

    /// Runs a `drain` event.
    #[tactic(auto, using(crate::proofs::scripting::ShownLemmas::shows_same), unfolding(crate::specs::script::Replay::event_ran, crate::specs::script::Shown::events_made))]
    fn run_drain(&mut self, id: ConnId, most: Option<u64>) -> Result<OutputLine, AllocError>
        ensures run { IsRun self.old (event.Drain id most) self.new result }
        ensures shows { ShowsRun self.old (event.Drain id most) self.new result }
    {
        let Some(drained) = self.drain(id, most)? else {
            return Ok(OutputLine::Short(fault_line("drain", Some(id), 1)));
        };
        let Ok(()) = self.written(id, drained.count) else {
            unreachable!()
        };
        Ok(OutputLine::Long(drained.line))
    }

    /// Returns the line with the queued bytes of a connection, at most `most`, or `None` if no connection has this id.
    ///
    /// # Errors
    ///
    /// Returns `AllocError` if allocation fails for the line.
    fn drain(&mut self, id: ConnId, most: Option<u64>) -> Result<Option<Drained>, AllocError>
        ensures unchanged { self.new ≡ self.old }
        ensures ok { IfOk result (λ found. IsDrainable id most found (session_of id self.old.sessions)) }
        ensures err { OnErr result (is_there (session_of id self.old.sessions) ≡ true) }
    {
        let alloc = self.alloc();
        let Some(waiting) = self.front(id) else {
            return Ok(None);
        };
        let bytes = at_most(waiting, most);
        let line = out_line(alloc, id, bytes)?;
        let count = bytes.len();
        Ok(Some(Drained { line, count }))
    }

    /// Runs a `tick` event.
    #[tactic(auto, using(crate::proofs::scripting::ShownLemmas::shows_same), unfolding(crate::specs::script::Replay::event_ran, crate::specs::script::Shown::events_made))]
    fn run_tick(&mut self, moment: u64) -> OutputLine
        ensures server { self.new ≡ (event_ran self.old (event.Tick moment)).server }
        ensures line { line_bytes result ≡ (event_ran self.old (event.Tick moment)).text }
        ensures shows { ShowsMore self.old self.new (events_made self.old (event.Tick moment)) }
    {
        match self.tick(moment) {
            Ok(()) => OutputLine::Short(tick_line(moment)),
            Err(_) => OutputLine::Short(fault_line("tick", None, 1)),
        }
    }

    /// Runs a `put` event.
    #[tactic(auto, using(crate::proofs::scripting::ShownLemmas::shows_same), unfolding(crate::specs::script::Replay::event_ran, crate::specs::script::Shown::events_made))]
    fn run_put(
        &mut self,
        path: &PathKey,
        format: Option<u16>,
        payload: &[u8],
    ) -> Result<OutputLine, AllocError>
        ensures run { IsRun self.old (event.Put path.now format payload.now) self.new result }
        ensures shows { ShowsRun self.old (event.Put path.now format payload.now) self.new result }
    {
        match self.put(path, format, payload) {
            Ok(version) => Ok(OutputLine::Short(put_line(version))),
            Err(fault) => match store_refused(fault) {
                Some(number) => Ok(OutputLine::Short(fault_line("put", None, number))),
                None => Err(AllocError),
            },
        }
    }

    /// Runs a `remove` event.
    #[tactic(auto, using(crate::proofs::scripting::ShownLemmas::shows_same), unfolding(crate::specs::script::Replay::event_ran, crate::specs::script::Shown::events_made))]
    fn run_remove(&mut self, path: &PathKey, text: &[u8]) -> Result<OutputLine, AllocError>
        ensures run { IsRun self.old (event.Remove path.now text.now) self.new result }
        ensures shows { ShowsRun self.old (event.Remove path.now text.now) self.new result }
    {
        if !self.can_remove(path) {
            let number = store_number(StoreFault::NoSuch);
            return Ok(OutputLine::Short(fault_line("remove", None, number)));
        }
        let line = remove_line(self.alloc(), text)?;
        let Ok(()) = self.remove(path) else {
            unreachable!()
        };
        Ok(OutputLine::Long(line))
    }

    /// Runs an `end` event.
    #[tactic(auto, using(crate::proofs::scripting::ShownLemmas::shows_same), unfolding(crate::specs::script::Replay::event_ran, crate::specs::script::Shown::events_made))]
    fn run_end(&mut self, id: ConnId) -> OutputLine
        ensures server { self.new ≡ (event_ran self.old (event.End id)).server }
        ensures line { line_bytes result ≡ (event_ran self.old (event.End id)).text }
        ensures shows { ShowsMore self.old self.new (events_made self.old (event.End id)) }
    {
        match self.ended(id) {
            Ok(()) => OutputLine::Short(word_line("end", id)),
            Err(_) => OutputLine::Short(fault_line("end", Some(id), 1)),
        }
    }

    /// Runs a `release` event.
    #[tactic(auto, using(crate::proofs::scripting::ShownLemmas::shows_same), unfolding(crate::specs::script::Replay::event_ran, crate::specs::script::Shown::events_made))]
    fn run_release(&mut self, id: ConnId) -> OutputLine
        ensures server { self.new ≡ (event_ran self.old (event.Release id)).server }
        ensures line { line_bytes result ≡ (event_ran self.old (event.Release id)).text }
        ensures shows { ShowsMore self.old self.new (events_made self.old (event.Release id)) }
    {
        match self.release(id) {
            Ok(()) => OutputLine::Short(word_line("release", id)),
            Err(fault) => OutputLine::Short(fault_line("release", Some(id), release_number(fault))),
        }
    }

    /// Runs a `respond` event.
    #[tactic(auto, using(crate::proofs::scripting::ShownLemmas::shows_same), unfolding(crate::specs::script::Replay::event_ran, crate::specs::script::Shown::events_made))]
    fn run_respond(&mut self, id: ConnId, response: &[u8]) -> OutputLine
        ensures server { self.new ≡ (event_ran self.old (event.Respond id response.now)).server }
        ensures line { line_bytes result ≡ (event_ran self.old (event.Respond id response.now)).text }
        ensures shows { ShowsMore self.old self.new (events_made self.old (event.Respond id response.now)) }
    {
        match self.respond(id, response) {
            Ok(_) => OutputLine::Short(word_line("respond", id)),
            Err(fault) => OutputLine::Short(fault_line(
                "respond",
                Some(id),
                response_number(fault),
            )),
        }
    }

    /// Runs a `drop` event.
    #[tactic(auto, using(crate::proofs::scripting::ShownLemmas::shows_same), unfolding(crate::specs::script::Replay::event_ran, crate::specs::script::Shown::events_made))]
    fn run_drop(&mut self, id: ConnId) -> OutputLine
        ensures server { self.new ≡ (event_ran self.old (event.Drop id)).server }
        ensures line { line_bytes result ≡ (event_ran self.old (event.Drop id)).text }
        ensures shows { ShowsMore self.old self.new (events_made self.old (event.Drop id)) }
    {
        match self.drop_conn(id) {
            Ok(()) => OutputLine::Short(word_line("drop", id)),
            Err(_) => OutputLine::Short(fault_line("drop", Some(id), 1)),
        }
    }

    /// Runs a `status` event.
    #[tactic(auto, using(crate::proofs::scripting::ShownLemmas::shows_same), unfolding(crate::specs::script::Replay::event_ran, crate::specs::script::Shown::events_made))]
    fn run_status(&mut self, id: ConnId) -> Result<OutputLine, AllocError>
        ensures run { IsRun self.old (event.Status id) self.new result }
        ensures shows { ShowsRun self.old (event.Status id) self.new result }
    {
        let Some(status) = self.status(id) else {
            return Ok(OutputLine::Short(fault_line("status", Some(id), 1)));
        };
        let counts = StatusCounts {
            kept: status.kept,
            waiting: status.waiting,
            pending: status.pending,
            observers: status.observers,
        };
        let line = status_line(self.alloc(), id, status.phase, counts)?;
        Ok(OutputLine::Long(line))
    }
}

/// Returns the first bytes of a slice, at most `most` if there is such a limit.
fn at_most(bytes: &[u8], most: Option<u64>) -> &[u8]
    ensures { result.now ≡ spec.drained most bytes.now }
{
    match most {
        None => bytes,
        Some(most) => {
            if most < bytes.len() as u64 {
                &bytes[..most as usize]
            } else {
                bytes
            }
        }
    }
}
