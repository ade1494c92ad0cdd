//! Events that pass bytes: `in` and `drain`.

ghost use Rattle.std.specs.Prelude.{◌≡◌, ◌++◌, ℕ, false, take, is_err, IfErr, OnOk};
ghost use Rattle.coap_script.specs.script.Events as event;
ghost use Rattle.coap_server_engine.specs.script.Replay.{event_ran, drained};
ghost use Rattle.coap_server_engine.specs.values.InResults.{in_result};
ghost use Rattle.coap_server_engine.specs.values.Servers.{session_of};
ghost use Rattle.program_explain.specs.Shown.{IsShown, fails_write};
ghost use Rattle.program_explain.specs.Records.{IsOfDevice};
ghost use Rattle.program_explain.specs.Printed.{Prints};
ghost use Rattle.program_explain.specs.Explanations.{Explains, messages_in, messages_of};
ghost use Rattle.program_explain.specs.Explanations as spec;

use super::Explainer;
use super::events::{refusal_line, words_line};
use crate::layout::{Way, accepted_line, queued_line as short_line, stopped_line};
use crate::messages::{Followed, show_parts};
use crate::printer::{OutputLine, Printer};
use crate::trouble::Trouble;
use coap_conn::Reason;
use coap_io::{Outlet, WriteFailed};
use coap_model::ConnId;
use coap_server_engine::Server;
use indexmap::IndexMap;

impl<O: Outlet + Drop> Explainer<O> {
    /// Runs an `in` event.
    #[tactic(auto, unfolding(coap_server_engine::specs::script::Replay::event_ran))]
    pub(super) fn receive(&mut self, id: ConnId, bytes: &[u8]) -> Result<(), Trouble>
        requires { O.is_failed self.old.printer.out ≡ false }
        ensures explained { OnOk result (Explains O.written self.old self.new
            (spec.received (messages_of self.old) id bytes.now (in_result self.old.server id bytes.now)
            (session_of id self.old.server.sessions))) }
        ensures server { OnOk result (self.new.server ≡ (event_ran self.old.server (event.In id bytes.now)).server) }
        ensures shown { IsShown (O.written self.old.printer.out) → IsShown (O.written self.new.printer.out) }
        ensures failure { O.is_failed self.new.printer.out ≡ fails_write result }
        ensures err { IfErr result IsOfDevice }
    {
        let Some(status) = self.server.status(id) else {
            self.printer
                .show_line(&Some(refusal_line("in", Some(id), 1)))?;
            return Ok(());
        };
        let before = status.phase.stop();
        let count = self.server.take_all(id, bytes)?;
        show_bytes(
            &mut self.printer,
            &mut self.connections,
            id,
            Way::In,
            &bytes[..count],
            b"",
        )?;
        self.printer
            .show_line(&rejected_line(id, count as u64, bytes.len() as u64))?;
        self.printer
            .show_line(&stop_line(&self.server, id, before))?;
        Ok(())
    }

    /// Runs a `drain` event.
    #[tactic(auto, unfolding(coap_server_engine::specs::script::Replay::event_ran))]
    pub(super) fn send(&mut self, id: ConnId, most: Option<u64>) -> Result<(), Trouble>
        requires { O.is_failed self.old.printer.out ≡ false }
        ensures explained { OnOk result ((cut : ℕ) × Explains O.written self.old self.new
            (spec.drained cut (messages_of self.old) id most (session_of id self.old.server.sessions))) }
        ensures server { OnOk result (self.new.server ≡ (event_ran self.old.server (event.Drain id most)).server) }
        ensures shown { IsShown (O.written self.old.printer.out) → IsShown (O.written self.new.printer.out) }
        ensures failure { O.is_failed self.new.printer.out ≡ fails_write result }
        ensures err { IfErr result IsOfDevice }
    {
        let Some(parts) = self.server.parts(id) else {
            self.printer
                .show_line(&Some(refusal_line("drain", Some(id), 1)))?;
            return Ok(());
        };
        let (first, second) = at_most(parts, most);
        let count = first.len() + second.len();
        show_bytes(
            &mut self.printer,
            &mut self.connections,
            id,
            Way::Out,
            first,
            second,
        )?;
        let Ok(()) = self.server.written(id, count) else {
            unreachable!()
        };
        self.printer
            .show_line(&queued_line(id, count as u64, most))?;
        Ok(())
    }
}

/// Passes the bytes of an event, in two parts, to the messages of a connection. Prints the lines of the messages.
fn show_bytes<O: Outlet>(
    printer: &mut Printer<O>,
    connections: &mut IndexMap<u64, Followed>,
    id: ConnId,
    way: Way,
    first: &[u8],
    second: &[u8],
) -> Result<(), WriteFailed>
    requires { O.is_failed printer.old.out ≡ false }
    ensures prints { OnOk result (Prints O.written printer.old printer.new
        (spec.passing (messages_in connections.old) id way first.now second.now
        (messages_in connections.old id)).lines) }
    ensures messages { OnOk result (messages_in connections.new
        ≡ (spec.passing (messages_in connections.old) id way first.now second.now
        (messages_in connections.old id)).messages) }
    ensures shown { IsShown (O.written printer.old.out) → IsShown (O.written printer.new.out) }
    ensures failure { O.is_failed printer.new.out ≡ is_err result }
{
    let Some(followed) = connections.get_mut(&id) else {
        return Ok(());
    };
    match way {
        Way::In => show_parts(printer, id, way, &mut followed.incoming, first, second),
        Way::Out => show_parts(printer, id, way, &mut followed.outgoing, first, second),
    }
}

/// Returns the line about bytes that a connection did not accept, if there are any.
fn rejected_line(id: ConnId, count: u64, all: u64) -> Option<OutputLine>
    ensures { result ≡ spec.rejected_line id count all }
{
    if count < all {
        Some(OutputLine::Text(Some(id), accepted_line(id, count, all)))
    } else {
        None
    }
}

/// Returns the line with the reason for which a connection stopped, if it did with the event. `before` is the reason
/// that it had before.
fn stop_line(server: &Server, id: ConnId, before: Option<Reason>) -> Option<OutputLine>
    ensures { result ≡ spec.stop_line id before (spec.stop_in (session_of id server.now.sessions)) }
{
    if before.is_some() {
        return None;
    }
    let status = server.status(id)?;
    let reason = status.phase.stop()?;
    Some(OutputLine::Text(Some(id), stopped_line(id, reason)))
}

/// Returns the line about queued bytes, if fewer were queued than the event writes, or none.
fn queued_line(id: ConnId, count: u64, most: Option<u64>) -> Option<OutputLine>
    ensures { result ≡ spec.queued_line id count most }
{
    let Some(most) = most else {
        return no_byte_line(id, count);
    };
    if count >= most {
        return no_byte_line(id, count);
    }
    Some(OutputLine::Text(Some(id), short_line(id, count, most)))
}

/// Returns the line about an event that writes no byte, if it writes none.
fn no_byte_line(id: ConnId, count: u64) -> Option<OutputLine>
    ensures { result ≡ spec.no_byte_line id count }
{
    if count == 0 {
        Some(words_line(id, "->  no bytes"))
    } else {
        None
    }
}

/// Returns the first bytes of a slice, at most `most`.
fn first_bytes(bytes: &[u8], most: u64) -> &[u8]
    ensures { result.now ≡ take most bytes.now }
{
    if most < bytes.len() as u64 {
        &bytes[..most as usize]
    } else {
        bytes
    }
}

/// Returns the first bytes of two slices, at most `most` in all if there is such a limit.
fn at_most<'a>(parts: (&'a [u8], &'a [u8]), most: Option<u64>) -> (&'a [u8], &'a [u8])
    ensures { result.0.now ++ result.1.now ≡ drained most (parts.entry.0.now ++ parts.entry.1.now) }
{
    let (first, second) = parts;
    match most {
        None => parts,
        Some(most) => {
            let left = most.saturating_sub(first.len() as u64);
            (first_bytes(first, most), first_bytes(second, left))
        }
    }
}
