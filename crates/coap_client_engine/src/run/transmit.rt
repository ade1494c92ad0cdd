//! Output of a run: the request, the cancellation of its observation, and one write to the wire.

ghost use Rattle.std.specs.Prelude.{◌≡◌, ◌≤◌, ◌++◌, ◌∷◌, ℕ, List, length, [], false};
ghost use Rattle.std.specs.Prelude.{is_err, option_map, IfOk, IfSome, OnOk};
ghost use Rattle.coap_client_engine.specs.Prelude.{AddsCalls, bytes_passed, count_passed, AddsBytes};
ghost use Rattle.coap_client_engine.specs.Prelude.{IsStatus, ClientCall, ClientShows, with_wire, Flushes};
ghost use Rattle.coap_client_engine.specs.ClientValues as value;
ghost use Rattle.coap_client_engine.specs.RunCauses as causes;
ghost use Rattle.coap_client_engine.specs.RunSteps as spec;

use crate::run::report::{refused, stopped};
use crate::run::state::{Run, StepResult};
use crate::run_end::Cause;
use coap_client_request::ClientPlan;
use coap_conn::{Phase, Reason, RequestFault, first_part};
use coap_io::{Got, Outlet, Wire};

impl Run {
    /// Returns `true` if the request must be sent: the connection is open, and the request was not sent before.
    pub(super) fn must_send_request(&self) -> bool
        ensures { result ≡ spec.must_send_request self.now.client.link.phase self.now.token }
    {
        match self.client.phase() {
            Phase::Open => self.token.is_none(),
            _ => false,
        }
    }

    /// Sends the request if it must be sent. If the queue has no room, a later call tries again.
    pub(super) fn send_request<E: Outlet>(&mut self, err: &mut E, plan: &ClientPlan) -> StepResult
        requires { E.is_failed err.old ≡ false }
        ensures next { IfOk result (λ next. next ≡ spec.ended_by
            (spec.asking_refusal self.old.client self.old.token plan.now)) }
        ensures reported { OnOk result (AddsBytes (E.written err.old) (E.written err.new)
            (spec.refusal_text (spec.asking_refusal self.old.client self.old.token plan.now))) }
        ensures after { self.new.client ≡ spec.client_asking self.old.client self.old.token plan.now }
        ensures token { option_map (λ t. t.items) self.new.token
            ≡ spec.token_asking self.old.client (option_map (λ t. t.items) self.old.token) plan.now }
        ensures kept { (self.new.rest ≡ self.old.rest) × (self.new.started ≡ self.old.started)
            × (self.new.moment ≡ self.old.moment) × (self.new.first ≡ self.old.first)
            × (self.new.cancelled ≡ self.old.cancelled) }
        ensures cause { self.new.cause ≡ causes.cause_after self.old.cause
            (causes.cause_refused None self.old.client.link.peer_max plan.now
            (spec.asking_refusal self.old.client self.old.token plan.now)) }
        ensures status { IfOk result (λ next. IfSome next IsStatus) }
        ensures output { E.is_failed err.new ≡ is_err result }
    {
        if !self.must_send_request() {
            return Ok(None);
        }
        match self
            .client
            .send_or_refuse(plan.method, &plan.target, &plan.extras())
        {
            Ok(token) => {
                self.token = Some(token);
                Ok(None)
            }
            Err(refusal) => match refusal.fault {
                RequestFault::NoRoom => Ok(None),
                fault => {
                    self.cause = Some(Cause::Request(refusal));
                    refused(err, fault)
                }
            },
        }
    }

    /// Cancels the observation. If the queue has no room, the next iteration tries again.
    pub(super) fn cancel<E: Outlet>(&mut self, err: &mut E, plan: &ClientPlan) -> StepResult
        requires { E.is_failed err.old ≡ false }
        ensures next { IfOk result (λ next. next ≡ spec.ended_by
            (spec.cancelling_refusal self.old.client (option_map (λ t. t.items) self.old.token) plan.now)) }
        ensures reported { OnOk result (AddsBytes (E.written err.old) (E.written err.new)
            (spec.refusal_text (spec.cancelling_refusal self.old.client (option_map (λ t. t.items) self.old.token)
            plan.now))) }
        ensures after { self.new.client
            ≡ spec.client_cancelling self.old.client (option_map (λ t. t.items) self.old.token) plan.now }
        ensures cancelled { self.new.cancelled
            ≡ spec.cancelled_at self.old.token (spec.cancelling_refusal self.old.client
            (option_map (λ t. t.items) self.old.token) plan.now) self.old.moment self.old.cancelled }
        ensures kept { (self.new.rest ≡ self.old.rest) × (self.new.token ≡ self.old.token)
            × (self.new.started ≡ self.old.started) × (self.new.moment ≡ self.old.moment)
            × (self.new.first ≡ self.old.first) }
        ensures cause { self.new.cause ≡ causes.cause_after self.old.cause
            (causes.cause_refused (option_map (λ t. t.items) self.old.token) self.old.client.link.peer_max plan.now
            (spec.cancelling_refusal self.old.client (option_map (λ t. t.items) self.old.token) plan.now)) }
        ensures status { IfOk result (λ next. IfSome next IsStatus) }
        ensures output { E.is_failed err.new ≡ is_err result }
    {
        let Some(token) = &self.token else {
            return Ok(None);
        };
        match self
            .client
            .cancel_or_refuse(token, &plan.target, &plan.extras())
        {
            Ok(()) => {
                self.cancelled = Some(self.moment);
                Ok(None)
            }
            Err(refusal) => match refusal.fault {
                RequestFault::NoRoom => Ok(None),
                fault => {
                    self.cause = Some(Cause::Cancellation(refusal));
                    refused(err, fault)
                }
            },
        }
    }

    /// Writes once if any bytes are queued. If the wire fails, the run ends, unless it has already ended.
    pub(super) fn flush<W: Wire, E: Outlet>(
        &mut self,
        wire: &mut W,
        err: &mut E,
        next: Option<u8>,
    ) -> StepResult
        requires works { E.is_failed err.old ≡ false }
        requires known { IfSome next IsStatus }
        ensures runs { Flushes (with_wire (W.given wire.old) (W.written wire.old) (W.answers wire.old)
            (E.written err.old)) (with_wire (W.given wire.new) (W.written wire.new) (W.answers wire.new)
            (E.written err.new)) self.old self.new next result }
        ensures status { IfOk result (λ next. IfSome next IsStatus) }
        ensures output { E.is_failed err.new ≡ is_err result }
    {
        if self.client.waiting() == 0 {
            return Ok(next);
        }
        let got = self.write(wire);
        match stop_written(next, got) {
            Some(reason) => {
                self.cause = Some(Cause::Stopped(reason));
                stopped(err, reason)
            }
            None => Ok(next),
        }
    }

    /// Writes the first contiguous queued bytes once, and removes those that the wire accepted from the queue.
    fn write<W: Wire>(&mut self, wire: &mut W) -> Got
        requires some { 1 ≤ length self.old.client.link.waiting }
        ensures client { self.new.client ≡ value.client_written self.old.client (count_passed result) }
        ensures shows { (tokens : ℕ) (calls : List ClientCall) → ClientShows self.old.client tokens calls →
            ClientShows self.new.client tokens (calls ++ spec.calls_written result) }
        ensures wrote { AddsBytes (W.written wire.old) (W.written wire.new)
            (bytes_passed self.old.client.link.waiting result) }
        ensures gave { AddsBytes (W.given wire.old) (W.given wire.new) [] }
        ensures answered { AddsCalls (W.answers wire.old) (W.answers wire.new) (result ∷ []) }
        ensures kept { (self.new.rest ≡ self.old.rest) × (self.new.token ≡ self.old.token)
            × (self.new.started ≡ self.old.started) × (self.new.moment ≡ self.old.moment)
            × (self.new.first ≡ self.old.first) × (self.new.cancelled ≡ self.old.cancelled)
            × (self.new.cause ≡ self.old.cause) }
    {
        let part = first_part(self.client.parts());
        match wire.write(part) {
            Got::Bytes(count) => {
                self.client.written(count);
                Got::Bytes(count)
            }
            Got::Later => Got::Later,
            Got::End => Got::End,
            Got::Failed => Got::Failed,
        }
    }
}

/// Returns the reason if a write ends the run: the wire failed, and the run had not ended before.
fn stop_written(next: Option<u8>, got: Got) -> Option<Reason>
    ensures { result ≡ spec.stop_written next got }
{
    if next.is_some() {
        return None;
    }
    match got {
        Got::Bytes(_) => None,
        Got::Later => None,
        Got::End => Some(Reason::Ended),
        Got::Failed => Some(Reason::Ended),
    }
}
