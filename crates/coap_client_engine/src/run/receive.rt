//! Input of a run: one read of the wire, and the processing of the bytes that were read.

ghost use Rattle.std.specs.Prelude.{◌≡◌, ◌≤◌, ◌||◌, ◌∷◌, false, is_err, [], length, drop, IfOk, IfSome, OnOk};
ghost use Rattle.coap_client_engine.specs.Prelude.{AddsCalls, count_passed, AddsBytes, IsStatus, IsFresh, with_outlets};
ghost use Rattle.coap_client_engine.specs.Prelude.{with_wire, IsReady, IsAfterRead, IsTaken, ExtendsTrace};
ghost use Rattle.coap_client_engine.specs.Prelude.{ExtendsAllTraces};
ghost use Rattle.coap_client_engine.specs.ClientValues as value;
ghost use Rattle.coap_client_engine.specs.RunCauses as causes;
ghost use Rattle.coap_client_engine.specs.RunSteps as spec;

use crate::run::report::{cause_of, handle_event, stopped};
use crate::run::state::{EventOutcome, Run, StepResult};
use crate::run_end::Cause;
use coap_client_request::ClientPlan;
use coap_conn::{Phase, Reason};
use coap_io::{Got, Outlet, Wire};

impl Run {
    /// Reads once if no input is left to process. The run ends if the input has ended or the wire has failed.
    pub(super) fn read_input<W: Wire, E: Outlet>(&mut self, wire: &mut W, err: &mut E) -> StepResult
        requires { E.is_failed err.old ≡ false }
        ensures runs { ExtendsAllTraces (with_wire (W.given wire.old) (W.written wire.old) (W.answers wire.old)
            (E.written err.old)) (with_wire (W.given wire.new) (W.written wire.new) (W.answers wire.new)
            (E.written err.new)) IsFresh IsAfterRead self.old self.new result }
        ensures status { IfOk result (λ next. IfSome next IsStatus) }
        ensures output { E.is_failed err.new ≡ is_err result }
    {
        if !self.rest.is_empty() {
            return Ok(None);
        }
        let got = self.read(wire);
        match stop_after(self.client.phase(), got) {
            Some(reason) => {
                self.cause = Some(Cause::Stopped(reason));
                stopped(err, reason)
            }
            None => Ok(None),
        }
    }

    /// Reads once into the input buffer, whose old content is dropped. At the end of the input, calls `Client::ended`.
    fn read<W: Wire>(&mut self, wire: &mut W) -> Got
        ensures count { length self.new.rest ≡ count_passed result }
        ensures gave { AddsBytes (W.given wire.old) (W.given wire.new) self.new.rest }
        ensures wrote { AddsBytes (W.written wire.old) (W.written wire.new) [] }
        ensures answered { AddsCalls (W.answers wire.old) (W.answers wire.new) (result ∷ []) }
        ensures client { self.new.client ≡ spec.client_read self.old.client result }
        ensures kept { (self.new.token ≡ self.old.token) × (self.new.started ≡ self.old.started)
            × (self.new.moment ≡ self.old.moment) × (self.new.first ≡ self.old.first)
            × (self.new.cancelled ≡ self.old.cancelled) × (self.new.cause ≡ self.old.cause) }
    {
        match self.rest.read(wire) {
            Got::Bytes(count) => Got::Bytes(count),
            Got::Later => Got::Later,
            Got::End => {
                self.client.ended();
                Got::End
            }
            Got::Failed => Got::Failed,
        }
    }

    /// Returns `true` if more input can be processed: input is left, no request must be sent first, and the client
    /// accepts bytes.
    fn may_take(&self) -> bool
        ensures { result ≡ spec.may_take self.now.client self.now.rest self.now.token }
    {
        if self.rest.is_empty() {
            return false;
        }
        if self.must_send_request() {
            return false;
        }
        self.client.takes()
    }

    /// Processes the input message by message, as long as the client accepts bytes.
    ///
    /// If the request must be sent, it is sent before more input is processed.
    pub(super) fn take_all<O: Outlet, E: Outlet>(
        &mut self,
        out: &mut O,
        err: &mut E,
        plan: &ClientPlan,
    ) -> StepResult
        requires out_works { O.is_failed out.old ≡ false }
        requires err_works { E.is_failed err.old ≡ false }
        ensures runs { ExtendsTrace (with_outlets (O.written out.old) (E.written err.old))
            (with_outlets (O.written out.new) (E.written err.new)) IsReady IsTaken plan.now self.old self.new result }
        ensures status { IfOk result (λ next. IfSome next IsStatus) }
        ensures output { (O.is_failed out.new || E.is_failed err.new) ≡ is_err result }
    {
        for _ in 0..self.rest.bytes().len() {
            if !self.may_take() {
                return Ok(None);
            }
            if let Some(status) = self.take(out, err, plan)? {
                return Ok(Some(status));
            }
            if let Some(status) = self.send_request(err, plan)? {
                return Ok(Some(status));
            }
        }
        Ok(None)
    }

    /// Processes input up to the end of one message, and reports its event.
    fn take<O: Outlet, E: Outlet>(
        &mut self,
        out: &mut O,
        err: &mut E,
        plan: &ClientPlan,
    ) -> StepResult
        requires out_works { O.is_failed out.old ≡ false }
        requires err_works { E.is_failed err.old ≡ false }
        ensures next { IfOk result (λ next. next ≡ spec.event_status
            (value.taking self.old.client self.old.rest).event) }
        ensures out { OnOk result (AddsBytes (O.written out.old) (O.written out.new)
            (spec.event_output (value.taking self.old.client self.old.rest).event plan.now)) }
        ensures err { OnOk result (AddsBytes (E.written err.old) (E.written err.new)
            (spec.event_errors (value.taking self.old.client self.old.rest).event)) }
        ensures client { self.new.client ≡ (value.taking self.old.client self.old.rest).client }
        ensures rest { OnOk result (self.new.rest ≡ drop (value.taking self.old.client self.old.rest).count
            self.old.rest) }
        ensures within { (value.taking self.old.client self.old.rest).count ≤ length self.old.rest }
        ensures kept { (self.new.token ≡ self.old.token) × (self.new.started ≡ self.old.started)
            × (self.new.moment ≡ self.old.moment) × (self.new.cancelled ≡ self.old.cancelled) }
        ensures first { OnOk result (self.new.first ≡ spec.event_first
            (value.taking self.old.client self.old.rest).event
            self.old.first self.old.moment) }
        ensures cause { OnOk result (self.new.cause ≡ causes.cause_after self.old.cause
            (causes.event_cause (value.taking self.old.client self.old.rest).event)) }
        ensures status { IfOk result (λ next. IfSome next IsStatus) }
        ensures output { (O.is_failed out.new || E.is_failed err.new) ≡ is_err result }
    {
        let taken = self.client.take(self.rest.bytes());
        let bytes = taken.bytes;
        let (outcome, cause) = match taken.event() {
            Some(event) => (handle_event(&event, out, err, plan)?, cause_of(&event)),
            None => (EventOutcome::Nothing, None),
        };
        self.rest.advance(bytes);
        self.record_cause(cause);
        match outcome {
            EventOutcome::Nothing => Ok(None),
            EventOutcome::Notified => {
                if self.first.is_none() {
                    self.first = Some(self.moment);
                }
                Ok(None)
            }
            EventOutcome::Ended(status) => Ok(Some(status)),
        }
    }
}

/// Returns the reason if a read ends the run: the input has ended, or the wire has failed.
fn stop_after(phase: Phase, got: Got) -> Option<Reason>
    ensures { result ≡ spec.stop_after phase got }
{
    match got {
        Got::Bytes(_) => None,
        Got::Later => None,
        Got::End => phase.stop(),
        Got::Failed => Some(Reason::Ended),
    }
}
