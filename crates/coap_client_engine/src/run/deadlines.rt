//! Deadlines of a run: the time to cancel the observation, and the time to stop waiting for a response.

ghost use Rattle.std.specs.Prelude.{◌≡◌, false, is_err, [], option_map, IfOk, IfSome, OnOk, if◌then◌else◌};
ghost use Rattle.coap_client_engine.specs.Prelude.{AddsBytes, IsStatus};
ghost use Rattle.coap_client_engine.specs.RunCauses as causes;
ghost use Rattle.coap_client_engine.specs.RunSteps as spec;

use crate::run::state::{Run, StepResult, TIMED_OUT};
use crate::run_end::{Awaited, Cause};
use coap_client_request::ClientPlan;
use coap_conn::Phase;
use coap_io::Outlet;

impl Run {
    /// Checks the deadlines: cancels the observation if its seconds have passed, or ends the run if a response is
    /// overdue.
    ///
    /// The run waits for its first response from its start, and for its last response from the cancellation.
    pub(super) fn check_deadlines<E: Outlet>(
        &mut self,
        err: &mut E,
        plan: &ClientPlan,
    ) -> StepResult
        requires { E.is_failed err.old ≡ false }
        ensures after { self.new.client
            ≡ (if spec.is_to_cancel self.old.cancelled self.old.first self.old.moment plan.now.observe then
            spec.client_cancelling self.old.client (option_map (λ t. t.items) self.old.token) plan.now else
            self.old.client) }
        ensures cancelled { self.new.cancelled
            ≡ (if spec.is_to_cancel self.old.cancelled self.old.first self.old.moment plan.now.observe then
            spec.cancelled_at self.old.token (spec.cancelling_refusal self.old.client
            (option_map (λ t. t.items) self.old.token) plan.now) self.old.moment self.old.cancelled else
            self.old.cancelled) }
        ensures kept { (self.new.rest ≡ self.old.rest) × (self.new.token ≡ self.old.token)
            × (self.new.started ≡ self.old.started) × (self.new.moment ≡ self.old.moment)
            × (self.new.first ≡ self.old.first) }
        ensures cause { self.new.cause ≡ causes.cause_after self.old.cause
            (causes.watched_cause self.old.cancelled self.old.first self.old.started self.old.moment plan.now
            self.old.client.link.phase (causes.cause_refused (option_map (λ t. t.items) self.old.token)
            self.old.client.link.peer_max plan.now
            (spec.cancelling_refusal self.old.client (option_map (λ t. t.items) self.old.token) plan.now))) }
        ensures next { IfOk result (λ next. next ≡ spec.watched self.old.cancelled self.old.first self.old.started
            self.old.moment plan.now (spec.ended_by
            (spec.cancelling_refusal self.old.client (option_map (λ t. t.items) self.old.token) plan.now))) }
        ensures reported { OnOk result (AddsBytes (E.written err.old) (E.written err.new)
            (if spec.is_to_cancel self.old.cancelled self.old.first self.old.moment plan.now.observe then
            spec.refusal_text (spec.cancelling_refusal self.old.client (option_map (λ t. t.items) self.old.token)
            plan.now) else [])) }
        ensures status { IfOk result (λ next. IfSome next IsStatus) }
        ensures output { E.is_failed err.new ≡ is_err result }
    {
        if let Some(since) = self.cancelled {
            return Ok(self.give_up_after(since, plan.wait));
        }
        let Some(since) = self.first else {
            return Ok(self.give_up_after(self.started, plan.wait));
        };
        if !has_passed(self.moment, since, plan.observe.unwrap_or(0)) {
            return Ok(None);
        }
        self.cancel(err, plan)
    }

    /// Ends the run if it has waited since `since` for `wait` seconds. Returns the exit status, and records the cause.
    fn give_up_after(&mut self, since: u64, wait: u32) -> Option<u8>
        ensures timeout_status { result ≡ spec.timeout_status self.old.moment since wait }
        ensures status { IfSome result IsStatus }
        ensures cause { self.new ≡ record self.old {
          cause = causes.cause_after self.old.cause (causes.cause_waited
              (causes.awaited_in self.old.client.link.phase self.old.cancelled) self.old.moment since wait);
        } }
    {
        if !has_passed(self.moment, since, wait) {
            return None;
        }
        let awaited = awaited_in(self.client.phase(), self.cancelled);
        self.cause = Some(Cause::TimedOut(awaited, wait));
        Some(TIMED_OUT)
    }
}

/// Returns what the client awaits: the first CSM of the peer, then a response, and after a cancellation the last one.
fn awaited_in(phase: Phase, cancelled: Option<u64>) -> Awaited
    ensures { result ≡ causes.awaited_in phase cancelled }
{
    if phase == Phase::Waiting {
        return Awaited::Csm;
    }
    match cancelled {
        Some(_) => Awaited::LastResponse,
        None => Awaited::Response,
    }
}

/// Returns `true` if at least `seconds` seconds have passed between `since` and `now`.
fn has_passed(now: u64, since: u64, seconds: u32) -> bool
    ensures { result ≡ spec.has_passed now since seconds }
{
    now.saturating_sub(since) >= seconds as u64
}
