//! Reports of a run: the payloads and lines that it writes, and the exit status that follows from them.

ghost use Rattle.std.specs.Prelude.{◌≡◌, ◌||◌, false, is_err, Some, IfOk, IfSome, OnOk};
ghost use Rattle.coap_client_engine.specs.Prelude.{AddsBytes, event_value, IsStatus, EndsWithStatus};
ghost use Rattle.coap_client_engine.specs.ClientValues as value;
ghost use Rattle.coap_client_engine.specs.RunCauses as causes;
ghost use Rattle.coap_client_engine.specs.RunSteps as spec;
ghost use Rattle.coap_client_engine.specs.RunTexts as text;

use crate::client::Event;
use crate::error_lines::{
    report_option, report_refusal, report_response, report_stop, write_payload,
};
use crate::run::state::{ANSWERED, CONNECTION_FAILED, ERROR_RESPONSE, EventOutcome, StepResult};
use crate::run_end::Cause;
use coap_client_request::ClientPlan;
use coap_conn::{Reason, RequestFault};
use coap_io::{Outlet, WriteFailed};
use coap_wire::MessageRef;

/// Reports an event, and returns its effect on the run.
pub(super) fn handle_event<O: Outlet, E: Outlet>(
    event: &Event,
    out: &mut O,
    err: &mut E,
    plan: &ClientPlan,
) -> Result<EventOutcome, WriteFailed>
    requires out_works { O.is_failed out.old ≡ false }
    requires err_works { E.is_failed err.old ≡ false }
    ensures outcome { IfOk result (λ outcome. outcome ≡ spec.outcome_of (event_value event.now)) }
    ensures out { OnOk result (AddsBytes (O.written out.old) (O.written out.new)
        (spec.output_of (event_value event.now) plan.now)) }
    ensures err { OnOk result (AddsBytes (E.written err.old) (E.written err.new)
        (spec.errors_of (event_value event.now))) }
    ensures status { IfOk result EndsWithStatus }
    ensures output { (O.is_failed out.new || E.is_failed err.new) ≡ is_err result }
{
    match event {
        Event::Response(message) => Ok(EventOutcome::Ended(answered(message, out, err, plan)?)),
        Event::Notification(message) => {
            write_payload(out, message.payload(), plan)?;
            Ok(EventOutcome::Notified)
        }
        Event::Rejected { number, .. } => {
            report_option(err, *number)?;
            Ok(EventOutcome::Ended(ERROR_RESPONSE))
        }
        Event::Stopped(reason) => {
            report_stop(err, *reason)?;
            Ok(EventOutcome::Ended(CONNECTION_FAILED))
        }
        Event::Ready => Ok(EventOutcome::Nothing),
        Event::Pong { .. } => Ok(EventOutcome::Nothing),
        Event::Stranger => Ok(EventOutcome::Nothing),
    }
}

/// Returns the cause of the end of the run, if an event ends it without a response that the client accepts.
pub(super) fn cause_of(event: &Event) -> Option<Cause>
    ensures { result ≡ causes.cause_of (event_value event.now) }
{
    match event {
        Event::Rejected { number, .. } => Some(Cause::BadOption(*number)),
        Event::Stopped(reason) => Some(Cause::Stopped(*reason)),
        Event::Response(_) => None,
        Event::Notification(_) => None,
        Event::Ready => None,
        Event::Pong { .. } => None,
        Event::Stranger => None,
    }
}

/// Writes the payload of a last response that is 2.xx, or reports another one. Returns the exit status.
fn answered<O: Outlet, E: Outlet>(
    response: &MessageRef,
    out: &mut O,
    err: &mut E,
    plan: &ClientPlan,
) -> Result<u8, WriteFailed>
    requires out_works { O.is_failed out.old ≡ false }
    requires err_works { E.is_failed err.old ≡ false }
    ensures answer { IfOk result (λ status. status ≡ spec.response_status response.now.code) }
    ensures out { OnOk result (AddsBytes (O.written out.old) (O.written out.new)
        (spec.output_of (value.Response response.now) plan.now)) }
    ensures err { OnOk result (AddsBytes (E.written err.old) (E.written err.new)
        (spec.errors_of (value.Response response.now))) }
    ensures status { IfOk result IsStatus }
    ensures output { (O.is_failed out.new || E.is_failed err.new) ≡ is_err result }
{
    if response.code().class() == 2 {
        write_payload(out, response.payload(), plan)?;
        return Ok(ANSWERED);
    }
    report_response(err, response)?;
    Ok(ERROR_RESPONSE)
}

/// Reports the error of a request, which ends the run.
pub(super) fn refused<E: Outlet>(err: &mut E, fault: RequestFault) -> StepResult
    requires { E.is_failed err.old ≡ false }
    ensures reported { OnOk result (AddsBytes (E.written err.old) (E.written err.new) (text.fault_line fault)) }
    ensures ended { IfOk result (λ next. next ≡ Some 3) }
    ensures status { IfOk result (λ next. IfSome next IsStatus) }
    ensures output { E.is_failed err.new ≡ is_err result }
{
    report_refusal(err, fault)?;
    Ok(Some(CONNECTION_FAILED))
}

/// Reports the stop of the connection, which ends the run.
pub(super) fn stopped<E: Outlet>(err: &mut E, reason: Reason) -> StepResult
    requires { E.is_failed err.old ≡ false }
    ensures reported { OnOk result (AddsBytes (E.written err.old) (E.written err.new) (text.stop_line reason)) }
    ensures ended { IfOk result (λ next. next ≡ Some 3) }
    ensures status { IfOk result (λ next. IfSome next IsStatus) }
    ensures output { E.is_failed err.new ≡ is_err result }
{
    report_stop(err, reason)?;
    Ok(Some(CONNECTION_FAILED))
}
