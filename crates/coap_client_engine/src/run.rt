//! Runs a client over one transport connection, as a plan says.

ghost use Rattle.std.specs.Prelude.{◌≡◌, ◌||◌, false, is_err, IfOk, IfSome};
ghost use Rattle.coap_client_engine.specs.Prelude.{is_output_fault, IfMemory, IsStatus, IsFresh, IsClientRun};
ghost use Rattle.coap_client_engine.specs.Prelude.{IsExplainedRun};
ghost use Rattle.coap_client_engine.specs.Prelude.{FailedBeforeStart, records, with_outlets, with_all, HasReadClock};
ghost use Rattle.coap_client_engine.specs.Prelude.{IsFinished, IsFlushed, ExtendsTrace};

mod deadlines;
mod receive;
mod report;
mod state;
mod transmit;

use crate::run_end::RunEnd;
use coap_client_request::ClientPlan;
use coap_io::{Clock, Outlet, Wire};
pub use state::ClientFault;
use state::{Run, StepResult, TIMED_OUT};
use std::alloc::Global;

/// Maximum number of iterations of a run.
const TURNS: u64 = 1_000_000_000_000;

/// Runs a client over one transport connection, and returns the exit status of the program.
///
/// The request of the plan is sent after the peer's Capabilities and Settings Message (CSM) has arrived. The run writes
/// the payloads of 2.xx responses to `out`, and all other reports to `err`. An observation is cancelled after the
/// seconds that the plan gives, counted from the first notification. The status is:
///
/// - 0: the last response was 2.xx.
/// - 2: the last response was not 2.xx, or it had a critical option that is not recognised.
/// - 3: the connection stopped, or the request could not be sent.
/// - 4: no response arrived in time, or the run had 1,000,000,000,000 iterations.
///
/// If a message, a failed request or the time ends the run, its last iteration still tries to write the queued bytes.
///
/// The devices of the programs record nothing. The proved test `run_recorded` has the clause `run` for devices that
/// record. No clause gives the order of calls across devices.
///
/// # Errors
///
/// - `Output`: an outlet failed.
/// - `Memory`: allocation of the client's memory failed.
///
/// # Preconditions
///
/// Neither outlet has failed before.
pub fn run_client<W: Wire, C: Clock, O: Outlet, E: Outlet>(
    alloc: Global,
    wire: &mut W,
    clock: &mut C,
    out: &mut O,
    err: &mut E,
    plan: &ClientPlan,
) -> Result<u8, ClientFault>
    requires out_works { O.is_failed out.old ≡ false }
    requires err_works { E.is_failed err.old ≡ false }
    // A trace of the run agrees with the records of its devices, and ends with the returned status.
    ensures run { IfOk result (IsClientRun plan.now (records (W.given wire.old) (W.written wire.old)
        (W.answers wire.old) (C.moments clock.old) (O.written out.old) (E.written err.old))
        (records (W.given wire.new) (W.written wire.new) (W.answers wire.new) (C.moments clock.new) (O.written out.new)
        (E.written err.new))) }
    ensures status { IfOk result IsStatus }
    // If allocation fails, nothing was read or written before.
    ensures memory { IfMemory result (FailedBeforeStart plan.now
        (records (W.given wire.old) (W.written wire.old) (W.answers wire.old) (C.moments clock.old) (O.written out.old)
        (E.written err.old)) (records (W.given wire.new) (W.written wire.new) (W.answers wire.new) (C.moments clock.new)
        (O.written out.new) (E.written err.new))) }
    // `Output` is returned if and only if an outlet failed.
    ensures output { (O.is_failed out.new || E.is_failed err.new) ≡ is_output_fault result }
{
    Ok(run_to_end(alloc, wire, clock, out, err, plan)?.status)
}

/// Runs a client over one transport connection as `run_client` does, and returns its end: the exit status and the
/// cause.
///
/// # Errors
///
/// - `Output`: an outlet failed.
/// - `Memory`: allocation of the client's memory failed.
///
/// # Preconditions
///
/// Neither outlet has failed before.
pub fn run_to_end<W: Wire, C: Clock, O: Outlet, E: Outlet>(
    alloc: Global,
    wire: &mut W,
    clock: &mut C,
    out: &mut O,
    err: &mut E,
    plan: &ClientPlan,
) -> Result<RunEnd, ClientFault>
    requires out_works { O.is_failed out.old ≡ false }
    requires err_works { E.is_failed err.old ≡ false }
    // A trace of the run agrees with the records of its devices. It ends with the returned status and cause.
    ensures run { IfOk result
        (IsExplainedRun plan.now (records (W.given wire.old) (W.written wire.old) (W.answers wire.old)
        (C.moments clock.old) (O.written out.old) (E.written err.old))
        (records (W.given wire.new) (W.written wire.new) (W.answers wire.new) (C.moments clock.new) (O.written out.new)
        (E.written err.new))) }
    ensures status { IfOk result (λ end. IsStatus end.status) }
    // If allocation fails, nothing was read or written before.
    ensures memory { IfMemory result (FailedBeforeStart plan.now
        (records (W.given wire.old) (W.written wire.old) (W.answers wire.old) (C.moments clock.old) (O.written out.old)
        (E.written err.old)) (records (W.given wire.new) (W.written wire.new) (W.answers wire.new) (C.moments clock.new)
        (O.written out.new) (E.written err.new))) }
    // `Output` is returned if and only if an outlet failed.
    ensures output { (O.is_failed out.new || E.is_failed err.new) ≡ is_output_fault result }
{
    let Ok(mut run) = Run::open(alloc, clock.now()) else {
        return Err(ClientFault::Memory);
    };
    for _ in 0..TURNS {
        run.moment = run.moment.max(clock.now());
        if let Some(status) = run.turn(wire, out, err, plan)? {
            return Ok(RunEnd {
                status,
                cause: run.cause,
            });
        }
    }
    Ok(RunEnd {
        status: TIMED_OUT,
        cause: run.cause,
    })
}

impl Run {
    /// Runs one iteration: reads if no input is left, processes the input, checks the deadlines, and writes queued
    /// bytes.
    ///
    /// The write also happens if the iteration ends the run, except if the read ends it.
    fn turn<W: Wire, O: Outlet, E: Outlet>(
        &mut self,
        wire: &mut W,
        out: &mut O,
        err: &mut E,
        plan: &ClientPlan,
    ) -> StepResult
        requires out_works { O.is_failed out.old ≡ false }
        requires err_works { E.is_failed err.old ≡ false }
        ensures runs { ExtendsTrace
            (with_all (W.given wire.old) (W.written wire.old) (W.answers wire.old) (O.written out.old)
            (E.written err.old)) (with_all (W.given wire.new) (W.written wire.new) (W.answers wire.new)
            (O.written out.new) (E.written err.new)) IsFresh IsFlushed plan.now self.old self.new result }
        ensures status { IfOk result (λ next. IfSome next IsStatus) }
        ensures output { (O.is_failed out.new || E.is_failed err.new) ≡ is_err result }
    {
        if let Some(status) = self.read_input(wire, err)? {
            return Ok(Some(status));
        }
        let next = self.process_input(out, err, plan)?;
        self.flush(wire, err, next)
    }

    /// Sends the request if an earlier iteration had no room for it, processes the input, and then checks the
    /// deadlines.
    fn process_input<O: Outlet, E: Outlet>(
        &mut self,
        out: &mut O,
        err: &mut E,
        plan: &ClientPlan,
    ) -> StepResult
        requires out_works { O.is_failed out.old ≡ false }
        requires err_works { E.is_failed err.old ≡ false }
        ensures runs { ExtendsTrace (with_outlets (O.written out.old) (E.written err.old))
            (with_outlets (O.written out.new) (E.written err.new)) HasReadClock IsFinished plan.now self.old self.new
            result }
        ensures status { IfOk result (λ next. IfSome next IsStatus) }
        ensures output { (O.is_failed out.new || E.is_failed err.new) ≡ is_err result }
    {
        if let Some(status) = self.send_request(err, plan)? {
            return Ok(Some(status));
        }
        if let Some(status) = self.take_all(out, err, plan)? {
            return Ok(Some(status));
        }
        self.check_deadlines(err, plan)
    }
}
