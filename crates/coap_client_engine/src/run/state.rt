//! State of a run, and the results of its steps.

ghost use Rattle.std.specs.Prelude.{◌≡◌, None, [], IfOk};
ghost use Rattle.coap_client_engine.specs.Prelude.{ClientShows, default_limits, cause_after};
ghost use Rattle.coap_client_engine.specs.ClientValues as value;
ghost use Rattle.coap_client_engine.specs.declared.run.state.ClientFault.TheVariants as fault;

use crate::client::Client;
use crate::run_end::Cause;
use coap_conn::Limits;
use coap_io::{ReadBuffer, WriteFailed};
use coap_wire::Token;
use std::alloc::{AllocError, Global};
use thiserror::Error;

/// Error that ends a run without an exit status. The discriminants are the numbers of the errors.
#[derive(Clone, Copy, Debug, PartialEq, Eq, Error)]
pub enum ClientFault {
    /// Failure of an outlet.
    #[error("cannot write")]
    Output = 1,
    /// Failure of an allocation.
    #[error("no memory")]
    Memory = 2,
}

const _: () = prove!(ClientFault::Output as u8 == 1);

const _: () = prove!(ClientFault::Memory as u8 == 2);

impl From<WriteFailed> for ClientFault {
    ghost from_gives = { λ failed given. given ≡ fault.Output };

    fn from(_failed: WriteFailed) -> ClientFault {
        ClientFault::Output
    }
}

/// Exit status if the last response was 2.xx.
pub(super) const ANSWERED: u8 = 0;

/// Exit status if the last response was not 2.xx, or had a critical option that is not recognised.
pub(super) const ERROR_RESPONSE: u8 = 2;

/// Exit status if the connection stopped, or the request could not be sent.
pub(super) const CONNECTION_FAILED: u8 = 3;

/// Exit status if no response arrived in time.
pub(super) const TIMED_OUT: u8 = 4;

/// Result of a step of a run, if no outlet failed: the exit status if the run ends, `None` if it continues.
pub(super) type StepResult = Result<Option<u8>, WriteFailed>;

/// Effect of an event on the run.
pub(super) enum EventOutcome {
    /// No effect.
    Nothing,
    /// Arrival of a notification.
    Notified,
    /// End of the run with this exit status.
    Ended(u8),
}

/// State of a run.
#[derive(Drop)]
pub(super) struct Run {
    pub(super) client: Client,
    /// Bytes that were read and that the client has not accepted yet.
    pub(super) rest: ReadBuffer,
    /// Token of the request, after it was sent.
    pub(super) token: Option<Token>,
    /// Time at which the run began, in seconds.
    pub(super) started: u64,
    /// Time of the current iteration, in seconds. It never decreases.
    pub(super) moment: u64,
    /// Time of the first notification, in seconds.
    pub(super) first: Option<u64>,
    /// Time at which the observation was cancelled, in seconds.
    pub(super) cancelled: Option<u64>,
    /// Cause of the end of the run, if it has ended by one.
    pub(super) cause: Option<Cause>,
}

impl Run {
    /// Creates a run that begins at this time, with the limits that both programs use by default.
    pub(super) fn open(alloc: Global, started: u64) -> Result<Run, AllocError>
        ensures client { IfOk result (λ r. r.client ≡ value.new_client default_limits 0) }
        ensures shows { IfOk result (λ r. ClientShows r.client 0 []) }
        ensures rest { IfOk result (λ r. r.rest ≡ []) }
        ensures token { IfOk result (λ r. r.token ≡ None) }
        ensures started { IfOk result (λ r. (r.started ≡ started) × (r.moment ≡ started)) }
        ensures moments { IfOk result (λ r. (r.first ≡ None) × (r.cancelled ≡ None)) }
        ensures cause { IfOk result (λ r. r.cause ≡ None) }
    {
        let Ok(limits) = Limits::builder().build() else {
            unreachable!()
        };
        Ok(Run {
            client: Client::open(alloc, limits, 0)?,
            rest: ReadBuffer::new(alloc)?,
            token: None,
            started,
            moment: started,
            first: None,
            cancelled: None,
            cause: None,
        })
    }

    /// Records a cause of the end of the run, if there is one.
    pub(super) fn record_cause(&mut self, cause: Option<Cause>)
        ensures { self.new ≡ record self.old { cause = cause_after self.old.cause cause } }
    {
        if cause.is_some() {
            self.cause = cause;
        }
    }
}
