//! `RequestError`, the reason for which a request changes nothing.

ghost use Rattle.std.specs.Prelude.{◌≡◌};
ghost use Rattle.directory_core.specs.ChangeViews.{reply_of_error};

use crate::refusal::Refusal;
use crate::reply::Reply;
use std::alloc::AllocError;

/// Reason for which a request changes nothing.
#[derive(Clone, Copy)]
pub(crate) enum RequestError {
    /// The request is refused.
    Refused(Refusal),
    /// Allocation failed.
    Memory,
}

impl RequestError {
    /// Returns the reply that says so.
    pub(crate) fn reply(self) -> Reply
        ensures { result ≡ reply_of_error self }
    {
        match self {
            RequestError::Refused(refusal) => Reply::Refused(refusal),
            RequestError::Memory => Reply::OutOfMemory,
        }
    }
}

impl From<Refusal> for RequestError {
    ghost use Rattle.std.specs.Prelude.{◌≡◌};
    ghost use Rattle.directory_core.specs.declared.request_error.RequestError.TheVariants.{Refused};

    ghost from_gives = { λ refusal error. error ≡ Refused refusal };

    fn from(refusal: Refusal) -> RequestError {
        RequestError::Refused(refusal)
    }
}

impl From<AllocError> for RequestError {
    ghost use Rattle.std.specs.Prelude.{◌≡◌};
    ghost use Rattle.directory_core.specs.declared.request_error.RequestError.TheVariants.{Memory};

    ghost from_gives = { λ _ error. error ≡ Memory };

    fn from(_error: AllocError) -> RequestError {
        RequestError::Memory
    }
}
