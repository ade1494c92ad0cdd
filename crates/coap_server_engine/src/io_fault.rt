//! Errors of a run of a server.

use thiserror::Error;

/// Error that ends a run. The discriminants are the numbers of the errors.
#[derive(Clone, Copy, Debug, PartialEq, Eq, Error)]
pub enum IoFault {
    /// Failed read of the input.
    #[error("cannot read")]
    Read = 1,
    /// Failed write to the output.
    #[error("cannot write")]
    Write = 2,
    /// Failed allocation.
    #[error("no memory")]
    Memory = 3,
    /// Limit of turns, reached before the run ended.
    #[error("too many turns")]
    Turns = 4,
}

const _: () = prove!(IoFault::Read as u8 == 1);

const _: () = prove!(IoFault::Write as u8 == 2);

const _: () = prove!(IoFault::Memory as u8 == 3);

const _: () = prove!(IoFault::Turns as u8 == 4);
