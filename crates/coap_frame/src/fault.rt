//! The error of `Framer::raise`.

use thiserror::Error;

/// Reason why `Framer::raise` fails. The discriminants are the numbers of the errors.
#[derive(Clone, Copy, Debug, PartialEq, Eq, Error)]
pub enum RaiseFault {
    /// Size below the current maximum.
    #[error("size below the current maximum")]
    Lower = 1,
    /// Size above 1,048,576 bytes.
    #[error("size above 1,048,576 bytes")]
    TooLarge = 2,
    /// Allocation failure.
    #[error("no memory")]
    Memory = 3,
}

const _: () = prove!(RaiseFault::Lower as u8 == 1);

const _: () = prove!(RaiseFault::TooLarge as u8 == 2);

const _: () = prove!(RaiseFault::Memory as u8 == 3);
