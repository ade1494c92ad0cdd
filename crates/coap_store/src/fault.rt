//! The errors of changes by the embedding program.

use thiserror::Error;

/// Reason why a store rejects a change by the embedding program. The discriminants are the numbers of the errors.
#[derive(Clone, Copy, Debug, PartialEq, Eq, Error)]
pub enum StoreFault {
    /// Path without a resource that can be removed: it is absent, or that of a built-in resource.
    #[error("no such resource")]
    NoSuch = 1,
    /// Representation above the maximum size.
    #[error("representation too large")]
    TooLarge = 2,
    /// Absent path, when the limit of created resources is reached.
    #[error("resource limit reached")]
    Limit = 3,
    /// Path of a built-in resource.
    #[error("path of a built-in resource")]
    BadPath = 4,
    /// End of the version numbers: the last representation stored has the version 2^64 - 1.
    #[error("no version left")]
    VersionsSpent = 5,
    /// Allocation failure.
    #[error("out of memory")]
    Memory = 6,
}

const _: () = prove!(StoreFault::NoSuch as u8 == 1);

const _: () = prove!(StoreFault::TooLarge as u8 == 2);

const _: () = prove!(StoreFault::Limit as u8 == 3);

const _: () = prove!(StoreFault::BadPath as u8 == 4);

const _: () = prove!(StoreFault::VersionsSpent as u8 == 5);

const _: () = prove!(StoreFault::Memory as u8 == 6);
