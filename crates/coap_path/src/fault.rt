//! The errors of entries.

use thiserror::Error;

/// Reason why an entry is rejected. The discriminants are the numbers of the errors.
#[derive(Clone, Copy, Debug, PartialEq, Eq, Error)]
pub enum ApplicationFault {
    /// Another entry, when there are 16.
    #[error("entry limit reached")]
    Full = 1,
    /// Prefix without a segment.
    #[error("root as a prefix")]
    Root = 2,
    /// Prefix of another entry.
    #[error("prefix of another entry")]
    Twice = 3,
    /// No method, a code that is no method, or a method that occurs twice.
    #[error("bad list of methods")]
    Method = 4,
    /// Attributes that RFC 6690 does not allow, or of more than 255 bytes.
    #[error("bad link attributes")]
    Attributes = 5,
    /// Allocation failure.
    #[error("out of memory")]
    Memory = 6,
    /// Prefix that is the path of a built-in resource.
    #[error("built-in path as a prefix")]
    BuiltIn = 7,
}

const _: () = prove!(ApplicationFault::Full as u8 == 1);

const _: () = prove!(ApplicationFault::Root as u8 == 2);

const _: () = prove!(ApplicationFault::Twice as u8 == 3);

const _: () = prove!(ApplicationFault::Method as u8 == 4);

const _: () = prove!(ApplicationFault::Attributes as u8 == 5);

const _: () = prove!(ApplicationFault::Memory as u8 == 6);

const _: () = prove!(ApplicationFault::BuiltIn as u8 == 7);
