//! The errors of a text that is not in link format.

use thiserror::Error;

/// Text that is not in link format. The first `offset` bytes are the start of such a text, as far as this is read from
/// left to right.
#[derive(Clone, Copy, Debug, PartialEq, Eq, Error)]
#[error("no link format at byte {offset}")]
pub struct LinkFault {
    /// Offset of the first byte that cannot occur at its place, or the length of the text if it ends too early.
    pub offset: usize,
}

/// Text that is not in link format, as the functions report it that read a part of the text.
#[derive(Clone, Copy, Debug, PartialEq, Eq, Error)]
#[error("no link format with {left} bytes left")]
pub(crate) struct SyntaxFault {
    /// Number of bytes from the first one that cannot occur at its place, or 0 if the text ends too early.
    pub(crate) left: usize,
}
