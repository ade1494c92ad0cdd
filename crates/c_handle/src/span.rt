//! `Span`, the place of bytes that a program in C reads, and `Parts`, two spans.

ghost use Rattle.std.specs.Prelude.{ℕ, List};

use std::marker::Model;

/// Place of bytes in memory, and their number. A span owns nothing. Contracts see the bytes of the slice that it was
/// made for.
#[repr(C)]
#[derive(Drop)]
pub struct Span {
    /// Address of the first byte.
    pub(crate) at: *const u8,
    /// Number of bytes.
    pub(crate) count: usize,
    pub ghost bytes: { List ℕ },
}

impl Model for Span {
    ghost use base.Fml.{ftrue};

    ghost also_owns = { λ _. ftrue };
}

/// Two spans whose bytes follow each other.
#[repr(C)]
#[derive(Drop)]
pub struct Parts {
    /// First bytes.
    pub first: Span,
    /// Bytes after the first ones.
    pub second: Span,
}
