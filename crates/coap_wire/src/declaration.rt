//! The result of `declared`.

/// Size of a frame, as far as its first bytes declare it (RFC 8323 section 3.2, RFC 8974 section 2.1).
#[derive(Clone, Copy, Debug, PartialEq, Eq)]
pub enum Declared {
    /// Too few bytes: none, or the extension of the length or of the token length is incomplete.
    Unknown,
    /// Size in bytes of each frame that begins with these bytes, at most 4,295,033,171.
    Size(u64),
    /// Token length above 64, or of nibble 15 (RFC 8974 section 2.1).
    BadToken,
}
