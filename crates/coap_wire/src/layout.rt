//! The layout of a frame, and the result of `outline`.

/// Positions of the parts of a frame, counted from its first byte (RFC 8323 section 3.2, RFC 8974 section 2.1).
///
/// The bytes before the token state them. The options follow the token.
#[derive(Clone, Copy, Debug, Default, PartialEq, Eq)]
pub struct FrameLayout {
    /// Position of the code, 1 to 5: the number of bytes before it.
    pub code_at: usize,
    /// Position of the token, 2 to 8: the number of bytes before it.
    pub token_at: usize,
    /// Length of the token in bytes, at most 64.
    pub token_length: usize,
}

/// Size and layout of a frame, as far as its first bytes state them.
#[derive(Clone, Copy, Debug, PartialEq, Eq)]
pub enum Outline {
    /// Too few bytes: none, or the extension of the length or of the token length is incomplete.
    Unknown,
    /// Token length above 64, or of nibble 15 (RFC 8974 section 2.1).
    BadToken,
    /// Size and layout of each frame that begins with these bytes.
    Known {
        /// Size of the frame in bytes, at most 4,295,033,171.
        size: u64,
        /// Positions of its parts.
        layout: FrameLayout,
    },
}
