//! The error types of this crate: malformed frames, malformed messages, and parts that a builder rejects.

use thiserror::Error;

/// Error in the first bytes of a frame, known before the frame is complete. The discriminants are the errors' numbers.
#[derive(Clone, Copy, Debug, PartialEq, Eq, Error)]
pub enum FrameFault {
    /// Token length above 64, or of nibble 15 (RFC 8974 section 2.1). The first is known at the last byte of its
    /// extension, the second at the first byte of the frame.
    #[error("token length above 64")]
    TokenLength = 1,
    /// Frame above the maximum size (RFC 8323 section 5.3.1), known at the last byte that states its size. If the token
    /// length has an extension (RFC 8974 section 2.1), this is its last byte; otherwise it is the last byte of the
    /// length.
    #[error("frame too large")]
    TooLarge = 2,
}

/// First error of bytes that encode no message. The discriminants are the errors' numbers.
#[derive(Clone, Copy, Debug, PartialEq, Eq, Error)]
pub enum FormatFault {
    /// Token length above 64, or of nibble 15 (RFC 8974 section 2.1).
    #[error("token length above 64")]
    TokenLength = 1,
    /// Option delta of nibble 15 in a byte that is no payload marker (RFC 7252 section 3.1).
    #[error("option delta 15")]
    OptionDelta = 2,
    /// Option length of nibble 15 (RFC 7252 section 3.1).
    #[error("option length 15")]
    OptionLength = 3,
    /// End of the bytes within an option.
    #[error("truncated option")]
    OptionCut = 4,
    /// Option number above 65,535.
    #[error("option number above 65,535")]
    OptionNumber = 5,
    /// Payload marker without a byte after it (RFC 7252 section 3).
    #[error("payload marker without payload")]
    EmptyPayload = 6,
    /// Bytes that are not exactly one frame: none, too few, or more than the first bytes declare.
    #[error("not exactly one frame")]
    NotOneFrame = 7,
}

/// Error of a builder that rejects a part of a message. The discriminants are the errors' numbers.
#[derive(Clone, Copy, Debug, PartialEq, Eq, Error)]
pub enum BuildFault {
    /// Option number below that of the last option.
    #[error("option number below the previous one")]
    Order = 1,
    /// Option value of more than 65,804 bytes, or payload of more than 1,048,576 bytes.
    #[error("value or payload too long")]
    TooLong = 2,
    /// Limit of options reached: the `N` of the builder, or 40.
    #[error("option limit reached")]
    Full = 3,
}

const _: () = prove!(FrameFault::TokenLength as u8 == 1 && FrameFault::TooLarge as u8 == 2);

const _: () = prove!(
    FormatFault::TokenLength as u8 == 1
        && FormatFault::OptionDelta as u8 == 2
        && FormatFault::OptionLength as u8 == 3
        && FormatFault::OptionCut as u8 == 4
        && FormatFault::OptionNumber as u8 == 5
        && FormatFault::EmptyPayload as u8 == 6
        && FormatFault::NotOneFrame as u8 == 7
);

const _: () = prove!(
    BuildFault::Order as u8 == 1 && BuildFault::TooLong as u8 == 2 && BuildFault::Full as u8 == 3
);
