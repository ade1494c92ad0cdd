//! An option of a message (RFC 7252 section 3.1).

/// Byte between the options and the payload (RFC 7252 section 3).
pub const PAYLOAD_MARKER: u8 = 0xff;

/// Option with a borrowed value: part of a frame that was read, or bytes that a builder encodes.
#[derive(Clone, Copy, Default)]
pub struct OptionRef<'a> {
    /// Option number, which identifies the meaning of the option (RFC 7252 section 5.10).
    pub number: u16,
    /// Value of the option, at most 65,804 bytes if it was read.
    pub value: &'a [u8],
}
