//! Sizes in bytes that several crates use: limits of the protocol, limits of this implementation, and defaults.

/// Message size that every endpoint accepts: the base value of Max-Message-Size (RFC 8323 section 5.3.1).
pub const BASE_MESSAGE_SIZE: usize = 1_152;

/// Largest message, payload or representation that an endpoint of this implementation can be configured to accept.
pub const LARGEST_MESSAGE: usize = 1_048_576;

/// Largest message that an endpoint of this implementation can be configured to send. This is also the default.
pub const LARGEST_SENT_MESSAGE: usize = 65_536;

/// Largest output queue that a connection can be configured to have.
pub const LARGEST_QUEUE: usize = 4_194_304;

/// Default size of the output queue of a connection.
pub const DEFAULT_QUEUE: usize = 131_072;

/// Largest option delta, option length (RFC 7252 section 3.1) or token length (RFC 8974 section 2.1) that a nibble and
/// its extension can encode.
pub const MAX_EXTENDED_LENGTH: usize = 65_804;

const _: () = prove!(
    BASE_MESSAGE_SIZE == 1_152
        && LARGEST_MESSAGE == 1_048_576
        && LARGEST_SENT_MESSAGE == 65_536
        && LARGEST_QUEUE == 4_194_304
        && DEFAULT_QUEUE == 131_072
        && MAX_EXTENDED_LENGTH == 65_804
);
