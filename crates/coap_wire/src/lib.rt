//! CoAP messages over reliable transports: their encoding (RFC 8323 section 3.2, RFC 7252 section 3.1, RFC 8974 section
//! 2.1), and the frames of a stream.
//!
//! - `parse` decodes a frame into a `MessageRef`, which borrows the frame's bytes. `Options`, `RecognisedOptions` and
//!   `CheckedOptions` iterate over its options.
//! - `FrameRef` is a frame with its layout, as `coap_frame` returns it. Its `parse` does not read the head again.
//! - `Builder` and `CompactBuilder` encode a message into a `Sink`.
//! - `read_option` and `payload_of` decode options that are not in a frame. `write_head` and `write_option_head` encode
//!   the parts of a message that a caller writes itself.
//! - `declared` returns the size that the first bytes of a frame declare, or reports an invalid token length. `outline`
//!   also returns the layout of the frame.
//! - `Token`, `Code`, `kind` (the table of options), `uint_value` and `uint_bytes` are the parts of messages. Sizes
//!   that several crates use are constants here, such as `LARGEST_MESSAGE`.
//! - `laws` has the theorems on encodings, streams and options.
//!
//! The contracts name the definitions of `specs/Spelling.antt` (encoding), `specs/Reading.antt` (decoding) and
//! `specs/Stream.antt` (the messages of a stream).
//!
//! This crate keeps no state and does not know what a message asks for. The crate `coap_frame` collects the bytes of a
//! frame that arrives in several reads, `coap_conn` handles Signalling Messages, and `coap_store` responds to requests.
//! Continue with `message.rt`.
#![tactic(auto)]

mod body;
mod builder;
mod code;
mod compact;
mod declaration;
mod decode;
mod encode;
mod fault;
mod form;
mod frame;
pub mod laws;
mod layout;
mod message;
mod option;
pub mod option_numbers;
mod option_table;
mod options;
mod recognition;
mod sink;
mod size;
mod sizes;
mod token;
mod uint;

pub use body::Body;
pub use builder::{Builder, MessageBuilder};
pub use code::Code;
pub use compact::{CompactBuilder, SHORT_OPTIONS, ShortBuilder};
pub use declaration::Declared;
pub use decode::{payload_of, read_option};
pub use encode::{append_short, write_head, write_option_head};
pub use fault::{BuildFault, FormatFault, FrameFault};
pub use frame::FrameRef;
pub use layout::{FrameLayout, Outline};
pub use message::{MessageRef, parse};
pub use option::{OptionRef, PAYLOAD_MARKER};
pub use option_table::{OptionKind, kind};
pub use options::Options;
pub use recognition::{CheckedOption, CheckedOptions, RecognisedOptions};
pub use sink::{Sink, SliceSink};
pub use size::{declared, outline};
pub use sizes::{
    BASE_MESSAGE_SIZE, DEFAULT_QUEUE, LARGEST_MESSAGE, LARGEST_QUEUE, LARGEST_SENT_MESSAGE,
    MAX_EXTENDED_LENGTH,
};
pub use token::{MAX_TOKEN, Token, TokenRef, copy_of};
pub use uint::{UintBytes, significant_bytes, uint_bytes, uint_value};
