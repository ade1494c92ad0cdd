//! The results and the errors of a server's calls.

ghost use Rattle.std.specs.Prelude.{◌≡◌};
ghost use Rattle.coap_model.specs.Answers.{release_fault, response_fault, take_number};

use coap_conn::{Phase, Reason, RespondFault, SendFault};
use thiserror::Error;

/// Id of a connection. Ids ascend, and none is used twice.
pub type ConnId = u64;

/// Error of opening a connection. The discriminants are the numbers of the errors.
#[derive(Clone, Copy, Debug, PartialEq, Eq, Error)]
pub enum OpenFault {
    /// The server has as many connections as its configuration allows.
    #[error("connection limit reached")]
    Full = 1,
    /// The last connection has the largest id, 2^64 - 1.
    #[error("no connection id left")]
    IdsSpent = 2,
    /// Allocation failed.
    #[error("out of memory")]
    Memory = 3,
}

const _: () = prove!(OpenFault::Full as u8 == 1);

const _: () = prove!(OpenFault::IdsSpent as u8 == 2);

const _: () = prove!(OpenFault::Memory as u8 == 3);

/// Error of a call that names a connection: no connection has this id.
#[derive(Clone, Copy, Debug, PartialEq, Eq, Error)]
#[error("no such connection")]
pub struct NoSuch;

/// Result of offering an input slice to a connection.
#[derive(Clone, Copy, Debug, PartialEq, Eq)]
pub struct Taken {
    /// Number of bytes that were accepted.
    pub bytes: usize,
    /// Effect of the accepted bytes.
    pub handled: Handled,
}

/// Effect of the bytes that a `take` accepted.
#[derive(Clone, Copy, Debug, PartialEq, Eq)]
pub enum Handled {
    /// No message was handled.
    Nothing,
    /// One message was handled.
    Message,
    /// The connection no longer accepts messages: a message, its response or malformed input stopped it, or the peer
    /// released it.
    Stopped(Reason),
}

/// Error of offering an input slice to a connection. The numbers of the errors are 1 and 2.
#[derive(Clone, Copy, Debug, PartialEq, Eq, Error)]
pub enum TakeFault {
    /// No connection has this id.
    #[error("no such connection")]
    NoSuch,
    /// Allocation failed for a representation that a message stores. Nothing was handled. The bytes before the last
    /// byte of the message were accepted, and the caller may offer that last byte again.
    #[error("out of memory")]
    Memory {
        /// Number of bytes of the slice that were accepted.
        bytes: usize,
    },
}

impl TakeFault {
    /// Returns the number of the error, 1 or 2.
    pub const fn number(self) -> u8
        ensures { result ≡ take_number self }
    {
        match self {
            TakeFault::NoSuch => 1,
            TakeFault::Memory { bytes: _ } => 2,
        }
    }
}

/// Error of reporting written bytes. The discriminants are the numbers of the errors.
#[derive(Clone, Copy, Debug, PartialEq, Eq, Error)]
pub enum WrittenFault {
    /// No connection has this id.
    #[error("no such connection")]
    NoSuch = 1,
    /// The count exceeds the number of queued bytes.
    #[error("count exceeds the number of queued bytes")]
    TooMany = 2,
}

const _: () = prove!(WrittenFault::NoSuch as u8 == 1);

const _: () = prove!(WrittenFault::TooMany as u8 == 2);

/// Error of setting the time: it is earlier than the current time of the server.
#[derive(Clone, Copy, Debug, PartialEq, Eq, Error)]
#[error("time is earlier than the current time of the server")]
pub struct Backwards;

/// Error of releasing a connection. The discriminants are the numbers of the errors.
#[derive(Clone, Copy, Debug, PartialEq, Eq, Error)]
pub enum ReleaseFault {
    /// No connection has this id.
    #[error("no such connection")]
    NoSuch = 1,
    /// The connection is not open.
    #[error("connection is not open")]
    NotOpen = 2,
    /// The output queue has no room for the Release.
    #[error("no room in the queue")]
    NoRoom = 3,
    /// The Release exceeds the Max-Message-Size of the peer.
    #[error("message exceeds the Max-Message-Size of the peer")]
    PeerTooSmall = 4,
}

const _: () = prove!(ReleaseFault::NoSuch as u8 == 1);

const _: () = prove!(ReleaseFault::NotOpen as u8 == 2);

const _: () = prove!(ReleaseFault::NoRoom as u8 == 3);

const _: () = prove!(ReleaseFault::PeerTooSmall as u8 == 4);

impl From<SendFault> for ReleaseFault {
    ghost from_gives = { λ fault release. release ≡ release_fault fault };

    fn from(fault: SendFault) -> ReleaseFault {
        match fault {
            SendFault::NotOpen => ReleaseFault::NotOpen,
            SendFault::NoRoom => ReleaseFault::NoRoom,
            SendFault::PeerTooSmall => ReleaseFault::PeerTooSmall,
        }
    }
}

/// Error of a response of the application. The discriminants are the numbers of the errors.
#[derive(Clone, Copy, Debug, PartialEq, Eq, Error)]
pub enum ResponseFault {
    /// No connection has this id.
    #[error("no such connection")]
    NoSuch = 1,
    /// No request with this token waits for a response of the application.
    #[error("no such request")]
    NoSuchRequest = 2,
    /// The bytes are no message of class 2, 4 or 5, or the message has an Observe option.
    #[error("not a response")]
    NotAResponse = 3,
    /// The output queue has no room for the response.
    #[error("no room in the queue")]
    NoRoom = 4,
}

const _: () = prove!(ResponseFault::NoSuch as u8 == 1);

const _: () = prove!(ResponseFault::NoSuchRequest as u8 == 2);

const _: () = prove!(ResponseFault::NotAResponse as u8 == 3);

const _: () = prove!(ResponseFault::NoRoom as u8 == 4);

impl From<RespondFault> for ResponseFault {
    ghost from_gives = { λ fault response. response ≡ response_fault fault };

    fn from(fault: RespondFault) -> ResponseFault {
        match fault {
            RespondFault::NoSuchRequest => ResponseFault::NoSuchRequest,
            RespondFault::NotAResponse => ResponseFault::NotAResponse,
            RespondFault::NoRoom => ResponseFault::NoRoom,
        }
    }
}

/// Error of announcing a size. The discriminants are the numbers of the errors.
#[derive(Clone, Copy, Debug, PartialEq, Eq, Error)]
pub enum AnnounceFault {
    /// No connection has this id.
    #[error("no such connection")]
    NoSuch = 1,
    /// The connection is not open.
    #[error("connection is not open")]
    NotOpen = 2,
    /// The size is below the one announced last.
    #[error("size is below the one announced last")]
    Lower = 3,
    /// The size exceeds 1,048,576 bytes.
    #[error("size exceeds 1,048,576 bytes")]
    TooLarge = 4,
    /// The output queue has no room for the largest message that the server sends.
    #[error("no room in the queue")]
    NoRoom = 5,
    /// Allocation failed for the buffer of a larger message.
    #[error("out of memory")]
    Memory = 6,
    /// The announcement exceeds the Max-Message-Size of the peer.
    #[error("message exceeds the Max-Message-Size of the peer")]
    PeerTooSmall = 7,
}

const _: () = prove!(AnnounceFault::NoSuch as u8 == 1);

const _: () = prove!(AnnounceFault::NotOpen as u8 == 2);

const _: () = prove!(AnnounceFault::Lower as u8 == 3);

const _: () = prove!(AnnounceFault::TooLarge as u8 == 4);

const _: () = prove!(AnnounceFault::NoRoom as u8 == 5);

const _: () = prove!(AnnounceFault::Memory as u8 == 6);

const _: () = prove!(AnnounceFault::PeerTooSmall as u8 == 7);

/// Snapshot of one connection.
#[derive(Clone, Copy, Debug, PartialEq, Eq)]
pub struct Status {
    /// Phase of the connection.
    pub phase: Phase,
    /// Number of bytes kept of an unfinished message.
    pub kept: usize,
    /// Number of bytes queued for writing.
    pub waiting: usize,
    /// Number of pending responses and Pongs.
    pub pending: usize,
    /// Number of observers.
    pub observers: usize,
    /// Largest message that the peer accepts, in bytes.
    pub peer_max: u32,
    /// `true` if nothing more will be written.
    pub finished: bool,
}
