//! States of a connection, and the results and errors of its calls.

ghost use Rattle.std.specs.Prelude.{◌≡◌};
ghost use Rattle.coap_conn.specs.Prelude.{stop_of, reject_of_frame, reject_reason};

use crate::reason::Reason;
use coap_wire::{FrameFault, Token, TokenRef};
use thiserror::Error;

/// End of the connection.
#[derive(Clone, Copy, PartialEq, Eq)]
pub enum Role {
    /// End that responds to requests.
    Server,
    /// End that sends requests.
    Client,
}

/// State of a connection.
#[derive(Clone, Copy, Debug, PartialEq, Eq)]
pub enum Phase {
    /// State before the peer's first CSM (RFC 8323 section 3.3).
    Waiting,
    /// State after the peer's first CSM, until the connection stops or is released.
    Open,
    /// State after the peer's Release: no message is accepted, and pending entries are still sent (RFC 8323 section
    /// 5.5).
    Releasing(Reason),
    /// Final state: no message is accepted or queued. Queued bytes are still written.
    Stopped(Reason),
}

impl Phase {
    /// Returns the reason for which no message is accepted, or `None` in the phases `Waiting` and `Open`.
    pub fn stop(self) -> Option<Reason>
        ensures { result ≡ stop_of self }
    {
        match self {
            Phase::Waiting => None,
            Phase::Open => None,
            Phase::Releasing(reason) => Some(reason),
            Phase::Stopped(reason) => Some(reason),
        }
    }
}

/// Result of processing a received message.
#[derive(Debug, Drop)]
pub enum Verdict<'m> {
    /// First CSM of the peer: the connection is open.
    Opened,
    /// Message that the link has handled; the caller has nothing to do.
    Done,
    /// Request, to which the caller responds.
    Request,
    /// Response to an outstanding request or observation.
    Answer {
        /// Token of the request, borrowed from the response.
        token: TokenRef<'m>,
        /// `true` if this is the last response, and the request is no longer outstanding.
        last: bool,
    },
    /// Pong to an outstanding Ping.
    Pong {
        /// Token of the Ping, borrowed from the Pong.
        token: TokenRef<'m>,
        /// `true` if the Pong has Custody (RFC 8323 section 5.4.1).
        custody: bool,
    },
    /// Response or Pong that matches nothing outstanding. The link ignores it.
    Stranger,
    /// Message that stopped the connection, or the peer's Release.
    Stopped(Reason),
}

/// Pending entry that was due; `Link::due` has removed it from the list.
#[derive(Debug, Drop)]
pub enum Due {
    /// Response to the request with this token, which the caller sends.
    Answer(Token),
    /// Request with this token, which the application has not answered until its deadline. The caller sends a response.
    Expired(Token),
    /// Pong with Custody, which the link has queued as it fits the peer's limit, or which has stopped the connection
    /// (RFC 8323 section 5.4.1).
    Pong,
    /// No entry; the link is unchanged.
    Nothing,
}

/// Error of `Link::hold` and `Link::hold_request`: the pending list has reached its limit.
#[derive(Clone, Copy, Debug, PartialEq, Eq, Error)]
#[error("pending list is full")]
pub struct Full;

/// Error of `Link::forget`: no request, observation or Ping with the token is outstanding.
#[derive(Clone, Copy, Debug, PartialEq, Eq, Error)]
#[error("nothing with this token is outstanding")]
pub struct NotOutstanding;

/// Result of sending a message that may exceed the peer's limit.
#[derive(Clone, Copy, Debug, PartialEq, Eq)]
pub enum Reply {
    /// The message was queued.
    Whole,
    /// The message exceeds the peer's limit; a reduced one was queued in its place.
    Bare,
    /// Even the reduced message exceeds the peer's limit; the connection stopped.
    Stopped,
}

/// Error of `Link::respond`. The discriminant is its number.
#[derive(Clone, Copy, Debug, PartialEq, Eq, Error)]
pub enum RespondFault {
    /// No request with the token of the response waits for a response of the application.
    #[error("no pending request has the token of the response")]
    NoSuchRequest = 2,
    /// The bytes do not encode a message, its code is not that of a response, or it has an Observe option.
    #[error("not a response without Observe")]
    NotAResponse = 3,
    /// The queue has no room for the response.
    #[error("no room in the queue")]
    NoRoom = 4,
}

const _: () = prove!(RespondFault::NoSuchRequest as u8 == 2);

const _: () = prove!(RespondFault::NotAResponse as u8 == 3);

const _: () = prove!(RespondFault::NoRoom as u8 == 4);

/// Kind of malformed input, in the bytes after the last whole message.
#[derive(Clone, Copy, PartialEq, Eq)]
pub enum Reject {
    /// Malformed message.
    Format,
    /// Frame of more bytes than the Max-Message-Size that the local endpoint announced.
    TooLarge,
    /// Token length above 64, or with nibble 15.
    TokenLength,
}

impl From<FrameFault> for Reject {
    ghost from_gives = { λ fault reject. reject ≡ reject_of_frame fault };

    fn from(fault: FrameFault) -> Reject {
        match fault {
            FrameFault::TokenLength => Reject::TokenLength,
            FrameFault::TooLarge => Reject::TooLarge,
        }
    }
}

impl From<Reject> for Reason {
    ghost from_gives = { λ fault reason. reason ≡ reject_reason fault };

    fn from(fault: Reject) -> Reason {
        match fault {
            Reject::Format => Reason::Format,
            Reject::TooLarge => Reason::TooLarge,
            Reject::TokenLength => Reason::TokenLength,
        }
    }
}

/// Error of `Link::release`. The discriminant is its number.
#[derive(Clone, Copy, Debug, PartialEq, Eq, Error)]
pub enum SendFault {
    /// The connection is not open.
    #[error("the connection is not open")]
    NotOpen = 1,
    /// The queue has no room for the message.
    #[error("no room in the queue")]
    NoRoom = 2,
    /// The message exceeds the Max-Message-Size of the peer.
    #[error("message exceeds the Max-Message-Size of the peer")]
    PeerTooSmall = 3,
}

const _: () = prove!(SendFault::NotOpen as u8 == 1);

const _: () = prove!(SendFault::NoRoom as u8 == 2);

const _: () = prove!(SendFault::PeerTooSmall as u8 == 3);

/// Error of `Link::request`, `Link::cancel` and `Link::ping`. The discriminant is its number.
#[derive(Clone, Copy, Debug, PartialEq, Eq, Error)]
pub enum RequestFault {
    /// The connection is not open.
    #[error("the connection is not open")]
    NotOpen = 1,
    /// The number of outstanding entries has reached its limit.
    #[error("too many outstanding requests")]
    TooMany = 2,
    /// The message exceeds `max_sent` or the Max-Message-Size of the peer.
    #[error("message exceeds max_sent or the Max-Message-Size of the peer")]
    TooBig = 3,
    /// The queue has no room for the message.
    #[error("no room in the queue")]
    NoRoom = 4,
    /// No token is left.
    #[error("no token left")]
    TokensSpent = 5,
    /// No observation with this token is outstanding, or it was cancelled before.
    #[error("no such observation")]
    NoSuchToken = 6,
}

const _: () = prove!(RequestFault::NotOpen as u8 == 1);

const _: () = prove!(RequestFault::TooMany as u8 == 2);

const _: () = prove!(RequestFault::TooBig as u8 == 3);

const _: () = prove!(RequestFault::NoRoom as u8 == 4);

const _: () = prove!(RequestFault::TokensSpent as u8 == 5);

const _: () = prove!(RequestFault::NoSuchToken as u8 == 6);
