//! End of a run of a client: its exit status, and its cause by name.

use coap_conn::{Reason, RequestFault};

/// End of a run, as returned by `run_to_end`.
#[derive(Clone, Copy, Debug, PartialEq, Eq)]
pub struct RunEnd {
    /// Exit status: 0, 2, 3 or 4, as `run_client` returns it.
    pub status: u8,
    /// Cause of the end, or `None` if a last response ended the run. It is also `None` if the run had all its
    /// iterations.
    pub cause: Option<Cause>,
}

/// Cause for which a run ended without a response that the client accepts.
#[derive(Clone, Copy, Debug, PartialEq, Eq)]
pub enum Cause {
    /// Response with a critical option that is not recognised: the number of the first such option (RFC 7252 section
    /// 5.4.1).
    BadOption(u16),
    /// Request that the client could not send.
    Request(Refusal),
    /// Cancellation of the observation that the client could not send.
    Cancellation(Refusal),
    /// Stop of the connection, or its release by the peer, with the reason.
    Stopped(Reason),
    /// Wait of this number of seconds, in which the peer did not send what the client awaited.
    TimedOut(Awaited, u32),
}

/// Message that the client could not send, with the sizes at that time.
#[derive(Clone, Copy, Debug, PartialEq, Eq)]
pub struct Refusal {
    /// Error of the message.
    pub fault: RequestFault,
    /// Length of the encoded message in bytes, with its token. `None` if its extra option has more than 1,034 bytes or
    /// its payload more than 1,048,576 bytes. Such a message is never encoded.
    pub size: Option<u64>,
    /// Max-Message-Size that the peer announced last, or 1,152 if there is none (RFC 8323 section 5.3.1).
    pub peer_max: u32,
}

/// Message that a client awaits of its peer.
#[derive(Clone, Copy, Debug, PartialEq, Eq)]
pub enum Awaited {
    /// First Capabilities and Settings Message (CSM) of the peer.
    Csm,
    /// First response to the request.
    Response,
    /// Last response to an observation, after its cancellation.
    LastResponse,
}
