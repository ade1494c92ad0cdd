//! Reasons for which a connection stops.

ghost use Rattle.std.specs.Prelude.{◌≡◌};
ghost use Rattle.coap_conn.specs.Prelude.{reason_number};

/// Reason for which a connection stopped, or for which the peer released it.
#[derive(Clone, Copy, Debug, PartialEq, Eq)]
pub enum Reason {
    /// 1: malformed message (RFC 8323 section 3.2).
    Format,
    /// 2: message of more bytes than the Max-Message-Size that the local endpoint announced (RFC 8323 section 5.3.1).
    TooLarge,
    /// 3: token length above 64, or with nibble 15 (RFC 8974 section 2.1).
    TokenLength,
    /// 4: message whose code has the reserved class 1 or 6 (RFC 7252 section 12.1).
    ReservedCode,
    /// 5: message other than a CSM before the peer's first CSM (RFC 8323 section 3.3).
    CsmExpected,
    /// 6: CSM with an option of this number that is critical, or that is a Max-Message-Size of more than 4 bytes (RFC
    /// 8323 section 5.3).
    BadCsm(u16),
    /// 7: Ping, Pong or Release with a critical option (RFC 8323 section 5.2).
    BadSignalOption,
    /// 8: Abort received from the peer (RFC 8323 section 5.6).
    PeerAbort,
    /// 9: Release received from the peer (RFC 8323 section 5.5).
    PeerRelease,
    /// 10: message that exceeds the Max-Message-Size of the peer, even in its reduced form.
    PeerTooSmall,
    /// 11: end of input, after a whole frame.
    Ended,
    /// 12: end of input within a frame.
    Cut,
    /// 13: Release sent by the local endpoint (RFC 8323 section 5.5).
    ReleasedHere,
}

impl Reason {
    /// Returns the number of the reason, 1 to 13.
    pub const fn number(self) -> u8
        ensures { result ≡ reason_number self }
    {
        match self {
            Reason::Format => 1,
            Reason::TooLarge => 2,
            Reason::TokenLength => 3,
            Reason::ReservedCode => 4,
            Reason::CsmExpected => 5,
            Reason::BadCsm(_) => 6,
            Reason::BadSignalOption => 7,
            Reason::PeerAbort => 8,
            Reason::PeerRelease => 9,
            Reason::PeerTooSmall => 10,
            Reason::Ended => 11,
            Reason::Cut => 12,
            Reason::ReleasedHere => 13,
        }
    }
}
