//! Reasons for which a connection stopped, in words.

ghost use Rattle.std.specs.Prelude.{◌≡◌};
ghost use Rattle.program_server_common.specs.Reasons.{reason_text};

use coap_conn::Reason;

/// Returns the text of a reason.
pub fn text_of(reason: Reason) -> &'static str
    ensures { result.now ≡ reason_text reason }
{
    match reason {
        Reason::Format => "malformed message",
        Reason::TooLarge => "message above the maximum size",
        Reason::TokenLength => "token of more than 64 bytes",
        Reason::ReservedCode => "message with a reserved code",
        Reason::CsmExpected => "first message is no CSM",
        Reason::BadCsm(_) => "CSM with an option that is not supported",
        Reason::BadSignalOption => "signaling message with an option that is not supported",
        Reason::PeerAbort => "Abort by the peer",
        Reason::PeerRelease => "Release by the peer",
        Reason::PeerTooSmall => "response above the maximum size of the peer",
        Reason::Ended => "end of input",
        Reason::Cut => "end of input within a message",
        Reason::ReleasedHere => "Release by the server",
    }
}
