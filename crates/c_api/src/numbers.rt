//! The numbers that calls return, and the numbers in their results. A number has one meaning in all calls.

ghost use Rattle.std.specs.Prelude.{◌≡◌};
ghost use Rattle.c_api.specs.Numbers as spec;

use coap_client_engine::ClientAnnounceFault;
use coap_client_request::TargetFault;
use coap_conn::{LimitFault, Phase, Reply, RequestFault, SendFault};
use coap_model::{
    AnnounceFault, ConfigFault, Handled, OpenFault, ReleaseFault, ResponseFault, WrittenFault,
};
use coap_path::ApplicationFault;
use coap_store::StoreFault;
use coap_wire::FormatFault;

/// Success.
pub(crate) const SUCCESS: u32 = 0;
/// The handle has no engine.
pub(crate) const EMPTY: u32 = 1;
/// An allocation failed.
pub(crate) const MEMORY: u32 = 2;
/// The handle has an engine already.
pub(crate) const OCCUPIED: u32 = 3;
/// The text is not a path.
pub(crate) const NOT_A_PATH: u32 = 4;
/// A value that is one of a few is none of them.
pub(crate) const NOT_A_CHOICE: u32 = 5;
/// No connection has the id, or no resource the path.
pub(crate) const NO_SUCH: u32 = 6;
/// The buffer of the caller is too small.
pub(crate) const NO_ROOM: u32 = 7;
/// More bytes were written than are queued.
pub(crate) const TOO_MANY: u32 = 8;
/// The time is before that of the server.
pub(crate) const BACKWARDS: u32 = 9;
/// No further item.
pub(crate) const NO_MORE: u32 = 10;
/// The output queue has no room.
pub(crate) const QUEUE_FULL: u32 = 11;
/// The connection is not open.
pub(crate) const NOT_OPEN: u32 = 12;
/// The message exceeds the size that the peer accepts.
pub(crate) const PEER_TOO_SMALL: u32 = 13;
/// The deadline of the entries is 0.
pub(crate) const BAD_DEADLINE: u32 = 85;
/// An option is malformed.
pub(crate) const OPTION_MALFORMED: u32 = 128;
/// The number of an option is below that of the option before it.
pub(crate) const OPTION_ORDER: u32 = 129;
/// The value of an option is too long.
pub(crate) const OPTION_TOO_LONG: u32 = 130;
/// The number of an option is above 65,535.
pub(crate) const OPTION_NUMBER: u32 = 131;
/// The code of a message is above 255.
pub(crate) const WRITE_CODE: u32 = 132;
/// The token of a message is too long.
pub(crate) const WRITE_TOKEN: u32 = 133;
/// The options of a message are not encoded options.
pub(crate) const WRITE_OPTIONS: u32 = 134;
/// A message is too large.
pub(crate) const WRITE_TOO_LARGE: u32 = 135;
/// A text is no absolute URL.
pub(crate) const URI_URL: u32 = 144;
/// No outstanding request has the token.
pub(crate) const NO_SUCH_TOKEN: u32 = 163;
/// The size is below the one announced last.
pub(crate) const ANNOUNCE_LOWER: u32 = 176;
/// The size is above 1,048,576 bytes.
pub(crate) const ANNOUNCE_TOO_LARGE: u32 = 177;

/// Returns the number of an error of the limits.
pub(crate) fn limit_number(fault: LimitFault) -> u32
    ensures { result ≡ spec.limit_code fault }
{
    match fault {
        LimitFault::MaxMessage => 32,
        LimitFault::MaxSent => 33,
        LimitFault::Queue => 34,
        LimitFault::Pending => 35,
        LimitFault::Observers => 36,
        LimitFault::Outstanding => 37,
    }
}

/// Returns the number of an error of a configuration. `Turns` does not occur, because C names no turns.
pub(crate) fn config_number(fault: ConfigFault) -> u32
    ensures { result ≡ spec.config_code fault }
{
    match fault {
        ConfigFault::Connections => 38,
        ConfigFault::Dynamic => 39,
        ConfigFault::Representation => 40,
        ConfigFault::Turns => NOT_A_CHOICE,
    }
}

/// Returns the number of an error of `open`.
pub(crate) fn open_number(fault: OpenFault) -> u32
    ensures { result ≡ spec.open_code fault }
{
    match fault {
        OpenFault::Full => 48,
        OpenFault::IdsSpent => 49,
        OpenFault::Memory => MEMORY,
    }
}

/// Returns the number of an error of `written`.
pub(crate) fn written_number(fault: WrittenFault) -> u32
    ensures { result ≡ spec.written_code fault }
{
    match fault {
        WrittenFault::NoSuch => NO_SUCH,
        WrittenFault::TooMany => TOO_MANY,
    }
}

/// Returns the number of an error of `put` and `remove`.
pub(crate) fn store_number(fault: StoreFault) -> u32
    ensures { result ≡ spec.store_code fault }
{
    match fault {
        StoreFault::NoSuch => NO_SUCH,
        StoreFault::TooLarge => 64,
        StoreFault::Limit => 65,
        StoreFault::BadPath => 66,
        StoreFault::VersionsSpent => 67,
        StoreFault::Memory => MEMORY,
    }
}

/// Returns the number of an error of `release`.
pub(crate) fn release_number(fault: ReleaseFault) -> u32
    ensures { result ≡ spec.release_code fault }
{
    match fault {
        ReleaseFault::NoSuch => NO_SUCH,
        ReleaseFault::NotOpen => NOT_OPEN,
        ReleaseFault::NoRoom => QUEUE_FULL,
        ReleaseFault::PeerTooSmall => PEER_TOO_SMALL,
    }
}

/// Returns the number of an error of `announce`.
pub(crate) fn announce_number(fault: AnnounceFault) -> u32
    ensures { result ≡ spec.announce_code fault }
{
    match fault {
        AnnounceFault::NoSuch => NO_SUCH,
        AnnounceFault::NotOpen => NOT_OPEN,
        AnnounceFault::Lower => ANNOUNCE_LOWER,
        AnnounceFault::TooLarge => ANNOUNCE_TOO_LARGE,
        AnnounceFault::NoRoom => QUEUE_FULL,
        AnnounceFault::Memory => MEMORY,
        AnnounceFault::PeerTooSmall => PEER_TOO_SMALL,
    }
}

/// Returns the number of an error of `announce` of a client.
pub(crate) fn client_announce_number(fault: ClientAnnounceFault) -> u32
    ensures { result ≡ spec.client_announce_code fault }
{
    match fault {
        ClientAnnounceFault::NotOpen => NOT_OPEN,
        ClientAnnounceFault::Lower => ANNOUNCE_LOWER,
        ClientAnnounceFault::TooLarge => ANNOUNCE_TOO_LARGE,
        ClientAnnounceFault::NoRoom => QUEUE_FULL,
        ClientAnnounceFault::PeerTooSmall => PEER_TOO_SMALL,
        ClientAnnounceFault::Memory => MEMORY,
    }
}

/// Returns the number of the effect of a `take`, and that of the reason of a stop.
pub(crate) fn handled_numbers(handled: Handled) -> (u32, u32)
    ensures handled { result.0 ≡ spec.handled_code handled }
    ensures reason { result.1 ≡ spec.handled_reason handled }
{
    // First, so that a message costs one comparison.
    if let Handled::Message = handled {
        return (1, 0);
    }
    match handled {
        Handled::Stopped(reason) => (2, u32::from(reason.number())),
        _ => (0, 0),
    }
}

/// Returns the number of a phase, and that of its reason.
pub(crate) fn phase_numbers(phase: Phase) -> (u32, u32)
    ensures phase { result.0 ≡ spec.phase_code phase }
    ensures reason { result.1 ≡ spec.phase_reason phase }
{
    match phase {
        Phase::Waiting => (0, 0),
        Phase::Open => (1, 0),
        Phase::Releasing(reason) => (2, u32::from(reason.number())),
        Phase::Stopped(reason) => (3, u32::from(reason.number())),
    }
}

/// Returns the number of an error of a request.
pub(crate) fn request_number(fault: RequestFault) -> u32
    ensures { result ≡ spec.request_code fault }
{
    match fault {
        RequestFault::NotOpen => NOT_OPEN,
        RequestFault::TooMany => 160,
        RequestFault::TooBig => 161,
        RequestFault::NoRoom => QUEUE_FULL,
        RequestFault::TokensSpent => 162,
        RequestFault::NoSuchToken => NO_SUCH_TOKEN,
    }
}

/// Returns the number of an error of a Release.
pub(crate) fn send_number(fault: SendFault) -> u32
    ensures { result ≡ spec.send_code fault }
{
    match fault {
        SendFault::NotOpen => NOT_OPEN,
        SendFault::NoRoom => QUEUE_FULL,
        SendFault::PeerTooSmall => PEER_TOO_SMALL,
    }
}

/// Returns the number of an error of a frame.
pub(crate) fn format_number(fault: FormatFault) -> u32
    ensures { result ≡ spec.format_code fault }
{
    match fault {
        FormatFault::TokenLength => 112,
        FormatFault::OptionDelta => 113,
        FormatFault::OptionLength => 114,
        FormatFault::OptionCut => 115,
        FormatFault::OptionNumber => 116,
        FormatFault::EmptyPayload => 117,
        FormatFault::NotOneFrame => 118,
    }
}

/// Returns the number of an error of a URI.
pub(crate) fn target_number(fault: TargetFault) -> u32
    ensures { result ≡ spec.target_code fault }
{
    match fault {
        TargetFault::Url => URI_URL,
        TargetFault::Scheme => 145,
        TargetFault::NoHost => 146,
        TargetFault::UserInfo => 147,
        TargetFault::Fragment => 148,
        TargetFault::PartTooLong => 149,
        TargetFault::TooManyParts => 150,
        TargetFault::Memory => MEMORY,
    }
}

/// Returns the number of an error of `respond`.
pub(crate) fn response_number(fault: ResponseFault) -> u32
    ensures { result ≡ spec.response_code fault }
{
    match fault {
        ResponseFault::NoSuch => NO_SUCH,
        ResponseFault::NoSuchRequest => 96,
        ResponseFault::NotAResponse => 97,
        ResponseFault::NoRoom => QUEUE_FULL,
    }
}

/// Returns the number of what was queued for a response.
pub(crate) fn reply_number(reply: Reply) -> u32
    ensures { result ≡ spec.reply_code reply }
{
    match reply {
        Reply::Whole => 0,
        Reply::Bare => 1,
        Reply::Stopped => 2,
    }
}

/// Returns the number of an error of an entry.
pub(crate) fn entry_number(fault: ApplicationFault) -> u32
    ensures { result ≡ spec.entry_code fault }
{
    match fault {
        ApplicationFault::Full => 80,
        ApplicationFault::Root => 81,
        ApplicationFault::Twice => 82,
        ApplicationFault::Method => 83,
        ApplicationFault::Attributes => 84,
        ApplicationFault::Memory => MEMORY,
        ApplicationFault::BuiltIn => 86,
    }
}
