//! Messages that a link sends by itself: the Capabilities and Settings Message (CSM), Ping, Pong, Release, Abort and
//! bare responses.

ghost use Rattle.std.specs.Prelude.{◌≡◌, ◌≤◌, ◌∷◌, ◌++◌, [], length, option_copied};
ghost use Rattle.coap_conn.specs.Prelude.{abort_text as text_for, abort_with as abort_message, abort_number};
ghost use Rattle.coap_conn.specs.Prelude.{abort_option, ping_with, pong_with, bare_response, spelling, encoded_size};
ghost use Rattle.coap_conn.specs.Prelude.{bytes_of, csm_with as csm_of, own_csm, first_csm_with as first_csm_of};
ghost use Rattle.coap_conn.specs.Prelude.{first_csm, release, free_of};

use crate::out_queue::OutQueue;
use crate::reason::Reason;
use crate::signal_options::{CUSTODY, EXTENDED_TOKEN_LENGTH, MAX_MESSAGE_SIZE};
use coap_wire::{Code, MessageBuilder, ShortBuilder, Token, TokenRef, UintBytes, uint_bytes};

/// Bad-CSM-Option, an option of Abort (RFC 8323 section 5.6).
const BAD_CSM_OPTION: u16 = 2;

/// Length of the longest token that is accepted, as the one byte of Extended-Token-Length (RFC 8974 section 2.2.1).
const OWN_TOKEN_LENGTH: [u8; 1] = [64];

/// Returns the CSM with a Max-Message-Size of these bytes, and nothing else (RFC 8323 section 5.3.1).
fn csm_with(size: &UintBytes) -> ShortBuilder<'static>
    ensures csm { result ≡ csm_of size.now.items }
    ensures few { encoded_size result ≤ 13 }
{
    let mut csm = ShortBuilder::new(Code::CSM, TokenRef::empty());
    csm.option(MAX_MESSAGE_SIZE, size);
    csm
}

/// Returns the first CSM, which also announces the longest token that is accepted (RFC 8974 section 2.2.1).
fn first_csm_with(size: &UintBytes) -> ShortBuilder<'static>
    ensures { result ≡ first_csm_of size.now.items }
{
    let mut csm = csm_with(size);
    csm.option(EXTENDED_TOKEN_LENGTH, &OWN_TOKEN_LENGTH);
    csm
}

/// Returns the size in bytes of a CSM with this Max-Message-Size.
pub(crate) fn announcement_size(max_message: usize) -> u64
    ensures { result ≡ length (spelling (own_csm max_message)) }
{
    let size = uint_bytes(max_message as u64);
    csm_with(&size).size()
}

/// Queues the first CSM, with this Max-Message-Size and the longest token that is accepted (RFC 8323 section 5.3, RFC
/// 8974 section 2.2.1).
#[tactic(auto, using(crate::proofs::SmallLemmas::first_csm_small, crate::proofs::SmallLemmas::first_csm_bytes_small))]
pub(crate) fn announce_first(queue: &mut OutQueue, max_message: usize)
    requires { 32 ≤ free_of queue.old }
    ensures csm { queue.new
        ≡ record queue.old { waiting = queue.old.waiting ++ bytes_of (first_csm max_message ∷ []) } }
    ensures small { length (bytes_of (first_csm max_message ∷ [])) ≤ 32 }
{
    let size = uint_bytes(max_message as u64);
    let csm = first_csm_with(&size);
    queue.put_compact(&csm);
}

/// Queues a CSM with this Max-Message-Size alone.
#[tactic(auto, using(crate::proofs::SmallLemmas::csm_small, crate::proofs::SmallLemmas::csm_bytes_small))]
pub(crate) fn announce(queue: &mut OutQueue, max_message: usize)
    requires { 24 ≤ free_of queue.old }
    ensures csm { queue.new ≡ record queue.old { waiting = queue.old.waiting ++ bytes_of (own_csm max_message ∷ []) } }
    ensures small { length (bytes_of (own_csm max_message ∷ [])) ≤ 24 }
{
    let size = uint_bytes(max_message as u64);
    let csm = csm_with(&size);
    queue.put_compact(&csm);
}

/// Queues a Release.
#[tactic(auto, using(crate::proofs::SmallLemmas::release_small, crate::proofs::SmallLemmas::release_bytes_small))]
pub(crate) fn queue_release(queue: &mut OutQueue)
    requires { 2 ≤ free_of queue.old }
    ensures queued { queue.new ≡ record queue.old { waiting = queue.old.waiting ++ bytes_of (release ∷ []) } }
    ensures small { length (bytes_of (release ∷ [])) ≡ 2 }
{
    let release = ShortBuilder::new(Code::RELEASE, TokenRef::empty());
    queue.put_compact(&release);
}

/// Returns the Pong to the Ping with this token, with Custody or without (RFC 8323 section 5.4).
pub(crate) fn pong_to<'a>(token: &TokenRef<'a>, custody: bool) -> ShortBuilder<'a>
    ensures { result ≡ pong_with custody token.now }
{
    let mut pong = ShortBuilder::new(Code::PONG, token.copy());
    if custody {
        pong.option(CUSTODY, &[]);
    }
    pong
}

/// Returns a Ping with this token, with Custody or without (RFC 8323 section 5.4).
pub(crate) fn ping_to<'a>(token: &'a Token, custody: bool) -> MessageBuilder<'a, 1>
    ensures { result ≡ ping_with custody token.now.items }
{
    let mut ping = MessageBuilder::new(Code::PING, token);
    if custody {
        let Ok(()) = ping.option(CUSTODY, &[]) else {
            unreachable!()
        };
    }
    ping
}

/// Returns the response that replaces one that is too large, with its token. The codes 2.01, 2.02 and 2.04 stay, and
/// any other code becomes 5.00.
pub(crate) fn bare_of<'a>(code: Code, token: &TokenRef<'a>) -> ShortBuilder<'a>
    ensures { result
        ≡ bare_response (record { code = code; token = token.now; options = []; payload = [] }) }
{
    let bare = if code == Code::CREATED || code == Code::DELETED || code == Code::CHANGED {
        code
    } else {
        Code::INTERNAL_SERVER_ERROR
    };
    ShortBuilder::new(bare, token.copy())
}

/// Returns the number that Bad-CSM-Option reports, if the reason is `BadCsm`.
pub(crate) fn bad_csm_number(reason: Reason) -> Option<u16>
    ensures { result ≡ abort_number reason }
{
    match reason {
        Reason::BadCsm(number) => Some(number),
        _ => None,
    }
}

/// Returns the text of the Abort for a reason, or `None` if no Abort is sent.
pub(crate) fn abort_text(reason: Reason) -> Option<&'static [u8]>
    ensures { option_copied result ≡ text_for reason }
{
    match reason {
        Reason::Format => Some(b"bad message"),
        Reason::TooLarge => Some(b"message too large"),
        Reason::TokenLength => Some(b"bad token length"),
        Reason::ReservedCode => Some(b"reserved code"),
        Reason::CsmExpected => Some(b"CSM expected"),
        Reason::BadCsm(_) => Some(b"bad CSM option"),
        Reason::BadSignalOption => Some(b"bad signal option"),
        Reason::PeerAbort => None,
        Reason::PeerRelease => None,
        Reason::PeerTooSmall => None,
        Reason::Ended => None,
        Reason::Cut => None,
        Reason::ReleasedHere => None,
    }
}

/// Returns an Abort with this text. If there is a number, the Abort has Bad-CSM-Option with the value `bytes`, at most
/// 8 bytes (RFC 8323 section 5.6).
pub(crate) fn abort_with<'a>(number: Option<u16>, bytes: &[u8], text: &'a [u8]) -> ShortBuilder<'a>
    requires short { length bytes.now ≤ 8 }
    requires small { length text.now ≤ 100 }
    ensures { result ≡ abort_message (abort_option number bytes.now) text.now }
{
    let mut abort = ShortBuilder::new(Code::ABORT, TokenRef::empty());
    if let Some(_) = number {
        abort.option(BAD_CSM_OPTION, bytes);
    }
    abort.payload(text);
    abort
}
