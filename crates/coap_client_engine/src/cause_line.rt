//! `explain`, which writes the cause of the end of a run in words.
#![tactic(auto, using(crate::proofs::LineRules::pieces))]

ghost use Rattle.std.specs.Prelude.{◌≡◌, true, option_map};
ghost use Rattle.std.specs.Option.{ForSome};
ghost use Rattle.coap_print.specs.Texts.{is_text};
ghost use Rattle.coap_print.specs.Lines.{appended};
ghost use Rattle.coap_print.specs.declared.line.TheConstants.{LINE_LENGTH};
ghost use Rattle.coap_client_engine.specs.CauseTexts as spec;

use crate::run_end::{Awaited, Cause, Refusal};
use coap_conn::{Reason, RequestFault};
use coap_print::{Line, option_name};
use coap_wire::LARGEST_SENT_MESSAGE;

/// Appends the cause of the end of a run to a line, in words and with its numbers.
///
/// Examples are `the request has 70312 bytes; the peer accepts 1152` and `the response uses block-wise transfer (option
/// 23, Block2), which is not supported`.
pub fn explain(line: &mut Line, cause: &Cause)
    ensures { line.new ≡ appended LINE_LENGTH line.old (spec.cause_text cause.now) }
{
    match cause {
        Cause::BadOption(number) => append_option(line, *number),
        Cause::Request(refusal) => {
            line.text("the request");
            append_refusal(line, refusal);
        }
        Cause::Cancellation(refusal) => {
            line.text("the message that cancels the observation");
            append_refusal(line, refusal);
        }
        Cause::Stopped(reason) => append_stop(line, *reason),
        Cause::TimedOut(awaited, seconds) => append_wait(line, *awaited, *seconds),
    }
}

/// Appends the words for a response with a critical option of this number.
fn append_option(line: &mut Line, number: u16)
    ensures { line.new ≡ appended LINE_LENGTH line.old (spec.option_text number) }
{
    line.text("the response ");
    line.text(fault_of_option(number));
    line.text(" (option ");
    line.number(u64::from(number));
    append_name(line, option_name(number));
    line.text("), which is not supported");
}

/// Appends a comma and a name, if there is a name.
fn append_name(line: &mut Line, name: Option<&'static str>)
    requires { ForSome name (λ name. is_text name.now ≡ true) }
    ensures { line.new ≡ appended LINE_LENGTH line.old (spec.name_text (option_map (λ name. name.now) name.entry)) }
{
    let Some(name) = name else {
        return;
    };
    line.text(", ");
    line.text(name);
}

/// Returns the words for what a response does with a critical option of this number. The options of block-wise transfer
/// are Q-Block1, Block2, Block1 and Q-Block2 (RFC 7959, RFC 9177).
fn fault_of_option(number: u16) -> &'static str
    ensures words { result.now ≡ spec.fault_of_option number }
    ensures text { is_text result.now ≡ true }
{
    if number == 19 || number == 23 || number == 27 || number == 31 {
        "uses block-wise transfer"
    } else {
        "has a critical option"
    }
}

/// Appends the words for a message that cannot be sent, after the name of the message.
fn append_refusal(line: &mut Line, refusal: &Refusal)
    ensures { line.new ≡ appended LINE_LENGTH line.old (spec.refusal_text refusal.now) }
{
    match refusal.fault {
        RequestFault::TooBig => append_size(line, refusal.size, refusal.peer_max),
        fault => {
            line.text(" cannot be sent: ");
            line.text(fault_words(fault));
        }
    }
}

/// Returns the words for an error of a message, whatever its size.
fn fault_words(fault: RequestFault) -> &'static str
    ensures words { result.now ≡ spec.fault_words fault }
    ensures text { is_text result.now ≡ true }
{
    match fault {
        RequestFault::NotOpen => "the connection is not open",
        RequestFault::TooMany => "too many requests are outstanding",
        RequestFault::TooBig => "the message is too large",
        RequestFault::NoRoom => "the queue has no room",
        RequestFault::TokensSpent => "all tokens have been used",
        RequestFault::NoSuchToken => "there is no such observation",
    }
}

/// Appends the words for a message of this size that is too large.
fn append_size(line: &mut Line, size: Option<u64>, peer_max: u32)
    ensures { line.new ≡ appended LINE_LENGTH line.old (spec.size_text size peer_max) }
{
    let Some(size) = size else {
        line.text(" has an option of more than 1034 bytes or a payload of more than 1048576 bytes");
        return;
    };
    line.text(" has ");
    line.number(size);
    if (peer_max as usize) < LARGEST_SENT_MESSAGE {
        line.text(" bytes; the peer accepts ");
        line.number(u64::from(peer_max));
    } else {
        line.text(" bytes; the client sends at most ");
        line.number(LARGEST_SENT_MESSAGE as u64);
    }
}

/// Appends the words for a stop of the connection.
fn append_stop(line: &mut Line, reason: Reason)
    ensures { line.new ≡ appended LINE_LENGTH line.old (spec.stop_text reason) }
{
    line.text(stop_words(reason));
    if let Reason::BadCsm(number) = reason {
        line.text(" (option ");
        line.number(u64::from(number));
        line.text(")");
    }
}

/// Returns the words for the reason of a stop.
fn stop_words(reason: Reason) -> &'static str
    ensures words { result.now ≡ spec.stop_words reason }
    ensures text { is_text result.now ≡ true }
{
    match reason {
        Reason::Format => "the server sent a malformed message",
        Reason::TooLarge => "the server sent a message of more than 65536 bytes",
        Reason::TokenLength => "the server sent a token of more than 64 bytes",
        Reason::ReservedCode => "the server sent a code of a reserved class",
        Reason::CsmExpected => "the first message of the server is not a CSM",
        Reason::BadCsm(_) => "the CSM of the server has a bad option",
        Reason::BadSignalOption => "the server sent a signal with an unknown critical option",
        Reason::PeerAbort => "the server sent Abort",
        Reason::PeerRelease => "the server sent Release",
        Reason::PeerTooSmall => "a message exceeds the Max-Message-Size of the server",
        Reason::Ended => "the connection ended before the last response",
        Reason::Cut => "the connection ended within a message",
        Reason::ReleasedHere => "the client sent Release",
    }
}

/// Appends the words for a wait of this number of seconds.
fn append_wait(line: &mut Line, awaited: Awaited, seconds: u32)
    ensures { line.new ≡ appended LINE_LENGTH line.old (spec.wait_text awaited seconds) }
{
    line.text(awaited_words(awaited));
    line.number(u64::from(seconds));
    if seconds == 1 {
        line.text(" second");
    } else {
        line.text(" seconds");
    }
}

/// Returns the words for what did not arrive, up to the number of seconds.
fn awaited_words(awaited: Awaited) -> &'static str
    ensures words { result.now ≡ spec.awaited_words awaited }
    ensures text { is_text result.now ≡ true }
{
    match awaited {
        Awaited::Csm => "the server sent no CSM within ",
        Awaited::Response => "no response arrived within ",
        Awaited::LastResponse => "no response to the cancellation arrived within ",
    }
}
