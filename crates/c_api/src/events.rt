//! `ClientEvent`, the event of a `take` as a C program reads it.

ghost use Rattle.std.specs.Prelude.{◌≡◌, ◌<◌, ◌≤◌, length, Ok};
ghost use Rattle.coap_wire.specs.Uint.{uint_of};
ghost use Rattle.coap_wire.specs.Reading.{message_of};
ghost use Rattle.coap_client_engine.specs.EventViews.{taken_event};
ghost use Rattle.c_api.specs.ClientEvents as spec;

use crate::messages::{MessageSpans, message_spans};
use c_handle::span_of;
use coap_client_engine::{Event, Taken};
use coap_wire::{MessageRef, uint_value};

/// Result of a `take` of a client.
#[repr(C)]
#[derive(Drop)]
pub struct ClientEvent {
    /// Number of bytes accepted.
    pub bytes: usize,
    /// Kind of the event, 0 to 7.
    pub kind: u32,
    /// Number of the reason of a stop, or 0.
    pub reason: u32,
    /// Number of the option of a rejected response, or 0.
    pub option: u32,
    /// 1 if a Pong has Custody, otherwise 0.
    pub custody: u32,
    /// Number of the token of the request, or 0.
    pub token: u64,
    /// Message of a response or a notification.
    pub message: MessageSpans,
}

/// Returns an event of a kind without a message.
pub(crate) fn plain_event(bytes: usize, kind: u32) -> ClientEvent
    ensures { spec.IsPlain bytes kind result }
{
    ClientEvent {
        bytes,
        kind,
        reason: 0,
        option: 0,
        custody: 0,
        token: 0,
        message: no_message(),
    }
}

/// Returns a message without bytes.
fn no_message() -> MessageSpans
    ensures { spec.IsNoMessage result }
{
    MessageSpans {
        token: span_of(&[]),
        options: span_of(&[]),
        payload: span_of(&[]),
        code: 0,
    }
}

/// Returns the event of a response, the message of a frame.
fn message_event(bytes: usize, kind: u32, message: &MessageRef, frame: &[u8]) -> ClientEvent
    requires { message_of frame.now ≡ Ok message.now }
    ensures bytes { result.bytes ≡ bytes }
    ensures event { spec.IsMessageEvent kind message.now result }
{
    let Ok(spans) = message_spans(frame) else {
        unreachable!()
    };
    ClientEvent {
        token: token_number(message.token().bytes()),
        message: spans,
        ..plain_event(bytes, kind)
    }
}

/// Returns the event of a `take`.
#[tactic(auto, using(crate::proofs::EventLemmas::received_response, crate::proofs::EventLemmas::received_notification))]
pub(crate) fn event_of(taken: &Taken) -> ClientEvent
    ensures bytes { result.bytes ≡ taken.now.bytes }
    ensures event { spec.ShowsEvent (taken_event taken.now) result }
{
    let bytes = taken.bytes;
    match taken.event() {
        None => plain_event(bytes, 0),
        Some(Event::Ready) => plain_event(bytes, 1),
        Some(Event::Response(message)) => message_event(bytes, 2, &message, taken.frame()),
        Some(Event::Notification(message)) => message_event(bytes, 3, &message, taken.frame()),
        Some(Event::Rejected { token, number }) => ClientEvent {
            option: u32::from(number),
            token: token_number(token.bytes()),
            ..plain_event(bytes, 4)
        },
        Some(Event::Pong { token, custody }) => ClientEvent {
            custody: u32::from(custody),
            token: token_number(token.bytes()),
            ..plain_event(bytes, 5)
        },
        Some(Event::Stranger) => plain_event(bytes, 6),
        Some(Event::Stopped(reason)) => ClientEvent {
            reason: u32::from(reason.number()),
            ..plain_event(bytes, 7)
        },
    }
}

/// Returns the number that the bytes of a token encode in network order, or 0 if there are more than 8.
#[tactic(auto, using(crate::proofs::EventLemmas::uint_in_two, crate::proofs::EventLemmas::token_short))]
pub(crate) fn token_number(bytes: &[u8]) -> u64
    ensures { result ≡ spec.token_number bytes.now }
{
    if bytes.len() > 8 {
        return 0;
    }
    let (high, low) = bytes.split_at(bytes.len().saturating_sub(4));
    number_of(high) * 4_294_967_296 + number_of(low)
}

/// Returns the number that at most 4 bytes encode.
fn number_of(bytes: &[u8]) -> u64
    requires { length bytes.now ≤ 4 }
    ensures value { result ≡ uint_of bytes.now }
    ensures bound { result < 4294967296 }
{
    let Some(value) = uint_value(bytes) else {
        unreachable!()
    };
    u64::from(value)
}
