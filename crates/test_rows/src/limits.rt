//! Rows for limits of connections, which need no value.
//!
//! The events are `limits` with six numbers, `faults send`, and `faults reasons`, the reasons for which connections
//! stop.

use crate::row_line::RowLine;
use crate::row_words::numbers;
use coap_conn::{LimitFault, Limits, Reason, SendFault};

/// Errors of sending Release.
const SEND_FAULTS: &[SendFault] = &[
    SendFault::NotOpen,
    SendFault::NoRoom,
    SendFault::PeerTooSmall,
];

/// Reasons for which connections stop, in the order of their numbers.
const REASONS: &[Reason] = &[
    Reason::Format,
    Reason::TooLarge,
    Reason::TokenLength,
    Reason::ReservedCode,
    Reason::CsmExpected,
    Reason::BadCsm(9),
    Reason::BadSignalOption,
    Reason::PeerAbort,
    Reason::PeerRelease,
    Reason::PeerTooSmall,
    Reason::Ended,
    Reason::Cut,
    Reason::ReleasedHere,
];

/// Returns the limits that the first six numbers of a text name, or the error.
pub(crate) fn limits_of(text: &str) -> Result<Limits, LimitFault> {
    let [
        max_message,
        max_sent,
        queue,
        pending,
        observers,
        outstanding,
        ..
    ] = numbers(text);
    Limits::new(
        max_message,
        max_sent,
        queue,
        pending,
        observers,
        outstanding,
    )
}

/// Writes each limit as its accessor returns it.
pub(crate) fn tell_limits(limits: &Limits, results: &mut RowLine) {
    results.sizes(&[
        limits.max_message(),
        limits.max_sent(),
        limits.queue(),
        limits.pending(),
        limits.observers(),
        limits.outstanding(),
    ]);
}

/// Executes an event, and writes its result.
pub(crate) fn play(event: &str, results: &mut RowLine) {
    match event {
        "faults send" => {
            for fault in SEND_FAULTS {
                results.fault(fault, *fault as u8);
            }
        }
        "faults reasons" => {
            for reason in REASONS {
                results.debug(reason);
                results.number(reason.number() as u64);
            }
        }
        _ => match limits_of(event) {
            Ok(limits) => tell_limits(&limits, results),
            Err(fault) => results.fault(&fault, fault as u8),
        },
    }
}
