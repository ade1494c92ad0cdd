//! The calls on messages, for C. They have no handle.

ghost use Rattle.std.specs.Prelude.{◌≡◌, Ok, length as len, drop, is_some};
ghost use Rattle.coap_wire.specs.Spelling.{payload_marker};
ghost use Rattle.coap_wire.specs.Layout.{IsLaidOut};
ghost use Rattle.coap_wire.specs.Reading.{message_of};
ghost use Rattle.c_api.specs.Messages as spec;

use crate::bytes::{bytes_from, put};
use crate::numbers::{
    NO_MORE, NO_ROOM, NOT_A_PATH, OPTION_MALFORMED, OPTION_NUMBER, OPTION_ORDER, OPTION_TOO_LONG,
    SUCCESS, WRITE_CODE, WRITE_OPTIONS, WRITE_TOKEN, WRITE_TOO_LARGE, format_number,
};
use crate::paths::write_path;
use arrayvec::ArrayVec;
use c_handle::{Span, span_within};
use coap_store::request_path;
use coap_wire::{
    Code, FormatFault, FrameLayout, LARGEST_MESSAGE, MAX_EXTENDED_LENGTH, MAX_TOKEN, MessageRef,
    Outline, PAYLOAD_MARKER, outline, parse, payload_of, read_option, write_head,
    write_option_head,
};

/// Largest length of the head of a message.
const MESSAGE_HEAD: usize = 72;

/// Largest length of the head of an option.
const OPTION_HEAD: usize = 5;

/// A message, as spans of its frame.
#[repr(C)]
#[derive(Drop)]
pub struct MessageSpans {
    /// Token.
    pub token: Span,
    /// Encoded options.
    pub options: Span,
    /// Payload, empty if there is none.
    pub payload: Span,
    /// Code: class * 32 + detail.
    pub code: u32,
}

/// Reads the message that a frame encodes.
#[unsafe(no_mangle)]
pub extern "C" fn dachreup_raw_message_read(frame: &[u8], message: &mut MessageSpans) -> u32
    ensures { spec.IsRead frame.entry message.old message.new (message_of frame.now) result }
{
    match message_spans(frame) {
        Ok(spans) => {
            *message = spans;
            SUCCESS
        }
        Err(fault) => format_number(fault),
    }
}

/// Writes the text that names the path of the request that a frame encodes.
#[unsafe(no_mangle)]
pub extern "C" fn dachreup_raw_message_path(
    frame: &[u8],
    path: &mut [u8],
    length: &mut usize,
) -> u32
    ensures { spec.IsPathOf (message_of frame.now) path.old path.new length.old length.new result }
{
    let message = match parse(frame) {
        Ok(message) => message,
        Err(fault) => return format_number(fault),
    };
    match request_path(&message) {
        Some(key) => write_path(&key, path, length),
        None => NOT_A_PATH,
    }
}

/// Reads the next one of encoded options, from the position `at` on. Deltas count from `number`.
#[unsafe(no_mangle)]
pub extern "C" fn dachreup_raw_option_next(
    options: &[u8],
    at: &mut usize,
    number: &mut u32,
    value: &mut Span,
) -> u32
    ensures { spec.IsNext options.entry (record { at = at.old; number = number.old; value = value.old })
        (record { at = at.new; number = number.new; value = value.new })
        (spec.first_option number.old (drop at.old options.now)) result }
{
    let Some((first, after)) = bytes_from(options, *at).split_first() else {
        return NO_MORE;
    };
    if *first == PAYLOAD_MARKER {
        return NO_MORE;
    }
    let Ok(base) = u16::try_from(*number) else {
        return OPTION_MALFORMED;
    };
    let Ok((option, rest)) = read_option(base, *first, after) else {
        return OPTION_MALFORMED;
    };
    let end = options.len() - rest.len();
    let count = option.value.len();
    *value = span_within(options, end - count, count);
    *number = u32::from(option.number);
    *at = end;
    SUCCESS
}

/// Appends an encoded option to the first `length` bytes of a buffer.
#[unsafe(no_mangle)]
pub extern "C" fn dachreup_raw_option_write(
    options: &mut [u8],
    length: &mut usize,
    last: &mut u32,
    number: u32,
    value: &[u8],
) -> u32
    ensures { spec.IsAppended (spec.append_refusal (len options.old) length.old last.old number value.now)
        value.now number
        (record { bytes = options.old; count = length.old; last = last.old })
        (record { bytes = options.new; count = length.new; last = last.new }) result }
{
    let Ok(next) = u16::try_from(number) else {
        return OPTION_NUMBER;
    };
    if number < *last {
        return OPTION_ORDER;
    }
    if value.len() > MAX_EXTENDED_LENGTH {
        return OPTION_TOO_LONG;
    }
    let mut head = ArrayVec::<u8, OPTION_HEAD>::new();
    write_option_head(&mut head, *last as u16, next, value.len() as u32);
    if options.len().saturating_sub(*length) < head.len() + value.len() {
        return NO_ROOM;
    }
    let at = put(options, *length, &head);
    *length = put(options, at, value);
    *last = number;
    SUCCESS
}

/// Writes the encoding of a message to the start of a buffer.
#[unsafe(no_mangle)]
pub extern "C" fn dachreup_raw_message_write(
    code: u32,
    token: &[u8],
    options: &[u8],
    payload: &[u8],
    buffer: &mut [u8],
    length: &mut usize,
) -> u32
    ensures { spec.IsWritten (spec.write_refusal (spec.message_with code token.now options.now payload.now)
        (spec.coded_options options.now) (len buffer.old))
        (spec.message_with code token.now options.now payload.now) buffer.old buffer.new length.old length.new result }
{
    let Ok(code) = u8::try_from(code) else {
        return WRITE_CODE;
    };
    if token.len() > MAX_TOKEN {
        return WRITE_TOKEN;
    }
    if !are_options(options) {
        return WRITE_OPTIONS;
    }
    let marker = marker_bytes(payload);
    let body = options
        .len()
        .saturating_add(marker.len())
        .saturating_add(payload.len());
    if body > LARGEST_MESSAGE {
        return WRITE_TOO_LARGE;
    }
    let mut head = ArrayVec::<u8, MESSAGE_HEAD>::new();
    write_head(&mut head, Code::new(code), token, body as u64);
    if buffer.len() < head.len() + body {
        return NO_ROOM;
    }
    let at = put(buffer, 0, &head);
    let at = put(buffer, at, options);
    let at = put(buffer, at, marker);
    *length = put(buffer, at, payload);
    SUCCESS
}

/// Returns `true` if the bytes are encoded options and nothing else.
fn are_options(bytes: &[u8]) -> bool
    ensures { result ≡ is_some (spec.coded_options bytes.now) }
{
    match payload_of(bytes) {
        Ok(payload) => payload.is_empty(),
        Err(_) => false,
    }
}

/// Returns the parts of the message that a frame encodes.
///
/// # Errors
///
/// The first error of the frame.
pub(crate) fn message_spans(frame: &[u8]) -> Result<MessageSpans, FormatFault>
    ensures { spec.GivesMessage frame.entry result (message_of frame.now) }
{
    let message = parse(frame)?;
    let Outline::Known { layout, .. } = outline(frame) else {
        unreachable!()
    };
    Ok(spans_in(frame, layout, &message))
}

/// Returns the parts of a message at their places in its frame.
fn spans_in(frame: &[u8], layout: FrameLayout, message: &MessageRef) -> MessageSpans
    requires layout { IsLaidOut frame.now layout }
    requires message { message_of frame.now ≡ Ok message.now }
    ensures { spec.ShowsMessage frame.entry result message.now }
{
    let options_at = layout.token_at + layout.token_length;
    let payload = message.payload();
    let payload_at = frame.len() - payload.len();
    let options = payload_at - marker_bytes(payload).len() - options_at;
    MessageSpans {
        token: span_within(frame, layout.token_at, layout.token_length),
        options: span_within(frame, options_at, options),
        payload: span_within(frame, payload_at, payload.len()),
        code: u32::from(message.code().byte()),
    }
}

/// Returns the payload marker, or no byte if there is no payload.
fn marker_bytes(payload: &[u8]) -> &'static [u8]
    ensures { result.now ≡ payload_marker payload.now }
{
    if payload.is_empty() { &[] } else { &[0xff] }
}
