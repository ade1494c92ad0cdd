//! Rows for messages, which need no value: `= wire`.
//!
//! The events are `write BYTES LENGTH PART..`, `read BYTES`, `known BYTES`, `declared BYTES`, `code BYTES`, `codes`,
//! `kind NUMBER`, `uint NUMBER` and `value BYTES`.

use crate::row_line::RowLine;
use crate::row_words::{cut, number, read_hex};
use coap_wire::{
    Builder, Code, OptionRef, Sink, SliceSink, Token, declared, kind, parse, uint_bytes, uint_value,
};

/// Maximum number of bytes of a message in addition to those of its parts.
const FORMS: usize = 1_024;

/// Codes that have a name, in the order of their bytes.
const CODES: [Code; 26] = [
    Code::EMPTY,
    Code::GET,
    Code::POST,
    Code::PUT,
    Code::DELETE,
    Code::CREATED,
    Code::DELETED,
    Code::VALID,
    Code::CHANGED,
    Code::CONTENT,
    Code::BAD_REQUEST,
    Code::BAD_OPTION,
    Code::NOT_FOUND,
    Code::METHOD_NOT_ALLOWED,
    Code::NOT_ACCEPTABLE,
    Code::PRECONDITION_FAILED,
    Code::REQUEST_ENTITY_TOO_LARGE,
    Code::INTERNAL_SERVER_ERROR,
    Code::NOT_IMPLEMENTED,
    Code::SERVICE_UNAVAILABLE,
    Code::PROXYING_NOT_SUPPORTED,
    Code::CSM,
    Code::PING,
    Code::PONG,
    Code::RELEASE,
    Code::ABORT,
];

/// Writes the byte, the class and the detail of each code.
fn tell_codes(codes: &[Code], results: &mut RowLine) {
    for code in codes {
        results.hex(&[code.byte()]);
        results.sizes(&[code.class() as usize, code.detail() as usize]);
    }
}

/// Writes an option.
fn tell_option(option: &OptionRef, results: &mut RowLine) {
    results.number(option.number as u64);
    results.hex(option.value);
}

/// Parses a message and writes its parts, or the error. After the last option, the iterator must be empty.
fn read(bytes: &[u8], results: &mut RowLine) {
    match parse(bytes) {
        Ok(message) => {
            results.hex(&[message.code().byte()]);
            results.hex(message.token().bytes());
            let mut options = message.options();
            for _ in 0..bytes.len() {
                let Some(option) = options.next() else {
                    break;
                };
                tell_option(&option, results);
            }
            results.debug(&options.next().is_some());
            results.hex(message.payload());
        }
        Err(fault) => results.fault(&fault, fault as u8),
    }
}

/// Writes the recognized options of a message, and the number of the first critical one that is not recognized. After
/// the last option, the iterator must be empty.
fn known(bytes: &[u8], results: &mut RowLine) {
    let Ok(message) = parse(bytes) else {
        return results.word("strange");
    };
    let mut options = message.known();
    for _ in 0..bytes.len() {
        let Some(option) = options.next() else {
            break;
        };
        tell_option(&option, results);
    }
    results.debug(&options.next().is_some());
    results.debug(&message.first_critical());
}

/// Writes the code, the token, the size and the encoding of a message.
fn tell_built(message: &Builder, room: &mut [u8], results: &mut RowLine) {
    results.hex(&[message.code().byte()]);
    results.hex(message.token().bytes());
    results.number(message.size());
    let mut sink = SliceSink::new(room);
    if message.size() > sink.room() as u64 {
        return results.word("refused");
    }
    message.write(&mut sink);
    results.hex(sink.written());
}

/// Adds an option if the name is a number, otherwise the payload, and writes the error if that fails.
fn add<'a>(message: &mut Builder<'a>, name: &str, value: &'a [u8], results: &mut RowLine) {
    let answer = match name {
        "payload" => message.payload(value),
        _ => message.option(number(name).min(65_535) as u16, value),
    };
    if let Err(fault) = answer {
        results.fault(&fault, fault as u8);
    }
}

/// Writes a message with this token.
fn tell_other(message: &Builder, token: &Token, room: &mut [u8], results: &mut RowLine) {
    let other = message.with_token(token);
    tell_built(&other, room, results);
}

/// Writes a message with the token of these bytes.
fn tell_with(message: &Builder, bytes: &[u8], room: &mut [u8], results: &mut RowLine) {
    let token = Token::try_from(bytes).unwrap_or(Token::new());
    tell_other(message, &token, room, results);
}

/// Builds a message of a code and a token, adds the parts that words name, and writes the results. Each part has a
/// name, `=` and a length, and the values are one after another in `rest`. An option has its number as its name, and
/// the payload has `payload`. The name `look` writes the message, and `token` writes it with another token.
fn build<'a>(
    mut message: Builder<'a>,
    mut rest: &'a [u8],
    text: &str,
    room: &mut [u8],
    results: &mut RowLine,
) {
    let mut words = text;
    for _ in 0..text.len() {
        if words.is_empty() {
            break;
        }
        let (word, later) = cut(words);
        words = later;
        let (name, length) = word.split_once('=').unwrap_or((word, ""));
        let (value, later) = rest.split_at_checked(number(length)).unwrap_or_default();
        rest = later;
        match name {
            "look" => tell_built(&message, room, results),
            "token" => tell_with(&message, value, room, results),
            _ => add(&mut message, name, value, results),
        }
    }
}

/// Builds a message from its code, its token and further parts, in the order of the bytes. The first word is the length
/// of the token.
fn write(text: &str, bytes: &mut Vec<u8>, results: &mut RowLine) {
    let count = bytes.len();
    let room = count.saturating_mul(2).saturating_add(FORMS);
    if bytes.resize(room, 0).is_err() || count > bytes.len() {
        return results.word("refused");
    }
    let (read, room) = bytes.split_at_mut(count);
    let (length, text) = cut(text);
    let (code, rest) = read.split_at_checked(1).unwrap_or_default();
    let (token, rest) = rest.split_at_checked(number(length)).unwrap_or_default();
    let code = code.first().copied().unwrap_or(0);
    let token = Token::try_from(token).unwrap_or(Token::new());
    let message = Builder::new(Code::new(code), &token);
    build(message, rest, text, room, results);
}

/// Writes whether an option with the given number is repeatable, and its minimum and maximum length.
fn tell_kind(number: usize, results: &mut RowLine) {
    let Ok(number) = u16::try_from(number) else {
        return;
    };
    if let Some(kind) = kind(number) {
        results.debug(&kind.repeatable);
        results.sizes(&[kind.min as usize, kind.max as usize]);
    }
}

/// Executes an event, and writes its result.
pub(crate) fn play(event: &str, bytes: &mut Vec<u8>, results: &mut RowLine) {
    let (word, rest) = cut(event);
    let (first, text) = cut(rest);
    read_hex(first, bytes);
    match word {
        "kind" => tell_kind(number(rest), results),
        "uint" => {
            let bytes = uint_bytes(number(rest) as u64);
            results.hex(&bytes);
            results.debug(&uint_value(&bytes));
        }
        "write" => write(text, bytes, results),
        "read" => read(bytes, results),
        "known" => known(bytes, results),
        "declared" => results.debug(&declared(bytes)),
        "code" => tell_codes(&[Code::new(bytes.first().copied().unwrap_or(0))], results),
        "codes" => tell_codes(&CODES, results),
        "value" => results.debug(&uint_value(bytes)),
        _ => results.word("strange"),
    }
}
