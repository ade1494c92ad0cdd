//! Rows for lines of text, which need no value: `= print`.
//!
//! The event `describe BYTES` writes the line that describes a message. The event `line BYTES` appends to a line: the
//! bytes as hex digits, a text, a number and escaped bytes. It writes the line after the text, after the number and
//! after the escaped bytes.

use crate::row_line::RowLine;
use crate::row_words::{cut, read_hex};
use coap_print::{Line, describe};
use coap_wire::parse;

/// Writes the line that describes a message.
fn tell_description(bytes: &[u8], results: &mut RowLine) {
    let Ok(message) = parse(bytes) else {
        return results.word("strange");
    };
    let mut line = Line::new();
    describe(&mut line, &message);
    results.word(line.as_str());
}

/// Appends to a line, and writes the line after each part.
fn tell_line(bytes: &[u8], results: &mut RowLine) {
    let mut line = Line::new();
    line.hex(bytes);
    line.text("c");
    results.word(line.as_str());
    line.number(7);
    results.word(line.as_str());
    line.escaped(b"more");
    results.word(line.as_str());
}

/// Executes an event, and writes its result.
pub(crate) fn play(event: &str, bytes: &mut Vec<u8>, results: &mut RowLine) {
    let (word, rest) = cut(event);
    read_hex(rest, bytes);
    match word {
        "describe" => tell_description(bytes, results),
        "line" => tell_line(bytes, results),
        _ => results.word("strange"),
    }
}
