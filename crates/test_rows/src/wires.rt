//! Reads and writes of connections in memory, and a clock, as texts name them.

ghost use Rattle.std.specs.Prelude.{length};
ghost use Rattle.coap_io.specs.streams.Wires.{IsWithin};

use crate::row_words::number;
use coap_io::{Clock, Got};

/// Returns the first word of a text, without a word such as `@3` before it, and the text after that word.
fn next_word<'t>(text: &'t str) -> (&'t str, &'t str) {
    let (word, rest) = text.split_once(',').unwrap_or((text, ""));
    if word.starts_with('@') {
        return rest.split_once(',').unwrap_or((rest, ""));
    }
    (word, rest)
}

/// Returns the number of a word such as `@3` at the beginning of a text, or 0 if there is none.
fn moment_of(text: &str) -> usize {
    let (word, _) = text.split_once(',').unwrap_or((text, ""));
    number(word.strip_prefix("@").unwrap_or("0"))
}

/// Reads of a connection: words with `,` between them. Each word names the result of one read: `end`, `failed`, `zeros`
/// for a buffer full of zeros, or a number of bytes. 0 means `Later`. Reads after the last word return `Later`.
#[derive(Clone, Copy)]
pub(crate) struct Reads<'a> {
    pub text: &'a str,
    pub bytes: &'a [u8],
}

impl Reads<'_> {
    /// Returns `true` if a word is left that needs at most this number of waits before it.
    pub(crate) fn has_word(&self, waits: usize) -> bool {
        !self.text.is_empty() && moment_of(self.text) <= waits
    }

    /// Performs the next read.
    pub(crate) fn next(&mut self, buffer: &mut [u8]) -> Got
        ensures { IsWithin (length buffer.new) result }
    {
        let (word, rest) = next_word(self.text);
        self.text = rest;
        match word {
            "end" => Got::End,
            "failed" => Got::Failed,
            "zeros" => zeros(buffer),
            _ => self.give(number(word), buffer),
        }
    }

    /// Copies the next `count` bytes to the buffer, up to its size. Returns `Later` if there is none.
    fn give(&mut self, count: usize, buffer: &mut [u8]) -> Got
        ensures { IsWithin (length buffer.new) result }
    {
        let count = count.min(buffer.len()).min(self.bytes.len());
        if count == 0 {
            return Got::Later;
        }
        buffer[..count].copy_from_slice(&self.bytes[..count]);
        self.bytes = &self.bytes[count..];
        Got::Bytes(count)
    }
}

/// Fills the buffer with zeros.
fn zeros(buffer: &mut [u8]) -> Got
    ensures { IsWithin (length buffer.new) result }
{
    let count = buffer.len();
    if count == 0 {
        return Got::Failed;
    }
    buffer.fill(0);
    Got::Bytes(count)
}

/// Writes of a connection: words with `,` between them. Each word names the result of one write: `later`, `end`,
/// `failed`, `one` for one byte, or `all`. The last word also names all later writes.
#[derive(Clone, Copy)]
pub(crate) struct Writes<'a> {
    pub text: &'a str,
}

impl Writes<'_> {
    /// Returns `true` if the next word needs at most this number of waits before it.
    pub(crate) fn has_word(&self, waits: usize) -> bool {
        moment_of(self.text) <= waits
    }

    /// Returns the result of the next write, of `count` bytes.
    pub(crate) fn next(&mut self, count: usize) -> Got
        ensures { IsWithin count result }
    {
        let (word, rest) = next_word(self.text);
        if !rest.is_empty() {
            self.text = rest;
        }
        if count == 0 {
            return Got::Later;
        }
        match word {
            "later" => Got::Later,
            "end" => Got::End,
            "failed" => Got::Failed,
            "one" => Got::Bytes(1),
            _ => Got::Bytes(count),
        }
    }
}

/// Clock that returns the times that a text names, and then the last one again.
#[derive(Clone, Copy)]
pub(crate) struct Moments<'a> {
    pub text: &'a str,
}

impl Clock for Moments<'_> {
    fn now(&mut self) -> u64 {
        let (word, rest) = self.text.split_once(',').unwrap_or((self.text, self.text));
        self.text = rest;
        number(word) as u64
    }
}
