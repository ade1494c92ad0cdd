//! The result line of a row.

use itoa::Buffer;
use std::alloc::{AllocError, Global};
use std::fmt::{Debug, Display, Write};
use std::{fmt, io};

/// Result line of a row. Bytes above its capacity are dropped.
#[derive(Drop)]
pub(crate) struct RowLine {
    bytes: Vec<u8>,
}

/// Returns the hex digit of a number below 16.
fn digit_of(number: u8) -> u8 {
    if number < 10 {
        b'0'.wrapping_add(number)
    } else {
        b'W'.wrapping_add(number)
    }
}

impl RowLine {
    /// Creates an empty line with a capacity of `room` bytes.
    ///
    /// # Errors
    /// - `AllocError`: allocation fails.
    pub(crate) fn new(alloc: Global, room: usize) -> Result<RowLine, AllocError> {
        Ok(RowLine {
            bytes: Vec::with_capacity(alloc, room)?,
        })
    }

    /// Appends a word and a space.
    pub(crate) fn word(&mut self, word: &str) {
        let _ = self.bytes.extend_from_slice(word.as_bytes());
        let _ = self.bytes.push(b' ');
    }

    /// Appends a number and a space.
    pub(crate) fn number(&mut self, number: u64) {
        self.word(Buffer::new().format(number));
    }

    /// Appends numbers, with a space after each.
    pub(crate) fn sizes(&mut self, sizes: &[usize]) {
        for size in sizes {
            self.number(*size as u64);
        }
    }

    /// Appends bytes as hex digits, or `-` if there are none, and a space.
    pub(crate) fn hex(&mut self, bytes: &[u8]) {
        if bytes.is_empty() {
            return self.word("-");
        }
        for byte in bytes {
            let _ = self.bytes.push(digit_of(*byte >> 4));
            let _ = self.bytes.push(digit_of(*byte & 15));
        }
        let _ = self.bytes.push(b' ');
    }

    /// Appends a value as `Debug` prints it, and a space.
    pub(crate) fn debug<T: Debug>(&mut self, value: &T) {
        let _ = write!(self, "{value:?} ");
    }

    /// Appends a value as `Display` prints it, and a space.
    pub(crate) fn text<T: Display>(&mut self, value: &T) {
        let _ = write!(self, "{value} ");
    }

    /// Appends the name of an error, its number and its text: `TooLarge 2 (frame too large)`.
    pub(crate) fn fault<F: Debug + Display>(&mut self, fault: &F, number: u8) {
        self.debug(fault);
        self.number(number as u64);
        let _ = write!(self, "({fault}) ");
    }

    /// Returns the buffer of the line. A caller that writes a line feed of its own removes it afterwards.
    pub(crate) fn writer(&mut self) -> &mut Vec<u8> {
        &mut self.bytes
    }

    /// Prints the line with a line feed, and clears it.
    pub(crate) fn write_line(&mut self, out: &mut impl io::Write) {
        let _ = self.bytes.push(b'\n');
        let _ = out.write_all(&self.bytes);
        self.bytes.clear();
    }
}

/// Texts are appended without a space.
impl Write for RowLine {
    fn write_str(&mut self, text: &str) -> fmt::Result {
        let _ = self.bytes.extend_from_slice(text.as_bytes());
        Ok(())
    }
}
