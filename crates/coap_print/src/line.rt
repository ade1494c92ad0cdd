//! `Line`, a line of printable text of limited length.

ghost use Rattle.std.specs.Prelude.{◌≡◌, ◌<◌, ◌≤◌, ◌+◌, ◌++◌, [], true, decimal, length};
ghost use Rattle.coap_print.specs.Texts.{is_printable, is_text, hex_digit, hex_text, is_plain, escape_of};
ghost use Rattle.coap_print.specs.Texts.{escaped_text};
ghost use Rattle.coap_print.specs.Lines.{appended, IsLine};

use arrayvec::ArrayVec;
use itoa::Buffer;
use std::marker::Model;
use std::str;

/// Maximum length of a line in bytes.
pub const LINE_LENGTH: usize = 1_024;

/// Number of bytes that a line has for text. The others are reserved for the ellipsis.
const TEXT_LENGTH: usize = LINE_LENGTH - 3;

const _: () = prove!(LINE_LENGTH == 1_024);

/// Line of at most `LINE_LENGTH` bytes, all of them printable ASCII. Contracts see the list of its bytes.
///
/// A piece of text that does not fit is cut, and the line ends with `...`. Such a line is closed: it accepts nothing
/// more.
#[derive(Drop)]
pub struct Line {
    bytes: ArrayVec<u8, LINE_LENGTH>,
}

impl Model for Line {
    ghost use Rattle.std.specs.Prelude.{List, ℕ};
    ghost use Rattle.coap_print.specs.Lines.{IsLine};
    ghost use Rattle.coap_print.specs.declared.line.TheConstants.{LINE_LENGTH};

    ghost Value = { List ℕ };

    ghost view = { λ l. l.bytes.items };

    ghost invariant = { λ l. IsLine LINE_LENGTH l.bytes.items };
}

impl Line {
    /// Creates an empty line.
    pub fn new() -> Line
        ensures { result ≡ [] }
    {
        Line {
            bytes: ArrayVec::new(),
        }
    }

    /// Returns the bytes of the line.
    pub fn as_bytes(&self) -> &[u8]
        ensures bytes { result.now ≡ self.now }
        ensures line { IsLine LINE_LENGTH self.now }
    {
        self.bytes.as_slice()
    }

    /// Returns the bytes of the line as text.
    pub fn as_str(&self) -> &str
        ensures { result.now ≡ self.now }
    {
        let Ok(text) = str::from_utf8(self.bytes.as_slice()) else {
            unreachable!()
        };
        text
    }

    /// Appends words as they are.
    ///
    /// # Preconditions
    ///
    /// Each byte of the words is printable ASCII.
    pub fn text(&mut self, words: &str)
        requires { is_text words.now ≡ true }
        ensures { self.new ≡ appended LINE_LENGTH self.old words.now }
    {
        self.append(words.as_bytes());
    }

    /// Appends the bytes of another line.
    pub fn line(&mut self, other: &Line)
        ensures { self.new ≡ appended LINE_LENGTH self.old other.now }
    {
        self.append(other.bytes.as_slice());
    }

    /// Appends a number in decimal digits.
    pub fn number(&mut self, number: u64)
        ensures { self.new ≡ appended LINE_LENGTH self.old (decimal number) }
    {
        let mut buffer = Buffer::new();
        self.append(buffer.format(number).as_bytes());
    }

    /// Appends bytes in hexadecimal: two digits a byte, in lower case.
    pub fn hex(&mut self, bytes: &[u8])
        ensures { self.new ≡ appended LINE_LENGTH self.old (hex_text bytes.now) }
    {
        for byte in bytes {
            self.append(&[digit(*byte / 16), digit(*byte % 16)]);
        }
    }

    /// Appends bytes as text. A byte is written as it is if it is printable and neither `\` nor `"`, and as `\xNN`
    /// with two hexadecimal digits otherwise. The text has one meaning: no two lists of bytes have the same.
    pub fn escaped(&mut self, bytes: &[u8])
        ensures { self.new ≡ appended LINE_LENGTH self.old (escaped_text bytes.now) }
    {
        for byte in bytes {
            self.escape(*byte);
        }
    }

    /// Appends a byte as it is, or as `\xNN`.
    fn escape(&mut self, byte: u8)
        ensures { self.new ≡ appended LINE_LENGTH self.old (escape_of byte) }
    {
        if is_literal(byte) {
            self.append(&[byte]);
        } else {
            self.append(&[b'\\', b'x', digit(byte / 16), digit(byte % 16)]);
        }
    }

    /// Appends printable bytes.
    fn append(&mut self, piece: &[u8])
        requires { is_text piece.now ≡ true }
        ensures { self.new ≡ appended LINE_LENGTH self.old piece.now }
    {
        append_piece(&mut self.bytes, piece);
    }
}

/// Appends as many bytes of a piece as fit before the ellipsis. If some do not fit, the ellipsis follows. If it is
/// there already, nothing is appended.
fn append_piece(buffer: &mut ArrayVec<u8, LINE_LENGTH>, piece: &[u8])
    ensures { buffer.new.items ≡ appended LINE_LENGTH buffer.old.items piece.now }
{
    let used = buffer.len();
    if used > TEXT_LENGTH {
        return;
    }
    let room = TEXT_LENGTH - used;
    if piece.len() <= room {
        append_all(buffer, piece);
    } else {
        append_all(buffer, &piece[..room]);
        append_all(buffer, b"...");
    }
}

/// Appends bytes to a buffer, which must have room for them.
fn append_all(buffer: &mut ArrayVec<u8, LINE_LENGTH>, bytes: &[u8])
    requires { length buffer.old.items + length bytes.now ≤ LINE_LENGTH }
    ensures { buffer.new.items ≡ buffer.old.items ++ bytes.now }
{
    let Ok(()) = buffer.try_extend_from_slice(bytes) else {
        unreachable!()
    };
}

/// Returns `true` if a byte is written as it is in escaped text.
fn is_literal(byte: u8) -> bool
    ensures { result ≡ is_plain byte }
{
    b' ' <= byte && byte <= b'~' && byte != b'\\' && byte != b'"'
}

/// Returns the hexadecimal digit of a number below 16.
fn digit(number: u8) -> u8
    requires { number < 16 }
    ensures value { result ≡ hex_digit number }
    ensures printable { is_printable result ≡ true }
{
    if number < 10 {
        b'0' + number
    } else {
        b'a' + (number - 10)
    }
}
