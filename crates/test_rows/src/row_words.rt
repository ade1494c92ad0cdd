//! Parsing of the words of a row.

/// Splits a text at its first space. The second part is empty if there is no space.
pub(crate) fn cut<'a>(text: &'a str) -> (&'a str, &'a str) {
    text.split_once(' ').unwrap_or((text, ""))
}

/// Splits a text at its first separator. The second part is `None` if there is no separator.
pub(crate) fn split_first<'a>(text: &'a str, separator: char) -> (&'a str, Option<&'a str>) {
    match text.split_once(separator) {
        Some((first, rest)) => (first, Some(rest)),
        None => (text, None),
    }
}

/// Returns the number that a text represents in decimal, or 0 if it represents none.
pub(crate) fn number(text: &str) -> usize {
    text.parse::<usize>().unwrap_or(0)
}

/// Returns the numbers of a text in order, with a space between two. A word that represents none counts as 0. The
/// numbers after the last are 0.
pub(crate) fn numbers(text: &str) -> [usize; 13] {
    let mut numbers = [0; 13];
    let mut rest = text;
    for place in &mut numbers {
        let (word, later) = cut(rest);
        *place = number(word);
        rest = later;
    }
    numbers
}

/// Returns the value of a hex digit.
fn nibble(digit: u8) -> u8 {
    if digit < b'a' {
        digit.wrapping_sub(b'0')
    } else {
        digit.wrapping_sub(b'W')
    }
}

/// Replaces `bytes` with the bytes that the hex digits encode. Bytes above the capacity of `bytes` are dropped.
pub(crate) fn read_hex(word: &str, bytes: &mut Vec<u8>) {
    bytes.clear();
    let mut first = None;
    for digit in word.as_bytes() {
        let low = nibble(*digit);
        first = match first {
            None => Some(low),
            Some(high) => {
                let _ = bytes.push(low.wrapping_add(high << 4));
                None
            }
        };
    }
}

/// Replaces each byte `old` with `new`.
pub(crate) fn put_for(bytes: &mut [u8], old: u8, new: u8) {
    for byte in bytes {
        if *byte == old {
            *byte = new;
        }
    }
}
