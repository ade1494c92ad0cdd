//! Rows for framers. `= frame MAX` creates one.
//!
//! The events are `next BYTES`, `each BYTES` (byte by byte), `all BYTES` (frame by frame), `hold BYTES`,
//! `unread BYTES`, `clear`, `raise MAX`, `look` and `copied`.

use crate::layer::Layer;
use crate::row_line::RowLine;
use crate::row_words::{cut, number, read_hex};
use coap_frame::{FrameEvent, Framed, Framer};
use std::alloc::{AllocError, Global};

/// Writes the result of `Framer::next`, and the number of bytes taken.
fn found(framed: &Framed, results: &mut RowLine) {
    match framed.what {
        FrameEvent::More => results.word("More"),
        FrameEvent::Frame(frame) => {
            results.word("Frame");
            results.hex(frame);
        }
        FrameEvent::Whole(frame) => {
            results.word("Whole");
            results.hex(frame);
        }
        FrameEvent::Fault(fault) => results.fault(&fault, fault as u8),
    }
    results.word("taken");
    results.number(framed.taken as u64);
}

/// Passes bytes to the framer one by one. Each must be taken without completing a frame.
fn each(framer: &mut Framer, bytes: &[u8], results: &mut RowLine) {
    results.word("More");
    for byte in bytes {
        let piece = [*byte];
        let framed = framer.next(&piece);
        if framed.taken != 1 || !matches!(framed.what, FrameEvent::More) {
            results.word("not for each");
        }
    }
}

/// Passes an input slice to the framer, frame by frame. Writes each result, and the number of bytes that are left.
fn all(framer: &mut Framer, piece: &[u8], results: &mut RowLine) {
    let mut rest = piece;
    for _ in 0..piece.len() {
        if rest.is_empty() {
            break;
        }
        let framed = framer.next(rest);
        let taken = framed.taken;
        found(&framed, results);
        rest = &rest[taken..];
    }
    results.word("left");
    results.number(rest.len() as u64);
}

/// Passes an input slice that contains a whole frame, and then the bytes after that frame while the frame is borrowed.
/// Writes the second result, and then the frame.
fn hold(framer: &mut Framer, piece: &[u8], results: &mut RowLine) {
    let framed = framer.next(piece);
    let taken = framed.taken;
    let FrameEvent::Whole(frame) = framed.what else {
        results.word("split");
        return;
    };
    found(&framer.next(&piece[taken..]), results);
    results.word("held");
    results.hex(frame);
}

/// Undoes `Framer::next` for the last frame, with its last input slice. The frame is a split one, or an empty CSM that
/// was whole in its input slice.
#[tactic(auto, unfolding(coap_wire::specs::StreamPrefix::prefix_kind, coap_wire::specs::Reading::declared_of, coap_wire::specs::Reading::length_at, coap_wire::specs::Reading::option_number_at))]
fn unread(framer: &mut Framer, piece: &[u8], results: &mut RowLine) {
    if framer.spent() > 0 {
        framer.unread(piece);
    } else if piece == [0x00, 0xe1].as_slice() && framer.max() == 1_152 && framer.kept() == 0 {
        framer.unread(&[0x00, 0xe1]);
    } else {
        results.word("refused");
    }
}

impl Layer for Framer {
    /// Creates a framer for frames of at most the given number of bytes.
    fn opened(alloc: Global, words: &str) -> Option<Result<Framer, AllocError>> {
        let max = number(words);
        if max < 1_152 || max > 1_048_576 {
            return None;
        }
        Some(Framer::new(alloc, max))
    }

    /// Executes an event, and writes its result, the maximum frame size, and the numbers of bytes kept, spent and
    /// copied.
    fn play(&mut self, _alloc: Global, event: &str, bytes: &mut Vec<u8>, results: &mut RowLine) {
        let (word, rest) = cut(event);
        read_hex(rest, bytes);
        match word {
            "next" => found(&self.next(bytes), results),
            "each" => each(self, bytes, results),
            "all" => all(self, bytes, results),
            "hold" => hold(self, bytes, results),
            "unread" => unread(self, bytes, results),
            "clear" => self.clear(),
            "raise" => {
                if let Err(fault) = self.raise(number(rest).min(4_294_967_295)) {
                    results.fault(&fault, fault as u8);
                }
            }
            "look" | "copied" => {}
            _ => results.word("strange"),
        }
        results.word("max");
        results.sizes(&[
            self.max(),
            self.kept(),
            self.spent(),
            self.copied() as usize,
        ]);
    }
}
