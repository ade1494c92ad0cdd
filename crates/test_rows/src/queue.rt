//! Rows for output queues. `= queue COUNT` creates one.
//!
//! The events are `append BYTES`, `push BYTE`, `write COUNT`, `part` and `look`.

use crate::layer::Layer;
use crate::row_line::RowLine;
use crate::row_words::{cut, number, read_hex};
use coap_conn::{OutQueue, first_part};
use coap_wire::Sink;
use std::alloc::{AllocError, Global};

impl Layer for OutQueue {
    /// Creates a queue with a capacity of the given number of bytes.
    fn opened(alloc: Global, words: &str) -> Option<Result<OutQueue, AllocError>> {
        let bytes = number(words);
        if bytes < 1_152 || bytes > 4_194_304 {
            return None;
        }
        Some(OutQueue::new(alloc, bytes))
    }

    /// Executes an event. Writes its result, the free space, the room, the number of queued bytes, and these bytes.
    fn play(&mut self, _alloc: Global, event: &str, bytes: &mut Vec<u8>, results: &mut RowLine) {
        let (word, rest) = cut(event);
        let count = number(rest);
        read_hex(rest, bytes);
        match (word, bytes.as_slice()) {
            ("append", more) if more.len() <= self.room() => self.append(more),
            ("push", [byte]) if self.room() > 0 => self.push(*byte),
            ("write", _) if count <= self.waiting() => self.written(count),
            ("part", _) => results.hex(first_part(self.parts())),
            ("look", _) => {}
            _ => results.word("refused"),
        }
        results.sizes(&[self.free(), self.room(), self.waiting()]);
        results.hex(self.front());
    }
}
