//! Rows for resource directories. `= directory REGISTRATIONS BYTES` creates one for this number of registrations, whose
//! lookups have results of at most this number of bytes.
//!
//! The event `TIME REQUEST` writes the response to a request at this time, in seconds.

use crate::layer::Layer;
use crate::row_line::RowLine;
use crate::row_words::{cut, number, numbers, read_hex};
use coap_wire::{TokenRef, parse};
use directory_core::{Directory, write_response};
use std::alloc::{AllocError, Global};

/// Maximum size of a response, in bytes.
const ROOM: usize = 2_000;

/// Maximum size of the result of a lookup, in bytes.
const LOOKUP: usize = 1_000;

impl Layer for Directory {
    fn opened(alloc: Global, words: &str) -> Option<Result<Directory, AllocError>> {
        let [limit, capacity, ..] = numbers(words);
        Some(Directory::new(alloc, limit, capacity))
    }

    fn play(&mut self, alloc: Global, event: &str, bytes: &mut Vec<u8>, results: &mut RowLine) {
        let (now, digits) = cut(event);
        read_hex(digits, bytes);
        let Ok(request) = parse(bytes) else {
            return results.word("strange");
        };
        let reply = self.reply(number(now).min(4_294_967_295) as u64, LOOKUP, &request);
        let Ok(mut response) = Vec::with_capacity(alloc, ROOM) else {
            return results.word("memory");
        };
        let token = TokenRef::empty();
        if write_response(reply, self.content(), &token, &mut response) {
            results.hex(&response);
        } else {
            results.word("too large");
        }
    }
}
