//! Rows for links. `= link ROLE` with the six limits creates one.
//!
//! The events that send are `reply MESSAGE`, `request MESSAGE plain` (or `observe`), `cancel MESSAGE`, `ping - plain`
//! (or `custody`), `announce - SIZE`, `respond BYTES` and `release`. The other events are `hear MESSAGE`,
//! `hold TOKEN TIME`, `await TOKEN TIME`, `due - TIME`, `reject - FAULT`, `end - cut` (or `whole`), `write - COUNT`,
//! `count`, `token`, `part` and `look`. Results are written as `Debug` prints them.

use crate::layer::Layer;
use crate::limits::limits_of;
use crate::row_line::RowLine;
use crate::row_words::{cut, number, read_hex};
use coap_conn::{Link, Phase, Reject, Role, first_part};
use coap_wire::{Builder, MessageRef, Token, parse};
use std::alloc::{AllocError, Global};

/// Passes a message to the link, and writes the verdict.
fn hear(link: &mut Link, bytes: &[u8], results: &mut RowLine) {
    let Ok(message) = parse(bytes) else {
        return results.word("strange");
    };
    match link.phase() {
        Phase::Waiting | Phase::Open if link.ready() => results.debug(&link.on(&message)),
        _ => results.word("refused"),
    }
}

/// Adds the options and the payload of a message to a copy of it. Returns `true` if all were accepted.
fn fill<'a>(copy: &mut Builder<'a>, message: &MessageRef<'a>) -> bool {
    for option in message.options() {
        if copy.option(option.number, option.value).is_err() {
            return false;
        }
    }
    copy.payload(message.payload()).is_ok()
}

/// Sends a message as a response, as a request, or as a cancellation under its token, and writes the result.
fn send(link: &mut Link, word: &str, bytes: &[u8], how: &str, results: &mut RowLine) {
    let Ok(message) = parse(bytes) else {
        return results.word("strange");
    };
    let mut built = Builder::with_token_ref(message.code(), message.token().copy());
    if !fill(&mut built, &message) {
        return results.word("strange");
    }
    match (word, link.phase()) {
        ("request", _) => results.debug(&link.request(&built, how == "observe")),
        ("cancel", _) => results.debug(&link.cancel(&message.token().to_token(), &built)),
        (_, Phase::Open | Phase::Releasing(_)) if link.ready() => results.debug(&link.reply(
            &built,
        )),
        _ => results.word("refused"),
    }
}

/// Delays the response to the request with a token until the given time, in seconds, and writes the result. With
/// another word than `hold`, the application may answer until then.
fn hold(link: &mut Link, word: &str, token: &[u8], moment: u64, results: &mut RowLine) {
    let Ok(token) = Token::try_from(token) else {
        return results.word("strange");
    };
    match link.phase() {
        Phase::Open => results.debug(&match word {
            "hold" => link.hold(token, moment),
            _ => link.hold_request(token, moment),
        }),
        _ => results.word("refused"),
    }
}

/// Rejects the bytes after the messages that were processed.
fn reject(link: &mut Link, fault: &str, results: &mut RowLine) {
    let fault = match fault {
        "format" => Reject::Format,
        "large" => Reject::TooLarge,
        _ => Reject::TokenLength,
    };
    match link.phase() {
        Phase::Waiting | Phase::Open if link.ready() => {
            link.reject(fault);
            results.word("-");
        }
        _ => results.word("refused"),
    }
}

/// Announces another Max-Message-Size, and writes the current one.
fn announce(link: &mut Link, size: usize, results: &mut RowLine) {
    let size = size.min(4_294_967_295) as u32;
    match link.phase() {
        Phase::Open if link.ready() && link.takes_announcement(size) => link.announce(size),
        _ => results.word("refused"),
    }
    results.word("own");
    results.number(link.own_max() as u64);
}

/// Removes bytes from the front of the queue, as written.
fn written(link: &mut Link, count: usize, results: &mut RowLine) {
    if count > link.waiting() {
        return results.word("refused");
    }
    link.written(count);
    results.word("-");
}

impl Layer for Link {
    /// Creates a link with a role and six limits.
    fn opened(alloc: Global, words: &str) -> Option<Result<Link, AllocError>> {
        let (role, rest) = cut(words);
        let limits = limits_of(rest).ok()?;
        let role = if role == "client" {
            Role::Client
        } else {
            Role::Server
        };
        Some(Link::open(alloc, role, limits, 0))
    }

    /// Executes an event, and writes its result. Then writes the phase, the Max-Message-Size of the peer, the free
    /// queue space, whether the link is ready and whether finished, and the queued bytes.
    fn play(&mut self, _alloc: Global, event: &str, bytes: &mut Vec<u8>, results: &mut RowLine) {
        let (word, rest) = cut(event);
        let (digits, last) = cut(rest);
        read_hex(digits, bytes);
        let moment = number(last);
        match word {
            "hear" => hear(self, bytes, results),
            "reply" | "request" | "cancel" => send(self, word, bytes, last, results),
            "hold" | "await" => hold(self, word, bytes, moment as u64, results),
            "respond" => results.debug(&self.respond(bytes)),
            "due" if self.ready() => results.debug(&self.due(moment as u64)),
            "release" => results.debug(&self.release()),
            "ping" => results.debug(&self.ping(last == "custody")),
            "reject" => reject(self, last, results),
            "end" => {
                self.end(last == "cut");
                results.word("-");
            }
            "announce" => announce(self, moment, results),
            "write" => written(self, moment, results),
            "count" => results.sizes(&[self.pending(), self.outstanding()]),
            "token" => results.number(self.peer_token() as u64),
            "part" => results.hex(first_part(self.parts())),
            "look" => results.word("-"),
            _ => results.word("refused"),
        }
        results.debug(&self.phase());
        results.sizes(&[self.peer_max() as usize, self.free()]);
        results.debug(&self.ready());
        results.debug(&self.finished());
        results.number(self.waiting() as u64);
        results.hex(self.front());
    }
}
