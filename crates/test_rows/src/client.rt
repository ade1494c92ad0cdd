//! Rows for clients. `= client` with the six limits and a number creates one. The first token is made from the number
//! after this one.
//!
//! The events are `take HEX`, `send METHOD TARGET` with the fields of a request (`fields`), `ping custody` (or
//! `plain`), `forget TOKEN`, `release`, `announce SIZE`, `written COUNT`, `end`, `part` and `look`. The method `cancel`
//! cancels an observation. After each event all queued bytes are removed, as written, unless the row begins with
//! `keep`.

use crate::fields::{method, read_fields};
use crate::layer::Layer;
use crate::limits::limits_of;
use crate::row_line::RowLine;
use crate::row_words::{cut, number, numbers, read_hex};
use coap_client_engine::{Client, Event};
use coap_client_request::Target;
use coap_conn::{RequestFault, first_part};
use coap_wire::{MessageRef, Token};
use std::alloc::{AllocError, Global};

/// Writes a word, and the code, the token and the payload of a message.
fn tell_message(word: &str, message: &MessageRef, results: &mut RowLine) {
    results.word(word);
    results.number(message.code().byte() as u64);
    results.hex(message.token().bytes());
    results.hex(message.payload());
}

/// Writes an event of a client.
pub(crate) fn tell_event(event: &Event, results: &mut RowLine) {
    match event {
        Event::Ready => results.word("ready"),
        Event::Response(message) => tell_message("response", message, results),
        Event::Notification(message) => tell_message("notification", message, results),
        Event::Rejected { token, number } => {
            results.word("rejected");
            results.hex(token.bytes());
            results.number(*number as u64);
        }
        Event::Pong { token, custody } => {
            results.word("pong");
            results.hex(token.bytes());
            results.debug(custody);
        }
        Event::Stranger => results.word("stranger"),
        Event::Stopped(reason) => {
            results.word("stopped");
            results.number(reason.number() as u64);
        }
    }
}

/// Passes bytes to a client, and writes the number of bytes taken and the event.
fn take(client: &mut Client, bytes: &[u8], results: &mut RowLine) {
    let taken = client.take(bytes);
    results.number(taken.bytes as u64);
    match taken.event() {
        Some(event) => tell_event(&event, results),
        None => results.word("-"),
    }
}

/// Writes the token of a request, or the error.
fn tell_token(given: Result<Token, RequestFault>, results: &mut RowLine) {
    match given {
        Ok(token) => results.hex(token.as_slice()),
        Err(fault) => results.fault(&fault, fault as u8),
    }
}

/// Sends a request or cancels an observation, and writes the token or the error. A cancellation has no token.
fn send(
    alloc: Global,
    client: &mut Client,
    text: &str,
    bytes: &mut Vec<u8>,
    results: &mut RowLine,
) {
    let (name, text) = cut(text);
    let (to, text) = cut(text);
    let fields = read_fields(text, bytes);
    let token = Token::try_from(fields.token).unwrap_or(Token::new());
    match Target::read(alloc, to) {
        Ok(target) => tell_token(
            match name {
                "cancel" => match client.cancel(&token, &target, &fields.extras) {
                    Ok(()) => Ok(Token::new()),
                    Err(fault) => Err(fault),
                },
                _ => client.send(method(name), &target, &fields.extras),
            },
            results,
        ),
        Err(fault) => results.fault(&fault, fault as u8),
    }
}

/// Forgets the request, observation or Ping with a token, and writes the result.
fn forget(client: &mut Client, token: &[u8], results: &mut RowLine) {
    let Ok(token) = Token::try_from(token) else {
        return results.word("strange");
    };
    match client.forget(&token) {
        Ok(()) => results.word("Ok"),
        Err(fault) => results.debug(&fault),
    }
}

/// Releases the connection, and writes the result.
fn release(client: &mut Client, results: &mut RowLine) {
    match client.release() {
        Ok(()) => results.word("Ok"),
        Err(fault) => results.fault(&fault, fault as u8),
    }
}

/// Announces another Max-Message-Size, and writes the result.
fn announce(client: &mut Client, size: usize, results: &mut RowLine) {
    match client.announce(size.min(4_294_967_295) as u32) {
        Ok(()) => results.word("Ok"),
        Err(fault) => results.fault(&fault, fault as u8),
    }
}

/// Removes bytes from the front of the queue, as written.
fn written(client: &mut Client, count: usize, results: &mut RowLine) {
    if count > client.waiting() {
        return results.word("refused");
    }
    client.written(count);
    results.word("-");
}

/// Executes an event, and writes its result.
pub(crate) fn act(
    alloc: Global,
    client: &mut Client,
    event: &str,
    bytes: &mut Vec<u8>,
    results: &mut RowLine,
) {
    let (word, rest) = cut(event);
    match word {
        "take" => {
            read_hex(rest, bytes);
            take(client, bytes, results);
        }
        "send" => send(alloc, client, rest, bytes, results),
        "ping" => tell_token(client.ping(rest == "custody"), results),
        "forget" => {
            read_hex(rest, bytes);
            forget(client, bytes, results);
        }
        "release" => release(client, results),
        "announce" => announce(client, number(rest), results),
        "written" => written(client, number(rest), results),
        "end" => {
            client.ended();
            results.word("-");
        }
        "part" => results.hex(first_part(client.parts())),
        "look" => results.word("-"),
        _ => results.word("strange"),
    }
}

impl Layer for Client {
    fn opened(alloc: Global, words: &str) -> Option<Result<Client, AllocError>> {
        let [_, _, _, _, _, _, tokens, ..] = numbers(words);
        let limits = limits_of(words).ok()?;
        Some(Client::open(alloc, limits, tokens as u64))
    }

    /// Executes an event, and writes its result and the state of the client. Then removes all queued bytes, unless the
    /// row begins with `keep`.
    fn play(&mut self, alloc: Global, event: &str, bytes: &mut Vec<u8>, results: &mut RowLine) {
        let kept = event.strip_prefix("keep ");
        act(alloc, self, kept.unwrap_or(event), bytes, results);
        results.debug(&self.phase());
        let count = self.waiting();
        results.sizes(&[self.outstanding(), count]);
        results.hex(self.front());
        if kept.is_none() {
            self.written(count);
        }
    }
}
