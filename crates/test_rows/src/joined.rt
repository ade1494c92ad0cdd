//! Rows for a client and a server that are connected in memory: `= joined MOST CUT`.
//!
//! The events of the client are `send`, `cancel` and `ping` (see `client`). Those of the server are `put HEX`, at the
//! path `a`, and `tick TIME`. The event `look` does nothing. After each event, bytes are passed in both directions
//! until none is left. A slice has at most MOST bytes, and none passes the offset CUT of its stream.
//!
//! The result line has the result of the event, the events of the client, each after `,`, and the number of outstanding
//! requests, after `;`.

use crate::client;
use crate::layer::Layer;
use crate::row_line::RowLine;
use crate::row_words::{cut, number, numbers, read_hex};
use coap_client_engine::Client;
use coap_conn::Limits;
use coap_model::{Config, ConnId};
use coap_path::PathKey;
use coap_server_engine::Server;
use std::alloc::{AllocError, Global};

/// Maximum number of outstanding requests of the client.
const REQUESTS: usize = 3;

/// Maximum number of times that bytes are passed in both directions.
const ROUNDS: usize = 10_000;

/// Client and server with one connection, and the segmentation of their streams.
#[derive(Drop)]
pub(crate) struct ClientServerPair {
    client: Client,
    server: Server,
    id: ConnId,
    /// Maximum number of bytes of a slice.
    most: usize,
    /// Offset in each stream that no slice passes.
    cut: usize,
    /// Numbers of bytes passed to the server and to the client.
    up: usize,
    down: usize,
}

/// Returns the prefix of the queued bytes to pass next, after `passed` bytes of the stream.
fn piece<'a>(front: &'a [u8], passed: usize, cut: usize, most: usize) -> &'a [u8] {
    let left = if passed < cut {
        cut - passed
    } else {
        usize::MAX
    };
    front.get(..left.min(most)).unwrap_or(front)
}

/// Creates a server with these limits of a connection.
fn opened_server(alloc: Global, limits: Limits) -> Option<Result<Server, AllocError>> {
    let config = Config::builder().limits(limits).dynamic_max(1).rep_max(100);
    let config = config.connections(1).turns(1).build().ok()?;
    Some(Server::new(alloc, config))
}

/// Creates a client for a new server. Each function owns one of them, since the proof of a function that drops both is
/// long.
fn with_client(
    alloc: Global,
    words: &str,
    limits: Limits,
    mut server: Server,
) -> Result<ClientServerPair, AllocError> {
    let [most, cut, ..] = numbers(words);
    // A new server has room for a connection.
    let id = server.open().unwrap_or(0);
    Ok(ClientServerPair {
        client: Client::open(alloc, limits, 0)?,
        server,
        id,
        most,
        cut,
        up: 0,
        down: 0,
    })
}

/// Passes queued bytes of the client to the server, and returns the number of bytes taken.
fn to_server(joined: &mut ClientServerPair, results: &mut RowLine) -> usize {
    let front = joined.client.front();
    let piece = piece(front, joined.up, joined.cut, joined.most);
    let Ok(taken) = joined.server.take(joined.id, piece) else {
        results.word("memory");
        return 0;
    };
    if taken.bytes > joined.client.waiting() {
        results.word("refused");
        return 0;
    }
    joined.client.written(taken.bytes);
    joined.up = joined.up.saturating_add(taken.bytes);
    taken.bytes
}

/// Passes queued bytes of the server to the client, writes the event, and returns the number of bytes taken.
fn to_client(joined: &mut ClientServerPair, results: &mut RowLine) -> usize {
    let Some(front) = joined.server.front(joined.id) else {
        return 0;
    };
    let taken = joined
        .client
        .take(piece(front, joined.down, joined.cut, joined.most));
    let bytes = taken.bytes;
    if let Some(event) = taken.event() {
        results.word(",");
        client::tell_event(&event, results);
    }
    if joined.server.written(joined.id, bytes).is_err() {
        results.word("refused");
    }
    joined.down = joined.down.saturating_add(bytes);
    bytes
}

/// Passes bytes in both directions until none is left.
fn settle(joined: &mut ClientServerPair, results: &mut RowLine) {
    for _ in 0..ROUNDS {
        let up = to_server(joined, results);
        let down = to_client(joined, results);
        if up == 0 && down == 0 {
            return;
        }
    }
    results.word("restless");
}

/// Stores bytes at the path `a` of the server.
fn put(server: &mut Server, bytes: &[u8], results: &mut RowLine) {
    if let Some(path) = PathKey::from_segments(&[b"a"]) {
        results.debug(&server.put(&path, Some(0), bytes).is_ok());
    }
}

impl Layer for ClientServerPair {
    /// Creates a client and a server with one connection.
    fn opened(alloc: Global, words: &str) -> Option<Result<ClientServerPair, AllocError>> {
        let limits = Limits::new(1_152, 1_152, 2_304, 2, 2, REQUESTS).ok()?;
        match opened_server(alloc, limits)? {
            Ok(server) => Some(with_client(alloc, words, limits, server)),
            Err(fault) => Some(Err(fault)),
        }
    }

    /// Executes an event, and writes its result, the events of the client and the number of outstanding requests.
    fn play(&mut self, alloc: Global, event: &str, bytes: &mut Vec<u8>, results: &mut RowLine) {
        let (word, rest) = cut(event);
        match word {
            "put" => {
                read_hex(rest, bytes);
                put(&mut self.server, bytes, results);
            }
            "tick" => results.debug(&self.server.tick(number(rest) as u64).is_ok()),
            _ => client::act(alloc, &mut self.client, event, bytes, results),
        }
        settle(self, results);
        results.word(";");
        results.number(self.client.outstanding() as u64);
    }
}
