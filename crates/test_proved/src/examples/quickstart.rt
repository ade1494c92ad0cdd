//! The listing of docs/QUICKSTART.md, with a test.

use coap_client::{Client, Event, Extras, Method, Target};
use coap_serve::{Config, ConnId, Limits, Server};
use std::alloc::Global;

/// A client and a server with one connection.
#[derive(Drop)]
struct Joined {
    client: Client,
    server: Server,
    id: ConnId,
}

/// Creates both. Each has queued its CSM.
fn open(alloc: Global) -> Option<Joined> {
    let limits = Limits::builder().build().ok()?;
    let config = Config::builder().limits(limits).build().ok()?;
    let mut server = Server::new(alloc, config).ok()?;
    let id = server.open().ok()?;
    let client = Client::open(alloc, limits, 0).ok()?;
    Some(Joined { client, server, id })
}

/// Passes bytes from client to server. Returns how many were accepted.
fn to_server(joined: &mut Joined) -> usize {
    let bytes = joined.client.front();
    let Ok(taken) = joined.server.take(joined.id, bytes) else {
        return 0;
    };
    if taken.bytes > joined.client.waiting() {
        return 0;
    }
    joined.client.written(taken.bytes);
    taken.bytes
}

/// Sends a request to the root resource.
fn send(alloc: Global, client: &mut Client, method: Method, payload: &[u8]) -> bool {
    let extras = Extras {
        payload,
        ..Extras::default()
    };
    match Target::read(alloc, "coap+tcp://127.0.0.1/") {
        Ok(target) => client.send(method, &target, &extras).is_ok(),
        Err(_) => false,
    }
}

/// Copies a response's payload. Returns `true` if the client is ready.
fn receive(event: &Event, payload: &mut Vec<u8>) -> bool {
    match event {
        Event::Ready => true,
        Event::Response(message) => {
            let _ = payload.extend_from_slice(message.payload());
            false
        }
        _ => false,
    }
}

/// Passes bytes from server to client. Returns how many were accepted.
fn to_client(alloc: Global, joined: &mut Joined, payload: &mut Vec<u8>) -> usize {
    let Some(bytes) = joined.server.front(joined.id) else {
        return 0;
    };
    let taken = joined.client.take(bytes);
    let count = taken.bytes;
    let mut is_ready = false;
    if let Some(event) = taken.event() {
        is_ready = receive(&event, payload);
    }
    if joined.server.written(joined.id, count).is_err() {
        return 0;
    }
    if is_ready && !send(alloc, &mut joined.client, Method::Get, &[]) {
        return 0;
    }
    count
}

/// Returns the payload of the response: `coap+tcp`.
fn get_root(alloc: Global) -> Option<Vec<u8>> {
    let mut joined = open(alloc)?;
    let mut payload = Vec::new(alloc);
    for _ in 0..100 {
        let up = to_server(&mut joined);
        let down = to_client(alloc, &mut joined, &mut payload);
        if up == 0 && down == 0 {
            break;
        }
    }
    Some(payload)
}

#[test]
fn gets_the_root(rt: HostRuntime) {
    let payload = get_root(rt.alloc()).expect(&rt, "a payload");
    assert!(&rt; payload.as_slice() == b"coap+tcp".as_slice());
}
