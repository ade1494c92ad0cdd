//! The listings of docs/EMBEDDING.md that use `Server` and `Client`, with tests.

ghost use Rattle.std.specs.Prelude.{◌≤◌, length};

use coap_client::{Client, Event, Extras, Limits, Method, Reason, Target};
use coap_serve::{Config, Server};
use std::alloc::Global;
use std::process::Abort;
use std::test::Fail;

/// Transport that keeps the bytes sent in memory.
#[derive(Drop)]
struct Transport {
    sent: Vec<u8>,
}

impl Transport {
    /// Sends bytes, and returns the number of bytes accepted: all, or none if allocation fails.
    fn write(&mut self, bytes: &[u8]) -> usize
        ensures { result ≤ length bytes.now }
    {
        match self.sent.extend_from_slice(bytes) {
            Ok(()) => bytes.len(),
            Err(_) => 0,
        }
    }
}

/// Serves a client that sends these bytes, and then nothing more. Returns those that the server did not accept.
fn serve<'a>(
    server: &mut Server,
    transport: &mut Transport,
    now: u64,
    input: &'a [u8],
) -> Result<&'a [u8], Fail> {
    // A client has connected.
    let id = server.open()?;
    // The time in seconds. An earlier time is ignored.
    let _ = server.tick(now);
    // The server accepts at most one message. Offer the rest again.
    let taken = server.take(id, input)?;
    let rest = &input[taken.bytes..];
    // Write all queued bytes.
    if let Some(bytes) = server.front(id) {
        let count = transport.write(bytes);
        server.written(id, count)?;
    }

    // The client sends nothing more. If the server has nothing more to write, close the connection.
    server.ended(id)?;
    if server.status(id).is_some_and(|status| status.finished) {
        server.drop_conn(id)?;
    }
    Ok(rest)
}

/// Connects to a server that sends `input`, and then nothing more. If the client is ready, sends a GET with these
/// extras and cancels it. Returns the number of bytes accepted, and the reason if the connection stopped.
fn observe(
    alloc: Global,
    transport: &mut Transport,
    input: &[u8],
    target: &Target,
    extras: &Extras,
    payload: &mut Vec<u8>,
) -> Result<(usize, Option<Reason>), Fail> {
    let limits = Limits::builder().build()?;
    let mut client = Client::open(alloc, limits, 0)?;
    let count = transport.write(client.front());
    client.written(count);
    let received = receive(&mut client, input, target, extras, payload)?;
    // The server sends nothing more.
    client.ended();
    let _ = transport.write(client.front());
    Ok(received)
}

/// Passes bytes to a client, which accepts at most one message. Offer the others again. Returns the number of bytes
/// accepted, and the reason if the connection stopped.
fn receive(
    client: &mut Client,
    input: &[u8],
    target: &Target,
    extras: &Extras,
    payload: &mut Vec<u8>,
) -> Result<(usize, Option<Reason>), Fail> {
    let taken = client.take(input);
    let count = taken.bytes;
    let (mut is_ready, mut stop) = (false, None);
    match taken.event() {
        // Requests can be sent from now on.
        Some(Event::Ready) => is_ready = true,
        // More responses follow a notification.
        Some(Event::Notification(message)) => payload.extend_from_slice(message.payload())?,
        // No more responses follow.
        Some(Event::Response(message)) => payload.extend_from_slice(message.payload())?,
        // The client accepts no more messages.
        Some(Event::Stopped(reason)) => stop = Some(reason),
        _ => {}
    }
    if is_ready {
        let token = client.send(Method::Get, target, extras)?;
        // Ends an observation. Its last response follows.
        client.cancel(&token, target, extras)?;
    }
    Ok((count, stop))
}

#[test]
fn serves_a_client(rt: HostRuntime) -> Result<(), Fail> {
    let mut server = Server::new(rt.alloc(), Config::builder().build()?)?;
    serves(&rt, &mut server)
}

/// Continues `serves_a_client`.
fn serves(rt: &(impl Abort + AllocGlobal), server: &mut Server) -> Result<(), Fail> {
    let mut transport = Transport {
        sent: Vec::new(rt.alloc()),
    };
    let rest = serve(server, &mut transport, 7, b"\x00\xe1\x01\x01\x2a")?;
    assert!(rt; rest == b"\x01\x01\x2a".as_slice());
    assert!(rt; transport.sent.as_slice() == b"\x60\xe1\x23\x01\x00\x00\x41\x40".as_slice());
    Ok(())
}

#[test]
fn observes_a_resource(rt: HostRuntime) -> Result<(), Fail> {
    let mut transport = Transport {
        sent: Vec::new(rt.alloc()),
    };
    let target = Target::read(rt.alloc(), "coap+tcp://127.0.0.1/time")?;
    let extras = Extras {
        observe: true,
        ..Extras::default()
    };
    let mut payload = Vec::new(rt.alloc());
    let (count, stop) = observe(
        rt.alloc(),
        &mut transport,
        b"\x00\xe1",
        &target,
        &extras,
        &mut payload,
    )?;
    assert!(&rt; count == 2 && stop.is_none() && payload.is_empty());
    assert!(&rt;
        transport
            .sent
            .ends_with(b"\x61\x01\x01\x60\x54time\x71\x01\x01\x61\x01\x54time")
    );
    Ok(())
}
