//! The examples of the documentation. Each test below is the code of an example under `# Examples` in a documentation
//! comment. `quickstart.rt` and `embedding.rt` have the listings of docs/QUICKSTART.md and docs/EMBEDDING.md.
//! `tests/tools/examples.py` compares them.
//!
//! A last line such as `exchanges(rt, &mut server)` continues with the body of that function. A function that owns a
//! server drops it at each `?`, which makes its proof long. A function that borrows the server does not.

mod application;
mod embedding;
mod quickstart;

use coap_client::{Client, Event, Extras, Method, Target, client_words};
use coap_frame::{FrameEvent, Framer};
use coap_path::{Applications, UriPath};
use coap_serve::{
    Config, Limits, PathKey, ReadSource, Server, Starts, WriteOutlet, script, serve_one,
};
use coap_store::{State, Store};
use coap_wire::{Builder, Code, Token, parse, uint_bytes, uint_value};
use std::process::Abort;
use std::test::Fail;

#[test]
fn parses_a_message(rt: HostRuntime) -> Result<(), Fail> {
    let message = parse(b"\x51\x01\x2a\xb4time")?;
    assert!(&rt; message.code() == Code::GET);
    assert!(&rt; message.token().bytes() == b"\x2a".as_slice());
    for option in message.options() {
        // Uri-Path
        assert!(&rt; option.number == 11 && option.value == b"time".as_slice());
    }
    assert!(&rt; message.payload().is_empty());
    Ok(())
}

#[test]
fn builds_a_message(rt: HostRuntime) -> Result<(), Fail> {
    let token = Token::try_from(b"\x2a".as_slice())?;
    let mut request = Builder::new(Code::GET, &token);
    // Uri-Path
    request.option(11, b"time")?;
    let mut bytes = Vec::with_capacity(rt.alloc(), request.size() as usize)?;
    request.write(&mut bytes);
    assert!(&rt; bytes.as_slice() == b"\x51\x01\x2a\xb4time".as_slice());
    Ok(())
}

#[test]
fn encodes_a_uint(rt: HostRuntime) -> Result<(), Fail> {
    let bytes = uint_bytes(300);
    assert!(&rt; bytes.as_slice() == b"\x01\x2c".as_slice());
    assert!(&rt; uint_value(&bytes) == Some(300));
    Ok(())
}

#[test]
fn splits_a_stream(rt: HostRuntime) -> Result<(), Fail> {
    let mut framer = Framer::new(rt.alloc(), 1_152)?;
    // A message of three bytes arrives in two chunks. The second one begins another message.
    let first = framer.next(b"\x01\x01");
    assert!(&rt; first.taken == 2 && matches!(first.what, FrameEvent::More));
    let second = framer.next(b"\x2a\x00");
    let frame = second.what.frame()?;
    assert!(&rt; second.taken == 1 && frame == Some(b"\x01\x01\x2a".as_slice()));
    Ok(())
}

#[test]
fn parses_a_frame_of_a_stream(rt: HostRuntime) -> Result<(), Fail> {
    let mut framer = Framer::new(rt.alloc(), 1_152)?;
    let framed = framer.next_frame(b"\x51\x01\x2a\xb4time");
    if let Some(frame) = framed.what.laid_out()? {
        assert!(&rt; frame.layout.token_at == 2 && frame.layout.token_length == 1);
        let message = frame.parse()?;
        assert!(&rt; message.token().bytes() == b"\x2a".as_slice());
    }
    Ok(())
}

#[test]
fn sets_limits(rt: HostRuntime) -> Result<(), Fail> {
    let limits = Limits::builder().max_message(1_152).pending(64).build()?;
    assert!(&rt; limits.max_message() == 1_152);
    // Each endpoint accepts messages of 1,152 bytes.
    assert!(&rt; Limits::builder().max_message(1_000).build().is_err());
    Ok(())
}

#[test]
fn configures_a_server(rt: HostRuntime) -> Result<(), Fail> {
    let config = Config::builder().dynamic_max(16).connections(64).build()?;
    assert!(&rt; config.dynamic_max() == 16 && config.connections() == 64);
    Ok(())
}

#[test]
fn starts_from_the_clock(rt: HostRuntime) -> Result<(), Fail> {
    // Seconds since the epoch; a program takes them from its clock.
    let starts = Starts::at(1_700_000_000);
    let config = Config::builder().starts(starts).build()?;
    assert!(&rt; config.moment() == 1_700_000_000);
    assert!(&rt; starts.versions == 1_700_000_000 * 65_536);
    Ok(())
}

#[test]
fn names_a_resource(rt: HostRuntime) -> Result<(), Fail> {
    let path = PathKey::from_segments(&[b"sensors", b"1"]);
    assert!(&rt; path.is_some() && path != PathKey::from_segments(&[b"sensors/1"]));
    assert!(&rt; PathKey::from_segments(&[b".."]).is_none());
    Ok(())
}

#[test]
fn answers_by_application(rt: HostRuntime) -> Result<(), Fail> {
    // The application has 10 seconds for a response.
    let mut applications = Applications::new(rt.alloc(), 10)?;
    let directory = PathKey::from_segments(&[b"rd"]).ok_or("no path")?;
    applications.add(&directory, &[Code::POST], b"rt=\"core.rd\"")?;
    // POST /rd/1
    let request = parse(b"\x50\x02\xb2rd\x011")?;
    let body = request.body();
    assert!(&rt; applications.answers(UriPath::of(&body), Code::POST));
    assert!(&rt; !applications.answers(UriPath::of(&body), Code::GET));
    Ok(())
}

#[test]
fn stores_a_representation(rt: HostRuntime) -> Result<(), Fail> {
    let mut store = Store::new(rt.alloc(), 16, 1_024, 0)?;
    puts_and_looks(rt, &mut store)
}

/// Continues `stores_a_representation`.
fn puts_and_looks(rt: impl Abort + Copy, store: &mut Store) -> Result<(), Fail> {
    let path = PathKey::from_segments(&[b"temperature"]).ok_or("no path")?;
    // Content-Format 0 is text.
    let version = store.put(&path, Some(0), b"21.5")?;
    match store.state(&path, 0) {
        State::Present(stored) => {
            assert!(&rt; stored.version() == version && stored.bytes() == b"21.5".as_slice());
        }
        State::Absent => assert!(&rt; false),
    }
    Ok(())
}

#[test]
fn answers_a_request(rt: HostRuntime) -> Result<(), Fail> {
    let mut server = Server::new(rt.alloc(), Config::builder().build()?)?;
    exchanges(rt, &mut server)
}

/// Continues `answers_a_request`.
fn exchanges(rt: impl Abort + Copy, server: &mut Server) -> Result<(), Fail> {
    let id = server.open()?;
    // The client's CSM, and a GET of the root. A call of `take` processes one message.
    let input = b"\x00\xe1\x01\x01\x2a".as_slice();
    let csm = server.take(id, input)?;
    let get = server.take(id, &input[csm.bytes..])?;
    assert!(&rt; csm.bytes == 2 && get.bytes == 3);
    // The server's CSM, and the response.
    let output = server.front(id).unwrap_or(&[]);
    assert!(&rt; output.ends_with(b"coap+tcp"));
    let count = output.len();
    server.written(id, count)?;
    Ok(())
}

#[test]
fn reads_a_state(rt: HostRuntime) -> Result<(), Fail> {
    let config = Config::builder().dynamic_max(1).build()?;
    let mut server = Server::new(rt.alloc(), config)?;
    puts_and_reads(rt, &mut server)
}

/// Continues `reads_a_state`.
fn puts_and_reads(rt: impl Abort + Copy, server: &mut Server) -> Result<(), Fail> {
    let path = PathKey::from_segments(&[b"temperature"]).ok_or("no path")?;
    let version = server.put(&path, Some(0), b"21.5")?;
    match server.state(&path) {
        State::Present(stored) => {
            assert!(&rt; stored.version() == version && stored.bytes() == b"21.5".as_slice());
        }
        State::Absent => assert!(&rt; false),
    }
    Ok(())
}

#[test]
fn responds_by_application(rt: HostRuntime) -> Result<(), Fail> {
    // The application answers POST below /rd, within 10 seconds.
    let mut applications = Applications::new(rt.alloc(), 10)?;
    let directory = PathKey::from_segments(&[b"rd"]).ok_or("no path")?;
    applications.add(&directory, &[Code::POST], b"")?;
    let config = Config::builder().build()?;
    let mut server = Server::with_applications(rt.alloc(), config, applications)?;
    posts_and_responds(rt, &mut server)
}

/// Continues `responds_by_application`.
fn posts_and_responds(rt: impl Abort + Copy, server: &mut Server) -> Result<(), Fail> {
    let id = server.open()?;
    // The client's CSM, and POST /rd with the token 2a. The request waits for the application.
    let input = b"\x00\xe1\x31\x02\x2a\xb2rd".as_slice();
    let csm = server.take(id, input)?;
    let post = server.take(id, &input[csm.bytes..])?;
    assert!(&rt; csm.bytes == 2 && post.bytes == 6);
    // The application responds with 2.01 and the same token.
    server.respond(id, b"\x01\x41\x2a")?;
    let output = server.front(id).unwrap_or(&[]);
    assert!(&rt; output.ends_with(b"\x01\x41\x2a"));
    Ok(())
}

#[test]
fn lends_a_request(rt: HostRuntime) -> Result<(), Fail> {
    // The application answers POST below /rd, within 10 seconds.
    let mut applications = Applications::new(rt.alloc(), 10)?;
    let directory = PathKey::from_segments(&[b"rd"]).ok_or("no path")?;
    applications.add(&directory, &[Code::POST], b"")?;
    let config = Config::builder().build()?;
    let mut server = Server::with_applications(rt.alloc(), config, applications)?;
    posts_and_lends(rt, &mut server)
}

/// Continues `lends_a_request`.
fn posts_and_lends(rt: impl Abort + Copy, server: &mut Server) -> Result<(), Fail> {
    let id = server.open()?;
    // The client's CSM, and POST /rd with the token 2a. The request waits for the application.
    let input = b"\x00\xe1\x31\x02\x2a\xb2rd".as_slice();
    let csm = server.take(id, input)?;
    let post = server.take_request(id, &input[csm.bytes..])?;
    assert!(&rt; csm.bytes == 2 && post.taken.bytes == 6);
    assert!(&rt; post.frame == Some(b"\x31\x02\x2a\xb2rd".as_slice()));
    // The application responds with 2.01 and the same token.
    server.respond(id, b"\x01\x41\x2a")?;
    Ok(())
}

#[test]
fn replays_a_script(rt: HostRuntime) -> Result<(), Fail> {
    let mut server = Server::new(rt.alloc(), Config::builder().build()?)?;
    replays_lines(rt, &mut server)
}

/// Continues `replays_a_script`.
fn replays_lines(rt: impl Abort + AllocGlobal + Copy, server: &mut Server) -> Result<(), Fail> {
    let events = script(rt.alloc(), b"open\nin 1 00e1\ntick 60\n")?;
    let mut lines = Vec::new(rt.alloc());
    server.replay(&events, &mut WriteOutlet::new(&mut lines))?;
    assert!(&rt; lines.as_slice() == b"open 1\nin 1 2\ntick 60\n".as_slice());
    Ok(())
}

#[test]
fn serves_one_connection(rt: HostRuntime) -> Result<(), Fail> {
    // The client's CSM, and a GET of the root.
    let mut input = ReadSource::new(b"\x00\xe1\x01\x01\x2a".as_slice());
    let mut bytes = Vec::new(rt.alloc());
    let mut output = WriteOutlet::new(&mut bytes);
    let config = Config::builder().build()?;
    let report = serve_one(rt.alloc(), &mut input, &mut output, &config)?;
    assert!(&rt; report.read == 5 && report.messages == 2);
    assert!(&rt; bytes.ends_with(b"coap+tcp"));
    Ok(())
}

#[test]
fn reads_a_target(rt: HostRuntime) -> Result<(), Fail> {
    let target = Target::read(rt.alloc(), "coap+tcp://example.org/sensors/1?unit=C")?;
    assert!(&rt; target.host() == b"example.org".as_slice() && target.port() == 5_683);
    assert!(&rt; target.segments().len() == 2 && target.arguments().len() == 1);
    Ok(())
}

#[test]
fn parses_a_command_line(rt: HostRuntime) -> Result<(), Fail> {
    let words = ["-m", "put", "-e", "21.5", "coap+tcp://127.0.0.1/heat"];
    let plan = client_words(rt.alloc(), &words)?;
    assert!(&rt; plan.method == Method::Put);
    assert!(&rt; plan.payload.as_slice() == b"21.5".as_slice());
    assert!(&rt; plan.target.host() == b"127.0.0.1".as_slice());
    Ok(())
}

#[test]
fn sends_a_request(rt: HostRuntime) -> Result<(), Fail> {
    let mut client = Client::open(rt.alloc(), Limits::builder().build()?, 0)?;
    sends_when_ready(rt, &mut client)
}

/// Continues `sends_a_request`.
fn sends_when_ready(rt: impl Abort + AllocGlobal + Copy, client: &mut Client) -> Result<(), Fail> {
    // The server's CSM.
    let taken = client.take(b"\x00\xe1");
    assert!(&rt; matches!(taken.event(), Some(Event::Ready)));
    let target = Target::read(rt.alloc(), "coap+tcp://127.0.0.1/time")?;
    let token = client.send(Method::Get, &target, &Extras::default())?;
    assert!(&rt; token.as_slice() == b"\x01".as_slice());
    // The client's CSM, and the request.
    assert!(&rt; client.front().ends_with(b"\x51\x01\x01\xb4time"));
    Ok(())
}

#[test]
fn parses_links(rt: HostRuntime) -> Result<(), Fail> {
    for link in directory_links::parse(b"</sensors/temp>;rt=\"temperature-c\";if=sensor")? {
        assert!(&rt; link.target() == b"/sensors/temp".as_slice());
    }
    Ok(())
}
