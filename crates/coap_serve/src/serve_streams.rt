//! Serves one connection over one input and one output.

ghost use Rattle.std.specs.Prelude.{◌≡◌, ◌+◌, ◌<◌, ◌≤◌, ◌^◌, ℕ, false, List, [], ◌++◌, length, Option, Some, IfOk};
ghost use Rattle.std.specs.Prelude.{OnOk};
ghost use Rattle.coap_serve.specs.Prelude.{AllByRecursion, end_reason, ConfigValues};
ghost use Rattle.coap_serve.specs.Prelude.{count_of, is_cut, HasGiven, AddsBytes, stream_of};
ghost use Rattle.coap_serve.specs.Prelude.{stdio_output, IsRunningAt, IsTurn, IsStdioRun, is_read_fault};
ghost use Rattle.coap_serve.specs.Prelude.{is_write_fault, FollowsMore, IsReportedRun};
ghost use Rattle.coap_serve.specs.Prelude.{HasReportedEnd};
ghost use Rattle.coap_serve.specs.streams.StdioProgress.{IsServed};

use crate::output::{flush_at, greet, stop_in};
use coap_conn::Reason;
use coap_io::{Outlet, Source};
use coap_model::{Config, ConnId, Handled, TakeFault};
use coap_server_engine::{Call, ConnIndex, IoFault, Monitor, NoMonitor, Server};
use std::alloc::Global;

/// Result of a run over one input and one output.
#[derive(Clone, Copy, Debug, PartialEq, Eq)]
pub struct Report {
    /// Number of bytes read.
    pub read: u64,
    /// Number of messages processed.
    pub messages: u64,
    /// Cause of the end of the run.
    pub reason: Reason,
}

/// Maximum number of bytes of one read.
const PIECE: usize = 4_096;

/// Result of one turn: of one read and the processing of its bytes.
#[derive(Clone, Copy)]
struct Turn {
    /// Number of bytes read.
    read: usize,
    /// Number of messages processed.
    messages: u64,
    /// Reason to end the run, or `None` if it continues.
    stop: Option<Reason>,
}

/// Serves one connection over an input and an output until the run ends.
///
/// The function writes the server's Capabilities and Settings Message (CSM). Then it reads at most 4,096 bytes at a
/// time. The response to each message is written before the next message is processed (RFC 8323 sections 3.3, 5.3,
/// 5.4). The function drives one `Server` with this connection alone. Requests are answered from a store that is empty
/// at first (RFC 7252 section 5.8), and observers are notified (RFC 7641). The time stays at the start time of the
/// configuration.
///
/// The run ends at the end of input, or with the first message or malformed input that stops the connection. Every read
/// is a turn, including the read that finds the end. Bytes after a stop in the same chunk are read but not processed.
/// When the run ends, responses that are delayed by one second or more are discarded. Only at time 2^64 - 1 are they
/// sent at once. Only `serve_one_with` states the order of the writes within one read, by the calls of its monitor.
///
/// # Errors
///
/// - `Memory`: an allocation failed. If it was for the connection or the store, nothing was read or written. If it was
///   for a representation that a request stores, nothing of that request was processed. The output for all bytes before
///   its last one was written.
/// - `Write`: a write failed, and a part of the output was written.
/// - `Read`: a read failed. The output for all bytes read was written.
/// - `Turns`: the limit of turns was reached. The output for all bytes read was written.
///
/// # Preconditions
///
/// The input and the output have not failed, and `starts.ids` of the configuration is below 2^64 - 1.
///
/// # Examples
///
/// ```
/// // The client's CSM, and a GET of the root.
/// let mut input = ReadSource::new(b"\x00\xe1\x01\x01\x2a".as_slice());
/// let mut bytes = Vec::new(rt.alloc());
/// let mut output = WriteOutlet::new(&mut bytes);
/// let config = Config::builder().build()?;
/// let report = serve_one(rt.alloc(), &mut input, &mut output, &config)?;
/// assert!(&rt; report.read == 5 && report.messages == 2);
/// assert!(&rt; bytes.ends_with(b"coap+tcp"));
/// ```
pub fn serve_one<R: Source, W: Outlet>(
    alloc: Global,
    reader: &mut R,
    writer: &mut W,
    config: &Config,
) -> Result<Report, IoFault>
    requires reader_works { R.is_failed reader.old ≡ false }
    requires writer_works { W.is_failed writer.old ≡ false }
    requires id_left { config.now.starts.ids + 1 < 2 ^ 64 }
    // The bytes read and written match the definition of a run, however the input is split, as far as the devices
    // record them. No read returns more than 4,096 bytes.
    ensures run { (pieces : List (List ℕ)) × (output : List ℕ)
        × HasGiven (R.trace reader.old) (R.trace reader.new) pieces
        × AllByRecursion (λ p. length p ≤ 4096) pieces
        × AddsBytes (W.written writer.old) (W.written writer.new) output
        × IsStdioRun config.now pieces output result }
    // The result is `Read` if and only if the reader has failed, and `Write` if and only if the writer has failed.
    ensures read { R.is_failed reader.new ≡ is_read_fault result }
    ensures write { W.is_failed writer.new ≡ is_write_fault result }
{
    serve_one_with(alloc, reader, writer, config, &mut NoMonitor)
}

/// Serves one connection over an input and an output, as `serve_one` does. The monitor receives each call that the
/// server accepts, in order.
///
/// The first call opens the connection. Each `take` is a call, also one for which allocation fails: the bytes before
/// the last one of its message are accepted. Each successful write of all queued bytes is a call, and before each
/// `take` no byte is queued. If the end of input ends the run, that is the last call. The monitor also receives the end
/// of a turn before the first read, and after the bytes of each read were processed.
///
/// # Errors
///
/// Those of `serve_one`. A write that fails is not reported to the monitor.
///
/// # Preconditions
///
/// Those of `serve_one`.
pub fn serve_one_with<R: Source, W: Outlet, M: Monitor<()>>(
    alloc: Global,
    reader: &mut R,
    writer: &mut W,
    config: &Config,
    monitor: &mut M,
) -> Result<Report, IoFault>
    requires reader_works { R.is_failed reader.old ≡ false }
    requires writer_works { W.is_failed writer.old ≡ false }
    requires id_left { config.now.starts.ids + 1 < 2 ^ 64 }
    // The bytes read and written match the definition of a run, however the input is split, as far as the devices
    // record them. No read returns more than 4,096 bytes.
    ensures run { (pieces : List (List ℕ)) × (output : List ℕ)
        × HasGiven (R.trace reader.old) (R.trace reader.new) pieces
        × AllByRecursion (λ p. length p ≤ 4096) pieces
        × AddsBytes (W.written writer.old) (W.written writer.new) output
        × IsStdioRun config.now pieces output result }
    // The monitor received exactly the calls of such a run: those that its server shows.
    ensures reported { (pieces : List (List ℕ)) × (output : List ℕ)
        × HasGiven (R.trace reader.old) (R.trace reader.new) pieces
        × AllByRecursion (λ p. length p ≤ 4096) pieces
        × AddsBytes (W.written writer.old) (W.written writer.new) output
        × IsStdioRun config.now pieces output result
        × IsReportedRun config.now pieces output (FollowsMore (M.follows monitor.old) (M.follows monitor.new)) result }
    // After a whole run, the monitor has passed on what it received.
    ensures passed { OnOk result (M.has_passed monitor.new) }
    // The result is `Read` if and only if the reader has failed, and `Write` if and only if the writer has failed.
    ensures read { R.is_failed reader.new ≡ is_read_fault result }
    ensures write { W.is_failed writer.new ≡ is_write_fault result }
{
    let Ok(mut server) = Server::new(alloc, *config) else {
        return Err(IoFault::Memory);
    };
    let Ok(id) = server.open() else {
        return Err(IoFault::Memory);
    };
    monitor.opened(id, &(), &server);
    let Ok(()) = greet(writer, &mut server, id, monitor) else {
        return Err(IoFault::Write);
    };
    run(reader, writer, &mut server, id, config, monitor)
}

/// Runs turns until the run ends, at most as many as the configuration allows.
fn run<R: Source, W: Outlet, M: Monitor<()>>(
    reader: &mut R,
    writer: &mut W,
    server: &mut Server,
    id: ConnId,
    config: &Config,
    monitor: &mut M,
) -> Result<Report, IoFault>
    requires reader_works { R.is_failed reader.old ≡ false }
    requires writer_works { W.is_failed writer.old ≡ false }
    requires is_at { (first : M)
        × IsRunningAt config.now server.old id [] (FollowsMore (M.follows first) (M.follows monitor.old)) }
    ensures run { (first : M) →
        IsRunningAt config.now server.old id [] (FollowsMore (M.follows first) (M.follows monitor.old)) →
        (pieces : List (List ℕ)) × (output : List ℕ)
        × HasGiven (R.trace reader.old) (R.trace reader.new) pieces
        × AllByRecursion (λ p. length p ≤ 4096) pieces
        × AddsBytes (W.written writer.old) (W.written writer.new) output
        × IsStdioRun config.now pieces (stdio_output config.now [] ++ output) result
        × IsReportedRun config.now pieces (stdio_output config.now [] ++ output)
        (FollowsMore (M.follows first) (M.follows monitor.new)) result }
    ensures passed { OnOk result (M.has_passed monitor.new) }
    ensures read { R.is_failed reader.new ≡ is_read_fault result }
    ensures write { W.is_failed writer.new ≡ is_write_fault result }
{
    let mut buffer = [0; PIECE];
    let mut read = 0;
    let mut messages = 0;
    for _ in 0..config.turns() {
        let turn = take_turn(reader, writer, server, id, &mut buffer, monitor)?;
        monitor.turn_ended();
        read += turn.read as u64;
        messages += turn.messages;
        if let Some(reason) = turn.stop {
            return Ok(Report {
                read,
                messages,
                reason,
            });
        }
    }
    Err(IoFault::Turns)
}

/// Reads once, processes the bytes, and returns the result of this turn.
fn take_turn<R: Source, W: Outlet, M: Monitor<()>>(
    reader: &mut R,
    writer: &mut W,
    server: &mut Server,
    id: ConnId,
    buffer: &mut [u8],
    monitor: &mut M,
) -> Result<Turn, IoFault>
    requires reader_works { R.is_failed reader.old ≡ false }
    requires writer_works { W.is_failed writer.old ≡ false }
    requires is_at { (first : M) × (c : ConfigValues) × (bytes : List ℕ)
        × IsRunningAt c server.old id bytes (FollowsMore (M.follows first) (M.follows monitor.old)) }
    requires room { length buffer.old ≡ 4096 }
    ensures turn { (first : M) (c : ConfigValues) (bytes : List ℕ) →
        IsRunningAt c server.old id bytes (FollowsMore (M.follows first) (M.follows monitor.old))
        → IsTurn c bytes server.new
        (HasGiven (R.trace reader.old) (R.trace reader.new))
        (AddsBytes (W.written writer.old) (W.written writer.new))
        (FollowsMore (M.follows first) (M.follows monitor.new)) result }
    ensures few { IfOk result (λ t. t.read ≤ 4096) }
    ensures few_messages { IfOk result (λ t. t.messages ≤ t.read) }
    ensures read { R.is_failed reader.new ≡ is_read_fault result }
    ensures write { W.is_failed writer.new ≡ is_write_fault result }
{
    let Some(count) = reader.read(buffer) else {
        return Err(IoFault::Read);
    };
    if count == 0 {
        return Ok(Turn {
            read: 0,
            messages: 0,
            stop: end(server, id, monitor),
        });
    }
    let messages = serve_piece(writer, server, id, &buffer[..count], monitor)?;
    Ok(Turn {
        read: count,
        messages,
        stop: stop_in(server, id),
    })
}

/// Processes the messages of an input chunk, and writes the output of each before the next one. Returns the number of
/// messages processed. If a message or malformed input stops the connection, the bytes after it are not processed.
///
/// # Errors
///
/// - `Write`: a write failed.
/// - `Memory`: an allocation failed for a representation that a message stores.
fn serve_piece<W: Outlet, M: Monitor<()>>(
    writer: &mut W,
    server: &mut Server,
    id: ConnId,
    piece: &[u8],
    monitor: &mut M,
) -> Result<u64, IoFault>
    requires works { W.is_failed writer.old ≡ false }
    requires is_at { (first : M) × (c : ConfigValues) × (bytes : List ℕ)
        × IsRunningAt c server.old id bytes (FollowsMore (M.follows first) (M.follows monitor.old)) }
    ensures served { (first : M) (c : ConfigValues) (bytes : List ℕ) →
        IsRunningAt c server.old id bytes (FollowsMore (M.follows first) (M.follows monitor.old)) →
        IsServed c bytes piece.now server.new (AddsBytes (W.written writer.old) (W.written writer.new))
        (FollowsMore (M.follows first) (M.follows monitor.new)) result }
    ensures few { IfOk result (λ messages. messages ≤ length piece.now) }
    ensures failure { W.is_failed writer.new ≡ is_write_fault result }
{
    let Some(at) = server.index_of(id) else {
        unreachable!()
    };
    let mut messages = 0;
    let mut rest = piece;
    while !rest.is_empty() {
        let taken = match server.take_at(ConnIndex { id, at }, rest) {
            Ok(taken) => taken,
            Err(TakeFault::NoSuch) => unreachable!(),
            Err(TakeFault::Memory { bytes }) => {
                let took = Call::Took {
                    id,
                    bytes: &rest[..bytes],
                    handled: Handled::Nothing,
                };
                monitor.accepted(took, server);
                return Err(IoFault::Memory);
            }
        };
        let took = Call::Took {
            id,
            bytes: &rest[..taken.bytes],
            handled: taken.handled,
        };
        monitor.accepted(took, server);
        let Ok(stop) = flush_at(writer, server, at, id, monitor) else {
            return Err(IoFault::Write);
        };
        messages += handled(taken.handled);
        if stop.is_some() {
            return Ok(messages);
        }
        rest = &rest[taken.bytes..];
    }
    Ok(messages)
}

/// Returns the number of messages that a call of `Server::take` processed: 0 or 1. The reasons `Format`, `TooLarge` and
/// `TokenLength` are those of malformed input, which is no message.
fn handled(what: Handled) -> u64
    ensures { result ≡ count_of what }
{
    match what {
        Handled::Nothing => 0,
        Handled::Message => 1,
        Handled::Stopped(Reason::Format | Reason::TooLarge | Reason::TokenLength) => 0,
        Handled::Stopped(_) => 1,
    }
}

/// Reports the end of input to a connection, and returns the reason why it processes no further message.
fn end<M: Monitor<()>>(server: &mut Server, id: ConnId, monitor: &mut M) -> Option<Reason>
    requires is_at { (first : M) × (c : ConfigValues) × (bytes : List ℕ)
        × IsRunningAt c server.old id bytes (FollowsMore (M.follows first) (M.follows monitor.old)) }
    ensures reason { (first : M) (c : ConfigValues) (bytes : List ℕ) →
        IsRunningAt c server.old id bytes (FollowsMore (M.follows first) (M.follows monitor.old)) →
        result ≡ Some (end_reason (is_cut (stream_of c bytes).rest)) }
    ensures reported { (first : M) (c : ConfigValues) (bytes : List ℕ) →
        IsRunningAt c server.old id bytes (FollowsMore (M.follows first) (M.follows monitor.old)) →
        HasReportedEnd c (FollowsMore (M.follows first) (M.follows monitor.new)) bytes (length (stdio_output c bytes)) }
{
    let Ok(()) = server.ended(id) else {
        unreachable!()
    };
    monitor.accepted(Call::Ended(id), server);
    stop_in(server, id)
}
