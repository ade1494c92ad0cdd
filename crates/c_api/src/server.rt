//! The calls of a server, for C. Each takes the server out of the handle, makes one call and puts the server back.

ghost use Rattle.std.specs.Prelude.{◌≡◌, ◌≢◌, ◌≤◌, None, Some, length, option_copied};
ghost use Rattle.c_api.specs.Loans.{IsInPiece, LendsFrame};
ghost use Rattle.c_api.specs.ServerCalls.{IsMade, IsOpened, IsTaken, IsTookBytes, IsResponded, IsWritten, IsTicked};
ghost use Rattle.c_api.specs.ServerCalls.{IsEnded, IsReleased, IsDropped, IsAnnouncedTo, HasParts, HasStatus};
ghost use Rattle.c_api.specs.ServerCalls.{IsQuietTake, IsTakenOn, ShowsStatus};
ghost use Rattle.coap_server_engine.specs.Prelude.{AddsAffected, AreSettled, LiesAt, server_taken};
ghost use Rattle.coap_server_polled.specs.Reports.{KeepsReported};

use crate::numbers::{
    BACKWARDS, EMPTY, MEMORY, NO_SUCH, OCCUPIED, SUCCESS, announce_number, handled_numbers,
    open_number, phase_numbers, release_number, reply_number, response_number, written_number,
};
use crate::server_handle::ServerHandle;
use crate::settings::{Settings, configured};
use c_handle::{Parts, Span, span_of, span_within};
use coap_model::{Status, TakeFault};
use coap_server_engine::{ConnIndex, IndexSet, Server};
use coap_server_polled::PolledServer;
use std::alloc::Global;

/// Result of a `take`.
#[repr(C)]
#[derive(Drop)]
pub struct Took {
    /// Number of bytes accepted.
    pub bytes: usize,
    /// 0 if no message was handled, 1 for a message, 2 if the connection accepts no more messages.
    pub handled: u32,
    /// Number of the reason of a stop, 1 to 13, or 0.
    pub reason: u32,
    /// 1 if an allocation failed for the representation that the message stores, otherwise 0. The bytes before its last
    /// one were accepted all the same.
    pub memory: u32,
    /// Request that the application answers, or no bytes.
    pub request: Span,
    /// Request that stored or deleted a resource, or no bytes.
    pub changed: Span,
}

/// Status of a connection.
#[repr(C)]
#[derive(Clone, Copy)]
pub struct ConnectionStatus {
    /// 0 before the CSM of the peer, 1 open, 2 released by the peer, 3 stopped.
    pub phase: u32,
    /// Number of the reason of a release or a stop, 1 to 13, or 0.
    pub reason: u32,
    /// Number of bytes kept of an unfinished message.
    pub kept: usize,
    /// Number of bytes queued for writing.
    pub waiting: usize,
    /// Number of pending responses and Pongs.
    pub pending: usize,
    /// Number of observers.
    pub observers: usize,
    /// Largest message that the peer accepts, in bytes.
    pub peer_max: u32,
    /// 1 if nothing more will be written, otherwise 0.
    pub finished: u32,
}

/// Makes a server, if the handle is empty.
#[unsafe(no_mangle)]
#[tactic(auto, using(crate::proofs::ServerLemmas::keeps))]
pub extern "C" fn dachreup_server_new(
    alloc: Global,
    handle: &mut ServerHandle,
    settings: &Settings,
) -> u32
    ensures call { IsMade settings.now handle.old.value handle.new.value result }
    ensures output { KeepsReported handle.old.value handle.new.value }
{
    if let Some(server) = handle.take_server(alloc) {
        handle.put_back(server);
        return OCCUPIED;
    }
    let config = match configured(settings) {
        Ok(config) => config,
        Err(number) => return number,
    };
    let Ok(server) = Server::new(alloc, config) else {
        return MEMORY;
    };
    let Ok(boxed) = Box::new(alloc, PolledServer::new(server)) else {
        return MEMORY;
    };
    handle.put_back(boxed);
    SUCCESS
}

/// Opens a connection, and gives its id.
#[unsafe(no_mangle)]
#[tactic(auto, using(crate::proofs::ServerLemmas::keeps_empty))]
pub extern "C" fn dachreup_server_open(
    alloc: Global,
    handle: &mut ServerHandle,
    id: &mut u64,
) -> u32
    ensures call { IsOpened id.old id.new handle.old.value handle.new.value result }
    ensures output { KeepsReported handle.old.value handle.new.value }
{
    let Some(mut server) = handle.take_server(alloc) else {
        return EMPTY;
    };
    let opened = server.open();
    handle.put_back(server);
    match opened {
        Ok(new) => {
            *id = new;
            SUCCESS
        }
        Err(fault) => open_number(fault),
    }
}

/// Accepts the first bytes of those that a connection received.
#[unsafe(no_mangle)]
#[tactic(auto, using(crate::proofs::LoanLemmas::frames_lie, crate::proofs::ServerLemmas::keeps))]
pub extern "C" fn dachreup_raw_server_take(
    alloc: Global,
    handle: &mut ServerHandle,
    id: u64,
    piece: &[u8],
    took: &mut Took,
) -> u32
    ensures call { IsTaken id piece.entry took.new handle.old.value handle.new.value result }
    ensures output { KeepsReported handle.old.value handle.new.value }
{
    let Some(mut server) = handle.take_server(alloc) else {
        *took = took_bytes(0, 0);
        return EMPTY;
    };
    let Some(at) = server.engine.index_of(id) else {
        handle.put_back(server);
        *took = took_bytes(0, 0);
        return NO_SUCH;
    };
    take_at(&mut server, ConnIndex { id, at }, piece, took);
    handle.put_back(server);
    SUCCESS
}

/// Accepts the first bytes of those that the connection at an index received. The connection is due, and so are those
/// that the message concerns, unless the take handled nothing.
fn take_at(server: &mut PolledServer, index: ConnIndex, piece: &[u8], took: &mut Took)
    requires lies { LiesAt index.id index.at server.old.engine.sessions }
    requires settled { AreSettled server.old.engine.shared server.old.engine.sessions }
    ensures taken { IsTakenOn index.id piece.entry took.new server.old.engine server.new.engine }
    ensures quiet { IsQuietTake took.new server.old server.new }
    ensures output { KeepsReported (Some server.old) (Some server.new) }
{
    let before = server.due;
    // Gives the proof that the index is below 256.
    server.engine.connection_count();
    take_into(&mut server.engine, index, piece, took, &mut server.due);
    if took.handled == 0 {
        server.due = before;
        return;
    }
    server.wake_at(index.at);
}

/// Accepts the first bytes of those that the connection at an index received. The other connections that the message
/// concerns are added to `affected`.
#[tactic(auto, using(crate::proofs::LoanLemmas::handed_lies, crate::proofs::LoanLemmas::changing_lies))]
fn take_into(
    server: &mut Server,
    index: ConnIndex,
    piece: &[u8],
    took: &mut Took,
    affected: &mut IndexSet,
)
    requires { LiesAt index.id index.at server.old.sessions }
    ensures taken { IsTakenOn index.id piece.entry took.new server.old server.new }
    ensures affected { took.new.handled ≢ 0 → AddsAffected index.id affected.old.words affected.new.words server.old
        (server_taken server.old index.id piece.now) }
{
    match server.take_request_at(index, piece, affected) {
        Ok(taken) => {
            let (handled, reason) = handled_numbers(taken.taken.handled);
            let count = taken.taken.bytes;
            *took = Took {
                bytes: count,
                handled,
                reason,
                memory: 0,
                request: frame_span(piece, count, taken.frame),
                changed: frame_span(piece, count, taken.changed),
            };
        }
        Err(TakeFault::NoSuch) => unreachable!(),
        Err(TakeFault::Memory { bytes }) => *took = took_bytes(bytes, 1),
    }
}

/// Returns the place of a frame that the first `bytes` bytes of `piece` end, or of no bytes if there is none. A frame
/// that has no other bytes is in the piece.
#[tactic(auto, unfolding(crate::specs::Loans::IsInPiece))]
fn frame_span(piece: &[u8], bytes: usize, frame: Option<&[u8]>) -> Span
    requires within { bytes ≤ length piece.now }
    requires lies { IsInPiece piece.now bytes (option_copied frame) }
    ensures { LendsFrame piece.entry bytes result (option_copied frame.entry) }
{
    match frame {
        None => span_of(&[]),
        Some(frame) => {
            if frame.len() == bytes {
                span_within(piece, 0, bytes)
            } else {
                span_of(frame)
            }
        }
    }
}

/// Returns the result of a `take` that accepted bytes and handled nothing. `memory` is 1 if an allocation failed.
fn took_bytes(bytes: usize, memory: u32) -> Took
    ensures { IsTookBytes bytes memory result }
{
    Took {
        bytes,
        handled: 0,
        reason: 0,
        memory,
        request: span_of(&[]),
        changed: span_of(&[]),
    }
}

/// Queues a response of the application, and gives what was queued.
#[unsafe(no_mangle)]
#[tactic(auto, using(crate::proofs::ServerLemmas::keeps_empty))]
pub extern "C" fn dachreup_raw_server_respond(
    alloc: Global,
    handle: &mut ServerHandle,
    id: u64,
    response: &[u8],
    reply: &mut u32,
) -> u32
    ensures call { IsResponded id response.now reply.old reply.new handle.old.value handle.new.value result }
    ensures output { KeepsReported handle.old.value handle.new.value }
{
    let Some(mut server) = handle.take_server(alloc) else {
        return EMPTY;
    };
    let answer = server.respond(id, response);
    handle.put_back(server);
    match answer {
        Ok(queued) => {
            *reply = reply_number(queued);
            SUCCESS
        }
        Err(fault) => response_number(fault),
    }
}

/// Lends the queued bytes of a connection in the two parts that they occupy, until the next call on the handle.
#[unsafe(no_mangle)]
pub extern "C" fn dachreup_server_parts(
    alloc: Global,
    handle: &mut ServerHandle,
    id: u64,
    parts: &mut Parts,
) -> u32
    ensures { HasParts id handle.old.value handle.new.value parts.old parts.new result }
{
    let Some(server) = handle.take_server(alloc) else {
        return EMPTY;
    };
    let answer = match server.engine.parts(id) {
        None => NO_SUCH,
        Some((first, second)) => {
            *parts = Parts {
                first: span_of(first),
                second: span_of(second),
            };
            SUCCESS
        }
    };
    handle.put_back(server);
    answer
}

/// Removes the first bytes of the queue of a connection, after the program has written them.
#[unsafe(no_mangle)]
#[tactic(auto, using(crate::proofs::ServerLemmas::keeps_empty))]
pub extern "C" fn dachreup_server_written(
    alloc: Global,
    handle: &mut ServerHandle,
    id: u64,
    count: usize,
) -> u32
    ensures call { IsWritten id count handle.old.value handle.new.value result }
    ensures none { count ≡ 0 → handle.new.value ≡ handle.old.value }
    ensures output { KeepsReported handle.old.value handle.new.value }
{
    let Some(mut server) = handle.take_server(alloc) else {
        return EMPTY;
    };
    let answer = server.written(id, count);
    handle.put_back(server);
    match answer {
        Ok(()) => SUCCESS,
        Err(fault) => written_number(fault),
    }
}

/// Sets the time, in seconds.
#[unsafe(no_mangle)]
#[tactic(auto, using(crate::proofs::ServerLemmas::keeps_empty))]
pub extern "C" fn dachreup_server_tick(alloc: Global, handle: &mut ServerHandle, now: u64) -> u32
    ensures call { IsTicked now handle.old.value handle.new.value result }
    ensures output { KeepsReported handle.old.value handle.new.value }
{
    let Some(mut server) = handle.take_server(alloc) else {
        return EMPTY;
    };
    let answer = server.tick(now);
    handle.put_back(server);
    if answer.is_ok() { SUCCESS } else { BACKWARDS }
}

/// Records the end of the input of a connection.
#[unsafe(no_mangle)]
#[tactic(auto, using(crate::proofs::ServerLemmas::keeps_empty))]
pub extern "C" fn dachreup_server_ended(alloc: Global, handle: &mut ServerHandle, id: u64) -> u32
    ensures call { IsEnded id handle.old.value handle.new.value result }
    ensures output { KeepsReported handle.old.value handle.new.value }
{
    let Some(mut server) = handle.take_server(alloc) else {
        return EMPTY;
    };
    let answer = server.ended(id);
    handle.put_back(server);
    if answer.is_ok() { SUCCESS } else { NO_SUCH }
}

/// Queues a Release on a connection.
#[unsafe(no_mangle)]
#[tactic(auto, using(crate::proofs::ServerLemmas::keeps_empty))]
pub extern "C" fn dachreup_server_release(alloc: Global, handle: &mut ServerHandle, id: u64) -> u32
    ensures call { IsReleased id handle.old.value handle.new.value result }
    ensures output { KeepsReported handle.old.value handle.new.value }
{
    let Some(mut server) = handle.take_server(alloc) else {
        return EMPTY;
    };
    let answer = server.release(id);
    handle.put_back(server);
    match answer {
        Ok(()) => SUCCESS,
        Err(fault) => release_number(fault),
    }
}

/// Removes a connection.
#[unsafe(no_mangle)]
#[tactic(auto, using(crate::proofs::ServerLemmas::keeps_empty))]
pub extern "C" fn dachreup_server_drop(alloc: Global, handle: &mut ServerHandle, id: u64) -> u32
    ensures call { IsDropped id handle.old.value handle.new.value result }
    ensures output { KeepsReported handle.old.value handle.new.value }
{
    let Some(mut server) = handle.take_server(alloc) else {
        return EMPTY;
    };
    let answer = server.drop_conn(id);
    handle.put_back(server);
    if answer.is_ok() { SUCCESS } else { NO_SUCH }
}

/// Announces a size as the largest message accepted on a connection.
#[unsafe(no_mangle)]
#[tactic(auto, using(crate::proofs::ServerLemmas::keeps_empty))]
pub extern "C" fn dachreup_server_announce(
    alloc: Global,
    handle: &mut ServerHandle,
    id: u64,
    size: u32,
) -> u32
    ensures call { IsAnnouncedTo id size handle.old.value handle.new.value result }
    ensures output { KeepsReported handle.old.value handle.new.value }
{
    let Some(mut server) = handle.take_server(alloc) else {
        return EMPTY;
    };
    let answer = server.announce(id, size);
    handle.put_back(server);
    match answer {
        Ok(()) => SUCCESS,
        Err(fault) => announce_number(fault),
    }
}

/// Gives the status of a connection.
#[unsafe(no_mangle)]
pub extern "C" fn dachreup_server_status(
    alloc: Global,
    handle: &mut ServerHandle,
    id: u64,
    status: &mut ConnectionStatus,
) -> u32
    ensures { HasStatus id status.old status.new handle.old.value handle.new.value result }
{
    let Some(server) = handle.take_server(alloc) else {
        return EMPTY;
    };
    let found = server.engine.status(id);
    handle.put_back(server);
    match found {
        None => NO_SUCH,
        Some(found) => {
            *status = status_of(&found);
            SUCCESS
        }
    }
}

/// Frees the server, if there is one, and leaves the handle empty.
#[unsafe(no_mangle)]
pub extern "C" fn dachreup_server_free(alloc: Global, handle: &mut ServerHandle)
    ensures { handle.new.value ≡ None }
{
    if let Some(server) = handle.take_server(alloc) {
        drop(server);
    }
}

/// Returns a status for C.
fn status_of(status: &Status) -> ConnectionStatus
    ensures { ShowsStatus result status.now }
{
    let (phase, reason) = phase_numbers(status.phase);
    ConnectionStatus {
        phase,
        reason,
        kept: status.kept,
        waiting: status.waiting,
        pending: status.pending,
        observers: status.observers,
        peer_max: status.peer_max,
        finished: u32::from(status.finished),
    }
}
