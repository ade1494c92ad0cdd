//! The calls of a client, for C. Each takes the client out of the handle, makes one call and puts the client back.

ghost use Rattle.std.specs.Prelude.{◌≡◌, None};
ghost use Rattle.c_api.specs.ClientCalls.{IsMade, IsSent, GivesSent, IsCancelled, GivesCancelled, IsPinged, IsTaken};
ghost use Rattle.c_api.specs.ClientCalls.{HasQueuedParts, IsWritten, IsEnded, IsReleased, IsForgotten, HasStatus};
ghost use Rattle.c_api.specs.ClientCalls.{IsAnnounced};
ghost use Rattle.coap_wire.specs.Uint.{bytes_of_uint};

use crate::client_handle::ClientHandle;
use crate::events::{ClientEvent, event_of, plain_event, token_number};
use crate::numbers::{
    EMPTY, MEMORY, NO_SUCH_TOKEN, NOT_A_CHOICE, OCCUPIED, SUCCESS, TOO_MANY,
    client_announce_number, limit_number, phase_numbers, request_number, send_number,
};
use crate::requests::{Request, call_of, flag_of, target_of};
use crate::settings::{ClientLimits, client_limits};
use c_handle::{Parts, span_of};
use coap_client_engine::Client;
use coap_wire::{Token, uint_bytes};
use std::alloc::Global;

/// Status of a client.
#[repr(C)]
#[derive(Clone, Copy)]
pub struct ClientStatus {
    /// 0 before the CSM of the peer, 1 open, 2 released by the peer, 3 stopped.
    pub phase: u32,
    /// Number of the reason of a release or a stop, 1 to 13, or 0.
    pub reason: u32,
    /// Number of bytes queued for writing.
    pub waiting: usize,
    /// Number of outstanding requests, observations and Pings.
    pub outstanding: usize,
    /// Largest message that the peer accepts, in bytes.
    pub peer_max: u32,
}

/// Makes a client, if the handle is empty.
#[unsafe(no_mangle)]
pub extern "C" fn dachreup_client_new(
    alloc: Global,
    handle: &mut ClientHandle,
    limits: &ClientLimits,
    tokens: u64,
) -> u32
    ensures { IsMade limits.now tokens handle.old.value handle.new.value result }
{
    if let Some(client) = handle.take_client(alloc) {
        handle.put_back(client);
        return OCCUPIED;
    }
    let limits = match client_limits(limits) {
        Ok(limits) => limits,
        Err(fault) => return limit_number(fault),
    };
    let Ok(client) = Client::open(alloc, limits, tokens) else {
        return MEMORY;
    };
    let Ok(boxed) = Box::new(alloc, client) else {
        return MEMORY;
    };
    handle.put_back(boxed);
    SUCCESS
}

/// Queues a request, and gives its token.
#[unsafe(no_mangle)]
pub extern "C" fn dachreup_raw_client_send(
    alloc: Global,
    handle: &mut ClientHandle,
    request: &Request,
    uri: &[u8],
    payload: &[u8],
    token: &mut u64,
) -> u32
    ensures { IsSent request.now uri.now payload.now token.old token.new handle.old.value handle.new.value result }
{
    let Some(mut client) = handle.take_client(alloc) else {
        return EMPTY;
    };
    let answer = send(alloc, &mut client, request, uri, payload);
    handle.put_back(client);
    match answer {
        Ok(number) => {
            *token = number;
            SUCCESS
        }
        Err(number) => number,
    }
}

/// Queues a request on a client, and returns its token.
///
/// # Errors
///
/// Returns the number of the error.
fn send(
    alloc: Global,
    client: &mut Client,
    request: &Request,
    uri: &[u8],
    payload: &[u8],
) -> Result<u64, u32>
    ensures { GivesSent request.now uri.now payload.now client.old client.new result }
{
    let Some((method, extras)) = call_of(request, payload) else {
        return Err(NOT_A_CHOICE);
    };
    let target = target_of(alloc, uri)?;
    match client.send(method, &target, &extras) {
        Ok(token) => Ok(token_number(&token)),
        Err(fault) => Err(request_number(fault)),
    }
}

/// Cancels an observation.
#[unsafe(no_mangle)]
pub extern "C" fn dachreup_raw_client_cancel(
    alloc: Global,
    handle: &mut ClientHandle,
    request: &Request,
    uri: &[u8],
    token: u64,
) -> u32
    ensures { IsCancelled request.now uri.now token handle.old.value handle.new.value result }
{
    let Some(mut client) = handle.take_client(alloc) else {
        return EMPTY;
    };
    let answer = cancel(alloc, &mut client, request, uri, token);
    handle.put_back(client);
    match answer {
        Ok(()) => SUCCESS,
        Err(number) => number,
    }
}

/// Cancels an observation on a client.
///
/// # Errors
///
/// Returns the number of the error.
fn cancel(
    alloc: Global,
    client: &mut Client,
    request: &Request,
    uri: &[u8],
    token: u64,
) -> Result<(), u32>
    ensures { GivesCancelled request.now uri.now token client.old client.new result }
{
    let Some((_, extras)) = call_of(request, &uri[..0]) else {
        return Err(NOT_A_CHOICE);
    };
    let target = target_of(alloc, uri)?;
    let token = token_with(token);
    match client.cancel(&token, &target, &extras) {
        Ok(()) => Ok(()),
        Err(fault) => Err(request_number(fault)),
    }
}

/// Returns the token with this number.
fn token_with(number: u64) -> Token
    ensures { result.items ≡ bytes_of_uint number }
{
    let Ok(token) = Token::try_from(uint_bytes(number).as_slice()) else {
        unreachable!()
    };
    token
}

/// Queues a Ping, and gives its token.
#[unsafe(no_mangle)]
pub extern "C" fn dachreup_raw_client_ping(
    alloc: Global,
    handle: &mut ClientHandle,
    custody: u32,
    token: &mut u64,
) -> u32
    ensures { IsPinged custody token.old token.new handle.old.value handle.new.value result }
{
    let Some(mut client) = handle.take_client(alloc) else {
        return EMPTY;
    };
    let Some(custody) = flag_of(custody) else {
        handle.put_back(client);
        return NOT_A_CHOICE;
    };
    let answer = client.ping(custody);
    handle.put_back(client);
    match answer {
        Ok(new) => {
            *token = token_number(&new);
            SUCCESS
        }
        Err(fault) => request_number(fault),
    }
}

/// Accepts the first bytes of those that the connection received.
#[unsafe(no_mangle)]
pub extern "C" fn dachreup_raw_client_take(
    alloc: Global,
    handle: &mut ClientHandle,
    piece: &[u8],
    event: &mut ClientEvent,
) -> u32
    ensures { IsTaken piece.now event.new handle.old.value handle.new.value result }
{
    let Some(mut client) = handle.take_client(alloc) else {
        *event = plain_event(0, 0);
        return EMPTY;
    };
    *event = event_of(&client.take(piece));
    handle.put_back(client);
    SUCCESS
}

/// Lends the queued bytes in the two parts that they occupy, until the next call on the handle.
#[unsafe(no_mangle)]
pub extern "C" fn dachreup_client_parts(
    alloc: Global,
    handle: &mut ClientHandle,
    parts: &mut Parts,
) -> u32
    ensures { HasQueuedParts handle.old.value handle.new.value parts.old parts.new result }
{
    let Some(client) = handle.take_client(alloc) else {
        return EMPTY;
    };
    let (first, second) = client.parts();
    *parts = Parts {
        first: span_of(first),
        second: span_of(second),
    };
    handle.put_back(client);
    SUCCESS
}

/// Removes the first bytes of the queue, after the program has written them.
#[unsafe(no_mangle)]
pub extern "C" fn dachreup_client_written(
    alloc: Global,
    handle: &mut ClientHandle,
    count: usize,
) -> u32
    ensures { IsWritten count handle.old.value handle.new.value result }
{
    let Some(mut client) = handle.take_client(alloc) else {
        return EMPTY;
    };
    if client.waiting() < count {
        handle.put_back(client);
        return TOO_MANY;
    }
    client.written(count);
    handle.put_back(client);
    SUCCESS
}

/// Records the end of the input.
#[unsafe(no_mangle)]
pub extern "C" fn dachreup_client_ended(alloc: Global, handle: &mut ClientHandle) -> u32
    ensures { IsEnded handle.old.value handle.new.value result }
{
    let Some(mut client) = handle.take_client(alloc) else {
        return EMPTY;
    };
    client.ended();
    handle.put_back(client);
    SUCCESS
}

/// Queues a Release, and stops the connection.
#[unsafe(no_mangle)]
pub extern "C" fn dachreup_client_release(alloc: Global, handle: &mut ClientHandle) -> u32
    ensures { IsReleased handle.old.value handle.new.value result }
{
    let Some(mut client) = handle.take_client(alloc) else {
        return EMPTY;
    };
    let answer = client.release();
    handle.put_back(client);
    match answer {
        Ok(()) => SUCCESS,
        Err(fault) => send_number(fault),
    }
}

/// Announces a size as the largest message accepted on the connection.
#[unsafe(no_mangle)]
pub extern "C" fn dachreup_client_announce(
    alloc: Global,
    handle: &mut ClientHandle,
    size: u32,
) -> u32
    ensures { IsAnnounced size handle.old.value handle.new.value result }
{
    let Some(mut client) = handle.take_client(alloc) else {
        return EMPTY;
    };
    let answer = client.announce(size);
    handle.put_back(client);
    match answer {
        Ok(()) => SUCCESS,
        Err(fault) => client_announce_number(fault),
    }
}

/// Ends an outstanding request, observation or Ping, and sends nothing.
#[unsafe(no_mangle)]
pub extern "C" fn dachreup_client_forget(
    alloc: Global,
    handle: &mut ClientHandle,
    token: u64,
) -> u32
    ensures { IsForgotten token handle.old.value handle.new.value result }
{
    let Some(mut client) = handle.take_client(alloc) else {
        return EMPTY;
    };
    let answer = client.forget(&token_with(token));
    handle.put_back(client);
    if answer.is_ok() {
        SUCCESS
    } else {
        NO_SUCH_TOKEN
    }
}

/// Gives the status of a client.
#[unsafe(no_mangle)]
pub extern "C" fn dachreup_client_status(
    alloc: Global,
    handle: &mut ClientHandle,
    status: &mut ClientStatus,
) -> u32
    ensures { HasStatus status.old status.new handle.old.value handle.new.value result }
{
    let Some(client) = handle.take_client(alloc) else {
        return EMPTY;
    };
    let (phase, reason) = phase_numbers(client.phase());
    *status = ClientStatus {
        phase,
        reason,
        waiting: client.waiting(),
        outstanding: client.outstanding(),
        peer_max: client.peer_max(),
    };
    handle.put_back(client);
    SUCCESS
}

/// Frees the client, if there is one, and leaves the handle empty.
#[unsafe(no_mangle)]
pub extern "C" fn dachreup_client_free(alloc: Global, handle: &mut ClientHandle)
    ensures { handle.new.value ≡ None }
{
    if let Some(client) = handle.take_client(alloc) {
        drop(client);
    }
}
