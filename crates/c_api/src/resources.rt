//! The calls of a server on its resources, for C.

ghost use Rattle.c_api.specs.PathTexts.{text_path, listed_path, format_named};
ghost use Rattle.c_api.specs.ServerCalls.{IsPut, IsRemoved, HasState};
ghost use Rattle.coap_server_polled.specs.Reports.{KeepsReported};

use crate::numbers::{EMPTY, NO_SUCH, NOT_A_PATH, SUCCESS, store_number};
use crate::paths::{format_of, number_of_format, path_at, path_in};
use crate::server_handle::ServerHandle;
use c_handle::{Span, span_of};
use coap_path::PathKey;
use coap_store::State;
use std::alloc::Global;

/// State of a resource.
#[repr(C)]
#[derive(Drop)]
pub struct ResourceState {
    /// Bytes of the representation.
    pub bytes: Span,
    /// Version of the representation.
    pub version: u64,
    /// Content-Format, or 65,536 for none.
    pub format: u32,
}

/// Stores a representation at the path that the program named, if it named one, and gives its version.
#[tactic(auto, using(crate::proofs::ServerLemmas::keeps))]
fn put_named(
    alloc: Global,
    handle: &mut ServerHandle,
    path: Option<PathKey>,
    format: u32,
    bytes: &[u8],
    version: &mut u64,
) -> u32
    ensures call { IsPut path (format_named format) bytes.now version.old version.new handle.old.value handle.new.value
        result }
    ensures output { KeepsReported handle.old.value handle.new.value }
{
    let Some(mut server) = handle.take_server(alloc) else {
        return EMPTY;
    };
    let Some(key) = path else {
        handle.put_back(server);
        return NOT_A_PATH;
    };
    let stored = server.put(&key, format_of(format), bytes);
    handle.put_back(server);
    match stored {
        Ok(new) => {
            *version = new;
            SUCCESS
        }
        Err(fault) => store_number(fault),
    }
}

/// Lends the representation stored at the path that the program named, if it named one, until the next call on the
/// handle.
fn state_named(
    alloc: Global,
    handle: &mut ServerHandle,
    path: Option<PathKey>,
    state: &mut ResourceState,
) -> u32
    ensures { HasState path state.old state.new handle.old.value handle.new.value result }
{
    let Some(server) = handle.take_server(alloc) else {
        return EMPTY;
    };
    let Some(key) = path else {
        handle.put_back(server);
        return NOT_A_PATH;
    };
    if !key.kind().is_dynamic() {
        handle.put_back(server);
        return NO_SUCH;
    }
    let answer = match server.engine.state(&key) {
        State::Absent => NO_SUCH,
        State::Present(present) => {
            *state = ResourceState {
                bytes: span_of(present.bytes()),
                version: present.version(),
                format: number_of_format(present.format()),
            };
            SUCCESS
        }
    };
    handle.put_back(server);
    answer
}

/// Removes the resource at the path that the program named, if it named one.
#[tactic(auto, using(crate::proofs::ServerLemmas::keeps))]
fn remove_named(alloc: Global, handle: &mut ServerHandle, path: Option<PathKey>) -> u32
    ensures call { IsRemoved path handle.old.value handle.new.value result }
    ensures output { KeepsReported handle.old.value handle.new.value }
{
    let Some(mut server) = handle.take_server(alloc) else {
        return EMPTY;
    };
    let Some(key) = path else {
        handle.put_back(server);
        return NOT_A_PATH;
    };
    let answer = server.remove(&key);
    handle.put_back(server);
    match answer {
        Ok(()) => SUCCESS,
        Err(fault) => store_number(fault),
    }
}

/// Stores a representation at the path that a text names, and gives its version.
#[unsafe(no_mangle)]
pub extern "C" fn dachreup_raw_server_put(
    alloc: Global,
    handle: &mut ServerHandle,
    path: &[u8],
    format: u32,
    bytes: &[u8],
    version: &mut u64,
) -> u32
    ensures call { IsPut (text_path path.now) (format_named format) bytes.now version.old version.new handle.old.value
        handle.new.value result }
    ensures output { KeepsReported handle.old.value handle.new.value }
{
    put_named(alloc, handle, path_in(path), format, bytes, version)
}

/// Stores a representation at the path that a list of segments names, and gives its version.
#[unsafe(no_mangle)]
pub extern "C" fn dachreup_raw_server_put_at(
    alloc: Global,
    handle: &mut ServerHandle,
    segments: &[u8],
    format: u32,
    bytes: &[u8],
    version: &mut u64,
) -> u32
    ensures call { IsPut (listed_path segments.now) (format_named format) bytes.now version.old version.new
        handle.old.value handle.new.value result }
    ensures output { KeepsReported handle.old.value handle.new.value }
{
    put_named(alloc, handle, path_at(segments), format, bytes, version)
}

/// Lends the representation stored at the path that a text names, until the next call on the handle.
#[unsafe(no_mangle)]
pub extern "C" fn dachreup_raw_server_state(
    alloc: Global,
    handle: &mut ServerHandle,
    path: &[u8],
    state: &mut ResourceState,
) -> u32
    ensures { HasState (text_path path.now) state.old state.new handle.old.value handle.new.value result }
{
    state_named(alloc, handle, path_in(path), state)
}

/// Lends the representation stored at the path that a list of segments names, until the next call on the handle.
#[unsafe(no_mangle)]
pub extern "C" fn dachreup_raw_server_state_at(
    alloc: Global,
    handle: &mut ServerHandle,
    segments: &[u8],
    state: &mut ResourceState,
) -> u32
    ensures { HasState (listed_path segments.now) state.old state.new handle.old.value handle.new.value result }
{
    state_named(alloc, handle, path_at(segments), state)
}

/// Removes the resource at the path that a text names.
#[unsafe(no_mangle)]
pub extern "C" fn dachreup_raw_server_remove(
    alloc: Global,
    handle: &mut ServerHandle,
    path: &[u8],
) -> u32
    ensures call { IsRemoved (text_path path.now) handle.old.value handle.new.value result }
    ensures output { KeepsReported handle.old.value handle.new.value }
{
    remove_named(alloc, handle, path_in(path))
}

/// Removes the resource at the path that a list of segments names.
#[unsafe(no_mangle)]
pub extern "C" fn dachreup_raw_server_remove_at(
    alloc: Global,
    handle: &mut ServerHandle,
    segments: &[u8],
) -> u32
    ensures call { IsRemoved (listed_path segments.now) handle.old.value handle.new.value result }
    ensures output { KeepsReported handle.old.value handle.new.value }
{
    remove_named(alloc, handle, path_at(segments))
}
