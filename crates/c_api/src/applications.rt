//! The calls on the entries of an application, for C, and that which makes a server of them.

ghost use Rattle.std.specs.Prelude.{◌≡◌, None};
ghost use Rattle.c_api.specs.ApplicationCalls.{IsAdded, IsCreated, IsMadeFor};
ghost use Rattle.coap_server_polled.specs.Reports.{KeepsReported};

use crate::applications_handle::ApplicationsHandle;
use crate::numbers::{BAD_DEADLINE, EMPTY, MEMORY, NOT_A_PATH, OCCUPIED, SUCCESS, entry_number};
use crate::paths::{methods_in, path_in};
use crate::server_handle::ServerHandle;
use crate::settings::{Settings, configured};
use coap_path::Applications;
use coap_server_engine::Server;
use coap_server_polled::PolledServer;
use std::alloc::Global;

/// Makes an empty list of entries, if the handle is empty.
#[unsafe(no_mangle)]
pub extern "C" fn dachreup_applications_new(
    alloc: Global,
    handle: &mut ApplicationsHandle,
    deadline: u32,
) -> u32
    ensures { IsCreated deadline handle.old.value handle.new.value result }
{
    if let Some(applications) = handle.take_applications(alloc) {
        handle.put_back(applications);
        return OCCUPIED;
    }
    if deadline == 0 {
        return BAD_DEADLINE;
    }
    let Ok(applications) = Applications::new(alloc, deadline) else {
        return MEMORY;
    };
    let Ok(boxed) = Box::new(alloc, applications) else {
        return MEMORY;
    };
    handle.put_back(boxed);
    SUCCESS
}

/// Adds an entry.
#[unsafe(no_mangle)]
pub extern "C" fn dachreup_raw_applications_add(
    alloc: Global,
    handle: &mut ApplicationsHandle,
    path: &[u8],
    methods: u32,
    attributes: &[u8],
) -> u32
    ensures { IsAdded path.now methods attributes.now handle.old.value handle.new.value result }
{
    let Some(mut applications) = handle.take_applications(alloc) else {
        return EMPTY;
    };
    let Some(key) = path_in(path) else {
        handle.put_back(applications);
        return NOT_A_PATH;
    };
    let Ok(methods) = methods_in(alloc, methods) else {
        handle.put_back(applications);
        return MEMORY;
    };
    let answer = applications.add(&key, &methods, attributes);
    handle.put_back(applications);
    match answer {
        Ok(()) => SUCCESS,
        Err(fault) => entry_number(fault),
    }
}

/// Frees the entries, if there are some, and leaves the handle empty.
#[unsafe(no_mangle)]
pub extern "C" fn dachreup_applications_free(alloc: Global, handle: &mut ApplicationsHandle)
    ensures { handle.new.value ≡ None }
{
    if let Some(applications) = handle.take_applications(alloc) {
        drop(applications);
    }
}

/// Makes a server whose application answers the requests of the entries, if its handle is empty. Takes the entries out
/// of their handle.
#[unsafe(no_mangle)]
#[tactic(auto, using(crate::proofs::ServerLemmas::keeps))]
pub extern "C" fn dachreup_server_new_for(
    alloc: Global,
    handle: &mut ServerHandle,
    settings: &Settings,
    applications: &mut ApplicationsHandle,
) -> u32
    ensures call { IsMadeFor settings.now applications.old.value applications.new.value handle.old.value
        handle.new.value result }
    ensures output { KeepsReported handle.old.value handle.new.value }
{
    if let Some(server) = handle.take_server(alloc) {
        handle.put_back(server);
        return OCCUPIED;
    }
    let config = match configured(settings) {
        Ok(config) => config,
        Err(number) => return number,
    };
    let Some(entries) = applications.take_applications(alloc) else {
        return EMPTY;
    };
    let Ok(server) = Server::with_applications(alloc, config, Box::into_inner(entries)) else {
        return MEMORY;
    };
    let Ok(boxed) = Box::new(alloc, PolledServer::new(server)) else {
        return MEMORY;
    };
    handle.put_back(boxed);
    SUCCESS
}
