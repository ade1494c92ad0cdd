//! `ServerHandle`, the handle of a server that a C program keeps.

ghost use Rattle.std.specs.Prelude.{◌≡◌, None, Some};
ghost use Rattle.std.specs.Option.{MatchOption};
ghost use Rattle.std.specs.Coded.{coded_option};
ghost use Rattle.std.specs.declared.option.Option.{Option};
ghost use Rattle.coap_server_polled.specs.declared.polled_server.PolledServer.{PolledServer as Polled};
ghost use Rattle.coap_server_polled.specs.contracts.polled_server.PolledServer.{the_row as server_row};
ghost use Rattle.c_handle.specs.Slots.{slot_owns};

use c_handle::BoxParts;
use coap_server_polled::PolledServer;
use std::alloc::Global;
use std::marker::Model;
use std::mem::replace;
use std::ptr::null_mut;

/// Handle of a server: a null pointer, or the address of a server on the heap. Contracts see the value of the server.
#[repr(C)]
#[derive(Drop)]
pub struct ServerHandle {
    at: *mut u8,
    pub ghost value: { Option Polled } by { coded_option server_row.coded },
}

impl Model for ServerHandle {
    ghost also_owns = { λ h. slot_owns server_row h.at h.value };
}

impl ServerHandle {
    /// Returns the handle without a server.
    pub(crate) fn empty() -> ServerHandle
        ensures { result.value ≡ None }
    {
        ServerHandle { at: null_mut() }
    }

    /// Returns the handle of a server.
    pub(crate) fn of(server: BoxParts<PolledServer, Global>) -> ServerHandle
        ensures { result.value ≡ Some server.value }
    {
        let BoxParts { at, alloc: _ } = server;
        ServerHandle { at: at as *mut u8 }
    }

    /// Returns the server of a handle, or `None` if the handle has none.
    pub(crate) fn into_parts(self, alloc: Global) -> Option<BoxParts<PolledServer, Global>>
        ensures { MatchOption result (self.value ≡ None) (λ parts. self.value ≡ Some parts.value) }
    {
        let ServerHandle { at } = self;
        if at.is_null() {
            None
        } else {
            Some(BoxParts {
                at: at as *mut PolledServer,
                alloc,
            })
        }
    }

    /// Takes the server out of a handle, which is empty then. Returns `None` if the handle has none.
    pub(crate) fn take_server(&mut self, alloc: Global) -> Option<Box<PolledServer>>
        ensures value { MatchOption result (self.old.value ≡ None) (λ server. self.old.value ≡ Some server.value) }
        ensures empty { self.new.value ≡ None }
    {
        let parts = replace(self, ServerHandle::empty()).into_parts(alloc)?;
        Some(parts.into_box())
    }

    /// Puts a server into a handle that is empty.
    pub(crate) fn put_back(&mut self, server: Box<PolledServer>)
        ensures { self.new.value ≡ Some server.value }
    {
        *self = ServerHandle::of(BoxParts::of(server));
    }
}
