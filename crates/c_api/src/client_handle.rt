//! `ClientHandle`, the handle of a client that a C program keeps.

ghost use Rattle.std.specs.Prelude.{◌≡◌, None, Some};
ghost use Rattle.std.specs.Option.{MatchOption};
ghost use Rattle.std.specs.Coded.{coded_option};
ghost use Rattle.std.specs.declared.option.Option.{Option};
ghost use Rattle.coap_client_engine.specs.ClientValues.{ClientValue};
ghost use Rattle.coap_client_engine.specs.contracts.client.Client.{the_row as client_row};
ghost use Rattle.c_handle.specs.Slots.{slot_owns};

use c_handle::BoxParts;
use coap_client_engine::Client;
use std::alloc::Global;
use std::marker::Model;
use std::mem::replace;
use std::ptr::null_mut;

/// Handle of a client: a null pointer, or the address of a client on the heap. Contracts see the value of the client.
#[repr(C)]
#[derive(Drop)]
pub struct ClientHandle {
    at: *mut u8,
    pub ghost value: { Option ClientValue } by { coded_option client_row.coded },
}

impl Model for ClientHandle {
    ghost also_owns = { λ h. slot_owns client_row h.at h.value };
}

impl ClientHandle {
    /// Returns the handle without a client.
    pub(crate) fn empty() -> ClientHandle
        ensures { result.value ≡ None }
    {
        ClientHandle { at: null_mut() }
    }

    /// Returns the handle of a client.
    pub(crate) fn of(client: BoxParts<Client, Global>) -> ClientHandle
        ensures { result.value ≡ Some client.value }
    {
        let BoxParts { at, alloc: _ } = client;
        ClientHandle { at: at as *mut u8 }
    }

    /// Returns the client of a handle, or `None` if the handle has none.
    pub(crate) fn into_parts(self, alloc: Global) -> Option<BoxParts<Client, Global>>
        ensures { MatchOption result (self.value ≡ None) (λ parts. self.value ≡ Some parts.value) }
    {
        let ClientHandle { at } = self;
        if at.is_null() {
            None
        } else {
            Some(BoxParts {
                at: at as *mut Client,
                alloc,
            })
        }
    }

    /// Takes the client out of a handle, which is empty then. Returns `None` if the handle has none.
    pub(crate) fn take_client(&mut self, alloc: Global) -> Option<Box<Client>>
        ensures value { MatchOption result (self.old.value ≡ None) (λ client. self.old.value ≡ Some client.value) }
        ensures empty { self.new.value ≡ None }
    {
        let parts = replace(self, ClientHandle::empty()).into_parts(alloc)?;
        Some(parts.into_box())
    }

    /// Puts a client into a handle that is empty.
    pub(crate) fn put_back(&mut self, client: Box<Client>)
        ensures { self.new.value ≡ Some client.value }
    {
        *self = ClientHandle::of(BoxParts::of(client));
    }
}
