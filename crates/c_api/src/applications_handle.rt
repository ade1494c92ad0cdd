//! `ApplicationsHandle`, the handle of the entries of an application that a C program keeps.

ghost use Rattle.std.specs.Prelude.{◌≡◌, None, Some};
ghost use Rattle.std.specs.Option.{MatchOption};
ghost use Rattle.std.specs.Coded.{coded_option};
ghost use Rattle.std.specs.declared.option.Option.{Option};
ghost use Rattle.coap_path.specs.Applications.{ApplicationsValue};
ghost use Rattle.coap_path.specs.contracts.applications.Applications.{the_row as applications_row};
ghost use Rattle.c_handle.specs.Slots.{slot_owns};

use c_handle::BoxParts;
use coap_path::Applications;
use std::alloc::Global;
use std::marker::Model;
use std::mem::replace;
use std::ptr::null_mut;

/// Handle of the entries of an application: a null pointer, or the address of `Applications` on the heap. Contracts see
/// their value.
#[repr(C)]
#[derive(Drop)]
pub struct ApplicationsHandle {
    at: *mut u8,
    pub ghost value: { Option ApplicationsValue } by { coded_option applications_row.coded },
}

impl Model for ApplicationsHandle {
    ghost also_owns = { λ h. slot_owns applications_row h.at h.value };
}

impl ApplicationsHandle {
    /// Returns the handle without entries.
    pub(crate) fn empty() -> ApplicationsHandle
        ensures { result.value ≡ None }
    {
        ApplicationsHandle { at: null_mut() }
    }

    /// Returns the handle of the entries.
    pub(crate) fn of(applications: BoxParts<Applications, Global>) -> ApplicationsHandle
        ensures { result.value ≡ Some applications.value }
    {
        let BoxParts { at, alloc: _ } = applications;
        ApplicationsHandle { at: at as *mut u8 }
    }

    /// Returns the entries of a handle, or `None` if the handle has none.
    pub(crate) fn into_parts(self, alloc: Global) -> Option<BoxParts<Applications, Global>>
        ensures { MatchOption result (self.value ≡ None) (λ parts. self.value ≡ Some parts.value) }
    {
        let ApplicationsHandle { at } = self;
        if at.is_null() {
            None
        } else {
            Some(BoxParts {
                at: at as *mut Applications,
                alloc,
            })
        }
    }

    /// Takes the entries out of a handle, which is empty then. Returns `None` if the handle has none.
    pub(crate) fn take_applications(&mut self, alloc: Global) -> Option<Box<Applications>>
        ensures value { MatchOption result (self.old.value ≡ None)
            (λ applications. self.old.value ≡ Some applications.value) }
        ensures empty { self.new.value ≡ None }
    {
        let parts = replace(self, ApplicationsHandle::empty()).into_parts(alloc)?;
        Some(parts.into_box())
    }

    /// Puts entries into a handle that is empty.
    pub(crate) fn put_back(&mut self, applications: Box<Applications>)
        ensures { self.new.value ≡ Some applications.value }
    {
        *self = ApplicationsHandle::of(BoxParts::of(applications));
    }
}
