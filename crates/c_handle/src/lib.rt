//! A box taken apart into its address and its allocator, and put together again.
//!
//! A program in another language keeps such an address between two calls (`c_api`). `BoxParts` owns what the box
//! owned, and contracts see its value.
#![tactic(auto)]

ghost use Rattle.std.specs.Prelude.{◌≡◌};
ghost use Rattle.std_alloc.specs.Box.Ownership.{box_owns};

mod places;
mod span;

pub use places::{span_of, span_within};
pub use span::{Parts, Span};
use std::alloc::Allocator;
use std::marker::Model;

/// Box taken apart: its address, its allocator, and the value at the address.
pub struct BoxParts<T, A: Allocator> {
    /// Address of the value.
    pub at: *mut T,
    /// Allocator of the box.
    pub alloc: A,
    pub ghost value: { T },
}

impl<T, A: Allocator> Model for BoxParts<T, A> {
    ghost also_owns = { λ l. box_owns (A.dealloc_token l.alloc) T.row l.at l.value };
}

impl<T: Drop, A: Allocator> BoxParts<T, A> {
    /// Takes a box apart.
    pub fn of(value: Box<T, A>) -> BoxParts<T, A>
        ensures { result.value ≡ value.value }
    {
        let (at, alloc) = Box::into_raw_with_allocator(value);
        BoxParts { at, alloc }
    }

    /// Puts the box together again.
    pub fn into_box(self) -> Box<T, A>
        ensures { result.value ≡ self.value }
    {
        let BoxParts { at, alloc } = self;
        unsafe { Box::from_raw(alloc, at) }
    }
}
