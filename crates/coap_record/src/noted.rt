//! `NotedOutlet`, an outlet of which proofs know the bytes that it passed on.

ghost use Rattle.std.specs.Prelude.{◌≡◌, ◌++◌, ℕ, List, [], Some, None, false};
ghost use Rattle.std.specs.Borrow.{ftrue};

use coap_io::Outlet;
use std::marker::{Model, PhantomData};

/// Bytes that only proofs read. A value takes no memory, and its functions do nothing.
#[derive(Drop)]
pub struct NotedBytes {
    marker: PhantomData<u8>,
    pub ghost bytes: { List ℕ },
}

impl Model for NotedBytes {
    // It owns nothing, so it may have any bytes. A value says what its functions were called with.
    ghost also_owns = { λ _. ftrue };
}

impl NotedBytes {
    /// Returns a value with no bytes.
    fn new() -> NotedBytes
        ensures { result.bytes ≡ [] }
    {
        NotedBytes {
            marker: PhantomData,
        }
    }

    /// Adds bytes at the end.
    fn add(&mut self, _bytes: &[u8])
        ensures { self.new.bytes ≡ self.old.bytes ++ _bytes.now }
    {}
}

/// Outlet that keeps the bytes that another one accepted. So contracts know them, also if the other outlet records
/// none, as that of a file does. A write passes the bytes on and keeps the accepted ones; no contract joins the two.
#[derive(Drop)]
pub struct NotedOutlet<O> {
    outlet: O,
    /// Bytes that were passed on so far.
    passed: NotedBytes,
}

impl<O: Outlet + Drop> NotedOutlet<O> {
    /// Creates an outlet that has noted no bytes.
    pub fn new(outlet: O) -> NotedOutlet<O>
        ensures works { ⟦<NotedOutlet<O> as Outlet>⟧.is_failed result ≡ O.is_failed outlet }
        ensures empty { ⟦<NotedOutlet<O> as Outlet>⟧.written result ≡ Some [] }
    {
        NotedOutlet {
            outlet,
            passed: NotedBytes::new(),
        }
    }
}

impl<O: Outlet + Drop> Outlet for NotedOutlet<O> {
    ghost written = { λ o. Some o.passed.bytes };

    ghost is_failed = { λ o. O.is_failed o.outlet };

    fn write(&mut self, bytes: &[u8]) -> Option<usize> {
        let count = self.outlet.write(bytes)?;
        self.passed.add(&bytes[..count]);
        Some(count)
    }

    fn failed(&self) -> bool {
        self.outlet.failed()
    }
}
