//! The text of the results of a lookup.

ghost use Rattle.std.specs.Prelude.{◌≡◌, Some, [], IfOk, option_map};
ghost use Rattle.directory_registry.specs.Prelude.{with_bytes, begun, takes_item, started, page_of};

use coap_wire::Sink;
use std::alloc::{AllocError, Global};
use std::marker::Model;

/// Part of the results of a lookup.
#[derive(Clone, Copy)]
pub struct Page {
    /// Number of results before the part.
    pub skip: u64,
    /// Maximum number of results of the part.
    pub count: u64,
}

/// Text of the results of a lookup, of limited length. Contracts see a `ListingValue`.
#[derive(Drop)]
pub struct Listing {
    skip: u64,
    left: u64,
    limit: usize,
    overflows: bool,
    bytes: Vec<u8>,
}

impl Model for Listing {
    ghost use Rattle.directory_registry.specs.Lookups.{ListingValue};

    ghost Value = { ListingValue };

    ghost use Rattle.directory_registry.specs.ListingViews.{listing_of, IsListing};

    ghost view = { listing_of };

    ghost invariant = { IsListing };
}

impl Listing {
    /// Creates a listing of at most `capacity` bytes.
    ///
    /// # Errors
    ///
    /// - `AllocError` if allocation fails.
    pub fn new(alloc: Global, capacity: usize) -> Result<Listing, AllocError>
        ensures { IfOk result
            (λ l. l ≡ record { skip = 0; left = 0; capacity = capacity; limit = capacity; text = Some [] }) }
    {
        Ok(Listing {
            skip: 0,
            left: 0,
            limit: capacity,
            overflows: false,
            bytes: Vec::with_capacity(alloc, capacity)?,
        })
    }

    /// Starts an empty text of at most `limit` bytes, and not above the capacity.
    pub fn start(&mut self, page: Page, limit: usize)
        ensures { self.new ≡ started self.old (page_of page) limit }
    {
        self.bytes.clear();
        self.skip = page.skip;
        self.left = page.count;
        self.overflows = false;
        self.limit = limit;
        if self.limit > self.bytes.capacity() {
            self.limit = self.bytes.capacity();
        }
    }

    /// Returns the text, or `None` if it is longer than the limit.
    pub fn text(&self) -> Option<&[u8]>
        ensures { option_map (λ t. t.now) result ≡ self.now.text }
    {
        if self.overflows {
            return None;
        }
        Some(&self.bytes)
    }

    /// Appends bytes.
    #[tactic(auto, unfolding(crate::specs::Lookups::with_bytes))]
    pub(crate) fn push(&mut self, bytes: &[u8])
        ensures { self.new ≡ with_bytes self.old bytes.now }
    {
        if self.overflows {
            return;
        }
        if bytes.len() > self.limit - self.bytes.len() {
            self.overflows = true;
            return;
        }
        Sink::append(&mut self.bytes, bytes);
    }

    /// Counts another result. Returns `true` if it is in the part, after it has written the separator.
    #[tactic(auto, unfolding(crate::specs::Lookups::begun, crate::specs::Lookups::with_bytes))]
    pub(crate) fn begin_item(&mut self) -> bool
        ensures taken { result ≡ takes_item self.old }
        ensures after { self.new ≡ begun self.old }
    {
        if self.skip > 0 {
            self.skip -= 1;
            return false;
        }
        if self.left == 0 {
            return false;
        }
        self.left -= 1;
        if !self.bytes.is_empty() {
            self.push(b",");
        }
        true
    }
}
