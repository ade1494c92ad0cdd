//! The places that a listener names as woken.

ghost use Rattle.std.specs.Prelude.{◌≡◌, ◌<◌, ◌≤◌, ◌++◌, ◌∷◌, [], Some, None, length, option_map, IfOk};
ghost use Rattle.coap_sockets.specs.Woken.{named};

use std::alloc::{AllocError, Global};
use std::cell::Cell;

/// Places of the wires that had events since the list was last read. It has room for a number of events that is set
/// when it is created. After more events, it names no place, and any wire may have had one.
#[derive(Drop)]
pub(crate) struct Woken {
    /// The first `count` items are the places.
    places: Vec<usize>,
    /// Number of events. If it exceeds the number of items, some places are missing.
    count: usize,
    /// `true` if the list was read since the last wait.
    was_read: Cell<bool>,
}

impl Woken {
    /// Returns an empty list with room for `events` events.
    pub(crate) fn new(alloc: Global, events: usize) -> Result<Woken, AllocError>
        ensures none { IfOk result (λ woken. named woken ≡ Some []) }
        ensures room { IfOk result (λ woken. length woken.places.items ≡ events) }
    {
        let mut places = Vec::with_capacity(alloc, events)?;
        for _ in 0..events {
            places.push(0)?;
        }
        Ok(Woken {
            places,
            count: 0,
            was_read: Cell::new(false),
        })
    }

    /// Begins to record the events of a wait. If the list was read since the last one, its places are removed.
    pub(crate) fn begin(&mut self)
        ensures { length self.new.places.items ≡ length self.old.places.items }
    {
        if self.was_read.get() {
            self.was_read.set(false);
            self.count = 0;
        }
    }

    /// Records an event of the wire with this place.
    pub(crate) fn add(&mut self, place: usize)
        ensures added { self.old.count < length self.old.places.items →
            named self.new ≡ option_map (λ places. places ++ place ∷ []) (named self.old) }
        ensures full { length self.old.places.items ≤ self.old.count → named self.new ≡ None }
        ensures room { length self.new.places.items ≡ length self.old.places.items }
    {
        if let Some(free) = self.places.get_mut(self.count) {
            *free = place;
            self.count += 1;
        } else {
            self.count = usize::MAX;
        }
    }

    /// Returns the places of the wires that had events, or `None` if any wire may have had one.
    pub(crate) fn places(&self) -> Option<&[usize]>
        ensures { option_map (λ places. places.now) result ≡ named self.now }
    {
        self.was_read.set(true);
        self.places.get(..self.count)
    }
}
