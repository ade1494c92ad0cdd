//! The connections that a turn must look at.

ghost use Rattle.std.specs.Prelude.{◌≡◌, ◌≢◌, ℕ, ◌<◌, ◌≤◌, ◌||◌, true, is_some};
ghost use Rattle.coap_serve.specs.Prelude.{IsOutside, bit_of};

use coap_server_engine::IndexSet;

/// Number of connections that may sleep: those with a smaller index, whose wires have a smaller place.
const SLEEPERS: usize = 256;

/// Connections that a turn must look at. The others *sleep*: nothing can be done on them, and they have no deadline. A
/// connection sleeps until its listener names its wire, until the server reports that its work may have changed, or
/// until all wake.
#[derive(Drop)]
pub(super) struct Awake {
    /// Indices of the connections that are awake.
    set: IndexSet,
    /// Index of the connection that fell asleep last, for each place of a wire.
    indices: [u8; SLEEPERS],
}

impl Awake {
    /// Returns the state of a service in which all connections are awake.
    pub(super) fn new() -> Awake
        ensures { (i : ℕ) → i < 256 → bit_of result.set.words i ≡ 1 }
    {
        Awake {
            set: IndexSet::full(),
            indices: [0; SLEEPERS],
        }
    }

    /// Wakes all connections.
    pub(super) fn wake_all(&mut self)
        ensures { (i : ℕ) → i < 256 → bit_of self.new.set.words i ≡ 1 }
    {
        self.set = IndexSet::full();
    }

    /// Wakes the connection at an index.
    pub(super) fn wake(&mut self, at: usize)
        ensures awake { IsOutside self.new.set.words at → ⊥ }
        ensures asleep { (i : ℕ) → IsOutside self.new.set.words i → IsOutside self.old.set.words i }
    {
        self.set.insert(at);
    }

    /// Wakes the connections of a set.
    pub(super) fn join(&mut self, affected: &IndexSet)
        ensures { (i : ℕ) → IsOutside self.new.set.words i →
            IsOutside self.old.set.words i × IsOutside affected.now.words i }
    {
        self.set.join(affected);
    }

    /// Wakes the connections whose wires have these places, or all if there is no list of places.
    pub(super) fn wake_places(&mut self, places: Option<&[usize]>)
        ensures { (i : ℕ) → IsOutside self.new.set.words i → IsOutside self.old.set.words i }
    {
        match places {
            Some(places) => {
                for place in places {
                    self.wake_place(*place);
                }
            }
            None => self.wake_all(),
        }
    }

    /// Wakes the connection whose wire has this place, if it sleeps.
    fn wake_place(&mut self, place: usize)
        ensures { (i : ℕ) → IsOutside self.new.set.words i → IsOutside self.old.set.words i }
    {
        if let Some(at) = self.indices.get(place) {
            self.set.insert(usize::from(*at));
        }
    }

    /// Records a look at the connection at an index. If it is ready or has a deadline, it is awake. Otherwise it falls
    /// asleep, if its wire has a place.
    pub(super) fn record_look(
        &mut self,
        at: usize,
        place: Option<usize>,
        is_ready: bool,
        due: Option<u64>,
    )
        ensures asleep { (i : ℕ) → i ≢ at → IsOutside self.new.set.words i → IsOutside self.old.set.words i }
        ensures awake { (is_ready || is_some due) ≡ true → IsOutside self.new.set.words at → ⊥ }
    {
        if is_ready || due.is_some() {
            self.set.insert(at);
        } else if let Some(place) = place {
            self.sleep(at, place);
        } else {
            self.set.insert(at);
        }
    }

    /// Puts the connection at an index to sleep, if the index and the place of its wire are less than 256.
    fn sleep(&mut self, at: usize, place: usize)
        ensures { (i : ℕ) → i ≢ at → IsOutside self.new.set.words i → IsOutside self.old.set.words i }
    {
        if at < SLEEPERS && place < SLEEPERS {
            self.indices[place] = at as u8;
            self.set.remove(at);
        }
    }

    /// Returns the index of the first connection from `from` on that is awake, or `end` if that is less.
    pub(super) fn next(&self, from: usize, end: usize) -> usize
        requires { from ≤ end }
        ensures from { from ≤ result }
        ensures within { result ≤ end }
        ensures asleep { (i : ℕ) → from ≤ i → i < result → IsOutside self.now.set.words i }
    {
        self.set.next(from, end)
    }
}
