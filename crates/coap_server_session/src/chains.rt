//! Linked lists (chains) of observers, so that a change visits only those that it affects. There is one chain for each
//! of the 256 hashes of paths, and one for the time.

ghost use Rattle.std.specs.Prelude.{◌≡◌, ◌≤◌, Some, None, true, false, map, length, vec_capacity, if◌then◌else◌};
ghost use Rattle.coap_server_session.specs.Prelude.{AllByRecursion, Cause, IsTagged, AreChainedTo, last_in};
ghost use Rattle.coap_server_session.specs.Prelude.{previous_in, concerns_path, linked, observer_value, mark_in};

use crate::cause::Cause;
use crate::observer::Observer;

/// Index of the last observer of each chain. Each observer stores the index of the one before it in the same chain.
#[derive(Drop)]
pub(crate) struct Chains {
    /// Ends of the chains of paths, by the hash of the path.
    hashed: [Option<u8>; 256],
    /// End of the chain of observers of a built-in path. The only observable one is `/time`.
    of_time: Option<u8>,
}

impl Chains {
    /// Returns chains without an observer.
    pub(crate) fn new() -> Chains
        ensures { (why : Cause) → last_in why result ≡ None }
    {
        Chains {
            hashed: [None; 256],
            of_time: None,
        }
    }

    /// Returns the index of the last observer that a change affects, or `None` if there is none.
    pub(crate) fn last(&self, cause: Cause) -> Option<u8>
        ensures { result ≡ last_in cause self.now }
    {
        match cause {
            Cause::Path(hash) => self.hashed[usize::from(hash)],
            Cause::Moment(_) => self.of_time,
        }
    }

    /// Appends the observer at `index` to its chains.
    pub(crate) fn link(&mut self, observer: &mut Observer, index: u8)
        requires tagged { IsTagged observer.old }
        ensures value { observer_value observer.new ≡ observer_value observer.old }
        ensures mark { observer.new.changed ≡ observer.old.changed }
        ensures tagged { IsTagged observer.new }
        ensures previous { (why : Cause) → concerns_path why observer.old.path ≡ true →
            previous_in why (linked observer.new) ≡ last_in why self.old }
        ensures last { (why : Cause) → last_in why self.new
            ≡ (if concerns_path why observer.old.path then Some index else last_in why self.old) }
    {
        let last = &mut self.hashed[usize::from(observer.hash)];
        observer.previous = *last;
        *last = Some(index);
        if observer.of_time {
            observer.previous_of_time = self.of_time;
            self.of_time = Some(index);
        }
    }
}

/// Links all observers of a list, in order, and returns the ends of the chains.
pub(crate) fn chains_of(observers: &mut Vec<Observer>) -> Chains
    requires few { length observers.old.items ≤ 256 }
    requires tagged { AllByRecursion IsTagged observers.old.items }
    ensures entries { map observer_value observers.new.items ≡ map observer_value observers.old.items }
    ensures marks { map mark_in observers.new.items ≡ map mark_in observers.old.items }
    ensures tagged { AllByRecursion IsTagged observers.new.items }
    ensures capacity { vec_capacity observers.new ≡ vec_capacity observers.old }
    ensures chained { AreChainedTo (length observers.new.items) result (map linked observers.new.items) }
{
    let mut chains = Chains::new();
    for index in 0..observers.len() {
        chains.link(&mut observers[index], index as u8);
    }
    chains
}
