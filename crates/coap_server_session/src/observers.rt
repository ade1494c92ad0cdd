//! The list of observers of a connection (RFC 7641).

ghost use Rattle.std.specs.Prelude.{◌≡◌, ◌<◌, ◌≤◌, None, false, length, map, is_some, IfNone, IfSome, Option, ℕ};
ghost use Rattle.std.specs.Prelude.{vec_capacity, ◌++◌, ◌∷◌, [], not, nat_lt, IfOk, Some, slice_get, slice_set, remove};
ghost use Rattle.coap_server_session.specs.Prelude.{list_any, is_time_observer as observes_time, IsFirstMarked};
ghost use Rattle.coap_server_session.specs.Prelude.{AllByRecursion, AreChainedTo, AreFlagged, linked, IsTagged};
ghost use Rattle.coap_server_session.specs.Prelude.{mark_in, marks_anew, first_index, without_entry, observer_value};
ghost use Rattle.coap_server_session.specs.Prelude.{observes_hash, last_hash, ObserverValue};

use crate::cause::Cause;
use crate::chains::{Chains, chains_of};
use crate::flags::Flags;
use crate::observer::{Observer, unsent_by};
use crate::server_state::ServerState;
use coap_wire::TokenRef;
use std::alloc::{AllocError, Global};
use std::marker::Model;

/// Stale observer: the state sent to it last differs from the current state of its path.
#[derive(Clone, Copy)]
pub(crate) struct StaleObserver {
    /// Index of the observer in the list.
    pub index: usize,
    /// Mark of the current state, 0 if the path is absent.
    pub mark: u64,
}

/// List of observers in order of arrival, with a fixed capacity. Contracts see an `ObserversValue`.
#[derive(Drop)]
pub(crate) struct Observers {
    room: usize,
    entries: Vec<Observer>,
    /// Observers that each change affects.
    chains: Chains,
    /// Flag for each entry that has a changed mark.
    marked: Flags,
}

impl Model for Observers {
    ghost use Rattle.coap_server_session.specs.values.Sessions.{ObserversValue};

    ghost Value = { ObserversValue };

    ghost use Rattle.coap_server_session.specs.views.ObserverViews.{observers_value, are_observers};

    ghost view = { observers_value };

    ghost invariant = { are_observers };
}

impl Observers {
    /// Returns an empty list that can have `room` observers, at most 256. All memory is allocated here.
    ///
    /// # Errors
    ///
    /// Returns `AllocError` if allocation fails.
    pub(crate) fn new(alloc: Global, room: usize) -> Result<Observers, AllocError>
        requires { room ≤ 256 }
        ensures { IfOk result (λ o. o ≡ record { room = room; entries = []; marks = [] }) }
    {
        Ok(Observers {
            room,
            entries: Vec::with_capacity(alloc, room)?,
            chains: Chains::new(),
            marked: Flags::new(),
        })
    }

    /// Returns the number of observers.
    pub(crate) fn len(&self) -> usize
        ensures count { result ≡ length self.now.entries }
        ensures within { length self.now.entries ≤ self.now.room }
    {
        self.entries.len()
    }

    /// Returns `true` if the list is full.
    pub(crate) fn is_full(&self) -> bool
        ensures { result ≡ not (nat_lt (length self.now.entries) self.now.room) }
    {
        self.entries.len() >= self.room
    }

    /// Returns `true` if an observer observes the time.
    pub(crate) fn any_observes_time(&self) -> bool
        ensures { result ≡ list_any observes_time self.now.entries }
    {
        self.chains.last(Cause::Moment(0)).is_some()
    }

    /// Returns `true` if an observer observes a path with this hash.
    pub(crate) fn may_observe(&self, hash: u8) -> bool
        ensures { result ≡ list_any (observes_hash hash) self.now.entries }
    {
        self.chains.last(Cause::Path(hash)).is_some()
    }

    /// Returns the hash of the path of the last observer, or `None` if there is no observer.
    #[tactic(auto, using(crate::proofs::values::ConcernLemmas::last_tagged, crate::proofs::values::ConcernLemmas::none_last))]
    pub(crate) fn last_hash(&self) -> Option<u8>
        ensures { result ≡ last_hash self.now.entries }
    {
        let count = self.entries.len();
        if count == 0 {
            return None;
        }
        Some(self.entries[count - 1].hash)
    }

    /// Recomputes the changed marks of the observers that a change affects.
    pub(crate) fn mark(&mut self, cause: Cause, shared: &ServerState)
        ensures { self.new
            ≡ record self.old { marks = marks_anew cause shared.entry.now self.old.entries self.old.marks } }
    {
        mark_chain(
            &mut self.entries,
            &mut self.marked,
            &self.chains,
            cause,
            shared,
        );
    }

    /// Returns the first observer that has a changed mark, or `None` if there is none.
    #[tactic(auto, using(crate::proofs::values::FlagLemmas::none_marked, crate::proofs::values::FlagLemmas::flag_within, crate::proofs::values::EntryLemmas::read_at))]
    pub(crate) fn first_changed(&mut self) -> Option<StaleObserver>
        ensures none { IfNone result (first_index is_some self.old.marks ≡ None) }
        ensures some { IfSome result (λ found. IsFirstMarked self.old.marks found) }
        ensures same { self.new ≡ self.old }
    {
        let index = self.marked.first()?;
        let mark = self.entries[index].changed?;
        Some(StaleObserver { index, mark })
    }

    /// Returns the observer at an index.
    pub(crate) fn get(&self, index: usize) -> &Observer
        requires { index < length self.now.entries }
        ensures value { slice_get self.now.entries index ≡ Some (observer_value result.now) }
        ensures tagged { IsTagged result.now }
    {
        &self.entries[index]
    }

    /// Records that the observer at an index was sent the state with this mark, and clears its changed mark. `place` is
    /// the index of its resource.
    pub(crate) fn set_mark(&mut self, index: usize, mark: u64, place: usize)
        requires { index < length self.old.entries }
        ensures { (o : ObserverValue) → slice_get self.old.entries index ≡ Some o → self.new ≡ record self.old {
          entries = slice_set self.old.entries index (record o { mark = mark });
          marks = slice_set self.old.marks index None;
        } }
    {
        let observer = &mut self.entries[index];
        observer.mark = mark;
        observer.index = place;
        observer.changed = None;
        self.marked.put(index, false);
    }

    /// Removes the observer at an index.
    pub(crate) fn remove(&mut self, index: usize)
        requires { index < length self.old.entries }
        ensures { self.new
            ≡ record self.old { entries = remove self.old.entries index; marks = remove self.old.marks index } }
    {
        self.entries.remove(index);
        find_anew(&mut self.entries, &mut self.chains, &mut self.marked);
    }

    /// Removes the observer with this token, if there is one. The others keep their changed marks.
    #[inline(always)]
    #[tactic(auto, unfolding(crate::specs::values::Sessions::without_entry))]
    pub(crate) fn remove_token(&mut self, token: &TokenRef)
        ensures entries { self.new.entries ≡ without_entry token.now self.old.entries }
        ensures marks { (mark : ObserverValue → Option ℕ) → self.old.marks ≡ map mark self.old.entries →
            self.new.marks ≡ map mark self.new.entries }
        ensures room { self.new.room ≡ self.old.room }
    {
        if !self.entries.is_empty() {
            self.remove_present(token);
        }
    }

    /// Removes the observer with this token, as `remove_token` does.
    // A separate function: most connections have no observer, and this one is too large to be inlined.
    #[inline(never)]
    #[tactic(auto, unfolding(crate::specs::values::Sessions::without_entry))]
    fn remove_present(&mut self, token: &TokenRef)
        ensures entries { self.new.entries ≡ without_entry token.now self.old.entries }
        ensures marks { (mark : ObserverValue → Option ℕ) → self.old.marks ≡ map mark self.old.entries →
            self.new.marks ≡ map mark self.new.entries }
        ensures room { self.new.room ≡ self.old.room }
    {
        if keep_others(&mut self.entries, token) {
            find_anew(&mut self.entries, &mut self.chains, &mut self.marked);
        }
    }

    /// Appends an observer without a changed mark. The list must not be full.
    pub(crate) fn add_observer(&mut self, mut observer: Observer)
        requires room { length self.old.entries < self.old.room }
        requires tagged { IsTagged observer }
        requires unmarked { observer.changed ≡ None }
        ensures { self.new ≡ record self.old {
          entries = self.old.entries ++ observer_value observer ∷ [];
          marks = self.old.marks ++ None ∷ [];
        } }
    {
        self.chains.link(&mut observer, self.entries.len() as u8);
        self.entries.push_reserved(observer);
    }

    /// Removes all observers.
    pub(crate) fn clear(&mut self)
        ensures { self.new ≡ record self.old { entries = []; marks = [] } }
    {
        if !self.entries.is_empty() {
            self.entries.clear();
            self.chains = Chains::new();
            self.marked = Flags::new();
        }
    }
}

/// Recomputes the changed marks and the flags of a chain, from its last observer to its first.
///
/// The store is read again only for an observer whose path differs from that of the last one.
fn mark_chain(
    observers: &mut Vec<Observer>,
    marked: &mut Flags,
    chains: &Chains,
    cause: Cause,
    shared: &ServerState,
)
    requires many { length observers.old.items ≤ 256 }
    requires tagged { AllByRecursion IsTagged observers.old.items }
    requires chained { AreChainedTo (length observers.old.items) chains.now (map linked observers.old.items) }
    requires flagged { AreFlagged marked.old (map mark_in observers.old.items) }
    ensures tagged { AllByRecursion IsTagged observers.new.items }
    ensures entries { map observer_value observers.new.items ≡ map observer_value observers.old.items }
    ensures linked { map linked observers.new.items ≡ map linked observers.old.items }
    ensures marks { map mark_in observers.new.items ≡ marks_anew cause shared.entry.now
        (map observer_value observers.old.items) (map mark_in observers.old.items) }
    ensures flagged { AreFlagged marked.new (map mark_in observers.new.items) }
    ensures capacity { vec_capacity observers.new ≡ vec_capacity observers.old }
{
    let Some(last) = chains.last(cause) else {
        return;
    };
    let last = usize::from(last);
    let known = &observers[last];
    let present = known.present(shared);
    let changed = unsent_by(present, known.mark);
    let mut at = known.previous(cause);
    set_mark(observers, marked, last, changed);
    while let Some(index) = at {
        let observer = &observers[usize::from(index)];
        let changed = observer.changed_by(&observers[last].path, present, shared);
        at = observer.previous(cause);
        set_mark(observers, marked, usize::from(index), changed);
    }
}

/// Sets the changed mark of the observer at an index, and its flag.
#[tactic(auto, using(crate::proofs::values::FlagLemmas::writes))]
fn set_mark(observers: &mut Vec<Observer>, marked: &mut Flags, index: usize, changed: Option<u64>)
    requires many { length observers.old.items ≤ 256 }
    requires within { index < length observers.old.items }
    requires tagged { AllByRecursion IsTagged observers.old.items }
    requires flagged { AreFlagged marked.old (map mark_in observers.old.items) }
    ensures tagged { AllByRecursion IsTagged observers.new.items }
    ensures entries { map observer_value observers.new.items ≡ map observer_value observers.old.items }
    ensures linked { map linked observers.new.items ≡ map linked observers.old.items }
    ensures marks { map mark_in observers.new.items ≡ slice_set (map mark_in observers.old.items) index changed }
    ensures flagged { AreFlagged marked.new (map mark_in observers.new.items) }
    ensures capacity { vec_capacity observers.new ≡ vec_capacity observers.old }
{
    observers[index].changed = changed;
    marked.put(index, changed.is_some());
}

/// Rebuilds the chains and the flags of a list of observers.
// Never inlined, since a function clears all its locals.
#[inline(never)]
fn find_anew(observers: &mut Vec<Observer>, chains: &mut Chains, marked: &mut Flags)
    requires few { length observers.old.items ≤ 256 }
    requires tagged { AllByRecursion IsTagged observers.old.items }
    ensures entries { map observer_value observers.new.items ≡ map observer_value observers.old.items }
    ensures marks { map mark_in observers.new.items ≡ map mark_in observers.old.items }
    ensures tagged { AllByRecursion IsTagged observers.new.items }
    ensures capacity { vec_capacity observers.new ≡ vec_capacity observers.old }
    ensures chained { AreChainedTo (length observers.new.items) chains.new (map linked observers.new.items) }
    ensures flagged { AreFlagged marked.new (map mark_in observers.new.items) }
{
    *chains = chains_of(observers);
    *marked = flags_of(observers);
}

/// Returns the flags of the observers that have a changed mark.
#[tactic(auto, using(crate::proofs::values::FlagLemmas::one_more_flagged))]
fn flags_of(observers: &[Observer]) -> Flags
    requires { length observers.now ≤ 256 }
    ensures { AreFlagged result (map mark_in observers.now) }
{
    let mut flags = Flags::new();
    for (index, observer) in observers.iter().enumerate() {
        flags.put(index, observer.changed.is_some());
    }
    flags
}

/// Removes the observers with this token, and returns `true` if there were any.
fn keep_others(observers: &mut Vec<Observer>, token: &TokenRef) -> bool
    ensures others { map observer_value observers.new.items
        ≡ without_entry token.now (map observer_value observers.old.items) }
    ensures marks { (mark : ObserverValue → Option ℕ) → map mark_in observers.old.items
        ≡ map mark (map observer_value observers.old.items) → map mark_in observers.new.items
        ≡ map mark (map observer_value observers.new.items) }
    ensures tagged { AllByRecursion IsTagged observers.old.items → AllByRecursion IsTagged observers.new.items }
    ensures fewer { length observers.new.items ≤ length observers.old.items }
    ensures capacity { vec_capacity observers.new ≡ vec_capacity observers.old }
    ensures same { result ≡ false → observers.new.items ≡ observers.old.items }
{
    let before = observers.len();
    observers.retain(|observer| !token.equals(&observer.token));
    observers.len() < before
}
