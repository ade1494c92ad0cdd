//! The connections of a server that a change may concern.

ghost use Rattle.std.specs.Prelude.{◌≡◌, ◌<◌, ◌+◌, Some, nat_lt, IfOk, List, ℕ, length, remove, slice_get};
ghost use Rattle.coap_server_engine.specs.Prelude.{AreCovered, AreCoveredBut, SessionValue, values_of};

use crate::index_set::IndexSet;
use coap_server_session::Session;
use std::alloc::{AllocError, Global};

/// Number of the hashes of paths.
const HASHES: usize = 256;

/// Sets of the indices of connections that a change may concern. A change looks at the connections of its set alone.
///
/// A set may have other connections too. A search removes those that it finds.
#[derive(Drop)]
pub(super) struct Concerned {
    /// Connections with an observer of a path, by the hash of the path.
    pub paths: Vec<IndexSet>,
    /// Connections with a pending entry or an observer of the time.
    pub time: IndexSet,
}

impl Concerned {
    /// Returns sets that have all indices. All memory is allocated here.
    ///
    /// # Errors
    ///
    /// Returns `AllocError` if allocation fails.
    pub(super) fn new(alloc: Global) -> Result<Concerned, AllocError>
        ensures { IfOk result (λ c. (sessions : List (ℕ × SessionValue)) → AreCovered c sessions) }
    {
        Ok(Concerned {
            paths: vec![in alloc; IndexSet::full(); HASHES]?,
            time: IndexSet::full(),
        })
    }

    /// Returns the connections that a change of a path with this hash may concern.
    #[inline(always)]
    pub(super) fn of_path(&self, hash: u8) -> &IndexSet
        requires { length self.now.paths.items ≡ 256 }
        ensures { slice_get self.now.paths.items hash ≡ Some result.now }
    {
        &self.paths[usize::from(hash)]
    }

    /// Follows the removal of the connection at an index, of this number of connections. Those after it change their
    /// indices: unless there is none, all indices are added to each set.
    pub(super) fn follow_removal(&mut self, at: usize, count: usize)
        requires many { length self.old.paths.items ≡ 256 }
        requires within { at < count }
        ensures { (sessions : List (ℕ × SessionValue)) → length sessions ≡ count → AreCovered self.old sessions →
            AreCovered self.new (remove sessions at) }
    {
        if at + 1 < count {
            self.fill();
        }
    }

    /// Adds all indices to each set.
    fn fill(&mut self)
        requires { length self.old.paths.items ≡ 256 }
        ensures { (sessions : List (ℕ × SessionValue)) → AreCovered self.new sessions }
    {
        self.paths.fill(IndexSet::full());
        self.time = IndexSet::full();
    }

    /// Adds a connection, at this index, to the set of its last observer. If it has an observer or a pending entry, it
    /// is added to the set of the time too. Returns `true` if it has one of these.
    ///
    /// A message adds at most one observer to a connection, at the end of the list.
    #[inline(always)]
    pub(super) fn note(&mut self, session: &Session, at: usize) -> bool
        requires { length self.old.paths.items ≡ 256 }
        ensures covered { (sessions : List (ℕ × SessionValue)) →
            slice_get (values_of sessions) at ≡ Some session.now.session →
            AreCoveredBut at self.old sessions → AreCovered self.new sessions }
        ensures busy { result ≡ nat_lt 0 (length session.now.session.link.pending
            + length session.now.session.observers) }
    {
        if session.settle_bound() == 0 {
            return false;
        }
        self.note_busy(session, at);
        true
    }

    /// Does the same as `note` for a connection with an observer or a pending entry.
    // Never inlined, so that `note` costs one comparison on a connection with neither.
    #[inline(never)]
    fn note_busy(&mut self, session: &Session, at: usize)
        requires { length self.old.paths.items ≡ 256 }
        ensures { (sessions : List (ℕ × SessionValue)) →
            slice_get (values_of sessions) at ≡ Some session.now.session →
            AreCoveredBut at self.old sessions → AreCovered self.new sessions }
    {
        self.time.insert(at);
        if let Some(hash) = session.last_observed() {
            self.paths[usize::from(hash)].insert(at);
        }
    }
}
