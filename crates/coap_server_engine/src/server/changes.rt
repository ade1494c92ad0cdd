//! The changes that may affect every connection of a server: of the time, and of the store.

use super::Server;
use super::sessions::{earliest_deadline, next_touched, settle_observers, settle_touched};
use crate::index_set::IndexSet;
use coap_model::Backwards;
use coap_server_session::{Cause, hash_of};
use coap_store::{PathKey, StoreFault};

impl Server {
    ghost use Rattle.std.specs.Prelude.{◌≡◌, ◌+◌, ◌++◌, ◌∷◌, ◌≤◌, ◌<◌, ◌^◌, ℕ, Option, List, [], is_ok, is_none};
    ghost use Rattle.std.specs.Prelude.{nat_le, length, IfOk, OnOk, OnErr};
    ghost use Rattle.coap_server_engine.specs.Prelude.{RefusedBy, IsStore, RefusedOrMemory, put_refusal};
    ghost use Rattle.coap_server_engine.specs.Prelude.{remove_refusal, AreSettled, server_ticked, server_put};
    ghost use Rattle.coap_server_engine.specs.Prelude.{server_removed, AcceptedCall, Ticked, Stored, Removed, Shows};
    ghost use Rattle.coap_server_engine.specs.Prelude.{KeepsWork, IsBefore, OnlyTimePasses};
    ghost use Rattle.coap_server_engine.specs.Prelude.{next_deadline as next_deadline_of};

    /// Sets the time of the server, in seconds.
    ///
    /// Then the server sends the delayed responses that are due and notifies the observers of the time, as far as the
    /// queues have room.
    ///
    /// # Errors
    ///
    /// - `Backwards`: `now` is earlier than the time of the server. Nothing has changed.
    pub fn tick(&mut self, now: u64) -> Result<(), Backwards>
        ensures settled { AreSettled self.old.shared self.old.sessions }
        ensures answer { is_ok result ≡ nat_le self.old.shared.now now }
        ensures ok { OnOk result (self.new ≡ server_ticked self.old now) }
        ensures shows { OnOk result ((events : List AcceptedCall) → Shows self.old events →
            Shows self.new (events ++ Ticked now ∷ [])) }
        ensures err { OnErr result (self.new ≡ self.old) }
    {
        if now < self.shared.now {
            return Err(Backwards);
        }
        let before = self.moment();
        if now == before {
            return Ok(());
        }
        let cause = Cause::Moment(before);
        self.shared.move_to(now);
        if next_touched(&mut self.sets.time, &self.sessions, 0, cause, now).is_some() {
            self.shared.keep_moment();
            settle_touched(&mut self.sets.time, &mut self.sessions, &self.shared, cause);
        }
        Ok(())
    }

    /// Stores a representation at a path, notifies the observers of the path, and returns the version of the
    /// representation.
    ///
    /// An observer whose connection has no room in its queue is notified later, of the state at that time.
    ///
    /// # Errors
    ///
    /// In this order, and nothing has changed then:
    ///
    /// - `TooLarge`: the representation has too many bytes.
    /// - `BadPath`: the path is that of a built-in resource.
    /// - `Limit`: the path is absent, and the resource limit is reached.
    /// - `VersionsSpent`: no version is left.
    /// - `Memory`: allocation failed.
    pub fn put(
        &mut self,
        path: &PathKey,
        format: Option<u16>,
        bytes: &[u8],
    ) -> Result<u64, StoreFault>
        ensures settled { AreSettled self.old.shared self.old.sessions }
        ensures answer { RefusedOrMemory result (put_refusal self.old.shared.store path.now bytes.now) }
        ensures version { IfOk result (λ version. version ≡ self.old.shared.store.versions + 1) }
        ensures ok { OnOk result (self.new ≡ server_put self.old path.now format bytes.now) }
        ensures shows { OnOk result ((events : List AcceptedCall) → Shows self.old events →
            Shows self.new (events ++ Stored path.now format bytes.now ∷ [])) }
        ensures err { OnErr result (self.new ≡ self.old) }
    {
        let version = self.shared.store.put(path, format, bytes)?;
        let hash = hash_of(path);
        settle_observers(&mut self.sets, &mut self.sessions, &self.shared, hash);
        Ok(version)
    }

    /// Removes the resource at a path, and notifies the observers of the path as `put` does.
    ///
    /// # Errors
    ///
    /// - `NoSuch`: the path is absent, or that of a built-in resource. Nothing has changed.
    pub fn remove(&mut self, path: &PathKey) -> Result<(), StoreFault>
        ensures settled { AreSettled self.old.shared self.old.sessions }
        ensures answer { RefusedBy result (remove_refusal self.old.shared.store path.now) }
        ensures ok { OnOk result (self.new ≡ server_removed self.old path.now) }
        ensures shows { OnOk result ((events : List AcceptedCall) → Shows self.old events →
            Shows self.new (events ++ Removed path.now ∷ [])) }
        ensures err { OnErr result (self.new ≡ self.old) }
    {
        self.shared.store.remove(path)?;
        let hash = hash_of(path);
        settle_observers(&mut self.sets, &mut self.sessions, &self.shared, hash);
        Ok(())
    }

    /// Returns `true` if `remove` would succeed at a path. Changes nothing and allocates no memory.
    pub fn can_remove(&self, path: &PathKey) -> bool
        ensures { result ≡ is_none (remove_refusal self.now.shared.store path.now) }
    {
        self.shared.store.can_remove(path)
    }

    /// Returns the time of the server, in seconds. Its contract also states that every connection is settled, as after
    /// every call.
    pub fn moment(&self) -> u64
        ensures moment { result ≡ self.now.shared.now }
        ensures store { IsStore self.now.shared.store }
        ensures settled { AreSettled self.now.shared self.now.sessions }
    {
        self.shared.store.count();
        self.shared.now
    }

    /// Returns the next time, in seconds, at which time alone may queue something, or `None` if there is none. At that
    /// time a delayed response is due, or an observer of the time must be notified.
    ///
    /// A `tick` with an earlier time changes only the time. The call looks only at connections that may have a pending
    /// entry or an observer of the time.
    pub fn next_deadline(&mut self) -> Option<u64>
        ensures deadline { result ≡ next_deadline_of self.old }
        ensures safe { (later : ℕ) → self.old.shared.now ≤ later → later < 2 ^ 64 → IsBefore later result →
            OnlyTimePasses self.old later }
        ensures same { self.new ≡ self.old }
    {
        // Gives the proof the invariant of the store.
        self.shared.store.count();
        earliest_deadline(&mut self.sets.time, &self.sessions, self.shared.now)
    }

    /// Returns the connections on which a change of the time may change the work left.
    pub fn concerned_by_time(&self) -> IndexSet
        ensures { (later : ℕ) → KeepsWork result.words self.now (server_ticked self.now later) }
    {
        // Gives the proof the invariant of the store.
        self.shared.store.count();
        self.sets.time
    }

    /// Returns the connections on which a change of the resource at a path may change the work left.
    pub fn concerned_by(&self, path: &PathKey) -> IndexSet
        ensures put { (format : Option ℕ) (bytes : List ℕ) →
            KeepsWork result.words self.now (server_put self.now path.now format bytes) }
        ensures removed { KeepsWork result.words self.now (server_removed self.now path.now) }
    {
        *self.sets.of_path(hash_of(path))
    }

    /// Returns the number of stored resources.
    pub fn resource_count(&self) -> usize
        ensures { result ≡ length self.now.shared.store.resources }
    {
        self.shared.store.count()
    }
}
