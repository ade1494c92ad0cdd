//! The times and the changes that may make something due on a connection of a server.

ghost use Rattle.std.specs.Prelude.{◌≡◌, ℕ, false, None, ◌+◌, ◌||◌, Some, length, nat_lt};
ghost use Rattle.coap_server_session.specs.Prelude.{sooner as lesser, IsUnaffected, ConcernsNone, due_on, IsBefore};
ghost use Rattle.coap_server_session.specs.Prelude.{next_notified as next_notified_of, has_come, may_touch};
ghost use Rattle.coap_server_session.specs.Prelude.{may_concern};
ghost use Rattle.coap_server_session.specs.Prelude.{last_hash, is_time_observer, list_any};

use super::Session;
use crate::cause::Cause;

impl Session {
    /// Returns `true` if a change may make something due on this connection at the time `now`, in seconds.
    ///
    /// - `Cause::Path`: an observer observes a path with that hash.
    /// - `Cause::Moment`: an observer observes the time, or a pending response became due after the previous time.
    #[tactic(auto, using(crate::proofs::values::ChainLemmas::none_observes))]
    pub fn is_touched(&self, cause: Cause, now: u64) -> bool
        ensures exact { result ≡ may_touch cause now self.now.session }
        ensures untouched { result ≡ false → IsUnaffected cause now self.now.session }
        ensures unmarked { result ≡ false → ConcernsNone cause self.now.session.observers }
    {
        match cause {
            Cause::Path(hash) => self.observers.may_observe(hash),
            Cause::Moment(before) => {
                self.observers.any_observes_time()
                    || (self.may_come_due() && self.comes_due(before, now))
            }
        }
    }

    /// Returns `true` if a change may make something due on this connection at some time.
    ///
    /// - `Cause::Path`: an observer observes a path with that hash.
    /// - `Cause::Moment`: an entry is pending, or an observer observes the time.
    pub fn may_be_touched(&self, cause: Cause) -> bool
        ensures { result ≡ may_concern cause self.now.session }
    {
        match cause {
            Cause::Path(hash) => self.observers.may_observe(hash),
            Cause::Moment(_) => self.may_come_due(),
        }
    }

    /// Returns the hash of the path of the last observer, or `None` if there is no observer.
    pub fn last_observed(&self) -> Option<u8>
        ensures { result ≡ last_hash self.now.session.observers }
    {
        self.observers.last_hash()
    }

    /// Returns `true` if time alone may make something due: an entry is pending, or an observer observes the time.
    fn may_come_due(&self) -> bool
        ensures exact { result
            ≡ (nat_lt 0 (length self.now.session.link.pending)
            || list_any is_time_observer self.now.session.observers) }
        ensures never { result ≡ false → (now : ℕ) → due_on now self.now.session ≡ None }
    {
        self.link.pending() > 0 || self.observers.any_observes_time()
    }

    /// Returns `true` if something became due after the time `before`, up to `now`.
    fn comes_due(&self, before: u64, now: u64) -> bool
        ensures exact { result ≡ has_come now (due_on before self.now.session) }
        ensures before { result ≡ false → IsBefore now (due_on before self.now.session) }
    {
        match self.due(before) {
            None => false,
            Some(due) => due <= now,
        }
    }

    /// Returns the next time, in seconds, at which time alone may make something due, or `None` if there is none.
    ///
    /// At that time a delayed response is due, or an observer of the time must be notified.
    pub fn due(&self, now: u64) -> Option<u64>
        ensures { result ≡ due_on now self.now.session }
    {
        sooner(self.link.next_moment(now), self.next_notified(now))
    }

    /// Returns the next second if an observer of the time must be notified then.
    fn next_notified(&self, now: u64) -> Option<u64>
        ensures { result ≡ next_notified_of now self.now.session.observers }
    {
        if !self.observers.any_observes_time() || now == u64::MAX {
            return None;
        }
        Some(now + 1)
    }
}

/// Returns the earlier of two times, or the only one that is present.
pub fn sooner(one: Option<u64>, other: Option<u64>) -> Option<u64>
    ensures { result ≡ lesser one other }
{
    let Some(second) = other else {
        return one;
    };
    match one {
        Some(first) => Some(first.min(second)),
        None => other,
    }
}
