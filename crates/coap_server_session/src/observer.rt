//! One observer of a connection (RFC 7641).

ghost use Rattle.std.specs.Prelude.{◌≡◌};
ghost use Rattle.coap_server_session.specs.Prelude.{linked, previous_in, IsTagged, present_mark, changed_mark};
ghost use Rattle.coap_server_session.specs.Prelude.{unsent_by as mark_unsent_by, observer_value, kind_of_path};

use crate::cause::Cause;
use crate::server_state::ServerState;
use coap_store::{PathKey, ResourceKind};
use coap_wire::Token;

/// Observer entry of a connection. Contracts see an `ObserverValue`.
#[derive(Drop)]
pub(crate) struct Observer {
    /// Token of the request that added the entry.
    pub token: Token,
    /// Path of the observed resource.
    pub path: PathKey,
    /// Content-Format of the representation sent last, if it had one.
    pub format: Option<u16>,
    /// Mark of the state sent last, see `ServerState::mark`.
    pub mark: u64,
    /// Hash of `path`.
    pub hash: u8,
    /// Index that the resource had when the observer was notified last. It may have another one now.
    pub index: usize,
    /// `true` if `path` is `/time`, the only built-in resource that is observable.
    pub of_time: bool,
    /// Changed mark: `None` if the current state was sent last, otherwise the mark of the current state. If the path is
    /// absent, the changed mark is 0.
    pub changed: Option<u64>,
    /// Index of the nearest earlier observer whose path has the same hash.
    pub previous: Option<u8>,
    /// Index of the nearest earlier observer of `/time`, if `path` is `/time`.
    pub previous_of_time: Option<u8>,
}

impl Observer {
    /// Returns the index of the nearest earlier observer in the chain of `cause`.
    pub(crate) fn previous(&self, cause: Cause) -> Option<u8>
        ensures { result ≡ previous_in cause (linked self.now) }
    {
        match cause {
            Cause::Path(_) => self.previous,
            Cause::Moment(_) => self.previous_of_time,
        }
    }

    /// Returns the mark of the current state of the path, or `None` if the path is absent.
    #[tactic(auto, using(crate::proofs::values::MarkLemmas::built_in_mark))]
    pub(crate) fn present(&self, shared: &ServerState) -> Option<u64>
        requires { IsTagged self.now }
        ensures { result ≡ present_mark shared.entry.now self.now.path }
    {
        if self.of_time {
            return Some(shared.now);
        }
        shared.mark(&self.path, self.index)
    }

    /// Returns the kind of the path.
    #[tactic(auto, using(coap_store::proofs::AnswerLaws::place_dynamic))]
    pub(crate) fn kind(&self) -> ResourceKind
        requires { IsTagged self.now }
        ensures { result ≡ kind_of_path self.now.path }
    {
        if self.of_time {
            return self.path.kind();
        }
        ResourceKind::Dynamic
    }

    /// Returns the same as `present`. If the path is `known`, whose mark is `present`, the store is not read.
    #[tactic(auto, using(coap_path::proofs::PathLemmas::keys_equal))]
    fn present_by(&self, known: &PathKey, present: Option<u64>, shared: &ServerState) -> Option<u64>
        requires tagged { IsTagged self.now }
        requires present { present ≡ present_mark shared.now known.now }
        ensures { result ≡ present_mark shared.entry.now self.now.path }
    {
        if !self.of_time && self.path == *known {
            return present;
        }
        self.present(shared)
    }

    /// Returns the changed mark that this observer must have now.
    #[tactic(auto, using(crate::proofs::values::MarkLemmas::unsent_is_changed))]
    pub(crate) fn changed_by(
        &self,
        known: &PathKey,
        present: Option<u64>,
        shared: &ServerState,
    ) -> Option<u64>
        requires tagged { IsTagged self.now }
        requires present { present ≡ present_mark shared.now known.now }
        ensures { result ≡ changed_mark shared.entry.now (observer_value self.now) }
    {
        unsent_by(self.present_by(known, present, shared), self.mark)
    }
}

/// Returns the changed mark of an observer: `None` if `present` and `reported` are equal, 0 if the path is absent,
/// otherwise `present`.
///
/// `present` is the mark of the current state, and `reported` that of the state sent last.
pub(crate) fn unsent_by(present: Option<u64>, reported: u64) -> Option<u64>
    ensures { result ≡ mark_unsent_by present reported }
{
    match present {
        None => Some(0),
        Some(mark) => { if mark == reported { None } else { Some(mark) } }
    }
}
