//! The kinds of resources.
//!
//! To add a built-in resource:
//!
//! 1. Add its path here, to `path_match.rt`, to `ResourceKinds.antt` and `PathMatches.antt`, and a clause to
//!    `built_in_resources_stay` (`laws.rt`).
//! 2. Add its state to `found_at` (`coap_store/src/answer.rt`) and `state_at`, its link to `BUILT_IN_TEXT` and
//!    `built_in_bytes`. The bound 16423 of the links then grows.
//! 3. To make it observable, change `is_observable`. `Observer::of_time` and `is_time_observer`
//!    (`coap_server_session`) mean `/time`, and `mark_at` makes each second a new state.
//! 4. Add its path to `built_in` of `gateway/mqtt/options.c`, which no test compares, and of
//!    `tests/harness/c_library.c`.
//! 5. All files of `git grep -l 'time>;ct=0;obs'` have the links. Then the manual coap-server(1), docs/MODEL.md and
//!    docs/EMBEDDING_C.md.

ghost use Rattle.std.specs.Prelude.{◌≡◌};
ghost use Rattle.coap_path.specs.Prelude.{kind_of_path as place_named, is_dynamic as is_dynamic_place};
ghost use Rattle.coap_path.specs.Prelude.{is_async as is_async_place, is_observable as is_observable_place};

use crate::path::PathKey;

/// Kind of resource that a path names: one of the built-in resources, or a created resource, which may be absent.
#[derive(Clone, Copy, PartialEq, Eq)]
pub enum ResourceKind {
    /// Root, with a fixed greeting.
    Root,
    /// Resource `/time`: the time of the server in seconds.
    Time,
    /// Resource `/async`, whose responses are delayed.
    Async,
    /// Listing of all resources at `/.well-known/core` (RFC 6690 section 4).
    Listing,
    /// Resource at any other path.
    Dynamic,
}

impl ResourceKind {
    /// Returns `true` if the resource is not built in.
    pub fn is_dynamic(self) -> bool
        ensures { result ≡ is_dynamic_place self }
    {
        self == ResourceKind::Dynamic
    }

    /// Returns `true` if responses of the resource are delayed.
    pub fn is_async(self) -> bool
        ensures { result ≡ is_async_place self }
    {
        self == ResourceKind::Async
    }

    /// Returns `true` if the resource can be observed (RFC 7641 section 1.2).
    pub fn is_observable(self) -> bool
        ensures { result ≡ is_observable_place self }
    {
        self == ResourceKind::Time || self == ResourceKind::Dynamic
    }
}

impl PathKey {
    /// Returns the kind of resource that the path names.
    #[tactic(auto, using(crate::proofs::PlaceLemmas::kind_by_bytes), unfolding(crate::specs::PathViews::written))]
    pub fn kind(&self) -> ResourceKind
        ensures { result ≡ place_named self.now }
    {
        let written = self.written();
        if written.is_empty() {
            return ResourceKind::Root;
        }
        if written == b"\x04time".as_slice() {
            return ResourceKind::Time;
        }
        if written == b"\x05async".as_slice() {
            return ResourceKind::Async;
        }
        if written == b"\x0b.well-known\x04core".as_slice() {
            return ResourceKind::Listing;
        }
        ResourceKind::Dynamic
    }
}
