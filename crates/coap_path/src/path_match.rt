//! The state of matching a path, with which a built-in resource is found without a key.

ghost use Rattle.std.specs.Prelude.{◌≡◌};
ghost use Rattle.coap_path.specs.Prelude.{first_match, match_with, place_at};

use crate::resource_kind::ResourceKind;

/// State of matching the paths of the built-in resources with a path, after some of its segments.
#[derive(Clone, Copy, PartialEq, Eq)]
pub enum PathMatch {
    /// No segment yet: the root.
    Root,
    /// Path of `/time`.
    Time,
    /// Path of `/async`.
    Async,
    /// First segment of `/.well-known/core`.
    WellKnown,
    /// Path of `/.well-known/core`.
    Listing,
    /// No path of a built-in resource, whatever segments follow.
    Elsewhere,
}

/// Returns the state after a first segment.
fn first(segment: &[u8]) -> PathMatch
    ensures { result ≡ first_match segment.now }
{
    match segment {
        b"time" => PathMatch::Time,
        b"async" => PathMatch::Async,
        _ if segment == b".well-known".as_slice() => PathMatch::WellKnown,
        _ => PathMatch::Elsewhere,
    }
}

impl PathMatch {
    /// Returns the state after another segment.
    // Always inlined: each request with a path needs it.
    #[inline(always)]
    pub fn with(self, segment: &[u8]) -> PathMatch
        ensures { result ≡ match_with self segment.now }
    {
        match self {
            PathMatch::Root => first(segment),
            PathMatch::WellKnown => {
                if segment == b"core".as_slice() {
                    PathMatch::Listing
                } else {
                    PathMatch::Elsewhere
                }
            }
            _ => PathMatch::Elsewhere,
        }
    }

    /// Returns the kind of resource at a path with this state.
    pub fn kind(self) -> ResourceKind
        ensures { result ≡ place_at self }
    {
        match self {
            PathMatch::Root => ResourceKind::Root,
            PathMatch::Time => ResourceKind::Time,
            PathMatch::Async => ResourceKind::Async,
            PathMatch::Listing => ResourceKind::Listing,
            PathMatch::WellKnown | PathMatch::Elsewhere => ResourceKind::Dynamic,
        }
    }
}
