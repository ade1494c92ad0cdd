//! The first segments of the path of a request.

ghost use Rattle.std.specs.Prelude.{◌≡◌, length, take};
ghost use Rattle.coap_path.specs.Prelude.{begins_with, kind_of_path, segment_list};

use crate::path::PathKey;
use crate::path_match::PathMatch;
use crate::resource_kind::ResourceKind;
use crate::uri_path::UriPath;
use arrayvec::ArrayVec;

/// Maximum number of segments of a prefix.
const MAX_SEGMENTS: usize = 16;

/// Returns the first 16 segments of a path. They decide which prefixes the path begins with.
#[tactic(auto, using(crate::proofs::PathStartLemmas::first_segments_steps))]
pub(crate) fn first_segments<'r>(path: UriPath<'r>) -> ArrayVec<&'r [u8], MAX_SEGMENTS>
    ensures { segment_list result.items ≡ take 16 path.entry }
{
    let mut first = ArrayVec::new();
    for segment in path {
        if first.len() == MAX_SEGMENTS {
            return first;
        }
        first.push(segment);
    }
    first
}

/// Returns the kind of resource that a path names.
#[tactic(auto, using(crate::proofs::MatchLemmas::place_by_match, std::proofs::lemmas::Grind::common_steps))]
pub(crate) fn kind_of(path: &[&[u8]]) -> ResourceKind
    ensures { result ≡ kind_of_path (segment_list path.now) }
{
    let mut state = PathMatch::Root;
    for segment in path {
        state = state.with(segment);
    }
    state.kind()
}

/// Returns `true` if a path begins with the segments of a prefix.
pub(crate) fn begins(prefix: &PathKey, path: &[&[u8]]) -> bool
    ensures { result ≡ begins_with prefix.now (segment_list path.now) }
{
    let mut index = 0;
    for segment in prefix.segments() {
        if index == path.len() || segment != path[index] {
            return false;
        }
        index += 1;
    }
    true
}

/// Returns the number of segments of a prefix.
#[tactic(auto, using(crate::proofs::PathLemmas::few_segments))]
pub(crate) fn segment_count(prefix: &PathKey) -> usize
    ensures { result ≡ length prefix.now }
{
    let mut count = 0;
    for _segment in prefix.segments() {
        count += 1;
    }
    count
}
