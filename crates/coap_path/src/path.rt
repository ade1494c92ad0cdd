//! Paths of resources.

ghost use Rattle.std.specs.Prelude.{◌≡◌, ◌≤◌, ◌∷◌, true, [], Some, None, nat_le, if◌then◌else◌};
ghost use Rattle.std.specs.Cmp.Rules.{hashing};
ghost use Rattle.std.proofs.Common.{rules};
ghost use Rattle.coap_path.specs.Prelude.{list_any, is_dots, is_one_empty, is_path, written_length, segment_list};
ghost use Rattle.coap_path.specs.Prelude.{written, YieldsFirstBy, item_count};

use crate::uri_path::UriPath;
use arrayvec::ArrayVec;
use coap_wire::append_short;
use std::hash::{Hash, Hasher};
use std::marker::Model;

/// Maximum number of segments of a path.
const MAX_SEGMENTS: usize = 16;

/// Maximum number of bytes of a path. Each segment counts one byte more than it has.
const MAX_BYTES: usize = 255;

/// Returns `true` if a segment is `.` or `..`.
fn names_dots(segment: &[u8]) -> bool
    ensures { result ≡ is_dots segment.now }
{
    segment == b".".as_slice() || segment == b"..".as_slice()
}

/// Returns `true` if a segment of the list is `.` or `..`.
#[tactic(auto, using(crate::proofs::PathLemmas::any_segment))]
fn any_dots(segments: &[&[u8]]) -> bool
    ensures { result ≡ list_any is_dots (segment_list segments.now) }
{
    segments.iter().any(|segment| names_dots(segment))
}

/// Returns `true` if the list has one segment, which is empty.
fn only_empty(segments: &[&[u8]]) -> bool
    ensures { result ≡ is_one_empty (segment_list segments.now) }
{
    segments.len() == 1 && segments[0].is_empty()
}

/// Returns `true` if the segments fit in the bytes of a path.
fn fits(segments: &[&[u8]]) -> bool
    ensures { result ≡ nat_le (written_length (segment_list segments.now)) 255 }
{
    let mut room = MAX_BYTES;
    for segment in segments {
        if segment.len() >= room {
            return false;
        }
        room -= segment.len() + 1;
    }
    true
}

/// Returns `true` if these are the segments of a path.
#[tactic(auto, using(crate::proofs::PathLemmas::count_segments), unfolding(crate::specs::Paths::is_path))]
fn are_path(segments: &[&[u8]]) -> bool
    ensures { result ≡ is_path (segment_list segments.now) }
{
    segments.len() <= MAX_SEGMENTS && fits(segments) && !any_dots(segments) && !only_empty(segments)
}

/// Returns the segments, each after a byte with its length.
#[tactic(auto, using(crate::proofs::PathLemmas::bytes_of_steps), unfolding(crate::specs::PathViews::written))]
fn bytes_of(segments: &[&[u8]]) -> ArrayVec<u8, MAX_BYTES>
    requires { written_length (segment_list segments.now) ≤ 255 }
    ensures { result.items ≡ written (segment_list segments.now) }
{
    let mut bytes = ArrayVec::new();
    for segment in segments {
        bytes.push(segment.len() as u8);
        let Ok(()) = bytes.try_extend_from_slice(segment) else {
            unreachable!()
        };
    }
    bytes
}

/// Returns `true` if these are the segments of a path. In this case `bytes` has each segment after a byte with its
/// length. One pass checks and writes them.
#[tactic(auto, using(crate::proofs::FillLemmas::write_path_steps), unfolding(crate::specs::Paths::is_path, crate::specs::PathViews::written))]
fn write_path(bytes: &mut ArrayVec<u8, MAX_BYTES>, segments: UriPath) -> bool
    requires { bytes.old.items ≡ [] }
    ensures path { result ≡ is_path segments.entry }
    ensures written { result ≡ true → bytes.new.items ≡ written segments.entry }
{
    let mut count = 0;
    for segment in segments {
        if count == MAX_SEGMENTS
            || segment.len() >= MAX_BYTES - bytes.len()
            || names_dots(segment)
        {
            return false;
        }
        bytes.push(segment.len() as u8);
        append_short(bytes, segment);
        count += 1;
    }
    !(count == 1 && bytes.len() == 1)
}

/// Path of a resource: at most 16 segments, and at most 255 bytes, where each segment counts one byte more than it has.
///
/// No segment is `.` or `..`, and a single segment is not empty (RFC 7252 sections 5.10.1, 6.4). The root has no
/// segment. Contracts see the list of the segments, and two paths are equal if and only if their lists are.
///
/// # Examples
///
/// ```
/// let path = PathKey::from_segments(&[b"sensors", b"1"]);
/// assert!(&rt; path.is_some() && path != PathKey::from_segments(&[b"sensors/1"]));
/// assert!(&rt; PathKey::from_segments(&[b".."]).is_none());
/// ```
#[derive(Drop, PartialEq, Eq)]
pub struct PathKey {
    /// Segments, each after a byte with its length.
    bytes: ArrayVec<u8, MAX_BYTES>,
}

impl Model for PathKey {
    ghost use Rattle.coap_path.specs.Paths.{Path};

    ghost Value = { Path };

    ghost use Rattle.coap_path.specs.PathViews.{segments_in, is_key, key_of, key_back};

    ghost view = { segments_in };

    ghost invariant = { is_key };

    ghost inverse = { key_of };

    ghost inverse_ok = { key_back };
}

/// Feeds all bytes of a key at once. A derived implementation feeds them one by one, which costs more.
impl Hash for PathKey {
    ghost hash_input = { λ path. written path ∷ [] };

    ghost respects_eq = { Prim.search (hashing, rules) };

    fn hash<H: Hasher>(&self, state: &mut H) {
        state.write(self.written());
    }
}

impl PathKey {
    /// Returns the path of the root, which has no segment.
    #[tactic(auto, unfolding(crate::specs::Paths::is_path, crate::specs::PathViews::written, crate::specs::PathViews::segments_at, crate::specs::PathViews::segments_by))]
    pub fn root() -> PathKey
        ensures { result ≡ [] }
    {
        PathKey {
            bytes: ArrayVec::new(),
        }
    }

    /// Returns `true` if these are the segments of a path, and sets the key to that path: see the limits of `PathKey`.
    /// If it returns `false`, the path of the key is not specified.
    ///
    /// A key is large and costly to move, so this fills it in place.
    #[tactic(auto, using(crate::proofs::PathLemmas::segments_written), unfolding(crate::specs::Paths::is_path, crate::specs::PathViews::written, crate::specs::PathViews::segments_at, crate::specs::PathViews::segments_by))]
    pub fn fill(&mut self, segments: UriPath) -> bool
        ensures path { result ≡ is_path segments.entry }
        ensures filled { result ≡ true → self.new ≡ segments.entry }
    {
        self.bytes.clear();
        let is_path = write_path(&mut self.bytes, segments);
        if !is_path {
            self.bytes.clear();
        }
        is_path
    }

    /// Returns the path with these segments, or `None` if a path cannot have them: see the limits of `PathKey`.
    ///
    /// A slash in a segment is a byte like any other. The segment `a/b` and the two segments `a` and `b` are different
    /// paths (RFC 7252 section 5.10.1).
    #[tactic(auto, using(crate::proofs::PathLemmas::segments_written, crate::proofs::PathLemmas::path_fits))]
    pub fn from_segments(segments: &[&[u8]]) -> Option<PathKey>
        ensures { result ≡ (if is_path (segment_list segments.now) then Some (segment_list segments.now) else None) }
    {
        if !are_path(segments) {
            return None;
        }
        Some(PathKey {
            bytes: bytes_of(segments),
        })
    }

    /// Returns a copy, without allocation.
    pub fn duplicate(&self) -> PathKey
        ensures { result ≡ self.now }
    {
        let Ok(bytes) = ArrayVec::try_from(self.bytes.as_slice()) else {
            unreachable!()
        };
        PathKey { bytes }
    }

    /// Reads the key, which gives its invariant to the proof of a caller. Does nothing else.
    pub fn is_kept(&self)
        ensures { is_path self.now ≡ true }
    {
        let _read = self.bytes.as_slice();
    }

    /// Returns the segments as bytes, each after a byte with its length.
    pub(crate) fn written(&self) -> &[u8]
        ensures { result.now ≡ written self.now }
    {
        self.bytes.as_slice()
    }

    /// Returns an iterator over the segments, in order.
    pub fn segments(&self) -> Segments<'_>
        ensures value { result ≡ self.now }
        ensures path { is_path self.now ≡ true }
    {
        Segments {
            rest: self.bytes.as_slice(),
        }
    }
}

/// Iterator over the segments of a path, in order. Contracts see the list of the remaining segments.
#[derive(Drop)]
pub struct Segments<'a> {
    /// Remaining segments, each after a byte with its length.
    rest: &'a [u8],
}

impl<'a> Model for Segments<'a> {
    ghost use Rattle.coap_path.specs.Paths.{Path};
    ghost use Rattle.coap_path.specs.PathViews.{IsWritten, segments_at};

    ghost Value = { Path };

    ghost view = { λ s. segments_at s.rest.now };

    ghost invariant = { λ s. IsWritten s.rest.now };
}

impl<'a> Iterator for Segments<'a> {
    type Item = &'a [u8];

    ghost next_gives = { YieldsFirstBy (λ segment. segment.now) (λ segments. segments) };

    ghost remaining = { item_count (λ segments. segments) };

    #[tactic(auto, using(crate::proofs::PathLemmas::no_segment_left, crate::proofs::PathLemmas::first_segment))]
    fn next(&mut self) -> Option<&'a [u8]> {
        let (length, after) = self.rest.split_first()?;
        let (segment, rest) = after.split_at(usize::from(*length));
        self.rest = rest;
        Some(segment)
    }
}
