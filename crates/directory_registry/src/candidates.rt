//! The registrations that a lookup of one endpoint reads.

ghost use Rattle.std.specs.Prelude.{◌≡◌, ◌<◌, ◌≤◌, ◌^◌};
ghost use Rattle.directory_registry.specs.Prelude.{IsNextWith, IsNextCandidate};

use crate::label::{ANY, pack};
use std::collections::BTreeMap;

/// Numbers of locations by the labels of their registrations.
pub(crate) type Labels = BTreeMap<u128, u64>;

/// Returns the smallest number of a location from this one on that has the label.
fn next_with(labels: &Labels, label: u64, from: u128) -> Option<u64>
    requires small { label < 549755813888 }
    requires within { from ≤ 2 ^ 64 }
    ensures { IsNextWith labels.now.entries label from result }
{
    let first = pack(label, 0);
    let Some((found, _)) = labels.range(first + from..).next() else {
        return None;
    };
    let number = *found - first;
    if number > 18_446_744_073_709_551_615 {
        return None;
    }
    Some(number as u64)
}

/// Returns the smallest number of a location from this one on that has the label, or `ANY`.
pub(crate) fn next_candidate(labels: &Labels, label: u64, from: u128) -> Option<u64>
    requires small { label < 549755813888 }
    requires within { from ≤ 2 ^ 64 }
    ensures { IsNextCandidate labels.now.entries label from result }
{
    let Some(named) = next_with(labels, label, from) else {
        return next_with(labels, ANY, from);
    };
    let Some(any) = next_with(labels, ANY, from) else {
        return Some(named);
    };
    if any < named { Some(any) } else { Some(named) }
}
