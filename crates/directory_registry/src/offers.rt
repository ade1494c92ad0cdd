//! The registrations that a lookup reads.

ghost use Rattle.std.specs.Prelude.{◌≡◌, Some};
ghost use Rattle.std.specs.List.Sorted.{IsStrictlySortedBy};
ghost use Rattle.std.specs.Ordering.{nat_cmp};
ghost use Rattle.std.specs.Map.{keys_of};
ghost use Rattle.directory_registry.specs.Prelude.{criteria_of, registration_of, all_counted, counted, counted_at};
ghost use Rattle.directory_registry.specs.Prelude.{Each};
ghost use Rattle.directory_registry.specs.Prelude.{IsFound, exact_name};

use crate::candidates::{Labels, next_candidate};
use crate::criterion::Criterion;
use crate::label::label_of_name;
use crate::listing::Listing;
use crate::registration::{Entries, Registration};
use crate::results::{offer_endpoint, offer_links};

/// Counts a registration: its endpoint or its links, and appends those in the part.
fn offer(
    listing: &mut Listing,
    endpoints: bool,
    criteria: &[Criterion],
    registration: &Registration,
)
    ensures { listing.new
        ≡ counted endpoints (criteria_of criteria.now) listing.old (registration_of registration.now) }
{
    if endpoints {
        offer_endpoint(listing, criteria, registration);
    } else {
        offer_links(listing, criteria, registration);
    }
}

/// Counts all registrations, and appends those in the part.
pub(crate) fn offer_all(
    entries: &Entries,
    endpoints: bool,
    criteria: &[Criterion],
    listing: &mut Listing,
)
    ensures { listing.new ≡ all_counted endpoints (criteria_of criteria.now) listing.old entries.now.entries }
{
    for (_, stored) in entries.iter() {
        offer(listing, endpoints, criteria, &stored.registration);
    }
}

/// Counts the registration at a location, if there is one.
fn offer_at(
    entries: &Entries,
    number: u64,
    endpoints: bool,
    criteria: &[Criterion],
    listing: &mut Listing,
)
    ensures { listing.new ≡ counted_at endpoints (criteria_of criteria.now) entries.now.entries number listing.old }
{
    if let Some(stored) = entries.get(&number) {
        offer(listing, endpoints, criteria, &stored.registration);
    }
}

/// Counts the registrations that can have the name of an endpoint that the criteria ask for.
pub(crate) fn offer_candidates(
    entries: &Entries,
    labels: &Labels,
    name: &[u8],
    endpoints: bool,
    criteria: &[Criterion],
    listing: &mut Listing,
)
    requires ordered { IsStrictlySortedBy nat_cmp (keys_of entries.now.entries) }
    requires labelled { Each (IsFound labels.now.entries) entries.now.entries }
    requires requested { exact_name (criteria_of criteria.now) ≡ Some name.now }
    ensures { listing.new ≡ all_counted endpoints (criteria_of criteria.now) listing.old entries.now.entries }
{
    let label = label_of_name(name);
    let mut from: u128 = 0;
    while let Some(number) = next_candidate(labels, label, from) {
        offer_at(entries, number, endpoints, criteria, listing);
        from = u128::from(number) + 1;
    }
}
