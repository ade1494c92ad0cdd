//! The registrations of a directory.

ghost use Rattle.std.specs.Prelude.{◌≡◌, ◌<◌, ◌≤◌, ◌^◌, [], Some, IfOk, OnOk, OnErr, IfSome, fold, nat_le, true};
ghost use Rattle.std.specs.List.{list_all};
ghost use Rattle.std.specs.List.Sorted.{IsStrictlySortedBy};
ghost use Rattle.std.specs.Ordering.{nat_cmp};
ghost use Rattle.std.specs.Map.{lookup, keys_of};
ghost use Rattle.std.specs.Cmp.Lexicographic.{pointwise};
ghost use Rattle.directory_links.specs.Links.{is_attribute};
ghost use Rattle.directory_registry.specs.Prelude.{found_at, place_of, registered_at, expired, removed, has_location};
ghost use Rattle.directory_registry.specs.Prelude.{registration_of};
ghost use Rattle.directory_registry.specs.Prelude.{criteria_of, offered_links, offered_endpoint, registrations};
ghost use Rattle.directory_registry.specs.Prelude.{updated, attributed, renewed, registered, next_location, number_in};
ghost use Rattle.directory_registry.specs.Prelude.{all_counted};
ghost use Rattle.directory_registry.specs.Prelude.{counted, counted_at, Each, IsFound, exact_name, is_number};
ghost use Rattle.directory_registry.specs.Prelude.{without_label, registration_label};
ghost use Rattle.std.specs.Prelude.{option_map, nat_eq, filter, is_some};

use crate::candidates::Labels;
use crate::criterion::Criterion;
use crate::label::{label_of, label_of_parts, pack, requested_name};
use crate::listing::Listing;
use crate::offers::{offer_all, offer_candidates};
use crate::registration::{EndpointKey, Entries, Registration, Stored};
use directory_links::{AttributeText, Attributes};
use indexmap::IndexMap;
use std::alloc::{AllocError, Global};
use std::collections::BTreeMap;
use std::marker::Model;
use std::mem::replace;

/// Numbers of locations by the keys of the endpoints.
type Numbers = IndexMap<EndpointKey, u64>;

/// Registrations of a directory, in the order in which their endpoints were first registered. Contracts see a
/// `RegistryValue`.
///
/// The cost of a call is logarithmic in the number of registrations, except in two cases. `expire` reads all
/// registrations if one may have ended. A lookup reads all unless it asks for one name of an endpoint.
#[derive(Drop)]
pub struct Registry {
    /// In the order of their numbers, which is that of the first registrations.
    entries: Entries,
    numbers: Numbers,
    labels: Labels,
    /// Number of the next new location.
    next: u64,
    /// Maximum number of registrations.
    limit: usize,
    /// No registration ends before this time.
    earliest: u64,
}

impl Model for Registry {
    ghost use Rattle.directory_registry.specs.Registrations.{RegistryValue};

    ghost Value = { RegistryValue };

    ghost use Rattle.directory_registry.specs.RegistryViews.{registry_of, IsRegistry};

    ghost view = { registry_of };

    ghost invariant = { IsRegistry };
}

impl Registry {
    /// Creates a registry for at most `limit` registrations, and allocates nothing.
    pub fn new(alloc: Global, limit: usize) -> Registry
        ensures { result ≡ record { entries = []; next = 1; limit = limit } }
    {
        Registry {
            entries: BTreeMap::new(alloc),
            numbers: IndexMap::new(alloc),
            labels: BTreeMap::new(alloc),
            next: 1,
            limit,
            earliest: u64::MAX,
        }
    }

    /// Returns the number of the location that a registration of this endpoint gets: that of its present registration,
    /// or a new one. Returns `None` if the limit of registrations is reached.
    pub fn place(&self, key: &EndpointKey) -> Option<u64>
        ensures { result ≡ place_of self.now key.now.items }
    {
        if let Some(number) = number_of(&self.entries, &self.numbers, key) {
            return Some(number);
        }
        if self.entries.len() >= self.limit {
            return None;
        }
        if self.next == u64::MAX {
            return None;
        }
        Some(self.next)
    }

    /// Returns `true` if a registration has the location with this number.
    pub fn has(&self, number: u64) -> bool
        ensures { result ≡ has_location self.now number }
    {
        self.entries.contains_key(&number)
    }

    /// Returns the attributes of the endpoint at a location, or `None` if there is none.
    pub fn attributes(&self, number: u64) -> Option<Attributes<'_>>
        ensures all { result ≡ option_map (λ r. r.attributes) (found_at self.now.entries number) }
        ensures each { IfSome result (λ list. list_all is_attribute list ≡ true) }
    {
        let Some(stored) = self.entries.get(&number) else {
            return None;
        };
        Some(stored.registration.attributes.attributes())
    }

    /// Stores the registration of an endpoint at the location that `place` gives, and returns the number of the
    /// location. It replaces a present one and keeps its place. Returns `None`, and stores nothing, if the limit of
    /// registrations is reached.
    ///
    /// # Errors
    ///
    /// - `AllocError` if allocation fails. The registrations are unchanged.
    pub fn register(
        &mut self,
        key: EndpointKey,
        mut registration: Registration,
    ) -> Result<Option<u64>, AllocError>
        ensures place { IfOk result (λ n. n ≡ place_of self.old key.items) }
        ensures ok { OnOk result
            (self.new ≡ registered_at (place_of self.old key.items) self.old key.items (registration_of registration)) }
        ensures err { OnErr result (self.new ≡ self.old) }
    {
        let Some(number) = self.place(&key) else {
            return Ok(None);
        };
        registration.number = number;
        self.store(number, key, registration)?;
        Ok(Some(number))
    }

    /// Stores the registration of an endpoint at its location.
    ///
    /// # Errors
    ///
    /// - `AllocError` if allocation fails. The registrations are unchanged.
    fn store(
        &mut self,
        number: u64,
        key: EndpointKey,
        registration: Registration,
    ) -> Result<(), AllocError>
        requires place { place_of self.old key.items ≡ Some number }
        requires number { registration.number ≡ number }
        ensures ok { OnOk result (self.new ≡ registered self.old key.items (registration_of registration)) }
        ensures err { OnErr result (self.new ≡ self.old) }
    {
        let label = label_of(&registration);
        let earliest = earlier(registration.deadline, self.earliest);
        let next = next_after(self.next, number);
        let copy = copy_of(&key);
        self.numbers.reserve(1)?;
        self.labels.insert(pack(label, number), number)?;
        let old = self.entries.insert(
            number,
            Stored {
                key: copy,
                registration,
            },
        )?;
        let Ok(_) = self.numbers.insert(key, number) else {
            unreachable!()
        };
        forget_label(&mut self.labels, &old, label, number);
        self.earliest = earliest;
        self.next = next;
        Ok(())
    }

    /// Removes the registrations that have ended. Reads all of them if one may have ended, and none otherwise.
    pub fn expire(&mut self, now: u64)
        ensures { self.new ≡ expired self.old now }
    {
        if now < self.earliest {
            return;
        }
        self.entries
            .retain(|_, stored| now < stored.registration.deadline);
        keep_numbers(&mut self.numbers, &self.entries);
        keep_labels(&mut self.labels, &self.entries);
        self.earliest = earliest_deadline(&self.entries);
    }

    /// Renews the registration at a location from this time on, with its lifetime and base URI or with new ones.
    /// Returns `false` if there is none.
    ///
    /// # Preconditions
    ///
    /// - The time is below 2^63.
    pub fn update(
        &mut self,
        number: u64,
        now: u64,
        lifetime: Option<u32>,
        base: Option<Vec<u8>>,
    ) -> bool
        requires { now < 2 ^ 63 }
        ensures found { result ≡ has_location self.old number }
        ensures after { self.new ≡ updated self.old number now lifetime (option_map (λ b. b.items) base) }
    {
        let Some(stored) = self.entries.get_mut(&number) else {
            return false;
        };
        let deadline = change(&mut stored.registration, now, lifetime, base);
        self.earliest = earlier(deadline, self.earliest);
        true
    }

    /// Replaces the attributes of the endpoint at a location. Returns `false` if there is none.
    ///
    /// # Errors
    ///
    /// - `AllocError` if allocation fails. The registrations are unchanged.
    pub fn set_attributes(
        &mut self,
        number: u64,
        attributes: AttributeText,
    ) -> Result<bool, AllocError>
        ensures found { IfOk result (λ r. r ≡ has_location self.old number) }
        ensures ok { OnOk result (self.new ≡ attributed self.old number attributes) }
        ensures err { OnErr result (self.new ≡ self.old) }
    {
        let Some(stored) = self.entries.get(&number) else {
            return Ok(false);
        };
        let old = label_of(&stored.registration);
        let label = label_of_parts(&attributes, &stored.registration.links);
        self.labels.insert(pack(label, number), number)?;
        let Some(stored) = self.entries.get_mut(&number) else {
            unreachable!()
        };
        stored.registration.attributes = attributes;
        forget_other(&mut self.labels, old, label, number);
        Ok(true)
    }

    /// Removes the registration at a location. Returns `false` if there is none.
    pub fn remove(&mut self, number: u64) -> bool
        ensures found { result ≡ has_location self.old number }
        ensures after { self.new ≡ removed self.old number }
    {
        let Some(stored) = self.entries.remove(&number) else {
            return false;
        };
        self.labels
            .remove(&pack(label_of(&stored.registration), number));
        self.numbers.swap_remove(&stored.key);
        true
    }

    /// Counts the links that the criteria select, and appends those in the part of the listing. Reads only the
    /// registrations with the name of an endpoint, if a criterion asks for one.
    pub fn list_resources(&self, criteria: &[Criterion], listing: &mut Listing)
        ensures { listing.new ≡ fold (offered_links (criteria_of criteria.now)) listing.old (registrations self.now) }
    {
        self.list(false, criteria, listing);
    }

    /// Counts the endpoints that the criteria select, and appends the links of those in the part of the listing. Reads
    /// only the registrations with the name of an endpoint, if a criterion asks for one.
    pub fn list_endpoints(&self, criteria: &[Criterion], listing: &mut Listing)
        ensures { listing.new
            ≡ fold (offered_endpoint (criteria_of criteria.now)) listing.old (registrations self.now) }
    {
        self.list(true, criteria, listing);
    }

    /// Counts the endpoints or the links that the criteria select, and appends those in the part.
    fn list(&self, endpoints: bool, criteria: &[Criterion], listing: &mut Listing)
        ensures { listing.new
            ≡ fold (counted endpoints (criteria_of criteria.now)) listing.old (registrations self.now) }
    {
        let Some(name) = requested_name(criteria) else {
            offer_all(&self.entries, endpoints, criteria, listing);
            return;
        };
        offer_candidates(
            &self.entries,
            &self.labels,
            name,
            endpoints,
            criteria,
            listing,
        );
    }
}

/// Returns a copy of a key.
fn copy_of(key: &EndpointKey) -> EndpointKey
    ensures { result.items ≡ key.now.items }
{
    let mut copy = EndpointKey::new();
    let Ok(()) = copy.try_extend_from_slice(key) else {
        unreachable!()
    };
    copy
}

/// Returns the number of the location of an endpoint, if it is registered.
fn number_of(entries: &Entries, numbers: &Numbers, key: &EndpointKey) -> Option<u64>
    ensures { result ≡ number_in key.now.items
        (lookup (λ k. pointwise nat_eq key.now.items k.items) numbers.now.entries) entries.now.entries }
{
    let Some(number) = numbers.get(key) else {
        return None;
    };
    let Some(stored) = entries.get(number) else {
        return None;
    };
    if stored.key.as_slice() != key.as_slice() {
        return None;
    }
    Some(*number)
}

/// Returns the earlier of two times.
fn earlier(first: u64, second: u64) -> u64
    ensures first { result ≤ first }
    ensures second { result ≤ second }
{
    if first < second { first } else { second }
}

/// Returns the number of the next new location, after a registration at this one.
fn next_after(next: u64, number: u64) -> u64
    ensures { result ≡ next_location next number }
{
    if number < next {
        return next;
    }
    if number == u64::MAX {
        number
    } else {
        number + 1
    }
}

/// Returns a time before which no registration ends.
fn earliest_deadline(entries: &Entries) -> u64
    ensures { list_all (λ e. nat_le result e.1.registration.deadline) entries.now.entries ≡ true }
{
    let mut earliest = u64::MAX;
    for (_, stored) in entries.iter() {
        earliest = earlier(stored.registration.deadline, earliest);
    }
    earliest
}

/// Renews a registration, and returns the time at which it ends.
fn change(
    registration: &mut Registration,
    now: u64,
    lifetime: Option<u32>,
    base: Option<Vec<u8>>,
) -> u64
    requires { now < 2 ^ 63 }
    ensures after { registration_of registration.new
        ≡ renewed now lifetime (option_map (λ b. b.items) base) (registration_of registration.old) }
    ensures deadline { result ≡ registration.new.deadline }
{
    if let Some(lifetime) = lifetime {
        registration.lifetime = lifetime;
    }
    registration.deadline = now + u64::from(registration.lifetime);
    if let Some(base) = base {
        registration.base = base;
    }
    registration.deadline
}

/// Removes the label of a registration that was replaced, unless the new one has it.
fn forget_label(labels: &mut Labels, replaced: &Option<Stored>, label: u64, number: u64)
    ensures { labels.new.entries
        ≡ without_label (option_map (λ s. registration_label (registration_of s.registration)) replaced.now)
        label number labels.old.entries }
{
    if let Some(replaced) = replaced {
        forget_other(labels, label_of(&replaced.registration), label, number);
    }
}

/// Removes the former label of a registration, unless the new one is the same.
fn forget_other(labels: &mut Labels, old: u64, label: u64, number: u64)
    requires { old < 549755813888 }
    ensures { labels.new.entries ≡ without_label (Some old) label number labels.old.entries }
{
    if old != label {
        labels.remove(&pack(old, number));
    }
}

/// Removes the keys of the endpoints that are no longer registered.
fn keep_numbers(numbers: &mut Numbers, entries: &Entries)
    ensures { numbers.new.entries
        ≡ filter (λ e. is_some (lookup (is_number e.1) entries.now.entries)) numbers.old.entries }
{
    numbers.retain(|_, number| entries.contains_key(&*number));
}

/// Removes the labels of the registrations that have ended.
fn keep_labels(labels: &mut Labels, entries: &Entries)
    ensures { labels.new.entries
        ≡ filter (λ e. is_some (lookup (is_number e.1) entries.now.entries)) labels.old.entries }
{
    labels.retain(|_, number| entries.contains_key(&*number));
}
