//! Theorems on all registries. Each is the contract of a function with an empty body.

ghost use Rattle.std.specs.Prelude.{◌≡◌, ◌≢◌, ◌+◌, ◌*◌, ◌<◌, ◌≤◌, ◌++◌, take, ℕ, List, Option, Some, None, false, fold};
ghost use Rattle.std.specs.Prelude.{nat_eq};
ghost use Rattle.std.specs.Cmp.Lexicographic.{pointwise};
ghost use Rattle.directory_links.specs.Links.{Attribute, Link, links_text};
ghost use Rattle.directory_registry.specs.Prelude.{CriterionValue, ListingValue, PageValue, started, registrations};
ghost use Rattle.directory_registry.specs.Prelude.{part_of};
ghost use Rattle.directory_registry.specs.Prelude.{offered_endpoint, offered_links, endpoints_found, resources_found};
ghost use Rattle.directory_registry.specs.Prelude.{RegistryValue, RegistrationValue, Reached, AreDistinct, found};
ghost use Rattle.directory_registry.specs.Prelude.{place_of};
ghost use Rattle.directory_registry.specs.Prelude.{registered_at, expired, removed, attributed, updated};

/// States that a registry never has an endpoint or a location twice, and that a new location is above all others.
#[tactic(auto, using(crate::proofs::ReachedLemmas::distinct))]
pub fn endpoints_and_locations_are_distinct()
    ensures { (v : RegistryValue) → Reached v → AreDistinct v.next v.entries }
{}

/// States that a registration is found at each time below its end, and at none from it on (RFC 9176 section 5).
#[tactic(auto, using(crate::proofs::FoundLemmas::lives, crate::proofs::FoundLemmas::ends))]
pub fn registrations_end_with_their_lifetimes()
    ensures before { (v : RegistryValue) (key : List ℕ) (r : RegistrationValue) (now : ℕ) →
        found v.entries key ≡ Some r → now < r.deadline → found (expired v now).entries key ≡ Some r }
    ensures after { (v : RegistryValue) → Reached v → (key : List ℕ) (r : RegistrationValue) (now : ℕ) →
        found v.entries key ≡ Some r → r.deadline ≤ now → found (expired v now).entries key ≡ None }
{}

/// States that the registration of an endpoint is its last one, and that a repeated registration keeps the location
/// (RFC 9176 section 5).
#[tactic(auto, using(crate::proofs::FoundLemmas::keeps_location, crate::proofs::FoundLemmas::is_last))]
pub fn repeated_registrations_keep_the_location()
    ensures location { (v : RegistryValue) (key : List ℕ) (old : RegistrationValue) →
        found v.entries key ≡ Some old → place_of v key ≡ Some old.number }
    ensures last { (v : RegistryValue) (key : List ℕ) (r : RegistrationValue) (number : ℕ) →
        place_of v key ≡ Some number →
        found (registered_at (place_of v key) v key r).entries key ≡ Some (record r { number = number }) }
{}

/// States that no call changes the registrations of other endpoints.
#[tactic(auto, using(crate::proofs::FoundLemmas::others_registered, crate::proofs::FoundLemmas::others_updated, crate::proofs::FoundLemmas::others_attributed, crate::proofs::FoundLemmas::others_removed))]
pub fn other_endpoints_stay()
    ensures registered { (v : RegistryValue) (key other : List ℕ) (r : RegistrationValue) →
        pointwise nat_eq other key ≡ false →
        found (registered_at (place_of v key) v key r).entries other ≡ found v.entries other }
    ensures updated { (v : RegistryValue) (number now : ℕ) (lifetime : Option ℕ) (base : Option (List ℕ))
        (other : List ℕ) (r : RegistrationValue) → found v.entries other ≡ Some r → r.number ≢ number →
        found (updated v number now lifetime base).entries other ≡ Some r }
    ensures attributed { (v : RegistryValue) (number : ℕ) (attributes : List Attribute) (other : List ℕ)
        (r : RegistrationValue) → found v.entries other ≡ Some r → r.number ≢ number →
        found (attributed v number attributes).entries other ≡ Some r }
    ensures removed { (v : RegistryValue) (number : ℕ) (other : List ℕ) (r : RegistrationValue) →
        found v.entries other ≡ Some r → r.number ≢ number → found (removed v number).entries other ≡ Some r }
{}

/// States that a lookup writes the links that its criteria select, in the order of the first registrations (RFC 9176
/// section 6). If it asks for a page, it writes the links after those of the pages before it.
#[tactic(auto, using(crate::proofs::LookupLemmas::endpoints_listed, crate::proofs::LookupLemmas::resources_listed, crate::proofs::LookupLemmas::pages))]
pub fn lookups_list_the_selected_links()
    ensures endpoints { (v : RegistryValue) (criteria : List CriterionValue) (l : ListingValue) (page : PageValue)
        (limit : ℕ) (text : List ℕ) →
        (fold (offered_endpoint criteria) (started l page limit) (registrations v)).text ≡ Some text →
        text ≡ links_text (part_of page (endpoints_found criteria v)) }
    ensures resources { (v : RegistryValue) (criteria : List CriterionValue) (l : ListingValue) (page : PageValue)
        (limit : ℕ) (text : List ℕ) →
        (fold (offered_links criteria) (started l page limit) (registrations v)).text ≡ Some text →
        text ≡ links_text (part_of page (resources_found criteria v)) }
    ensures pages { (links : List Link) (page count : ℕ) →
        take (page * count) links ++ part_of (record { skip = page * count; count = count }) links
        ≡ take (page * count + count) links }
{}
