//! Theorems on all directories. Each is the contract of a function with an empty body.

ghost use Rattle.std.specs.Prelude.{◌≡◌, ℕ, List, Option, Some, true, false};
ghost use Rattle.directory_links.specs.Links.{Writes};
ghost use Rattle.directory_registry.specs.Prelude.{CriterionValue, ListingValue, PageValue, started, part_of};
ghost use Rattle.directory_registry.specs.Prelude.{endpoints_found, resources_found};
ghost use Rattle.directory_core.specs.Prelude.{DirectoryValue, Reached, ReachedDirectory, AreNamed, listed};

/// States that the registrations of each directory are some that calls of a registry reach. So the theorems of
/// `directory_registry::laws` hold for them.
pub fn directories_have_reached_registries()
    ensures { (d : DirectoryValue) → ReachedDirectory d → Reached d.registry }
{}

/// States that the attributes of each registered endpoint have exactly one `ep`, the name of its key. They have one
/// `d`, the sector of its key, or none if that is empty (RFC 9176 section 5).
pub fn endpoints_have_their_own_names()
    ensures { (d : DirectoryValue) → ReachedDirectory d → AreNamed d }
{}

/// States that the text of a lookup is in link format. It writes the links that the criteria select, or a page of them.
/// So `directory_links::parse` reads these links from it (RFC 9176 section 6, RFC 6690 section 2).
pub fn lookups_are_in_link_format()
    ensures endpoints { (d : DirectoryValue) → ReachedDirectory d → (criteria : List CriterionValue)
        (l : ListingValue) (page : PageValue) (limit : ℕ) (text : List ℕ) →
        (listed d.registry true criteria (started l page limit)).text ≡ Some text →
        Writes text (part_of page (endpoints_found criteria d.registry)) }
    ensures resources { (d : DirectoryValue) → ReachedDirectory d → (criteria : List CriterionValue)
        (l : ListingValue) (page : PageValue) (limit : ℕ) (text : List ℕ) →
        (listed d.registry false criteria (started l page limit)).text ≡ Some text →
        Writes text (part_of page (resources_found criteria d.registry)) }
{}
