//! Theorems on all lists of entries and all paths. Each is the contract of a function with an empty body.

ghost use Rattle.std.specs.Prelude.{◌≡◌, ◌++◌, ℕ, List, Some, None, true, false};
ghost use Rattle.std.specs.List.{AllByRecursion};
ghost use Rattle.coap_path.specs.Prelude.{Path, ApplicationEntryValue, ApplicationsValue, IsLongest};
ghost use Rattle.coap_path.specs.Prelude.{begins_with, entry_for, is_answered, with_entry};
ghost use Rattle.coap_path.specs.Prelude.{root_path, time_path, async_path, listing_path};

/// States that a path begins with the segments of a prefix if and only if it is these segments, followed by others or
/// none.
#[tactic(auto, using(crate::proofs::LawLemmas::start_of, crate::proofs::LawLemmas::begins_itself))]
pub fn prefix_is_start_of_path()
    ensures start { (prefix path : Path) → begins_with prefix path ≡ true →
        (rest : Path) × (path ≡ prefix ++ rest) }
    ensures begins { (prefix rest : Path) → begins_with prefix (prefix ++ rest) ≡ true }
{}

/// States that a path belongs to the entry with the longest prefix that the path begins with: each other such prefix
/// has fewer segments. A path belongs to no entry only if it begins with no prefix.
#[tactic(auto, using(crate::proofs::LawLemmas::nowhere))]
pub fn longest_prefix_wins()
    ensures found { (entries : List ApplicationEntryValue) (path : Path) (e : ApplicationEntryValue) →
        entry_for entries path ≡ Some e → IsLongest entries path e }
    ensures none { (entries : List ApplicationEntryValue) (path : Path) → entry_for entries path ≡ None →
        AllByRecursion (λ e. begins_with e.prefix path ≡ false) entries }
{}

/// States that the engine answers all requests to the built-in resources, whatever the entries are.
#[tactic(auto, unfolding(crate::specs::ResourceKinds::kind_of_path, crate::specs::Applications::is_answered))]
pub fn built_in_resources_stay()
    ensures root { (entries : List ApplicationEntryValue) (code : ℕ) → is_answered entries root_path code ≡ false }
    ensures time { (entries : List ApplicationEntryValue) (code : ℕ) → is_answered entries time_path code ≡ false }
    ensures delayed { (entries : List ApplicationEntryValue) (code : ℕ) → is_answered entries async_path code ≡ false }
    ensures listing { (entries : List ApplicationEntryValue) (code : ℕ) →
        is_answered entries listing_path code ≡ false }
{}

/// States that another entry changes nothing at paths that do not begin with its prefix.
#[tactic(auto, using(crate::proofs::LawLemmas::others_stay))]
pub fn other_paths_stay()
    ensures { (v : ApplicationsValue) (prefix path : Path) (methods attributes : List ℕ) (code : ℕ) →
        begins_with prefix path ≡ false →
        is_answered (with_entry v prefix methods attributes).entries path code ≡ is_answered v.entries path code }
{}
