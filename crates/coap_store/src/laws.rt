//! Theorems on all stores and all plans. Each is the contract of a function with an empty body.

ghost use Rattle.std.specs.Prelude.{◌≡◌, ◌≢◌, ◌↔◌, ℕ, ◌+◌, ◌<◌, ◌≤◌, ◌^◌, List, [], Option, Some, None, IsTrue};
ghost use Rattle.std.specs.Prelude.{IsFalse, IfSome, Contains, ◌⊎◌, is_some};
ghost use Rattle.std.specs.List.{AllByRecursion};
ghost use Rattle.coap_store.specs.Prelude.{LARGEST_MESSAGE, Message, Path, is_path, Representation, StoreValue};
ghost use Rattle.coap_store.specs.Prelude.{found_in, put_in, removed_in, kind_of_path, state_of, is_get, path_of};
ghost use Rattle.coap_store.specs.Prelude.{etag_of, Change, Nothing, Put, Delete, only, delayed_response, is_delayed};
ghost use Rattle.coap_store.specs.Prelude.{answer_of, immediate_answer, changed, says_change, TakesChange};
ghost use Rattle.coap_store.specs.Prelude.{ApplicationsValue, HasSmallFormat, changed_by, TakesChanges, AreDistinct};
ghost use Rattle.coap_store.specs.Prelude.{IsStore, put_refusal, WasStored, notification_of, MayObserve, plain_get};
ghost use Rattle.coap_store.specs.Prelude.{IsStoredCode, ReportsState, ReportsEtag, IsElsewhere, content_of, put_by};
ghost use Rattle.coap_store.specs.Prelude.{values_of, number_of, first_critical, is_observable, FailsCondition};
ghost use Rattle.coap_store.specs.Prelude.{IsRejection, without_conditions, is_delete, passes_checks};
ghost use Rattle.coap_wire.specs.Codes as code;
ghost use Rattle.coap_wire.specs.OptionNumbers as numbers;
ghost use Rattle.coap_path.specs.declared.resource_kind.ResourceKind.TheVariants.{Listing, Dynamic};
ghost use Rattle.coap_store.specs.declared.plan.Watch.TheVariants.{Add};

use coap_path::PathKey;

/// States that a store changes if and only if the response is 2.01, 2.04, or 2.02 for a resource that existed (RFC 7252
/// section 5.9.1).
#[tactic(auto, using(crate::proofs::ChangeLaws::said, crate::proofs::ChangeLaws::not_said))]
pub fn only_success_changes_store()
    ensures said { (s : StoreValue) (now : ℕ) (m : Message) →
        IsTrue (says_change (answer_of s now m).response (state_of s now (path_of m))) →
        changed s (answer_of s now m).change ≢ s }
    ensures not_said { (s : StoreValue) (now : ℕ) (m : Message) →
        IsFalse (says_change (answer_of s now m).response (state_of s now (path_of m))) →
        changed s (answer_of s now m).change ≡ s }
{}

/// States the same as `only_success_changes_store` for a full pending list, which allows no delayed response.
#[tactic(auto, using(crate::proofs::ChangeLaws::said_promptly, crate::proofs::ChangeLaws::not_said_promptly))]
pub fn only_immediate_success_changes_store()
    ensures said { (s : StoreValue) (now : ℕ) (m : Message) →
        IsTrue (says_change (immediate_answer s now m).response (state_of s now (path_of m))) →
        changed s (immediate_answer s now m).change ≢ s }
    ensures not_said { (s : StoreValue) (now : ℕ) (m : Message) →
        IsFalse (says_change (immediate_answer s now m).response (state_of s now (path_of m))) →
        changed s (immediate_answer s now m).change ≡ s }
{}

/// States that a representation put at a path is found there, with the next version.
#[tactic(auto, using(crate::proofs::ChangeLaws::put_is_stored))]
pub fn what_is_put_is_found()
    ensures { (s : StoreValue) (path : Path) (format : Option ℕ) (bytes : List ℕ) →
        found_in (changed s (Put path format bytes)).resources path
        ≡ Some (record { version = s.versions + 1; format = format; bytes = bytes }) }
{}

/// States that nothing is found at a path after its deletion, if no path occurs twice. A path is absent after the
/// response 2.02 (RFC 7252 section 5.8.4). A DELETE of a path that is not built in has this response if it passes the
/// checks of every server and no condition fails.
#[tactic(auto, using(crate::proofs::ServingLaws::what_is_deleted_is_gone_steps))]
pub fn what_is_deleted_is_gone()
    ensures change { (s : StoreValue) (path : Path) → AreDistinct s.resources →
        found_in (changed s (Delete path)).resources path ≡ None }
    ensures request { (s : StoreValue) (now : ℕ) (m : Message) → IsStore s →
        (answer_of s now m).response.code ≡ code.deleted →
        found_in (changed s (answer_of s now m).change).resources (path_of m) ≡ None }
    ensures success { (s : StoreValue) (now : ℕ) (m : Message) → IsTrue (is_delete m) → IsTrue (passes_checks m) →
        kind_of_path (path_of m) ≡ Dynamic → (FailsCondition (state_of s now (path_of m)) m → ⊥) →
        (answer_of s now m).response ≡ only code.deleted }
{}

/// States that a change keeps the representations at other paths.
#[tactic(auto, using(crate::proofs::ChangeLaws::other_paths_stay_steps))]
pub fn other_paths_stay()
    ensures put { (s : StoreValue) (path other : Path) (format : Option ℕ) (bytes : List ℕ) → other ≢ path →
        found_in (changed s (Put path format bytes)).resources other ≡ found_in s.resources other }
    ensures deleted { (s : StoreValue) (path other : Path) → other ≢ path →
        found_in (changed s (Delete path)).resources other ≡ found_in s.resources other }
{}

/// States that no path ever occurs twice.
#[tactic(auto, using(crate::proofs::ChangeLaws::distinct_stays))]
pub fn paths_stay_distinct()
    ensures begun { AreDistinct [] }
    ensures changed { (s : StoreValue) (change : Change) → AreDistinct s.resources →
        AreDistinct (changed s change).resources }
{}

/// States that an empty store has the invariant of a store. Each change that the store accepts keeps the invariant, if
/// a Content-Format in it is a 16-bit number.
#[tactic(auto, using(crate::proofs::StoreLemmas::store_empty, crate::proofs::StoreLemmas::store_changed))]
pub fn changes_keep_store_invariant()
    ensures empty { (dynamic_max rep_max versions : ℕ) (applications : Option ApplicationsValue) → dynamic_max ≤ 1000 →
        rep_max ≤ LARGEST_MESSAGE → versions < 2 ^ 64 → IsStore (record {
          dynamic_max = dynamic_max;
          rep_max = rep_max;
          resources = [];
          versions = versions;
          applications = applications;
        }) }
    ensures changed { (s : StoreValue) (change : Change) → IsStore s → TakesChange s change → HasSmallFormat change →
        IsStore (changed s change) }
{}

/// States that a new representation has a larger version than each stored one. So all present and later representations
/// with one ETag are the same representation of the same path (RFC 7252 section 5.10.6).
#[tactic(auto, using(crate::proofs::VersionLaws::versions_come_once_steps))]
pub fn versions_come_once()
    ensures newer { (s : StoreValue) (path other : Path) (format : Option ℕ) (bytes : List ℕ) (old new : Representation)
        →
        IsStore s → found_in s.resources other ≡ Some old →
        found_in (changed s (Put path format bytes)).resources path ≡ Some new → old.version < new.version }
    ensures together { (s : StoreValue) (path other : Path) (r o : Representation) → IsStore s →
        found_in s.resources path ≡ Some r → found_in s.resources other ≡ Some o → etag_of r ≡ etag_of o →
        (path ≡ other) × (r ≡ o) }
    ensures later { (s : StoreValue) (changes : List Change) (path other : Path) (old new : Representation) →
        IsStore s → TakesChanges s changes → found_in s.resources path ≡ Some old →
        found_in (changed_by s changes).resources other ≡ Some new → etag_of old ≡ etag_of new →
        (path ≡ other) × (old ≡ new) }
{}

/// States that a GET changes nothing (RFC 7252 section 5.8.1).
#[tactic(auto, using(crate::proofs::ServingLaws::get_keeps))]
pub fn get_changes_nothing()
    ensures { (s : StoreValue) (now : ℕ) (m : Message) → IsTrue (is_get m) → (answer_of s now m).change ≡ Nothing }
{}

/// States that a 2.05 has the bytes, the format and the ETag, if any, of the path's state (RFC 7252 sections 5.9.1.5,
/// 5.10.6). A 2.03 has the ETag (section 5.9.1.3). The ETag of a 2.03 is one that the request has, and the ETag of a
/// 2.05 is none of these (section 5.10.6.2).
#[tactic(auto, using(crate::proofs::ServingLaws::responses_report_state_steps))]
pub fn responses_report_state()
    ensures content { (s : StoreValue) (now : ℕ) (m : Message) → (answer_of s now m).response.code ≡ code.content →
        ReportsState (kind_of_path (path_of m)) (state_of s now (path_of m)) (answer_of s now m).response }
    ensures valid { (s : StoreValue) (now : ℕ) (m : Message) → (answer_of s now m).response.code ≡ code.valid →
        ReportsEtag (state_of s now (path_of m)) (answer_of s now m).response }
    ensures named { (s : StoreValue) (now : ℕ) (m : Message) (etag : List ℕ) →
        (answer_of s now m).response.code ≡ code.valid → (answer_of s now m).response.etag ≡ Some etag →
        Contains (values_of numbers.etag m) etag }
    ensures other { (s : StoreValue) (now : ℕ) (m : Message) (etag : List ℕ) →
        (answer_of s now m).response.code ≡ code.content → (answer_of s now m).response.etag ≡ Some etag →
        AllByRecursion (λ value. value ≢ etag) (values_of numbers.etag m) }
{}

/// States that a GET with no option but Uri-Path returns a stored representation with 2.05 (RFC 7252 section 5.8.1).
/// After a 2.01 or 2.04, this is the payload of that request, with its Content-Format and the ETag of a new version.
#[tactic(auto, using(crate::proofs::ServingLaws::stored_is_served, crate::proofs::ServingLaws::put_is_served))]
pub fn what_is_stored_is_served()
    ensures stored { (s : StoreValue) (now : ℕ) (token : List ℕ) (path : Path) (r : Representation) →
        IsTrue (is_path path) → kind_of_path path ≡ Dynamic → found_in s.resources path ≡ Some r →
        (answer_of s now (plain_get token path)).response ≡ content_of r }
    ensures put { (s : StoreValue) (now later : ℕ) (m : Message) (token : List ℕ) →
        IsStoredCode (answer_of s now m).response.code →
        (answer_of (changed s (answer_of s now m).change) later (plain_get token (path_of m))).response
        ≡ content_of (put_by m (s.versions + 1)) }
{}

/// States that a change keeps the state of every other path except the listing. A request changes only its own path.
#[tactic(auto, using(crate::proofs::ServingLaws::state_elsewhere, crate::proofs::ServingLaws::others_stay))]
pub fn other_states_stay()
    ensures change { (s : StoreValue) (change : Change) (now : ℕ) (other : Path) → kind_of_path other ≢ Listing →
        IsElsewhere other change → state_of (changed s change) now other ≡ state_of s now other }
    ensures request { (s : StoreValue) (now later : ℕ) (m : Message) (other : Path) → kind_of_path other ≢ Listing →
        other ≢ path_of m → state_of (changed s (answer_of s now m).change) later other ≡ state_of s later other }
{}

/// States that two keys are equal if and only if their lists of segments are.
pub fn keys_are_equal_where_their_segments_are()
    ensures { (p q : Path) → (IsTrue (⟦<PathKey as PartialEq>⟧.eq p q) ↔ (p ≡ q)) }
{}

/// States that a `put` without an error, and every `remove`, keep the invariant of a store.
#[tactic(auto, using(crate::proofs::StoreLemmas::store_removed, crate::proofs::RefusalLemmas::put_keeps))]
pub fn puts_and_removals_keep_stores()
    ensures put { (s : StoreValue) (path : Path) (format : Option ℕ) (bytes : List ℕ) → IsStore s →
        IsTrue (is_path path) → put_refusal s path bytes ≡ None → IfSome format (λ number. number < 65536) →
        IsStore (put_in s path format bytes) }
    ensures removed { (s : StoreValue) (path : Path) → IsStore s → IsStore (removed_in s path) }
{}

/// States that a representation put by the embedding program is the state of its path at all times, with the next
/// version. A removed path is absent. All other paths keep their state, except for the listing.
#[tactic(auto, using(crate::proofs::ServingLaws::what_is_put_is_the_state_steps))]
pub fn what_is_put_is_the_state()
    ensures put { (s : StoreValue) (now : ℕ) (path : Path) (format : Option ℕ) (bytes : List ℕ) →
        IsTrue (is_path path) → kind_of_path path ≡ Dynamic →
        state_of (put_in s path format bytes) now path
        ≡ Some (record { version = s.versions + 1; format = format; bytes = bytes }) }
    ensures removed { (s : StoreValue) (now : ℕ) (path : Path) → IsStore s → IsTrue (is_path path) →
        kind_of_path path ≡ Dynamic → state_of (removed_in s path) now path ≡ None }
    ensures put_elsewhere { (s : StoreValue) (now : ℕ) (path other : Path) (format : Option ℕ) (bytes : List ℕ) →
        kind_of_path other ≢ Listing → other ≢ path →
        state_of (put_in s path format bytes) now other ≡ state_of s now other }
    ensures removed_elsewhere { (s : StoreValue) (now : ℕ) (path other : Path) → kind_of_path other ≢ Listing →
        other ≢ path → state_of (removed_in s path) now other ≡ state_of s now other }
{}

/// States that a version identifies a representation, so a caller can record the version alone. Stored representations
/// satisfy `WasStored`, changes keep this, and a stored one with the same version is the same, at the same path.
#[tactic(auto, using(crate::proofs::RememberingLaws::is_stored, crate::proofs::RememberingLaws::was_stored))]
pub fn versions_identify_representations()
    ensures stored { (s : StoreValue) (path : Path) (sent : Representation) → IsStore s →
        found_in s.resources path ≡ Some sent → WasStored s path sent }
    ensures changed { (s : StoreValue) (change : Change) (path : Path) (sent : Representation) → IsStore s →
        WasStored s path sent → WasStored (changed s change) path sent }
    ensures same { (s : StoreValue) (path other : Path) (sent now : Representation) → WasStored s path sent →
        found_in s.resources other ≡ Some now → now.version ≡ sent.version → (other ≡ path) × (now ≡ sent) }
{}

/// States that a 2.05 notification has the state of its path, in the format of earlier ones (RFC 7641 section 4.2). For
/// a created resource it equals the response to a GET with no option but Uri-Path.
#[tactic(auto, using(crate::proofs::NotificationLaws::notifications_report_state_steps))]
pub fn notifications_report_state()
    ensures content { (s : StoreValue) (now : ℕ) (path : Path) (format : Option ℕ) →
        (notification_of s now path format).code ≡ code.content →
        ReportsState (kind_of_path path) (state_of s now path) (notification_of s now path format) }
    ensures format { (s : StoreValue) (now : ℕ) (path : Path) (format : Option ℕ) →
        (notification_of s now path format).code ≡ code.content → (notification_of s now path format).format ≡ format }
    ensures get { (s : StoreValue) (now : ℕ) (token : List ℕ) (path : Path) (format : Option ℕ) →
        IsTrue (is_path path) → kind_of_path path ≡ Dynamic → (notification_of s now path format).code ≡ code.content →
        (answer_of s now (plain_get token path)).response ≡ notification_of s now path format }
{}

/// States that a request that registers an observer (RFC 7641 section 4.1) is a GET with Observe 0, and names an
/// existing, observable resource. It changes nothing, and its response is 2.05 or 2.03. Each GET with Observe 0 of an
/// observable resource registers an observer if it has such a response.
#[tactic(auto, using(crate::proofs::WatchLaws::what_is_watched_is_there_steps))]
pub fn what_is_watched_is_there()
    ensures watched { (s : StoreValue) (now : ℕ) (m : Message) → (answer_of s now m).watch ≡ Add →
        MayObserve s now (path_of m) (answer_of s now m) }
    ensures promptly { (s : StoreValue) (now : ℕ) (m : Message) → (immediate_answer s now m).watch ≡ Add →
        MayObserve s now (path_of m) (immediate_answer s now m) }
    ensures requested { (s : StoreValue) (now : ℕ) (m : Message) → (answer_of s now m).watch ≡ Add →
        IsTrue (is_get m) × (number_of numbers.observe m ≡ Some 0) }
    ensures added { (s : StoreValue) (now : ℕ) (m : Message) → IsTrue (is_observable (kind_of_path (path_of m))) →
        number_of numbers.observe m ≡ Some 0 →
        ((answer_of s now m).response.code ≡ code.content) ⊎ ((answer_of s now m).response.code ≡ code.valid) →
        (answer_of s now m).watch ≡ Add }
{}

/// States that a request gets 4.02 if and only if it has an unrecognised critical option, and then changes nothing (RFC
/// 7252 section 5.4.1).
#[tactic(auto, using(crate::proofs::ConditionLaws::critical_steps))]
pub fn unrecognised_critical_options_are_rejected()
    ensures rejected { (s : StoreValue) (now : ℕ) (m : Message) → IsTrue (is_some (first_critical m.options)) →
        ((answer_of s now m).response ≡ only code.bad_option) × ((answer_of s now m).change ≡ Nothing) }
    ensures only { (s : StoreValue) (now : ℕ) (m : Message) →
        (answer_of s now m).response.code ≡ code.bad_option → IsTrue (is_some (first_critical m.options)) }
{}

/// States that a request whose If-Match or If-None-Match fails gets an error and changes nothing (RFC 7252 section
/// 5.10.8). The error is 4.12 only if one of them fails, and always if the request would succeed without them. If none
/// fails, they change nothing. An unrecognised critical option decides before them.
#[tactic(auto, using(crate::proofs::WithoutConditionsLaws::condition_steps))]
pub fn failed_conditions_are_rejected()
    ensures rejected { (s : StoreValue) (now : ℕ) (m : Message) → FailsCondition (state_of s now (path_of m)) m →
        IsRejection (answer_of s now m) }
    ensures only { (s : StoreValue) (now : ℕ) (m : Message) →
        (answer_of s now m).response.code ≡ code.precondition_failed → FailsCondition (state_of s now (path_of m)) m }
    ensures failed { (s : StoreValue) (now : ℕ) (m : Message) → first_critical m.options ≡ None →
        FailsCondition (state_of s now (path_of m)) m →
        code.class_of (answer_of s now (without_conditions m)).response.code ≡ 2 →
        (answer_of s now m).response ≡ only code.precondition_failed }
    ensures met { (s : StoreValue) (now : ℕ) (m : Message) → first_critical m.options ≡ None →
        (FailsCondition (state_of s now (path_of m)) m → ⊥) →
        answer_of s now m ≡ answer_of s now (without_conditions m) }
{}

/// States that only a response to a GET of `/async` is delayed, by at most 3,600 seconds, and is always the same. Such
/// a GET changes nothing and registers no observer. If the pending list is full, the response is 5.03.
#[tactic(auto, using(crate::proofs::HoldLaws::delayed_response_is_constant_steps))]
pub fn delayed_response_is_constant()
    ensures delayed { (s : StoreValue) (now : ℕ) (m : Message) (seconds : ℕ) → (answer_of s now m).hold ≡ Some seconds →
        IsTrue (is_delayed m) × ((answer_of s now m).response ≡ delayed_response)
        × ((answer_of s now m).change ≡ Nothing)
        × (seconds ≤ 3600) }
    ensures watch { (s : StoreValue) (now : ℕ) (m : Message) (seconds : ℕ) → (answer_of s now m).hold ≡ Some seconds →
        (answer_of s now m).watch ≢ Add }
    ensures refused { (s : StoreValue) (now : ℕ) (m : Message) (seconds : ℕ) → (answer_of s now m).hold ≡ Some seconds →
        (immediate_answer s now m).response ≡ only code.service_unavailable }
    ensures change { (s : StoreValue) (now : ℕ) (m : Message) →
        (immediate_answer s now m).change ≡ (answer_of s now m).change }
    ensures prompt { (s : StoreValue) (now : ℕ) (m : Message) → (answer_of s now m).hold ≡ None →
        immediate_answer s now m ≡ answer_of s now m }
{}
