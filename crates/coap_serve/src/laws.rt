//! Theorems about every server. Each is the contract of a function with an empty body. Those on runs are here. The
//! modules have those of the crates below, some of which have the same names.

ghost use Rattle.std.specs.Prelude.{◌≡◌, ℕ, Option, Result, List, [], All, false};
ghost use Rattle.coap_serve.specs.Prelude.{ConfigValues, ServerValue, AcceptedCall, Shows, IsFlushed, AddsBytes};
ghost use Rattle.coap_serve.specs.Prelude.{waiting_at, Report, IoFault, IsStdioRun, LeavesNothingWaiting, AreSteps};
ghost use Rattle.coap_serve.specs.Prelude.{History, IsRunStep, Readiness, AreSettled, LiesAt, IsNoOp, can_go_on};
ghost use Rattle.coap_serve.specs.Prelude.{interest_of, IsRunCall};

pub use coap_conn::laws as connections;
pub use coap_frame::laws as frames;
pub use coap_model::laws::{
    a_pong_with_custody_follows_all_answers, application_answer_is_only_response,
    application_answers_its_requests, application_deadlines_are_kept,
    application_requests_have_one_fate, connections_interact_only_through_store,
    custody_comes_last, last_announced_size_applies, last_notification_matches_state,
    limits_are_kept, pending_entries_are_sent, queued_messages_fit_limit,
    registrations_add_observers, requests_are_answered_once,
};
pub use coap_path::laws as applications;
pub use coap_server_engine::laws::{
    each_message_taken_is_handled_once, lent_requests_are_handed_over, no_change_is_lost,
    only_stores_allocate, responses_at_once_have_room, script_segmentation_is_irrelevant,
    segmentation_is_irrelevant, unanswered_requests_change_nothing,
    waiting_until_next_deadline_is_safe,
};
pub use coap_store::laws as resources;
pub use coap_wire::laws as messages;

/// States that a flush leaves no byte queued.
///
/// After each flush that did not fail, no byte is queued on the connection, whatever is pending and observed there. The
/// number of writes to which a flush is limited is therefore enough. So a run of `serve_one` that ends leaves no byte
/// queued, unless a write failed. The output has everything that its connection queued for the bytes accepted. This
/// includes runs that end at the limit of turns or because a read failed. A run that ends because an allocation failed
/// has accepted the bytes before the last one of the request, or none.
pub fn a_flush_leaves_nothing_waiting()
    ensures flush { (v after : ServerValue) (events : List AcceptedCall) (id : ℕ) (before now : Option (List ℕ)) →
        Shows v events → IsFlushed id v after (AddsBytes before now) → waiting_at id after ≡ [] }
    ensures run { (c : ConfigValues) (pieces : List (List ℕ)) (output : List ℕ) (result : Result Report IoFault) →
        IsStdioRun c pieces output result → LeavesNothingWaiting c pieces output result }
{}

/// States that an idle connection may be skipped.
///
/// The theorem is about a connection of a server whose connections are all settled. If nothing in its I/O interest can
/// be done, serving it has no effect, whatever its wire does. The wire is neither read nor written. There is an
/// outcome. Every outcome leaves the server, the bytes left from its reads, and the trace of its wire unchanged, and
/// the connection stays open. The only call is a take that accepts none of the bytes left, if there are some.
pub fn idle_connections_may_be_skipped()
    ensures { (v : ServerValue) (id i : ℕ) (rest : List ℕ) (ready : Readiness) → LiesAt id i v.sessions → AreSettled
        v.shared v.sessions → can_go_on (interest_of v id rest) ready ≡ false → IsNoOp ready v id rest }
{}

/// States that a run stores and removes no resource for the embedding program, and announces no message size. So a
/// script makes each call of a run again, from its line in a record alone.
#[tactic(auto, using(crate::proofs::listener::ConfigLemmas::run_made))]
pub fn a_run_announces_no_size<W>()
    ensures { (v after : ServerValue) (h : History W) → AreSteps IsRunStep v after h → All IsRunCall h.events }
{}
