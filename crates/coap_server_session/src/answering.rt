//! Answers requests and notifies observers.

ghost use Rattle.std.specs.Prelude.{◌≡◌, ◌<◌, ◌≤◌, ◌++◌, ◌∷◌, [], ℕ, Option, map, true, Some, None, is_some};
ghost use Rattle.std.specs.Prelude.{false, length, slice_get, if◌then◌else◌, IfOk, IfSome, OnOk, OnErr};
ghost use Rattle.coap_server_session.specs.Prelude.{IsAnswering, AreMarked, IsTagged, marks_after, is_open};
ghost use Rattle.coap_server_session.specs.Prelude.{PendingEntryValue, first_due, IsReady, can_hold, link_after};
ghost use Rattle.coap_server_session.specs.Prelude.{changed, response_message, planned_value, path_of};
ghost use Rattle.coap_server_session.specs.Prelude.{IsChangeAt, IsPut, TakesChange, change_hash, MayObserve};
ghost use Rattle.coap_server_session.specs.Prelude.{asks_entry as asks, is_whole as is_sent_whole, ObserverValue};
ghost use Rattle.coap_server_session.specs.Prelude.{answer_on, delay_on, delay_in, shared_changed, link_sent};
ghost use Rattle.coap_server_session.specs.Prelude.{new_entry, response_with_observe};
ghost use Rattle.coap_server_session.specs.Prelude.{application_deadline, only, is_handed};
ghost use Rattle.coap_server_session.specs.Prelude.{notification_on, without_entry, IsFirstStale, link_replied};
ghost use Rattle.coap_server_session.specs.Prelude.{entries_replied, entries_notified, observer_value, LARGEST_MESSAGE};
ghost use Rattle.coap_conn.specs.Calls as call;
ghost use Rattle.coap_wire.specs.Codes as code;

use crate::cause::Cause;
use crate::observer::Observer;
use crate::observers::{Observers, StaleObserver};
use crate::path_hash::{hash_of, hash_of_request};
use crate::response::{respond, respond_change};
use crate::server_state::{ServerState, mark_at};
use crate::take_outcome::RequestEffect;
use coap_conn::{Due, Link, Reply};
use coap_store::{
    ChangePlan, ObservedPath, Plan, PlannedChange, State, Store, UriPath, Watch, delayed_response,
    expired_response, refused_delay, request_path,
};
use coap_wire::{Code, MessageRef, TokenRef};
use std::alloc::AllocError;

/// Processes a request: applies its change, removes its observer, and sends or delays its response.
///
/// A request that the application answers is pending until its response or its deadline. Every other request is
/// answered from the store, as `answer_from_store` explains.
///
/// Returns the effect of the request.
///
/// # Errors
///
/// Returns `AllocError` if allocation fails for the representation that the request stores. Nothing has changed then.
///
/// # Preconditions
///
/// The connection is open, its queue has room for a message of `max_sent` bytes, and the changed marks are current.
#[inline]
pub(crate) fn answer(
    link: &mut Link,
    observers: &mut Observers,
    shared: &mut ServerState,
    request: &MessageRef,
) -> Result<RequestEffect, AllocError>
    requires ready { IsReady link.old }
    requires open { is_open link.old.phase ≡ true }
    requires marked { AreMarked shared.old observers.old.entries observers.old.marks }
    ensures changed { IfOk result (λ e. e.changed ≡ change_hash (answer_on shared.old request.now).change) }
    ensures handed { IfOk result (λ e. e.handed ≡ is_handed (delay_in link.old (delay_on shared.old request.now))) }
    ensures quiet { IfOk result (λ e. e.handed ≡ true → e.changed ≡ None) }
    ensures link { OnOk result (link.new ≡ link_replied shared.old link.old observers.old.room
        (without_entry request.now.token observers.old.entries) request.now
        (delay_in link.old (delay_on shared.old request.now))) }
    ensures entries { OnOk result (observers.new.entries ≡ entries_replied shared.old link.old observers.old.room
        (without_entry request.now.token observers.old.entries) request.now
        (delay_in link.old (delay_on shared.old request.now))) }
    ensures room { OnOk result (observers.new.room ≡ observers.old.room) }
    ensures marked { OnOk result (AreMarked shared.new observers.new.entries observers.new.marks) }
    ensures shared { OnOk result (shared.new ≡ shared_changed shared.old (answer_on shared.old request.now).change) }
    ensures put { OnErr result (IsPut (answer_on shared.old request.now).change) }
    ensures unchanged { OnErr result (shared.new ≡ shared.old) }
    ensures silent { OnErr result (link.new ≡ link.old) }
    ensures kept { OnErr result (observers.new ≡ observers.old) }
{
    if let Some(seconds) = shared.store.application_deadline(request) {
        let moment = shared.now.saturating_add(u64::from(seconds));
        let handed = hand_over(link, observers, request, moment);
        return Ok(RequestEffect {
            changed: None,
            handed,
        });
    }
    let changed = answer_from_store(link, observers, shared, request)?;
    Ok(RequestEffect {
        changed,
        handed: false,
    })
}

/// Processes a request that the store answers.
///
/// The change is applied before the response is queued. The observer with the request's token is removed. A new entry
/// is added if the request asks for one, the list has room, and the response is sent whole (RFC 7641 section 4.1).
///
/// Returns the hash of the path at which the request stored or deleted a resource, if it did.
///
/// # Errors
///
/// Returns `AllocError` if allocation fails for the representation that the request stores. Nothing has changed then.
///
/// # Preconditions
///
/// The connection is open, its queue has room for a message of `max_sent` bytes, and the changed marks are current.
// Always inlined: a call saves and restores registers. The locals are cleared only where a request is answered.
#[inline(always)]
fn answer_from_store(
    link: &mut Link,
    observers: &mut Observers,
    shared: &mut ServerState,
    request: &MessageRef,
) -> Result<Option<u8>, AllocError>
    requires ready { IsReady link.old }
    requires open { is_open link.old.phase ≡ true }
    requires unhanded { application_deadline shared.old.store.applications request.now ≡ None }
    requires marked { AreMarked shared.old observers.old.entries observers.old.marks }
    ensures changed { IfOk result (λ changed. changed ≡ change_hash (answer_on shared.old request.now).change) }
    ensures link { OnOk result (link.new ≡ link_replied shared.old link.old observers.old.room
        (without_entry request.now.token observers.old.entries) request.now
        (delay_in link.old (delay_on shared.old request.now))) }
    ensures entries { OnOk result (observers.new.entries ≡ entries_replied shared.old link.old observers.old.room
        (without_entry request.now.token observers.old.entries) request.now
        (delay_in link.old (delay_on shared.old request.now))) }
    ensures room { OnOk result (observers.new.room ≡ observers.old.room) }
    ensures marked { OnOk result (AreMarked shared.new observers.new.entries observers.new.marks) }
    ensures shared { OnOk result (shared.new ≡ shared_changed shared.old (answer_on shared.old request.now).change) }
    ensures put { OnErr result (IsPut (answer_on shared.old request.now).change) }
    ensures unchanged { OnErr result (shared.new ≡ shared.old) }
    ensures silent { OnErr result (link.new ≡ link.old) }
    ensures kept { OnErr result (observers.new ≡ observers.old) }
{
    let mut plan = Plan::new();
    let index = shared.store.fill_plan(request, shared.now, &mut plan);
    if let Some(seconds) = plan.hold() {
        let moment = shared.now.saturating_add(u64::from(seconds));
        delay_answer(link, observers, request, moment);
        return Ok(None);
    }
    if plan.changes() {
        let planned = plan.into_change();
        let changed = answer_change(link, observers, shared, request.token(), planned, index)?;
        return Ok(changed);
    }
    observers.remove_token(request.token());
    let observes = asks_entry(plan.watch()) && !observers.is_full();
    let reply = respond(link, request.token(), &plan, observes);
    if observes && is_whole(reply) {
        add_observer(observers, shared, request);
    }
    Ok(None)
}

/// Applies the change of a plan that the store returned with this index, removes the observer with this token, and
/// sends the response. Returns the hash of the path at which a resource was stored or deleted.
///
/// # Errors
///
/// Returns `AllocError` if allocation fails for the stored representation. Nothing has changed then.
// Never inlined, since a function clears all its locals.
#[inline(never)]
fn answer_change(
    link: &mut Link,
    observers: &mut Observers,
    shared: &mut ServerState,
    token: &TokenRef,
    planned: ChangePlan,
    index: Option<usize>,
) -> Result<Option<u8>, AllocError>
    requires ready { IsReady link.old }
    requires answering { IsAnswering link.old.phase }
    requires taken { TakesChange shared.old.store planned.change }
    requires index { IfSome index (λ index. IsChangeAt shared.old.store planned.change index) }
    requires marked { AreMarked shared.old observers.old.entries observers.old.marks }
    ensures changed { IfOk result (λ changed. changed ≡ change_hash planned.entry.change) }
    ensures link { OnOk result (link.new ≡ link_after link.old
        (call.Reply (response_with_observe token.now false planned.entry.response))) }
    ensures entries { OnOk result (observers.new.entries ≡ without_entry token.now observers.old.entries) }
    ensures room { OnOk result (observers.new.room ≡ observers.old.room) }
    ensures marked { OnOk result (AreMarked shared.new observers.new.entries observers.new.marks) }
    ensures shared { OnOk result (shared.new ≡ shared_changed shared.old planned.entry.change) }
    ensures put { OnErr result (IsPut planned.entry.change) }
    ensures unchanged { OnErr result (shared.new ≡ shared.old) }
    ensures silent { OnErr result (link.new ≡ link.old) }
    ensures kept { OnErr result (observers.new ≡ observers.old) }
{
    let changed = change(&mut shared.store, &planned, index)?;
    observers.remove_token(token);
    mark_changed(observers, changed, shared);
    respond_change(link, token, &planned);
    Ok(changed)
}

/// Applies the change of a plan that this store returned with this index, and returns the hash of its path.
///
/// # Errors
///
/// Returns `AllocError` if allocation fails for the stored representation. The store is unchanged then.
// Never inlined, since a function clears all its locals.
#[inline(never)]
fn change(
    store: &mut Store,
    planned: &ChangePlan,
    index: Option<usize>,
) -> Result<Option<u8>, AllocError>
    requires taken { TakesChange store.old planned.now.change }
    requires index { IfSome index (λ index. IsChangeAt store.old planned.now.change index) }
    ensures ok { OnOk result (store.new ≡ changed store.old planned.now.change) }
    ensures hash { IfOk result (λ hash. hash ≡ change_hash planned.now.change) }
    ensures put { OnErr result (IsPut planned.now.change) }
    ensures err { OnErr result (store.new ≡ store.old) }
{
    let change = planned.change();
    let hash = hash_of_change(change);
    store.apply_at(change, index)?;
    Ok(hash)
}

/// Recomputes the changed marks of the observers of a path with this hash, if there is one.
#[tactic(auto, using(crate::proofs::values::ChainLemmas::none_observes, crate::proofs::values::MarkLemmas::anew_unconcerned))]
fn mark_changed(observers: &mut Observers, changed: Option<u8>, shared: &ServerState)
    ensures { observers.new ≡ record observers.old {
      marks = marks_after changed shared.entry.now observers.old.entries observers.old.marks;
    } }
{
    if let Some(hash) = changed {
        if observers.may_observe(hash) {
            observers.mark(Cause::Path(hash), shared);
        }
    }
}

/// Returns the hash of the path that a change stores or deletes, or `None` if there is no change.
fn hash_of_change(change: &PlannedChange) -> Option<u8>
    ensures { result ≡ change_hash (planned_value change.now) }
{
    match change {
        PlannedChange::Nothing => None,
        PlannedChange::Put { body, .. } => Some(hash_of_request(UriPath::of(body))),
        PlannedChange::Delete { body } => Some(hash_of_request(UriPath::of(body))),
    }
}

/// Delays the response to a request until `moment`, in seconds. Sends 5.03 if the pending list is full. In both cases
/// the observer with the request's token is removed.
#[inline(never)]
fn delay_answer(link: &mut Link, observers: &mut Observers, request: &MessageRef, moment: u64)
    requires ready { IsReady link.old }
    requires open { is_open link.old.phase ≡ true }
    ensures link { link.new
        ≡ (if can_hold link.old then link_after link.old (call.Hold request.now.token moment) else link_after link.old
        (call.Reply (response_message request.now.token (only code.service_unavailable)))) }
    ensures entries { observers.new.entries ≡ without_entry request.now.token observers.old.entries }
    ensures marks { (mark : ObserverValue → Option ℕ) → observers.old.marks ≡ map mark observers.old.entries →
        observers.new.marks ≡ map mark observers.new.entries }
    ensures room { observers.new.room ≡ observers.old.room }
{
    observers.remove_token(request.token());
    if link.hold(request.token().to_token(), moment).is_err() {
        respond(link, request.token(), &refused_delay(), false);
    }
}

/// Hands a request to the application, which may respond until `moment`, in seconds. Sends 5.03 and returns `false` if
/// the pending list is full. In both cases the observer with the request's token is removed.
#[inline(never)]
fn hand_over(link: &mut Link, observers: &mut Observers, request: &MessageRef, moment: u64) -> bool
    requires ready { IsReady link.old }
    requires open { is_open link.old.phase ≡ true }
    ensures link { link.new
        ≡ (if can_hold link.old then link_after link.old (call.HoldRequest request.now.token moment)
        else link_after link.old
        (call.Reply (response_message request.now.token (only code.service_unavailable)))) }
    ensures entries { observers.new.entries ≡ without_entry request.now.token observers.old.entries }
    ensures marks { (mark : ObserverValue → Option ℕ) → observers.old.marks ≡ map mark observers.old.entries →
        observers.new.marks ≡ map mark observers.new.entries }
    ensures room { observers.new.room ≡ observers.old.room }
    ensures handed { result ≡ can_hold link.old }
{
    observers.remove_token(request.token());
    if link
        .hold_request(request.token().to_token(), moment)
        .is_err()
    {
        respond(link, request.token(), &refused_delay(), false);
        return false;
    }
    true
}

/// Sends the pending entry that is first due at `now`, and returns `true` if there was one.
///
/// A delayed response is sent here, and 5.04 to a request that the application has not answered. A Pong with Custody is
/// queued by `Link::due` (RFC 8323 section 5.4.1).
#[tactic(auto, using(crate::proofs::values::SettleLemmas::none_is_pending))]
#[inline(always)]
pub(crate) fn send_due(link: &mut Link, now: u64) -> bool
    requires { IsReady link.old }
    ensures sent { (e : PendingEntryValue) → first_due now link.old.pending ≡ Some e
        → link.new ≡ link_sent link.old now e }
    ensures silent { first_due now link.old.pending ≡ None → link.new ≡ link.old }
    ensures found { result ≡ is_some (first_due now link.old.pending) }
{
    if link.pending() == 0 {
        return false;
    }
    send_first_due(link, now)
}

/// Does the same as `send_due`. (A separate function: a function clears all its locals, so these would slow down a
/// connection without pending entries.)
#[tactic(auto, using(crate::proofs::values::AnsweringLemmas::nothing_sent))]
#[inline(never)]
fn send_first_due(link: &mut Link, now: u64) -> bool
    requires { IsReady link.old }
    ensures sent { (e : PendingEntryValue) → first_due now link.old.pending ≡ Some e
        → link.new ≡ link_sent link.old now e }
    ensures silent { first_due now link.old.pending ≡ None → link.new ≡ link.old }
    ensures found { result ≡ is_some (first_due now link.old.pending) }
{
    match link.due(now) {
        Due::Nothing => false,
        Due::Pong => true,
        Due::Answer(token) => {
            respond(link, &TokenRef::of(&token), &delayed_response(), false);
            true
        }
        Due::Expired(token) => {
            respond(link, &TokenRef::of(&token), &expired_response(), false);
            true
        }
    }
}

/// Returns `true` if a request asks for an observer entry.
fn asks_entry(watch: Watch) -> bool
    ensures { result ≡ asks watch }
{
    match watch {
        Watch::Nothing => false,
        Watch::Add => true,
        Watch::Drop => false,
    }
}

/// Returns `true` if a response was sent whole, and not reduced to code and token.
fn is_whole(reply: Reply) -> bool
    ensures { result ≡ is_sent_whole reply }
{
    match reply {
        Reply::Whole => true,
        Reply::Bare => false,
        Reply::Stopped => false,
    }
}

/// Adds the observer that a request asks for. The list must not be full.
// Never inlined, since a function clears all its locals.
#[inline(never)]
fn add_observer(observers: &mut Observers, shared: &ServerState, request: &MessageRef)
    requires room { length observers.old.entries < observers.old.room }
    requires watched { MayObserve shared.now.store shared.now.now (path_of request.now)
        (answer_on shared.now request.now) }
    ensures value { observers.new ≡ record observers.old {
      entries = observers.old.entries ++ new_entry shared.entry.now request.now ∷ [];
      marks = observers.old.marks ++ None ∷ [];
    } }
    ensures marked { AreMarked shared.entry.now observers.old.entries observers.old.marks →
        AreMarked shared.entry.now observers.new.entries observers.new.marks }
{
    observers.add_observer(entry_for(shared, request));
}

/// Returns the observer entry of a request: its path must be present, and its current state counts as sent.
fn entry_for(shared: &ServerState, request: &MessageRef) -> Observer
    requires { MayObserve shared.now.store shared.now.now (path_of request.now) (answer_on shared.now request.now) }
    ensures entry { observer_value result ≡ new_entry shared.entry.now request.now }
    ensures tagged { IsTagged result }
    ensures unmarked { result.changed ≡ None }
{
    let Some(path) = request_path(request) else {
        unreachable!()
    };
    let State::Present(there) = shared.store.state(&path, shared.now) else {
        unreachable!()
    };
    Observer {
        token: request.token().to_token(),
        format: there.format(),
        mark: mark_at(shared.now, &there),
        hash: hash_of(&path),
        of_time: !path.kind().is_dynamic(),
        index: 0,
        changed: None,
        previous: None,
        previous_of_time: None,
        path,
    }
}

/// Notifies the first stale observer, which is `stale` (RFC 7641 section 4.2).
///
/// The entry stays, with the current state as the last one sent, if a 2.05 is sent whole. Otherwise the entry is
/// removed.
pub(crate) fn notify(
    link: &mut Link,
    observers: &mut Observers,
    shared: &ServerState,
    stale: StaleObserver,
)
    requires ready { IsReady link.old }
    requires answering { IsAnswering link.old.phase }
    requires first { IsFirstStale shared.now observers.old.entries stale }
    requires marked { AreMarked shared.now observers.old.entries observers.old.marks }
    ensures link { (o : ObserverValue) → slice_get observers.old.entries stale.index ≡ Some o →
        link.new ≡ link_after link.old (call.Reply (notification_on shared.entry.now o)) }
    ensures entries { (o : ObserverValue) → slice_get observers.old.entries stale.index ≡ Some o →
        observers.new.entries ≡ entries_notified shared.entry.now link.old observers.old.entries o }
    ensures room { observers.new.room ≡ observers.old.room }
    ensures marked { AreMarked shared.entry.now observers.new.entries observers.new.marks }
{
    let observer = observers.get(stale.index);
    let mut plan = Plan::new();
    let observed = ObservedPath {
        path: &observer.path,
        kind: observer.kind(),
        near: observer.index,
    };
    let index = shared
        .store
        .fill_notification(observed, observer.format, shared.now, &mut plan);
    let goes_on = plan.code() == Code::CONTENT;
    let reply = respond(link, &TokenRef::of(&observer.token), &plan, goes_on);
    if goes_on && is_whole(reply) {
        observers.set_mark(stale.index, stale.mark, index);
    } else {
        observers.remove(stale.index);
    }
}
