//! Operations on the connections of a server, by index.

ghost use Rattle.std.specs.Prelude.{◌≡◌, ◌<◌, ◌≤◌, ◌+◌, ◌^◌, true, false, None, Some, length, map, slice_get};
ghost use Rattle.std.specs.Prelude.{if◌then◌else◌, is_err, is_some, IfNone, IfSome, IfOk, OnOk, OnErr};
ghost use Rattle.coap_server_engine.specs.Prelude.{values, values_of, SessionValue, IsMarked, unmarked, AreAllMarked};
ghost use Rattle.coap_server_engine.specs.Prelude.{AreMarkedBut, AreMarkedAfter, RefusedBy, AddsBytes, WritesPart};
ghost use Rattle.coap_server_engine.specs.Prelude.{IsFlushedAt, session_written, session_ended, session_released};
ghost use Rattle.coap_server_engine.specs.Prelude.{session_announced, session_settled, LiesAt, session_of, changed_at};
ghost use Rattle.coap_server_engine.specs.Prelude.{settled_entry, AreSettled, UnaffectedAreSettled, AreUntouched};
ghost use Rattle.coap_server_engine.specs.Prelude.{AreOthersSettled, settled_pending, released_refusal_on, IsAnnounced};
ghost use Rattle.coap_server_engine.specs.Prelude.{handled_so, responded_refusal_on, IsReplyOn, message_of};
ghost use Rattle.coap_server_engine.specs.Prelude.{session_given_by, splits_of, Covers, AreCovered};
ghost use Rattle.coap_server_engine.specs.Prelude.{AreCoveredBut, AddsConcerned, earliest_deadline as earliest_of};
ghost use Rattle.coap_server_session.specs.declared.cause.Cause.TheVariants as causes;

use super::Sessions;
use super::concerned::Concerned;
use crate::index_set::IndexSet;
use coap_conn::{Reason, Reply};
use coap_io::{Outlet, WriteFailed, write_parts};
use coap_model::{AnnounceFault, ConnId, Handled, ReleaseFault, ResponseFault};
use coap_server_session::{Cause, ServerState, TakeOutcome, sooner};

/// Returns `true` if a connection has this index and this id.
fn is_at(sessions: &Sessions, at: usize, id: ConnId) -> bool
    ensures { result ≡ true → LiesAt id at (unmarked sessions.now.entries) }
{
    match sessions.as_slice().get_index(at) {
        Some((key, _)) => *key == id,
        None => false,
    }
}

/// Returns the index of a connection, or `None` if no connection has this id. Looks at the index `recent` first.
#[inline(always)]
pub(super) fn find(sessions: &Sessions, recent: usize, id: ConnId) -> Option<usize>
    ensures none { IfNone result (session_of id (unmarked sessions.now.entries) ≡ None) }
    ensures some { IfSome result (λ at. LiesAt id at (unmarked sessions.now.entries)) }
{
    if is_at(sessions, recent, id) {
        return Some(recent);
    }
    search(sessions, id)
}

/// Returns the index of a connection, or `None` if no connection has this id.
// Never inlined: inlined at each search, it costs a GET with one request outstanding 87 instructions.
#[inline(never)]
fn search(sessions: &Sessions, id: ConnId) -> Option<usize>
    ensures none { IfNone result (session_of id (unmarked sessions.now.entries) ≡ None) }
    ensures some { IfSome result (λ at. LiesAt id at (unmarked sessions.now.entries)) }
{
    sessions.get_index_of(&id)
}

/// Returns the index of the first connection, from an index on, that a change may affect.
///
/// `set` has all connections that changes of this kind may concern. Connections that they do not concern are removed
/// from it.
#[inline(always)]
pub(super) fn next_touched(
    set: &mut IndexSet,
    sessions: &Sessions,
    from: usize,
    cause: Cause,
    now: u64,
) -> Option<usize>
    requires from { from ≤ length sessions.now.entries }
    requires covered { Covers cause set.old.words (unmarked sessions.now.entries) }
    ensures covered { Covers cause set.new.words (unmarked sessions.now.entries) }
    ensures none { IfNone result (AreUntouched cause now from (length sessions.now.entries) sessions.now.entries) }
    ensures some { IfSome result (λ at. AreUntouched cause now from at sessions.now.entries) }
    ensures within { IfSome result (λ at. at < length sessions.now.entries) }
    ensures from { IfSome result (λ at. from ≤ at) }
    ensures next { IfSome result (λ at. at + 1 < 2 ^ 64) }
{
    let end = sessions.len();
    let mut at = set.next(from, end);
    while at < end {
        let session = &sessions[at];
        if session.is_touched(cause, now) {
            return Some(at);
        }
        set.remove_unless(at, session.may_be_touched(cause));
        at = set.next(at + 1, end);
    }
    None
}

/// Returns the earliest of the deadlines of the connections. `set` is as for `next_touched`, for a change of the time.
pub(super) fn earliest_deadline(set: &mut IndexSet, sessions: &Sessions, now: u64) -> Option<u64>
    requires { Covers (causes.Moment now) set.old.words (unmarked sessions.now.entries) }
    ensures covered { Covers (causes.Moment now) set.new.words (unmarked sessions.now.entries) }
    ensures earliest { result ≡ earliest_of now (unmarked sessions.now.entries) }
{
    let cause = Cause::Moment(now);
    let end = sessions.len();
    let mut due = None;
    let mut at = set.next(0, end);
    while at < end {
        let session = &sessions[at];
        due = sooner(due, session.due(now));
        set.remove_unless(at, session.may_be_touched(cause));
        at = set.next(at + 1, end);
    }
    due
}

/// Recomputes the marks on every connection that a change may affect, and settles these connections. The others are
/// settled already. `set` is as for `next_touched`.
pub(super) fn settle_touched(
    set: &mut IndexSet,
    sessions: &mut Sessions,
    shared: &ServerState,
    cause: Cause,
)
    requires covered { Covers cause set.old.words (unmarked sessions.old.entries) }
    requires settled { UnaffectedAreSettled cause shared.now (unmarked sessions.old.entries) }
    requires marked { AreMarkedBut cause shared.now sessions.old.entries }
    ensures covered { Covers cause set.new.words (unmarked sessions.new.entries) }
    ensures after { unmarked sessions.new.entries
        ≡ map (settled_entry shared.entry.now) (unmarked sessions.old.entries) }
    ensures marked { AreAllMarked shared.entry.now sessions.new.entries }
    ensures splits { splits_of sessions.new.entries ≡ splits_of sessions.old.entries }
{
    let mut from = 0;
    while let Some(at) = next_touched(set, sessions, from, cause, shared.now) {
        sessions[at].mark_and_settle(shared, cause);
        from = at + 1;
    }
}

/// Settles every connection that a change of a path with this hash may affect, as `settle_touched` does.
// Never inlined, since most messages change nothing.
#[inline(never)]
pub(super) fn settle_observers(
    sets: &mut Concerned,
    sessions: &mut Sessions,
    shared: &ServerState,
    hash: u8,
)
    requires covered { AreCovered sets.old (unmarked sessions.old.entries) }
    requires settled { UnaffectedAreSettled (causes.Path hash) shared.now (unmarked sessions.old.entries) }
    requires marked { AreMarkedBut (causes.Path hash) shared.now sessions.old.entries }
    ensures covered { AreCovered sets.new (unmarked sessions.new.entries) }
    ensures after { unmarked sessions.new.entries
        ≡ map (settled_entry shared.entry.now) (unmarked sessions.old.entries) }
    ensures marked { AreAllMarked shared.entry.now sessions.new.entries }
    ensures splits { splits_of sessions.new.entries ≡ splits_of sessions.old.entries }
{
    settle_touched(
        &mut sets.paths[usize::from(hash)],
        sessions,
        shared,
        Cause::Path(hash),
    );
}

/// Settles every connection if the one at an index, which received a message, changed the resource at a path with this
/// hash. If nothing changed, settles only that connection, and only if an entry is pending. The connections that the
/// change may concern are added to `affected`.
// Always inlined: a message that changes nothing then costs two comparisons, and no call.
#[inline(always)]
pub(super) fn settle_after(
    changed: Option<u8>,
    sets: &mut Concerned,
    sessions: &mut Sessions,
    at: usize,
    shared: &ServerState,
    affected: &mut IndexSet,
)
    requires within { at < length sessions.old.entries }
    requires covered { AreCoveredBut at sets.old (unmarked sessions.old.entries) }
    requires others { AreOthersSettled changed at shared.now (unmarked sessions.old.entries) }
    requires marked { AreMarkedAfter changed shared.now sessions.old.entries }
    requires own { IfSome (slice_get (values sessions.old) at) (IsMarked shared.now) }
    ensures covered { AreCovered sets.new (unmarked sessions.new.entries) }
    ensures after { unmarked sessions.new.entries ≡ (if is_some changed then map (settled_entry shared.entry.now)
        (unmarked sessions.old.entries) else changed_at at (settled_pending shared.entry.now)
        (unmarked sessions.old.entries)) }
    ensures marked { AreAllMarked shared.entry.now sessions.new.entries }
    ensures splits { splits_of sessions.new.entries ≡ splits_of sessions.old.entries }
    ensures affected { AddsConcerned changed affected.old.words affected.new.words (unmarked sessions.old.entries) }
{
    let is_busy = sets.note(&sessions[at], at);
    match changed {
        None => {
            if is_busy {
                sessions[at].settle_if_pending(shared);
            }
        }
        Some(hash) => {
            affected.join(sets.of_path(hash));
            sessions[at].settle(shared);
            settle_observers(sets, sessions, shared, hash);
        }
    }
}

/// Returns the result of a `take` with this outcome. `takes` is `true` if the connection accepted bytes before it, and
/// `stop` is the reason for which the connection no longer accepts messages.
pub(super) fn what_was_handled(takes: bool, outcome: TakeOutcome, stop: Option<Reason>) -> Handled
    ensures { result ≡ handled_so takes outcome.handled stop }
{
    if !takes {
        return Handled::Nothing;
    }
    match stop {
        Some(reason) => Handled::Stopped(reason),
        None => {
            if outcome.handled {
                Handled::Message
            } else {
                Handled::Nothing
            }
        }
    }
}

/// Removes the first `count` bytes from the queue of the connection at an index, and settles it.
pub(super) fn written_at(sessions: &mut Sessions, at: usize, shared: &ServerState, count: usize)
    requires within { at < length sessions.old.entries }
    requires waiting { IfSome (slice_get (values_of (unmarked sessions.old.entries)) at)
        (λ s. count ≤ length s.link.waiting) }
    requires settled { AreSettled shared.now (unmarked sessions.old.entries) }
    requires marked { AreAllMarked shared.now sessions.old.entries }
    ensures after { unmarked sessions.new.entries ≡ changed_at at
        (λ s. session_settled shared.entry.now (session_written s count)) (unmarked sessions.old.entries) }
    ensures marked { AreAllMarked shared.entry.now sessions.new.entries }
{
    sessions[at].written_and_settled(shared, count);
}

/// Records the end of the input of the connection at an index, and settles it.
pub(super) fn end_at(sessions: &mut Sessions, at: usize, shared: &ServerState)
    requires within { at < length sessions.old.entries }
    requires marked { AreAllMarked shared.now sessions.old.entries }
    ensures after { unmarked sessions.new.entries ≡ changed_at at
        (λ s. session_settled shared.entry.now (session_ended s)) (unmarked sessions.old.entries) }
    ensures marked { AreAllMarked shared.entry.now sessions.new.entries }
{
    let session = &mut sessions[at];
    session.end();
    session.settle(shared);
}

/// Releases the connection at an index, and settles it.
///
/// # Errors
///
/// As `Session::release`. Nothing has changed then.
#[tactic(auto, using(crate::proofs::values::ServerLemmas::unmarked_at))]
pub(super) fn release_at(
    sessions: &mut Sessions,
    at: usize,
    shared: &ServerState,
) -> Result<(), ReleaseFault>
    requires within { at < length sessions.old.entries }
    requires marked { AreAllMarked shared.now sessions.old.entries }
    ensures answer { RefusedBy result (released_refusal_on (slice_get (values_of (unmarked sessions.old.entries)) at)) }
    ensures ok { OnOk result (unmarked sessions.new.entries ≡ changed_at at
        (λ s. session_settled shared.entry.now (session_released s)) (unmarked sessions.old.entries)) }
    ensures marked { AreAllMarked shared.entry.now sessions.new.entries }
    ensures err { OnErr result (sessions.new.entries ≡ sessions.old.entries) }
{
    let session = &mut sessions[at];
    session.release()?;
    session.settle(shared);
    Ok(())
}

/// Queues a response of the application on the connection at an index, and settles it.
///
/// # Errors
///
/// As `Session::respond`. Nothing has changed then.
#[tactic(auto, using(crate::proofs::values::ServerLemmas::unmarked_at))]
pub(super) fn respond_at(
    sessions: &mut Sessions,
    at: usize,
    shared: &ServerState,
    response: &[u8],
) -> Result<Reply, ResponseFault>
    requires within { at < length sessions.old.entries }
    requires marked { AreAllMarked shared.now sessions.old.entries }
    ensures answer { RefusedBy result
        (responded_refusal_on response.now (slice_get (values_of (unmarked sessions.old.entries)) at)) }
    ensures reply { IfOk result (λ r.
        IsReplyOn response.now r (slice_get (values_of (unmarked sessions.old.entries)) at)) }
    ensures ok { OnOk result (unmarked sessions.new.entries ≡ changed_at at
        (λ s. session_settled shared.entry.now (session_given_by (message_of response.now) s))
        (unmarked sessions.old.entries)) }
    ensures marked { AreAllMarked shared.entry.now sessions.new.entries }
    ensures err { OnErr result (sessions.new.entries ≡ sessions.old.entries) }
{
    let session = &mut sessions[at];
    let reply = session.respond(response)?;
    session.settle(shared);
    Ok(reply)
}

/// Announces a size on the connection at an index, and settles it.
///
/// # Errors
///
/// As `Session::announce`. Nothing has changed then.
#[tactic(auto, using(crate::proofs::values::ServerLemmas::unmarked_at))]
pub(super) fn announce_at(
    sessions: &mut Sessions,
    at: usize,
    shared: &ServerState,
    size: u32,
) -> Result<(), AnnounceFault>
    requires within { at < length sessions.old.entries }
    requires marked { AreAllMarked shared.now sessions.old.entries }
    ensures answer { IsAnnounced size (slice_get (values_of (unmarked sessions.old.entries)) at) result }
    ensures ok { OnOk result (unmarked sessions.new.entries ≡ changed_at at
        (λ s. session_settled shared.entry.now (session_announced s size)) (unmarked sessions.old.entries)) }
    ensures marked { AreAllMarked shared.entry.now sessions.new.entries }
    ensures err { OnErr result (sessions.new.entries ≡ sessions.old.entries) }
{
    let session = &mut sessions[at];
    session.announce(size)?;
    session.settle(shared);
    Ok(())
}

/// Writes all queued bytes of the connection at an index and settles it. Returns `false` if no byte was queued.
///
/// # Errors
///
/// Returns `WriteFailed` if a write fails. The connection is unchanged then.
pub(super) fn flush_at<W: Outlet>(
    sessions: &mut Sessions,
    at: usize,
    shared: &ServerState,
    writer: &mut W,
) -> Result<bool, WriteFailed>
    requires within { at < length sessions.old.entries }
    requires works { W.is_failed writer.old ≡ false }
    requires marked { AreAllMarked shared.now sessions.old.entries }
    ensures ok { IfOk result (λ waited. (s : SessionValue) →
        slice_get (values_of (unmarked sessions.old.entries)) at ≡ Some s →
        IsFlushedAt at shared.entry.now s (unmarked sessions.old.entries) (unmarked sessions.new.entries)
        (AddsBytes (W.written writer.old) (W.written writer.new)) waited) }
    ensures part { OnErr result ((s : SessionValue) →
        slice_get (values_of (unmarked sessions.old.entries)) at ≡ Some s →
        WritesPart (W.written writer.old) (W.written writer.new) s.link.waiting) }
    ensures marked { AreAllMarked shared.entry.now sessions.new.entries }
    ensures err { OnErr result (sessions.new.entries ≡ sessions.old.entries) }
    ensures failure { W.is_failed writer.new ≡ is_err result }
{
    let session = &mut sessions[at];
    let count = session.waiting();
    if count == 0 {
        return Ok(false);
    }
    let (first, second) = session.parts();
    write_parts(writer, first, second)?;
    session.written(count);
    session.settle(shared);
    Ok(true)
}
