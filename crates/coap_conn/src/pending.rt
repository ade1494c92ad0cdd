//! Entries of the pending list: delayed responses, requests that wait for a response of the application, and Pongs with
//! Custody. Such a Pong waits for both (RFC 8323 section 5.4.1).

ghost use Rattle.std.specs.Prelude.{◌≡◌, ℕ, List, map, option_map, filter_map, position, ◌≤◌, ◌<◌, ◌++◌, ◌∷◌, []};
ghost use Rattle.std.specs.Prelude.{length, not, nat_lt, IfOk, IfSome, Some, slice_get, ◌==◌, remove};
ghost use Rattle.coap_conn.specs.Prelude.{reduce, due_moment as moment_come, is_answer_at as is_answer_due_at};
ghost use Rattle.coap_conn.specs.Prelude.{earliest_due as least_moment, answer_index as index_of_answer};
ghost use Rattle.coap_conn.specs.Prelude.{due_index as index_due, next_moment as moment_next, pong_index};
ghost use Rattle.coap_conn.specs.Prelude.{future_moment as moment_to_come, pending_value};
ghost use Rattle.coap_conn.specs.Prelude.{is_request_for as is_request_with};

use coap_wire::{Token, TokenRef};

/// Who gives a pending response.
#[derive(Clone, Copy, PartialEq, Eq)]
pub(crate) enum Responder {
    /// The engine, which sends the response at its time.
    Engine,
    /// The application, which may give its response until that time, the deadline of the request.
    Application,
}

/// Entry of the pending list. In contracts its value is a `PendingEntryValue`.
#[derive(Drop)]
pub(crate) enum PendingEntry {
    /// Response to a request, due at a time.
    Answer {
        /// Who gives the response.
        responder: Responder,
        /// Token of the request.
        token: Token,
        /// Time in seconds at which the response is due, or deadline of the application.
        moment: u64,
    },
    /// Pong with Custody to the Ping with this token, due when no entry precedes it in the list.
    Pong(Token),
}

impl PendingEntry {
    /// Returns the time of a response that is due at `now` or earlier.
    fn due_moment(&self, now: u64) -> Option<u64>
        ensures { result ≡ moment_come now (pending_value self.now) }
    {
        match self {
            PendingEntry::Answer { moment, .. } if *moment <= now => Some(*moment),
            _ => None,
        }
    }

    /// Returns the time of a response that is due after `now`.
    fn future_moment(&self, now: u64) -> Option<u64>
        ensures { result ≡ moment_to_come now (pending_value self.now) }
    {
        match self {
            PendingEntry::Answer { moment, .. } if *moment > now => Some(*moment),
            _ => None,
        }
    }

    /// Returns `true` if the entry is a response that is due at exactly this time.
    fn is_answer_at(&self, due: u64) -> bool
        ensures { result ≡ is_answer_due_at due (pending_value self.now) }
    {
        match self {
            PendingEntry::Answer { moment, .. } => *moment == due,
            PendingEntry::Pong(_) => false,
        }
    }

    /// Returns `true` if the entry is a request with this token that waits for a response of the application.
    fn is_request_for(&self, token: &TokenRef) -> bool
        ensures { result ≡ is_request_with token.now (pending_value self.now) }
    {
        match self {
            PendingEntry::Answer {
                responder: Responder::Application,
                token: own,
                ..
            } => token.equals(own),
            PendingEntry::Answer { .. } => false,
            PendingEntry::Pong(_) => false,
        }
    }
}

/// Returns the index of the entry that is due first at `now`. Responses whose time has come precede Pongs: the earliest
/// time first, and of equal times the first entry. Otherwise a Pong is due if it is the first entry of the list.
#[tactic(auto, unfolding(crate::specs::PendingEntries::due_index))]
pub(crate) fn due_in(pending: &[PendingEntry], now: u64) -> Option<usize>
    ensures first { result ≡ index_due now (map pending_value pending.now) }
    ensures within { IfSome result (λ i. i < length pending.now) }
{
    match answer_in(pending, now) {
        Some(index) => Some(index),
        None => pong_in(pending),
    }
}

/// Returns the index of the response that is due first at `now`: of the earliest time, the first entry.
fn answer_in(pending: &[PendingEntry], now: u64) -> Option<usize>
    ensures { result ≡ index_of_answer (least_moment now (map pending_value pending.now))
        (map pending_value pending.now) }
{
    let least = earliest_due(pending, now)?;
    pending.iter().position(|one| one.is_answer_at(least))
}

/// Returns the index of the first request with this token that waits for a response of the application.
pub(crate) fn request_in(pending: &[PendingEntry], token: &TokenRef) -> Option<usize>
    ensures first { result ≡ position (is_request_with token.now) (map pending_value pending.now) }
    ensures within { IfSome result (λ i. i < length pending.now) }
{
    pending.iter().position(|one| one.is_request_for(token))
}

/// Returns the earliest time of the responses that are due at `now`.
fn earliest_due(pending: &[PendingEntry], now: u64) -> Option<u64>
    ensures { result ≡ least_moment now (map pending_value pending.now) }
{
    pending.iter().filter_map(|one| one.due_moment(now)).min()
}

/// Returns the earliest time, after `now`, at which a response is due.
pub(crate) fn next_of(pending: &[PendingEntry], now: u64) -> Option<u64>
    ensures { result ≡ moment_next now (map pending_value pending.now) }
{
    pending
        .iter()
        .filter_map(|one| one.future_moment(now))
        .min()
}

/// Returns the index of a Pong that no entry precedes, which is 0.
fn pong_in(pending: &[PendingEntry]) -> Option<usize>
    ensures { result ≡ pong_index (map pending_value pending.now) }
{
    match pending {
        [PendingEntry::Pong(_), ..] => Some(0),
        _ => None,
    }
}
