//! Outstanding requests, observations and Pings. This module also decides which entry a response matches, and whether
//! the response is the last one to that entry.

ghost use Rattle.std.specs.Prelude.{◌≡◌, ◌≤◌, length, map, find, option_map, vec_capacity, ◌<◌, ◌++◌, ◌∷◌, [], not};
ghost use Rattle.std.specs.Prelude.{nat_lt, IfOk};
ghost use Rattle.coap_conn.specs.Prelude.{list_any, matches_response as asks, matches_pong as pings};
ghost use Rattle.coap_conn.specs.Prelude.{may_cancel as cancellable, is_last as is_last_of};
ghost use Rattle.coap_conn.specs.Prelude.{is_notification as notifies, has_observe as observe_in, without_matching};
ghost use Rattle.coap_conn.specs.Prelude.{without_pinged, with_cancelled, outstanding_value, cancelled_by};
ghost use Rattle.coap_conn.specs.Prelude.{is_entry_of, without_entry_of};

use coap_wire::option_numbers::OBSERVE;
use coap_wire::{MessageRef, Token, TokenRef};

/// Entry of the outstanding list. In contracts its value is an `OutstandingValue`.
#[derive(Drop)]
pub(crate) enum Outstanding {
    /// Request with this token, which expects one response.
    Request(Token),
    /// Observation, which expects responses until one of them ends it (RFC 7641).
    Observation {
        /// Token of the request.
        token: Token,
        /// `true` after a cancellation was sent.
        cancelled: bool,
    },
    /// Ping with this token (RFC 8323 section 5.4).
    Ping(Token),
}

impl Outstanding {
    /// Returns `true` if a response with this token matches the entry.
    fn matches_response(&self, token: &TokenRef) -> bool
        ensures { result ≡ asks token.now (outstanding_value self.now) }
    {
        match self {
            Outstanding::Request(own) => token.equals(own),
            Outstanding::Observation { token: own, .. } => token.equals(own),
            Outstanding::Ping(_) => false,
        }
    }

    /// Returns `true` if a Pong with this token matches the entry.
    fn matches_pong(&self, token: &TokenRef) -> bool
        ensures { result ≡ pings token.now (outstanding_value self.now) }
    {
        match self {
            Outstanding::Request(_) => false,
            Outstanding::Observation { .. } => false,
            Outstanding::Ping(pinged) => token.equals(pinged),
        }
    }

    /// Returns `true` if a response or a Pong with this token matches the entry.
    fn has_token(&self, token: &TokenRef) -> bool
        ensures { result ≡ is_entry_of token.now (outstanding_value self.now) }
    {
        self.matches_response(token) || self.matches_pong(token)
    }

    /// Returns `true` if the entry is an observation with this token that was not cancelled.
    fn may_cancel(&self, token: &TokenRef) -> bool
        ensures { result ≡ cancellable token.now (outstanding_value self.now) }
    {
        match self {
            Outstanding::Request(_) => false,
            Outstanding::Observation {
                token: own,
                cancelled,
            } => token.equals(own) && !*cancelled,
            Outstanding::Ping(_) => false,
        }
    }

    /// Returns `true` if a response that matches the entry is the last one to it.
    fn is_last(&self, response: &MessageRef) -> bool
        ensures { result ≡ is_last_of response.now (outstanding_value self.now) }
    {
        match self {
            Outstanding::Request(_) => true,
            Outstanding::Observation { .. } => !is_notification(response),
            Outstanding::Ping(_) => true,
        }
    }

    /// Marks the entry as cancelled if it is an observation with this token.
    fn cancel(&mut self, token: &TokenRef)
        ensures { outstanding_value self.new ≡ cancelled_by token.now (outstanding_value self.old) }
    {
        match self {
            Outstanding::Request(_) => {}
            Outstanding::Observation {
                token: own,
                cancelled,
            } => {
                if token.equals(own) {
                    *cancelled = true;
                }
            }
            Outstanding::Ping(_) => {}
        }
    }
}

/// Returns `true` if a response is the last one to the first entry that it matches, or `None` if it matches no entry.
pub(crate) fn last_in(entries: &[Outstanding], response: &MessageRef) -> Option<bool>
    ensures { result
        ≡ option_map (is_last_of response.now) (find (asks response.now.token) (map outstanding_value entries.now)) }
{
    let entry = entries
        .iter()
        .find(|entry| entry.matches_response(response.token()))?;
    Some(entry.is_last(response))
}

/// Returns `true` if an entry is a Ping with this token.
pub(crate) fn has_ping_in(entries: &[Outstanding], token: &TokenRef) -> bool
    ensures { result ≡ list_any (pings token.now) (map outstanding_value entries.now) }
{
    entries.iter().any(|entry| entry.matches_pong(token))
}

/// Returns `true` if an entry has this token.
pub(crate) fn has_entry_in(entries: &[Outstanding], token: &TokenRef) -> bool
    ensures { result ≡ list_any (is_entry_of token.now) (map outstanding_value entries.now) }
{
    entries.iter().any(|entry| entry.has_token(token))
}

/// Returns `true` if an entry is an observation with this token that was not cancelled.
pub(crate) fn may_cancel_in(entries: &[Outstanding], token: &TokenRef) -> bool
    ensures { result ≡ list_any (cancellable token.now) (map outstanding_value entries.now) }
{
    entries.iter().any(|entry| entry.may_cancel(token))
}

/// Marks the observation with this token as cancelled.
pub(crate) fn cancel_in(entries: &mut Vec<Outstanding>, token: &TokenRef)
    ensures cancelled { map outstanding_value entries.new.items
        ≡ with_cancelled token.now (map outstanding_value entries.old.items) }
    ensures as_many { length entries.new.items ≡ length entries.old.items }
    ensures capacity { vec_capacity entries.new ≡ vec_capacity entries.old }
{
    for index in 0..entries.len() {
        entries[index].cancel(token);
    }
}

/// Removes the requests and observations with this token.
pub(crate) fn remove_request_in(entries: &mut Vec<Outstanding>, token: &TokenRef)
    ensures others { map outstanding_value entries.new.items
        ≡ without_matching token.now (map outstanding_value entries.old.items) }
    ensures fewer { length entries.new.items ≤ length entries.old.items }
    ensures capacity { vec_capacity entries.new ≡ vec_capacity entries.old }
{
    entries.retain(|entry| !entry.matches_response(token));
}

/// Removes the Pings with this token.
pub(crate) fn remove_ping_in(entries: &mut Vec<Outstanding>, token: &TokenRef)
    ensures others { map outstanding_value entries.new.items
        ≡ without_pinged token.now (map outstanding_value entries.old.items) }
    ensures fewer { length entries.new.items ≤ length entries.old.items }
    ensures capacity { vec_capacity entries.new ≡ vec_capacity entries.old }
{
    entries.retain(|entry| !entry.matches_pong(token));
}

/// Removes the entries with this token.
pub(crate) fn remove_entry_in(entries: &mut Vec<Outstanding>, token: &TokenRef)
    ensures others { map outstanding_value entries.new.items
        ≡ without_entry_of token.now (map outstanding_value entries.old.items) }
    ensures fewer { length entries.new.items ≤ length entries.old.items }
    ensures capacity { vec_capacity entries.new ≡ vec_capacity entries.old }
{
    entries.retain(|entry| !entry.has_token(token));
}

/// Returns `true` if a response is a notification, so that others may follow. Its code is 2.xx, it has Observe, and all
/// its critical options are recognised (RFC 7641 sections 3.2 and 4.2).
#[tactic(auto, unfolding(crate::specs::Outstanding::is_notification))]
fn is_notification(response: &MessageRef) -> bool
    ensures { result ≡ notifies response.now }
{
    response.code().class() == 2 && has_observe(response) && response.first_critical().is_none()
}

/// Returns `true` if a response has an Observe option that is recognised (RFC 7641 section 2).
fn has_observe(response: &MessageRef) -> bool
    ensures { result ≡ observe_in response.now }
{
    response.known().any(|option| option.number == OBSERVE)
}
