//! Pending entries of a link: adding a delayed response, and removing the entry that is due.

ghost use Rattle.std.specs.Prelude.{◌≡◌, ℕ, List, true, IsTrue, IsFalse, OnOk, OnErr};
ghost use Rattle.coap_conn.specs.Prelude.{IsAnswering, is_open, AnAnswer, AnExpired, answer_by, due_result, first_due};
ghost use Rattle.coap_conn.specs.Prelude.{due_value, History};
ghost use Rattle.coap_conn.specs.Prelude.{after, LinkShows, IsReady, can_hold, link_after};
ghost use Rattle.coap_conn.specs.Calls as call;

use super::Link;
use crate::pending::{PendingEntry, Responder, due_in};
use crate::phase::{Due, Full};
use coap_wire::{Token, TokenRef};

impl Link {
    /// Appends a delayed response to the pending list, which is due at `moment`, in seconds. `token` is that of its
    /// request.
    ///
    /// # Errors
    ///
    /// - `Full`: the pending list has reached its limit. The link is unchanged.
    ///
    /// # Preconditions
    ///
    /// The phase is `Open`.
    pub fn hold(&mut self, token: Token, moment: u64) -> Result<(), Full>
        requires open { is_open self.old.phase ≡ true }
        ensures pending { OnOk result (IsTrue (can_hold self.old)) }
        ensures full { OnErr result (IsFalse (can_hold self.old)) }
        ensures after { OnOk result (self.new ≡ link_after self.old (call.Hold token.items moment)) }
        ensures shows { OnOk result ((h : History) → LinkShows self.old h →
            LinkShows self.new (after h (call.Hold token.items moment))) }
        ensures err { OnErr result (self.new ≡ self.old) }
    {
        if self.pending.len() >= self.limits.pending() {
            return Err(Full);
        }
        self.pending.push_reserved(PendingEntry::Answer {
            responder: Responder::Engine,
            token,
            moment,
        });
        Ok(())
    }

    /// Removes the entry that is due first at `now`, in seconds, from the pending list, and returns it.
    ///
    /// Responses whose time has come precede Pongs: the earliest time first, and of equal times the first entry. The
    /// caller sends such a response by `reply`, also to a request that the application has not answered. If no response
    /// is due, a Pong that is the first entry is due. The link queues this Pong with Custody (RFC 8323 section 5.4.1),
    /// or without it if only that fits the peer's limit. If neither fits, the connection stops.
    ///
    /// # Preconditions
    ///
    /// The queue has room for a message of `max_sent` bytes.
    #[tactic(auto, unfolding(crate::specs::PendingEntries::first_due, crate::specs::PendingEntries::without_due))]
    pub fn due(&mut self, now: u64) -> Due
        requires ready { IsReady self.old }
        ensures due { due_value result ≡ due_result (first_due now self.old.pending) }
        ensures after { self.new ≡ link_after self.old (call.Due now) }
        ensures shows { (h : History) → LinkShows self.old h → LinkShows self.new (after h (call.Due now)) }
        // If a response is due, or a request has expired, the preconditions of `reply` hold.
        ensures answer { (token : List ℕ) → due_value result ≡ AnAnswer token →
            IsReady self.new × IsAnswering self.new.phase }
        ensures expired { (token : List ℕ) → due_value result ≡ AnExpired token →
            IsReady self.new × IsAnswering self.new.phase }
    {
        let Some(index) = due_in(&self.pending, now) else {
            return Due::Nothing;
        };
        match self.pending.remove(index) {
            PendingEntry::Answer {
                responder,
                token,
                ..
            } => due_response(responder, token),
            PendingEntry::Pong(token) => {
                self.pong(&TokenRef::of(&token), true);
                Due::Pong
            }
        }
    }
}

/// Returns the result for a response that is due, or for a request that the application has not answered.
fn due_response(responder: Responder, token: Token) -> Due
    ensures { due_value result ≡ answer_by responder token.items }
{
    match responder {
        Responder::Engine => Due::Answer(token),
        Responder::Application => Due::Expired(token),
    }
}
