//! Outgoing requests, observation cancellations and Pings, and how their entries are forgotten.

ghost use Rattle.std.specs.Prelude.{◌≡◌, ◌<◌, ◌+◌, ◌++◌, ◌∷◌, [], length, is_ok, IfOk, OnOk, OnErr};
ghost use Rattle.coap_conn.specs.Prelude.{bytes_of_uint, spelling, RefusedBy, History, after, LinkShows, bytes_of};
ghost use Rattle.coap_conn.specs.Prelude.{asking_in, asking_refusal, cancel_refusal, observation_refusal, new_refusal};
ghost use Rattle.coap_conn.specs.Prelude.{size_refusal, next_token, with_token, ping_with, outstanding_value};
ghost use Rattle.coap_conn.specs.Prelude.{link_after, may_forget};
ghost use Rattle.coap_conn.specs.Calls as call;

use super::Link;
use crate::outstanding::{Outstanding, cancel_in, has_entry_in, may_cancel_in, remove_entry_in};
use crate::phase::{NotOutstanding, Phase, RequestFault};
use crate::signal_messages::ping_to;
use coap_wire::{Builder, MessageBuilder, Token, TokenRef, copy_of, uint_bytes};

impl Link {
    /// Queues a request under a new token, which replaces that of `message`, and returns the token.
    ///
    /// The request is outstanding until a response with this token ends it. With `observe`, a notification does not end
    /// it (RFC 7252 section 5.3.1, RFC 7641 section 3.1).
    ///
    /// # Errors
    ///
    /// Returns the first of these that applies; the link is then unchanged:
    ///
    /// - `NotOpen`: the phase is not `Open`.
    /// - `TooMany`: the number of outstanding entries has reached its limit.
    /// - `TokensSpent`: no token is left.
    /// - `TooBig`: the message exceeds `max_sent` or the Max-Message-Size of the peer.
    /// - `NoRoom`: the message exceeds the free space of the queue.
    #[tactic(auto, unfolding(crate::specs::RequestState::asking_refusal, crate::specs::RequestState::new_refusal))]
    pub fn request(&mut self, message: &Builder, observe: bool) -> Result<Token, RequestFault>
        ensures answer { RefusedBy result (asking_refusal (asking_in self.old)
            (with_token message.now (next_token self.old.tokens))) }
        ensures token { IfOk result (λ t. t.items ≡ next_token self.old.tokens) }
        ensures after { OnOk result (self.new ≡ link_after self.old (call.Request message.now observe)) }
        ensures shows { OnOk result ((h : History) → LinkShows self.old h →
            LinkShows self.new (after h (call.Request message.now observe))) }
        ensures err { OnErr result (self.new ≡ self.old) }
    {
        let token = self.next_token()?;
        self.queue_request(&message.with_token(&token))?;
        self.enter(if observe {
            Outstanding::Observation {
                token: copy_of(&token),
                cancelled: false,
            }
        } else {
            Outstanding::Request(copy_of(&token))
        });
        Ok(token)
    }

    /// Queues a message that cancels the observation with this token, which replaces that of `message`. The observation
    /// stays outstanding until a response ends it (RFC 7641 section 3.6).
    ///
    /// # Errors
    ///
    /// Returns the first of these that applies; the link is then unchanged:
    ///
    /// - `NotOpen`: the phase is not `Open`.
    /// - `NoSuchToken`: no observation with this token is outstanding, or it was cancelled before.
    /// - `TooBig`: the message exceeds `max_sent` or the Max-Message-Size of the peer.
    /// - `NoRoom`: the message exceeds the free space of the queue.
    #[tactic(auto, unfolding(crate::specs::RequestState::cancel_refusal))]
    pub fn cancel(&mut self, token: &Token, message: &Builder) -> Result<(), RequestFault>
        ensures answer { RefusedBy result (cancel_refusal (asking_in self.old) token.now.items
            (with_token message.now token.now.items)) }
        ensures after { OnOk result (self.new ≡ link_after self.old (call.Cancel token.now.items message.now)) }
        ensures shows { OnOk result ((h : History) → LinkShows self.old h →
            LinkShows self.new (after h (call.Cancel token.now.items message.now))) }
        ensures err { OnErr result (self.new ≡ self.old) }
    {
        let Phase::Open = self.phase else {
            return Err(RequestFault::NotOpen);
        };
        let lies = TokenRef::of(token);
        if !may_cancel_in(&self.outstanding, &lies) {
            return Err(RequestFault::NoSuchToken);
        }
        self.queue_request(&message.with_token(token))?;
        cancel_in(&mut self.outstanding, &lies);
        Ok(())
    }

    /// Queues a Ping under a new token, with Custody if `custody` is set, and returns the token (RFC 8323 section 5.4).
    /// The Ping is outstanding until its Pong is received.
    ///
    /// # Errors
    ///
    /// Returns the same errors as `request`; the link is then unchanged.
    #[tactic(auto, unfolding(crate::specs::RequestState::asking_refusal, crate::specs::RequestState::new_refusal))]
    pub fn ping(&mut self, custody: bool) -> Result<Token, RequestFault>
        ensures answer { RefusedBy result (asking_refusal (asking_in self.old)
            (ping_with custody (next_token self.old.tokens))) }
        ensures token { IfOk result (λ t. t.items ≡ next_token self.old.tokens) }
        ensures after { OnOk result (self.new ≡ link_after self.old (call.Ping custody)) }
        ensures shows { OnOk result ((h : History) → LinkShows self.old h →
            LinkShows self.new (after h (call.Ping custody))) }
        ensures err { OnErr result (self.new ≡ self.old) }
    {
        let token = self.next_token()?;
        self.queue_request(&ping_to(&token, custody))?;
        self.enter(Outstanding::Ping(copy_of(&token)));
        Ok(token)
    }

    /// Removes the outstanding request, observation or Ping with this token, and queues nothing.
    ///
    /// A later response or Pong with the token is a stranger, because it matches nothing outstanding. No later request
    /// or Ping has the token (RFC 7252 section 5.3.1).
    ///
    /// # Errors
    ///
    /// `NotOutstanding`: nothing with this token is outstanding, as always if the phase is not `Open`. The link is
    /// unchanged.
    pub fn forget(&mut self, token: &Token) -> Result<(), NotOutstanding>
        ensures answer { is_ok result ≡ may_forget self.old token.now.items }
        ensures after { OnOk result (self.new ≡ link_after self.old (call.Forget token.now.items)) }
        ensures shows { OnOk result ((h : History) → LinkShows self.old h →
            LinkShows self.new (after h (call.Forget token.now.items))) }
        ensures err { OnErr result (self.new ≡ self.old) }
    {
        let Phase::Open = self.phase else {
            return Err(NotOutstanding);
        };
        let lies = TokenRef::of(token);
        if !has_entry_in(&self.outstanding, &lies) {
            return Err(NotOutstanding);
        }
        remove_entry_in(&mut self.outstanding, &lies);
        Ok(())
    }

    /// Checks that a request or a Ping may be sent now, whatever its size.
    ///
    /// # Errors
    ///
    /// Returns `NotOpen`, `TooMany` or `TokensSpent`, in this order and as `request` does.
    pub fn may_ask(&self) -> Result<(), RequestFault>
        ensures { RefusedBy result (new_refusal (asking_in self.now)) }
    {
        self.next_token()?;
        Ok(())
    }

    /// Checks that the observation with this token may be cancelled now, whatever the size of the message.
    ///
    /// # Errors
    ///
    /// Returns `NotOpen` or `NoSuchToken`, in this order and as `cancel` does.
    #[tactic(auto, unfolding(crate::specs::RequestState::observation_refusal))]
    pub fn may_cancel(&self, token: &Token) -> Result<(), RequestFault>
        ensures { RefusedBy result (observation_refusal (asking_in self.now) token.now.items) }
    {
        let Phase::Open = self.phase else {
            return Err(RequestFault::NotOpen);
        };
        if !may_cancel_in(&self.outstanding, &TokenRef::of(token)) {
            return Err(RequestFault::NoSuchToken);
        }
        Ok(())
    }

    /// Returns the token of the number after that of the last token.
    ///
    /// # Errors
    ///
    /// Returns `NotOpen`, `TooMany` or `TokensSpent`, in this order and as `request` does.
    #[tactic(auto, unfolding(crate::specs::RequestState::new_refusal))]
    fn next_token(&self) -> Result<Token, RequestFault>
        ensures answer { RefusedBy result (new_refusal (asking_in self.now)) }
        ensures token { IfOk result (λ t. t.items ≡ next_token self.now.tokens) }
    {
        let Phase::Open = self.phase else {
            return Err(RequestFault::NotOpen);
        };
        if self.outstanding.len() >= self.limits.outstanding() {
            return Err(RequestFault::TooMany);
        }
        if self.tokens == u64::MAX {
            return Err(RequestFault::TokensSpent);
        }
        Ok(token_numbered(self.tokens + 1))
    }

    /// Queues a request, a cancellation or a Ping.
    ///
    /// # Errors
    ///
    /// Returns `TooBig` or `NoRoom`, in this order and as `request` does; the link is then unchanged.
    fn queue_request<const N: usize>(
        &mut self,
        message: &MessageBuilder<N>,
    ) -> Result<(), RequestFault>
        ensures answer { RefusedBy result (size_refusal (asking_in self.old) (length (spelling message.now))) }
        ensures after { OnOk result (self.new ≡ record self.old
            { waiting = self.old.waiting ++ bytes_of (message.now ∷ []) }) }
        ensures err { OnErr result (self.new ≡ self.old) }
    {
        let size = message.size();
        if size > self.limit() as u64 {
            return Err(RequestFault::TooBig);
        }
        if size > self.queue.free() as u64 {
            return Err(RequestFault::NoRoom);
        }
        self.queue.put(message);
        Ok(())
    }

    /// Appends an outstanding entry, whose token is the next one. The list must not be full, and a token must be left.
    fn enter(&mut self, one: Outstanding)
        requires room { length self.old.outstanding < self.old.limits.outstanding }
        requires token { self.old.tokens < 18446744073709551615 }
        ensures { self.new
            ≡ record self.old {
              outstanding = self.old.outstanding ++ outstanding_value one ∷ [];
              tokens =
                  self.old.tokens + 1;
            } }
    {
        self.outstanding.push_reserved(one);
        self.tokens += 1;
    }
}

/// Returns the token that encodes a number in the fewest bytes.
fn token_numbered(number: u64) -> Token
    ensures { result.items ≡ bytes_of_uint number }
{
    let bytes = uint_bytes(number);
    let Ok(token) = Token::try_from(bytes.as_slice()) else {
        unreachable!()
    };
    token
}
