//! The requests, cancellations and Pings of a client, and how it forgets them.

ghost use Rattle.std.specs.Prelude.{◌≡◌};
ghost use Rattle.coap_client_engine.specs.ClientValues as value;

use super::Client;
use crate::run_end::Refusal;
use coap_client_request::{
    Extras, Method, Target, cancellation_message, formats_of, request_message,
};
use coap_conn::{NotOutstanding, RequestFault};
use coap_wire::{Token, uint_bytes};

impl Client {
    ghost use Rattle.std.specs.Prelude.{◌≡◌, ◌++◌, ◌∷◌, ℕ, List, [], None, Some, is_ok, IfOk, IfErr, OnOk, OnErr};
    ghost use Rattle.coap_client_engine.specs.Prelude.{RefusedBy, next_token, extras_value, client_sent};
    ghost use Rattle.coap_client_engine.specs.Prelude.{client_pinged, send_refusal, cancelling_refusal, ping_refusal};
    ghost use Rattle.coap_client_engine.specs.Prelude.{request_size, cancellation_size, ClientCall, ClientShows, Sent};
    ghost use Rattle.coap_client_engine.specs.Prelude.{client_cancelled, client_forgotten, Cancelled, Pinged, Forgot};
    ghost use Rattle.coap_client_engine.specs.Prelude.{may_forget};

    /// Queues a request to a target under a new token, and returns the token.
    ///
    /// The request is outstanding until its last response (RFC 7252 section 5.3.1). If `extras.observe` is set, the
    /// request is an observation (RFC 7641 section 3.1). If the call fails, nothing changes.
    ///
    /// # Errors
    ///
    /// The first that applies:
    ///
    /// - `NotOpen`: the connection is not open.
    /// - `TooMany`: the limit of outstanding requests, observations and Pings is reached.
    /// - `TokensSpent`: all tokens have been used.
    /// - `TooBig`: the message exceeds the limit of the peer or the local limit, the extra option 1,034 bytes, or the
    ///   payload 1,048,576 bytes.
    /// - `NoRoom`: the queue has too few free bytes.
    pub fn send<'x>(
        &mut self,
        method: Method,
        target: &'x Target,
        extras: &Extras<'x>,
    ) -> Result<Token, RequestFault>
        ensures answer { RefusedBy result (send_refusal self.old.link method target.now (extras_value extras.now)) }
        ensures token { IfOk result (λ t. t.items ≡ next_token self.old.link.tokens) }
        ensures after { OnOk result (self.new ≡ client_sent self.old method target.now (extras_value extras.now)) }
        ensures shows { OnOk result ((tokens : ℕ) (calls : List ClientCall) → ClientShows self.old tokens calls →
            ClientShows self.new tokens (calls ++ Sent method target.now (extras_value extras.now) ∷ [])) }
        ensures err { OnErr result (self.new ≡ self.old) }
    {
        match self.send_or_refuse(method, target, extras) {
            Ok(token) => Ok(token),
            Err(refusal) => Err(refusal.fault),
        }
    }

    /// Does the same as `send`. The error has the size of the message with a token of one byte, as the first request of
    /// a run has.
    pub(crate) fn send_or_refuse<'x>(
        &mut self,
        method: Method,
        target: &'x Target,
        extras: &Extras<'x>,
    ) -> Result<Token, Refusal>
        ensures sent { OnOk result (send_refusal self.old.link method target.now (extras_value extras.now) ≡ None) }
        ensures refused { IfErr result (λ refusal.
            send_refusal self.old.link method target.now (extras_value extras.now) ≡ Some refusal.fault) }
        ensures sizes { IfErr result (λ refusal. refusal ≡ record {
          fault = refusal.fault;
          size = request_size method target.now (extras_value extras.now);
          peer_max = self.old.link.peer_max;
        }) }
        ensures token { IfOk result (λ t. t.items ≡ next_token self.old.link.tokens) }
        ensures after { OnOk result (self.new ≡ client_sent self.old method target.now (extras_value extras.now)) }
        ensures shows { OnOk result ((tokens : ℕ) (calls : List ClientCall) → ClientShows self.old tokens calls →
            ClientShows self.new tokens (calls ++ Sent method target.now (extras_value extras.now) ∷ [])) }
        ensures err { OnErr result (self.new ≡ self.old) }
    {
        let formats = formats_of(extras);
        let given = *extras;
        let peer_max = self.link.peer_max();
        let Some(message) = request_message(method, target, &given, &formats) else {
            return match self.link.may_ask() {
                Ok(()) => Err(Refusal {
                    fault: RequestFault::TooBig,
                    size: None,
                    peer_max,
                }),
                Err(fault) => Err(Refusal {
                    fault,
                    size: None,
                    peer_max,
                }),
            };
        };
        let token = match self.link.request(&message, extras.observe) {
            Ok(token) => token,
            Err(fault) => {
                let size = Some(message.with_token(&first_token()).size());
                return Err(Refusal {
                    fault,
                    size,
                    peer_max,
                });
            }
        };
        Ok(token)
    }

    /// Cancels an observation: queues a GET with its token and Observe 1 (RFC 7641 section 3.6).
    ///
    /// The caller passes the target and the extras of the observation. The observation stays outstanding until its last
    /// response. If the call fails, nothing changes.
    ///
    /// # Errors
    ///
    /// The first that applies:
    ///
    /// - `NotOpen`: the connection is not open.
    /// - `NoSuchToken`: no observation with this token is outstanding, or it was cancelled before.
    /// - `TooBig`: the message exceeds the limit of the peer or the local limit, or the extra option 1,034 bytes.
    /// - `NoRoom`: the queue has too few free bytes.
    pub fn cancel<'x>(
        &mut self,
        token: &Token,
        target: &'x Target,
        extras: &Extras<'x>,
    ) -> Result<(), RequestFault>
        ensures answer { RefusedBy result (cancelling_refusal self.old.link token.now.items target.now
            (extras_value extras.now)) }
        ensures after { OnOk result (self.new ≡ client_cancelled self.old token.now.items target.now
            (extras_value extras.now)) }
        ensures shows { OnOk result ((tokens : ℕ) (calls : List ClientCall) → ClientShows self.old tokens calls →
            ClientShows self.new tokens (calls ++ Cancelled token.now.items target.now (extras_value extras.now) ∷
            [])) }
        ensures err { OnErr result (self.new ≡ self.old) }
    {
        match self.cancel_or_refuse(token, target, extras) {
            Ok(()) => Ok(()),
            Err(refusal) => Err(refusal.fault),
        }
    }

    /// Does the same as `cancel`. The error has the size of the message.
    pub(crate) fn cancel_or_refuse<'x>(
        &mut self,
        token: &Token,
        target: &'x Target,
        extras: &Extras<'x>,
    ) -> Result<(), Refusal>
        ensures sent { OnOk result (cancelling_refusal self.old.link token.now.items target.now
            (extras_value extras.now) ≡ None) }
        ensures refused { IfErr result (λ refusal. cancelling_refusal self.old.link token.now.items target.now
            (extras_value extras.now) ≡ Some refusal.fault) }
        ensures sizes { IfErr result (λ refusal. refusal ≡ record {
          fault = refusal.fault;
          size = cancellation_size token.now.items target.now (extras_value extras.now);
          peer_max = self.old.link.peer_max;
        }) }
        ensures after { OnOk result (self.new ≡ client_cancelled self.old token.now.items target.now
            (extras_value extras.now)) }
        ensures shows { OnOk result ((tokens : ℕ) (calls : List ClientCall) → ClientShows self.old tokens calls →
            ClientShows self.new tokens (calls ++ Cancelled token.now.items target.now (extras_value extras.now) ∷
            [])) }
        ensures err { OnErr result (self.new ≡ self.old) }
    {
        let formats = formats_of(extras);
        let given = *extras;
        let peer_max = self.link.peer_max();
        let Some(message) = cancellation_message(target, &given, &formats) else {
            return match self.link.may_cancel(token) {
                Ok(()) => Err(Refusal {
                    fault: RequestFault::TooBig,
                    size: None,
                    peer_max,
                }),
                Err(fault) => Err(Refusal {
                    fault,
                    size: None,
                    peer_max,
                }),
            };
        };
        if let Err(fault) = self.link.cancel(token, &message) {
            let size = Some(message.with_token(token).size());
            return Err(Refusal {
                fault,
                size,
                peer_max,
            });
        }
        Ok(())
    }

    /// Queues a Ping under a new token, and returns the token (RFC 8323 section 5.4).
    ///
    /// If `custody` is set, the Ping has the Custody option. If the call fails, nothing changes.
    ///
    /// # Errors
    ///
    /// The first that applies:
    ///
    /// - `NotOpen`: the connection is not open.
    /// - `TooMany`: the limit of outstanding requests, observations and Pings is reached.
    /// - `TokensSpent`: all tokens have been used.
    /// - `TooBig`: the Ping exceeds the limit of the peer or the local limit.
    /// - `NoRoom`: the queue has too few free bytes.
    pub fn ping(&mut self, custody: bool) -> Result<Token, RequestFault>
        ensures answer { RefusedBy result (ping_refusal self.old.link custody) }
        ensures token { IfOk result (λ t. t.items ≡ next_token self.old.link.tokens) }
        ensures after { OnOk result (self.new ≡ client_pinged self.old custody) }
        ensures shows { OnOk result ((tokens : ℕ) (calls : List ClientCall) → ClientShows self.old tokens calls →
            ClientShows self.new tokens (calls ++ Pinged custody ∷ [])) }
        ensures err { OnErr result (self.new ≡ self.old) }
    {
        self.link.ping(custody)
    }

    /// Ends an outstanding request, observation or Ping at this end of the connection. Nothing is queued, and the place
    /// is free for another request.
    ///
    /// A later response or Pong with the token is an `Event::Stranger`, and no later request or Ping has the token (RFC
    /// 7252 section 5.3.1).
    ///
    /// The server does not learn of the call. A forgotten observation goes on at the server, and each notification is a
    /// stranger. RFC 7641 section 3.6 lets a client reject a notification by a Reset, but over TCP there is no Reset
    /// (RFC 8323 section 7). To end an observation at the server too, the caller calls `cancel` and waits for the last
    /// response. `cancel` fails for a forgotten observation.
    ///
    /// # Errors
    ///
    /// - `NotOutstanding`: nothing with this token is outstanding, as always if the connection is not open. Nothing
    ///   changes.
    pub fn forget(&mut self, token: &Token) -> Result<(), NotOutstanding>
        ensures answer { is_ok result ≡ may_forget self.old.link token.now.items }
        ensures after { OnOk result (self.new ≡ client_forgotten self.old token.now.items) }
        ensures shows { OnOk result ((tokens : ℕ) (calls : List ClientCall) → ClientShows self.old tokens calls →
            ClientShows self.new tokens (calls ++ Forgot token.now.items ∷ [])) }
        ensures err { OnErr result (self.new ≡ self.old) }
    {
        self.link.forget(token)
    }
}

/// Returns the token of the request of a run, which is the first one of its client.
fn first_token() -> Token
    ensures { result.items ≡ value.first_token }
{
    let bytes = uint_bytes(1);
    let Ok(token) = Token::try_from(bytes.as_slice()) else {
        unreachable!()
    };
    token
}
