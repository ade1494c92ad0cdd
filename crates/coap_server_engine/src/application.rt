//! The interface through which a program answers the requests that its server hands to it.

ghost use Rattle.std.specs.Prelude.{◌≡◌, ◌≤◌, ℕ, List, [], ◌∷◌, false, Option, Some, None, IfNone, vec_capacity};
ghost use Rattle.coap_server_engine.specs.Prelude.{Exchange, Requested, Offered, Given, Gone, AnswersMore, offers};
ghost use Rattle.coap_server_engine.specs.Prelude.{AreUnanswered};
ghost use Rattle.coap_io.specs.declared.wire.Wait.{Wait};
ghost use Rattle.coap_io.specs.declared.wire.Wait.TheVariants.{Forever};

use coap_conn::Reply;
use coap_io::Wait;
use coap_model::{ConnId, ResponseFault};
use coap_wire::MessageRef;

/// Program that answers requests: those of the entries in `Applications` with which the server was created.
///
/// The server calls it during a run. Contracts see the exchanges: the requests that it was shown, its responses and
/// their results, in order. `NoApplication` answers nothing, for servers that hand over no request.
pub trait Application {
    /// States what the application made of the exchanges so far, in order. By default nothing is stated.
    ghost follows: { Self → List Exchange → Type 0 } = { λ _ _. Unit {0} };

    /// States that the application has no later response now. By default nothing is stated.
    ghost idle: { Self → Type 0 } = { λ _. Unit {0} };

    /// States that this is the longest wait that delays no response, at a time, in seconds. By default
    /// nothing is stated.
    ghost waits: { Self → ℕ → Wait → Type 0 } = { λ _ _ _. Unit {0} };

    /// Receives a request of a connection. It may write a response at once, as one encoded message with the token
    /// of the request, to `response`, which is empty. If it writes nothing, it responds later, through
    /// `next_response`. A response of more than `limit` bytes is reduced to its code and token: no larger message
    /// may be sent on the connection.
    ///
    /// `response` has room for `limit` bytes, so a response within the limit needs no allocation. The application may
    /// enlarge the buffer, and never shrinks it.
    ///
    /// The path begins with that of an entry with this method, and there is no unrecognised critical option. The
    /// application checks the other options (RFC 7252 sections 5.4.1 and 5.10):
    ///
    /// - The whole path, and Uri-Query: 4.04 (Not Found) if they name no resource.
    /// - If-Match and If-None-Match: 4.12 (Precondition Failed) if they do not hold.
    /// - Accept: 4.06 (Not Acceptable) if the response has another Content-Format.
    /// - Content-Format: 4.15 (Unsupported Content-Format) if the payload must have another one.
    ///
    /// It responds with 4.02 (Bad Option) to one of the critical options that it does not support.
    ///
    /// If the server does not accept the response (`Server::respond`), it sends 5.00 (Internal Server Error). The
    /// response always has room (`laws::responses_at_once_have_room`). So two errors remain:
    ///
    /// - `NotAResponse`: the bytes encode no message, or one whose code is no response or that has Observe.
    /// - `NoSuchRequest`: no pending request has the token.
    fn request(
        &mut self,
        from: ConnId,
        request: &MessageRef<'_>,
        limit: usize,
        response: &mut Vec<u8>,
    )
        requires empty { response.old.items ≡ [] }
        requires room { limit ≤ vec_capacity response.old }
        ensures follows { AnswersMore (follows self.old) (follows self.new)
            (Requested from request.now limit response.new.items ∷ []) }
        ensures capacity { vec_capacity response.old ≤ vec_capacity response.new };

    /// Writes the next later response to `response`, which is empty, as one encoded message, and returns the connection
    /// of its request. Returns `None` if there is no response now. The application may enlarge the buffer, and never
    /// shrinks it. It forgets a request at its deadline: a late response would answer a newer request with its token.
    fn next_response(&mut self, response: &mut Vec<u8>) -> Option<ConnId>
        requires { response.old.items ≡ [] }
        ensures offered { AnswersMore (follows self.old) (follows self.new) (offers result response.new.items) }
        ensures none { IfNone result (idle self.new) }
        ensures capacity { vec_capacity response.old ≤ vec_capacity response.new };

    /// Receives the result of the response that `next_response` returned last, for that connection. After `NoRoom`, it
    /// may return the response again in a later turn.
    fn responded(&mut self, to: ConnId, outcome: Result<Reply, ResponseFault>)
        ensures { AnswersMore (follows self.old) (follows self.new) (Given to outcome ∷ []) };

    /// Returns the longest wait that delays no response, at the time `now`, in seconds. `Wait::Forever` sets no limit.
    fn wait(&self, now: u64) -> Wait
        ensures { waits self.now now result };

    /// Returns `false` if the application writes no response, whatever it is asked. A caller may then do without asking
    /// it.
    fn answers(&self) -> bool
        ensures follows { result ≡ false →
            (more : List Exchange) → AreUnanswered more → AnswersMore (follows self.now) (follows self.now) more }
        ensures idle { result ≡ false → idle self.now }
    {
        true
    }

    /// Receives the end of a connection. No response is accepted for it from now on.
    fn gone(&mut self, from: ConnId)
        ensures { AnswersMore (follows self.old) (follows self.new) (Gone from ∷ []) };
}

/// Application that answers nothing. A request that is handed to it gets 5.04 (Gateway Timeout) at its deadline.
#[derive(Clone, Copy)]
pub struct NoApplication;

impl Application for NoApplication {
    // It has written no byte.
    ghost follows = { λ _ exchanges. AreUnanswered exchanges };

    ghost waits = { λ _ _ wait. wait ≡ Forever };

    #[tactic(auto, using(crate::proofs::values::ResponseLemmas::unanswered_then))]
    fn request(
        &mut self,
        _from: ConnId,
        _request: &MessageRef<'_>,
        _limit: usize,
        _response: &mut Vec<u8>,
    ) {}

    #[tactic(auto, using(crate::proofs::values::ResponseLemmas::unanswered_then))]
    fn next_response(&mut self, _response: &mut Vec<u8>) -> Option<ConnId> {
        None
    }

    #[tactic(auto, using(crate::proofs::values::ResponseLemmas::unanswered_then))]
    fn responded(&mut self, _to: ConnId, _outcome: Result<Reply, ResponseFault>) {}

    fn wait(&self, _now: u64) -> Wait {
        Wait::Forever
    }

    #[tactic(auto, using(crate::proofs::values::ResponseLemmas::unanswered_then))]
    fn answers(&self) -> bool {
        false
    }

    #[tactic(auto, using(crate::proofs::values::ResponseLemmas::unanswered_then))]
    fn gone(&mut self, _from: ConnId) {}
}
