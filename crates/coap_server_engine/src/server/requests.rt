//! The requests that a server hands to its application, and the responses of the application.

ghost use Rattle.std.specs.Prelude.{◌≡◌};
ghost use Rattle.coap_server_engine.specs.Prelude.{failure_with, spelling};

use super::sessions::{find, settle_after, what_was_handled};
use super::{ConnIndex, Served, Server};
use crate::application::Application;
use crate::index_set::IndexSet;
use crate::monitor::{Call, Monitor};
use crate::taken_request::{TakenRequest, lent_if, lent_unless_stopped};
use arrayvec::ArrayVec;
use coap_frame::frame_of;
use coap_model::{ConnId, Handled, TakeFault, Taken};
use coap_server_session::StorageError;
use coap_wire::{Code, MessageBuilder, Token};
use std::alloc::AllocError;

/// Number of bytes of the longest token.
const LONGEST_TOKEN: usize = 64;

/// Number of bytes of the longest message that has a token and no options or payload.
const LONGEST_FAILURE: usize = 67;

/// Bytes that a connection received, and the connection.
#[derive(Clone, Copy)]
struct ReceivedBytes<'a> {
    index: ConnIndex,
    bytes: &'a [u8],
}

impl Server {
    ghost use Rattle.std.specs.Prelude.{◌≡◌, ◌+◌, ◌≤◌, ◌++◌, ◌∷◌, ⊤, List, [], Result, Option, Some, None};
    ghost use Rattle.std.specs.Prelude.{length, take, true, false, IfOk, IfErr, IfNone, IfSome, OnOk, OnErr};
    ghost use Rattle.std.specs.Prelude.{option_copied, option_and_then, option_map, vec_capacity};
    ghost use Rattle.coap_server_engine.specs.Prelude.{sem, follows_so, none, ShowsMore, session_of, is_there};
    ghost use Rattle.coap_server_engine.specs.Prelude.{count_taken, server_taken, handled_by, IsNotTaken};
    ghost use Rattle.coap_server_engine.specs.Prelude.{LiesAt, frame_message, AcceptedCall, Took, takes};
    ghost use Rattle.coap_server_engine.specs.Prelude.{handled_in, Shows, request_in, ShowsRefused};
    ghost use Rattle.coap_server_engine.specs.Prelude.{IsRefusedFor, FollowsMore, handed_frame, handed_by};
    ghost use Rattle.coap_server_engine.specs.Prelude.{AnswersMore, IsServed, IsPartlyServed, IsRequestedLater};
    ghost use Rattle.coap_server_engine.specs.Prelude.{IsTakenRequest, server_offered};
    ghost use Rattle.coap_server_engine.specs.Prelude.{offered_events, response_for, IsTakenFor, IsNotTakenFor};
    ghost use Rattle.coap_server_engine.specs.Prelude.{asks_for, message_limit, changing_frame, frame_key, ChangesBy};
    ghost use Rattle.coap_server_engine.specs.Prelude.{KeepsWork, AreSettled, AddsAffected, HasResponseRoom};
    ghost use Rattle.coap_server_engine.specs.contracts.server.Server.{the_row};

    /// Accepts bytes as `take` does, and lends the request that it handed to the application, if the accepted bytes end
    /// with one. It also lends the request that stored or deleted a resource, by which the program follows the
    /// resources that clients change.
    ///
    /// The request that changed a resource is lent in every case, also if its response stopped the connection. A
    /// request that changes nothing is not lent: a GET, one with an error response, or a DELETE of an absent resource.
    ///
    /// The application answers requests of the entries in `Applications`. The server itself answers with 4.02 for an
    /// unrecognised critical option, 5.05 for proxying, or 5.03 if the list of pending entries is full. No request is
    /// lent then, nor if the connection stops in the same call.
    ///
    /// # Errors
    ///
    /// Those of `take`.
    ///
    /// # Examples
    ///
    /// ```
    /// // The application answers POST below /rd, within 10 seconds.
    /// let mut applications = Applications::new(rt.alloc(), 10)?;
    /// let directory = PathKey::from_segments(&[b"rd"]).ok_or("no path")?;
    /// applications.add(&directory, &[Code::POST], b"")?;
    /// let config = Config::builder().build()?;
    /// let mut server = Server::with_applications(rt.alloc(), config, applications)?;
    /// let id = server.open()?;
    /// // The client's CSM, and POST /rd with the token 2a. The request waits for the application.
    /// let input = b"\x00\xe1\x31\x02\x2a\xb2rd".as_slice();
    /// let csm = server.take(id, input)?;
    /// let post = server.take_request(id, &input[csm.bytes..])?;
    /// assert!(&rt; csm.bytes == 2 && post.taken.bytes == 6);
    /// assert!(&rt; post.frame == Some(b"\x31\x02\x2a\xb2rd".as_slice()));
    /// // The application responds with 2.01 and the same token.
    /// server.respond(id, b"\x01\x41\x2a")?;
    /// ```
    pub fn take_request<'a>(
        &'a mut self,
        id: ConnId,
        piece: &'a [u8],
    ) -> Result<TakenRequest<'a>, TakeFault>
        ensures* after { sem 𝓛 (follows_so the_row the_row self.entry.ghost_name none (λ _ _. ⊤)
            (IsTakenRequest self.old id piece.now result)) }
        ensures within { IfOk result (λ t. t.taken.bytes ≤ length piece.now) }
        ensures count { IfOk result (λ t. t.taken.bytes ≡ count_taken self.old id piece.now) }
        ensures takes { IfOk result (λ t. (events : List AcceptedCall) → Shows self.old events →
            t.taken.bytes ≡ takes self.old.config events id piece.now) }
        ensures handled { IfOk result (λ t. t.taken.handled ≡ handled_by self.old id piece.now) }
        ensures says { IfOk result (λ t. (events : List AcceptedCall) → Shows self.old events →
            t.taken.handled ≡ handled_in self.old.config events (Took id (take t.taken.bytes piece.now)) id) }
        ensures there { OnOk result (is_there (session_of id self.old.sessions) ≡ true) }
        ensures frame { IfOk result (λ t. option_copied t.frame ≡ handed_frame self.old id piece.now) }
        ensures request { IfOk result (λ t. (events : List AcceptedCall) → Shows self.old events →
            option_and_then frame_message (option_copied t.frame)
            ≡ request_in self.old.config events (Took id (take t.taken.bytes piece.now)) id) }
        ensures changed { IfOk result (λ t. option_copied t.changed ≡ changing_frame self.old id piece.now) }
        ensures alters { IfOk result (λ t. (events : List AcceptedCall) → Shows self.old events →
            ChangesBy self.old.config events (Took id (take t.taken.bytes piece.now))
            (option_and_then frame_key (option_copied t.changed))) }
        ensures refused_for { IfErr result (λ fault.
            (events : List AcceptedCall) → Shows self.old events
            → IsRefusedFor self.old.config events id piece.now fault) }
    {
        let Some(at) = find(&self.sessions, self.recent, id) else {
            return Err(TakeFault::NoSuch);
        };
        let mut affected = IndexSet::empty();
        self.take_request_at(ConnIndex { id, at }, piece, &mut affected)
    }

    /// Accepts bytes as `take_request` does, on the connection at an index. The other connections on which the message
    /// may have changed the work left are added to `affected`.
    ///
    /// # Errors
    ///
    /// - `Memory`: as for `take`.
    ///
    /// # Preconditions
    ///
    /// The connection is at the index, as `index_of` returned it.
    #[inline(always)]
    pub fn take_request_at<'a>(
        &'a mut self,
        index: ConnIndex,
        piece: &'a [u8],
        affected: &mut IndexSet,
    ) -> Result<TakenRequest<'a>, TakeFault>
        requires { LiesAt index.id index.at self.old.sessions }
        ensures* after { sem 𝓛 (follows_so the_row the_row self.entry.ghost_name none (λ _ _. ⊤)
            (IsTakenRequest self.old index.id piece.now result)) }
        ensures within { IfOk result (λ t. t.taken.bytes ≤ length piece.now) }
        ensures count { IfOk result (λ t. t.taken.bytes ≡ count_taken self.old index.id piece.now) }
        ensures takes { IfOk result (λ t. (events : List AcceptedCall) → Shows self.old events →
            t.taken.bytes ≡ takes self.old.config events index.id piece.now) }
        ensures handled { IfOk result (λ t. t.taken.handled ≡ handled_by self.old index.id piece.now) }
        ensures says { IfOk result (λ t. (events : List AcceptedCall) → Shows self.old events →
            t.taken.handled
            ≡ handled_in self.old.config events (Took index.id (take t.taken.bytes piece.now)) index.id) }
        ensures there { OnOk result (is_there (session_of index.id self.old.sessions) ≡ true) }
        ensures frame { IfOk result (λ t. option_copied t.frame ≡ handed_frame self.old index.id piece.now) }
        ensures request { IfOk result (λ t. (events : List AcceptedCall) → Shows self.old events →
            option_and_then frame_message (option_copied t.frame)
            ≡ request_in self.old.config events (Took index.id (take t.taken.bytes piece.now)) index.id) }
        ensures changed { IfOk result (λ t. option_copied t.changed ≡ changing_frame self.old index.id piece.now) }
        ensures alters { IfOk result (λ t. (events : List AcceptedCall) → Shows self.old events →
            ChangesBy self.old.config events (Took index.id (take t.taken.bytes piece.now))
            (option_and_then frame_key (option_copied t.changed))) }
        ensures refused_for { IfErr result (λ fault.
            (events : List AcceptedCall) → Shows self.old events →
            IsRefusedFor self.old.config events index.id piece.now fault) }
        ensures affected { OnOk result (AddsAffected index.id affected.old.words affected.new.words self.old
            (server_taken self.old index.id piece.now)) }
        ensures unaffected { OnErr result (affected.new ≡ affected.old) }
    {
        let takes = self.sessions[index.at].takes();
        match self.sessions[index.at].take(&mut self.shared, piece) {
            Err(StorageError { bytes }) => Err(TakeFault::Memory { bytes }),
            Ok(taking) => {
                settle_after(
                    taking.changed,
                    &mut self.sets,
                    &mut self.sessions,
                    index.at,
                    &self.shared,
                    affected,
                );
                let session = &self.sessions[index.at];
                let stop = session.phase().stop();
                let taken = Taken {
                    bytes: taking.count,
                    handled: what_was_handled(takes, taking, stop),
                };
                let frame = frame_of(session.split_frame(), &piece[..taking.count]);
                let handed = lent_unless_stopped(taking.handed, stop, frame);
                let changed = lent_if(taking.changed.is_some(), frame);
                Ok(TakenRequest {
                    taken,
                    frame: handed,
                    changed,
                })
            }
        }
    }

    /// Returns the size in bytes of the largest message that may be sent on the connection at an index.
    #[tactic(auto, using(crate::proofs::values::ServerLemmas::unmarked_at, crate::proofs::values::ServerLemmas::within_unmarked), unfolding(crate::specs::values::ApplicationCalls::message_limit))]
    fn message_limit(&self, index: ConnIndex) -> usize
        requires { LiesAt index.id index.at self.now.sessions }
        ensures limit { result ≡ message_limit self.now index.id }
        ensures applications { self.now.config.applications ≡ self.now.shared.store.applications }
    {
        let most = self.config.limits().max_sent();
        most.min(self.sessions[index.at].peer_max() as usize)
    }

    /// Accepts bytes as `take_request_at` does, and shows the request that is handed over to the application, unless
    /// that answers none. Returns the token of a request that was shown. `response` is empty before, and has the
    /// response of the application afterwards.
    ///
    /// The request is parsed again, from its frame. The message that the connection parsed borrows from its framer, and
    /// the connection settles before the application is asked.
    // Always inlined, with `take_for`: a call costs 57 instructions for each message.
    #[inline(always)]
    fn take_and_ask<A: Application>(
        &mut self,
        index: ConnIndex,
        rest: &[u8],
        application: &mut A,
        response: &mut Vec<u8>,
        affected: &mut IndexSet,
    ) -> Result<(Taken, Option<Token>), TakeFault>
        requires lies { LiesAt index.id index.at self.old.sessions }
        requires empty { response.old.items ≡ [] }
        requires room { HasResponseRoom self.old.config (vec_capacity response.old) }
        ensures within { IfOk result (λ t. t.0.bytes ≤ length rest.now) }
        ensures count { IfOk result (λ t. t.0.bytes ≡ count_taken self.old index.id rest.now) }
        ensures handled { IfOk result (λ t. t.0.handled ≡ handled_by self.old index.id rest.now) }
        ensures there { OnOk result (is_there (session_of index.id self.old.sessions) ≡ true) }
        ensures ok { OnOk result (self.new ≡ server_taken self.old index.id rest.now) }
        ensures shows { IfOk result (λ t. (events : List AcceptedCall) → Shows self.old events →
            Shows self.new (events ++ Took index.id (take t.0.bytes rest.now) ∷ [])) }
        ensures token { IfOk result (λ t. IfSome t.1 (λ token.
            option_map (λ m. m.token) (handed_by self.old index.id rest.now) ≡ Some token.items)) }
        ensures unrequested { IfOk result (λ t. IfNone t.1 (response.new.items ≡ [])) }
        ensures requested { OnOk result (AnswersMore (A.follows application.old) (A.follows application.new)
            (asks_for index.id (message_limit self.old index.id) response.new.items
            (handed_by self.old index.id rest.now))) }
        ensures refused { IfErr result (λ fault. IsNotTaken self.old index.id rest.now fault self.new) }
        ensures shows_refused { IfErr result (λ fault. (events : List AcceptedCall) → Shows self.old events →
            ShowsRefused events index.id rest.now fault self.new) }
        ensures silent { OnErr result (application.new ≡ application.old) }
        ensures affected { OnOk result (AddsAffected index.id affected.old.words affected.new.words self.old
            (server_taken self.old index.id rest.now)) }
        ensures capacity { vec_capacity response.old ≤ vec_capacity response.new }
    {
        let limit = self.message_limit(index);
        let taken = self.take_request_at(index, rest, affected)?;
        if !application.answers() {
            return Ok((taken.taken, None));
        }
        let Some(request) = taken.request() else {
            return Ok((taken.taken, None));
        };
        application.request(index.id, &request, limit, response);
        Ok((taken.taken, Some(request.token().to_token())))
    }

    /// Gives the response that the application wrote at once, or 5.00 if the server does not accept it. If the
    /// application wrote no byte, nothing is given.
    ///
    /// The 5.00 is encoded, and parsed as every response, since the monitor receives responses as bytes.
    fn give_at_once<W, M: Monitor<W>>(
        &mut self,
        at: usize,
        id: ConnId,
        token: &Token,
        response: &[u8],
        monitor: &mut M,
    )
        requires { LiesAt id at self.old.sessions }
        ensures after { self.new
            ≡ server_offered self.old id (response_for self.old id token.now.items response.now) }
        ensures shows { ShowsMore self.old self.new
            (offered_events self.old id (response_for self.old id token.now.items response.now)) }
        ensures reported { FollowsMore (M.follows monitor.old) (M.follows monitor.new)
            (offered_events self.old id (response_for self.old id token.now.items response.now)) }
        ensures lies { LiesAt id at self.new.sessions }
    {
        if response.is_empty() {
            return;
        }
        let given = self.offer::<W, M>(Some(at), id, response, monitor);
        if given.is_ok() {
            return;
        }
        let failure = failure_frame(token);
        let _ = self.offer::<W, M>(Some(at), id, failure.as_slice(), monitor);
    }

    /// Accepts bytes once, and shows the request that is handed over to the application. Gives its response. Returns
    /// the number of bytes accepted.
    ///
    /// # Errors
    ///
    /// Returns `AllocError` if allocation fails in the take.
    #[inline(always)]
    fn take_for<W, M: Monitor<W>, A: Application>(
        &mut self,
        received: ReceivedBytes<'_>,
        application: &mut A,
        response: &mut Vec<u8>,
        monitor: &mut M,
        affected: &mut IndexSet,
    ) -> Result<usize, AllocError>
        requires lies { LiesAt received.index.id received.index.at self.old.sessions }
        requires room { HasResponseRoom self.old.config (vec_capacity response.old) }
        ensures within { IfOk result (λ n. n ≤ length received.entry.bytes.now) }
        ensures count { IfOk result (λ n. n ≡ count_taken self.old received.entry.index.id received.entry.bytes.now) }
        ensures there { OnOk result (is_there (session_of received.entry.index.id self.old.sessions) ≡ true) }
        ensures ok { IfOk result (λ n.
            IsTakenFor self.old received.entry.index.id received.entry.bytes.now response.new.items n self.new
            (FollowsMore (M.follows monitor.old) (M.follows monitor.new))
            (AnswersMore (A.follows application.old) (A.follows application.new))) }
        ensures lies { OnOk result (LiesAt received.entry.index.id received.entry.index.at self.new.sessions) }
        ensures err { OnErr result (IsNotTakenFor self.old received.entry.index.id received.entry.bytes.now self.new
            (FollowsMore (M.follows monitor.old) (M.follows monitor.new))) }
        ensures silent { OnErr result (application.new ≡ application.old) }
        ensures affected { OnOk result (AddsAffected received.entry.index.id affected.old.words affected.new.words
            self.old self.new) }
        ensures capacity { vec_capacity response.old ≤ vec_capacity response.new }
    {
        let index = received.index;
        response.clear();
        match self.take_and_ask(index, received.bytes, application, response, affected) {
            Ok((taken, token)) => {
                let took = Call::Took {
                    id: index.id,
                    bytes: &received.bytes[..taken.bytes],
                    handled: taken.handled,
                };
                monitor.accepted(took, self);
                if let Some(token) = token {
                    self.give_at_once::<W, M>(index.at, index.id, &token, response, monitor);
                }
                Ok(taken.bytes)
            }
            Err(TakeFault::NoSuch) => unreachable!(),
            Err(TakeFault::Memory { bytes }) => {
                let took = Call::Took {
                    id: index.id,
                    bytes: &received.bytes[..bytes],
                    handled: Handled::Nothing,
                };
                monitor.accepted(took, self);
                Err(AllocError)
            }
        }
    }

    /// Accepts bytes as `take_all` does, and shows each request that is handed over to the application. A response that
    /// the application writes at once is given as `respond` gives it, directly after the take. The monitor receives
    /// each call of `take`, also one that accepts no byte. Returns the number of bytes accepted, and the connections on
    /// which the messages may have changed the work left.
    ///
    /// If the server does not accept the response, it sends 5.00 (Internal Server Error) with the token of the request.
    /// The monitor receives `Call::Responded` after `Call::Took`. `response` is the buffer for the responses
    /// (`response_buffer`): it is cleared, and no memory is allocated beyond what the application allocates.
    ///
    /// # Errors
    ///
    /// Returns `AllocError` if allocation fails. The messages before the failure were processed then.
    ///
    /// # Preconditions
    ///
    /// If the server has applications, `response` has room for a message of `max_sent` bytes.
    pub fn take_all_for<W, M: Monitor<W>, A: Application>(
        &mut self,
        id: ConnId,
        bytes: &[u8],
        application: &mut A,
        response: &mut Vec<u8>,
        monitor: &mut M,
    ) -> Result<Served, AllocError>
        requires { HasResponseRoom self.old.config (vec_capacity response.old) }
        ensures within { IfOk result (λ s. s.count ≤ length bytes.now) }
        ensures served { IfOk result (λ s. IsServed self.old id bytes.now s.count self.new
            (FollowsMore (M.follows monitor.old) (M.follows monitor.new))
            (AnswersMore (A.follows application.old) (A.follows application.new))) }
        ensures affected { IfOk result (λ s. KeepsWork s.affected.words self.old self.new) }
        ensures partly { OnErr result (IsPartlyServed self.old id bytes.now self.new
            (FollowsMore (M.follows monitor.old) (M.follows monitor.new))
            (AnswersMore (A.follows application.old) (A.follows application.new))) }
        ensures capacity { vec_capacity response.old ≤ vec_capacity response.new }
        ensures room { HasResponseRoom self.new.config (vec_capacity response.new) }
    {
        let mut affected = IndexSet::empty();
        let Some(at) = self.seek(id) else {
            return Ok(Served { count: 0, affected });
        };
        affected.insert(at);
        let mut taken = 0;
        while taken < bytes.len() {
            let received = ReceivedBytes {
                index: ConnIndex { id, at },
                bytes: &bytes[taken..],
            };
            let count = self.take_for::<W, M, A>(
                received,
                application,
                response,
                monitor,
                &mut affected,
            )?;
            if count == 0 {
                return Ok(Served {
                    count: taken,
                    affected,
                });
            }
            taken += count;
        }
        Ok(Served {
            count: taken,
            affected,
        })
    }

    /// Asks the application for one later response, and gives it as `respond` does. Returns the connection of the
    /// response, or `None` if the application has none now.
    ///
    /// The application receives the result. If the server accepted the response, the monitor receives
    /// `Call::Responded`. `response` is the buffer for the response, and is cleared.
    pub fn answer_next<W, M: Monitor<W>, A: Application>(
        &mut self,
        application: &mut A,
        response: &mut Vec<u8>,
        monitor: &mut M,
    ) -> Option<ConnId>
        ensures settled { IfSome result (λ id. AreSettled self.old.shared self.old.sessions) }
        ensures requested { IsRequestedLater self.old result self.new
            (FollowsMore (M.follows monitor.old) (M.follows monitor.new))
            (AnswersMore (A.follows application.old) (A.follows application.new)) }
        ensures none { IfNone result (A.idle application.new) }
        ensures capacity { vec_capacity response.old ≤ vec_capacity response.new }
    {
        response.clear();
        let id = application.next_response(response)?;
        let at = self.index_of(id);
        let outcome = self.offer::<W, M>(at, id, response, monitor);
        application.responded(id, outcome);
        Some(id)
    }
}

/// Returns the encoded message 5.00 (Internal Server Error) with this token.
fn failure_frame(token: &Token) -> ArrayVec<u8, LONGEST_FAILURE>
    ensures { result.items ≡ spelling (failure_with token.now.items) }
{
    prove!(token.as_slice().len() <= LONGEST_TOKEN);
    let mut frame = ArrayVec::new();
    let failure: MessageBuilder<'_, 0> = MessageBuilder::new(Code::INTERNAL_SERVER_ERROR, token);
    failure.write(&mut frame);
    frame
}
