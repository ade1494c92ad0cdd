//! The responses of the application to requests that it answers.

use super::Server;
use super::sessions::respond_at;
use crate::monitor::{Call, Monitor, NoMonitor};
use coap_conn::Reply;
use coap_model::{ConnId, ResponseFault};
use std::alloc::AllocError;

impl Server {
    ghost use Rattle.std.specs.Prelude.{◌≡◌, ◌++◌, List, [], IfOk, IfSome, OnOk, OnErr, is_some, vec_capacity};
    ghost use Rattle.coap_server_engine.specs.Prelude.{RefusedBy, AreSettled, session_of, server_given, response_event};
    ghost use Rattle.coap_server_engine.specs.Prelude.{responded_refusal, IsReplyOn, message_of, AcceptedCall, Shows};
    ghost use Rattle.coap_server_engine.specs.Prelude.{is_there, LiesAt, server_offered, offered_events, ShowsMore};
    ghost use Rattle.coap_server_engine.specs.Prelude.{FollowsMore, HasResponseRoom};

    /// Returns an empty buffer for the responses of an application. It has room for a message of `max_sent` bytes, the
    /// largest that is sent.
    ///
    /// # Errors
    ///
    /// Returns `AllocError` if allocation fails.
    pub fn response_buffer(&self) -> Result<Vec<u8>, AllocError>
        ensures empty { IfOk result (λ buffer. buffer.items ≡ []) }
        ensures room { IfOk result (λ buffer. HasResponseRoom self.now.config (vec_capacity buffer)) }
    {
        Vec::with_capacity(self.alloc, self.config.limits().max_sent())
    }

    /// Queues a response of the application, and removes the first pending request with its token. `response` is one
    /// encoded message.
    ///
    /// A response that exceeds the Max-Message-Size of the peer is reduced to its code and token (`Reply::Bare`). If
    /// that does not fit either, the connection stops (`Reply::Stopped`).
    ///
    /// # Errors
    ///
    /// The first of these that applies; nothing has changed then:
    ///
    /// - `NoSuch`: no connection has this id.
    /// - `NotAResponse`: the bytes are no message.
    /// - `NoSuchRequest`: no request with this token waits for a response of the application. Its deadline may be over.
    ///   After the deadline the client may use the token again, so a late response would answer another request.
    /// - `NotAResponse`: the code has no class 2, 4 or 5, or the message has an Observe option.
    /// - `NoRoom`: the queue has no room for the response. The caller may respond again after bytes were written.
    ///
    /// # Examples
    ///
    /// ```
    /// // The application answers POST below /rd, within 10 seconds.
    /// let mut applications = Applications::new(rt.alloc(), 10)?;
    /// let directory = PathKey::from_segments(&[b"rd"]).ok_or("no path")?;
    /// applications.add(&directory, &[Code::POST], b"")?;
    /// let config = Config::builder().build()?;
    /// let mut server = Server::with_applications(rt.alloc(), config, applications)?;
    /// let id = server.open()?;
    /// // The client's CSM, and POST /rd with the token 2a. The request waits for the application.
    /// let input = b"\x00\xe1\x31\x02\x2a\xb2rd".as_slice();
    /// let csm = server.take(id, input)?;
    /// let post = server.take(id, &input[csm.bytes..])?;
    /// assert!(&rt; csm.bytes == 2 && post.bytes == 6);
    /// // The application responds with 2.01 and the same token.
    /// server.respond(id, b"\x01\x41\x2a")?;
    /// let output = server.front(id).unwrap_or(&[]);
    /// assert!(&rt; output.ends_with(b"\x01\x41\x2a"));
    /// ```
    pub fn respond(&mut self, id: ConnId, response: &[u8]) -> Result<Reply, ResponseFault>
        ensures settled { AreSettled self.old.shared self.old.sessions }
        ensures answer { RefusedBy result (responded_refusal self.old id response.now) }
        ensures reply { IfOk result (λ r. IsReplyOn response.now r (session_of id self.old.sessions)) }
        ensures ok { OnOk result (self.new ≡ server_given self.old id response.now) }
        ensures shows { OnOk result ((events : List AcceptedCall) → Shows self.old events →
            Shows self.new (events ++ response_event id (message_of response.now))) }
        ensures err { OnErr result (self.new ≡ self.old) }
    {
        let at = self.index_of(id);
        self.offer::<(), NoMonitor>(at, id, response, &mut NoMonitor)
    }

    /// Gives a response as `respond` does, on the connection at an index. If the server accepts it, the monitor
    /// receives `Call::Responded`.
    ///
    /// # Errors
    ///
    /// Those of `respond`. Nothing has changed then.
    ///
    /// # Preconditions
    ///
    /// The connection with the id is at the index. There is no index if no connection has this id.
    #[tactic(auto, using(crate::proofs::values::ServerLemmas::within_unmarked))]
    pub(super) fn offer<W, M: Monitor<W>>(
        &mut self,
        at: Option<usize>,
        id: ConnId,
        response: &[u8],
        monitor: &mut M,
    ) -> Result<Reply, ResponseFault>
        requires there { is_some at ≡ is_there (session_of id self.old.sessions) }
        requires lies { IfSome at (λ at. LiesAt id at self.old.sessions) }
        ensures answer { RefusedBy result (responded_refusal self.old id response.now) }
        ensures reply { IfOk result (λ r. IsReplyOn response.now r (session_of id self.old.sessions)) }
        ensures ok { OnOk result (self.new ≡ server_given self.old id response.now) }
        ensures err { OnErr result (self.new ≡ self.old) }
        ensures after { self.new ≡ server_offered self.old id response.now }
        ensures shows { ShowsMore self.old self.new (offered_events self.old id response.now) }
        ensures reported { FollowsMore (M.follows monitor.old) (M.follows monitor.new)
            (offered_events self.old id response.now) }
    {
        let Some(at) = at else {
            return Err(ResponseFault::NoSuch);
        };
        let reply = respond_at(&mut self.sessions, at, &self.shared, response)?;
        monitor.accepted(Call::Responded(id, response), self);
        Ok(reply)
    }
}
