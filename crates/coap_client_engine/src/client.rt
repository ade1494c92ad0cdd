//! Engine of one client connection: `Client`, the result `Taken` of its `take`, and the `Event` in that result.

ghost use Rattle.std.specs.Prelude.{◌≡◌, ◌≤◌, Ok, length, take, option_map, ◌++◌, ◌∷◌, ⊤, ℕ, List, [], IfOk, IfSome};
ghost use Rattle.coap_client_engine.specs.Prelude.{message_of, first_critical, IsFramer, framing_of, framer_after};
ghost use Rattle.coap_client_engine.specs.Prelude.{frame_back, IsLive, react, reject_reason, state_in, link_after};
ghost use Rattle.coap_client_engine.specs.Prelude.{response_event, verdict_event, event_value, answer_read, pong_read};
ghost use Rattle.coap_client_engine.specs.Prelude.{taken_frame};
ghost use Rattle.coap_client_engine.specs.Prelude.{received_event, taken_event, taking_framed, sem, follows_so, none};
ghost use Rattle.coap_client_engine.specs.Prelude.{ClientValue, taking, completed, client_takes, new_client};
ghost use Rattle.coap_client_engine.specs.Prelude.{client_written, client_ended, ClientCall, ClientShows, Took, Wrote};
ghost use Rattle.coap_client_engine.specs.Prelude.{Ended, takes};
ghost use Rattle.coap_client_engine.specs.Prelude.{event_of};
ghost use Rattle.coap_conn.specs.LinkValue.{IsReady};
ghost use Rattle.coap_conn.specs.Calls as call;
ghost use Rattle.coap_client_engine.specs.declared.client.Received.TheVariants as received;
ghost use Rattle.coap_client_engine.specs.contracts.client.Client.{the_row};

mod requests;
mod signals;
mod state;

use coap_conn::{Limits, Link, Reason, Reject, Role, Verdict};
use coap_frame::{Framer, frame_of};
use coap_wire::{MessageRef, TokenRef, parse};
pub use signals::ClientAnnounceFault;
use std::alloc::{AllocError, Global};
use std::marker::Model;

/// Event of a connection, as returned by `Taken::event`.
#[derive(Drop)]
pub enum Event<'a> {
    /// First Capabilities and Settings Message (CSM) of the peer. From now on requests can be sent (RFC 8323 section
    /// 5.3).
    Ready,
    /// Last response to a request or to an observation.
    Response(MessageRef<'a>),
    /// Response to an observation. More responses may follow (RFC 7641 section 4.2).
    Notification(MessageRef<'a>),
    /// Response with a critical option that is not recognised (RFC 7252 section 5.4.1). The request or observation has
    /// ended.
    Rejected {
        /// Token of the request, borrowed from the response.
        token: TokenRef<'a>,
        /// Number of the first such option.
        number: u16,
    },
    /// Pong to a Ping (RFC 8323 section 5.4).
    Pong {
        /// Token of the Ping, borrowed from the Pong.
        token: TokenRef<'a>,
        /// Presence of the Custody option in the Pong.
        custody: bool,
    },
    /// Response or Pong that matches nothing outstanding. The client ignores the message.
    Stranger,
    /// Stop of the connection, or its release by the peer, with the reason.
    Stopped(Reason),
}

/// Kind of the event of a `take`. `Taken::event` parses the message again from the frame.
#[derive(Clone, Copy)]
enum Received {
    Nothing,
    Ready,
    Answer { last: bool },
    Pong { custody: bool },
    Stranger,
    Stopped(Reason),
}

/// Result of `Client::take`: the number of accepted bytes, and the event of the message in them.
#[derive(Clone, Copy)]
pub struct Taken<'a> {
    /// Number of bytes accepted from the start of the input slice.
    pub bytes: usize,
    received: Received,
    frame: &'a [u8],
}

impl<'a> Taken<'a> {
    /// Returns the frame of the message that the accepted bytes end with, if they end with one. The event of a response
    /// or a Pong is that of this frame.
    pub fn frame(&self) -> &'a [u8]
        ensures { result.now ≡ taken_frame self.now }
    {
        self.frame
    }

    /// Returns the event of the accepted bytes, or `None` if there is nothing to report.
    pub fn event(&self) -> Option<Event<'a>>
        ensures { option_map event_value result ≡ taken_event self.now }
    {
        match self.received {
            Received::Nothing => None,
            Received::Ready => Some(Event::Ready),
            Received::Answer { last } => answer_in(self.frame, last),
            Received::Pong { custody } => pong_in(self.frame, custody),
            Received::Stranger => Some(Event::Stranger),
            Received::Stopped(reason) => Some(Event::Stopped(reason)),
        }
    }
}

/// Engine of one client connection: a framer and a link. Contracts see it as a `ClientValue`, and `ClientShows` relates
/// it to the calls so far.
///
/// `Client` does not prevent two registrations for one resource, which RFC 7641 section 3.1 forbids.
#[derive(Drop)]
pub struct Client {
    framer: Framer,
    link: Link,
}

impl Model for Client {
    ghost use Rattle.coap_client_engine.specs.ClientValues.{ClientValue};

    ghost Value = { ClientValue };

    ghost use Rattle.coap_client_engine.specs.EventViews.{client_value, is_client};

    ghost view = { client_value };

    ghost invariant = { is_client };
}

impl Client {
    /// Creates a client with these limits, and queues its Capabilities and Settings Message (CSM).
    ///
    /// All memory of the client is reserved here. Later only `announce` allocates, for a larger size. The first token
    /// is the encoding of the number after `tokens_from`.
    ///
    /// # Errors
    ///
    /// - `AllocError`: allocation failed.
    pub fn open(alloc: Global, limits: Limits, tokens_from: u64) -> Result<Client, AllocError>
        ensures new { IfOk result (λ c. c ≡ new_client limits tokens_from) }
        ensures shows { IfOk result (λ c. ClientShows c tokens_from []) }
    {
        Ok(Client {
            framer: Framer::new(alloc, limits.max_message())?,
            link: Link::open(alloc, Role::Client, limits, tokens_from)?,
        })
    }

    /// Accepts received bytes: up to the end of the first message, up to the byte that reveals an error, or all of
    /// them.
    ///
    /// No byte is accepted if the queue has no room for a message of maximum size, or after the connection was stopped
    /// or released. The caller offers the remaining bytes again.
    pub fn take<'a>(&'a mut self, piece: &'a [u8]) -> Taken<'a>
        ensures* writes_back { sem 𝓛 (follows_so the_row the_row self.entry.ghost_name none (λ _ _. ⊤)
            (λ c. c ≡ (taking self.old piece.now).client)) }
        ensures count { result.bytes ≡ (taking self.old piece.now).count }
        ensures within { result.bytes ≤ length piece.now }
        ensures event { taken_event result ≡ (taking self.old piece.now).event }
        ensures frame { IfSome (completed self.old piece.now) (λ frame. taken_frame result ≡ frame) }
        // For all calls that lead to the old client, `takes` and `event_of` give the result. These calls and the
        // accepted bytes lead to the new client.
        ensures takes { (tokens : ℕ) (calls : List ClientCall) → ClientShows self.old tokens calls →
            result.bytes ≡ takes self.old.link.limits tokens calls piece.now }
        ensures reported { (tokens : ℕ) (calls : List ClientCall) → ClientShows self.old tokens calls →
            taken_event result ≡ event_of self.old.link.limits tokens calls (Took (take result.bytes piece.now)) }
        ensures shows { (tokens : ℕ) (calls : List ClientCall) → ClientShows self.old tokens calls →
            ClientShows (taking self.old piece.now).client tokens (calls ++ Took (take result.bytes piece.now) ∷ []) }
    {
        if !self.takes() {
            return Taken {
                bytes: 0,
                received: Received::Nothing,
                frame: &[],
            };
        }
        let (bytes, received) = take_in(&mut self.framer, &mut self.link, piece);
        Taken {
            bytes,
            received,
            frame: frame_of(self.framer.split_frame(), &piece[..bytes]),
        }
    }

    /// Returns all bytes queued for writing, in one slice. This may move bytes within the queue.
    pub fn front<'a>(&'a mut self) -> &'a [u8]
        ensures* unchanged { sem 𝓛 (follows_so the_row the_row self.entry.ghost_name none (λ _ _. ⊤)
            (λ c. c ≡ self.old)) }
        ensures front { result.now ≡ self.old.link.waiting }
    {
        self.link.front()
    }

    /// Returns the bytes queued for writing as two slices: the first bytes, and those after them. Unlike `front`, this
    /// moves no bytes.
    pub fn parts(&self) -> (&[u8], &[u8])
        ensures { result.0.now ++ result.1.now ≡ self.now.link.waiting }
    {
        self.link.parts()
    }

    /// Removes the first `count` bytes from the queue, after the caller has written them.
    ///
    /// # Preconditions
    ///
    /// At least `count` bytes are queued.
    pub fn written(&mut self, count: usize)
        requires { count ≤ length self.old.link.waiting }
        ensures after { self.new ≡ client_written self.old count }
        ensures shows { (tokens : ℕ) (calls : List ClientCall) → ClientShows self.old tokens calls →
            ClientShows self.new tokens (calls ++ Wrote count ∷ []) }
    {
        self.link.written(count);
    }

    /// Stops the connection at the end of the input. The reason is `Cut` if bytes of an unfinished message are
    /// buffered, and otherwise `Ended`.
    ///
    /// Nothing changes if the connection was already stopped or released.
    pub fn ended(&mut self)
        ensures after { self.new ≡ client_ended self.old }
        ensures shows { (tokens : ℕ) (calls : List ClientCall) → ClientShows self.old tokens calls →
            ClientShows self.new tokens (calls ++ Ended ∷ []) }
    {
        self.link.end(self.framer.kept() > 0);
        self.framer.clear();
    }

    /// Returns `true` if the client accepts bytes. The queue must have room for a message of maximum size, and the
    /// connection must not be stopped or released.
    pub(crate) fn takes(&self) -> bool
        ensures { result ≡ client_takes self.now }
    {
        self.link.phase().stop().is_none() && self.link.ready()
    }
}

/// Accepts bytes of a slice and processes the message that they complete. Returns their number and the kind of the
/// event.
///
/// The queue must have room for a message of maximum size, and the phase must be `Waiting` or `Open`.
fn take_in(framer: &mut Framer, link: &mut Link, piece: &[u8]) -> (usize, Received)
    requires framer { IsFramer framer.old }
    requires ready { IsReady link.old }
    requires live { IsLive link.old.phase }
    ensures framer { framer.new ≡ framer_after framer.old piece.now }
    ensures count { result.0 ≡ (framing_of framer.old piece.now).taken }
    ensures within { result.0 ≤ length piece.now }
    ensures reported { received_event result.1 (message_of (frame_back framer.new.spent (take result.0 piece.now)))
        ≡ (taking_framed framer.old link.old piece.now).event }
    ensures link { link.new ≡ (taking_framed framer.old link.old piece.now).client.link }
{
    let framed = framer.next_frame(piece);
    let received = match framed.what.laid_out() {
        Ok(None) => Received::Nothing,
        Err(fault) => reject(link, Reject::from(fault)),
        Ok(Some(frame)) => match frame.parse() {
            Err(_) => reject(link, Reject::Format),
            Ok(message) => handle_message(link, &message),
        },
    };
    (framed.taken, received)
}

/// Processes a message, and returns the kind of its event.
///
/// The queue must have room for a message of maximum size, and the phase must be `Waiting` or `Open`.
fn handle_message(link: &mut Link, message: &MessageRef) -> Received
    requires ready { IsReady link.old }
    requires live { IsLive link.old.phase }
    ensures event { received_event result (Ok message.now)
        ≡ verdict_event message.now (react (state_in link.old) message.now).verdict }
    ensures after { link.new ≡ link_after link.old (call.Handle message.now) }
{
    match link.on(message) {
        Verdict::Opened => Received::Ready,
        Verdict::Done => Received::Nothing,
        Verdict::Request => Received::Nothing,
        Verdict::Answer { last, .. } => Received::Answer { last },
        Verdict::Pong { custody, .. } => Received::Pong { custody },
        Verdict::Stranger => Received::Stranger,
        Verdict::Stopped(reason) => Received::Stopped(reason),
    }
}

/// Queues the Abort for malformed input and stops the connection. The preconditions are those of `handle_message`.
fn reject(link: &mut Link, fault: Reject) -> Received
    requires ready { IsReady link.old }
    requires live { IsLive link.old.phase }
    ensures received { result ≡ received.Stopped (reject_reason fault) }
    ensures after { link.new ≡ link_after link.old (call.Reject fault) }
{
    link.reject(fault);
    Received::Stopped(Reason::from(fault))
}

/// Returns the event of the response in a frame, or `None` if the frame is malformed.
fn answer_in<'a>(frame: &'a [u8], last: bool) -> Option<Event<'a>>
    ensures { option_map event_value result ≡ answer_read (message_of frame.now) last }
{
    match parse(frame) {
        Ok(message) => Some(answer(message, last)),
        Err(_) => None,
    }
}

/// Returns the event of a response: `Rejected` if a critical option is not recognised.
fn answer<'a>(message: MessageRef<'a>, last: bool) -> Event<'a>
    ensures { event_value result
        ≡ response_event message.entry message.entry.token last (first_critical message.entry.options) }
{
    if let Some(number) = message.first_critical() {
        return Event::Rejected {
            token: message.token().copy(),
            number,
        };
    }
    if last {
        Event::Response(message)
    } else {
        Event::Notification(message)
    }
}

/// Returns the event of the Pong in a frame, or `None` if the frame is malformed.
fn pong_in<'a>(frame: &'a [u8], custody: bool) -> Option<Event<'a>>
    ensures { option_map event_value result ≡ pong_read (message_of frame.now) custody }
{
    match parse(frame) {
        Ok(message) => Some(Event::Pong {
            token: message.token().copy(),
            custody,
        }),
        Err(_) => None,
    }
}
