//! One connection of a server: it accepts bytes, processes messages and queues its output.
//!
//! The *changed mark* of an observer identifies the current state of its path, and is absent if that state was sent to
//! it last. Changed marks are *current* if they agree with the server state (`ServerState`).

ghost use Rattle.std.specs.Prelude.{◌≡◌, ℕ, List, [], IfOk, OnOk, OnErr, false, None, ◌≤◌, ◌+◌, ◌++◌, ⊤, Some, length};
ghost use Rattle.std.specs.Prelude.{take, IfErr, IfSome, is_some, true};
ghost use Rattle.coap_server_session.specs.Prelude.{IsLive, IsReady, IsPut, ServerState as HostValue, change_hash};
ghost use Rattle.coap_server_session.specs.Prelude.{change_by, shared_changed, session_handled, session_with, sizes_of};
ghost use Rattle.coap_server_session.specs.Prelude.{framer_on, sem, follows_so, none, RefusedBy, AreInRange};
ghost use Rattle.coap_server_session.specs.Prelude.{is_finished, release_refusal, MarkedSession, IsMarked, AreMarked};
ghost use Rattle.coap_server_session.specs.Prelude.{observers_left, new_session, session_takes, taking};
ghost use Rattle.coap_server_session.specs.Prelude.{session_written, session_ended, session_released};
ghost use Rattle.coap_server_session.specs.Prelude.{session_announced, session_given, RefusesPiece, IsAnnounced};
ghost use Rattle.coap_server_session.specs.Prelude.{handed, is_handed_over, completed, frame_back};
ghost use Rattle.coap_server_session.specs.Prelude.{frame_refusal, OnMessage, message_of, fit, limit_in, bare_response};
ghost use Rattle.coap_server_session.specs.contracts.session.Session.{the_row};

mod due;
mod settling;

use crate::answering::answer;
use crate::observers::Observers;
use crate::server_state::ServerState;
use crate::take_outcome::{RequestEffect, StorageError, TakeOutcome};
use coap_conn::{Limits, Link, Phase, Reject, Reply, RespondFault, Role, SendFault, Verdict};
use coap_frame::Framer;
use coap_model::AnnounceFault;
use coap_wire::{LARGEST_MESSAGE, MessageRef};
pub use due::sooner;
use std::alloc::{AllocError, Global};
use std::marker::Model;

/// Connection of a server: its framer, its link, and its observers. Contracts see a `MarkedSession`.
#[derive(Drop)]
pub struct Session {
    framer: Framer,
    link: Link,
    observers: Observers,
}

impl Model for Session {
    ghost use Rattle.coap_server_session.specs.values.Sessions.{MarkedSession};

    ghost Value = { MarkedSession };

    ghost use Rattle.coap_server_session.specs.views.SessionViews.{marked_session, is_session};

    ghost view = { marked_session };

    ghost invariant = { is_session };
}

impl Session {
    /// Returns a new connection with these limits, and queues the server's Capabilities and Settings Message (CSM).
    ///
    /// All memory of the connection is allocated here. Later only `announce` and the storing of a representation can
    /// run out of memory.
    ///
    /// # Errors
    ///
    /// Returns `AllocError` if allocation fails.
    pub fn open(alloc: Global, limits: Limits) -> Result<Session, AllocError>
        ensures value { IfOk result (λ s. s ≡ record { session = new_session limits; marks = []; split = [] }) }
        ensures ranges { OnOk result (AreInRange limits) }
    {
        Ok(Session {
            framer: Framer::new(alloc, limits.max_message())?,
            link: Link::open(alloc, Role::Server, limits, 0)?,
            observers: Observers::new(alloc, limits.observers())?,
        })
    }

    /// Returns `true` if the connection accepts bytes.
    ///
    /// It does if its queue has room for a message of `max_sent` bytes, it has not stopped, and the peer has not
    /// released it.
    pub fn takes(&self) -> bool
        ensures { result ≡ session_takes self.now.session }
    {
        self.link.phase().stop().is_none() && self.link.ready()
    }

    /// Accepts the first bytes of `piece`, and processes at most one message.
    ///
    /// The accepted bytes end with the first message, with the byte at which malformed input is recognised, or with the
    /// slice. None is accepted if `takes` returns `false`.
    ///
    /// # Errors
    ///
    /// Returns `StorageError` if allocation fails for the representation that the message stores. The message was not
    /// processed.
    ///
    /// # Preconditions
    ///
    /// The changed marks of the observers are current.
    #[tactic(auto, unfolding(crate::specs::values::Sessions::taking, crate::specs::values::HandedRequests::handed, crate::specs::values::HandedRequests::completed, coap_frame::specs::Framing::framing))]
    pub fn take(
        &mut self,
        shared: &mut ServerState,
        piece: &[u8],
    ) -> Result<TakeOutcome, StorageError>
        requires { IsMarked shared.old self.old }
        ensures count { IfOk result (λ t. t.count ≡ (taking shared.old self.old.session piece.now).count) }
        ensures within { IfOk result (λ t. t.count ≤ length piece.now) }
        ensures handled { IfOk result (λ t. t.handled ≡ (taking shared.old self.old.session piece.now).handled) }
        ensures changed { IfOk result (λ t. t.changed
            ≡ change_hash (taking shared.old self.old.session piece.now).change) }
        ensures handed { IfOk result (λ t. t.handed ≡ is_some (handed shared.old self.old.session piece.now)) }
        ensures quiet { IfOk result (λ t. t.handed ≡ true → t.changed ≡ None) }
        ensures frame { IfOk result (λ t. IfSome (completed self.old.session piece.now) (λ frame.
            frame_back self.new.split (take t.count piece.now) ≡ frame)) }
        ensures after { OnOk result (self.new.session ≡ (taking shared.old self.old.session piece.now).session) }
        ensures shared { OnOk result (shared.new
            ≡ shared_changed shared.old (taking shared.old self.old.session piece.now).change) }
        ensures refused { IfErr result (λ e. RefusesPiece shared.old self.old.session piece.now e.bytes) }
        ensures kept { IfErr result (λ e. self.new.session
            ≡ (taking shared.old self.old.session (take e.bytes piece.now)).session) }
        ensures unchanged { OnErr result (shared.new ≡ shared.old) }
        ensures marked { IsMarked shared.new self.new }
    {
        if !self.takes() {
            return Ok(TakeOutcome::without_message(0));
        }
        let framed = self.framer.next_frame(piece);
        let count = framed.taken;
        match framed.what.laid_out() {
            Ok(None) => Ok(TakeOutcome::without_message(count)),
            Err(fault) => {
                self.link.reject(Reject::from(fault));
                discard_if_closed(&mut self.framer, &self.link, &mut self.observers);
                Ok(TakeOutcome::without_message(count))
            }
            Ok(Some(frame)) => match frame.parse() {
                Err(_) => {
                    self.link.reject(Reject::Format);
                    discard_if_closed(&mut self.framer, &self.link, &mut self.observers);
                    Ok(TakeOutcome::without_message(count))
                }
                Ok(message) => match handle(&mut self.link, &mut self.observers, shared, &message) {
                    Ok(effect) => {
                        discard_if_closed(&mut self.framer, &self.link, &mut self.observers);
                        Ok(TakeOutcome {
                            count,
                            handled: true,
                            changed: effect.changed,
                            handed: effect.handed,
                        })
                    }
                    Err(_) => {
                        self.framer.unread(&piece[..count]);
                        Err(StorageError { bytes: count - 1 })
                    }
                },
            },
        }
    }

    /// Returns all queued bytes in one slice. If they wrap around the end of the queue, they are moved first; `parts`
    /// moves none.
    pub fn front<'a>(&'a mut self) -> &'a [u8]
        ensures* unchanged { sem 𝓛 (follows_so the_row the_row self.entry.ghost_name none (λ _ _. ⊤)
            (λ s. s ≡ self.old)) }
        ensures front { result.now ≡ self.old.session.link.waiting }
    {
        self.link.front()
    }

    /// Returns the queued bytes in the two slices that they occupy.
    pub fn parts(&self) -> (&[u8], &[u8])
        ensures { result.0.now ++ result.1.now ≡ self.now.session.link.waiting }
    {
        self.link.parts()
    }

    /// Removes the first `count` bytes from the queue, after the caller has written them.
    ///
    /// # Preconditions
    ///
    /// At least `count` bytes are queued.
    pub fn written(&mut self, count: usize)
        requires { count ≤ length self.old.session.link.waiting }
        ensures { self.new ≡ record self.old { session = session_written self.old.session count } }
    {
        self.link.written(count);
    }

    /// Records the end of the input. Stops the connection, unless it has stopped or the peer has released it.
    ///
    /// If bytes of an unfinished frame are kept, the input ended within a frame, and the reason of the stop says so.
    pub fn end(&mut self)
        ensures after { self.new.session ≡ session_ended self.old.session }
        ensures marked { (shared : HostValue) → IsMarked shared self.old → IsMarked shared self.new }
    {
        self.link.end(self.framer.kept() > 0);
        discard_if_closed(&mut self.framer, &self.link, &mut self.observers);
    }

    /// Sends Release and stops the connection (RFC 8323 section 5.5). Pending entries are dropped.
    ///
    /// # Errors
    ///
    /// In this order, and nothing has changed then:
    ///
    /// - `NotOpen`: the connection is not open.
    /// - `NoRoom`: fewer than 2 bytes are free in the queue.
    /// - `PeerTooSmall`: the peer accepts fewer than 2 bytes.
    pub fn release(&mut self) -> Result<(), SendFault>
        ensures answer { RefusedBy result (release_refusal self.old.session.link) }
        ensures after { OnOk result (self.new.session ≡ session_released self.old.session) }
        ensures marked { OnOk result ((shared : HostValue) → IsMarked shared self.old → IsMarked shared self.new) }
        ensures err { OnErr result (self.new ≡ self.old) }
    {
        self.link.release()?;
        discard_if_closed(&mut self.framer, &self.link, &mut self.observers);
        Ok(())
    }

    /// Queues a response of the application, and removes the first pending request with its token (`Link::respond`).
    ///
    /// # Errors
    ///
    /// Those of `Link::respond`. Nothing has changed then.
    pub fn respond(&mut self, response: &[u8]) -> Result<Reply, RespondFault>
        ensures answer { RefusedBy result (frame_refusal self.old.session.link (message_of response.now)) }
        ensures reply { IfOk result (λ r. OnMessage (message_of response.now) (λ m.
            r ≡ fit (limit_in self.old.session.link) m (bare_response m))) }
        ensures after { OnOk result (OnMessage (message_of response.now) (λ m.
            self.new.session ≡ session_given self.old.session m)) }
        ensures marked { OnOk result ((shared : HostValue) → IsMarked shared self.old → IsMarked shared self.new) }
        ensures err { OnErr result (self.new ≡ self.old) }
    {
        let reply = self.link.respond(response)?;
        discard_if_closed(&mut self.framer, &self.link, &mut self.observers);
        Ok(reply)
    }

    /// Announces `size` as the largest message accepted from now on (RFC 8323 section 5.3.1).
    ///
    /// Allocates the memory for a message of that size, in bytes, and queues a CSM. Bytes of an unfinished frame stay.
    ///
    /// # Errors
    ///
    /// In this order, and nothing has changed then:
    ///
    /// - `NotOpen`: the connection is not open.
    /// - `Lower`: the size is below the current one.
    /// - `TooLarge`: the size is above 1,048,576 bytes.
    /// - `NoRoom`: the queue has no room for a message of `max_sent` bytes.
    /// - `PeerTooSmall`: the CSM exceeds the largest message that may be sent.
    /// - `Memory`: the size is above the current one, and allocation fails.
    ///
    /// `NoSuch` is never returned.
    pub fn announce(&mut self, size: u32) -> Result<(), AnnounceFault>
        ensures answer { IsAnnounced size (Some self.old.session) result }
        ensures after { OnOk result (self.new.session ≡ session_announced self.old.session size) }
        ensures marked { OnOk result ((shared : HostValue) → IsMarked shared self.old → IsMarked shared self.new) }
        ensures err { OnErr result (self.new ≡ self.old) }
    {
        let Phase::Open = self.link.phase() else {
            return Err(AnnounceFault::NotOpen);
        };
        if (size as usize) < self.link.own_max() {
            return Err(AnnounceFault::Lower);
        }
        if size as usize > LARGEST_MESSAGE {
            return Err(AnnounceFault::TooLarge);
        }
        if !self.link.ready() {
            return Err(AnnounceFault::NoRoom);
        }
        if !self.link.takes_announcement(size) {
            return Err(AnnounceFault::PeerTooSmall);
        }
        let Ok(()) = self.framer.raise(size as usize) else {
            return Err(AnnounceFault::Memory);
        };
        self.link.announce(size);
        Ok(())
    }

    /// Returns the phase of the connection.
    pub fn phase(&self) -> Phase
        ensures { result ≡ self.now.session.link.phase }
    {
        self.link.phase()
    }

    /// Returns the frame that the last `take` completed, if earlier calls had accepted bytes of it, or an empty slice.
    pub fn split_frame(&self) -> &[u8]
        ensures { result.now ≡ self.now.split }
    {
        self.framer.split_frame()
    }

    /// Returns the number of bytes kept of an unfinished frame.
    pub fn kept(&self) -> usize
        ensures { result ≡ length self.now.session.frame }
    {
        self.framer.kept()
    }

    /// Returns the number of queued bytes.
    pub fn waiting(&self) -> usize
        ensures { result ≡ length self.now.session.link.waiting }
    {
        self.link.waiting()
    }

    /// Returns the number of pending entries: delayed responses and Pongs with Custody.
    pub fn pending(&self) -> usize
        ensures { result ≡ length self.now.session.link.pending }
    {
        self.link.pending()
    }

    /// Returns the number of pending entries plus the number of observers, which bounds the iterations of `settle`.
    pub fn settle_bound(&self) -> usize
        ensures { result ≡ length self.now.session.link.pending + length self.now.session.observers }
    {
        self.link.pending() + self.observers.len()
    }

    /// Returns the number of observers.
    pub fn observers(&self) -> usize
        ensures { result ≡ length self.now.session.observers }
    {
        self.observers.len()
    }

    /// Returns the Max-Message-Size of the peer, in bytes.
    pub fn peer_max(&self) -> u32
        ensures { result ≡ self.now.session.link.peer_max }
    {
        self.link.peer_max()
    }

    /// Returns `true` if nothing remains to be written: the connection no longer accepts messages, no entry is pending,
    /// and no byte is queued.
    pub fn finished(&self) -> bool
        ensures { result ≡ is_finished self.now.session.link }
    {
        self.link.finished()
    }
}

/// Processes a message, and returns its effect.
///
/// # Errors
///
/// Returns `AllocError` if allocation fails for the representation that the message stores. Nothing has changed then.
#[inline]
fn handle(
    link: &mut Link,
    observers: &mut Observers,
    shared: &mut ServerState,
    message: &MessageRef,
) -> Result<RequestEffect, AllocError>
    requires ready { IsReady link.old }
    requires live { IsLive link.old.phase }
    requires room { observers.old.room ≡ link.old.limits.observers }
    requires marked { AreMarked shared.old observers.old.entries observers.old.marks }
    ensures after { OnOk result ((frame : List ℕ) → session_with [] link.new observers.new.entries ≡ session_handled
        shared.old (record { frame = frame; link = link.old; observers = observers.old.entries }) message.now) }
    ensures room { OnOk result (observers.new.room ≡ observers.old.room) }
    ensures marked { OnOk result (AreMarked shared.new observers.new.entries observers.new.marks) }
    ensures sizes { OnOk result (sizes_of link.new ≡ sizes_of link.old) }
    ensures changed { IfOk result (λ e. e.changed ≡ change_hash (change_by shared.old link.old message.now)) }
    ensures handed { IfOk result (λ e. e.handed ≡ is_handed_over shared.old link.old message.now) }
    ensures quiet { IfOk result (λ e. e.handed ≡ true → e.changed ≡ None) }
    ensures shared { OnOk result (shared.new ≡ shared_changed shared.old (change_by shared.old link.old message.now)) }
    ensures put { OnErr result (IsPut (change_by shared.old link.old message.now)) }
    ensures unchanged { OnErr result (shared.new ≡ shared.old) }
    ensures silent { OnErr result (link.new ≡ link.old) }
    ensures kept { OnErr result (observers.new ≡ observers.old) }
{
    match link.on(message) {
        Verdict::Request => {
            shared.keep_moment();
            answer(link, observers, shared, message)
        }
        _ => Ok(RequestEffect::none()),
    }
}

/// Removes the observers if the connection is not open, and the bytes of an unfinished frame if the connection no
/// longer accepts messages.
#[inline(always)]
fn discard_if_closed(framer: &mut Framer, link: &Link, observers: &mut Observers)
    ensures framer { framer.new ≡ framer_on link.now framer.old }
    ensures observers { observers.new ≡ observers_left link.now observers.old }
{
    match link.phase() {
        Phase::Open => {}
        _ => discard(framer, link, observers),
    }
}

/// Does the same as `discard_if_closed`. This is a function of its own so that an open connection only tests the phase.
#[inline(never)]
fn discard(framer: &mut Framer, link: &Link, observers: &mut Observers)
    ensures framer { framer.new ≡ framer_on link.now framer.old }
    ensures observers { observers.new ≡ observers_left link.now observers.old }
{
    match link.phase() {
        Phase::Waiting => observers.clear(),
        Phase::Open => {}
        Phase::Releasing(_) => {
            discard_unfinished(framer);
            observers.clear();
        }
        Phase::Stopped(_) => {
            discard_unfinished(framer);
            observers.clear();
        }
    }
}

/// Removes the bytes of an unfinished frame. A split frame that the framer has just returned stays: its message may
/// have stopped the connection and yet changed the store.
fn discard_unfinished(framer: &mut Framer)
    ensures { framer.new ≡ record framer.old { kept = [] } }
{
    if framer.kept() > 0 {
        framer.clear();
    }
}
