//! Output of a link: responses, CSM and Release, reduced to fit the peer's limit, and the end of a connection.

ghost use Rattle.std.specs.Prelude.{◌≡◌, ◌++◌, false, true, [], OnOk, OnErr};
ghost use Rattle.coap_conn.specs.Prelude.{Message, RefusedBy, fit, fits, fitted, bare_response, IsAnswering, stop};
ghost use Rattle.coap_conn.specs.Prelude.{abort, send, reply_verdict, pong_with, sends, History, after, LinkShows};
ghost use Rattle.coap_conn.specs.Prelude.{bytes_of};
ghost use Rattle.coap_conn.specs.Prelude.{own_csm, IsReady, limit_in, state_in, link_with, link_after};
ghost use Rattle.coap_conn.specs.Prelude.{verdict_value, release_refusal};
ghost use Rattle.coap_conn.specs.declared.phase.Phase.TheVariants.{Open};
ghost use Rattle.coap_conn.specs.Verdicts as verdict;
ghost use Rattle.coap_conn.specs.Calls as call;

use super::Link;
use crate::phase::{Phase, Reply, SendFault, Verdict};
use crate::reason::Reason;
use crate::signal_messages::{
    abort_text, abort_with, announce, announcement_size, bad_csm_number, bare_of, pong_to,
    queue_release,
};
use coap_wire::{Code, CompactBuilder, MessageBuilder, ShortBuilder, TokenRef, uint_bytes};

/// Size in bytes of a Release.
const RELEASE_SIZE: usize = 2;

impl Link {
    /// Queues a response, reduced if it does not fit the peer's limit: the smaller of `max_sent` and `peer_max`.
    ///
    /// A response that does not fit is replaced by a bare one, which has its token and a code alone. The codes 2.01,
    /// 2.02 and 2.04 stay, and any other code becomes 5.00. If the bare response does not fit either, the connection
    /// stops.
    ///
    /// # Preconditions
    ///
    /// The queue has room for a message of `max_sent` bytes, and the phase is `Open` or `Releasing`.
    pub fn reply<const N: usize>(&mut self, response: &MessageBuilder<N>) -> Reply
        requires ready { IsReady self.old }
        requires answering { IsAnswering self.old.phase }
        ensures reply { result ≡ fit (limit_in self.old) response.now (bare_response response.now) }
        ensures after { self.new ≡ link_after self.old (call.Reply response.now) }
        ensures shows { (h : History) → LinkShows self.old h → LinkShows self.new (after h (call.Reply response.now)) }
    {
        if response.size() <= self.limit() as u64 {
            self.queue.put(response);
            return Reply::Whole;
        }
        self.reply_bare(response.code(), response.token())
    }

    /// Queues a response with compact options, as `reply` does.
    ///
    /// # Preconditions
    ///
    /// As `reply`.
    #[inline(always)]
    pub fn reply_compact<const N: usize>(&mut self, response: &CompactBuilder<N>) -> Reply
        requires ready { IsReady self.old }
        requires answering { IsAnswering self.old.phase }
        ensures reply { result ≡ fit (limit_in self.old) response.now (bare_response response.now) }
        ensures after { self.new ≡ link_after self.old (call.Reply response.now) }
        ensures shows { (h : History) → LinkShows self.old h → LinkShows self.new (after h (call.Reply response.now)) }
    {
        let limit = self.limit();
        if self.queue.offer(response, limit) {
            return Reply::Whole;
        }
        self.reply_bare(response.code(), response.token())
    }

    /// Returns `true` if a CSM with this Max-Message-Size fits the peer's limit.
    pub fn takes_announcement(&self, size: u32) -> bool
        ensures { result ≡ fits (limit_in self.now) (own_csm size) }
    {
        announcement_size(size as usize) <= self.limit() as u64
    }

    /// Queues a CSM that announces another Max-Message-Size, in bytes. The new size applies at once (RFC 8323 section
    /// 5.3.1).
    ///
    /// # Preconditions
    ///
    /// The phase is `Open`, the queue has room for a message of `max_sent` bytes, and `takes_announcement` returns
    /// `true` for this size.
    pub fn announce(&mut self, size: u32)
        requires ready { IsReady self.old }
        requires open { self.old.phase ≡ Open }
        requires taken { fits (limit_in self.old) (own_csm size) ≡ true }
        ensures after { self.new ≡ link_after self.old (call.Announce size) }
        ensures shows { (h : History) → LinkShows self.old h → LinkShows self.new (after h (call.Announce size)) }
    {
        announce(&mut self.queue, size as usize);
        self.own_max = size as usize;
    }

    /// Queues a Release and stops the connection (RFC 8323 section 5.5). All pending and outstanding entries are
    /// dropped.
    ///
    /// # Errors
    ///
    /// Returns the first of these that applies; the link is then unchanged:
    ///
    /// - `NotOpen`: the phase is not `Open`.
    /// - `NoRoom`: fewer than 2 bytes of the queue are free.
    /// - `PeerTooSmall`: the peer accepts no message of 2 bytes.
    pub fn release(&mut self) -> Result<(), SendFault>
        ensures answer { RefusedBy result (release_refusal self.old) }
        ensures after { OnOk result (self.new ≡ link_after self.old call.Release) }
        ensures shows { OnOk result ((h : History) → LinkShows self.old h → LinkShows self.new (after h call.Release)) }
        ensures err { OnErr result (self.new ≡ self.old) }
    {
        let Phase::Open = self.phase else {
            return Err(SendFault::NotOpen);
        };
        if self.queue.free() < RELEASE_SIZE {
            return Err(SendFault::NoRoom);
        }
        if self.limit() < RELEASE_SIZE {
            return Err(SendFault::PeerTooSmall);
        }
        queue_release(&mut self.queue);
        self.stop(Reason::ReleasedHere);
        Ok(())
    }

    /// Queues `whole` if it fits the peer's limit, otherwise `less` if that fits, and otherwise nothing.
    fn queue_fitted(&mut self, whole: &ShortBuilder, less: &ShortBuilder) -> Reply
        requires { IsReady self.old }
        ensures reply { result ≡ fit (limit_in self.old) whole.now less.now }
        ensures after { self.new
            ≡ record self.old { waiting = self.old.waiting ++ bytes_of (fitted whole.now less.now result) } }
    {
        let limit = self.limit();
        if self.queue.offer_short(whole, limit) {
            return Reply::Whole;
        }
        if self.queue.offer_short(less, limit) {
            return Reply::Bare;
        }
        Reply::Stopped
    }

    /// Queues `whole` if it fits the peer's limit, otherwise `less` if that fits, and otherwise stops the connection.
    fn send(&mut self, whole: &ShortBuilder, less: &ShortBuilder) -> Reply
        requires { IsReady self.old }
        ensures reply { result ≡ fit (limit_in self.old) whole.now less.now }
        ensures after { self.new ≡ link_with self.old (send (state_in self.old) whole.now less.now) }
    {
        let reply = self.queue_fitted(whole, less);
        match reply {
            Reply::Whole => {}
            Reply::Bare => {}
            Reply::Stopped => {
                self.stop(Reason::PeerTooSmall);
            }
        }
        reply
    }

    /// Queues the bare response with this code and token in place of one that does not fit the peer's limit. If the
    /// bare response does not fit either, stops the connection. (A separate function: a function clears all its locals,
    /// so these would slow down `reply`.)
    #[inline(never)]
    fn reply_bare(&mut self, code: Code, token: &TokenRef) -> Reply
        requires { IsReady self.old }
        ensures reply { (response : Message) → response.code ≡ code → response.token ≡ token.now →
            fits (limit_in self.old) response ≡ false →
            result ≡ fit (limit_in self.old) response (bare_response response) }
        ensures after { (response : Message) → response.code ≡ code → response.token ≡ token.now →
            fits (limit_in self.old) response ≡ false →
            self.new ≡ link_with self.old (send (state_in self.old) response (bare_response response)) }
    {
        let bare = bare_of(code, token);
        let limit = self.limit();
        if self.queue.offer_short(&bare, limit) {
            return Reply::Bare;
        }
        self.stop(Reason::PeerTooSmall);
        Reply::Stopped
    }

    /// Queues the reply to a received message, as `send` does, and returns the verdict on that message.
    pub(super) fn answer(&mut self, whole: &ShortBuilder, less: &ShortBuilder) -> Verdict<'static>
        requires { IsReady self.old }
        ensures verdict { verdict_value result ≡ reply_verdict (fit (limit_in self.old) whole.now less.now) }
        ensures after { self.new ≡ link_with self.old (send (state_in self.old) whole.now less.now) }
    {
        match self.send(whole, less) {
            Reply::Whole => Verdict::Done,
            Reply::Bare => Verdict::Done,
            Reply::Stopped => Verdict::Stopped(Reason::PeerTooSmall),
        }
    }

    /// Queues the Pong to the Ping with this token, with Custody or without.
    pub(super) fn pong(&mut self, token: &TokenRef, custody: bool) -> Verdict<'static>
        requires { IsReady self.old }
        ensures verdict { verdict_value result
            ≡ (sends (state_in self.old) (pong_with custody token.now)
            (pong_with false token.now)).verdict }
        ensures after { self.new
            ≡ link_with self.old (sends (state_in self.old) (pong_with custody token.now)
            (pong_with false token.now)).effect }
    {
        // Without options, the bytes go into the queue one by one. For a short token that costs less than an array.
        let plain: CompactBuilder<0> = CompactBuilder::new(Code::PONG, token.copy());
        if !custody && plain.size() <= self.limit() as u64 {
            self.queue.put_compact(&plain);
            return Verdict::Done;
        }
        self.pong_fitted(token, custody)
    }

    /// Queues the Pong as `pong` does, without Custody if only that fits the peer's limit. (A separate function: a
    /// function clears all its locals, so these would slow down `pong`.)
    #[inline(never)]
    fn pong_fitted(&mut self, token: &TokenRef, custody: bool) -> Verdict<'static>
        requires { IsReady self.old }
        ensures verdict { verdict_value result
            ≡ (sends (state_in self.old) (pong_with custody token.now)
            (pong_with false token.now)).verdict }
        ensures after { self.new
            ≡ link_with self.old (sends (state_in self.old) (pong_with custody token.now)
            (pong_with false token.now)).effect }
    {
        let pong = pong_to(token, custody);
        let less = ShortBuilder::new(Code::PONG, token.copy());
        self.answer(&pong, &less)
    }

    /// Stops the connection and drops all pending and outstanding entries. Bytes in the queue are still written. No
    /// other function sets the phase `Stopped`.
    pub(super) fn stop(&mut self, reason: Reason) -> Verdict<'static>
        ensures verdict { verdict_value result ≡ verdict.Stopped reason }
        ensures after { self.new ≡ link_with self.old (stop (state_in self.old) reason []) }
    {
        self.phase = Phase::Stopped(reason);
        self.pending.clear();
        self.outstanding.clear();
        Verdict::Stopped(reason)
    }

    /// Queues the Abort for the reason, if it has one, without its text if only that fits the peer's limit. Then stops
    /// the connection.
    // Always inlined: the verdict of each message is then in registers, since no call writes one to memory.
    #[inline(always)]
    pub(super) fn abort(&mut self, reason: Reason) -> Verdict<'static>
        requires { IsReady self.old }
        ensures verdict { verdict_value result ≡ verdict.Stopped reason }
        ensures after { self.new ≡ link_with self.old (abort (state_in self.old) reason) }
    {
        if let Some(text) = abort_text(reason) {
            let number = bad_csm_number(reason);
            let bytes = uint_bytes(number.unwrap_or(0) as u64);
            let whole = abort_with(number, &bytes, text);
            let less = abort_with(number, &bytes, &[]);
            self.queue_fitted(&whole, &less);
        }
        self.stop(reason)
    }
}
