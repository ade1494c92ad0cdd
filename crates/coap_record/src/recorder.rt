//! `Recorder`, a monitor that writes the line of each call.

ghost use Rattle.std.specs.Prelude.{◌≡◌, ◌∷◌, ◌++◌, ◌||◌, ℕ, List, [], Some, true, false, nat_le};
ghost use Rattle.coap_model.specs.world.Events.{Opened};
ghost use Rattle.coap_record.specs.Prelude.{AcceptedCall, IsRecordOf, call_value};

use crate::buffered::BufferedOutlet;
use crate::lines::{write_call, write_opened};
use crate::ranges::{read_opened, read_range};
use coap_io::{Outlet, write_all};
use coap_model::ConnId;
use coap_server_engine::{Call, Monitor, Server};

/// Monitor that writes the line of each call to an outlet, and passes the lines on at the end of each turn. The record
/// ends after a failed write, or with the line with which the number of its bytes reaches a limit. After that the
/// monitor ignores all calls. `laws::a_recorded_run_replays` has the theorem on its text.
#[derive(Drop)]
pub struct Recorder<O> {
    outlet: BufferedOutlet<O>,
    limit: u64,
}

impl<O: Outlet + Drop> Recorder<O> {
    /// Creates a recorder over an outlet. The record ends when it has `limit` bytes or more.
    #[tactic(auto, using(crate::proofs::RecordLemmas::record_begins))]
    pub fn new(outlet: BufferedOutlet<O>, limit: u64) -> Recorder<O>
        ensures outlet { result.outlet ≡ outlet }
        ensures limit { result.limit ≡ limit }
        // Over an outlet without bytes, this is the record of no header and no calls.
        ensures begins { ⟦<BufferedOutlet<O> as Outlet>⟧.written outlet ≡ Some [] →
            IsRecordOf [] (⟦<BufferedOutlet<O> as Outlet>⟧.is_failed result.outlet)
            (nat_le result.limit result.outlet.count)
            (⟦<BufferedOutlet<O> as Outlet>⟧.written result.outlet) [] }
    {
        Recorder { outlet, limit }
    }

    /// Returns `true` if a write has failed.
    pub fn has_failed(&self) -> bool
        ensures { result ≡ ⟦<BufferedOutlet<O> as Outlet>⟧.is_failed self.now.outlet }
    {
        self.outlet.failed()
    }

    /// Returns `true` if the record has reached its limit.
    pub fn has_reached_limit(&self) -> bool
        ensures { result ≡ nat_le self.now.limit self.now.outlet.count }
    {
        self.limit <= self.outlet.count()
    }

    /// Returns `true` if the record has ended: a write has failed, or the limit was reached.
    pub fn has_ended(&self) -> bool
        ensures { result ≡ (⟦<BufferedOutlet<O> as Outlet>⟧.is_failed self.now.outlet
            || nat_le self.now.limit self.now.outlet.count) }
    {
        self.has_failed() || self.has_reached_limit()
    }

    /// Writes a text before the lines of all calls, unless a write has failed. The text is written whole, also if the
    /// record has reached its limit.
    #[tactic(auto, using(crate::proofs::RecordLemmas::header_written, crate::proofs::RecordLemmas::header_stays))]
    pub fn write_header(&mut self, text: &[u8])
        ensures header { (before : List ℕ) →
            IsRecordOf before (⟦<BufferedOutlet<O> as Outlet>⟧.is_failed self.old.outlet)
            (nat_le self.old.limit self.old.outlet.count)
            (⟦<BufferedOutlet<O> as Outlet>⟧.written self.old.outlet) [] →
            IsRecordOf (before ++ text.now) (⟦<BufferedOutlet<O> as Outlet>⟧.is_failed self.new.outlet)
            (nat_le self.new.limit self.new.outlet.count)
            (⟦<BufferedOutlet<O> as Outlet>⟧.written self.new.outlet) [] }
        ensures limit { self.new.limit ≡ self.old.limit }
    {
        if self.has_failed() {
            return;
        }
        let _ = write_all(&mut self.outlet, text);
    }

    /// Writes the line of a call of `open`, unless the record has ended.
    #[tactic(auto, using(crate::proofs::RecordLemmas::record_stays))]
    pub fn record_opened(&mut self, id: ConnId)
        ensures follows { (header : List ℕ) (calls : List AcceptedCall) →
            IsRecordOf header (⟦<BufferedOutlet<O> as Outlet>⟧.is_failed self.old.outlet)
            (nat_le self.old.limit self.old.outlet.count)
            (⟦<BufferedOutlet<O> as Outlet>⟧.written self.old.outlet) calls →
            IsRecordOf header (⟦<BufferedOutlet<O> as Outlet>⟧.is_failed self.new.outlet)
            (nat_le self.new.limit self.new.outlet.count)
            (⟦<BufferedOutlet<O> as Outlet>⟧.written self.new.outlet) (calls ++ Opened id ∷ []) }
        ensures ended { (⟦<BufferedOutlet<O> as Outlet>⟧.is_failed self.old.outlet
            || nat_le self.old.limit self.old.outlet.count) ≡ true → self.new ≡ self.old }
        ensures limit { self.new.limit ≡ self.old.limit }
    {
        if self.has_ended() {
            return;
        }
        read_opened(id);
        let _ = write_opened(&mut self.outlet);
    }

    /// Writes the line of any other call, unless the record has ended.
    #[tactic(auto, using(crate::proofs::RecordLemmas::record_goes_on, crate::proofs::RecordLemmas::record_stays))]
    pub fn record(&mut self, call: &Call<'_>)
        ensures follows { (header : List ℕ) (calls : List AcceptedCall) →
            IsRecordOf header (⟦<BufferedOutlet<O> as Outlet>⟧.is_failed self.old.outlet)
            (nat_le self.old.limit self.old.outlet.count)
            (⟦<BufferedOutlet<O> as Outlet>⟧.written self.old.outlet) calls →
            IsRecordOf header (⟦<BufferedOutlet<O> as Outlet>⟧.is_failed self.new.outlet)
            (nat_le self.new.limit self.new.outlet.count)
            (⟦<BufferedOutlet<O> as Outlet>⟧.written self.new.outlet) (calls ++ call_value call.now ∷ []) }
        ensures ended { (⟦<BufferedOutlet<O> as Outlet>⟧.is_failed self.old.outlet
            || nat_le self.old.limit self.old.outlet.count) ≡ true → self.new ≡ self.old }
        ensures limit { self.new.limit ≡ self.old.limit }
    {
        if self.has_ended() {
            return;
        }
        read_range(call);
        let _ = write_call(&mut self.outlet, call);
    }

    /// Passes the lines on that wait in the queue of the outlet, unless a write has failed.
    #[tactic(auto, using(crate::proofs::RecordLemmas::record_flushed))]
    pub fn flush(&mut self)
        ensures follows { (header : List ℕ) (calls : List AcceptedCall) →
            IsRecordOf header (⟦<BufferedOutlet<O> as Outlet>⟧.is_failed self.old.outlet)
            (nat_le self.old.limit self.old.outlet.count)
            (⟦<BufferedOutlet<O> as Outlet>⟧.written self.old.outlet) calls →
            IsRecordOf header (⟦<BufferedOutlet<O> as Outlet>⟧.is_failed self.new.outlet)
            (nat_le self.new.limit self.new.outlet.count)
            (⟦<BufferedOutlet<O> as Outlet>⟧.written self.new.outlet) calls }
        ensures failed { ⟦<BufferedOutlet<O> as Outlet>⟧.is_failed self.old.outlet ≡ true → self.new ≡ self.old }
        ensures passed { ⟦<BufferedOutlet<O> as Outlet>⟧.is_failed self.new.outlet ≡ false →
            self.new.outlet.queue.waiting ≡ [] }
        ensures limit { self.new.limit ≡ self.old.limit }
    {
        if self.outlet.failed() {
            return;
        }
        let _ = self.outlet.flush();
    }
}

impl<W, O: Outlet + Drop> Monitor<W> for Recorder<O> {
    ghost follows = { λ r header calls. IsRecordOf header (⟦<BufferedOutlet<O> as Outlet>⟧.is_failed r.outlet)
        (nat_le r.limit r.outlet.count) (⟦<BufferedOutlet<O> as Outlet>⟧.written r.outlet) calls };

    // No line waits in the queue of the outlet, unless a write has failed.
    ghost has_passed = { λ r. ⟦<BufferedOutlet<O> as Outlet>⟧.is_failed r.outlet ≡ false →
        r.outlet.queue.waiting ≡ [] };

    #[tactic(auto, unfolding(crate::specs::Prelude::FollowsMore))]
    fn opened(&mut self, id: ConnId, _wire: &W, _server: &Server) {
        self.record_opened(id);
    }

    #[tactic(auto, unfolding(crate::specs::Prelude::FollowsMore))]
    fn accepted(&mut self, call: Call<'_>, _server: &Server) {
        self.record(&call);
    }

    #[tactic(auto, using(crate::proofs::RecordLemmas::record_ignores), unfolding(crate::specs::Prelude::FollowsMore))]
    fn listens(&self) -> bool {
        !self.has_ended()
    }

    #[tactic(auto, unfolding(crate::specs::Prelude::FollowsMore))]
    fn turn_ended(&mut self) {
        self.flush();
    }
}
