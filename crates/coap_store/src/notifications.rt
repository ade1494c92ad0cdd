//! The notifications of observers (RFC 7641).

use crate::answer::{etag_for, max_age_of};
use crate::found::RepresentationRef;
use crate::plan::{Plan, Watch};
use crate::store::Store;
use coap_path::{PathKey, ResourceKind};
use coap_wire::Code;

/// Path of an observer, with what earlier calls found there.
#[derive(Clone, Copy)]
pub struct ObservedPath<'p> {
    /// Path.
    pub path: &'p PathKey,
    /// Kind of the path.
    pub kind: ResourceKind,
    /// Index that the resource may have, as an earlier call returned it. The resource is searched only if it has
    /// another index.
    pub near: usize,
}

impl Store {
    ghost use Rattle.std.specs.Prelude.{◌≡◌, ◌≤◌, [], length, option_map, Some};
    ghost use Rattle.coap_store.specs.Prelude.{LARGEST_MESSAGE, says, IsStore, notification_of, no_answer};
    ghost use Rattle.coap_store.specs.Prelude.{kind_of_path, found_value, state_at};

    /// Returns the notification for an observer of a path at the time `now`, in seconds (RFC 7641 section 4.2).
    ///
    /// `format` is the Content-Format of the representations that were sent before, if they had one. The notification
    /// is 4.04 if the path is absent, and 4.06 if the representation has another format. Otherwise it is 2.05 with the
    /// representation, as in a response to GET. The call allocates nothing.
    pub fn notification<'s, 'r>(
        &'s self,
        path: &PathKey,
        format: Option<u16>,
        now: u64,
    ) -> Plan<'s, 'r>
        ensures reported { result ≡ says (notification_of self.now now path.now format) }
        ensures short { length result.response.payload ≤ LARGEST_MESSAGE }
        ensures store { IsStore self.now }
    {
        let mut plan = Plan::new();
        let observed = ObservedPath {
            path,
            kind: path.kind(),
            near: 0,
        };
        self.fill_notification(observed, format, now, &mut plan);
        plan
    }

    /// Fills a new plan with the notification that `notification` returns, and returns the index of the resource, or 0
    /// if there is none.
    ///
    /// # Preconditions
    ///
    /// - The plan is new (`Plan::new`), and the kind is that of the path.
    #[tactic(auto, using(crate::proofs::StateLemmas::state_by_key), unfolding(crate::specs::Notifications::notification_at))]
    pub fn fill_notification<'s, 'r>(
        &'s self,
        observed: ObservedPath<'_>,
        format: Option<u16>,
        now: u64,
        plan: &mut Plan<'s, 'r>,
    ) -> usize
        requires place { observed.kind ≡ kind_of_path observed.path.now }
        requires fresh { plan.old ≡ no_answer }
        ensures reported { plan.new ≡ says (notification_of self.now now observed.entry.path.now format) }
        ensures short { length plan.new.response.payload ≤ LARGEST_MESSAGE }
        ensures located { plan.new.response.location ≡ [] }
        ensures store { IsStore self.now }
    {
        self.is_kept();
        observed.path.is_kept();
        let Some((index, found)) = self.found_near(observed, now) else {
            plan.only(Code::NOT_FOUND);
            return 0;
        };
        if found.format != format {
            plan.only(Code::NOT_ACCEPTABLE);
            return index;
        }
        let etag = etag_for(observed.kind, found.version);
        plan.content(etag, found, max_age_of(observed.kind), Watch::Nothing);
        index
    }

    /// Returns the representation of a resource at the time `now`, if it exists, and its index, which is 0 if
    /// it is built in.
    #[tactic(auto, using(crate::proofs::AnswerLaws::state_dynamic))]
    fn found_near(
        &self,
        observed: ObservedPath<'_>,
        now: u64,
    ) -> Option<(usize, RepresentationRef<'_>)>
        ensures { option_map (λ r. found_value r.1) result
            ≡ state_at self.now now (Some observed.entry.path.now) observed.entry.kind }
    {
        if observed.kind.is_dynamic() {
            return match self.find_near(observed.path, observed.near) {
                Some((index, resource)) => Some((index, RepresentationRef::of(resource))),
                None => None,
            };
        }
        match self.found_at(Some(observed.path), observed.kind, now) {
            Some(found) => Some((0, found)),
            None => None,
        }
    }
}
