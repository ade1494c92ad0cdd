//! The plans for requests. Each function makes one group of checks.

ghost use Rattle.std.specs.Prelude.{◌≡◌, ◌≢◌, true, [], Option, option_map, is_none, ◌≤◌, ℕ, length, not, ◌&&◌};
ghost use Rattle.coap_store.specs.Prelude.{LARGEST_MESSAGE, Message, is_path, Representation};
ghost use Rattle.coap_store.specs.Prelude.{path_of as path_of_request};
ghost use Rattle.coap_store.specs.Prelude.{values_of, is_method as is_known_method, preconditions_hold as hold};
ghost use Rattle.coap_store.specs.Prelude.{get_answer, read_answer, etag_at, max_age_at, is_accepted as accepts};
ghost use Rattle.coap_store.specs.Prelude.{is_among as is_one_of, watch_of, removes_watch as asks_removal};
ghost use Rattle.coap_store.specs.Prelude.{stored as stored_there, delete_answer, found_value, target_value, found_in};
ghost use Rattle.coap_store.specs.Prelude.{kind_of_path, target_of, state_at, answer_of, answer_at, resource_answer};
ghost use Rattle.coap_store.specs.Prelude.{store_answer, no_answer, needs_resource as needs, TakesChange, changes};
ghost use Rattle.coap_store.specs.Prelude.{IsStore, IsFoundAt, IsChangeAt, IfSome, only, is_dynamic, is_async};
ghost use Rattle.coap_store.specs.Prelude.{bytes_of_uint};
ghost use Rattle.coap_wire.specs.OptionNumbers as numbers;
ghost use Rattle.coap_path.specs.declared.resource_kind.ResourceKind.TheVariants.{Dynamic};

use crate::found::{Payload, RepresentationRef};
use crate::plan::{Plan, PlannedChange, Watch};
use crate::request::ParsedRequest;
use crate::request_options::RequestOptions;
use crate::store::Store;
use crate::target::{LINK_FORMAT, RequestTarget, TEXT_PLAIN};
use coap_path::{PathKey, ResourceKind};
use coap_wire::{Code, MessageRef};

impl Store {
    ghost use Rattle.coap_store.specs.Prelude.{path_of};

    /// Returns the plan for a request at the time `now`, in seconds.
    ///
    /// The call allocates nothing and changes nothing: `apply` makes the change. The response to a GET of `/async` is
    /// delayed by as many seconds as the request asks for (`Plan::hold`).
    pub fn answer<'s, 'r>(&'s self, request: &MessageRef<'r>, now: u64) -> Plan<'s, 'r>
        ensures answer { result ≡ answer_of self.now now request.now }
        ensures taken { TakesChange self.now result.change }
        ensures bare { changes result.change ≡ true → result.response.payload ≡ [] }
        ensures short { length result.response.payload ≤ LARGEST_MESSAGE }
        ensures store { IsStore self.now }
    {
        let mut plan = Plan::new();
        self.fill_plan(request, now, &mut plan);
        plan
    }

    /// Fills a new plan with that for a request at the time `now`, in seconds. Does the same as `answer`. A plan is
    /// large and costly to move, so this fills it in place.
    ///
    /// Returns the index of the resource that the plan's change replaces or removes, or `None` if there is none.
    /// `apply_at` then needs no search.
    ///
    /// # Preconditions
    ///
    /// - The plan is new (`Plan::new`).
    #[tactic(auto, using(crate::proofs::AnswerLemmas::fill_plan_steps))]
    pub fn fill_plan<'s, 'r>(
        &'s self,
        request: &MessageRef<'r>,
        now: u64,
        plan: &mut Plan<'s, 'r>,
    ) -> Option<usize>
        requires { plan.old ≡ no_answer }
        ensures answer { plan.new ≡ answer_of self.now now request.now }
        ensures taken { TakesChange self.now plan.new.change }
        ensures index { IfSome result (λ index. IsChangeAt self.now plan.new.change index) }
        ensures bare { changes plan.new.change ≡ true → plan.new.response.payload ≡ [] }
        ensures plain { changes plan.new.change ≡ true → plan.new.response
            ≡ record (only plan.new.response.code) { location = plan.new.response.location } }
        ensures short { length plan.new.response.payload ≤ LARGEST_MESSAGE }
        ensures store { IsStore self.now }
    {
        self.is_kept();
        let mut known = RequestOptions::nothing();
        let parsed = ParsedRequest::by(request, &mut known);
        let index = self.check(&parsed, now, plan);
        if removes_watch(&parsed) {
            plan.set_watch(Watch::Drop);
        }
        index
    }

    /// Fills a new plan, after checking the request itself and then its resource. Returns the index of the resource, if
    /// it was looked for and found.
    #[tactic(auto, unfolding(crate::specs::Answer::answer_at))]
    fn check<'s, 'r>(
        &'s self,
        parsed: &ParsedRequest<'_, 'r>,
        now: u64,
        plan: &mut Plan<'s, 'r>,
    ) -> Option<usize>
        requires { plan.old ≡ no_answer }
        ensures answer { plan.new ≡ answer_at self.now (target_of self.now now (path_of parsed.now)) parsed.now }
        ensures index { IfSome result (λ index. IsFoundAt self.now.resources (path_of parsed.now) index) }
    {
        if parsed.has_bad_option() {
            plan.only(Code::BAD_OPTION);
            return None;
        }
        if parsed.asks_proxy() {
            plan.only(Code::PROXYING_NOT_SUPPORTED);
            return None;
        }
        if !is_method(parsed.code()) {
            plan.only(Code::METHOD_NOT_ALLOWED);
            return None;
        }
        let target = self.target(parsed, now);
        let index = target.index;
        self.at_target(parsed, target, plan);
        index
    }

    /// Returns the target of a request, with the state of its path at the time `now`.
    #[tactic(auto, using(crate::proofs::TargetLemmas::is_path_by_place, crate::proofs::TargetLemmas::built_target))]
    fn target(&self, parsed: &ParsedRequest, now: u64) -> RequestTarget<'_>
        ensures value { target_value parsed.now result ≡ target_of self.now now (path_of parsed.now) }
        ensures path { result.is_path ≡ is_path (path_of parsed.now) }
        ensures place { result.place ≡ kind_of_path (path_of parsed.now) }
        ensures index { IfSome result.index (λ index. IsFoundAt self.now.resources (path_of parsed.now) index) }
    {
        let place = parsed.kind();
        if place.is_dynamic() {
            return self.dynamic_target(parsed);
        }
        RequestTarget {
            is_path: true,
            place,
            state: self.found_at(None, place, now),
            index: None,
        }
    }

    /// Returns the target of a request whose path is not that of a built-in resource.
    // Always inlined: the large key is cleared only where this is reached, and the result is not moved.
    #[inline(always)]
    #[tactic(auto, using(crate::proofs::TargetLemmas::dynamic_target_steps))]
    fn dynamic_target(&self, parsed: &ParsedRequest) -> RequestTarget<'_>
        requires { kind_of_path (path_of parsed.now) ≡ Dynamic }
        ensures value { (now : ℕ) → target_value parsed.now result ≡ target_of self.now now (path_of parsed.now) }
        ensures path { result.is_path ≡ is_path (path_of parsed.now) }
        ensures place { result.place ≡ Dynamic }
        ensures index { IfSome result.index (λ index. IsFoundAt self.now.resources (path_of parsed.now) index) }
    {
        let mut path = PathKey::root();
        if !parsed.fill_key(&mut path) {
            return RequestTarget {
                is_path: false,
                place: ResourceKind::Dynamic,
                state: None,
                index: None,
            };
        }
        match self.find_place(&path) {
            Some((index, resource)) => RequestTarget {
                is_path: true,
                place: ResourceKind::Dynamic,
                state: Some(RepresentationRef::of(resource)),
                index: Some(index),
            },
            None => RequestTarget {
                is_path: true,
                place: ResourceKind::Dynamic,
                state: None,
                index: None,
            },
        }
    }

    /// Returns the representation of a resource at the time `now`, if it exists. A built-in resource needs no key.
    #[tactic(auto, unfolding(crate::specs::State::state_at))]
    pub(crate) fn found_at(
        &self,
        key: Option<&PathKey>,
        place: ResourceKind,
        now: u64,
    ) -> Option<RepresentationRef<'_>>
        ensures { option_map found_value result ≡ state_at self.now now (option_map (λ k. k.now) key.entry) place }
    {
        match place {
            ResourceKind::Root => Some(RepresentationRef::built(
                TEXT_PLAIN,
                Payload::Stored(b"coap+tcp"),
            )),
            ResourceKind::Time => Some(RepresentationRef::built(TEXT_PLAIN, self.moment_text(now))),
            ResourceKind::Async => Some(RepresentationRef::built(
                TEXT_PLAIN,
                Payload::Stored(b"done"),
            )),
            ResourceKind::Listing => Some(RepresentationRef::built(
                LINK_FORMAT,
                Payload::Stored(self.listing()),
            )),
            ResourceKind::Dynamic => self.stored_at(key?),
        }
    }

    /// Returns the representation that is stored at a path.
    fn stored_at(&self, path: &PathKey) -> Option<RepresentationRef<'_>>
        ensures { option_map found_value result ≡ found_in self.now.resources path.now }
    {
        let resource = self.find(path)?;
        Some(RepresentationRef::of(resource))
    }

    /// Fills a new plan, after checking the resource and then the method.
    #[tactic(auto, unfolding(crate::specs::Answer::resource_answer, crate::specs::Answer::method_answer))]
    fn at_target<'s, 'r>(
        &'s self,
        parsed: &ParsedRequest<'_, 'r>,
        target: RequestTarget<'s>,
        plan: &mut Plan<'s, 'r>,
    )
        requires path { target.is_path ≡ is_path (path_of parsed.now) }
        requires place { target.place ≡ kind_of_path (path_of parsed.now) }
        requires fresh { plan.old ≡ no_answer }
        ensures { plan.new ≡ resource_answer self.now (target_value parsed.now target.entry) parsed.now }
    {
        let code = parsed.code();
        if target.state.is_none() && self.needs_resource(code) {
            return plan.only(Code::NOT_FOUND);
        }
        if !target.place.is_dynamic() && code != Code::GET {
            return plan.only(Code::METHOD_NOT_ALLOWED);
        }
        if !preconditions_hold(parsed, target.state.as_ref()) {
            return plan.only(Code::PRECONDITION_FAILED);
        }
        if code == Code::GET {
            return read(parsed, target, plan);
        }
        if code == Code::DELETE {
            return delete(parsed, target, plan);
        }
        self.put_or_post(parsed, target, plan);
    }

    /// Returns `true` if a request with this code needs a resource that exists.
    fn needs_resource(&self, code: Code) -> bool
        ensures { (m : Message) → m.code ≡ code → result ≡ needs self.now m }
    {
        code == Code::GET || (code == Code::PUT || code == Code::POST) && !self.takes_resources()
    }

    /// Fills a new plan with that for PUT or POST (RFC 7252 sections 5.8.2, 5.8.3).
    #[tactic(auto, using(crate::proofs::TargetLemmas::dynamic_is_named), unfolding(crate::specs::Answer::store_answer))]
    fn put_or_post<'s, 'r>(
        &'s self,
        parsed: &ParsedRequest<'_, 'r>,
        target: RequestTarget<'s>,
        plan: &mut Plan<'s, 'r>,
    )
        requires path { target.is_path ≡ is_path (path_of parsed.now) }
        requires place { kind_of_path (path_of parsed.now) ≡ Dynamic }
        requires fresh { plan.old ≡ no_answer }
        ensures { plan.new ≡ store_answer self.now (target_value parsed.now target.entry) parsed.now }
    {
        let is_new = target.state.is_none();
        let greatest = self.rep_max();
        if parsed.payload().len() > greatest {
            return plan.too_large(greatest as u32);
        }
        if is_new && !target.is_path {
            return plan.only(Code::BAD_REQUEST);
        }
        if is_new && self.is_full() {
            return plan.only(Code::NOT_ACCEPTABLE);
        }
        if !self.has_version() {
            return plan.only(Code::SERVICE_UNAVAILABLE);
        }
        if !target.is_path {
            return plan.only(Code::BAD_REQUEST);
        }
        stored(parsed, is_new, plan);
    }
}

/// Returns `true` if the code is that of a known method.
fn is_method(code: Code) -> bool
    ensures { (m : Message) → m.code ≡ code → result ≡ is_known_method m }
{
    code == Code::GET || code == Code::POST || code == Code::PUT || code == Code::DELETE
}

/// Returns `true` if If-Match and If-None-Match hold (RFC 7252 section 5.10.8).
fn preconditions_hold(parsed: &ParsedRequest, state: Option<&RepresentationRef>) -> bool
    ensures { result ≡ hold (option_map (λ f. found_value f.now) state.entry) parsed.now }
{
    let version = state.map(|found| found.version);
    parsed.match_holds(version) && parsed.none_match_holds(version.is_some())
}

/// Fills a new plan with that for GET (RFC 7252 section 5.8.1).
fn read<'s, 'r>(parsed: &ParsedRequest<'_, 'r>, target: RequestTarget<'s>, plan: &mut Plan<'s, 'r>)
    requires { plan.old ≡ no_answer }
    ensures { plan.new ≡ read_answer target.entry.place (option_map found_value target.entry.state) parsed.now }
{
    let RequestTarget { place, state, .. } = target;
    match state {
        Some(found) => get(parsed, place, found, plan),
        None => plan.only(Code::NOT_FOUND),
    }
}

/// Fills a new plan with that for GET of a resource that exists. For `/async`, the first Uri-Query has the delay of the
/// response in seconds, and the default is 5.
#[tactic(auto, using(crate::proofs::GetLemmas::get_steps), unfolding(crate::specs::Answer::get_answer))]
fn get<'s, 'r>(
    parsed: &ParsedRequest<'_, 'r>,
    place: ResourceKind,
    found: RepresentationRef<'s>,
    plan: &mut Plan<'s, 'r>,
)
    requires { plan.old ≡ no_answer }
    ensures { plan.new ≡ get_answer place (found_value found.entry) parsed.now }
{
    if !is_accepted(parsed.accept(), found.format) {
        return plan.only(Code::NOT_ACCEPTABLE);
    }
    // Without an ETag, none is moved.
    if is_prompt_built_in(place) {
        return plan.content(None, found, max_age_of(place), watch_for(parsed, place));
    }
    let etag = etag_for(place, found.version);
    if is_valid(parsed, etag) {
        return plan.valid(etag, watch_for(parsed, place));
    }
    if place.is_async() && !parsed.has_good_query() {
        return plan.only(Code::BAD_REQUEST);
    }
    if place.is_async() {
        plan.content(etag, found, max_age_of(place), Watch::Nothing);
        return plan.delay(parsed.seconds());
    }
    plan.content(etag, found, max_age_of(place), watch_for(parsed, place));
}

/// Returns `true` if the resource is built in, and its responses are not delayed.
fn is_prompt_built_in(place: ResourceKind) -> bool
    ensures { result ≡ not (is_dynamic place) && not (is_async place) }
{
    !place.is_dynamic() && !place.is_async()
}

/// Returns `true` if the representation has the format in Accept, or there is no Accept (RFC 7252 section 5.10.4).
fn is_accepted(wanted: Option<u16>, format: Option<u16>) -> bool
    ensures { result ≡ accepts wanted format }
{
    wanted.is_none() || format == wanted
}

/// Returns the number whose encoding is the ETag of a representation with this version, or `None` if the resource is
/// built in.
pub(crate) fn etag_for(place: ResourceKind, version: u64) -> Option<u64>
    ensures { (r : Representation) → r.version ≡ version → option_map bytes_of_uint result ≡ etag_at place r }
{
    if place.is_dynamic() {
        Some(version)
    } else {
        None
    }
}

/// Returns `true` if there is an ETag and the request has it (RFC 7252 section 5.10.6.2). `etag` is the number whose
/// encoding is the ETag.
fn is_valid(parsed: &ParsedRequest, etag: Option<u64>) -> bool
    ensures { result ≡ is_one_of (option_map bytes_of_uint etag) (values_of numbers.etag parsed.now) }
{
    match etag {
        Some(etag) => parsed.has_etag(etag),
        None => false,
    }
}

/// Returns `Watch::Add` if the request asks to observe an observable resource (RFC 7641 section 2).
fn watch_for(parsed: &ParsedRequest, place: ResourceKind) -> Watch
    ensures { result ≡ watch_of place parsed.now }
{
    if place.is_observable() && parsed.observe() == Some(0) {
        Watch::Add
    } else {
        Watch::Nothing
    }
}

/// Returns `true` if the request asks to be removed from the observers (RFC 7641 section 3.6).
fn removes_watch(parsed: &ParsedRequest) -> bool
    ensures { result ≡ asks_removal parsed.now }
{
    parsed.code() == Code::GET && parsed.observe() == Some(1)
}

/// Returns the Max-Age of a resource in seconds, if its responses have one.
pub(crate) fn max_age_of(place: ResourceKind) -> Option<u32>
    ensures { result ≡ max_age_at place }
{
    if place == ResourceKind::Time {
        Some(1)
    } else {
        None
    }
}

/// Fills a new plan with that to store the payload of a request at its path.
fn stored<'s, 'r>(parsed: &ParsedRequest<'_, 'r>, is_new: bool, plan: &mut Plan<'s, 'r>)
    requires path { is_path (path_of_request parsed.now) ≡ true }
    requires named { path_of_request parsed.now ≢ [] }
    requires fresh { plan.old ≡ no_answer }
    ensures { (state : Option Representation) → is_none state ≡ is_new →
        plan.new ≡ stored_there (path_of_request parsed.now) state parsed.now }
{
    let sets_location = is_new && parsed.code() == Code::POST;
    let code = if is_new { Code::CREATED } else { Code::CHANGED };
    let change = PlannedChange::Put {
        body: parsed.body(),
        format: parsed.content_format(),
        bytes: parsed.payload(),
    };
    plan.change_by(code, sets_location, change);
}

/// Fills a new plan with that for DELETE (RFC 7252 section 5.8.4).
fn delete<'s, 'r>(parsed: &ParsedRequest<'_, 'r>, target: RequestTarget, plan: &mut Plan<'s, 'r>)
    requires path { target.is_path ≡ is_path (path_of_request parsed.now) }
    requires fresh { plan.old ≡ no_answer }
    ensures { plan.new ≡ delete_answer (target_value parsed.now target.entry) }
{
    if !target.is_path || target.state.is_none() {
        return plan.only(Code::DELETED);
    }
    let change = PlannedChange::Delete {
        body: parsed.body(),
    };
    plan.change_by(Code::DELETED, false, change);
}
