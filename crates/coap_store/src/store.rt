//! The store, which has the resources of a server.

ghost use Rattle.std.specs.Prelude.{◌≡◌, ◌<◌, IfSome, ◌≤◌, [], Some, None, IfOk, OnOk, OnErr, length, not, nat_le};
ghost use Rattle.std.specs.Prelude.{◌==◌, option_map, decimal};
ghost use Rattle.coap_store.specs.Prelude.{LARGEST_MESSAGE, changed, greatest_version, found_in, put_in, removed_in};
ghost use Rattle.coap_store.specs.Prelude.{listing as listing_of, representation, TakesChange, TakesPut, IsPut};
ghost use Rattle.coap_store.specs.Prelude.{IsStore, change_value, planned_value, bytes_in, IsFoundAt, IsChangeAt};
ghost use Rattle.coap_store.specs.Prelude.{body_path, application_deadline};

use crate::catalogue::Catalogue;
use crate::found::Payload;
use crate::plan::{Change, PlannedChange};
use crate::request::{ParsedRequest, path_in};
use crate::request_options::RequestOptions;
use crate::resource::Resource;
use coap_path::{Applications, PathKey, UriPath};
use coap_text::Decimal;
use coap_wire::{Body, MessageRef};
use std::alloc::{AllocError, Global};
use std::marker::Model;

/// Store of a server's resources: the built-in ones, and at most `dynamic_max` created ones of at most `rep_max` bytes
/// each, in order of creation. Contracts see a `StoreValue`.
///
/// # Examples
///
/// ```
/// let mut store = Store::new(rt.alloc(), 16, 1_024, 0)?;
/// let path = PathKey::from_segments(&[b"temperature"]).ok_or("no path")?;
/// // Content-Format 0 is text.
/// let version = store.put(&path, Some(0), b"21.5")?;
/// match store.state(&path, 0) {
///     State::Present(stored) => {
///         assert!(&rt; stored.version() == version && stored.bytes() == b"21.5".as_slice());
///     }
///     State::Absent => assert!(&rt; false),
/// }
/// ```
#[derive(Drop)]
pub struct Store {
    dynamic_max: usize,
    rep_max: usize,
    resources: Catalogue,
    /// Version of the representation stored last.
    versions: u64,
    /// Time in seconds whose text is cached.
    moment: Decimal,
}

impl Model for Store {
    ghost use Rattle.coap_store.specs.Store.{StoreValue};

    ghost Value = { StoreValue };

    ghost use Rattle.coap_store.specs.StoreViews.{store_value, is_store};

    ghost view = { store_value };

    ghost invariant = { is_store };
}

impl Store {
    /// Creates a store without created resources. The first representation stored gets the version `versions_from + 1`.
    ///
    /// # Errors
    ///
    /// - `AllocError`: allocation failed.
    ///
    /// # Preconditions
    ///
    /// - The limit `dynamic_max` of created resources is at most 1,000.
    /// - The limit `rep_max` of a representation is at most 1,048,576 bytes.
    pub fn new(
        alloc: Global,
        dynamic_max: usize,
        rep_max: usize,
        versions_from: u64,
    ) -> Result<Store, AllocError>
        requires few { dynamic_max ≤ 1000 }
        requires small { rep_max ≤ LARGEST_MESSAGE }
        ensures empty { IfOk result (λ s. s ≡ record {
          dynamic_max = dynamic_max;
          rep_max = rep_max;
          resources = [];
          versions = versions_from;
          applications = None;
        }) }
        ensures store { IfOk result IsStore }
    {
        Ok(Store {
            dynamic_max,
            rep_max,
            resources: Catalogue::new(alloc)?,
            versions: versions_from,
            moment: Decimal::of(0),
        })
    }

    /// Returns the same store, in which the application answers the requests of these entries. The listing has a link
    /// for each, after those of the built-in resources and in the order of the entries.
    ///
    /// # Errors
    ///
    /// - `AllocError`: allocation for the links failed.
    #[tactic(auto, using(crate::proofs::StoreLemmas::bare_listing_short))]
    pub fn with_applications(self, applications: Applications) -> Result<Store, AllocError>
        ensures value { IfOk result (λ s. s ≡ record self { applications = Some applications }) }
        ensures store { IfOk result IsStore }
    {
        let mut store = self;
        store.resources.set_applications(applications)?;
        Ok(store)
    }

    /// Returns the seconds that the application has for a response to a request, or `None` if it does not answer it. It
    /// answers no request with an unrecognised critical option, and none that asks for proxying.
    #[tactic(auto, unfolding(crate::specs::ApplicationRequests::application_deadline))]
    pub fn application_deadline(&self, request: &MessageRef) -> Option<u32>
        ensures { result ≡ application_deadline self.now.applications request.now }
    {
        match self.resources.applications() {
            None => None,
            Some(applications) => deadline_in(applications, request),
        }
    }

    /// Caches the text of the time `now`, in seconds.
    ///
    /// Requests and notifications of `/time` at this time then need no formatting. The store's value does not change.
    pub fn keep_moment(&mut self, now: u64)
        ensures value { self.new ≡ self.old }
        ensures store { IsStore self.new }
    {
        if self.moment.text_of(now).is_none() {
            self.moment = Decimal::of(now);
        }
    }

    /// Returns the text of the time `now`.
    pub(crate) fn moment_text(&self, now: u64) -> Payload<'_>
        ensures { bytes_in result ≡ decimal now }
    {
        match self.moment.text_of(now) {
            Some(text) => Payload::Stored(text),
            None => Payload::Decimal(now),
        }
    }

    /// Makes a change that `answer` returned.
    ///
    /// # Errors
    ///
    /// - `AllocError`: allocation for a representation failed. The store is unchanged.
    ///
    /// # Preconditions
    ///
    /// - The store accepts the change. This is the case if `answer` returned it and the store has not changed since.
    pub fn apply(&mut self, change: Change) -> Result<(), AllocError>
        requires { TakesChange self.old (change_value change) }
        ensures ok { OnOk result (self.new ≡ changed self.old (change_value change.entry)) }
        ensures err { OnErr result (self.new ≡ self.old) }
        ensures put { OnErr result (IsPut (change_value change.entry)) }
        ensures store { IsStore self.new }
    {
        match change {
            Change::Nothing => {}
            Change::Put {
                path,
                format,
                bytes,
            } => self.store(path, format, bytes)?,
            Change::Delete(path) => self.delete(&path),
        }
        self.is_kept();
        Ok(())
    }

    /// Makes a change that `fill_plan` returned with this index. Does the same as `apply`, and builds a key only if
    /// there is no index.
    ///
    /// # Errors
    ///
    /// - `AllocError`: allocation for a representation failed. The store is unchanged.
    ///
    /// # Preconditions
    ///
    /// - The store accepts the change, and the index is that of its resource. This is the case if `fill_plan` returned
    ///   both and the store has not changed since.
    #[tactic(auto, using(crate::proofs::StoreLemmas::found_is_path))]
    pub fn apply_at(
        &mut self,
        change: &PlannedChange,
        index: Option<usize>,
    ) -> Result<(), AllocError>
        requires taken { TakesChange self.old (planned_value change.now) }
        requires index { IfSome index (λ index. IsChangeAt self.old (planned_value change.now) index) }
        ensures ok { OnOk result (self.new ≡ changed self.old (planned_value change.now)) }
        ensures err { OnErr result (self.new ≡ self.old) }
        ensures put { OnErr result (IsPut (planned_value change.now)) }
        ensures store { IsStore self.new }
    {
        self.is_kept();
        match change {
            PlannedChange::Nothing => {}
            PlannedChange::Put {
                body,
                format,
                bytes,
            } => match index {
                Some(index) => self.replace(body, index, *format, bytes)?,
                None => self.store(path_in(body), *format, bytes)?,
            },
            PlannedChange::Delete { body } => match index {
                Some(index) => self.delete_at(body, index),
                None => self.delete(&path_in(body)),
            },
        }
        self.is_kept();
        Ok(())
    }

    /// Returns the created resource at a path.
    #[tactic(auto, using(crate::proofs::StoreLemmas::lent_small))]
    pub(crate) fn find(&self, path: &PathKey) -> Option<&Resource>
        ensures value { option_map (λ r. representation r.now) result ≡ found_in self.now.resources path.now }
        ensures small { IfSome result (λ r. length r.now.bytes.items ≤ LARGEST_MESSAGE) }
    {
        self.resources.get(path)
    }

    /// Returns the created resource at a path, and its index.
    pub(crate) fn find_place(&self, path: &PathKey) -> Option<(usize, &Resource)>
        ensures value { option_map (λ r. representation r.1.now) result ≡ found_in self.now.resources path.now }
        ensures index { IfSome result (λ r. IsFoundAt self.now.resources path.now r.0) }
    {
        self.resources.find(path)
    }

    /// Returns the same as `find_place`. Needs no search if the index is `near`.
    // Always inlined, as `Catalogue::find_near`.
    #[inline(always)]
    pub(crate) fn find_near(&self, path: &PathKey, near: usize) -> Option<(usize, &Resource)>
        ensures { option_map (λ r. representation r.1.now) result ≡ found_in self.now.resources path.now }
    {
        self.resources.find_near(path, near)
    }

    /// Returns the version of the created resource at a path, if there is one. Needs no search if its index is `near`.
    pub fn version_near(&self, path: &PathKey, near: usize) -> Option<u64>
        ensures { result ≡ option_map (λ r. r.version) (found_in self.now.resources path.now) }
    {
        match self.find_near(path, near) {
            Some((_, resource)) => Some(resource.version),
            None => None,
        }
    }

    /// Returns the representation of `/.well-known/core` (RFC 6690).
    #[tactic(auto, using(crate::proofs::StoreLemmas::listing_short))]
    pub(crate) fn listing(&self) -> &[u8]
        ensures value { result.now ≡ listing_of self.now.applications self.now.resources }
        ensures short { length result.now ≤ LARGEST_MESSAGE }
    {
        self.resources.is_kept();
        self.resources.listing()
    }

    /// Returns `true` if the limit of created resources is reached.
    pub(crate) fn is_full(&self) -> bool
        ensures { result ≡ nat_le self.now.dynamic_max (length self.now.resources) }
    {
        self.dynamic_max <= self.resources.len()
    }

    /// Returns `true` if the store accepts created resources at all.
    pub(crate) fn takes_resources(&self) -> bool
        ensures { result ≡ not (self.now.dynamic_max == 0) }
    {
        self.dynamic_max != 0
    }

    /// Returns the maximum size of a representation in bytes.
    pub(crate) fn rep_max(&self) -> usize
        ensures value { result ≡ self.now.rep_max }
        ensures small { result ≤ LARGEST_MESSAGE }
    {
        self.rep_max
    }

    /// Returns `true` if another representation can be stored: at least one version is left.
    pub(crate) fn has_version(&self) -> bool
        ensures { result ≡ not (self.now.versions == greatest_version) }
    {
        self.versions != u64::MAX
    }

    /// Reads the store, which gives its invariant to the proof of a caller. Does nothing else.
    #[tactic(auto, using(crate::proofs::StoreLemmas::listing_short))]
    pub(crate) fn is_kept(&self)
        ensures store { IsStore self.now }
        ensures listed { length (listing_of self.now.applications self.now.resources) ≤ LARGEST_MESSAGE }
    {
        self.resources.is_kept();
    }

    /// Returns the number of created resources.
    pub fn count(&self) -> usize
        ensures count { result ≡ length self.now.resources }
        ensures store { IsStore self.now }
    {
        self.resources.len()
    }

    /// Returns the version of the representation stored last, or `versions_from` if none was stored.
    pub fn versions(&self) -> u64
        ensures { result ≡ self.now.versions }
    {
        self.versions
    }

    /// Stores a representation with the next version. If allocation fails, the store is unchanged.
    #[tactic(auto, using(crate::proofs::StoreLemmas::store_steps))]
    pub(crate) fn store(
        &mut self,
        path: PathKey,
        format: Option<u16>,
        bytes: &[u8],
    ) -> Result<(), AllocError>
        requires { TakesPut self.old path bytes.now }
        ensures ok { OnOk result (self.new ≡ put_in self.old path format bytes.now) }
        ensures err { OnErr result (self.new ≡ self.old) }
        ensures store { IsStore self.new }
    {
        self.resources
            .put(path, self.versions + 1, in_range(format), bytes)?;
        self.versions += 1;
        Ok(())
    }

    /// Stores a representation with the next version at the path in a request, whose resource has this index. If
    /// allocation fails, the store is unchanged.
    #[tactic(auto, using(crate::proofs::StoreLemmas::replace_steps))]
    fn replace(
        &mut self,
        _body: &Body,
        index: usize,
        format: Option<u16>,
        bytes: &[u8],
    ) -> Result<(), AllocError>
        requires taken { TakesPut self.old (body_path _body.now) bytes.now }
        requires index { IsFoundAt self.old.resources (body_path _body.now) index }
        ensures ok { OnOk result (self.new ≡ put_in self.old (body_path _body.now) format bytes.now) }
        ensures err { OnErr result (self.new ≡ self.old) }
        ensures store { IsStore self.new }
    {
        self.resources
            .replace(index, self.versions + 1, in_range(format), bytes)?;
        self.versions += 1;
        Ok(())
    }

    /// Removes the resource at the path in a request, which has this index.
    #[tactic(auto, using(crate::proofs::StoreLemmas::delete_at_steps))]
    fn delete_at(&mut self, _body: &Body, index: usize)
        requires { IsFoundAt self.old.resources (body_path _body.now) index }
        ensures removed { self.new ≡ removed_in self.old (body_path _body.now) }
        ensures store { IsStore self.new }
    {
        self.resources.remove_at(index);
    }

    /// Removes the resource at a path, if there is one.
    #[tactic(auto, using(crate::proofs::StoreLemmas::store_removed))]
    pub(crate) fn delete(&mut self, path: &PathKey)
        ensures removed { self.new ≡ removed_in self.old path.now }
        ensures store { IsStore self.new }
    {
        self.resources.remove(path);
    }
}

/// Returns the deadline of the application with these entries for a request, or `None` if it does not
/// answer the request.
// Never inlined: a function clears all its locals, and most servers have no application.
#[inline(never)]
#[tactic(auto, unfolding(crate::specs::ApplicationRequests::application_deadline, crate::specs::Requests::values_of))]
fn deadline_in(applications: &Applications, request: &MessageRef) -> Option<u32>
    ensures { result ≡ application_deadline (Some applications.now) request.now }
{
    if !applications.answers(UriPath::of(&request.body()), request.code()) {
        return None;
    }
    let mut known = RequestOptions::nothing();
    let parsed = ParsedRequest::by(request, &mut known);
    if parsed.has_bad_option() || parsed.asks_proxy() {
        return None;
    }
    Some(applications.deadline())
}

/// Returns the same format. The two arms show the proof of a caller that it is a 16-bit number.
fn in_range(format: Option<u16>) -> Option<u16>
    ensures value { result ≡ format }
    ensures small { IfSome result (λ number. number < 65536) }
{
    match format {
        None => None,
        Some(number) => Some(number),
    }
}
