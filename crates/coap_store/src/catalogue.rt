//! The created resources of a store and the entries of the application, with the listing.

ghost use Rattle.std.specs.Prelude.{◌≡◌, ◌+◌, ◌≤◌, ◌<◌, OnOk, OnErr, Some, None, [], IfOk, length, slice_get};
ghost use Rattle.std.specs.Prelude.{option_copied, option_map, IfSome};
ghost use Rattle.std.specs.List.{remove};
ghost use Rattle.coap_store.specs.Prelude.{found_in, put_at, listing as listing_of, resources_in, LARGEST_MESSAGE};
ghost use Rattle.coap_store.specs.Prelude.{representation, removed_at, texts_of, entry_bytes, set_value_at, IsFoundAt};
ghost use Rattle.coap_store.specs.Prelude.{replaced_at, first_bytes, head_of};

use crate::links::{BUILT_IN_TEXT, entry_end, entry_text, first_text};
use crate::listing::Listing;
use crate::resource::{Resource, Resources};
use coap_path::{Applications, PathKey};
use indexmap::IndexMap;
use std::alloc::{AllocError, Global};
use std::marker::Model;

/// Created resources in order of creation, and the entries of the application, with the current bytes of
/// `/.well-known/core`. The hasher's seed is fixed: at most 1,000 paths bound the cost of a look-up. Contracts see a
/// `CatalogueValue`.
#[derive(Drop)]
pub(crate) struct Catalogue {
    alloc: Global,
    resources: Resources,
    /// Paths whose requests the application answers, if there are such.
    applications: Option<Applications>,
    /// Text of the built-in resources and the application, and that of each created resource in the order
    /// of `resources`.
    listing: Listing,
}

impl Model for Catalogue {
    ghost use Rattle.coap_store.specs.Catalogues.{CatalogueValue};

    ghost Value = { CatalogueValue };

    ghost use Rattle.coap_store.specs.CatalogueViews.{catalogue_value, IsCatalogue};

    ghost view = { catalogue_value };

    ghost invariant = { IsCatalogue };
}

impl Catalogue {
    /// Creates a catalogue without created resources and without an application.
    #[tactic(auto, using(crate::proofs::CatalogueLemmas::new_steps), unfolding(crate::specs::Texts::joined, crate::specs::Links::first_bytes))]
    pub(crate) fn new(alloc: Global) -> Result<Catalogue, AllocError>
        ensures { IfOk result (λ c. c ≡ record { applications = None; resources = [] }) }
    {
        let mut listing = Listing::new(alloc);
        listing.append(BUILT_IN_TEXT)?;
        Ok(Catalogue {
            alloc,
            resources: IndexMap::new(alloc),
            applications: None,
            listing,
        })
    }

    /// Sets the entries of the application. Their text follows that of the built-in resources in the listing.
    #[tactic(auto, using(crate::proofs::ListingLemmas::set_applications_steps))]
    pub(crate) fn set_applications(&mut self, applications: Applications) -> Result<(), AllocError>
        requires { length (listing_of None self.old.resources) ≤ LARGEST_MESSAGE }
        ensures { OnOk result (self.new ≡ record self.old { applications = Some applications }) }
    {
        let text = first_text(self.alloc, &applications)?;
        self.listing.replace(0, &text)?;
        self.applications = Some(applications);
        Ok(())
    }

    /// Returns the entries of the application, if there is one.
    // Always inlined: each request reads them.
    #[inline(always)]
    pub(crate) fn applications(&self) -> Option<&Applications>
        ensures { option_copied result ≡ self.now.applications }
    {
        self.applications.as_ref()
    }

    /// Reads the catalogue, which gives its invariant to the proof of a caller. Does nothing else.
    // Always inlined: nothing is left of it.
    #[inline(always)]
    pub(crate) fn is_kept(&self)
        ensures { length (first_bytes self.now.applications) ≤ 16423 }
    {
        let _read = self.alloc;
    }

    #[tactic(auto, using(crate::proofs::CatalogueLemmas::count_resources))]
    pub(crate) fn len(&self) -> usize
        ensures { result ≡ length self.now.resources }
    {
        self.resources.len()
    }

    /// Returns the resource at a path.
    #[tactic(auto, using(crate::proofs::CatalogueLemmas::resources_are))]
    pub(crate) fn get(&self, path: &PathKey) -> Option<&Resource>
        ensures { option_map (λ r. representation r.now) result ≡ found_in self.now.resources path.now }
    {
        self.resources.get(path)
    }

    /// Returns the resource at a path, and its index.
    // Always inlined: a call saves and restores registers, and its result is in memory.
    #[inline(always)]
    #[tactic(auto, using(crate::proofs::CatalogueLemmas::resources_are, crate::proofs::CatalogueLemmas::found_place))]
    pub(crate) fn find(&self, path: &PathKey) -> Option<(usize, &Resource)>
        ensures value { option_map (λ r. representation r.1.now) result ≡ found_in self.now.resources path.now }
        ensures index { IfSome result (λ r. IsFoundAt self.now.resources path.now r.0) }
    {
        let Some((index, _, resource)) = self.resources.get_full(path) else {
            return None;
        };
        Some((index, resource))
    }

    /// Returns the resource at a path, and its index. First compares the path of the resource with the index `near`,
    /// and searches only if it is another one.
    // Always inlined, without the search: a comparison then costs no call.
    #[inline(always)]
    #[tactic(auto, using(crate::proofs::CatalogueLemmas::resources_are))]
    pub(crate) fn find_near(&self, path: &PathKey, near: usize) -> Option<(usize, &Resource)>
        ensures { option_map (λ r. representation r.1.now) result ≡ found_in self.now.resources path.now }
    {
        if let Some((key, resource)) = self.resources.get_index(near) {
            if key == path {
                return Some((near, resource));
            }
        }
        self.search(path)
    }

    /// Returns the resource at a path, and its index, as `find` does.
    #[inline(never)]
    fn search(&self, path: &PathKey) -> Option<(usize, &Resource)>
        ensures { option_map (λ r. representation r.1.now) result ≡ found_in self.now.resources path.now }
    {
        self.find(path)
    }

    /// Returns the bytes of `/.well-known/core` (RFC 6690).
    #[tactic(auto, using(crate::proofs::ListingLemmas::texts_joined))]
    pub(crate) fn listing(&self) -> &[u8]
        ensures { result.now ≡ listing_of self.now.applications self.now.resources }
    {
        self.listing.text()
    }

    /// Stores a representation. A new resource goes last, and a present one keeps its place. If allocation fails, the
    /// resources are unchanged.
    #[tactic(auto, using(crate::proofs::CatalogueLemmas::put_steps))]
    pub(crate) fn put(
        &mut self,
        path: PathKey,
        version: u64,
        format: Option<u16>,
        bytes: &[u8],
    ) -> Result<(), AllocError>
        requires short { length (listing_of None self.old.resources) ≤ LARGEST_MESSAGE }
        requires entry { length (entry_bytes path format) ≤ LARGEST_MESSAGE }
        ensures ok { OnOk result (self.new ≡ record self.old {
          resources = put_at self.old.resources path
              (record { version = version; format = format; bytes = bytes.now });
        }) }
        ensures err { OnErr result (self.new ≡ self.old) }
    {
        if let Some(index) = self.resources.get_index_of(&path) {
            return self.replace(index, version, format, bytes);
        }
        let resource = Resource {
            version,
            format,
            bytes: Vec::from_slice(self.alloc, bytes)?,
        };
        let text = entry_text(self.alloc, &path, format)?;
        create(
            &mut self.resources,
            &mut self.listing,
            path,
            resource,
            text.as_bytes(),
        )
    }

    /// Stores a representation at the resource with this index. If allocation fails, the resources are unchanged.
    #[tactic(auto, using(crate::proofs::CatalogueLemmas::replace_steps))]
    pub(crate) fn replace(
        &mut self,
        index: usize,
        version: u64,
        format: Option<u16>,
        bytes: &[u8],
    ) -> Result<(), AllocError>
        requires within { index < length self.old.resources }
        requires short { length (listing_of None self.old.resources) ≤ LARGEST_MESSAGE }
        ensures ok { OnOk result (self.new ≡ record self.old {
          resources = replaced_at self.old.resources index
              (record { version = version; format = format; bytes = bytes.now });
        }) }
        ensures err { OnErr result (self.new ≡ self.old) }
    {
        let resource = Resource {
            version,
            format,
            bytes: Vec::from_slice(self.alloc, bytes)?,
        };
        replace(&mut self.resources, &mut self.listing, index, resource)
    }

    /// Removes the resource with this index; the others keep their order. Moves the later part of the listing once.
    #[tactic(auto, using(crate::proofs::CatalogueLemmas::remove_at_steps))]
    pub(crate) fn remove_at(&mut self, index: usize)
        requires { index < length self.old.resources }
        ensures { self.new ≡ record self.old { resources = remove self.old.resources index } }
    {
        self.listing.remove(text_index(&self.resources, index));
        self.resources.shift_remove_index(index);
    }

    /// Removes a resource; the others keep their order. Moves the later part of the listing once.
    #[tactic(auto, using(crate::proofs::CatalogueLemmas::remove_steps))]
    pub(crate) fn remove(&mut self, path: &PathKey)
        ensures { self.new ≡ record self.old { resources = removed_at self.old.resources path.now } }
    {
        if let Some(index) = self.resources.get_index_of(path) {
            self.remove_at(index);
        }
    }
}

/// Adds a resource that is absent, and its text. Memory is reserved first, so the insertion cannot fail.
#[tactic(auto, using(crate::proofs::CatalogueLemmas::create_steps))]
fn create(
    resources: &mut Resources,
    listing: &mut Listing,
    path: PathKey,
    resource: Resource,
    text: &[u8],
) -> Result<(), AllocError>
    requires new { found_in (resources_in resources.old.entries) path ≡ None }
    requires text { text.now ≡ entry_bytes path resource.format }
    requires listed { listing.old ≡ texts_of (head_of listing.old) (resources_in resources.old.entries) }
    requires short { length (listing_of None (resources_in resources.old.entries)) ≤ LARGEST_MESSAGE }
    requires first { length (head_of listing.old) ≤ LARGEST_MESSAGE }
    requires entry { length text.now ≤ LARGEST_MESSAGE }
    ensures stored { OnOk result (resources_in resources.new.entries ≡ put_at (resources_in resources.old.entries) path
        (representation resource)) }
    ensures unchanged { OnErr result (resources_in resources.new.entries ≡ resources_in resources.old.entries) }
    ensures listed { listing.new ≡ texts_of (head_of listing.old) (resources_in resources.new.entries) }
{
    resources.reserve(1)?;
    listing.append(text)?;
    let Ok(_) = resources.insert(path, resource) else {
        unreachable!()
    };
    Ok(())
}

/// Replaces the resource at an index. Replaces the end of its text if the Content-Format changes.
#[tactic(auto, using(crate::proofs::CatalogueLemmas::replace_text_steps))]
fn replace(
    resources: &mut Resources,
    listing: &mut Listing,
    index: usize,
    resource: Resource,
) -> Result<(), AllocError>
    requires within { index < length resources.old.entries }
    requires listed { listing.old ≡ texts_of (head_of listing.old) (resources_in resources.old.entries) }
    requires short { length (listing_of None (resources_in resources.old.entries)) ≤ LARGEST_MESSAGE }
    requires first { length (head_of listing.old) ≤ LARGEST_MESSAGE }
    ensures stored { OnOk result (resources.new.entries ≡ set_value_at resources.old.entries index resource) }
    ensures unchanged { OnErr result (resources.new.entries ≡ resources.old.entries) }
    ensures listed { listing.new ≡ texts_of (head_of listing.old) (resources_in resources.new.entries) }
{
    let old = format_at(resources, index);
    if old == resource.format {
        write_at(resources, index, resource);
        return Ok(());
    }
    let end = entry_end(resource.format);
    let text = text_index(resources, index);
    listing.replace_end(text, entry_end(old).len(), end.as_str().as_bytes())?;
    write_at(resources, index, resource);
    Ok(())
}

/// Returns the index in the listing of the text of a resource, which follows that of the application.
fn text_index(resources: &Resources, index: usize) -> usize
    requires { index < length resources.now.entries }
    ensures { result ≡ index + 1 }
{
    // The number of resources bounds the index.
    let _count = resources.len();
    index + 1
}

/// Returns the Content-Format of the resource at an index.
fn format_at(resources: &Resources, index: usize) -> Option<u16>
    requires { index < length resources.now.entries }
    ensures { Some result ≡ option_map (λ e. e.1.format) (slice_get resources.now.entries index) }
{
    let Some((_, resource)) = resources.get_index(index) else {
        unreachable!()
    };
    resource.format
}

/// Replaces the resource at an index.
fn write_at(resources: &mut Resources, index: usize, resource: Resource)
    requires { index < length resources.old.entries }
    ensures { resources.new.entries ≡ set_value_at resources.old.entries index resource }
{
    let Some(present) = resources.get_index_mut(index) else {
        unreachable!()
    };
    *present = resource;
}
