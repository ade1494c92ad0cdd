//! The results of a lookup, written into a listing.

ghost use Rattle.std.specs.Prelude.{◌≡◌, ◌∷◌, map, codes};
ghost use Rattle.directory_links.specs.Characters.{is_same_name as is_same};
ghost use Rattle.directory_registry.specs.Prelude.{with_bytes, resolved_attribute, resolved_link, attribute_of};
ghost use Rattle.directory_registry.specs.Prelude.{attribute_text, attributes_text, link_text, endpoint_link};
ghost use Rattle.directory_registry.specs.Prelude.{registration_of, value_text, resolved, resolved_value, value_of};
ghost use Rattle.directory_registry.specs.Prelude.{criteria_of, offered_link, offered_links, offered_endpoint};

use crate::criterion::Criterion;
use crate::listing::Listing;
use crate::matching::{is_relative, selects_endpoint, selects_link};
use crate::registration::Registration;
use coap_text::decimal_digits;
use directory_links::{AttributeRef, Attributes, LinkRef, ValueRef, is_same_name};

/// Appends a URI. A relative one is resolved.
#[tactic(auto, using(crate::proofs::ListingLemmas::two_parts))]
fn push_resolved(listing: &mut Listing, base: &[u8], target: &[u8])
    ensures { listing.new ≡ with_bytes listing.old (resolved base.now target.now) }
{
    if is_relative(target) {
        listing.push(base);
    }
    listing.push(target);
}

/// Appends the text of a value after its name.
fn push_value(listing: &mut Listing, value: ValueRef)
    ensures { listing.new ≡ with_bytes listing.old (value_text (value_of value.entry)) }
{
    match value {
        ValueRef::Absent => {}
        ValueRef::Extended(text) => {
            listing.push(b"*=");
            listing.push(text);
        }
        ValueRef::Token(text) => {
            listing.push(b"=");
            listing.push(text);
        }
        ValueRef::Quoted(text) => {
            listing.push(b"=\"");
            listing.push(text);
            listing.push(b"\"");
        }
    }
}

/// Appends the text of a value that is a URI, after its name. A relative one is resolved.
fn push_resolved_value(listing: &mut Listing, base: &[u8], value: ValueRef)
    ensures { listing.new ≡ with_bytes listing.old (value_text (resolved_value base.now (value_of value.entry))) }
{
    let ValueRef::Quoted(text) = value else {
        push_value(listing, value);
        return;
    };
    listing.push(b"=\"");
    push_resolved(listing, base, text);
    listing.push(b"\"");
}

/// Returns `true` if the value of an attribute with this name is a URI.
fn is_anchor(name: &[u8]) -> bool
    ensures { result ≡ is_same name.now (codes "anchor") }
{
    is_same_name(name, b"anchor")
}

/// Appends an attribute after `;`. The URI of `anchor` is resolved.
fn push_attribute(listing: &mut Listing, base: &[u8], attribute: AttributeRef)
    ensures { listing.new
        ≡ with_bytes listing.old (59 ∷ attribute_text (resolved_attribute base.now (attribute_of attribute.entry))) }
{
    listing.push(b";");
    listing.push(attribute.name);
    if is_anchor(attribute.name) {
        push_resolved_value(listing, base, attribute.value);
    } else {
        push_value(listing, attribute.value);
    }
}

/// Appends attributes, each after `;`.
fn push_attributes(listing: &mut Listing, base: &[u8], attributes: Attributes)
    ensures { listing.new
        ≡ with_bytes listing.old (attributes_text (map (resolved_attribute base.now) attributes.entry)) }
{
    for attribute in attributes {
        push_attribute(listing, base, attribute);
    }
}

/// Appends a link, whose relative URIs are resolved.
fn push_link(listing: &mut Listing, base: &[u8], link: &LinkRef)
    ensures { listing.new ≡ with_bytes listing.old (link_text (resolved_link base.now link.now)) }
{
    listing.push(b"<");
    push_resolved(listing, base, link.target());
    listing.push(b">");
    push_attributes(listing, base, link.attributes());
}

/// Appends the link of an endpoint.
fn push_endpoint(listing: &mut Listing, registration: &Registration)
    ensures { listing.new ≡ with_bytes listing.old (link_text (endpoint_link (registration_of registration.now))) }
{
    listing.push(b"</rd/");
    listing.push(&decimal_digits(registration.number));
    listing.push(b">");
    push_endpoint_attributes(listing, registration);
}

/// Appends the attributes of an endpoint, each after `;`.
fn push_endpoint_attributes(listing: &mut Listing, registration: &Registration)
    ensures { listing.new
        ≡ with_bytes listing.old (attributes_text (endpoint_link (registration_of registration.now)).attributes) }
{
    let base = AttributeRef {
        name: b"base",
        value: ValueRef::Quoted(&registration.base),
    };
    push_attribute(listing, &registration.base, base);
    push_attributes(
        listing,
        &registration.base,
        registration.attributes.attributes(),
    );
}

/// Counts a link, if the criteria select it, and appends it if it is in the part.
#[tactic(auto, unfolding(crate::specs::Lookups::offered))]
fn offer_link(
    listing: &mut Listing,
    criteria: &[Criterion],
    registration: &Registration,
    link: &LinkRef,
)
    ensures { listing.new
        ≡ offered_link (criteria_of criteria.now) (registration_of registration.now) listing.old link.now }
{
    if !selects_link(criteria, registration, link) {
        return;
    }
    if listing.begin_item() {
        push_link(listing, &registration.base, link);
    }
}

/// Counts the links of a registration that the criteria select, and appends those in the part.
pub(crate) fn offer_links(
    listing: &mut Listing,
    criteria: &[Criterion],
    registration: &Registration,
)
    ensures { listing.new ≡ offered_links (criteria_of criteria.now) listing.old (registration_of registration.now) }
{
    for link in registration.links.links() {
        offer_link(listing, criteria, registration, &link);
    }
}

/// Counts an endpoint, if the criteria select it, and appends its link if it is in the part.
#[tactic(auto, unfolding(crate::specs::Lookups::offered, crate::specs::Lookups::offered_endpoint))]
pub(crate) fn offer_endpoint(
    listing: &mut Listing,
    criteria: &[Criterion],
    registration: &Registration,
)
    ensures { listing.new ≡ offered_endpoint (criteria_of criteria.now) listing.old (registration_of registration.now) }
{
    if !selects_endpoint(criteria, registration) {
        return;
    }
    if listing.begin_item() {
        push_endpoint(listing, registration);
    }
}
