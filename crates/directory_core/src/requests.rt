//! The changes that requests make.

ghost use Rattle.std.specs.Prelude.{◌≡◌, ◌<◌, ◌^◌, ◌&&◌, true, option_map, is_none, IfOk, codes};
ghost use Rattle.directory_core.specs.Prelude.{Gives, GivesUnlessMemory, Updates};
ghost use Rattle.directory_core.specs.Prelude.{key_with, base_with, identified, attributes_in, links_in};
ghost use Rattle.directory_core.specs.Prelude.{prepared, Changes, registering, named, registration_of, updating};
ghost use Rattle.directory_core.specs.Prelude.{renewed_lifetime, renewed_base, renewing, looking_up};
ghost use Rattle.directory_core.specs.Prelude.{registered_attributes};
ghost use Rattle.directory_core.specs.Prelude.{attributes_of, attributes_after, attributes_at_location};
ghost use Rattle.directory_core.specs.Prelude.{update_parts as parts_of};
ghost use Rattle.directory_core.specs.Prelude.{is_attribute};
ghost use Rattle.std.specs.List.{list_all};

use crate::attributes::{AttributeList, given_attributes, merged_attributes, text_of, with_type};
use crate::conditions::{accepts_link_format, has_link_format};
use crate::parameters::{are_limited, endpoint_key, is_base, is_utf8};
use crate::query::{
    criteria_of_request, is_given_twice, lifetime_of, page_of_request, repeats_a_parameter,
    value_named,
};
use crate::refusal::Refusal;
use crate::request_error::RequestError;
use coap_wire::MessageRef;
use directory_links::{AttributeText, LinkText};
use directory_registry::{EndpointKey, Listing, Registration, Registry};
use std::alloc::{AllocError, Global};

/// Returns the key of the endpoint that a request names.
fn requested_key(request: &MessageRef) -> Option<EndpointKey>
    ensures { option_map (λ k. k.items) result
        ≡ key_with (named (codes "d") request.now.options) (named (codes "ep") request.now.options) }
{
    let sector = value_named(request, b"d");
    let Some(name) = value_named(request, b"ep") else {
        return None;
    };
    let Some(sector) = sector else {
        return endpoint_key(b"", name);
    };
    endpoint_key(sector, name)
}

/// Returns the base URI of a request, if it has one and it is of a scheme and an authority.
fn requested_base<'a>(request: &MessageRef<'a>) -> Option<&'a [u8]>
    ensures { option_map (λ b. b.now) result ≡ base_with (named (codes "base") request.now.options) }
{
    let Some(base) = value_named(request, b"base") else {
        return None;
    };
    if !is_base(base) {
        return None;
    }
    Some(base)
}

/// Returns the key, the lifetime and the base URI of a registration.
#[tactic(auto, unfolding(crate::specs::Changes::identified))]
fn identify<'a>(request: &MessageRef<'a>) -> Result<(EndpointKey, u32, &'a [u8]), Refusal>
    ensures { Gives (λ x. (x.0.items, x.1, x.2.now)) result (identified request.now.options) }
{
    if !has_link_format(request) {
        return Err(Refusal::Format);
    }
    if repeats_a_parameter(request) {
        return Err(Refusal::Repeated);
    }
    let Some(key) = requested_key(request) else {
        return Err(Refusal::Endpoint);
    };
    let Some(lifetime) = lifetime_of(value_named(request, b"lt")) else {
        return Err(Refusal::Lifetime);
    };
    let Some(base) = requested_base(request) else {
        return Err(Refusal::Base);
    };
    Ok((key, lifetime, base))
}

/// Returns the links of a payload.
///
/// # Errors
///
/// - `RequestError::Refused` if the payload is not in link format, or a target is not allowed.
/// - `RequestError::Memory` if allocation fails.
#[tactic(auto, unfolding(crate::specs::Changes::links_in))]
fn requested_links(alloc: Global, payload: &[u8]) -> Result<LinkText, RequestError>
    ensures { GivesUnlessMemory (λ x. x) result (links_in payload.now) }
{
    if !is_utf8(payload) {
        return Err(RequestError::Refused(Refusal::Links));
    }
    let bytes = Vec::from_slice(alloc, payload)?;
    let Ok(links) = LinkText::check(bytes) else {
        return Err(RequestError::Refused(Refusal::Links));
    };
    if !are_limited(links.links()) {
        return Err(RequestError::Refused(Refusal::Target));
    }
    Ok(links)
}

/// Returns the attributes of the endpoint that a request registers.
fn requested_attributes<'a>(request: &MessageRef<'a>) -> Result<AttributeList<'a>, Refusal>
    ensures value { Gives (λ l. attributes_of l.items) result (registered_attributes request.now.options) }
    ensures each { IfOk result (λ l. list_all is_attribute (attributes_of l.items) ≡ true) }
{
    with_type(given_attributes(request)?)
}

/// Returns the key and the registration that a request describes, at the location with number 0.
///
/// # Errors
///
/// - `RequestError::Refused` if a part of the request is not allowed.
/// - `RequestError::Memory` if allocation fails.
#[tactic(auto, unfolding(crate::specs::Changes::prepared))]
fn prepare(
    alloc: Global,
    now: u64,
    request: &MessageRef,
) -> Result<(EndpointKey, Registration), RequestError>
    requires { now < 2 ^ 63 }
    ensures { GivesUnlessMemory (λ x. (x.0.items, registration_of x.1)) result (prepared now request.now) }
{
    let (key, lifetime, base) = identify(request)?;
    let attributes = requested_attributes(request)?;
    let links = requested_links(alloc, request.payload())?;
    Ok((
        key,
        Registration {
            number: 0,
            lifetime,
            deadline: now + u64::from(lifetime),
            base: Vec::from_slice(alloc, base)?,
            attributes: text_of(alloc, &attributes)?,
            links,
        },
    ))
}

/// Registers the endpoint of a request, and returns the number of its location.
///
/// # Errors
///
/// - `RequestError::Refused` if a part of the request is not allowed, or there is no place for its result.
/// - `RequestError::Memory` if allocation fails.
///
/// After an error the registrations are unchanged.
#[tactic(auto, unfolding(crate::specs::Changes::registering))]
pub(crate) fn register(
    registry: &mut Registry,
    alloc: Global,
    now: u64,
    request: &MessageRef,
) -> Result<u64, RequestError>
    requires { now < 2 ^ 63 }
    ensures { Changes (λ n. n) result registry.old registry.new (registering registry.old now request.now) }
{
    let (key, registration) = prepare(alloc, now, request)?;
    let Some(number) = registry.register(key, registration)? else {
        return Err(RequestError::Refused(Refusal::Full));
    };
    Ok(number)
}

/// Returns the new lifetime of a registration, if the request gives one.
fn new_lifetime(request: &MessageRef) -> Result<Option<u32>, Refusal>
    ensures { Gives (λ x. x) result (renewed_lifetime (named (codes "lt") request.now.options)) }
{
    let Some(text) = value_named(request, b"lt") else {
        return Ok(None);
    };
    let Some(lifetime) = lifetime_of(Some(text)) else {
        return Err(Refusal::Lifetime);
    };
    Ok(Some(lifetime))
}

/// Returns the new base URI of a registration, if the request gives one.
fn new_base<'a>(request: &MessageRef<'a>) -> Result<Option<&'a [u8]>, Refusal>
    ensures { Gives (λ x. option_map (λ b. b.now) x) result (renewed_base (named (codes "base") request.now.options)) }
{
    let Some(base) = value_named(request, b"base") else {
        return Ok(None);
    };
    if !is_base(base) {
        return Err(Refusal::Base);
    }
    Ok(Some(base))
}

/// Returns a copy of the bytes, if there are any.
fn copy_of(alloc: Global, bytes: Option<&[u8]>) -> Result<Option<Vec<u8>>, AllocError>
    ensures { IfOk result (λ r. option_map (λ v. v.items) r ≡ option_map (λ b. b.now) bytes.entry) }
{
    let Some(bytes) = bytes else {
        return Ok(None);
    };
    Ok(Some(Vec::from_slice(alloc, bytes)?))
}

/// Returns `true` if the request gives no part of the key of an endpoint.
fn gives_no_key(request: &MessageRef) -> bool
    ensures { result
        ≡ (is_none (named (codes "ep") request.now.options) && is_none (named (codes "d") request.now.options)) }
{
    value_named(request, b"ep").is_none() && value_named(request, b"d").is_none()
}

/// Returns the lifetime and the base URI that an update gives, each if it gives one.
#[tactic(auto, unfolding(crate::specs::Changes::renewing))]
fn renewal<'a>(request: &MessageRef<'a>) -> Result<(Option<u32>, Option<&'a [u8]>), Refusal>
    ensures { Gives (λ x. (x.0, option_map (λ b. b.now) x.1)) result (renewing request.now.options) }
{
    if is_given_twice(request, b"lt") || is_given_twice(request, b"base") {
        return Err(Refusal::Repeated);
    }
    let lifetime = new_lifetime(request)?;
    let base = new_base(request)?;
    if !gives_no_key(request) {
        return Err(Refusal::Key);
    }
    Ok((lifetime, base))
}

/// Returns the attributes of the endpoint at a location after an update, or `None` if they stay as they are.
fn new_attributes(
    registry: &Registry,
    alloc: Global,
    number: u64,
    given: &AttributeList,
) -> Result<Option<AttributeText>, RequestError>
    requires { list_all is_attribute (attributes_of given.now.items) ≡ true }
    ensures { GivesUnlessMemory (λ x. x) result
        (attributes_after (attributes_at_location registry.now number) (attributes_of given.now.items)) }
{
    if given.is_empty() {
        return Ok(None);
    }
    let Some(old) = registry.attributes(number) else {
        return Ok(None);
    };
    let list = merged_attributes(old, given)?;
    Ok(Some(text_of(alloc, &list)?))
}

/// Returns the lifetime, the base URI and the attributes that an update gives.
fn update_parts<'a>(
    request: &MessageRef<'a>,
) -> Result<(Option<u32>, Option<&'a [u8]>, AttributeList<'a>), Refusal>
    ensures value { Gives (λ x. ((x.0, option_map (λ b. b.now) x.1), attributes_of x.2.items)) result
        (parts_of request.now.options) }
    ensures each { IfOk result (λ x. list_all is_attribute (attributes_of x.2.items) ≡ true) }
{
    let (lifetime, base) = renewal(request)?;
    Ok((lifetime, base, given_attributes(request)?))
}

/// Renews the registration at a location by the parameters of a request (RFC 9176 section 5.3.1).
///
/// # Errors
///
/// - `RequestError::Refused` if a part of the request is not allowed, or there is no place for its result.
/// - `RequestError::Memory` if allocation fails.
///
/// After an error the registrations are unchanged.
#[tactic(auto, unfolding(crate::specs::Changes::updating))]
pub(crate) fn update(
    registry: &mut Registry,
    alloc: Global,
    now: u64,
    number: u64,
    request: &MessageRef,
) -> Result<(), RequestError>
    requires { now < 2 ^ 63 }
    ensures { Updates result registry.old registry.new (updating registry.old now number request.now) }
{
    if !request.payload().is_empty() {
        return Err(RequestError::Refused(Refusal::Payload));
    }
    let (lifetime, base, given) = update_parts(request)?;
    let attributes = new_attributes(registry, alloc, number, &given)?;
    let base = copy_of(alloc, base)?;
    if let Some(attributes) = attributes {
        registry.set_attributes(number, attributes)?;
    }
    if registry.update(number, now, lifetime, base) {
        Ok(())
    } else {
        Err(RequestError::Refused(Refusal::Path))
    }
}

/// Writes the results of a lookup into the listing: endpoints, or resources.
#[tactic(auto, unfolding(crate::specs::Changes::looking_up))]
pub(crate) fn look_up(
    registry: &Registry,
    listing: &mut Listing,
    endpoints: bool,
    limit: usize,
    request: &MessageRef,
) -> Result<(), Refusal>
    ensures answer { result ≡ (looking_up registry.now listing.old endpoints limit request.now.options).0 }
    ensures after { listing.new ≡ (looking_up registry.now listing.old endpoints limit request.now.options).1 }
{
    let Some(criteria) = criteria_of_request(request) else {
        return Err(Refusal::Query);
    };
    let Some(page) = page_of_request(request) else {
        return Err(Refusal::Query);
    };
    if !accepts_link_format(request) {
        return Err(Refusal::Accept);
    }
    listing.start(page, limit);
    if endpoints {
        registry.list_endpoints(&criteria, listing);
    } else {
        registry.list_resources(&criteria, listing);
    }
    if listing.text().is_none() {
        return Err(Refusal::TooLarge);
    }
    Ok(())
}
