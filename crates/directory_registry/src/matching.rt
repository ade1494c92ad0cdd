//! The links and endpoints that meet search criteria.

ghost use Rattle.std.specs.Prelude.{◌≡◌, ◌||◌};
ghost use Rattle.std.specs.List.{list_any, list_all};
ghost use Rattle.directory_registry.specs.Prelude.{link_meets as meets_link, endpoint_meets as meets_endpoint};
ghost use Rattle.directory_registry.specs.Prelude.{criterion_of};
ghost use Rattle.directory_registry.specs.Prelude.{registration_of, criteria_of, is_selected_link};
ghost use Rattle.directory_registry.specs.Prelude.{is_selected_endpoint};
ghost use Rattle.directory_registry.specs.Prelude.{is_relative as is_relative_target};

use crate::criterion::{
    Criterion, any_attribute_meets, joined_matches, meets_value, value_matches,
};
use crate::registration::Registration;
use coap_text::decimal_digits;
use directory_links::{LinkRef, Links, is_same_name};

/// Returns `true` if a target is relative to the base URI.
pub(crate) fn is_relative(target: &[u8]) -> bool
    ensures { result ≡ is_relative_target target.now }
{
    target.starts_with(b"/")
}

/// Returns `true` if a link meets the criterion.
fn link_meets(criterion: &Criterion, base: &[u8], link: &LinkRef) -> bool
    ensures { result ≡ meets_link (criterion_of criterion.now) base.now link.now }
{
    if !is_same_name(criterion.name, b"href") {
        return any_attribute_meets(criterion, link.attributes());
    }
    let target = link.target();
    if is_relative(target) {
        joined_matches(criterion.pattern, base, target)
    } else {
        value_matches(criterion.pattern, target)
    }
}

/// Returns `true` if a link of the list meets the criterion.
fn any_link_meets(criterion: &Criterion, base: &[u8], links: Links) -> bool
    ensures { result ≡ list_any (meets_link (criterion_of criterion.now) base.now) links.entry }
{
    for link in links {
        if link_meets(criterion, base, &link) {
            return true;
        }
    }
    false
}

/// Returns `true` if the registration itself meets the criterion.
fn endpoint_meets(criterion: &Criterion, registration: &Registration) -> bool
    ensures { result ≡ meets_endpoint (criterion_of criterion.now) (registration_of registration.now) }
{
    if is_same_name(criterion.name, b"href") {
        let digits = decimal_digits(registration.number);
        return joined_matches(criterion.pattern, b"/rd/", &digits);
    }
    if is_same_name(criterion.name, b"base") {
        return value_matches(criterion.pattern, &registration.base);
    }
    any_attribute_meets(criterion, registration.attributes.attributes())
}

/// Returns `true` if a resource lookup with these criteria selects the link.
pub(crate) fn selects_link(
    criteria: &[Criterion],
    registration: &Registration,
    link: &LinkRef,
) -> bool
    ensures { result ≡ is_selected_link (criteria_of criteria.now) (registration_of registration.now) link.now }
{
    for criterion in criteria {
        if !link_meets(criterion, &registration.base, link)
            && !endpoint_meets(criterion, registration)
        {
            return false;
        }
    }
    true
}

/// Returns `true` if an endpoint lookup with these criteria selects the registration.
pub(crate) fn selects_endpoint(criteria: &[Criterion], registration: &Registration) -> bool
    ensures { result ≡ is_selected_endpoint (criteria_of criteria.now) (registration_of registration.now) }
{
    for criterion in criteria {
        if !endpoint_meets(criterion, registration)
            && !any_link_meets(criterion, &registration.base, registration.links.links())
        {
            return false;
        }
    }
    true
}
