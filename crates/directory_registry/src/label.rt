//! Labels of names and registrations, by which a lookup of one endpoint finds the registrations that can match.

ghost use Rattle.std.specs.Prelude.{◌≡◌, ◌<◌, option_map};
ghost use Rattle.std.specs.List.{list_all};
ghost use Rattle.directory_registry.specs.Prelude.{name_label, value_label, has_label, is_endpoint_name};
ghost use Rattle.directory_registry.specs.Prelude.{first_label, agrees};
ghost use Rattle.directory_registry.specs.Prelude.{link_agrees, label_with, registration_label, exact_name, is_exact};
ghost use Rattle.directory_registry.specs.Prelude.{packed};
ghost use Rattle.directory_registry.specs.Prelude.{value_of, attribute_of, registration_of, criterion_of, criteria_of};

use crate::criterion::Criterion;
use crate::registration::Registration;
use directory_links::{
    AttributeRef, AttributeText, Attributes, LinkText, Links, ValueRef, is_same_name,
};

/// Label of the registrations that a lookup of any endpoint reads.
pub(crate) const ANY: u64 = 0;

/// Number of labels.
const LABELS: u64 = 1 << 39;

/// Returns the label of a name.
pub(crate) fn label_of_name(name: &[u8]) -> u64
    ensures value { result ≡ name_label name.now }
    ensures small { result < 549755813888 }
{
    let mut label = 0;
    for byte in name {
        label = (label * 16_777_619 + u64::from(*byte) + 1) % LABELS;
    }
    label
}

/// Returns the label of the value of `ep`.
fn label_of_value(value: ValueRef) -> u64
    ensures value { result ≡ value_label (value_of value.entry) }
    ensures small { result < 549755813888 }
{
    match value {
        ValueRef::Absent => label_of_name(b""),
        ValueRef::Extended(_) => ANY,
        ValueRef::Token(text) => label_of_name(text),
        ValueRef::Quoted(text) => label_of_name(text),
    }
}

/// Returns `true` if the value has this label, or meets no criterion.
fn value_agrees(label: u64, value: ValueRef) -> bool
    ensures { result ≡ has_label label (value_of value.entry) }
{
    match value {
        ValueRef::Absent => label_of_name(b"") == label,
        ValueRef::Extended(_) => true,
        ValueRef::Token(text) => label_of_name(text) == label,
        ValueRef::Quoted(text) => label_of_name(text) == label,
    }
}

/// Returns `true` if the name of an attribute is `ep`.
fn is_name(name: &[u8]) -> bool
    ensures { result ≡ is_endpoint_name name.now }
{
    is_same_name(name, b"ep")
}

/// Returns the label of the first attribute `ep`, or `ANY`.
fn label_of_first(attributes: Attributes) -> u64
    ensures value { result ≡ first_label attributes.entry }
    ensures small { result < 549755813888 }
{
    for attribute in attributes {
        if is_name(attribute.name) {
            return label_of_value(attribute.value);
        }
    }
    ANY
}

/// Returns `true` if the attribute is not `ep`, or its value has this label.
fn attribute_agrees(label: u64, attribute: &AttributeRef) -> bool
    ensures { result ≡ agrees label (attribute_of attribute.now) }
{
    if is_name(attribute.name) {
        value_agrees(label, attribute.value)
    } else {
        true
    }
}

/// Returns `true` if each `ep` of the list has this label.
fn attributes_agree(label: u64, attributes: Attributes) -> bool
    ensures { result ≡ list_all (agrees label) attributes.entry }
{
    for attribute in attributes {
        if !attribute_agrees(label, &attribute) {
            return false;
        }
    }
    true
}

/// Returns `true` if each `ep` of the links has this label.
fn links_agree(label: u64, links: Links) -> bool
    ensures { result ≡ list_all (link_agrees label) links.entry }
{
    for link in links {
        if !attributes_agree(label, link.attributes()) {
            return false;
        }
    }
    true
}

/// Returns the label of a registration with these attributes and links: that of its name, or `ANY` if another `ep` is
/// among them too.
#[tactic(auto, unfolding(crate::specs::Labels::label_with))]
pub(crate) fn label_of_parts(attributes: &AttributeText, links: &LinkText) -> u64
    ensures value { result ≡ label_with attributes.now links.now }
    ensures small { result < 549755813888 }
{
    let label = label_of_first(attributes.attributes());
    if attributes_agree(label, attributes.attributes()) && links_agree(label, links.links()) {
        label
    } else {
        ANY
    }
}

/// Returns the label of a registration.
pub(crate) fn label_of(registration: &Registration) -> u64
    ensures value { result ≡ registration_label (registration_of registration.now) }
    ensures small { result < 549755813888 }
{
    label_of_parts(&registration.attributes, &registration.links)
}

/// Returns `true` if the criterion asks for an endpoint of exactly one name.
fn asks_for_name(criterion: &Criterion) -> bool
    ensures { result ≡ is_exact (criterion_of criterion.now) }
{
    criterion.name == b"ep".as_slice() && !criterion.pattern.ends_with(b"*")
}

/// Returns the name of the endpoint that the criteria ask for, if they ask for exactly one name.
pub(crate) fn requested_name<'a>(criteria: &[Criterion<'a>]) -> Option<&'a [u8]>
    ensures { option_map (λ n. n.now) result ≡ exact_name (criteria_of criteria.now) }
{
    for criterion in criteria {
        if asks_for_name(criterion) {
            return Some(criterion.pattern);
        }
    }
    None
}

/// Returns a label and the number of a location as one number.
#[tactic(auto, unfolding(crate::specs::Labels::packed))]
pub(crate) fn pack(label: u64, number: u64) -> u128
    requires { label < 549755813888 }
    ensures { result ≡ packed label number }
{
    u128::from(label) * 18_446_744_073_709_551_616 + u128::from(number)
}
