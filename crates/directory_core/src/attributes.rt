//! The attributes of an endpoint that a request gives.

ghost use Rattle.std.specs.Prelude.{◌≡◌, ◌++◌, ◌∷◌, ◌≤◌, [], true, length, option_map, IfOk, IfErr, OnOk, OnErr};
ghost use Rattle.std.specs.List.{list_all};
ghost use Rattle.directory_core.specs.Prelude.{Gives, attributes_in, has_name, option_given, is_own_name};
ghost use Rattle.directory_core.specs.Prelude.{coap_option};
ghost use Rattle.directory_core.specs.Prelude.{attribute_of, attributes_of, is_attribute, endpoint_type, limited};
ghost use Rattle.directory_core.specs.Prelude.{merged};
ghost use Rattle.directory_core.specs.declared.refusal.Refusal.TheVariants.{Many};

use crate::parameters::{are_well_formed, have_allowed_names};
use crate::query::split_query;
use crate::refusal::Refusal;
use arrayvec::ArrayVec;
use coap_wire::option_numbers::URI_QUERY;
use coap_wire::{MessageRef, OptionRef};
use directory_links::{AttributeRef, AttributeText, Attributes, ValueRef, is_same_name};
use std::alloc::{AllocError, Global};

/// Maximum number of attributes of an endpoint.
const MAX_ATTRIBUTES: usize = 64;

/// List of attributes that borrows their texts.
pub(crate) type AttributeList<'a> = ArrayVec<AttributeRef<'a>, MAX_ATTRIBUTES>;

/// Returns `true` if a query with this name is no attribute of the endpoint.
fn is_own(name: &[u8]) -> bool
    ensures { result ≡ is_own_name name.now }
{
    name == b"lt".as_slice() || name == b"base".as_slice()
}

/// Returns the attribute of an endpoint that an option gives, if it gives one.
fn given_by<'a>(option: &OptionRef<'a>) -> Option<AttributeRef<'a>>
    ensures { option_map attribute_of result ≡ option_given (coap_option option.now) }
{
    if option.number != URI_QUERY {
        return None;
    }
    let Some((name, value)) = split_query(option.value) else {
        return None;
    };
    if is_own(name) {
        return None;
    }
    Some(AttributeRef {
        name,
        value: ValueRef::Quoted(value),
    })
}

/// Adds an attribute to a list.
///
/// # Errors
///
/// - `Refusal::Many` if the list is full. It is unchanged.
fn add<'a>(list: &mut AttributeList<'a>, attribute: AttributeRef<'a>) -> Result<(), Refusal>
    ensures ok { OnOk result (list.new.items ≡ list.old.items ++ attribute.entry ∷ []) }
    ensures err { IfErr result (λ e. e ≡ Many) }
    ensures few { OnOk result (length list.new.items ≤ 64) }
    ensures full { OnErr result (64 ≤ length list.old.items) }
{
    match list.try_push(attribute) {
        Ok(()) => Ok(()),
        Err(_) => Err(Refusal::Many),
    }
}

/// Returns the attributes that a request gives.
///
/// # Errors
///
/// - `Refusal::Query` if a query is malformed.
/// - `Refusal::Name` if a query has a reserved name, or one that no attribute can have.
/// - `Refusal::Many` if there are more than 64 attributes.
#[tactic(auto, unfolding(crate::specs::Changes::attributes_in))]
pub(crate) fn given_attributes<'a>(request: &MessageRef<'a>) -> Result<AttributeList<'a>, Refusal>
    ensures value { Gives (λ l. attributes_of l.items) result (attributes_in request.now.options) }
    ensures each { IfOk result (λ l. list_all is_attribute (attributes_of l.items) ≡ true) }
{
    if !are_well_formed(request) {
        return Err(Refusal::Query);
    }
    if !have_allowed_names(request) {
        return Err(Refusal::Name);
    }
    let mut list = AttributeList::new();
    for option in request.options() {
        if let Some(attribute) = given_by(&option) {
            add(&mut list, attribute)?;
        }
    }
    Ok(list)
}

/// Adds the resource type of an endpoint to its attributes.
///
/// # Errors
///
/// - `Refusal::Many` if there are more than 64 attributes then.
pub(crate) fn with_type<'a>(given: AttributeList<'a>) -> Result<AttributeList<'a>, Refusal>
    requires { list_all is_attribute (attributes_of given.items) ≡ true }
    ensures value { Gives (λ l. attributes_of l.items) result
        (limited (attributes_of given.entry.items ++ endpoint_type ∷ [])) }
    ensures each { IfOk result (λ l. list_all is_attribute (attributes_of l.items) ≡ true) }
{
    let mut list = given;
    add(
        &mut list,
        AttributeRef {
            name: b"rt",
            value: ValueRef::Quoted(b"core.rd-ep"),
        },
    )?;
    Ok(list)
}

/// Returns `true` if an attribute of the list has this name.
fn has(list: &[AttributeRef], name: &[u8]) -> bool
    ensures { result ≡ has_name (attributes_of list.now) name.now }
{
    for attribute in list {
        if is_same_name(attribute.name, name) {
            return true;
        }
    }
    false
}

/// Returns the attributes of an endpoint after an update gave new ones: those of other names, and the new ones.
///
/// # Errors
///
/// - `Refusal::Many` if there are more than 64.
pub(crate) fn merged_attributes<'a>(
    old: Attributes<'a>,
    new: &[AttributeRef<'a>],
) -> Result<AttributeList<'a>, Refusal>
    requires old { list_all is_attribute old ≡ true }
    requires new { list_all is_attribute (attributes_of new.now) ≡ true }
    ensures value { Gives (λ l. attributes_of l.items) result (limited (merged old.entry (attributes_of new.now))) }
    ensures each { IfOk result (λ l. list_all is_attribute (attributes_of l.items) ≡ true) }
{
    let mut list = AttributeList::new();
    for attribute in old {
        if !has(new, attribute.name) {
            add(&mut list, attribute)?;
        }
    }
    for attribute in new {
        add(&mut list, *attribute)?;
    }
    Ok(list)
}

/// Returns a text that keeps the attributes.
///
/// # Errors
///
/// - `AllocError` if allocation fails.
pub(crate) fn text_of(alloc: Global, list: &[AttributeRef]) -> Result<AttributeText, AllocError>
    requires { list_all is_attribute (attributes_of list.now) ≡ true }
    ensures { IfOk result (λ t. t ≡ attributes_of list.now) }
{
    let mut text = AttributeText::new(alloc);
    for attribute in list {
        text = text.with(attribute)?;
    }
    Ok(text)
}
