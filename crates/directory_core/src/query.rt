//! The queries of a request.

ghost use Rattle.std.specs.Prelude.{◌≡◌, ◌<◌, ◌==◌, Some, None, [], option_map, position, IfSome, length, codes};
ghost use Rattle.std.specs.Prelude.{if◌then◌else◌};
ghost use Rattle.directory_core.specs.Prelude.{split_query as query_parts, named, coap_option, query_value};
ghost use Rattle.directory_core.specs.Prelude.{is_part_name, with_criterion, criteria_from, small_value, page_in};
ghost use Rattle.directory_core.specs.Prelude.{lifetime_in, criteria_of, page_of, is_repeated, repeats_parameter};

use arrayvec::ArrayVec;
use coap_text::number_in;
use coap_wire::option_numbers::URI_QUERY;
use coap_wire::{MessageRef, OptionRef};
use directory_registry::{Criterion, Page};

/// Maximum number of search criteria of a lookup.
const MAX_CRITERIA: usize = 16;

/// Lifetime of a registration that gives none, in seconds (RFC 9176 section 5).
const DEFAULT_LIFETIME: u32 = 90_000;

/// Minimum lifetime of a registration, in seconds.
const MIN_LIFETIME: u32 = 1;

/// Returns the index of the first `=`.
fn equals_sign(query: &[u8]) -> Option<usize>
    ensures value { result ≡ position (λ b. b == 61) query.now }
    ensures within { IfSome result (λ i. i < length query.now) }
{
    query.iter().position(|byte| *byte == b'=')
}

/// Returns the name and the value of a query, or `None` if it has no `=`.
pub(crate) fn split_query(query: &[u8]) -> Option<(&[u8], &[u8])>
    ensures { option_map (λ x. (x.0.now, x.1.now)) result ≡ query_parts query.now }
{
    let Some(at) = equals_sign(query) else {
        return None;
    };
    let (_, value) = query.split_at(at + 1);
    Some((&query[..at], value))
}

/// Returns the value of an option if it is a query with this name.
fn value_in<'a>(option: &OptionRef<'a>, name: &[u8]) -> Option<&'a [u8]>
    ensures { option_map (λ x. x.now) result ≡ query_value name.now (coap_option option.now) }
{
    if option.number != URI_QUERY {
        return None;
    }
    let Some((found, value)) = split_query(option.value) else {
        return None;
    };
    if found != name {
        return None;
    }
    Some(value)
}

/// Returns the value of the first query with this name.
pub(crate) fn value_named<'a>(request: &MessageRef<'a>, name: &[u8]) -> Option<&'a [u8]>
    ensures { option_map (λ x. x.now) result ≡ named name.now request.now.options }
{
    for option in request.options() {
        if let Some(value) = value_in(&option, name) {
            return Some(value);
        }
    }
    None
}

/// Returns `true` if two queries or more have this name.
pub(crate) fn is_given_twice(request: &MessageRef, name: &[u8]) -> bool
    ensures { result ≡ is_repeated name.now request.now.options }
{
    let mut found = false;
    for option in request.options() {
        if value_in(&option, name).is_some() {
            if found {
                return true;
            }
            found = true;
        }
    }
    false
}

/// Returns `true` if a request gives a parameter of a registration twice.
pub(crate) fn repeats_a_parameter(request: &MessageRef) -> bool
    ensures { result ≡ repeats_parameter request.now.options }
{
    is_given_twice(request, b"ep")
        || is_given_twice(request, b"d")
        || is_given_twice(request, b"lt")
        || is_given_twice(request, b"base")
}

/// Returns `true` if a query with this name selects a part of the results.
fn selects_part(name: &[u8]) -> bool
    ensures { result ≡ is_part_name name.now }
{
    name == b"page".as_slice() || name == b"count".as_slice()
}

/// Adds the criterion of an option, if it has one. Returns `false` if it is malformed, or one too many.
fn add_criterion<'a>(
    criteria: &mut ArrayVec<Criterion<'a>, MAX_CRITERIA>,
    option: &OptionRef<'a>,
) -> bool
    ensures { (if result then Some (criteria_of criteria.new.items) else None)
        ≡ with_criterion (criteria_of criteria.old.items) (coap_option option.now) }
{
    if option.number != URI_QUERY {
        return true;
    }
    let Some((name, pattern)) = split_query(option.value) else {
        return false;
    };
    if selects_part(name) {
        return true;
    }
    criteria.try_push(Criterion { name, pattern }).is_ok()
}

/// Returns the search criteria of a lookup, or `None` if a query is malformed or there are more than 16 criteria.
pub(crate) fn criteria_of_request<'a>(
    request: &MessageRef<'a>,
) -> Option<ArrayVec<Criterion<'a>, MAX_CRITERIA>>
    ensures { option_map (λ c. criteria_of c.items) result ≡ criteria_from [] request.now.options }
{
    let mut criteria = ArrayVec::new();
    for option in request.options() {
        if !add_criterion(&mut criteria, &option) {
            return None;
        }
    }
    Some(criteria)
}

/// Returns the number of 32 bits that a word means.
pub(crate) fn small_number(word: &[u8]) -> Option<u32>
    ensures { result ≡ small_value word.now }
{
    match number_in(word) {
        Some(number) if number <= u64::from(u32::MAX) => Some(number as u32),
        _ => None,
    }
}

/// Returns the part of the results that a lookup asks for, or `None` if it is malformed.
pub(crate) fn page_of_request(request: &MessageRef) -> Option<Page>
    ensures { option_map page_of result
        ≡ page_in (named (codes "page") request.now.options) (named (codes "count") request.now.options) }
{
    part_of(
        value_named(request, b"page"),
        value_named(request, b"count"),
    )
}

/// Returns the part with these parameters.
fn part_of(page: Option<&[u8]>, count: Option<&[u8]>) -> Option<Page>
    ensures { option_map page_of result
        ≡ page_in (option_map (λ p. p.now) page.entry) (option_map (λ c. c.now) count.entry) }
{
    let Some(count) = count else {
        if page.is_some() {
            return None;
        }
        return Some(Page {
            skip: 0,
            count: u64::MAX,
        });
    };
    let Some(count) = small_number(count) else {
        return None;
    };
    let Some(page) = page else {
        return Some(Page {
            skip: 0,
            count: u64::from(count),
        });
    };
    let Some(page) = small_number(page) else {
        return None;
    };
    Some(Page {
        skip: u64::from(page) * u64::from(count),
        count: u64::from(count),
    })
}

/// Returns the lifetime in seconds: that of the request, or the default. Returns `None` if it is not allowed.
pub(crate) fn lifetime_of(text: Option<&[u8]>) -> Option<u32>
    ensures { result ≡ lifetime_in (option_map (λ t. t.now) text.entry) }
{
    let Some(text) = text else {
        return Some(DEFAULT_LIFETIME);
    };
    match small_number(text) {
        Some(lifetime) if lifetime >= MIN_LIFETIME => Some(lifetime),
        _ => None,
    }
}
