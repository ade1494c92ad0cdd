//! Search criteria, and the values that match them.

ghost use Rattle.std.specs.Prelude.{◌≡◌, ◌++◌, nat_eq, codes};
ghost use Rattle.std.specs.List.{starts_with, list_any};
ghost use Rattle.std.specs.Cmp.Lexicographic.{pointwise};
ghost use Rattle.directory_registry.specs.Prelude.{value_matches as matches_value, is_list_name, words, value_meets};
ghost use Rattle.directory_registry.specs.Prelude.{attribute_meets as meets_attribute, criterion_of, attribute_of};

use coap_text::split_once;
use directory_links::{AttributeRef, Attributes, ValueRef, is_same_name};

/// Search criterion of a lookup (RFC 9176 section 6.1): an attribute of this name has a matching value. Names do not
/// differ by the case of their letters.
#[derive(Clone, Copy, Default)]
pub struct Criterion<'a> {
    /// Name of the attribute, or `href` for the target of a link.
    pub name: &'a [u8],
    /// Value, or the start of a value before a trailing `*` (RFC 6690 section 4.1).
    pub pattern: &'a [u8],
}

/// Returns `true` if the value matches the pattern.
pub(crate) fn value_matches(pattern: &[u8], value: &[u8]) -> bool
    ensures { result ≡ matches_value pattern.now value.now }
{
    if pattern.ends_with(b"*") {
        return value.starts_with(&pattern[..pattern.len() - 1]);
    }
    value == pattern
}

/// Returns `true` if both texts, one after the other, begin with these bytes.
#[tactic(auto, using(crate::proofs::JoinedLemmas::begins_first))]
fn joined_starts_with(first: &[u8], second: &[u8], needle: &[u8]) -> bool
    ensures { result ≡ starts_with nat_eq (first.now ++ second.now) needle.now }
{
    if needle.len() <= first.len() {
        return first.starts_with(needle);
    }
    let (front, back) = needle.split_at(first.len());
    first == front && second.starts_with(back)
}

/// Returns `true` if both texts, one after the other, are these bytes.
#[tactic(auto, using(crate::proofs::JoinedLemmas::unequal))]
fn joined_equals(first: &[u8], second: &[u8], other: &[u8]) -> bool
    ensures { result ≡ pointwise nat_eq (first.now ++ second.now) other.now }
{
    if other.len() < first.len() {
        return false;
    }
    let (front, back) = other.split_at(first.len());
    first == front && second == back
}

/// Returns `true` if both texts, one after the other, match the pattern.
pub(crate) fn joined_matches(pattern: &[u8], first: &[u8], second: &[u8]) -> bool
    ensures { result ≡ matches_value pattern.now (first.now ++ second.now) }
{
    if pattern.ends_with(b"*") {
        return joined_starts_with(first, second, &pattern[..pattern.len() - 1]);
    }
    joined_equals(first, second, pattern)
}

/// Returns `true` if a word of the value matches the pattern. The words are separated by spaces.
fn word_matches(pattern: &[u8], value: &[u8]) -> bool
    ensures { result ≡ list_any (matches_value pattern.now) (words value.now) }
{
    let mut rest = value;
    while let Some((word, later)) = split_once(rest, b' ') {
        if value_matches(pattern, word) {
            return true;
        }
        rest = later;
    }
    value_matches(pattern, rest)
}

/// Returns `true` if the value of an attribute with this name is a list of words.
fn has_words(name: &[u8]) -> bool
    ensures { result ≡ is_list_name name.now }
{
    is_same_name(name, b"rt")
        || is_same_name(name, b"if")
        || is_same_name(name, b"rel")
        || is_same_name(name, b"rev")
}

/// Returns `true` if an attribute with the name of the criterion and this value meets it.
pub(crate) fn meets_value(criterion: &Criterion, value: &[u8]) -> bool
    ensures { result ≡ value_meets (criterion_of criterion.now) value.now }
{
    if has_words(criterion.name) {
        word_matches(criterion.pattern, value)
    } else {
        value_matches(criterion.pattern, value)
    }
}

/// Returns `true` if the attribute meets the criterion.
pub(crate) fn attribute_meets(criterion: &Criterion, attribute: &AttributeRef) -> bool
    ensures { result ≡ meets_attribute (criterion_of criterion.now) (attribute_of attribute.now) }
{
    if !is_same_name(attribute.name, criterion.name) {
        return false;
    }
    match attribute.value {
        ValueRef::Absent => meets_value(criterion, b""),
        ValueRef::Extended(_) => false,
        ValueRef::Token(text) => meets_value(criterion, text),
        ValueRef::Quoted(text) => meets_value(criterion, text),
    }
}

/// Returns `true` if an attribute of the list meets the criterion.
pub(crate) fn any_attribute_meets(criterion: &Criterion, attributes: Attributes) -> bool
    ensures { result ≡ list_any (meets_attribute (criterion_of criterion.now)) attributes.entry }
{
    for attribute in attributes {
        if attribute_meets(criterion, &attribute) {
            return true;
        }
    }
    false
}
