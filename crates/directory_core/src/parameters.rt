//! The registration that a request describes.

ghost use Rattle.std.specs.Prelude.{◌≡◌, ◌+◌, ◌<◌, ◌^◌, ◌++◌, ◌==◌, ◌&&◌, ◌||◌, option_map, IfSome, length};
ghost use Rattle.std.specs.Prelude.{position, chars, codes, nat_lt, nat_le, nat_eq, not};
ghost use Rattle.std.specs.List.{list_all, list_any, starts_with};
ghost use Rattle.std.specs.Cmp.Lexicographic.{pointwise};
ghost use Rattle.std.specs.Str.{is_utf8 as is_utf8_text};
ghost use Rattle.directory_core.specs.Prelude.{key_in, is_scheme as is_scheme_text, is_scheme_char, is_authority};
ghost use Rattle.directory_core.specs.Prelude.{is_authority_char, is_base as is_base_text};
ghost use Rattle.directory_core.specs.Prelude.{has_scheme as has_scheme_text, is_limited, is_plain_char};
ghost use Rattle.directory_core.specs.Prelude.{is_well_formed, has_allowed_name, is_allowed_name, coap_option};
ghost use Rattle.directory_core.specs.Prelude.{parameter_names, own_names, is_key_char, is_key_text};
ghost use Rattle.directory_links.specs.Characters.{is_same_name as is_same};

use crate::query::split_query;
use coap_wire::option_numbers::URI_QUERY;
use coap_wire::{MessageRef, OptionRef};
use directory_links::{Links, is_parmname, is_same_name, is_target_char};
use directory_registry::EndpointKey;
use std::str;

/// Maximum number of bytes of the name of an endpoint or a sector (RFC 9176 section 5).
const MAX_NAME: usize = 63;

/// Returns `true` if the bytes are UTF-8.
#[tactic(auto, using(crate::proofs::TextLemmas::utf8))]
pub(crate) fn is_utf8(text: &[u8]) -> bool
    ensures { result ≡ is_utf8_text text.now }
{
    str::from_utf8(text).is_ok()
}

fn is_of_key(c: char) -> bool
    ensures { result ≡ is_key_char c }
{
    !c.is_control()
}

fn all_of_key(text: &str) -> bool
    ensures { result ≡ list_all is_key_char (chars text.now) }
{
    text.chars().all(|c| is_of_key(c))
}

/// Returns `true` if the text can be the name of an endpoint or a sector, apart from its length.
#[tactic(auto, using(crate::proofs::TextLemmas::utf8))]
fn is_key_part(text: &[u8]) -> bool
    ensures { result ≡ is_key_text text.now }
{
    let Ok(name) = str::from_utf8(text) else {
        return false;
    };
    all_of_key(name)
}

/// Returns the key of an endpoint with this sector and name. Returns `None` if a name is too long or has bytes that no
/// name has, or if that of the endpoint is empty.
pub(crate) fn endpoint_key(sector: &[u8], name: &[u8]) -> Option<EndpointKey>
    ensures { option_map (λ k. k.items) result ≡ key_in sector.now name.now }
{
    if sector.len() > MAX_NAME || name.len() > MAX_NAME || name.is_empty() {
        return None;
    }
    if !is_key_part(sector) || !is_key_part(name) {
        return None;
    }
    let mut key = EndpointKey::new();
    key.push(sector.len() as u8);
    let Ok(()) = key.try_extend_from_slice(sector) else {
        unreachable!()
    };
    let Ok(()) = key.try_extend_from_slice(name) else {
        unreachable!()
    };
    Some(key)
}

fn is_of_scheme(byte: u8) -> bool
    ensures { result ≡ is_scheme_char byte }
{
    byte.is_ascii_alphanumeric() || byte == b'+' || byte == b'-' || byte == b'.'
}

fn is_of_authority(byte: u8) -> bool
    ensures { result ≡ is_authority_char byte }
{
    is_target_char(byte) && byte != b'/' && byte != b'?' && byte != b'#'
}

fn all_of_scheme(text: &[u8]) -> bool
    ensures { result ≡ list_all is_scheme_char text.now }
{
    text.iter().all(|byte| is_of_scheme(*byte))
}

fn all_of_authority(text: &[u8]) -> bool
    ensures { result ≡ list_all is_authority_char text.now }
{
    text.iter().all(|byte| is_of_authority(*byte))
}

fn is_scheme(text: &[u8]) -> bool
    ensures { result ≡ is_scheme_text text.now }
{
    text.len() > 0 && all_of_scheme(text)
}

/// Returns `true` if the text is `//` and an authority.
fn follows_scheme(text: &[u8]) -> bool
    ensures { result ≡ is_authority text.now }
{
    if text.len() <= 2 || !text.starts_with(b"//") {
        return false;
    }
    let (_, authority) = text.split_at(2);
    all_of_authority(authority)
}

/// Returns the index of the first colon.
fn colon(text: &[u8]) -> Option<usize>
    ensures value { result ≡ position (λ b. b == 58) text.now }
    ensures within { IfSome result (λ i. i < length text.now) }
{
    text.iter().position(|byte| *byte == b':')
}

/// Returns `true` if the text is a URI of a scheme and an authority.
pub(crate) fn is_base(text: &[u8]) -> bool
    ensures { result ≡ is_base_text text.now }
{
    let Some(at) = colon(text) else {
        return false;
    };
    let (_, rest) = text.split_at(at + 1);
    is_scheme(&text[..at]) && follows_scheme(rest)
}

/// Returns `true` if the target begins with a scheme.
fn has_scheme(target: &[u8]) -> bool
    ensures { result ≡ has_scheme_text target.now }
{
    let Some(at) = colon(target) else {
        return false;
    };
    is_scheme(&target[..at])
}

/// Returns `true` if each target begins with a scheme or with a single slash (RFC 9176 appendix C).
pub(crate) fn are_limited(links: Links) -> bool
    ensures { result ≡ list_all is_limited links.entry }
{
    for link in links {
        let target = link.target();
        if !has_scheme(target) && (!target.starts_with(b"/") || target.starts_with(b"//")) {
            return false;
        }
    }
    true
}

fn is_plain(byte: u8) -> bool
    ensures { result ≡ is_plain_char byte }
{
    byte >= 32 && byte != 127 && byte != b'"' && byte != b'\\'
}

/// Returns `true` if the text can be between the quotes of a quoted string as it is.
fn all_plain(text: &[u8]) -> bool
    ensures { result ≡ list_all is_plain_char text.now }
{
    text.iter().all(|byte| is_plain(*byte))
}

/// Returns `true` unless the option is a query without `=`, or with a value that is not UTF-8 or cannot be quoted.
fn is_well_formed_query(option: &OptionRef) -> bool
    ensures { result ≡ is_well_formed (coap_option option.now) }
{
    if option.number != URI_QUERY {
        return true;
    }
    let Some((_, value)) = split_query(option.value) else {
        return false;
    };
    is_utf8(value) && all_plain(value)
}

/// Returns `true` if each query is well-formed.
pub(crate) fn are_well_formed(request: &MessageRef) -> bool
    ensures { result ≡ list_all is_well_formed request.now.options }
{
    for option in request.options() {
        if !is_well_formed_query(&option) {
            return false;
        }
    }
    true
}

/// Returns `true` if this is the name of a parameter.
fn is_parameter(name: &[u8]) -> bool
    ensures { result ≡ list_any (pointwise nat_eq name.now) parameter_names }
{
    name == b"ep".as_slice()
        || name == b"d".as_slice()
        || name == b"lt".as_slice()
        || name == b"base".as_slice()
}

/// Returns `true` if the name is that of a parameter, in any case of its letters.
fn means_parameter(name: &[u8]) -> bool
    ensures { result ≡ list_any (is_same name.now) parameter_names }
{
    is_same_name(name, b"ep")
        || is_same_name(name, b"d")
        || is_same_name(name, b"lt")
        || is_same_name(name, b"base")
}

/// Returns `true` if the name is that of an attribute that the link of an endpoint has of its own. The same holds for
/// one that would make it another link.
fn means_own(name: &[u8]) -> bool
    ensures { result ≡ list_any (is_same name.now) own_names }
{
    is_same_name(name, b"rt")
        || is_same_name(name, b"rel")
        || is_same_name(name, b"rev")
        || is_same_name(name, b"anchor")
        || is_same_name(name, b"href")
}

/// Returns `true` if a query of a registration can have this name.
fn is_allowed(name: &[u8]) -> bool
    ensures { result ≡ is_allowed_name name.now }
{
    is_parameter(name) || (is_parmname(name) && !(means_parameter(name) || means_own(name)))
}

/// Returns `true` unless the option is a query without `=`, or with a name that is not allowed.
fn is_allowed_query(option: &OptionRef) -> bool
    ensures { result ≡ has_allowed_name (coap_option option.now) }
{
    if option.number != URI_QUERY {
        return true;
    }
    let Some((name, _)) = split_query(option.value) else {
        return false;
    };
    is_allowed(name)
}

/// Returns `true` if each query has an allowed name.
pub(crate) fn have_allowed_names(request: &MessageRef) -> bool
    ensures { result ≡ list_all has_allowed_name request.now.options }
{
    for option in request.options() {
        if !is_allowed_query(&option) {
            return false;
        }
    }
    true
}
