//! The formats that a request names, and its conditions.

ghost use Rattle.std.specs.Prelude.{◌≡◌, ◌&&◌, ◌||◌, ◌==◌, not, length};
ghost use Rattle.std.specs.List.{list_all, list_any};
ghost use Rattle.directory_core.specs.Prelude.{means_link_format as means, names_link_format as names};
ghost use Rattle.directory_core.specs.Prelude.{known_options};
ghost use Rattle.directory_core.specs.Prelude.{has_link_format as has_format};
ghost use Rattle.directory_core.specs.Prelude.{accepts_link_format as accepts_format};
ghost use Rattle.directory_core.specs.Prelude.{match_holds as match_is_met};
ghost use Rattle.directory_core.specs.Prelude.{none_match_holds as none_match_is_met};
ghost use Rattle.directory_core.specs.Prelude.{conditions_hold as are_met};
ghost use Rattle.coap_wire.specs.OptionNumbers as numbers;

use coap_wire::option_numbers::{ACCEPT, CONTENT_FORMAT, IF_MATCH, IF_NONE_MATCH};
use coap_wire::{MessageRef, uint_value};

/// Number of the Content-Format `application/link-format`.
const LINK_FORMAT: u32 = 40;

/// Returns `true` if the bytes are the number of `application/link-format`, in at most two bytes.
fn means_link_format(value: &[u8]) -> bool
    ensures { result ≡ means value.now }
{
    value.len() <= 2 && uint_value(value) == Some(LINK_FORMAT)
}

/// Returns `true` unless a recognised option with this number names another format.
fn names_link_format(request: &MessageRef, number: u16) -> bool
    ensures { result ≡ list_all (names number) (known_options request.now.options) }
{
    request.known().all(|option| option.number != number || means_link_format(option.value))
}

/// Returns `true` if the payload is in link format by its Content-Format, or has none (RFC 7252 section 5.10.3).
pub(crate) fn has_link_format(request: &MessageRef) -> bool
    ensures { result ≡ has_format request.now.options }
{
    names_link_format(request, CONTENT_FORMAT)
}

/// Returns `true` if Accept names link format, or is absent (RFC 7252 section 5.10.4).
pub(crate) fn accepts_link_format(request: &MessageRef) -> bool
    ensures { result ≡ accepts_format request.now.options }
{
    names_link_format(request, ACCEPT)
}

/// Returns `true` if the request has a recognised option with this number.
fn has_option(request: &MessageRef, number: u16) -> bool
    ensures { result ≡ list_any (λ o. o.number == number) (known_options request.now.options) }
{
    request.known().any(|option| option.number == number)
}

/// Returns `true` if a value of If-Match is empty.
fn matches_any(request: &MessageRef) -> bool
    ensures { result
        ≡ list_any (λ o. o.number == numbers.if_match && length o.value == 0) (known_options request.now.options) }
{
    request.known().any(|option| option.number == IF_MATCH && option.value.is_empty())
}

/// Returns `true` if the conditions of a request hold, for a resource that exists or not (RFC 7252 section 5.10.8). A
/// resource of a directory has no ETag, so a value of If-Match holds only if it is empty.
#[tactic(auto, unfolding(crate::specs::Conditions::conditions_hold))]
pub(crate) fn conditions_hold(request: &MessageRef, exists: bool) -> bool
    ensures { result ≡ are_met exists request.now.options }
{
    if has_option(request, IF_MATCH) && !(exists && matches_any(request)) {
        return false;
    }
    !(exists && has_option(request, IF_NONE_MATCH))
}
