//! Options of Signalling Messages (RFC 8323 section 5). `signal_messages.rt` has the messages that a link sends.
//!
//! To add an option of CSM:
//!
//! 1. Read it here, with `SignalOptions.antt` and `Announced.antt`. If its number is odd, let `bad_option` and `is_bad`
//!    accept it.
//! 2. Keep what the peer announced as `peer_token` is kept: `git grep -lw peer_token crates tests` lists the files.
//! 3. Announce it in `first_csm_with` (`signal_messages.rt`, `LinkValue.antt`). The first CSM may have 32 bytes. All
//!    files of `git grep -l 60e1230100004140` have its bytes, among them `install/haproxy.cfg`; so has
//!    `tests/vectors/bytes.py`.
//! 4. Add its name to `CSM_OPTIONS` of `coap_print` and to `SIGNAL_OPTIONS` of `tests/harness/messages.py`.
//! 5. Add rows to `takes_announcements` and `stops_on_codes_and_options` (`link`). Then docs/MODEL.md and
//!    docs/conformance.tsv.

ghost use Rattle.std.specs.Prelude.{◌≡◌, Some, None, option_map, find, IfOk, IfErr, OnOk};
ghost use Rattle.coap_conn.specs.Prelude.{uint_of, coap_option, is_bad, first_size as first_size_in};
ghost use Rattle.coap_conn.specs.Prelude.{has_critical_option as critical_option_in, bad_csm_option as bad_option_in};
ghost use Rattle.coap_conn.specs.Prelude.{first_token_length as first_token_length_in, token_length as token_length_of};
ghost use Rattle.coap_conn.specs.Prelude.{token_length_in, asks_custody as has_custody};

use coap_wire::{MAX_EXTENDED_LENGTH, MessageRef, OptionRef, uint_value};

/// Max-Message-Size, an option of CSM (RFC 8323 section 5.3.1).
pub(crate) const MAX_MESSAGE_SIZE: u16 = 2;

/// Extended-Token-Length, an option of CSM (RFC 8974 section 2.2.1).
pub(crate) const EXTENDED_TOKEN_LENGTH: u16 = 6;

/// Length of the longest token that a peer accepts if it has announced none, and the smallest length that it can
/// announce.
pub(crate) const BASE_TOKEN: u32 = 8;

/// Custody, an option of Ping and Pong (RFC 8323 section 5.4.1).
pub(crate) const CUSTODY: u16 = 2;

/// Returns `true` if a message has a critical option, which has an odd number (RFC 8323 section 5.2).
pub(crate) fn has_critical_option(message: &MessageRef) -> bool
    ensures { result ≡ critical_option_in message.now }
{
    message.options().any(|option| option.number % 2 == 1)
}

/// Returns `true` if a Ping or a Pong has Custody, which is an empty option 2.
pub(crate) fn asks_custody(message: &MessageRef) -> bool
    ensures { result ≡ has_custody message.now }
{
    message.options().any(|option| option.number == CUSTODY && option.value.is_empty())
}

/// Returns the first Max-Message-Size of a message, if there is one.
fn first_size<'a>(message: &MessageRef<'a>) -> Option<OptionRef<'a>>
    ensures { option_map coap_option result ≡ first_size_in message.now }
{
    message
        .options()
        .find(|option| option.number == MAX_MESSAGE_SIZE)
}

/// Returns the number of the first option that a CSM must not have: a critical one, or a Max-Message-Size if `is_long`
/// is `true`.
fn bad_option(message: &MessageRef, is_long: bool) -> Option<u16>
    ensures { result ≡ option_map (λ o. o.number) (find (is_bad is_long) message.now.options) }
{
    let bad = message.options().find(|option| option.number % 2 == 1
        || (option.number == MAX_MESSAGE_SIZE && is_long))?;
    Some(bad.number)
}

/// Returns the Max-Message-Size that a CSM announces, or `None` if it announces none.
///
/// # Errors
///
/// Returns the number of the first option that a CSM must not have. Such an option is critical, or a Max-Message-Size
/// if the first of them is longer than 4 bytes.
pub(crate) fn announced_size(message: &MessageRef) -> Result<Option<u32>, u16>
    ensures bad { IfErr result (λ number. bad_option_in message.now ≡ Some number) }
    ensures good { OnOk result (bad_option_in message.now ≡ None) }
    ensures size { IfOk result (λ size. size ≡ option_map (λ o. uint_of o.value) (first_size_in message.now)) }
{
    let Some(size) = first_size(message) else {
        return match bad_option(message, false) {
            Some(number) => Err(number),
            None => Ok(None),
        };
    };
    let bytes = uint_value(size.value);
    match bad_option(message, bytes.is_none()) {
        Some(number) => Err(number),
        None => Ok(bytes),
    }
}

/// Returns the first Extended-Token-Length of a message, if there is one.
fn first_token_length<'a>(message: &MessageRef<'a>) -> Option<OptionRef<'a>>
    ensures { option_map coap_option result ≡ first_token_length_in message.now }
{
    message
        .options()
        .find(|option| option.number == EXTENDED_TOKEN_LENGTH)
}

/// Returns the length that a value of Extended-Token-Length announces, at most that of the longest token of a message.
/// Returns `None` if the value has more than 3 bytes or is below 8.
fn token_length(value: &[u8]) -> Option<u32>
    ensures { result ≡ token_length_of value.now }
{
    if value.len() > 3 {
        return None;
    }
    match uint_value(value) {
        None => None,
        Some(length) => {
            if length < BASE_TOKEN {
                None
            } else {
                Some(length.min(MAX_EXTENDED_LENGTH as u32))
            }
        }
    }
}

/// Returns the length of the longest token that a CSM announces, or `None` if it announces none.
pub(crate) fn announced_token(message: &MessageRef) -> Option<u32>
    ensures { result ≡ token_length_in (first_token_length_in message.now) }
{
    match first_token_length(message) {
        None => None,
        Some(option) => token_length(option.value),
    }
}
