//! The recognised options of a request (RFC 7252 sections 5.4, 5.10), read in one pass. Only If-Match, ETag and a path
//! key need a second pass.

ghost use Rattle.std.specs.Prelude.{◌≡◌, ◌≤◌, true, Option, length, is_some, IfSome, ◌||◌, option_map};
ghost use Rattle.coap_store.specs.Prelude.{uint_of, known_options, is_path, digits_mean, path_of as path_of_request};
ghost use Rattle.coap_store.specs.Prelude.{body_path, nothing, all_noted, options_value, first_critical, list_any};
ghost use Rattle.coap_store.specs.Prelude.{same_bytes, bytes_of_uint, Representation, kind_of_path};
ghost use Rattle.coap_store.specs.Requests as spec;
ghost use Rattle.coap_wire.specs.OptionNumbers as numbers;

use crate::request_options::RequestOptions;
use coap_path::{PathKey, ResourceKind, UriPath};
use coap_wire::option_numbers::{ETAG, IF_MATCH};
use coap_wire::{Body, Code, MessageRef, uint_bytes, uint_value};
use std::marker::Model;

/// Request whose recognised options were read once. Contracts see its message.
#[derive(Drop)]
pub(crate) struct ParsedRequest<'q, 'r> {
    request: &'q MessageRef<'r>,
    known: &'q RequestOptions<'r>,
    /// `true` if an option is critical and not recognised.
    has_bad_option: bool,
}

impl<'q, 'r> Model for ParsedRequest<'q, 'r> {
    ghost use Rattle.coap_wire.specs.Message.{Message};

    ghost Value = { Message };

    ghost use Rattle.coap_store.specs.ParsedRequestViews.{message_of, IsParsed};

    ghost view = { message_of };

    ghost invariant = { IsParsed };
}

/// Adds the recognised options of a request to `known`, which has none yet, in one pass. Returns `true` if an option is
/// critical and not recognised.
// Never inlined, so that the fields of `known` stay in memory: an inlined loop would keep each in a
// register or reload it.
#[inline(never)]
#[tactic(auto, using(crate::proofs::CheckedLemmas::option_turns))]
fn scan_options<'r>(request: &MessageRef<'r>, known: &mut RequestOptions<'r>) -> bool
    requires { options_value known.old ≡ nothing }
    ensures known { options_value known.new ≡ all_noted nothing (known_options request.now.options) }
    ensures bad { result ≡ is_some (first_critical request.now.options) }
{
    let mut has_bad_option = false;
    for checked in request.checked_options() {
        if checked.is_recognised {
            known.note(&checked.option);
        } else if checked.option.number % 2 == 1 {
            has_bad_option = true;
        }
    }
    has_bad_option
}

/// Returns the path in a request's options. It must be the path of a resource.
pub(crate) fn path_in(body: &Body) -> PathKey
    requires { is_path (body_path body.now) ≡ true }
    ensures { result ≡ body_path body.now }
{
    let mut path = PathKey::root();
    let _filled = path.fill(UriPath::of(body));
    path
}

/// Returns the number that at most 2 bytes encode in network order (RFC 7252 section 3.2).
fn small_value(bytes: &[u8]) -> u16
    requires { length bytes.now ≤ 2 }
    ensures { result ≡ uint_of bytes.now }
{
    match bytes {
        [] => 0,
        [low] => u16::from(*low),
        [high, low] => u16::from_be_bytes([*high, *low]),
        _ => unreachable!(),
    }
}

impl<'q, 'r> ParsedRequest<'q, 'r> {
    /// Reads the recognised options of a request into `known`, which has none yet.
    pub(crate) fn by(
        request: &'q MessageRef<'r>,
        known: &'q mut RequestOptions<'r>,
    ) -> ParsedRequest<'q, 'r>
        requires { options_value known.old ≡ nothing }
        ensures { result ≡ request.now }
    {
        let has_bad_option = scan_options(request, known);
        ParsedRequest {
            request,
            known,
            has_bad_option,
        }
    }

    /// Returns the request's options and payload.
    #[tactic(auto, unfolding(crate::specs::Requests::values_of))]
    pub(crate) fn body(&self) -> Body<'r>
        ensures path { body_path result ≡ path_of_request self.now }
        ensures payload { result.payload ≡ self.now.payload }
    {
        self.request.body()
    }

    pub(crate) fn code(&self) -> Code
        ensures { result ≡ self.now.code }
    {
        self.request.code()
    }

    /// Returns the payload, which is empty if there is none.
    pub(crate) fn payload(&self) -> &'r [u8]
        ensures { result.now ≡ self.now.payload }
    {
        self.request.payload()
    }

    /// Returns `true` if an option is critical and not recognised.
    pub(crate) fn has_bad_option(&self) -> bool
        ensures { result ≡ is_some (first_critical self.now.options) }
    {
        self.has_bad_option
    }

    /// Returns `true` if the request has Proxy-Uri or Proxy-Scheme (RFC 7252 section 5.10.2).
    pub(crate) fn asks_proxy(&self) -> bool
        ensures { result
            ≡ (spec.has_option numbers.proxy_uri self.now || spec.has_option numbers.proxy_scheme self.now) }
    {
        self.known.has_proxy_uri || self.known.has_proxy_scheme
    }

    /// Returns `true` if the request's path is that of a resource, and sets the key to it (RFC 7252 section 5.10.1).
    pub(crate) fn fill_key(&self, key: &mut PathKey) -> bool
        ensures path { result ≡ is_path (spec.path_of self.now) }
        ensures filled { result ≡ true → key.new ≡ spec.path_of self.now }
    {
        key.fill(UriPath::of(&self.body()))
    }

    /// Returns the kind of resource that the path names.
    pub(crate) fn kind(&self) -> ResourceKind
        ensures { result ≡ kind_of_path (spec.path_of self.now) }
    {
        self.known.matched.kind()
    }

    /// Returns the Content-Format of the payload (RFC 7252 section 5.10.3).
    #[tactic(auto, using(crate::proofs::RequestLemmas::number_steps))]
    pub(crate) fn content_format(&self) -> Option<u16>
        ensures { result ≡ spec.number_of numbers.content_format self.now }
    {
        let value = self.known.content_format?;
        Some(small_value(value))
    }

    /// Returns the Content-Format in Accept (RFC 7252 section 5.10.4).
    #[tactic(auto, using(crate::proofs::RequestLemmas::number_steps))]
    pub(crate) fn accept(&self) -> Option<u16>
        ensures { result ≡ spec.number_of numbers.accept self.now }
    {
        let value = self.known.accept?;
        Some(small_value(value))
    }

    /// Returns the number in Observe (RFC 7641 section 2).
    #[tactic(auto, using(crate::proofs::RequestLemmas::observe_steps))]
    pub(crate) fn observe(&self) -> Option<u32>
        ensures { result ≡ spec.number_of numbers.observe self.now }
    {
        let value = self.known.observe?;
        uint_value(value)
    }

    /// Returns `true` if there is no Uri-Query, or the first one is a number of seconds.
    pub(crate) fn has_good_query(&self) -> bool
        ensures { result ≡ spec.is_good_query (spec.value_of numbers.uri_query self.now) }
    {
        match self.known.query {
            Some(bytes) => seconds_in(bytes).is_some(),
            None => true,
        }
    }

    /// Returns the delay in seconds that the request asks for, or 5 if it has no Uri-Query.
    pub(crate) fn seconds(&self) -> u32
        requires { spec.is_good_query (spec.value_of numbers.uri_query self.now) ≡ true }
        ensures { result ≡ spec.seconds_of (spec.value_of numbers.uri_query self.now) }
    {
        let Some(bytes) = self.known.query else {
            return USUAL_SECONDS;
        };
        let Some(seconds) = seconds_in(bytes) else {
            unreachable!()
        };
        u32::from(seconds)
    }

    /// Returns `true` if the request has no If-Match. Otherwise the resource must exist, and a value of If-Match must
    /// be empty or the ETag of its version (RFC 7252 section 5.10.8.1).
    #[tactic(auto, using(crate::proofs::RequestLemmas::match_holds_steps))]
    pub(crate) fn match_holds(&self, version: Option<u64>) -> bool
        ensures { (state : Option Representation) → version ≡ option_map (λ r. r.version) state →
            result ≡ spec.match_holds state self.now }
    {
        if !self.known.has_if_match {
            return true;
        }
        let Some(version) = version else {
            return false;
        };
        let etag = uint_bytes(version);
        self.request.known().any(|option| option.number == IF_MATCH
            && (option.value.is_empty() || option.value == etag.as_slice()))
    }

    /// Returns `true` if the request has no If-None-Match, or the resource does not exist (RFC 7252 section 5.10.8.2).
    pub(crate) fn none_match_holds(&self, is_present: bool) -> bool
        ensures { (state : Option Representation) → is_present ≡ spec.is_present state →
            result ≡ spec.none_match_holds state self.now }
    {
        !(is_present && self.known.has_if_none_match)
    }

    /// Returns `true` if the request has an ETag that encodes this number (RFC 7252 section 5.10.6.2).
    #[tactic(auto, using(crate::proofs::RequestLemmas::value_passes, crate::proofs::RequestLemmas::none_passes))]
    pub(crate) fn has_etag(&self, number: u64) -> bool
        ensures { result
            ≡ list_any (λ value. same_bytes value (bytes_of_uint number)) (spec.values_of numbers.etag self.now) }
    {
        if !self.known.has_etag {
            return false;
        }
        let etag = uint_bytes(number);
        self.request.known().any(|option| option.number == ETAG && option.value == etag.as_slice())
    }
}

/// Maximum number of digits of a delay.
const MAX_DIGITS: usize = 4;

/// Maximum delay of a response, in seconds.
const MAX_SECONDS: u16 = 3600;

/// Delay of a response in seconds if the request does not state one.
const USUAL_SECONDS: u32 = 5;

/// Returns the number of seconds in 1 to 4 decimal digits, or `None` for a number above 3,600 or for other bytes.
#[tactic(auto, using(crate::proofs::RequestLemmas::seconds_in_steps))]
fn seconds_in(bytes: &[u8]) -> Option<u16>
    ensures good { is_some result ≡ spec.is_seconds bytes.now }
    ensures value { IfSome result (λ seconds. seconds ≡ digits_mean bytes.now) }
{
    if bytes.is_empty() || bytes.len() > MAX_DIGITS {
        return None;
    }
    let mut seconds = 0;
    for byte in bytes {
        if !byte.is_ascii_digit() {
            return None;
        }
        seconds = 10 * seconds + u16::from(byte - b'0');
    }
    (seconds <= MAX_SECONDS).then_some(seconds)
}
