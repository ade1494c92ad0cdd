//! Target of a request: the parts of a URI of the scheme `coap+tcp`.

ghost use Rattle.std.specs.Prelude.{◌≡◌, ◌<◌, true, length, option_copied, IfOk};
ghost use Rattle.coap_client_request.specs.Prelude.{list_any, borrowed_host, host_text, parse_url, has_host};
ghost use Rattle.coap_client_request.specs.Prelude.{host_or_empty};
ghost use Rattle.coap_client_request.specs.Prelude.{byte_lists, named_value, GivesUnlessMemory, target_of, IsTarget};
ghost use Rattle.percent_encoding.specs.Percent as percent;
ghost use Rattle.coap_client_request.specs.Targets as spec;
ghost use Rattle.coap_client_request.specs.declared.target.TargetFault.TheVariants.{Memory};

use coap_text::split_once;
use percent_encoding::percent_decode;
use std::alloc::{AllocError, Global};
use std::marker::Model;
use std::net::Ipv4Addr;
use thiserror::Error;
use url::{Host, ParseError, Url};

/// Scheme of CoAP over TCP (RFC 8323 section 8.1).
const SCHEME: &str = "coap+tcp";

/// Default port of that scheme (RFC 8323 section 8.1).
const DEFAULT_PORT: u16 = 5_683;

/// Maximum number of bytes of a host, a segment or an argument (RFC 7252 section 5.10).
const MAX_PART: usize = 255;

/// Maximum number of segments, and of arguments.
const MAX_PARTS: usize = 16;

/// Reason why a text is no target: the first that applies, in this order. The discriminants are the numbers of the
/// errors.
#[derive(Clone, Copy, Debug, PartialEq, Eq, Error)]
pub enum TargetFault {
    /// Text that is no absolute URL for the crate `url`.
    #[error("no absolute URL")]
    Url = 1,
    /// Scheme other than `coap+tcp`.
    #[error("scheme other than coap+tcp")]
    Scheme = 2,
    /// Missing or empty host.
    #[error("no host")]
    NoHost = 3,
    /// User name or password in the URI.
    #[error("user name or password in the URI")]
    UserInfo = 4,
    /// Fragment in the URI, even an empty one (RFC 7252 section 6.4).
    #[error("fragment in the URI")]
    Fragment = 5,
    /// Host, segment or argument of more than 255 bytes after decoding.
    #[error("host, segment or argument of more than 255 bytes")]
    PartTooLong = 6,
    /// More than 16 segments, or more than 16 arguments.
    #[error("more than 16 segments or arguments")]
    TooManyParts = 7,
    /// Failure of an allocation, or a URL of 4 GB, which the crate `url` does not support. This error can come before
    /// any other.
    #[error("no memory")]
    Memory = 8,
}

const _: () = prove!(TargetFault::Url as u8 == 1);

const _: () = prove!(TargetFault::Scheme as u8 == 2);

const _: () = prove!(TargetFault::NoHost as u8 == 3);

const _: () = prove!(TargetFault::UserInfo as u8 == 4);

const _: () = prove!(TargetFault::Fragment as u8 == 5);

const _: () = prove!(TargetFault::PartTooLong as u8 == 6);

const _: () = prove!(TargetFault::TooManyParts as u8 == 7);

const _: () = prove!(TargetFault::Memory as u8 == 8);

impl From<AllocError> for TargetFault {
    ghost from_gives = { λ _ why. why ≡ Memory };

    fn from(_: AllocError) -> TargetFault {
        TargetFault::Memory
    }
}

/// Decoded parts of a URI, before their sizes are checked.
#[derive(Drop)]
struct TargetParts {
    /// Host name or address, as used to connect and in Uri-Host.
    host: Vec<u8>,
    /// Kind of the host: `true` for an address, `false` for a name.
    is_address: bool,
    /// TCP port.
    port: u16,
    /// Segments of the path, decoded.
    segments: Vec<Vec<u8>>,
    /// Arguments of the query, decoded.
    arguments: Vec<Vec<u8>>,
}

/// Target of a request: the host, the port, and the parts of the path and the query of a `coap+tcp` URI (RFC 8323
/// section 8.1). Contracts refer to these parts by name.
///
/// # Examples
///
/// ```
/// let target = Target::read(rt.alloc(), "coap+tcp://example.org/sensors/1?unit=C")?;
/// assert!(&rt; target.host() == b"example.org".as_slice() && target.port() == 5_683);
/// assert!(&rt; target.segments().len() == 2 && target.arguments().len() == 1);
/// ```
#[derive(Drop)]
pub struct Target {
    named: TargetParts,
}

impl Model for Target {
    ghost use Rattle.coap_client_request.specs.Targets.{TargetValue};

    ghost Value = { TargetValue };

    ghost use Rattle.coap_client_request.specs.TargetViews.{target_value, is_target};

    ghost view = { target_value };

    ghost invariant = { is_target };
}

impl Target {
    /// Parses a URI of the scheme `coap+tcp`. The text must be an absolute URL for the crate `url`.
    ///
    /// The default port is 5683. An empty path and `/` have no segment. A `&` separates two arguments, and a lone `?`
    /// has one empty argument (RFC 7252 section 6.4). Escapes are decoded, and an incomplete escape stays as written.
    ///
    /// # Errors
    ///
    /// The first that applies, except that `Memory` can come before any other:
    ///
    /// - `Url`: the text is no absolute URL.
    /// - `Scheme`: the scheme is not `coap+tcp`.
    /// - `NoHost`: the host is missing or empty.
    /// - `UserInfo`: the URI has a user name or a password.
    /// - `Fragment`: the URI has a fragment.
    /// - `PartTooLong`: the host, a segment or an argument has more than 255 bytes after decoding.
    /// - `TooManyParts`: the URI has more than 16 segments or more than 16 arguments.
    /// - `Memory`: allocation failed, or the URL has 4 GB.
    pub fn read(alloc: Global, text: &str) -> Result<Target, TargetFault>
        ensures { GivesUnlessMemory result (target_of text.now) }
    {
        match Url::parse(alloc, text) {
            Ok(url) => target_in(alloc, &url),
            Err(fault) => Err(url_fault(fault)),
        }
    }

    /// Returns the host, as used to connect and in Uri-Host: 1 to 255 bytes.
    ///
    /// An IPv6 address has no brackets. A name has its escapes decoded and its ASCII letters in lower case (RFC 7252
    /// section 6.4).
    pub fn host(&self) -> &[u8]
        ensures value { result.now ≡ self.now.host }
        ensures kept { IsTarget self.now }
    {
        self.named.host.as_slice()
    }

    /// Returns `true` if the host is an address, which is not sent as Uri-Host (RFC 7252 section 6.4).
    ///
    /// An address is in brackets in the URI, or consists of four decimal numbers up to 255 without leading zeros,
    /// separated by dots.
    pub fn is_address(&self) -> bool
        ensures { result ≡ self.now.is_address }
    {
        self.named.is_address
    }

    /// Returns the TCP port.
    pub fn port(&self) -> u16
        ensures { result ≡ self.now.port }
    {
        self.named.port
    }

    /// Returns the segments of the path, decoded: at most 16, each of at most 255 bytes.
    pub fn segments(&self) -> &[Vec<u8>]
        ensures value { byte_lists result.now ≡ self.now.segments }
        ensures kept { IsTarget self.now }
    {
        self.named.segments.as_slice()
    }

    /// Returns the arguments of the query, decoded: at most 16, each of at most 255 bytes.
    pub fn arguments(&self) -> &[Vec<u8>]
        ensures value { byte_lists result.now ≡ self.now.arguments }
        ensures kept { IsTarget self.now }
    {
        self.named.arguments.as_slice()
    }
}

/// Returns the error for an error of the crate `url`.
fn url_fault(fault: ParseError) -> TargetFault
    ensures { spec.MeansUnlessRoom fault result }
{
    match fault {
        ParseError::OutOfMemory => TargetFault::Memory,
        ParseError::Overflow => TargetFault::Memory,
        _ => TargetFault::Url,
    }
}

/// Returns the target of a parsed URI.
#[tactic(auto, unfolding(crate::specs::Targets::target_in, crate::specs::Targets::size_refusal))]
fn target_in(alloc: Global, url: &Url) -> Result<Target, TargetFault>
    ensures { spec.GivesUnlessMemory result (spec.target_in url.now) }
{
    if let Some(fault) = form_fault(url) {
        return Err(fault);
    }
    let named = named_by(alloc, url)?;
    if has_long_part(&named) {
        return Err(TargetFault::PartTooLong);
    }
    if has_many_parts(&named) {
        return Err(TargetFault::TooManyParts);
    }
    Ok(Target { named })
}

/// Returns the error of a parsed URI that can be found before its parts are decoded.
#[tactic(auto, unfolding(crate::specs::Targets::form_refusal))]
fn form_fault(url: &Url) -> Option<TargetFault>
    ensures { result ≡ spec.form_refusal url.now }
{
    if url.scheme() != SCHEME {
        return Some(TargetFault::Scheme);
    }
    if !url.has_host() {
        return Some(TargetFault::NoHost);
    }
    if !url.username().is_empty() || url.password().is_some() {
        return Some(TargetFault::UserInfo);
    }
    if url.fragment().is_some() {
        return Some(TargetFault::Fragment);
    }
    None
}

/// Returns the decoded parts of a URI with a host. The resulting host has at least one byte.
#[tactic(auto, unfolding(crate::specs::Targets::value_named))]
fn named_by(alloc: Global, url: &Url) -> Result<TargetParts, AllocError>
    requires { has_host url.now ≡ true }
    ensures value { IfOk result (λ n. named_value n ≡ spec.value_named url.now) }
    ensures some { IfOk result (λ n. 0 < length n.host.items) }
{
    let host = host_in(url);
    Ok(TargetParts {
        host: host_bytes(alloc, url, &host)?,
        is_address: names_address(&host),
        port: url.port().unwrap_or(DEFAULT_PORT),
        segments: segments_named(alloc, url.path())?,
        arguments: arguments_named(alloc, url.query())?,
    })
}

/// Returns the host of a URI that has one.
fn host_in(url: &Url) -> Host<&str>
    requires { has_host url.now ≡ true }
    ensures { borrowed_host result ≡ host_or_empty url.now }
{
    let Some(host) = url.host() else {
        unreachable!()
    };
    host
}

/// Returns `true` if the text is an IPv4 address: four decimal numbers separated by dots.
fn is_dotted(text: &str) -> bool
    ensures { result ≡ spec.is_dotted text.now }
{
    text.parse::<Ipv4Addr>().is_ok()
}

/// Returns `true` if the host is an address.
#[tactic(auto, unfolding(crate::specs::Targets::names_address))]
fn names_address(host: &Host<&str>) -> bool
    ensures { result ≡ spec.names_address (borrowed_host host.now) }
{
    match host {
        Host::Domain(text) => is_dotted(text),
        Host::Ipv4(_) => true,
        Host::Ipv6(_) => true,
    }
}

/// Returns the text of the host of a URI that has one, with brackets around an IPv6 address.
fn written_host(url: &Url) -> &str
    requires { has_host url.now ≡ true }
    ensures { result.now ≡ host_text (host_or_empty url.now) }
{
    let Some(text) = url.host_str() else {
        unreachable!()
    };
    text
}

/// Returns the host as used to connect and in Uri-Host.
#[tactic(auto, using(crate::proofs::TargetLemmas::in_brackets), unfolding(crate::specs::Targets::host_named))]
fn host_bytes(alloc: Global, url: &Url, host: &Host<&str>) -> Result<Vec<u8>, AllocError>
    requires some { has_host url.now ≡ true }
    requires same { borrowed_host host.now ≡ host_or_empty url.now }
    ensures { IfOk result (λ v. v.items ≡ spec.host_named (borrowed_host host.now)) }
{
    let text = written_host(url).as_bytes();
    match host {
        Host::Domain(domain) => domain_bytes(alloc, domain),
        Host::Ipv4(_) => Vec::from_slice(alloc, text),
        Host::Ipv6(_) => Vec::from_slice(alloc, &text[1..text.len() - 1]),
    }
}

/// Decodes a host without brackets: an address stays as written, and a name gets its ASCII letters in lower case.
#[tactic(auto, unfolding(crate::specs::Targets::domain_named))]
fn domain_bytes(alloc: Global, text: &str) -> Result<Vec<u8>, AllocError>
    ensures { IfOk result (λ v. v.items ≡ spec.domain_named text.now) }
{
    if is_dotted(text) {
        return Vec::from_slice(alloc, text.as_bytes());
    }
    let bytes = decoded(alloc, text.as_bytes())?;
    bytes.to_ascii_lowercase(alloc)
}

/// Decodes each escape. Any other `%` stays as written.
fn decoded(alloc: Global, bytes: &[u8]) -> Result<Vec<u8>, AllocError>
    ensures { IfOk result (λ v. v.items ≡ percent.percent_decode bytes.now) }
{
    let mut decoded = Vec::new(alloc);
    percent_decode(bytes).append_to(&mut decoded)?;
    Ok(decoded)
}

/// Splits bytes at a separator, and decodes each part.
#[tactic(auto, unfolding(crate::specs::Targets::decoded_parts))]
fn decoded_parts(alloc: Global, bytes: &[u8], separator: u8) -> Result<Vec<Vec<u8>>, AllocError>
    ensures { IfOk result (λ parts. byte_lists parts.items ≡ spec.decoded_parts separator bytes.now) }
{
    let mut parts = Vec::new(alloc);
    let mut left = bytes;
    while let Some((part, rest)) = split_once(left, separator) {
        parts.push(decoded(alloc, part)?)?;
        left = rest;
    }
    parts.push(decoded(alloc, left)?)?;
    Ok(parts)
}

/// Returns the segments of a path, which follow its first slash.
#[tactic(auto, unfolding(crate::specs::Targets::segments_named))]
fn segments_named(alloc: Global, path: &str) -> Result<Vec<Vec<u8>>, AllocError>
    ensures { IfOk result (λ parts. byte_lists parts.items ≡ spec.segments_named path.now) }
{
    if path.len() <= 1 {
        return Ok(Vec::new(alloc));
    }
    decoded_parts(alloc, &path.as_bytes()[1..], b'/')
}

/// Returns the arguments of a query.
#[tactic(auto, unfolding(crate::specs::Targets::arguments_named))]
fn arguments_named(alloc: Global, query: Option<&str>) -> Result<Vec<Vec<u8>>, AllocError>
    ensures { IfOk result (λ parts. byte_lists parts.items ≡ spec.arguments_named (option_copied query.entry)) }
{
    match query {
        Some(query) => decoded_parts(alloc, query.as_bytes(), b'&'),
        None => Ok(Vec::new(alloc)),
    }
}

/// Returns `true` if a part has more than 255 bytes.
fn any_long(parts: &[Vec<u8>]) -> bool
    ensures { result ≡ list_any spec.is_long (byte_lists parts.now) }
{
    parts.iter().any(|part| part.len() > MAX_PART)
}

/// Returns `true` if the host, a segment or an argument has more than 255 bytes.
fn has_long_part(named: &TargetParts) -> bool
    ensures { result ≡ spec.has_long_part (named_value named.now) }
{
    named.host.len() > MAX_PART || any_long(&named.segments) || any_long(&named.arguments)
}

/// Returns `true` if there are more than 16 segments or more than 16 arguments.
fn has_many_parts(named: &TargetParts) -> bool
    ensures { result ≡ spec.has_many_parts (named_value named.now) }
{
    named.segments.len() > MAX_PARTS || named.arguments.len() > MAX_PARTS
}
