//! Encodes and sends the responses to requests.

ghost use Rattle.std.specs.Prelude.{◌≡◌, ◌≤◌, ◌<◌, ◌+◌, ◌++◌, true, [], length, option_map, Some, IfSome};
ghost use Rattle.coap_server_session.specs.Prelude.{last_number, encoded_size, path_size, with_option, IsAnswering};
ghost use Rattle.coap_server_session.specs.Prelude.{IsReady, limit_in, link_after, fit, bare_response, is_path};
ghost use Rattle.coap_server_session.specs.Prelude.{path_or_root, response_with_observe, option_at, empty_at};
ghost use Rattle.coap_server_session.specs.Prelude.{number_at, each_at, LARGEST_MESSAGE, MAX_EXTENDED_LENGTH, only};
ghost use Rattle.std.specs.Prelude.{false};
ghost use Rattle.coap_wire.specs.Prelude.{bytes_of_uint};
ghost use Rattle.coap_wire.specs.OptionNumbers as numbers;
ghost use Rattle.coap_conn.specs.Calls as call;

use coap_conn::{Link, Reply};
use coap_store::{ChangePlan, Plan, UriPath};
use coap_wire::option_numbers::{CONTENT_FORMAT, ETAG, LOCATION_PATH, MAX_AGE, OBSERVE, SIZE1};
use coap_wire::{Code, CompactBuilder, SHORT_OPTIONS, TokenRef, significant_bytes};

/// Largest encoded size of the options of a response with Location-Path, in bytes.
const LOCATION_OPTIONS: usize = 368;

/// Sends the response of a plan, with its options (RFC 7252 section 5.10), to the request with this token.
///
/// If `observes` is `true`, the response has Observe, as a notification has (RFC 7641 section 4.2). If the response
/// exceeds the largest message that may be sent, it is sent *bare*, with code and token only. If that is too large too,
/// the connection stops.
///
/// # Preconditions
///
/// - The peer's CSM was received, and the connection has not stopped.
/// - The queue has room for a message of `max_sent` bytes.
/// - The payload has at most 1,048,576 bytes.
/// - The response has no Location-Path: `respond_change` sends the response to a request that created a resource.
pub(crate) fn respond(link: &mut Link, token: &TokenRef, plan: &Plan, observes: bool) -> Reply
    requires ready { IsReady link.old }
    requires answering { IsAnswering link.old.phase }
    requires short { length plan.now.response.payload ≤ LARGEST_MESSAGE }
    requires located { plan.now.response.location ≡ [] }
    ensures reply { let response = response_with_observe token.now observes plan.now.response in result
        ≡ fit (limit_in link.old) response (bare_response response) }
    ensures after { link.new
        ≡ link_after link.old (call.Reply (response_with_observe token.now observes plan.now.response)) }
{
    let mut response: CompactBuilder<SHORT_OPTIONS> = CompactBuilder::new(
        plan.code(),
        token.copy(),
    );
    add_etag(&mut response, plan.etag_number());
    add_observe(&mut response, observes);
    add_number(&mut response, CONTENT_FORMAT, wide(plan.format()));
    add_number(&mut response, MAX_AGE, plan.max_age());
    add_number(&mut response, SIZE1, plan.size1());
    response.payload(plan.payload());
    link.reply_compact(&response)
}

/// Sends the response to a request that made a change, to the request with this token. It has a code, and the path of
/// the created resource if the plan has one. Does the same as `respond`.
///
/// # Preconditions
///
/// As `respond`.
// Never inlined, since a function clears all its locals.
#[inline(never)]
pub(crate) fn respond_change(link: &mut Link, token: &TokenRef, planned: &ChangePlan)
    requires ready { IsReady link.old }
    requires answering { IsAnswering link.old.phase }
    ensures { link.new
        ≡ link_after link.old (call.Reply (response_with_observe token.now false planned.now.response)) }
{
    let code = planned.code();
    match planned.location() {
        None => respond_code::<SHORT_OPTIONS>(link, token, code, None),
        Some(path) => respond_created(link, token, code, path),
    }
}

/// Sends a response with this code and Location-Path. (A separate function: a function clears all its locals, so these
/// would slow down `respond_change`.)
#[tactic(auto, using(coap_path::proofs::PathLemmas::few_segments, coap_path::proofs::PathLemmas::path_fits))]
#[inline(never)]
fn respond_created<'a>(link: &mut Link, token: &TokenRef, code: Code, path: UriPath<'a>)
    requires ready { IsReady link.old }
    requires answering { IsAnswering link.old.phase }
    requires path { is_path path ≡ true }
    ensures { link.new ≡ link_after link.old
        (call.Reply (response_with_observe token.now false (record (only code) { location = path.entry }))) }
{
    respond_code::<LOCATION_OPTIONS>(link, token, code, Some(path));
}

/// Sends a response with this code and, if there is one, this Location-Path, with at most `N` bytes of options.
#[inline(always)]
fn respond_code<'a, const N: usize>(
    link: &mut Link,
    token: &TokenRef,
    code: Code,
    path: Option<UriPath<'a>>,
)
    requires ready { IsReady link.old }
    requires answering { IsAnswering link.old.phase }
    requires path { IfSome path (λ path. is_path path ≡ true) }
    requires room { path_size (path_or_root path) ≤ N }
    requires few { N ≤ MAX_EXTENDED_LENGTH }
    ensures { link.new ≡ link_after link.old (call.Reply
        (response_with_observe token.now false (record (only code) { location = path_or_root path.entry }))) }
{
    let mut response: CompactBuilder<N> = CompactBuilder::new(code, token.copy());
    add_location(&mut response, path);
    link.reply_compact(&response);
}

/// Returns the same number in 32 bits.
#[inline(always)]
fn wide(number: Option<u16>) -> Option<u32>
    ensures { result ≡ number }
{
    number.map(u32::from)
}

/// Adds an option. The builder must have space for it.
#[tactic(auto, using(crate::proofs::values::ResponseLemmas::last_added))]
#[inline(always)]
fn add<const N: usize>(response: &mut CompactBuilder<N>, number: u16, value: &[u8])
    requires order { last_number 0 response.old.options ≤ number }
    requires room { encoded_size response.old + 5 + length value.now ≤ N }
    ensures added { response.new ≡ with_option response.old number value.now }
    ensures order { last_number 0 response.new.options ≡ number }
    ensures size { encoded_size response.new ≤ encoded_size response.old + 5 + length value.now }
{
    response.option(number, value);
}

/// Adds the ETag with this number as the first option, if there is one (RFC 7252 section 5.10.6).
#[inline(always)]
fn add_etag<const N: usize>(response: &mut CompactBuilder<N>, etag: Option<u64>)
    requires first { response.old.options ≡ [] }
    requires room { 13 ≤ N }
    ensures added { response.new
        ≡ record response.old {
          options = response.old.options ++ option_at numbers.etag (option_map bytes_of_uint etag);
        } }
    ensures order { last_number 0 response.new.options ≤ 4 }
    ensures size { encoded_size response.new ≤ 13 }
{
    if let Some(number) = etag {
        match u32::try_from(number) {
            Ok(small) => add_number(response, ETAG, Some(small)),
            Err(_) => add_long_etag(response, number),
        }
    }
}

/// Adds the ETag with this number as the first option. (Most numbers have at most 4 bytes.)
#[inline(never)]
#[tactic(auto, unfolding(coap_wire::specs::Uint::bytes_of_uint))]
fn add_long_etag<const N: usize>(response: &mut CompactBuilder<N>, number: u64)
    requires first { response.old.options ≡ [] }
    requires room { 13 ≤ N }
    ensures added { response.new ≡ with_option response.old numbers.etag (bytes_of_uint number) }
    ensures order { last_number 0 response.new.options ≡ 4 }
    ensures size { encoded_size response.new ≤ 13 }
{
    add(response, ETAG, significant_bytes(&number.to_be_bytes()));
}

/// Adds an empty Observe, if `observes` is `true` (RFC 8323 section 7.1).
#[inline(always)]
fn add_observe<const N: usize>(response: &mut CompactBuilder<N>, observes: bool)
    requires order { last_number 0 response.old.options ≤ 4 }
    requires room { encoded_size response.old + 5 ≤ N }
    ensures added { response.new
        ≡ record response.old { options = response.old.options ++ empty_at numbers.observe observes } }
    ensures order { last_number 0 response.new.options ≤ 6 }
    ensures size { encoded_size response.new ≤ encoded_size response.old + 5 }
{
    if observes {
        add(response, OBSERVE, &[]);
    }
}

/// Adds the path of a created resource as Location-Path, if there is one (RFC 7252 section 5.10.7).
#[inline(always)]
fn add_location<const N: usize>(response: &mut CompactBuilder<N>, path: Option<UriPath>)
    requires path { IfSome path (λ path. is_path path ≡ true) }
    requires order { last_number 0 response.old.options ≤ 8 }
    requires room { encoded_size response.old + path_size (path_or_root path) ≤ N }
    ensures added { response.new
        ≡ record response.old {
          options = response.old.options ++ each_at numbers.location_path
              (path_or_root path.entry);
        } }
    ensures order { last_number 0 response.new.options ≤ 8 }
    ensures size { encoded_size response.new ≤ encoded_size response.old + path_size (path_or_root path.entry) }
{
    if let Some(path) = path {
        add_path(response, path);
    }
}

/// Adds an option of format uint, if there is a number (RFC 7252 section 3.2).
#[tactic(auto, using(crate::proofs::values::ResponseLemmas::last_added))]
#[inline(always)]
fn add_number<const N: usize>(response: &mut CompactBuilder<N>, number: u16, value: Option<u32>)
    requires order { last_number 0 response.old.options ≤ number }
    requires room { encoded_size response.old + 9 ≤ N }
    ensures added { response.new ≡ record response.old { options = response.old.options ++ number_at number value } }
    ensures order { last_number 0 response.new.options ≤ number }
    ensures size { encoded_size response.new ≤ encoded_size response.old + 9 }
{
    if let Some(value) = value {
        response.uint_option(number, value);
    }
}

/// Adds Location-Path, one option for each segment (RFC 7252 section 5.10.7).
fn add_path<const N: usize>(response: &mut CompactBuilder<N>, path: UriPath)
    requires path { is_path path ≡ true }
    requires order { last_number 0 response.old.options ≤ 8 }
    requires room { encoded_size response.old + path_size path ≤ N }
    ensures added { response.new
        ≡ record response.old { options = response.old.options ++ each_at numbers.location_path path.entry } }
    ensures order { last_number 0 response.new.options ≤ 8 }
    ensures size { encoded_size response.new ≤ encoded_size response.old + path_size path.entry }
{
    for segment in path {
        add(response, LOCATION_PATH, segment);
    }
}
