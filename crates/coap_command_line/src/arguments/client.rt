//! Options of `coap-client`.

ghost use Rattle.std.specs.Prelude.{◌≡◌, IfOk, MatchOption, None, Some, codes, false, option_map, true};
ghost use Rattle.coap_command_line.specs.Prelude.{after_first, before_first, list_any, found_of, rows_of};
ghost use Rattle.coap_command_line.specs.Prelude.{named, number_within, option_value, GivesClientPlan, client_value};
ghost use Rattle.coap_command_line.specs.Prelude.{TellsExtra, extra_value, GivesUnlessMemory, target_of};
ghost use Rattle.coap_command_line.specs.ClientWords as spec;
ghost use Rattle.coap_client_request.specs.declared.request.Method.TheVariants.{Get};

use crate::arguments::WordsFault;
use crate::arguments::option_values::{
    BadValue, file_name, is_used, log, named_value, number, number_within, text_of,
};
use clap::ArgMatches;
use coap_client_request::{ClientPlan, Method, Target, TargetFault};
use coap_print::LogLevel;
use coap_text::bytes_in;
use percent_encoding::percent_decode;
use std::alloc::{AllocError, Global};

/// Methods by their names.
const METHODS: &[(&str, Method)] = &[
    ("get", Method::Get),
    ("put", Method::Put),
    ("post", Method::Post),
    ("delete", Method::Delete),
];

/// Returns the method with this name.
#[tactic(auto, unfolding(crate::specs::ClientWords::method_named, crate::specs::CommandLines::named_value))]
fn method_named(text: &str) -> Option<Method>
    ensures { result ≡ spec.method_named text.now }
{
    named_value(METHODS, text.as_bytes())
}

/// Returns the method of the request, by default GET.
///
/// # Errors
///
/// Returns `BadValue` if the text of the option is no method.
fn method(matches: &ArgMatches<'_>) -> Result<Method, BadValue>
    ensures { named result ≡ option_value (codes "-m") spec.method_named Get (rows_of (found_of matches.now)) }
{
    match text_of(matches, "-m") {
        Some(text) => match method_named(text) {
            Some(method) => Ok(method),
            None => Err(BadValue { option: "-m" }),
        },
        None => Ok(Method::Get),
    }
}

/// Numbers of content formats by their full names. The list is separate from that of `coap_print`, which has more names
/// for logs: a name that is added there changes no option.
const FORMATS: &[(&str, u16)] = &[
    ("text/plain", 0),
    ("application/link-format", 40),
    ("application/xml", 41),
    ("application/octet-stream", 42),
    ("application/exi", 47),
    ("application/json", 50),
    ("application/cbor", 60),
];

/// Returns the number of the content format with this full name.
#[tactic(auto, unfolding(crate::specs::ClientWords::format_named, crate::specs::CommandLines::named_value))]
fn format_named(text: &str) -> Option<u16>
    ensures { result ≡ spec.format_named text.now }
{
    named_value(FORMATS, text.as_bytes())
}

/// Returns the content format with this full name or number.
#[tactic(auto, unfolding(crate::specs::ClientWords::format_of))]
fn format_in(text: &str) -> Option<u16>
    ensures { result ≡ spec.format_of text.now }
{
    if let Some(format) = format_named(text) {
        return Some(format);
    }
    let number = number_within(text, 0, 65_535)?;
    Some(number as u16)
}

/// Returns the content format of an option.
///
/// # Errors
///
/// Returns `BadValue` if the text of the option is no content format.
fn format(matches: &ArgMatches<'_>, name: &'static str) -> Result<Option<u16>, BadValue>
    ensures { named result ≡ option_value name.now (spec.perhaps spec.format_of) None (rows_of (found_of matches.now)) }
{
    match text_of(matches, name) {
        Some(text) => match format_in(text) {
            Some(format) => Ok(Some(format)),
            None => Err(BadValue { option: name }),
        },
        None => Ok(None),
    }
}

/// Returns the duration of the observation in seconds.
///
/// # Errors
///
/// Returns `BadValue` if the text of the option is no 32-bit number.
fn observe(matches: &ArgMatches<'_>) -> Result<Option<u32>, BadValue>
    ensures { named result
        ≡ option_value (codes "-s") (spec.perhaps (number_within 0 4294967295)) None (rows_of (found_of matches.now)) }
{
    match text_of(matches, "-s") {
        Some(text) => match number_within(text, 0, 4_294_967_295) {
            Some(seconds) => Ok(Some(seconds as u32)),
            None => Err(BadValue { option: "-s" }),
        },
        None => Ok(None),
    }
}

/// Values of the options whose text can be invalid, except `-O`.
#[derive(Clone, Copy)]
pub(super) struct RequestValues {
    pub(super) method: Method,
    pub(super) content_format: Option<u16>,
    pub(super) accept: Option<u16>,
    pub(super) observe: Option<u32>,
    pub(super) wait: u32,
}

/// Returns the values of the options whose text can be invalid, except `-O`.
///
/// # Errors
///
/// Returns `BadValue` for the first option with an invalid text, in the order of the usage line.
#[tactic(auto, unfolding(crate::specs::ClientWords::request_said))]
fn request_values(matches: &ArgMatches<'_>) -> Result<RequestValues, BadValue>
    ensures { named result ≡ spec.request_said (rows_of (found_of matches.now)) }
{
    let method = method(matches)?;
    let content_format = format(matches, "-t")?;
    let accept = format(matches, "-A")?;
    let observe = observe(matches)?;
    let wait = number(matches, "-B", 1, 4_294_967_295, 90)?;
    Ok(RequestValues {
        method,
        content_format,
        accept,
        observe,
        wait: wait as u32,
    })
}

/// Splits a text at its first comma.
fn split_at_comma(text: &str) -> Option<(&str, &str)>
    ensures { spec.AreHalves text.now (option_map (λ x. (x.0.now, x.1.now)) result) }
{
    text.split_once(',')
}

/// Returns the value of the extra option: the bytes of the hexadecimal digits after `0x`, or the text itself if there
/// is no `0x`.
#[tactic(auto, unfolding(crate::specs::ClientWords::option_bytes))]
fn option_bytes(alloc: Global, text: &str) -> Result<Option<Vec<u8>>, AllocError>
    ensures { IfOk result (λ found. option_map (λ v. v.items) found ≡ spec.option_bytes text.now) }
{
    let bytes = text.as_bytes();
    if bytes.starts_with(b"0x") {
        return bytes_in(alloc, &bytes[2..]);
    }
    let value = Vec::from_slice(alloc, bytes)?;
    Ok(Some(value))
}

/// Maximum length of the value of the extra option, in bytes.
const MAX_OPTION: usize = 1_034;

/// Returns the extra option in a text: a number, a comma and a value.
#[tactic(auto, unfolding(crate::specs::ClientWords::extra_of))]
fn extra_in(alloc: Global, text: &str) -> Result<Option<(u16, Vec<u8>)>, AllocError>
    ensures { IfOk result (λ found. option_map extra_value found ≡ spec.extra_of text.now) }
{
    let Some((number, value)) = split_at_comma(text) else {
        return Ok(None);
    };
    let Some(number) = number_within(number, 0, 65_535) else {
        return Ok(None);
    };
    let Some(value) = option_bytes(alloc, value)? else {
        return Ok(None);
    };
    if value.len() > MAX_OPTION {
        return Ok(None);
    }
    Ok(Some((number as u16, value)))
}

/// Returns the extra option, if `-O` is given.
///
/// # Errors
///
/// - `Value`: the text of the option is invalid.
/// - `Memory`: allocation failed.
fn extra(alloc: Global, matches: &ArgMatches<'_>) -> Result<Option<(u16, Vec<u8>)>, WordsFault>
    ensures { TellsExtra (spec.extra_said (rows_of (found_of matches.now))) result }
{
    match text_of(matches, "-O") {
        Some(text) => match extra_in(alloc, text)? {
            Some(extra) => Ok(Some(extra)),
            None => Err(WordsFault::Value("-O")),
        },
        None => Ok(None),
    }
}

/// Returns the target of the URI. The errors are those of `Target::read`.
#[tactic(auto, unfolding(crate::specs::ClientWords::uri_said))]
fn parse_target(alloc: Global, matches: &ArgMatches<'_>) -> Result<Target, TargetFault>
    ensures { GivesUnlessMemory result (target_of (spec.uri_said (rows_of (found_of matches.now)))) }
{
    let uri = text_of(matches, "URI").unwrap_or("");
    Target::read(alloc, uri)
}

/// Returns the payload of `-e`, percent-decoded, or no bytes if the option is not given.
#[tactic(auto, unfolding(crate::specs::ClientWords::payload_said))]
fn payload(alloc: Global, matches: &ArgMatches<'_>) -> Result<Vec<u8>, AllocError>
    ensures { IfOk result (λ bytes. bytes.items ≡ spec.payload_said (rows_of (found_of matches.now))) }
{
    let text = text_of(matches, "-e").unwrap_or("");
    let mut bytes = Vec::new(alloc);
    percent_decode(text.as_bytes()).append_to(&mut bytes)?;
    Ok(bytes)
}

/// Returns `true` if two options exclude each other: both `-e` and `-f` are given, or `-s` with another method than
/// GET.
#[tactic(auto, unfolding(crate::specs::ClientWords::clashes))]
fn clashes(matches: &ArgMatches<'_>, values: &RequestValues) -> bool
    ensures { result ≡ spec.clashes (rows_of (found_of matches.now)) values.now }
{
    if text_of(matches, "-e").is_some() && text_of(matches, "-f").is_some() {
        return true;
    }
    values.observe.is_some() && values.method != Method::Get
}

/// Returns the plan with these values, after adding the values of the options whose text is always valid.
fn plan_with(
    alloc: Global,
    matches: &ArgMatches<'_>,
    target: Target,
    values: RequestValues,
    extra: Option<(u16, Vec<u8>)>,
    log: LogLevel,
) -> Result<ClientPlan, AllocError>
    ensures { IfOk result (λ plan. client_value plan ≡ spec.client_plan target values (option_map extra_value extra) log
        (rows_of (found_of matches.now))) }
{
    let payload = payload(alloc, matches)?;
    let input = file_name(alloc, matches, "-f")?;
    let output = file_name(alloc, matches, "-o")?;
    Ok(ClientPlan {
        target,
        method: values.method,
        observe: values.observe,
        wait: values.wait,
        plain: is_used(matches, "-U"),
        newline: is_used(matches, "-w"),
        content_format: values.content_format,
        accept: values.accept,
        option: extra,
        payload,
        input,
        output,
        log,
    })
}

/// Returns the plan for the options that `clap` found, or the error `Target`, `Value`, `Clash` or `Memory`.
#[tactic(auto, unfolding(crate::specs::ClientWords::client_plan_in))]
pub(super) fn client_plan(alloc: Global, matches: &ArgMatches<'_>) -> Result<ClientPlan, WordsFault>
    ensures { GivesClientPlan (spec.client_plan_in (rows_of (found_of matches.now))) result }
{
    let target = match parse_target(alloc, matches) {
        Ok(target) => target,
        Err(TargetFault::Memory) => return Err(WordsFault::Memory),
        Err(fault) => return Err(WordsFault::Target(fault)),
    };
    let values = request_values(matches)?;
    let extra = extra(alloc, matches)?;
    let log = log(matches)?;
    if clashes(matches, &values) {
        return Err(WordsFault::Clash);
    }
    Ok(plan_with(alloc, matches, target, values, extra, log)?)
}
