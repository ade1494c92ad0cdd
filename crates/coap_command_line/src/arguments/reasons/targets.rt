//! Reasons for a URI that is no target.
#![tactic(auto, using(crate::proofs::ReasonLemmas::pieces))]

ghost use Rattle.std.specs.Prelude.{◌≡◌, ◌++◌, true, option_map};
ghost use Rattle.std.specs.List.{list_any};
ghost use Rattle.coap_command_line.specs.Prelude.{is_text, appended, escaped_text, LINE_LENGTH};
ghost use Rattle.coap_command_line.specs.Reasons as spec;

use crate::arguments::option_values::{after, before};
use crate::arguments::reasons::{append_given, around, line_of};
use coap_client_request::TargetFault;
use coap_print::Line;

/// Returns the reason for a URI that is no target.
#[tactic(auto, unfolding(crate::specs::Reasons::target_reason))]
pub(super) fn target_line(fault: TargetFault, uri: &[u8]) -> Option<Line>
    ensures { result ≡ option_map spec.line_of (spec.target_reason fault uri.now) }
{
    match fault {
        TargetFault::Url => Some(url_line(uri)),
        TargetFault::Scheme => Some(scheme_line(before(uri, b':'))),
        TargetFault::NoHost => Some(with_given("the host is missing in ", uri)),
        TargetFault::UserInfo => Some(line_of(
            "a user name or a password in a target is not supported",
        )),
        TargetFault::Fragment => Some(fragment_line(after(uri, b'#'))),
        TargetFault::PartTooLong => Some(line_of(
            "the host and each segment and argument have at most 255 bytes after decoding",
        )),
        TargetFault::TooManyParts => Some(line_of(
            "a target has at most 16 segments and 16 arguments",
        )),
        TargetFault::Memory => None,
    }
}

/// Returns the line with this text, followed by a text of the user.
fn with_given(text: &str, given: &[u8]) -> Line
    requires { is_text text.now ≡ true }
    ensures { result ≡ spec.line_of (text.now ++ spec.given_text given.now) }
{
    let mut line = Line::new();
    line.text(text);
    append_given(&mut line, given);
    line
}

/// Returns `true` if a text has a percent sign.
fn has_percent(bytes: &[u8]) -> bool
    ensures { result ≡ list_any spec.is_percent bytes.now }
{
    bytes.iter().any(|byte| *byte == b'%')
}

/// Returns `true` if the host of a URI is in brackets and has a percent sign.
#[tactic(auto, unfolding(crate::specs::Reasons::has_zone))]
fn has_zone(uri: &[u8]) -> bool
    ensures { result ≡ spec.has_zone uri.now }
{
    let rest = after(uri, b':');
    if !rest.starts_with(b"//[") {
        return false;
    }
    has_percent(before(before(&rest[3..], b'/'), b']'))
}

/// Returns the line for a URI that the crate `url` rejects.
#[tactic(auto, unfolding(crate::specs::Reasons::url_text))]
fn url_line(uri: &[u8]) -> Line
    ensures { result ≡ spec.line_of (spec.url_text uri.now) }
{
    if has_zone(uri) {
        line_of("a zone such as %eth0 in an IPv6 address is not supported")
    } else if uri.starts_with(b"coap+tcp://") {
        with_given("the host or the port is invalid in ", uri)
    } else {
        with_given(
            "the target is a URI such as coap+tcp://127.0.0.1/time, not ",
            uri,
        )
    }
}

/// Returns the line for a scheme.
#[tactic(auto, unfolding(crate::specs::Reasons::scheme_text))]
fn scheme_line(scheme: &[u8]) -> Line
    ensures { result ≡ spec.line_of (spec.scheme_text scheme.now) }
{
    if scheme == b"coaps+tcp".as_slice() {
        around(
            "the scheme is ",
            scheme,
            "; only coap+tcp is supported (see TLS in the manual)",
        )
    } else {
        around("the scheme is ", scheme, "; only coap+tcp is supported")
    }
}

/// Returns the line for a fragment, without its hash.
#[tactic(auto, unfolding(crate::specs::Reasons::fragment_text))]
fn fragment_line(fragment: &[u8]) -> Line
    ensures { result ≡ spec.line_of (spec.fragment_text fragment.now) }
{
    around(
        "the fragment #",
        fragment,
        " is not supported; write %23 for # in a path or a query",
    )
}
