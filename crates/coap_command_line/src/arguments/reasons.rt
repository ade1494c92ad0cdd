//! Reasons for refused command lines: the second line of an error, which says what was given and what is allowed.
#![tactic(auto, using(crate::proofs::ReasonLemmas::pieces))]

ghost use Rattle.std.specs.Prelude.{◌≡◌, ◌++◌, [], true, decimal, map, option_map, IfOk, IfSome};
ghost use Rattle.coap_command_line.specs.Prelude.{found_of, rows_of, is_text, appended, escaped_text, LINE_LENGTH};
ghost use Rattle.coap_command_line.specs.Prelude.{applications_said, refused_value};
ghost use Rattle.coap_command_line.specs.Reasons as spec;
ghost use Rattle.coap_command_line.specs.ExplainWords.{explain_reason_in, explain_values};
ghost use Rattle.coap_command_line.specs.DirectoryWords.{directory_reason_in, directory_values};

mod targets;

use crate::arguments::WordsFault;
use crate::arguments::applications::{EntryFault, applications};
use crate::arguments::option_values::{is_used, number, text_of};
use crate::arguments::server::{lacks_record, records_to_output};
use crate::arguments::tables::{
    CLIENT_VALUES, DIRECTORY_VALUES, ENTRY, EXPLAIN_VALUES, SERVER_VALUES, ValueRow,
};
use clap::ArgMatches;
use coap_print::Line;
use coap_wire::{BASE_MESSAGE_SIZE, LARGEST_SENT_MESSAGE};
use std::alloc::{AllocError, Global};
use targets::target_line;

/// Returns the reason for an error of the server, from the options that `clap` found.
///
/// # Errors
///
/// Returns `AllocError` if allocation fails.
pub(super) fn server_line(
    alloc: Global,
    matches: &ArgMatches<'_>,
    fault: &WordsFault,
) -> Result<Option<Line>, AllocError>
    ensures { IfOk result (λ line. line
        ≡ option_map spec.line_of (spec.server_reason_in (rows_of (found_of matches.now)) fault.now)) }
{
    match fault {
        WordsFault::Value(name) => server_value(alloc, matches, name),
        WordsFault::Clash => Ok(Some(line_of(server_clash(matches)))),
        _ => Ok(None),
    }
}

/// Returns the reason for an error of the client, from the options that `clap` found.
#[tactic(auto, unfolding(crate::specs::ClientWords::uri_said))]
pub(super) fn client_line(matches: &ArgMatches<'_>, fault: &WordsFault) -> Option<Line>
    ensures { result ≡ option_map spec.line_of (spec.client_reason_in (rows_of (found_of matches.now)) fault.now) }
{
    match fault {
        WordsFault::Target(fault) => target_line(*fault, given_for(matches, "URI").as_bytes()),
        WordsFault::Value(name) => client_value(matches, name),
        WordsFault::Clash => Some(client_clash(matches)),
        _ => None,
    }
}

/// Returns the reason for an error of `coap-explain`, from the options that `clap` found.
pub(super) fn explain_line(matches: &ArgMatches<'_>, fault: &WordsFault) -> Option<Line>
    ensures { result ≡ option_map spec.line_of (explain_reason_in (rows_of (found_of matches.now)) fault.now) }
{
    match fault {
        WordsFault::Value(name) => row_line(EXPLAIN_VALUES, name, given_for(matches, name)),
        _ => None,
    }
}

/// Returns the reason for an error of `coap-directory`, from the options that `clap` found.
pub(super) fn directory_line(matches: &ArgMatches<'_>, fault: &WordsFault) -> Option<Line>
    ensures { result ≡ option_map spec.line_of (directory_reason_in (rows_of (found_of matches.now)) fault.now) }
{
    match fault {
        WordsFault::Value(name) => row_line(DIRECTORY_VALUES, name, given_for(matches, name)),
        WordsFault::Clash => Some(line_of(LIMIT_ALONE)),
        _ => None,
    }
}

/// Returns the line with this text.
fn line_of(text: &str) -> Line
    requires { is_text text.now ≡ true }
    ensures { result ≡ spec.line_of text.now }
{
    let mut line = Line::new();
    line.text(text);
    line
}

/// Returns the line with a text of the user between two others.
fn around(first: &str, given: &[u8], last: &str) -> Line
    requires first { is_text first.now ≡ true }
    requires last { is_text last.now ≡ true }
    ensures { result ≡ spec.line_of (first.now ++ escaped_text given.now ++ last.now) }
{
    let mut line = Line::new();
    line.text(first);
    line.escaped(given);
    line.text(last);
    line
}

/// Appends a text of the user.
fn append_given(line: &mut Line, given: &[u8])
    ensures { line.new ≡ appended LINE_LENGTH line.old (spec.given_text given.now) }
{
    if given.is_empty() {
        line.text("an empty text");
    } else {
        line.escaped(given);
    }
}

/// Returns the text of an option, or an empty text if the option is not given.
fn given_for<'a>(matches: &ArgMatches<'a>, name: &str) -> &'a str
    ensures { result.now ≡ spec.given_for name.now (rows_of (found_of matches.now)) }
{
    text_of(matches, name).unwrap_or("")
}

// ---- values of options

/// Returns the row of an option in a table, if the table has the option.
#[tactic(auto, unfolding(crate::specs::Reasons::row_in))]
fn find_row(mut table: &[ValueRow], name: &str) -> Option<ValueRow>
    requires { spec.rows_are_text (map spec.value_row table.now) ≡ true }
    ensures row { option_map spec.value_row result ≡ spec.row_in (map spec.value_row table.entry.now) name.now }
    ensures option { IfSome result (λ row. is_text row.0.now ≡ true) }
    ensures allowed { IfSome result (λ row. is_text row.1.now ≡ true) }
{
    while let [row, rest @ ..] = table {
        if row.0 == name {
            return Some(*row);
        }
        table = rest;
    }
    None
}

/// Returns the line for the value of an option in a table.
fn row_line(table: &[ValueRow], name: &str, given: &str) -> Option<Line>
    requires { spec.rows_are_text (map spec.value_row table.now) ≡ true }
    ensures { result ≡ option_map spec.line_of (spec.row_text (spec.row_in (map spec.value_row table.now) name.now)
        given.now) }
{
    match find_row(table, name) {
        Some(row) => Some(value_line(row.0, row.1, given)),
        None => None,
    }
}

/// Returns the line for an option with the values that it takes, and the one that was given.
fn value_line(option: &str, allowed: &str, given: &str) -> Line
    requires option { is_text option.now ≡ true }
    requires allowed { is_text allowed.now ≡ true }
    ensures { result ≡ spec.line_of (spec.value_text option.now allowed.now given.now) }
{
    let mut line = Line::new();
    line.text(option);
    line.text(" takes ");
    line.text(allowed);
    line.text(", not ");
    append_given(&mut line, given.as_bytes());
    line
}

/// Returns the minimum of `--queue`, which is the value of `--max-sent`.
#[tactic(auto, unfolding(crate::specs::Reasons::least_queue))]
fn least_queue(matches: &ArgMatches<'_>) -> u64
    ensures { result ≡ spec.least_queue (rows_of (found_of matches.now)) }
{
    let largest = LARGEST_SENT_MESSAGE as u64;
    match number(
        matches,
        "--max-sent",
        BASE_MESSAGE_SIZE as u64,
        largest,
        largest,
    ) {
        Ok(least) => least,
        Err(_) => largest,
    }
}

/// Returns the line for an option with its minimum and the rest of the values that it takes, and the value
/// that was given.
fn least_line(option: &str, least: u64, rest: &str, given: &str) -> Line
    requires option { is_text option.now ≡ true }
    requires rest { is_text rest.now ≡ true }
    ensures { result ≡ spec.line_of (spec.value_text option.now (decimal least ++ rest.now) given.now) }
{
    let mut line = Line::new();
    line.text(option);
    line.text(" takes ");
    line.number(least);
    line.text(rest);
    line.text(", not ");
    append_given(&mut line, given.as_bytes());
    line
}

/// Returns the line for `--queue`, with its minimum.
#[tactic(auto, unfolding(crate::specs::Reasons::queue_text))]
fn queue_line(least: u64, given: &str) -> Line
    ensures { result ≡ spec.line_of (spec.queue_text least given.now) }
{
    least_line("--queue", least, " (--max-sent) to 4194304 bytes", given)
}

/// Returns the line for a value of `--application`.
#[tactic(auto, unfolding(crate::specs::Reasons::application_text))]
fn application_line(given: &str) -> Line
    ensures { result ≡ spec.line_of (spec.application_text given.now) }
{
    value_line("--application", ENTRY, given)
}

/// Returns the reason for the values of `--application`, with the first one that names no entry.
///
/// # Errors
///
/// Returns `AllocError` if allocation fails.
fn application_value(alloc: Global, matches: &ArgMatches<'_>) -> Result<Option<Line>, AllocError>
    ensures { IfOk result (λ line. line ≡ option_map spec.line_of (option_map spec.application_text
        (refused_value (applications_said (rows_of (found_of matches.now)))))) }
{
    match applications(alloc, matches) {
        Ok(_) => Ok(None),
        Err(EntryFault::Refused(text)) => Ok(Some(application_line(text))),
        Err(EntryFault::Memory) => Err(AllocError),
    }
}

/// Returns the reason for the value of an option of the server.
///
/// # Errors
///
/// Returns `AllocError` if allocation fails.
#[tactic(auto, unfolding(crate::specs::Reasons::server_value))]
fn server_value(
    alloc: Global,
    matches: &ArgMatches<'_>,
    name: &str,
) -> Result<Option<Line>, AllocError>
    ensures { IfOk result (λ line. line
        ≡ option_map spec.line_of (spec.server_value (rows_of (found_of matches.now)) name.now)) }
{
    let given = given_for(matches, name);
    if name == "--queue" {
        return Ok(Some(queue_line(least_queue(matches), given)));
    }
    if name == "--application" {
        return application_value(alloc, matches);
    }
    Ok(row_line(SERVER_VALUES, name, given))
}

/// Returns the reason for the value of an option of the client.
#[tactic(auto, unfolding(crate::specs::Reasons::client_value))]
fn client_value(matches: &ArgMatches<'_>, name: &str) -> Option<Line>
    ensures { result ≡ option_map spec.line_of (spec.client_value (rows_of (found_of matches.now)) name.now) }
{
    row_line(CLIENT_VALUES, name, given_for(matches, name))
}

// ---- options that exclude each other

/// Text for the limit of a record without a record.
const LIMIT_ALONE: &str = "--record-limit can be used only with --record";

/// Text for entries of an application without a script.
const APPLICATION_ALONE: &str = "--application can be used only with --script";

/// Returns the text for the first option that needs another one.
#[tactic(auto, unfolding(crate::specs::Reasons::alone_clash))]
fn alone_clash(matches: &ArgMatches<'_>) -> &'static str
    ensures text { result.now ≡ spec.alone_clash (rows_of (found_of matches.now)) }
    ensures printable { is_text result.now ≡ true }
{
    if lacks_record(matches) {
        LIMIT_ALONE
    } else {
        APPLICATION_ALONE
    }
}

/// Returns the text for the first option that a script excludes.
#[tactic(auto, unfolding(crate::specs::Reasons::script_clash))]
fn script_clash(matches: &ArgMatches<'_>) -> &'static str
    ensures text { result.now ≡ spec.script_clash (rows_of (found_of matches.now)) }
    ensures printable { is_text result.now ≡ true }
{
    if is_used(matches, "--stdio") {
        "--stdio and --script cannot be used together"
    } else if text_of(matches, "--log").is_some() {
        "--script and --log cannot be used together"
    } else if text_of(matches, "--idle").is_some() {
        "--script and --idle cannot be used together"
    } else if text_of(matches, "--record").is_some() {
        "--script and --record cannot be used together"
    } else {
        LIMIT_ALONE
    }
}

/// Returns the text for the first option that standard input and output exclude.
#[tactic(auto, unfolding(crate::specs::Reasons::stdio_clash))]
fn stdio_clash(matches: &ArgMatches<'_>) -> &'static str
    ensures text { result.now ≡ spec.stdio_clash (rows_of (found_of matches.now)) }
    ensures printable { is_text result.now ≡ true }
{
    if text_of(matches, "--idle").is_some() {
        "--stdio and --idle cannot be used together"
    } else if records_to_output(matches) {
        "--stdio and --record - cannot be used together"
    } else {
        alone_clash(matches)
    }
}

/// Returns the text for the first option that a server which listens excludes.
#[tactic(auto, unfolding(crate::specs::Reasons::listener_clash))]
fn listener_clash(matches: &ArgMatches<'_>) -> &'static str
    ensures text { result.now ≡ spec.listener_clash (rows_of (found_of matches.now)) }
    ensures printable { is_text result.now ≡ true }
{
    if text_of(matches, "--starts").is_some() {
        "--starts can be used only with --stdio or --script"
    } else {
        alone_clash(matches)
    }
}

/// Returns the text for the first two options of the server that exclude each other, or for the first one that needs
/// another option.
#[tactic(auto, unfolding(crate::specs::Reasons::server_clash))]
fn server_clash(matches: &ArgMatches<'_>) -> &'static str
    ensures text { result.now ≡ spec.server_clash (rows_of (found_of matches.now)) }
    ensures printable { is_text result.now ≡ true }
{
    if text_of(matches, "--script").is_some() {
        script_clash(matches)
    } else if is_used(matches, "--stdio") {
        stdio_clash(matches)
    } else {
        listener_clash(matches)
    }
}

/// Returns the line for an observation with a method other than get.
#[tactic(auto, unfolding(crate::specs::Reasons::method_text))]
fn method_line(method: &[u8]) -> Line
    ensures { result ≡ spec.line_of (spec.method_text method.now) }
{
    around("-s cannot be used with -m ", method, ", only with -m get")
}

/// Returns the reason for two options of the client that exclude each other.
#[tactic(auto, unfolding(crate::specs::Reasons::client_clash))]
fn client_clash(matches: &ArgMatches<'_>) -> Line
    ensures { result ≡ spec.line_of (spec.client_clash (rows_of (found_of matches.now))) }
{
    if text_of(matches, "-e").is_some() && text_of(matches, "-f").is_some() {
        return line_of("-e and -f cannot be used together");
    }
    method_line(given_for(matches, "-m").as_bytes())
}
