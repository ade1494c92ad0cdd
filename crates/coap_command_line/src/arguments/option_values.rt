//! Values of options, for all programs.

ghost use Rattle.std.specs.Prelude.{◌≡◌, ◌≤◌, IfOk, IfSome, codes, map, option_map, string_bytes};
ghost use Rattle.coap_command_line.specs.Prelude.{all_of, first_of, found_of, rows_of, Nothing};
ghost use Rattle.coap_command_line.specs.CommandLines as spec;

use clap::ArgMatches;
use coap_print::LogLevel;
use coap_text::{number_in, split_once};
use std::alloc::{AllocError, Global};
use thiserror::Error;

/// Value of an option that is malformed or out of range.
#[derive(Clone, Copy, Debug, PartialEq, Eq, Error)]
#[error("bad value for {option}")]
pub(super) struct BadValue {
    /// Name of the option.
    pub(super) option: &'static str,
}

/// Returns the text of an option, if the option is given.
#[tactic(auto, using(crate::proofs::WordLemmas::first_text))]
pub(super) fn text_of<'a>(matches: &ArgMatches<'a>, name: &str) -> Option<&'a str>
    ensures { option_map (λ s. s.now) result ≡ first_of name.now (rows_of (found_of matches.now)) }
{
    matches.get_str(name)
}

/// Returns the texts of an option that may be given several times, if the option is given.
#[tactic(auto, using(crate::proofs::WordLemmas::all_texts))]
pub(super) fn texts_of<'m, 'a>(matches: &'m ArgMatches<'a>, name: &str) -> Option<&'m [&'a str]>
    ensures { option_map (λ s. map (λ t. t.now) s.now) result ≡ all_of name.now (rows_of (found_of matches.now)) }
{
    matches.get_strs(name)
}

/// Returns the file name that is the text of an option, if the option is given.
pub(super) fn file_name(
    alloc: Global,
    matches: &ArgMatches<'_>,
    name: &str,
) -> Result<Option<String>, AllocError>
    ensures { IfOk result (λ file. option_map string_bytes file ≡ first_of name.now (rows_of (found_of matches.now))) }
{
    match text_of(matches, name) {
        Some(text) => {
            let file = String::from_str(alloc, text)?;
            Ok(Some(file))
        }
        None => Ok(None),
    }
}

/// Returns `true` if an option without a value is given.
#[tactic(auto, unfolding(crate::specs::CommandLines::is_used))]
pub(super) fn is_used(matches: &ArgMatches<'_>, name: &str) -> bool
    ensures { result ≡ spec.is_used name.now (rows_of (found_of matches.now)) }
{
    match text_of(matches, name) {
        Some(text) => text == "true",
        None => false,
    }
}

/// Returns the value of a name in a table, or `None` if the table does not have the name.
#[tactic(auto, unfolding(crate::specs::CommandLines::named_value))]
pub(super) fn named_value<T: Copy>(mut table: &[(&'static str, T)], name: &[u8]) -> Option<T>
    ensures { result ≡ spec.named_value table.entry.now name.now }
{
    while let [row, rest @ ..] = table {
        if name == row.0.as_bytes() {
            return Some(row.1);
        }
        table = rest;
    }
    None
}

/// Returns the bytes before the first separator, or all if there is none.
#[tactic(auto, unfolding(crate::specs::CommandLines::before))]
pub(super) fn before(bytes: &[u8], separator: u8) -> &[u8]
    ensures { result.now ≡ spec.before separator bytes.now }
{
    match split_once(bytes, separator) {
        Some((front, _)) => front,
        None => bytes,
    }
}

/// Returns the bytes after the first separator, or none if there is none.
#[tactic(auto, unfolding(crate::specs::CommandLines::after))]
pub(super) fn after(mut bytes: &[u8], separator: u8) -> &[u8]
    ensures { result.now ≡ spec.after separator bytes.entry.now }
{
    while let [byte, rest @ ..] = bytes {
        if *byte == separator {
            return rest;
        }
        bytes = rest;
    }
    bytes
}

/// Returns the number in a text, if the number is between `low` and `high`.
#[tactic(auto, unfolding(crate::specs::CommandLines::number_within))]
pub(super) fn number_within(text: &str, low: u64, high: u64) -> Option<u64>
    ensures value { result ≡ spec.number_within low high text.now }
    ensures bounds { IfSome result (λ n. (low ≤ n) × (n ≤ high)) }
{
    let number = number_in(text.as_bytes())?;
    if number < low || number > high {
        return None;
    }
    Some(number)
}

/// Returns the number of an option, or `unused` if the option is not given.
///
/// # Errors
///
/// Returns `BadValue` if the text of the option is no decimal number between `low` and `high`.
pub(super) fn number(
    matches: &ArgMatches<'_>,
    name: &'static str,
    low: u64,
    high: u64,
    unused: u64,
) -> Result<u64, BadValue>
    requires low { low ≤ unused }
    requires high { unused ≤ high }
    ensures value { spec.named result
        ≡ spec.option_value name.now (spec.number_within low high) unused (rows_of (found_of matches.now)) }
    ensures bounds { IfOk result (λ n. (low ≤ n) × (n ≤ high)) }
{
    match text_of(matches, name) {
        Some(text) => match number_within(text, low, high) {
            Some(number) => Ok(number),
            None => Err(BadValue { option: name }),
        },
        None => Ok(unused),
    }
}

/// Returns the level of a log in a text: a decimal number of 0 to 3.
#[tactic(auto, unfolding(crate::specs::CommandLines::level_in))]
fn level_in(text: &str) -> Option<LogLevel>
    ensures { result ≡ spec.level_in text.now }
{
    let number = number_in(text.as_bytes())?;
    LogLevel::of_number(number)
}

/// Returns the level of the log, by default `Nothing`.
///
/// # Errors
///
/// Returns `BadValue` if the text of the option is no level.
pub(super) fn log(matches: &ArgMatches<'_>) -> Result<LogLevel, BadValue>
    ensures { spec.named result
        ≡ spec.option_value (codes "--log") spec.level_in Nothing (rows_of (found_of matches.now)) }
{
    match text_of(matches, "--log") {
        Some(text) => match level_in(text) {
            Some(level) => Ok(level),
            None => Err(BadValue { option: "--log" }),
        },
        None => Ok(LogLevel::Nothing),
    }
}
