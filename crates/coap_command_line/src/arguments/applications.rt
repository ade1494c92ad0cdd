//! Entries of the application that the values of `--application` name.

ghost use Rattle.std.specs.Prelude.{◌≡◌, IfOk, map, option_map};
ghost use Rattle.coap_command_line.specs.Prelude.{found_of, rows_of, AddsText, GivesEntries};
ghost use Rattle.coap_command_line.specs.ApplicationWords as spec;

use crate::arguments::option_values::{after, before, named_value, texts_of};
use clap::ArgMatches;
use coap_path::{ApplicationFault, Applications};
use coap_script::path_in;
use coap_text::{number_in, split_once};
use coap_wire::Code;
use std::alloc::{AllocError, Global};

/// Number of seconds that the application has for a response.
const DEADLINE: u32 = 60;

/// Error of the values of `--application`.
#[derive(Clone, Copy)]
pub enum EntryFault<'a> {
    /// First value that names no entry, or an entry that `Applications::add` rejects.
    Refused(&'a str),
    /// Failure of an allocation.
    Memory,
}

/// Returns the code in a text such as `0.08`: that of a method.
#[tactic(auto, unfolding(crate::specs::ApplicationWords::code_in, crate::specs::CommandLines::number_within))]
fn code_in(text: &[u8]) -> Option<Code>
    ensures { result ≡ spec.code_in text.now }
{
    let [class, point, digits @ ..] = text else {
        return None;
    };
    if *class != b'0' || *point != b'.' || digits.len() != 2 {
        return None;
    }
    let number = number_in(digits)?;
    if number < 1 || number > 31 {
        return None;
    }
    Some(Code::new(number as u8))
}

/// Bytes of the codes of methods, by their names.
const METHODS: &[(&str, u8)] = &[
    ("get", 1),
    ("post", 2),
    ("put", 3),
    ("delete", 4),
    ("fetch", 5),
    ("patch", 6),
    ("ipatch", 7),
];

/// Returns the code of a method: of the one with this name, or the code in the text.
#[tactic(auto, unfolding(crate::specs::ApplicationWords::method_in, crate::specs::CommandLines::named_value))]
fn method_in(text: &[u8]) -> Option<Code>
    ensures { result ≡ spec.method_in text.now }
{
    match named_value(METHODS, text) {
        Some(byte) => Some(Code::new(byte)),
        None => code_in(text),
    }
}

/// Returns the codes of the methods in a text, which are separated by commas, or `None` if one of them is no method.
///
/// # Errors
///
/// Returns `AllocError` if allocation fails.
fn methods_in(alloc: Global, text: &[u8]) -> Result<Option<Vec<Code>>, AllocError>
    ensures { IfOk result (λ found. option_map (λ v. v.items) found ≡ spec.methods_in text.now) }
{
    let mut methods = Vec::new(alloc);
    let mut left = text;
    while let Some((name, rest)) = split_once(left, b',') {
        let Some(code) = method_in(name) else {
            return Ok(None);
        };
        methods.push(code)?;
        left = rest;
    }
    let Some(code) = method_in(left) else {
        return Ok(None);
    };
    methods.push(code)?;
    Ok(Some(methods))
}

/// Adds the entry that a value names. Returns `false` if it names none, or if `Applications::add` rejects the entry.
///
/// # Errors
///
/// Returns `AllocError` if allocation fails.
#[tactic(auto, unfolding(crate::specs::ApplicationWords::with_text))]
fn add_text(alloc: Global, entries: &mut Applications, text: &[u8]) -> Result<bool, AllocError>
    ensures { IfOk result (λ added. AddsText added entries.old entries.new (spec.with_text entries.old text.now)) }
{
    let rest = after(text, b';');
    let Some(path) = path_in(alloc, before(text, b';'))? else {
        return Ok(false);
    };
    let Some(methods) = methods_in(alloc, before(rest, b';'))? else {
        return Ok(false);
    };
    match entries.add(&path, &methods, after(rest, b';')) {
        Ok(()) => Ok(true),
        Err(ApplicationFault::Memory) => Err(AllocError),
        Err(_) => Ok(false),
    }
}

/// Returns the entries that texts in the form of `--application` name, in order. The application has 60 seconds for a
/// response.
///
/// # Errors
///
/// - `Refused`: a text names no entry, or `Applications::add` rejects the entry.
/// - `Memory`: allocation failed.
pub fn entries_in<'a>(alloc: Global, texts: &[&'a str]) -> Result<Applications, EntryFault<'a>>
    ensures { GivesEntries (spec.with_texts spec.no_entries (map (λ t. t.now) texts.now)) result }
{
    let Ok(mut entries) = Applications::new(alloc, DEADLINE) else {
        return Err(EntryFault::Memory);
    };
    for text in texts {
        let Ok(added) = add_text(alloc, &mut entries, text.as_bytes()) else {
            return Err(EntryFault::Memory);
        };
        if !added {
            return Err(EntryFault::Refused(*text));
        }
    }
    Ok(entries)
}

/// Returns the entries of the application, or `None` if the option is not given.
#[tactic(auto, using(crate::proofs::ApplicationLemmas::found_refused), unfolding(crate::specs::ApplicationWords::applications_said))]
pub(super) fn applications<'a>(
    alloc: Global,
    matches: &ArgMatches<'a>,
) -> Result<Option<Applications>, EntryFault<'a>>
    ensures { GivesEntries (spec.applications_said (rows_of (found_of matches.now))) result }
{
    let Some(texts) = texts_of(matches, "--application") else {
        return Ok(None);
    };
    match entries_in(alloc, texts) {
        Ok(entries) => Ok(Some(entries)),
        Err(fault) => Err(fault),
    }
}
