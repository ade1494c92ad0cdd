//! The options in the header of a record.

ghost use Rattle.std.specs.Prelude.{◌≡◌, Some, map, option_map, IfOk, IfSome, IfNone};
ghost use Rattle.program_explain.specs.Header.{AreUtf8, IsConfigured};
ghost use Rattle.program_explain.specs.Header as spec;
ghost use Rattle.coap_server_engine.specs.values.Servers.{new_server};

use coap_command_line::{WordsFault, server_reason, server_words};
use coap_model::Config;
use coap_path::Applications;
use coap_print::Line;
use coap_server_engine::Server;
use coap_text::split_once;
use program_server_common::config_in;
use std::alloc::{AllocError, Global};
use std::str;

/// Words before those of the header: the server runs a script.
const SCRIPT: [&str; 2] = ["--script", "-"];

/// Text with which the line of the options begins.
const OPTIONS: &[u8; 11] = b"# options: ";

/// Error of `config_of_options`.
#[derive(Clone, Copy)]
pub(crate) enum OptionsFault {
    /// The server does not have these options.
    Refused,
    /// Allocation failed.
    Memory,
}

/// Configuration of a server that runs a record.
#[derive(Drop)]
pub(crate) struct ReplayConfig {
    /// Configuration of the server.
    pub(crate) config: Config,
    /// Entries of the requests that the application answers, if there is one.
    pub(crate) applications: Option<Applications>,
}

/// Returns a new server with a configuration.
///
/// # Errors
///
/// Returns `AllocError` if allocation fails.
pub(crate) fn server_of(alloc: Global, config: ReplayConfig) -> Result<Server, AllocError>
    ensures { IfOk result (λ server. server ≡ new_server (spec.values_of config)) }
{
    let ReplayConfig {
        config,
        applications,
    } = config;
    match applications {
        Some(applications) => Server::with_applications(alloc, config, applications),
        None => Server::new(alloc, config),
    }
}

/// Returns the options in a line of the header, or `None` if the line has none.
#[tactic(auto, unfolding(crate::specs::Header::options_in))]
pub(crate) fn options_in(line: &[u8]) -> Option<&[u8]>
    ensures { option_map (λ options. options.now) result ≡ spec.options_in line.now }
{
    line.strip_prefix(OPTIONS)
}

/// Returns the words of the command line of a server that runs a script with these options, or `None` if the options
/// are not UTF-8. Exactly one space separates two options.
///
/// # Errors
///
/// Returns `AllocError` if allocation fails.
fn words_of<'a>(alloc: Global, options: &'a [u8]) -> Result<Option<Vec<&'a str>>, AllocError>
    ensures words { IfOk result (λ found. IfSome found
        (λ words. map (λ word. word.now) words.items ≡ spec.words_of options.now)) }
    ensures none { IfOk result (λ found. IfNone found (AreUtf8 (spec.words_of options.now) → ⊥)) }
{
    let mut words = Vec::new(alloc);
    words.push("--script")?;
    words.push("-")?;
    let mut left = options;
    while let Some((word, rest)) = split_once(left, b' ') {
        let Ok(text) = str::from_utf8(word) else {
            return Ok(None);
        };
        words.push(text)?;
        left = rest;
    }
    let Ok(text) = str::from_utf8(left) else {
        return Ok(None);
    };
    words.push(text)?;
    Ok(Some(words))
}

/// Returns the configuration of a server that runs a script without options.
///
/// # Errors
///
/// Returns `AllocError` if allocation fails.
pub(crate) fn default_config(alloc: Global) -> Result<ReplayConfig, AllocError>
    ensures { IfOk result (λ config. spec.config_said spec.script_words ≡ Some (spec.values_of config)) }
{
    match config_of_words(alloc, &SCRIPT) {
        Ok(config) => Ok(config),
        Err(_) => Err(AllocError),
    }
}

/// Returns the configuration of a server that runs a script with these options.
///
/// # Errors
///
/// - `Memory`: allocation failed.
/// - `Refused`: the server does not have these options.
pub(crate) fn config_of_options(alloc: Global, options: &[u8]) -> Result<ReplayConfig, OptionsFault>
    ensures { IsConfigured spec.values_of (spec.words_of options.now) result }
{
    let Ok(found) = words_of(alloc, options) else {
        return Err(OptionsFault::Memory);
    };
    match found {
        Some(words) => config_of_words(alloc, words.as_slice()),
        None => Err(OptionsFault::Refused),
    }
}

/// Returns the configuration of a server with these arguments.
#[tactic(auto, unfolding(crate::specs::Header::config_said))]
fn config_of_words(alloc: Global, words: &[&str]) -> Result<ReplayConfig, OptionsFault>
    ensures { IsConfigured spec.values_of (map (λ word. word.now) words.now) result }
{
    match server_words(alloc, words) {
        Ok(plan) => match config_in(&plan) {
            Some(config) => Ok(ReplayConfig {
                config,
                applications: plan.applications,
            }),
            None => Err(OptionsFault::Refused),
        },
        Err(WordsFault::Memory) => Err(OptionsFault::Memory),
        Err(_) => Err(OptionsFault::Refused),
    }
}

/// Returns the reason for which a server does not have the options in a line of the header, if it is known.
pub(crate) fn options_reason(alloc: Global, line: &[u8]) -> Option<Line> {
    let options = options_in(line)?;
    let words = words_of(alloc, options).unwrap_or(None)?;
    match server_words(alloc, &words) {
        Ok(_) => None,
        Err(fault) => server_reason(alloc, &words, &fault).unwrap_or(None),
    }
}
