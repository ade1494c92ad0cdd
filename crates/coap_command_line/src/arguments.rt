//! Parsers of the command lines of the programs.

ghost use Rattle.std.specs.Prelude.{map, option_map, ◌≡◌, ◌<◌, ◌≤◌, ◌+◌, ◌^◌, IfOk};
ghost use Rattle.coap_command_line.specs.Prelude.{IsClientPlan, IsServerPlan, is_help_or_version, words_fault_number};
ghost use Rattle.coap_command_line.specs.Reasons.{line_of};
ghost use Rattle.coap_command_line.specs.Reasons as spec;

pub(crate) mod applications;
mod client;
mod commands;
pub(crate) mod directory;
pub(crate) mod explain;
mod option_values;
mod reasons;
mod server;
mod tables;

use crate::server_plan::ServerPlan;
use clap::Error as UsageError;
use clap::error::ErrorKind;
use client::client_plan;
use coap_client_request::{ClientPlan, TargetFault};
use coap_print::Line;
use commands::matches_in;
use option_values::BadValue;
use reasons::{client_line, server_line};
use server::server_plan;
use std::alloc::{AllocError, Global};
use std::convert::AsStr;
pub use tables::VERSION;
use tables::{ABOUT_CLIENT, ABOUT_SERVER, CLIENT, SERVER};
use thiserror::Error;

/// Error of a command line. Its `Display` is the line for the user, without the program's name.
#[derive(Debug, Drop, Error)]
pub enum WordsFault {
    /// Unknown or missing arguments, or a request for help or for the version. The error of `clap` gives the kind, and
    /// its `Display` is the text for the user.
    #[error("{0}")]
    Usage(UsageError),
    /// URI that is no target.
    #[error("bad target {}", *.0 as u8)]
    Target(TargetFault),
    /// Invalid value of the option with this name: malformed or out of range. If there are several, this is the first
    /// one in the order of the usage line.
    #[error("bad value for {0}")]
    Value(&'static str),
    /// Two options that exclude each other.
    #[error("options exclude each other")]
    Clash,
    /// Failure of an allocation.
    #[error("no memory")]
    Memory,
}

impl WordsFault {
    /// Returns the number of the error, 1 to 5.
    pub const fn number(&self) -> u8
        ensures { result ≡ words_fault_number self.now }
    {
        match self {
            WordsFault::Usage(_) => 1,
            WordsFault::Target(_) => 2,
            WordsFault::Value(_) => 3,
            WordsFault::Clash => 4,
            WordsFault::Memory => 5,
        }
    }

    /// Returns `true` if the arguments ask for help or for the version. This is no mistake, and the text of `Display`
    /// belongs on standard output.
    pub fn is_help_or_version(&self) -> bool
        ensures { result ≡ is_help_or_version self.now }
    {
        match self {
            WordsFault::Usage(error) => matches!(
                error.kind(),
                ErrorKind::DisplayHelp | ErrorKind::DisplayVersion
            ),
            _ => false,
        }
    }
}

impl From<BadValue> for WordsFault {
    ghost use Rattle.std.specs.Prelude.{◌≡◌};
    ghost use Rattle.coap_command_line.specs.declared.arguments.WordsFault.TheVariants.{Value};

    ghost from_gives = { λ bad fault. fault ≡ Value bad.option };

    fn from(bad: BadValue) -> WordsFault {
        WordsFault::Value(bad.option)
    }
}

impl From<AllocError> for WordsFault {
    ghost use Rattle.std.specs.Prelude.{◌≡◌};
    ghost use Rattle.coap_command_line.specs.declared.arguments.WordsFault.TheVariants.{Memory};

    ghost from_gives = { λ _ fault. fault ≡ Memory };

    fn from(_error: AllocError) -> WordsFault {
        WordsFault::Memory
    }
}

/// Parses the arguments of `coap-server`, without the program's name, and returns the plan.
///
/// # Errors
///
/// The first that applies, except that `Memory` can come before any other:
///
/// - `Usage`: `clap` rejects the arguments, or they ask for help or for the version.
/// - `Value`: the value of an option is malformed or out of range.
/// - `Clash`: both `--stdio` and `--script` are given, an option with a mode that excludes it, `--record-limit` without
///   `--record`, or `--application` without `--script`.
/// - `Memory`: allocation failed.
pub fn server_words<'a, S: AsStr>(alloc: Global, words: &'a [S]) -> Result<ServerPlan, WordsFault>
    ensures plan { IsServerPlan (map S.text words.entry.now) result }
    ensures id_left { IfOk result (λ plan. plan.starts.ids + 1 < 2 ^ 64) }
    ensures limit { IfOk result (λ plan. 1 ≤ plan.record_limit) }
{
    let matches = match matches_in(alloc, "coap-server", ABOUT_SERVER, SERVER, words) {
        Ok(matches) => matches,
        Err(fault) => return Err(fault),
    };
    server_plan(alloc, &matches)
}

/// Parses the arguments of `coap-client`, without the program's name, and returns the plan.
///
/// # Errors
///
/// The first that applies, except that `Memory` can come before any other:
///
/// - `Usage`: `clap` rejects the arguments, or they ask for help or for the version.
/// - `Target`: the URI is no target.
/// - `Value`: the value of an option is malformed or out of range.
/// - `Clash`: both `-e` and `-f` are given, or `-s` with another method than GET.
/// - `Memory`: allocation failed.
///
/// # Examples
///
/// ```
/// let words = ["-m", "put", "-e", "21.5", "coap+tcp://127.0.0.1/heat"];
/// let plan = client_words(rt.alloc(), &words)?;
/// assert!(&rt; plan.method == Method::Put);
/// assert!(&rt; plan.payload.as_slice() == b"21.5".as_slice());
/// assert!(&rt; plan.target.host() == b"127.0.0.1".as_slice());
/// ```
pub fn client_words<'a, S: AsStr>(alloc: Global, words: &'a [S]) -> Result<ClientPlan, WordsFault>
    ensures { IsClientPlan (map S.text words.entry.now) result }
{
    let matches = match matches_in(alloc, "coap-client", ABOUT_CLIENT, CLIENT, words) {
        Ok(matches) => matches,
        Err(fault) => return Err(fault),
    };
    client_plan(alloc, &matches)
}

/// Returns the reason for an error that `server_words` reported for these arguments: a line with what was given and
/// what is allowed. There is no reason for arguments that `clap` rejects, and none for a failed allocation.
///
/// # Errors
///
/// Returns `AllocError` if allocation fails.
pub fn server_reason<'a, S: AsStr>(
    alloc: Global,
    words: &'a [S],
    fault: &WordsFault,
) -> Result<Option<Line>, AllocError>
    ensures { IfOk result
        (λ line. line ≡ option_map line_of (spec.server_reason (map S.text words.entry.now) fault.now)) }
{
    match matches_in(alloc, "coap-server", ABOUT_SERVER, SERVER, words) {
        Ok(matches) => server_line(alloc, &matches, fault),
        Err(WordsFault::Usage(_)) => Ok(None),
        Err(_) => Err(AllocError),
    }
}

/// Returns the reason for an error that `client_words` reported for these arguments: a line with what was given and
/// what is allowed. There is no reason for arguments that `clap` rejects, and none for a failed allocation.
///
/// # Errors
///
/// Returns `AllocError` if allocation fails.
pub fn client_reason<'a, S: AsStr>(
    alloc: Global,
    words: &'a [S],
    fault: &WordsFault,
) -> Result<Option<Line>, AllocError>
    ensures { IfOk result
        (λ line. line ≡ option_map line_of (spec.client_reason (map S.text words.entry.now) fault.now)) }
{
    match matches_in(alloc, "coap-client", ABOUT_CLIENT, CLIENT, words) {
        Ok(matches) => Ok(client_line(&matches, fault)),
        Err(WordsFault::Usage(_)) => Ok(None),
        Err(_) => Err(AllocError),
    }
}
