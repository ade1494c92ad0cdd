//! The command line of `coap-directory`.

ghost use Rattle.std.specs.Prelude.{◌≡◌, ◌≤◌, IfOk, codes, map, option_map};
ghost use Rattle.coap_command_line.specs.Prelude.{found_of, rows_of, named};
ghost use Rattle.coap_command_line.specs.DirectoryWords.{IsDirectoryPlan, GivesDirectoryPlan};
ghost use Rattle.coap_command_line.specs.DirectoryWords as spec;
ghost use Rattle.coap_command_line.specs.Reasons.{line_of};

use crate::arguments::WordsFault;
use crate::arguments::commands::matches_in;
use crate::arguments::option_values::{BadValue, file_name, log, number};
use crate::arguments::reasons::directory_line;
use crate::arguments::server::{address, check_record, lacks_record};
use crate::arguments::tables::{ABOUT_DIRECTORY, DIRECTORY};
use clap::ArgMatches;
use coap_print::{Line, LogLevel};
use std::alloc::{AllocError, Global};
use std::convert::AsStr;
use std::net::IpAddr;

/// Settings of a run of `coap-directory`.
#[derive(Drop)]
pub struct DirectoryPlan {
    /// Address to listen at.
    pub address: IpAddr,
    /// Port to listen at.
    pub port: u16,
    /// Maximum number of connections, 1 to 256.
    pub connections: usize,
    /// Maximum number of registrations, 1 to 100,000.
    pub registrations: usize,
    /// Level of the log on standard error.
    pub log: LogLevel,
    /// Maximum time in seconds that a connection may be silent, or 0 if there is no limit.
    pub idle: u32,
    /// Name of the file of the record, `-` for standard output, or `None` for a run without a record.
    pub record: Option<String>,
    /// Size in bytes at which the record ends, at least 1. A run without a record does not use it.
    pub record_limit: u64,
}

/// Values of all options except `--record`, which names a file.
#[derive(Clone, Copy)]
struct DirectoryValues {
    address: IpAddr,
    port: u16,
    connections: usize,
    registrations: usize,
    log: LogLevel,
    idle: u32,
    record_limit: u64,
}

/// Returns the values of all options except `--record`, whose text is only checked.
///
/// # Errors
///
/// Returns `BadValue` for the first option whose text is malformed or out of range, in the order of the usage line.
#[tactic(auto, unfolding(crate::specs::DirectoryWords::directory_said))]
fn directory_values(matches: &ArgMatches<'_>) -> Result<DirectoryValues, BadValue>
    ensures values { named result ≡ spec.directory_said (rows_of (found_of matches.now)) }
    ensures connections { IfOk result (λ values. (1 ≤ values.connections) × (values.connections ≤ 256)) }
    ensures registrations { IfOk result (λ values. (1 ≤ values.registrations) × (values.registrations ≤ 100000)) }
    ensures limit { IfOk result (λ values. 1 ≤ values.record_limit) }
{
    let address = address(matches)?;
    let port = number(matches, "-p", 1, 65_535, 5_683)?;
    let connections = number(matches, "--connections", 1, 256, 16)?;
    let registrations = number(matches, "--registrations", 1, 100_000, 1_000)?;
    let log = log(matches)?;
    let idle = number(matches, "--idle", 0, 4_294_967_295, 0)?;
    check_record(matches)?;
    let record_limit = number(matches, "--record-limit", 1, u64::MAX, 1_073_741_824)?;
    Ok(DirectoryValues {
        address,
        port: port as u16,
        connections: connections as usize,
        registrations: registrations as usize,
        log,
        idle: idle as u32,
        record_limit,
    })
}

/// Returns the plan for the options that `clap` found, or the error `Value`, `Clash` or `Memory`.
#[tactic(auto, unfolding(crate::specs::DirectoryWords::directory_plan_in))]
fn directory_plan(alloc: Global, matches: &ArgMatches<'_>) -> Result<DirectoryPlan, WordsFault>
    ensures plan { GivesDirectoryPlan (spec.directory_plan_in (rows_of (found_of matches.now))) result }
    ensures connections { IfOk result (λ plan. (1 ≤ plan.connections) × (plan.connections ≤ 256)) }
    ensures registrations { IfOk result (λ plan. (1 ≤ plan.registrations) × (plan.registrations ≤ 100000)) }
    ensures limit { IfOk result (λ plan. 1 ≤ plan.record_limit) }
{
    let values = directory_values(matches)?;
    if lacks_record(matches) {
        return Err(WordsFault::Clash);
    }
    let record = file_name(alloc, matches, "--record")?;
    Ok(DirectoryPlan {
        address: values.address,
        port: values.port,
        connections: values.connections,
        registrations: values.registrations,
        log: values.log,
        idle: values.idle,
        record,
        record_limit: values.record_limit,
    })
}

/// Parses the arguments of `coap-directory`, without the program's name, and returns the plan.
///
/// # Errors
///
/// The first that applies, except that `Memory` can come before any other:
///
/// - `Usage`: `clap` rejects the arguments, or they ask for help or for the version.
/// - `Value`: the value of an option is malformed or out of range.
/// - `Clash`: `--record-limit` is given without `--record`.
/// - `Memory`: allocation failed.
pub fn directory_words<'a, S: AsStr>(
    alloc: Global,
    words: &'a [S],
) -> Result<DirectoryPlan, WordsFault>
    ensures plan { IsDirectoryPlan (map S.text words.entry.now) result }
    ensures connections { IfOk result (λ plan. (1 ≤ plan.connections) × (plan.connections ≤ 256)) }
    ensures registrations { IfOk result (λ plan. (1 ≤ plan.registrations) × (plan.registrations ≤ 100000)) }
    ensures limit { IfOk result (λ plan. 1 ≤ plan.record_limit) }
{
    let matches = match matches_in(alloc, "coap-directory", ABOUT_DIRECTORY, DIRECTORY, words) {
        Ok(matches) => matches,
        Err(fault) => return Err(fault),
    };
    directory_plan(alloc, &matches)
}

/// Returns the reason for an error that `directory_words` reported for these arguments: a line with what was given and
/// what is allowed. There is no reason for arguments that `clap` rejects, and none for a failed allocation.
///
/// # Errors
///
/// Returns `AllocError` if allocation fails.
pub fn directory_reason<'a, S: AsStr>(
    alloc: Global,
    words: &'a [S],
    fault: &WordsFault,
) -> Result<Option<Line>, AllocError>
    ensures { IfOk result
        (λ line. line ≡ option_map line_of (spec.directory_reason (map S.text words.entry.now) fault.now)) }
{
    match matches_in(alloc, "coap-directory", ABOUT_DIRECTORY, DIRECTORY, words) {
        Ok(matches) => Ok(directory_line(&matches, fault)),
        Err(WordsFault::Usage(_)) => Ok(None),
        Err(_) => Err(AllocError),
    }
}
