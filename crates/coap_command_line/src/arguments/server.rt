//! Options of `coap-server`.

ghost use Rattle.std.specs.Prelude.{◌≡◌, ◌<◌, ◌≤◌, ◌+◌, ◌^◌, IfOk, IfSome, Some, codes, option_map};
ghost use Rattle.coap_command_line.specs.Prelude.{found_of, rows_of, named, number_within, option_value, mode_value};
ghost use Rattle.coap_command_line.specs.Prelude.{GivesServerPlan};
ghost use Rattle.coap_command_line.specs.ServerWords as spec;

use crate::arguments::WordsFault;
use crate::arguments::applications::{EntryFault, applications};
use crate::arguments::option_values::{BadValue, file_name, is_used, log, number, text_of};
use crate::server_plan::{Mode, ServerPlan, StartCounts};
use clap::ArgMatches;
use coap_conn::Limits;
use coap_print::LogLevel;
use coap_text::{number_in, split_once};
use coap_wire::{
    BASE_MESSAGE_SIZE, DEFAULT_QUEUE, LARGEST_MESSAGE, LARGEST_QUEUE, LARGEST_SENT_MESSAGE,
};
use std::alloc::{AllocError, Global};
use std::net::{IpAddr, Ipv4Addr};

/// Values of all options except `--stdio` and `--script`, which choose a mode, `--record`, which names a file, and
/// `--application`.
#[derive(Clone, Copy)]
pub(super) struct ServerValues {
    pub(super) address: IpAddr,
    pub(super) port: u16,
    pub(super) dynamic_max: usize,
    pub(super) limits: Limits,
    pub(super) connections: usize,
    pub(super) turns: u64,
    pub(super) log: LogLevel,
    pub(super) idle: u32,
    pub(super) starts: StartCounts,
    pub(super) record_limit: u64,
}

/// Returns the numeric IP address that a text denotes, or `None` if there is none.
fn address_in(text: &str) -> Option<IpAddr>
    ensures { result ≡ spec.address_of text.now }
{
    text.parse::<IpAddr>().ok()
}

/// Returns the address to listen at, by default 0.0.0.0.
///
/// # Errors
///
/// Returns `BadValue` if the text of the option is no numeric address.
pub(super) fn address(matches: &ArgMatches<'_>) -> Result<IpAddr, BadValue>
    ensures { named result
        ≡ option_value (codes "-A") spec.address_of spec.every_address (rows_of (found_of matches.now)) }
{
    match text_of(matches, "-A") {
        Some(text) => match address_in(text) {
            Some(address) => Ok(address),
            None => Err(BadValue { option: "-A" }),
        },
        None => Ok(IpAddr::V4(Ipv4Addr::new(0, 0, 0, 0))),
    }
}

/// Returns the limits of each connection.
///
/// # Errors
///
/// Returns `BadValue` for the first option whose text is no number in its range.
#[tactic(auto, unfolding(crate::specs::ServerWords::limits_said))]
fn limits(matches: &ArgMatches<'_>) -> Result<Limits, BadValue>
    ensures { named result ≡ spec.limits_said (rows_of (found_of matches.now)) }
{
    let base = BASE_MESSAGE_SIZE as u64;
    let usual = LARGEST_SENT_MESSAGE as u64;
    let message = number(
        matches,
        "--max-message",
        base,
        LARGEST_MESSAGE as u64,
        usual,
    )?;
    let sent = number(matches, "--max-sent", base, usual, usual)?;
    let queue = number(
        matches,
        "--queue",
        sent,
        LARGEST_QUEUE as u64,
        DEFAULT_QUEUE as u64,
    )?;
    let pending = number(matches, "--pending", 0, 256, 16)?;
    let observers = number(matches, "--observers", 0, 256, 16)?;
    let Ok(limits) = Limits::new(
        message as usize,
        sent as usize,
        queue as usize,
        pending as usize,
        observers as usize,
        16,
    ) else {
        unreachable!()
    };
    Ok(limits)
}

/// Maximum number of connection ids already given. One id is left.
const MOST_IDS: u64 = u64::MAX - 1;

/// Returns the three parts of a text with exactly two commas, or `None` for another text.
#[tactic(auto, unfolding(crate::specs::ServerWords::three_in))]
fn three_parts(text: &[u8]) -> Option<(&[u8], &[u8], &[u8])>
    ensures { option_map (λ x. (x.0.now, x.1.now, x.2.now)) result ≡ spec.three_in text.now }
{
    let (first, rest) = split_once(text, b',')?;
    let (second, third) = split_once(rest, b',')?;
    match split_once(third, b',') {
        Some(_) => None,
        None => Some((first, second, third)),
    }
}

/// Returns the number of connection ids already given that a text means, if an id is left.
#[tactic(auto, unfolding(crate::specs::CommandLines::number_within))]
fn ids_in(text: &[u8]) -> Option<u64>
    ensures value { result ≡ number_within 0 18446744073709551614 text.now }
    ensures id_left { IfSome result (λ ids. ids + 1 < 2 ^ 64) }
{
    let ids = number_in(text)?;
    if ids > MOST_IDS {
        return None;
    }
    Some(ids)
}

/// Returns the start values in a text: exactly three numbers, separated by commas.
#[tactic(auto, unfolding(crate::specs::ServerWords::starts_in))]
fn starts_in(text: &str) -> Option<StartCounts>
    ensures value { result ≡ spec.starts_in text.now }
    ensures id_left { IfSome result (λ starts. starts.ids + 1 < 2 ^ 64) }
{
    let (moment, versions, ids) = three_parts(text.as_bytes())?;
    let moment = number_in(moment)?;
    let versions = number_in(versions)?;
    let ids = ids_in(ids)?;
    Some(StartCounts {
        moment,
        versions,
        ids,
    })
}

/// Returns the start values, by default three zeros.
///
/// # Errors
///
/// Returns `BadValue` if the text of the option is not three numbers in their ranges.
fn starts(matches: &ArgMatches<'_>) -> Result<StartCounts, BadValue>
    ensures value { named result
        ≡ option_value (codes "--starts") spec.starts_in spec.from_zero (rows_of (found_of matches.now)) }
    ensures id_left { IfOk result (λ starts. starts.ids + 1 < 2 ^ 64) }
{
    match text_of(matches, "--starts") {
        Some(text) => match starts_in(text) {
            Some(starts) => Ok(starts),
            None => Err(BadValue { option: "--starts" }),
        },
        None => Ok(StartCounts {
            moment: 0,
            versions: 0,
            ids: 0,
        }),
    }
}

/// Checks that the record has a name, if it is given.
///
/// # Errors
///
/// Returns `BadValue` if the text of the option is empty.
#[tactic(auto, unfolding(crate::specs::ServerWords::file_name))]
pub(super) fn check_record(matches: &ArgMatches<'_>) -> Result<(), BadValue>
    ensures { named result ≡ option_value (codes "--record") spec.file_name tt (rows_of (found_of matches.now)) }
{
    match text_of(matches, "--record") {
        Some(name) => {
            if name.is_empty() {
                return Err(BadValue { option: "--record" });
            }
            Ok(())
        }
        None => Ok(()),
    }
}

/// Returns the values of all options except `--stdio`, `--script`, `--record` and `--application`.
///
/// # Errors
///
/// Returns `BadValue` for the first option whose text is malformed or out of range, in the order of the usage line.
#[tactic(auto, unfolding(crate::specs::ServerWords::values_said))]
pub(super) fn server_values(matches: &ArgMatches<'_>) -> Result<ServerValues, BadValue>
    ensures values { named result ≡ spec.values_said (rows_of (found_of matches.now)) }
    ensures id_left { IfOk result (λ values. values.starts.ids + 1 < 2 ^ 64) }
    ensures limit { IfOk result (λ values. 1 ≤ values.record_limit) }
{
    let address = address(matches)?;
    let port = number(matches, "-p", 1, 65_535, 5_683)?;
    let dynamic_max = number(matches, "-d", 0, 1_000, 0)?;
    let limits = match limits(matches) {
        Ok(limits) => limits,
        Err(bad) => return Err(bad),
    };
    let connections = number(matches, "--connections", 1, 256, 16)?;
    let turns = number(matches, "--turns", 1, 1_000_000_000_000, 1_000_000_000_000)?;
    let log = log(matches)?;
    let idle = number(matches, "--idle", 0, 4_294_967_295, 0)?;
    let starts = starts(matches)?;
    check_record(matches)?;
    let record_limit = number(matches, "--record-limit", 1, u64::MAX, 1_073_741_824)?;
    Ok(ServerValues {
        address,
        port: port as u16,
        dynamic_max: dynamic_max as usize,
        limits,
        connections: connections as usize,
        turns,
        log,
        idle: idle as u32,
        starts,
        record_limit,
    })
}

/// Returns `true` if `--starts` is given to a server that listens.
#[tactic(auto, unfolding(crate::specs::ServerWords::starts_a_listener))]
fn starts_a_listener(matches: &ArgMatches<'_>) -> bool
    ensures { result ≡ spec.starts_a_listener (rows_of (found_of matches.now)) }
{
    text_of(matches, "--starts").is_some()
        && text_of(matches, "--script").is_none()
        && !is_used(matches, "--stdio")
}

/// Returns `true` if `--log`, `--idle` or `--starts` is given with a mode that excludes it.
#[tactic(auto, unfolding(crate::specs::ServerWords::excludes_mode))]
fn excludes_mode(matches: &ArgMatches<'_>) -> bool
    ensures { result ≡ spec.excludes_mode (rows_of (found_of matches.now)) }
{
    let idle = text_of(matches, "--idle").is_some();
    if text_of(matches, "--script").is_some() && (idle || text_of(matches, "--log").is_some()) {
        return true;
    }
    is_used(matches, "--stdio") && idle || starts_a_listener(matches)
}

/// Returns `true` if the record is standard output.
#[tactic(auto, unfolding(crate::specs::ServerWords::records_to_output))]
pub(super) fn records_to_output(matches: &ArgMatches<'_>) -> bool
    ensures { result ≡ spec.records_to_output (rows_of (found_of matches.now)) }
{
    match text_of(matches, "--record") {
        Some(name) => name == "-",
        None => false,
    }
}

/// Returns `true` if `--record-limit` is given without `--record`.
pub(super) fn lacks_record(matches: &ArgMatches<'_>) -> bool
    ensures { result ≡ spec.lacks_record (rows_of (found_of matches.now)) }
{
    text_of(matches, "--record-limit").is_some() && text_of(matches, "--record").is_none()
}

/// Returns `true` if `--record` is given with a mode that excludes it, or `--record-limit` without `--record`.
#[tactic(auto, unfolding(crate::specs::ServerWords::excludes_record))]
fn excludes_record(matches: &ArgMatches<'_>) -> bool
    ensures { result ≡ spec.excludes_record (rows_of (found_of matches.now)) }
{
    if text_of(matches, "--script").is_some() && text_of(matches, "--record").is_some() {
        return true;
    }
    if is_used(matches, "--stdio") && records_to_output(matches) {
        return true;
    }
    lacks_record(matches)
}

/// Returns `true` if `--application` is given to a server that runs no script.
#[tactic(auto, unfolding(crate::specs::ServerWords::excludes_application))]
fn excludes_application(matches: &ArgMatches<'_>) -> bool
    ensures { result ≡ spec.excludes_application (rows_of (found_of matches.now)) }
{
    text_of(matches, "--application").is_some() && text_of(matches, "--script").is_none()
}

/// Returns the mode of the server, or `None` if both `--stdio` and `--script` are given.
fn mode_in(
    alloc: Global,
    stdio: bool,
    script: Option<&str>,
    address: IpAddr,
    port: u16,
) -> Result<Option<Mode>, AllocError>
    ensures { IfOk result (λ found. option_map mode_value found ≡ spec.mode_of stdio
        (option_map (λ s. s.now) script.entry) address port) }
{
    match script {
        Some(name) => {
            if stdio {
                return Ok(None);
            }
            let name = String::from_str(alloc, name)?;
            Ok(Some(Mode::Script(name)))
        }
        None => {
            if stdio {
                return Ok(Some(Mode::Stdio));
            }
            Ok(Some(Mode::Listen(address, port)))
        }
    }
}

/// Returns the plan for the options that `clap` found, or the error `Value`, `Clash` or `Memory`.
#[tactic(auto, unfolding(crate::specs::ServerWords::server_plan_in))]
pub(super) fn server_plan(alloc: Global, matches: &ArgMatches<'_>) -> Result<ServerPlan, WordsFault>
    ensures plan { GivesServerPlan (spec.server_plan_in (rows_of (found_of matches.now))) result }
    ensures id_left { IfOk result (λ plan. plan.starts.ids + 1 < 2 ^ 64) }
    ensures limit { IfOk result (λ plan. 1 ≤ plan.record_limit) }
{
    let values = match server_values(matches) {
        Ok(values) => values,
        Err(bad) => return Err(WordsFault::Value(bad.option)),
    };
    let applications = match applications(alloc, matches) {
        Ok(applications) => applications,
        Err(EntryFault::Refused(_)) => return Err(WordsFault::Value("--application")),
        Err(EntryFault::Memory) => return Err(WordsFault::Memory),
    };
    if excludes_mode(matches) || excludes_record(matches) || excludes_application(matches) {
        return Err(WordsFault::Clash);
    }
    let stdio = is_used(matches, "--stdio");
    let script = text_of(matches, "--script");
    let Some(mode) = mode_in(alloc, stdio, script, values.address, values.port)? else {
        return Err(WordsFault::Clash);
    };
    let record = file_name(alloc, matches, "--record")?;
    Ok(ServerPlan {
        mode,
        limits: values.limits,
        connections: values.connections,
        dynamic_max: values.dynamic_max,
        turns: values.turns,
        log: values.log,
        idle: values.idle,
        starts: values.starts,
        record,
        record_limit: values.record_limit,
        applications,
    })
}
