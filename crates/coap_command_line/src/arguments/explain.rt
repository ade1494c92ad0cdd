//! The command line of `coap-explain`.

ghost use Rattle.std.specs.Prelude.{◌≡◌, IfOk, codes, map, option_map};
ghost use Rattle.coap_command_line.specs.Prelude.{found_of, rows_of, named};
ghost use Rattle.coap_command_line.specs.ExplainWords.{IsExplainPlan, GivesExplainPlan};
ghost use Rattle.coap_command_line.specs.ExplainWords as spec;
ghost use Rattle.coap_command_line.specs.Reasons.{line_of};

use crate::arguments::WordsFault;
use crate::arguments::commands::matches_in;
use crate::arguments::option_values::{BadValue, number_within, text_of};
use crate::arguments::reasons::explain_line;
use crate::arguments::tables::{ABOUT_EXPLAIN, EXPLAIN};
use clap::ArgMatches;
use coap_print::Line;
use std::alloc::{AllocError, Global};
use std::convert::AsStr;

/// Settings of a run of `coap-explain`.
#[derive(Drop)]
pub struct ExplainPlan {
    /// Name of the file with the record, `-` for standard input.
    pub file: String,
    /// Number of the only connection whose lines are printed, or `None` for all lines.
    pub connection: Option<u64>,
}

/// Returns the number of the only connection that is printed, if the option is given.
///
/// # Errors
///
/// Returns `BadValue` if the text of the option is no number of a connection.
#[tactic(auto, unfolding(crate::specs::ExplainWords::connection_said))]
fn connection(matches: &ArgMatches<'_>) -> Result<Option<u64>, BadValue>
    ensures { named result ≡ spec.connection_said (rows_of (found_of matches.now)) }
{
    match text_of(matches, "--connection") {
        Some(text) => match number_within(text, 1, u64::MAX) {
            Some(number) => Ok(Some(number)),
            None => Err(BadValue {
                option: "--connection",
            }),
        },
        None => Ok(None),
    }
}

/// Returns the name of the file, whose presence `clap` checks.
#[tactic(auto, unfolding(crate::specs::ExplainWords::file_said))]
fn file_name<'a>(matches: &ArgMatches<'a>) -> &'a str
    ensures { result.now ≡ spec.file_said (rows_of (found_of matches.now)) }
{
    text_of(matches, "FILE").unwrap_or("")
}

/// Returns the plan for the options that `clap` found, or the error `Value` or `Memory`.
#[tactic(auto, unfolding(crate::specs::ExplainWords::explain_plan_in))]
fn explain_plan(alloc: Global, matches: &ArgMatches<'_>) -> Result<ExplainPlan, WordsFault>
    ensures { GivesExplainPlan (spec.explain_plan_in (rows_of (found_of matches.now))) result }
{
    let connection = connection(matches)?;
    let file = String::from_str(alloc, file_name(matches))?;
    Ok(ExplainPlan { file, connection })
}

/// Parses the arguments of `coap-explain`, without the program's name, and returns the plan.
///
/// # Errors
///
/// The first that applies, except that `Memory` can come before any other:
///
/// - `Usage`: `clap` rejects the arguments, or they ask for help or for the version.
/// - `Value`: the value of `--connection` is malformed or out of range.
/// - `Memory`: allocation failed.
pub fn explain_words<'a, S: AsStr>(alloc: Global, words: &'a [S]) -> Result<ExplainPlan, WordsFault>
    ensures { IsExplainPlan (map S.text words.entry.now) result }
{
    let matches = match matches_in(alloc, "coap-explain", ABOUT_EXPLAIN, EXPLAIN, words) {
        Ok(matches) => matches,
        Err(fault) => return Err(fault),
    };
    explain_plan(alloc, &matches)
}

/// Returns the reason for an error that `explain_words` reported for these arguments: a line with what was given and
/// what is allowed. There is no reason for arguments that `clap` rejects, and none for a failed allocation.
///
/// # Errors
///
/// Returns `AllocError` if allocation fails.
pub fn explain_reason<'a, S: AsStr>(
    alloc: Global,
    words: &'a [S],
    fault: &WordsFault,
) -> Result<Option<Line>, AllocError>
    ensures { IfOk result
        (λ line. line ≡ option_map line_of (spec.explain_reason (map S.text words.entry.now) fault.now)) }
{
    match matches_in(alloc, "coap-explain", ABOUT_EXPLAIN, EXPLAIN, words) {
        Ok(matches) => Ok(explain_line(&matches, fault)),
        Err(WordsFault::Usage(_)) => Ok(None),
        Err(_) => Err(AllocError),
    }
}
