//! Command lines for `clap`: the command of a program from the table of its arguments, and the options that are given.

ghost use Rattle.std.specs.Prelude.{◌≡◌, IfErr, IfOk, [], map, false, true};
ghost use Rattle.coap_command_line.specs.Prelude.{app_of, fault_of, found_of, is_simple, is_simple_and_free};
ghost use Rattle.coap_command_line.specs.Prelude.{matches_of, rows_of, rule_of, IsTurnedDown};
ghost use Rattle.coap_command_line.specs.CommandLines as spec;

use crate::arguments::WordsFault;
use crate::arguments::tables::{ArgumentRow, Form, VERSION};
use clap::error::ErrorKind;
use clap::{Arg, ArgAction, ArgMatches, Command};
use std::alloc::{AllocError, Global};
use std::convert::AsStr;

/// Creates the argument of a row.
fn argument<'a>(alloc: Global, row: &ArgumentRow) -> Arg<'a>
    ensures rule { rule_of result ≡ spec.row_rule row.now }
    ensures local { result.global ≡ false }
{
    let argument = Arg::new(alloc, row.0).help(row.2);
    match row.1 {
        Form::Letter(letter, value) => argument.short(letter).value_name(value),
        Form::LetterFlag(letter) => argument.short(letter).action(ArgAction::SetTrue),
        Form::Word(word, value) => argument.long(word).value_name(value),
        Form::RepeatedWord(word, value) => argument
            .long(word)
            .value_name(value)
            .action(ArgAction::Append),
        Form::WordFlag(word) => argument.long(word).action(ArgAction::SetTrue),
        Form::Required => argument.required(true),
    }
}

/// Creates a command with this name and the version of the programs. Its arguments do not include the program's name.
fn bare<'a>(alloc: Global, name: &'a str, about: &'a str) -> Command<'a>
    ensures { app_of result ≡ spec.bare_app name.entry.now }
{
    Command::new(alloc, name)
        .about(about)
        .version(VERSION)
        .no_binary_name(true)
}

/// Creates the command of a program with this name and these arguments.
///
/// # Errors
///
/// Returns `AllocError` if allocation fails.
fn command<'a>(
    alloc: Global,
    name: &'a str,
    about: &'a str,
    arguments: &[ArgumentRow],
) -> Result<Command<'a>, AllocError>
    ensures { IfOk result (λ c. app_of c ≡ spec.program_app name.entry.now arguments.now) }
{
    let mut command = bare(alloc, name, about);
    for row in arguments {
        command = command.arg(argument(alloc, row))?;
    }
    Ok(command)
}

/// Returns the options that `clap` finds in the words of a command line. The program has this name and these arguments.
///
/// # Errors
///
/// - `Usage`: `clap` rejects the words, or they ask for help or for the version.
/// - `Memory`: allocation failed.
pub(super) fn matches_in<'a, S: AsStr>(
    alloc: Global,
    name: &'a str,
    about: &'a str,
    arguments: &[ArgumentRow],
    words: &'a [S],
) -> Result<ArgMatches<'a>, WordsFault>
    requires simple { is_simple (spec.program_app name.now arguments.now) ≡ true }
    requires free { is_simple_and_free (spec.program_app name.now arguments.now) ≡ true }
    ensures kinds { IfOk result
        (λ m. fault_of (spec.program_app name.entry.now arguments.entry.now) (map S.text words.entry.now) ≡ []) }
    ensures rows { IfOk result
        (λ m. rows_of (found_of m) ≡ matches_of (spec.program_app name.entry.now arguments.entry.now)
        (map S.text words.entry.now)) }
    ensures refusal { IfErr result (IsTurnedDown (fault_of (spec.program_app name.entry.now arguments.entry.now)
        (map S.text words.entry.now))) }
{
    let Ok(command) = command(alloc, name, about, arguments) else {
        return Err(WordsFault::Memory);
    };
    match command.try_get_matches_from(words) {
        Ok(matches) => Ok(matches),
        Err(error) => {
            if matches!(error.kind(), ErrorKind::OutOfMemory) {
                return Err(WordsFault::Memory);
            }
            Err(WordsFault::Usage(error))
        }
    }
}
