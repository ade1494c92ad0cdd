//! The arguments of a program, and its messages on standard error.

ghost use Rattle.std.specs.Prelude.{◌≡◌, ◌≤◌, ◌==◌, ◌⊎◌, false, true, if◌then◌else◌, IfErr};
ghost use Rattle.coap_command_line.specs.Prelude.{is_help_or_version, words_fault_number};

use coap_command_line::WordsFault;
use coap_print::Line;
use std::alloc::{AllocError, Global};
use std::env::Args;
use std::fmt::Display;
use std::io::ErrorKind;
use std::rt::Env;
use std::{env, str};

/// Exit status of a run that ended, and of help and the version.
pub const ENDED: u8 = 0;

/// Exit status for invalid arguments, and for an invalid line of a script.
pub const USAGE: u8 = 1;

/// Exit status for a failed connection, device, file or allocation, and for the limit of turns.
pub const FAULT: u8 = 3;

/// Name of a program, with which each of its lines on standard error begins.
#[derive(Clone, Copy)]
pub struct Program<'a> {
    /// Name of the program.
    pub name: &'a str,
}

/// End of a program before its run. The error was written to standard error.
#[derive(Clone, Copy, Debug)]
pub struct EarlyExit {
    /// Exit status.
    pub status: u8,
}

impl Program<'_> {
    /// Writes a line about an error to standard error, and returns the status.
    pub fn print_fault(&self, rt: &impl Eprint, what: impl Display + Drop, status: u8) -> u8
        ensures { result ≡ status }
    {
        let name = self.name;
        let _ = eprintln!(rt; "{name}: {what}");
        status
    }

    /// Returns the arguments after the program's name.
    ///
    /// # Errors
    ///
    /// Returns `EarlyExit` with one of these statuses:
    ///
    /// - `USAGE`: an argument is not UTF-8.
    /// - `FAULT`: an allocation failed.
    pub fn words(&self, rt: &(impl Eprint + Env + AllocGlobal)) -> Result<Vec<String>, EarlyExit>
        ensures within { IfErr result (λ exit. exit.status ≤ 3) }
        ensures known { IfErr result (λ exit. (exit.status ≡ 1) ⊎ (exit.status ≡ 3)) }
    {
        let words = match env::args(rt) {
            Ok(words) => words_of(rt.alloc(), words),
            Err(fault) if fault.kind() != ErrorKind::OutOfMemory => {
                let status = self.print_fault(rt, "words that are not UTF-8", USAGE);
                return Err(EarlyExit { status });
            }
            Err(_) => Err(AllocError),
        };
        match words {
            Ok(words) => Ok(words),
            Err(_) => {
                let status = self.print_fault(rt, "no memory", FAULT);
                Err(EarlyExit { status })
            }
        }
    }

    /// Writes help or the version to standard output if the arguments ask for it, and otherwise the error to standard
    /// error. The reason for the error follows as a second line, if there is one.
    ///
    /// Returns the exit status: 0 for help and the version, 1 for invalid arguments, 3 if an allocation failed. If
    /// standard output does not accept the text, the status is 3.
    pub fn refuse(
        &self,
        rt: &(impl Print + Eprint),
        fault: &WordsFault,
        reason: Option<&Line>,
    ) -> u8
        ensures within { result ≤ 3 }
        ensures helped { is_help_or_version fault.now ≡ true → (result ≡ 0) ⊎ (result ≡ 3) }
        ensures refused { is_help_or_version fault.now ≡ false →
            result ≡ (if words_fault_number fault.now == 5 then 3 else 1) }
    {
        if fault.is_help_or_version() {
            return match print!(rt; "{fault}") {
                Ok(()) => ENDED,
                Err(_) => self.print_fault(rt, "cannot write", FAULT),
            };
        }
        match fault {
            // The text of clap already consists of whole lines.
            WordsFault::Usage(text) => {
                let _ = eprint!(rt; "{text}");
                USAGE
            }
            WordsFault::Memory => self.print_fault(rt, "no memory", FAULT),
            _ => {
                let status = self.print_fault(rt, fault, USAGE);
                self.print_reason(rt, reason);
                status
            }
        }
    }

    /// Writes the reason for an error to standard error, if there is one.
    fn print_reason(&self, rt: &impl Eprint, reason: Option<&Line>) {
        let Some(line) = reason else {
            return;
        };
        if let Ok(text) = str::from_utf8(line.as_bytes()) {
            let _ = self.print_fault(rt, text, USAGE);
        }
    }
}

/// Returns the arguments after the program's name.
fn words_of(alloc: Global, mut words: Args) -> Result<Vec<String>, AllocError> {
    let _name = words.next();
    words.collect(alloc)
}
