//! Rows for configurations, which need no value.
//!
//! The events are `config` with thirteen numbers, `starts`, `faults io`, and `faults application` for the errors of
//! entries. All others are those of limits.

use crate::limits;
use crate::limits::{limits_of, tell_limits};
use crate::row_line::RowLine;
use crate::row_words::{cut, numbers};
use coap_conn::Limits;
use coap_model::{Config, ConfigFault, Starts};
use coap_path::ApplicationFault;
use coap_server_engine::IoFault;

/// Errors of a run.
const IO_FAULTS: &[IoFault] = &[
    IoFault::Read,
    IoFault::Write,
    IoFault::Memory,
    IoFault::Turns,
];

/// Errors of entries of an application.
const APPLICATION_FAULTS: &[ApplicationFault] = &[
    ApplicationFault::Full,
    ApplicationFault::Root,
    ApplicationFault::Twice,
    ApplicationFault::Method,
    ApplicationFault::Attributes,
    ApplicationFault::Memory,
    ApplicationFault::BuiltIn,
];

/// Returns the configuration with these limits and the numbers after those of the limits, or the error.
fn config_of(limits: Limits, text: &str) -> Result<Config, ConfigFault> {
    let [
        _,
        _,
        _,
        _,
        _,
        _,
        connections,
        dynamic,
        rep,
        turns,
        moment,
        versions,
        ids,
    ] = numbers(text);
    let starts = Starts {
        moment: moment as u64,
        versions: versions as u64,
        ids: ids as u64,
    };
    Config::new(limits, connections, dynamic, rep, turns as u64, starts)
}

/// Returns the configuration that thirteen numbers name, or `None` if one is out of range.
pub(crate) fn configured(text: &str) -> Option<Config> {
    config_of(limits_of(text).ok()?, text).ok()
}

/// Writes each value of a configuration as its accessor returns it.
fn tell_config(config: &Config, results: &mut RowLine) {
    tell_limits(&config.limits(), results);
    results.sizes(&[config.connections(), config.dynamic_max(), config.rep_max()]);
    results.number(config.turns());
    results.debug(&config.starts());
}

/// Creates a configuration, and writes each of its values, or the error.
fn config(text: &str, results: &mut RowLine) {
    let Ok(limits) = limits_of(text) else {
        return results.word("refused");
    };
    match config_of(limits, text) {
        Ok(config) => tell_config(&config, results),
        Err(fault) => results.fault(&fault, fault as u8),
    }
}

/// Executes an event, and writes its result.
pub(crate) fn play(event: &str, results: &mut RowLine) {
    let (word, rest) = cut(event);
    match word {
        "config" => config(rest, results),
        "starts" => results.debug(&Starts::default()),
        "faults" if rest == "io" => {
            for fault in IO_FAULTS {
                results.fault(fault, *fault as u8);
            }
        }
        "faults" if rest == "application" => {
            for fault in APPLICATION_FAULTS {
                results.fault(fault, *fault as u8);
            }
        }
        _ => limits::play(event, results),
    }
}
