//! `Settings`, the configuration of a server as a C program names it, and `ClientLimits`, the limits of a client.
//!
//! If 0 is no legal value of a field, it names the default of the engine.

ghost use Rattle.std.specs.Prelude.{◌≡◌, IfOk};
ghost use Rattle.coap_wire.specs.Refusal.{RefusedBy};
ghost use Rattle.coap_conn.specs.Limits.{limit_refusal};
ghost use Rattle.c_api.specs.Settings as spec;

use crate::numbers::{config_number, limit_number};
use coap_conn::{LimitFault, Limits};
use coap_model::{Config, Starts};
use coap_wire::{DEFAULT_QUEUE, LARGEST_SENT_MESSAGE};

/// Default largest number of outstanding requests.
const DEFAULT_OUTSTANDING: usize = 16;

/// Default largest number of connections.
const DEFAULT_CONNECTIONS: usize = 16;

/// Configuration of a server. `new` checks the ranges.
#[repr(C)]
#[derive(Clone, Copy)]
pub struct Settings {
    /// Largest message accepted, in bytes, or 0 for the default.
    pub max_message: usize,
    /// Largest message sent, in bytes, or 0 for the default.
    pub max_sent: usize,
    /// Output queue of a connection, in bytes, or 0 for the default.
    pub queue: usize,
    /// Largest number of delayed responses and Pongs of a connection.
    pub pending: usize,
    /// Largest number of observers of a connection.
    pub observers: usize,
    /// Largest number of outstanding requests of a connection, or 0 for the default.
    pub outstanding: usize,
    /// Largest number of connections, or 0 for the default.
    pub connections: usize,
    /// Largest number of dynamic resources.
    pub dynamic_max: usize,
    /// Largest representation, in bytes.
    pub rep_max: usize,
    /// Start time, in seconds.
    pub moment: u64,
    /// Version before the first one.
    pub versions: u64,
    /// Connection id before the first one.
    pub ids: u64,
}

/// Limits of a client. `new` checks the ranges.
#[repr(C)]
#[derive(Clone, Copy)]
pub struct ClientLimits {
    /// Largest message accepted, in bytes, or 0 for the default.
    pub max_message: usize,
    /// Largest message sent, in bytes, or 0 for the default.
    pub max_sent: usize,
    /// Output queue, in bytes, or 0 for the default.
    pub queue: usize,
    /// Largest number of delayed responses and Pongs.
    pub pending: usize,
    /// Largest number of observers.
    pub observers: usize,
    /// Largest number of outstanding requests, or 0 for the default.
    pub outstanding: usize,
}

/// Returns a number, or the default in place of 0.
fn or_default(number: usize, default: usize) -> usize
    ensures { result ≡ spec.or_default number default }
{
    if number == 0 { default } else { number }
}

/// Returns the limits with these values, and with the defaults in place of zeros.
///
/// # Errors
///
/// Returns the error of the first limit that is out of range.
fn limits_named(
    max_message: usize,
    max_sent: usize,
    queue: usize,
    pending: usize,
    observers: usize,
    outstanding: usize,
) -> Result<Limits, LimitFault>
    ensures answer { RefusedBy result (limit_refusal
        (spec.limits_named max_message max_sent queue pending observers outstanding)) }
    ensures ok { IfOk result (λ l. l ≡ spec.limits_named max_message max_sent queue pending observers outstanding) }
{
    Limits::new(
        or_default(max_message, LARGEST_SENT_MESSAGE),
        or_default(max_sent, LARGEST_SENT_MESSAGE),
        or_default(queue, DEFAULT_QUEUE),
        pending,
        observers,
        or_default(outstanding, DEFAULT_OUTSTANDING),
    )
}

/// Returns the limits of a client.
///
/// # Errors
///
/// Returns the error of the first limit that is out of range.
pub(crate) fn client_limits(limits: &ClientLimits) -> Result<Limits, LimitFault>
    ensures answer { RefusedBy result (limit_refusal (spec.client_limits limits.now)) }
    ensures ok { IfOk result (λ l. l ≡ spec.client_limits limits.now) }
{
    limits_named(
        limits.max_message,
        limits.max_sent,
        limits.queue,
        limits.pending,
        limits.observers,
        limits.outstanding,
    )
}

/// Returns the configuration with these values.
///
/// # Errors
///
/// Returns the number of the first value that is out of range.
pub(crate) fn configured(settings: &Settings) -> Result<Config, u32>
    ensures answer { RefusedBy result (spec.settings_refusal settings.now) }
    ensures ok { IfOk result (λ c. c ≡ spec.settings_config settings.now) }
{
    let limits = match limits_named(
        settings.max_message,
        settings.max_sent,
        settings.queue,
        settings.pending,
        settings.observers,
        settings.outstanding,
    ) {
        Ok(limits) => limits,
        Err(fault) => return Err(limit_number(fault)),
    };
    let starts = Starts {
        moment: settings.moment,
        versions: settings.versions,
        ids: settings.ids,
    };
    match Config::new(
        limits,
        or_default(settings.connections, DEFAULT_CONNECTIONS),
        settings.dynamic_max,
        settings.rep_max,
        1,
        starts,
    ) {
        Ok(config) => Ok(config),
        Err(fault) => Err(config_number(fault)),
    }
}
