//! `Config`, the configuration of a server, and `Starts`, the values at which its counts begin.

ghost use Rattle.std.specs.Prelude.{◌≡◌, ◌≤◌, ◌*◌, ◌-◌, ◌^◌, min, IfOk, None};
ghost use Rattle.coap_model.specs.Prelude.{RefusedBy, config_of, config_refusal, start_values};
ghost use Rattle.coap_model.specs.Prelude.{LARGEST_MESSAGE};

mod builder;

pub use builder::ConfigBuilder;
use coap_conn::Limits;
use coap_wire::LARGEST_MESSAGE;
use std::marker::Model;
use thiserror::Error;

/// Error of `Config::new`: the first value that is out of its range. The discriminants are the numbers of the errors.
#[derive(Clone, Copy, Debug, PartialEq, Eq, Error)]
pub enum ConfigFault {
    /// The number of connections is not 1 to 256.
    #[error("number of connections must be between 1 and 256")]
    Connections = 1,
    /// The limit of dynamic resources exceeds 1,000.
    #[error("number of dynamic resources must be at most 1,000")]
    Dynamic = 2,
    /// The limit of a representation exceeds 1,048,576 bytes.
    #[error("representation size must be at most 1,048,576 bytes")]
    Representation = 3,
    /// The number of turns is not 1 to 1,000,000,000,000.
    #[error("number of turns must be between 1 and 1,000,000,000,000")]
    Turns = 4,
}

const _: () = prove!(ConfigFault::Connections as u8 == 1);

const _: () = prove!(ConfigFault::Dynamic as u8 == 2);

const _: () = prove!(ConfigFault::Representation as u8 == 3);

const _: () = prove!(ConfigFault::Turns as u8 == 4);

/// Values at which the counts of a server begin.
#[derive(Clone, Copy, Debug, Default, PartialEq, Eq)]
pub struct Starts {
    /// Time at which the server starts, in seconds.
    pub moment: u64,
    /// Version before the first one: the first representation stored gets the next number.
    pub versions: u64,
    /// Connection id before the first one: the first connection gets the next number.
    pub ids: u64,
}

/// Number of versions for each second. A server that starts again then begins above the versions that it gave before.
const VERSIONS_A_SECOND: u64 = 65_536;

impl Starts {
    /// Returns the start values of a server that starts at this time, in seconds since the epoch. The ids begin at 0.
    ///
    /// Versions begin at 65,536 times the time, and at most at 2^64 - 1. The version of a representation is its ETag. A
    /// server that starts again in a later second therefore repeats no ETag, unless it stored more than 65,536
    /// representations for each second in between.
    ///
    /// # Examples
    ///
    /// ```
    /// // Seconds since the epoch; a program takes them from its clock.
    /// let starts = Starts::at(1_700_000_000);
    /// let config = Config::builder().starts(starts).build()?;
    /// assert!(&rt; config.moment() == 1_700_000_000);
    /// assert!(&rt; starts.versions == 1_700_000_000 * 65_536);
    /// ```
    pub fn at(moment: u64) -> Starts
        ensures moment { result.moment ≡ moment }
        ensures versions { result.versions ≡ min (moment * 65_536) (2 ^ 64 - 1) }
        ensures ids { result.ids ≡ 0 }
    {
        Starts {
            moment,
            versions: moment.saturating_mul(VERSIONS_A_SECOND),
            ids: 0,
        }
    }
}

/// Configuration of a server. Contracts name its values as the fields of `ConfigValues`.
///
/// # Examples
///
/// ```
/// let config = Config::builder().dynamic_max(16).connections(64).build()?;
/// assert!(&rt; config.dynamic_max() == 16 && config.connections() == 64);
/// ```
#[derive(Clone, Copy, Debug, PartialEq, Eq)]
pub struct Config {
    limits: Limits,
    connections: usize,
    dynamic_max: usize,
    rep_max: usize,
    turns: u64,
    starts: Starts,
}

impl Model for Config {
    ghost use Rattle.coap_model.specs.Configs.{ConfigValues};

    ghost Value = { ConfigValues };

    ghost use Rattle.coap_model.specs.views.ConfigViews.{config_values, is_config, config_fields};

    ghost view = { config_values };

    ghost invariant = { is_config };

    ghost inverse = { config_fields };
}

impl Config {
    /// Returns the configuration with these values.
    ///
    /// - `limits`: the limits of each connection.
    /// - `connections`: the largest number of connections, 1 to 256.
    /// - `dynamic_max`: the largest number of dynamic resources, at most 1,000.
    /// - `rep_max`: the largest representation, at most 1,048,576 bytes.
    /// - `turns`: the largest number of turns (iterations of the event loop) of a run, 1 to 1,000,000,000,000.
    /// - `starts`: the values at which the counts begin.
    ///
    /// # Errors
    ///
    /// The first of these that applies:
    ///
    /// - `Connections`: `connections` is out of its range.
    /// - `Dynamic`: `dynamic_max` is out of its range.
    /// - `Representation`: `rep_max` is out of its range.
    /// - `Turns`: `turns` is out of its range.
    pub fn new(
        limits: Limits,
        connections: usize,
        dynamic_max: usize,
        rep_max: usize,
        turns: u64,
        starts: Starts,
    ) -> Result<Config, ConfigFault>
        ensures answer { RefusedBy result (config_refusal
            (config_of limits connections dynamic_max rep_max turns (start_values starts))) }
        ensures ok { IfOk result (λ c. c ≡ config_of limits connections dynamic_max rep_max turns
            (start_values starts)) }
    {
        if connections < 1 || connections > 256 {
            return Err(ConfigFault::Connections);
        }
        if dynamic_max > 1_000 {
            return Err(ConfigFault::Dynamic);
        }
        if rep_max > LARGEST_MESSAGE {
            return Err(ConfigFault::Representation);
        }
        if turns < 1 || turns > 1_000_000_000_000 {
            return Err(ConfigFault::Turns);
        }
        Ok(Config {
            limits,
            connections,
            dynamic_max,
            rep_max,
            turns,
            starts,
        })
    }

    /// Returns the limits of each connection.
    pub fn limits(&self) -> Limits
        ensures { result ≡ self.now.limits }
    {
        self.limits
    }

    /// Returns the largest number of connections.
    pub fn connections(&self) -> usize
        ensures value { result ≡ self.now.connections }
        ensures low { 1 ≤ result }
        ensures high { result ≤ 256 }
    {
        self.connections
    }

    /// Returns the largest number of dynamic resources.
    pub fn dynamic_max(&self) -> usize
        ensures value { result ≡ self.now.dynamic_max }
        ensures high { result ≤ 1000 }
    {
        self.dynamic_max
    }

    /// Returns the size of the largest representation, in bytes.
    pub fn rep_max(&self) -> usize
        ensures value { result ≡ self.now.rep_max }
        ensures high { result ≤ LARGEST_MESSAGE }
    {
        self.rep_max
    }

    /// Returns the largest number of turns of a run.
    pub fn turns(&self) -> u64
        ensures value { result ≡ self.now.turns }
        ensures low { 1 ≤ result }
        ensures high { result ≤ 1000000000000 }
    {
        self.turns
    }

    /// Returns the values at which the counts begin.
    ///
    /// A `Config` has no applications: `Server::with_applications` receives them.
    pub fn starts(&self) -> Starts
        ensures value { start_values result ≡ self.now.starts }
        ensures alone { self.now.applications ≡ None }
    {
        self.starts
    }

    /// Returns the time at which the server starts, in seconds.
    pub fn moment(&self) -> u64
        ensures { result ≡ self.now.starts.moment }
    {
        self.starts.moment
    }
}
