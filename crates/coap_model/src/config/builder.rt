//! `ConfigBuilder`, which sets the values of a configuration by name.

ghost use Rattle.std.specs.Prelude.{◌≡◌, IfOk};
ghost use Rattle.coap_model.specs.Prelude.{RefusedBy, config_refusal, default_config, start_values};

use super::{Config, ConfigFault, Starts};
use coap_conn::Limits;
use coap_wire::LARGEST_SENT_MESSAGE;
use std::marker::Model;

/// Largest number of turns of a run.
const MAX_TURNS: u64 = 1_000_000_000_000;

/// Builder of `Config`. Each value has its default until it is set; `build` checks them. Contracts name the values as
/// the fields of `ConfigValues`.
#[derive(Clone, Copy, Debug)]
pub struct ConfigBuilder {
    limits: Limits,
    connections: usize,
    dynamic_max: usize,
    rep_max: usize,
    turns: u64,
    starts: Starts,
}

impl Model for ConfigBuilder {
    ghost use Rattle.coap_model.specs.Configs.{ConfigValues};

    ghost Value = { ConfigValues };

    ghost use Rattle.coap_model.specs.views.ConfigViews.{builder_values, builder_fields};

    ghost view = { builder_values };

    ghost inverse = { builder_fields };
}

impl Config {
    /// Returns a builder in which each value has its default.
    pub fn builder() -> ConfigBuilder
        ensures { result ≡ default_config }
    {
        let Ok(limits) = Limits::builder().build() else {
            unreachable!()
        };
        ConfigBuilder {
            limits,
            connections: 16,
            dynamic_max: 0,
            rep_max: LARGEST_SENT_MESSAGE,
            turns: MAX_TURNS,
            starts: Starts {
                moment: 0,
                versions: 0,
                ids: 0,
            },
        }
    }
}

impl ConfigBuilder {
    /// Sets the limits of each connection. Default: those of `Limits::builder`.
    pub fn limits(self, limits: Limits) -> ConfigBuilder
        ensures { result ≡ record self { limits = limits } }
    {
        ConfigBuilder { limits, ..self }
    }

    /// Sets the largest number of connections: 1 to 256, by default 16.
    pub fn connections(self, count: usize) -> ConfigBuilder
        ensures { result ≡ record self { connections = count } }
    {
        ConfigBuilder {
            connections: count,
            ..self
        }
    }

    /// Sets the largest number of resources that clients and the embedding program may create: 0 to 1,000, by default
    /// 0.
    pub fn dynamic_max(self, count: usize) -> ConfigBuilder
        ensures { result ≡ record self { dynamic_max = count } }
    {
        ConfigBuilder {
            dynamic_max: count,
            ..self
        }
    }

    /// Sets the largest representation, in bytes: at most 1,048,576, by default 65,536.
    pub fn rep_max(self, bytes: usize) -> ConfigBuilder
        ensures { result ≡ record self { rep_max = bytes } }
    {
        ConfigBuilder {
            rep_max: bytes,
            ..self
        }
    }

    /// Sets the largest number of turns of a run: 1 to 1,000,000,000,000, which is the default.
    pub fn turns(self, count: u64) -> ConfigBuilder
        ensures { result ≡ record self { turns = count } }
    {
        ConfigBuilder {
            turns: count,
            ..self
        }
    }

    /// Sets the values at which the counts begin. Default: 0 each. A server that is started again should begin at
    /// `Starts::at` of the current time, so that no ETag is repeated.
    pub fn starts(self, starts: Starts) -> ConfigBuilder
        ensures { result ≡ record self { starts = start_values starts } }
    {
        ConfigBuilder { starts, ..self }
    }

    /// Returns the configuration with the values set so far.
    ///
    /// # Errors
    ///
    /// The first of these that applies:
    ///
    /// - `Connections`: the number of connections is not 1 to 256.
    /// - `Dynamic`: the limit of dynamic resources exceeds 1,000.
    /// - `Representation`: the limit of a representation exceeds 1,048,576 bytes.
    /// - `Turns`: the number of turns is not 1 to 1,000,000,000,000.
    pub fn build(self) -> Result<Config, ConfigFault>
        ensures answer { RefusedBy result (config_refusal self) }
        ensures ok { IfOk result (λ c. c ≡ self) }
    {
        Config::new(
            self.limits,
            self.connections,
            self.dynamic_max,
            self.rep_max,
            self.turns,
            self.starts,
        )
    }
}
