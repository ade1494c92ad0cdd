//! The configuration of a server for a plan of its command line.

ghost use Rattle.std.specs.Prelude.{◌≡◌, true, is_some, IfSome, IfNone};
ghost use Rattle.coap_model.specs.Configs.{config_refusal};
ghost use Rattle.program_server_common.specs.Planned.{planned, starts_in};

use coap_command_line::ServerPlan;
use coap_model::{Config, Starts};

/// Maximum length of a representation, in bytes.
const REP_MAX: usize = 65_000;

/// Returns the configuration of a plan, with counters that begin at `starts`, or `None` if a limit is out of its range.
pub fn config_of(plan: &ServerPlan, starts: Starts) -> Option<Config>
    ensures value { IfSome result (λ config. config ≡ planned plan.now starts) }
    ensures refused { IfNone result (is_some (config_refusal (planned plan.now starts)) ≡ true) }
{
    let config = Config::new(
        plan.limits,
        plan.connections,
        plan.dynamic_max,
        REP_MAX,
        plan.turns,
        starts,
    );
    match config {
        Ok(config) => Some(config),
        Err(_) => None,
    }
}

/// Returns the configuration of a plan, with the counters of the plan, or `None` if a limit is out of its range.
pub fn config_in(plan: &ServerPlan) -> Option<Config>
    ensures value { IfSome result (λ config. config ≡ planned plan.now (starts_in plan.now)) }
    ensures refused { IfNone result (is_some (config_refusal (planned plan.now (starts_in plan.now))) ≡ true) }
{
    let starts = Starts {
        moment: plan.starts.moment,
        versions: plan.starts.versions,
        ids: plan.starts.ids,
    };
    config_of(plan, starts)
}
