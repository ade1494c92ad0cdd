//! Command lines of `coap-server`, `coap-client`, `coap-explain` and `coap-directory`: from arguments to a plan.
//!
//! - `server_words`, `client_words`, `explain_words` and `directory_words` parse the arguments of a program and
//!   return its plan. The crate `clap` finds the options in the arguments. This crate defines the options and
//!   parses their values.
//! - `WordsFault` is the error if there is no plan. A request for `--help` or `--version` is reported in this way too.
//! - `VERSION` is the version of the programs.
//! - `server_reason`, `client_reason`, `explain_reason` and `directory_reason` return the second line for such an
//!   error: what was given, and what is allowed.
//!
//! The contracts use the definitions of `specs/CommandLines.antt`, `specs/ServerWords.antt`, `specs/ClientWords.antt`,
//! `specs/ExplainWords.antt`, `specs/DirectoryWords.antt` and `specs/Reasons.antt`.
//!
//! This crate opens no file and runs nothing. The plan of a client, targets and methods are types of
//! `coap_client_request`. The crate `program_common` has everything else that the programs need, such as exit statuses.
//! Continue with `arguments.rt`.
#![tactic(auto)]

mod arguments;
mod server_plan;

pub use arguments::applications::{EntryFault, entries_in};
pub use arguments::directory::{DirectoryPlan, directory_reason, directory_words};
pub use arguments::explain::{ExplainPlan, explain_reason, explain_words};
pub use arguments::{
    VERSION, WordsFault, client_reason, client_words, server_reason, server_words,
};
pub use server_plan::{Mode, ServerPlan, StartCounts};
