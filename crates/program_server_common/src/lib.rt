//! The parts that the programs `coap-server`, `coap-explain` and `coap-directory` share.
//!
//! - `config_of` and `config_in` return the configuration of the server for a plan of the command line.
//! - `print_listen_fault` reports that a program cannot listen.
//! - `text_of` returns the reason for which a connection stopped, in words.
//! - `ServerLog` writes the lines of `--log`, and `ServerRecord` those of `--record`, after a header. Both are
//!   monitors: a run passes them each call that its server accepted. `monitor_of` joins them, each if the plan has it,
//!   and `monitor_with` does so for a server with a listener.
//!
//! The contracts name the definitions of `specs/Planned.antt` and `specs/Reasons.antt`. `specs/RecordHeaders.antt`
//! defines the header of a record, which one program writes and the other reads.
//!
//! `program_common` has the parts that `coap-client` uses too. Continue with `planned.rt`, then `log.rt` and
//! `record.rt`.
#![tactic(auto)]

mod header;
mod listening;
mod log;
mod monitor;
mod planned;
mod reasons;
mod record;

pub use listening::print_listen_fault;
pub use log::ServerLog;
pub use monitor::{ServerDescription, ServerMonitor, finish, monitor_of, monitor_with};
pub use planned::{config_in, config_of};
pub use reasons::text_of;
pub use record::{RecordOutlet, RecordWriter, ServerRecord, open_record};
