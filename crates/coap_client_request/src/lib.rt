//! Requests as a command line describes them: the target of a URI, and the message of a request for that target.
//!
//! - `Target` holds the parts of a URI of the scheme `coap+tcp`: host, port, path and query.
//! - `Method` and `Extras` hold everything else that a request says.
//! - `request_message` and `cancellation_message` build the messages, without a token. `formats_of` encodes the content
//!   formats, which the messages borrow.
//! - `ClientPlan` holds the settings of `coap-client` that a command line gives.
//! The contracts use the definitions of `specs/Targets.antt` and `specs/Requests.antt`.
//!
//! This crate reads no command line and sends nothing. The crate `coap_command_line` makes a plan of the arguments of a
//! program, and `coap_client_engine` sends the messages and gives them tokens. Continue with `target.rt`.
#![tactic(auto)]

mod plan;
mod request;
mod target;

pub use plan::ClientPlan;
pub use request::{Extras, Formats, Method, cancellation_message, formats_of, request_message};
pub use target::{Target, TargetFault};
