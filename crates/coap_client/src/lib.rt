//! CoAP client over reliable transports (RFC 8323), and the command lines of a client and a server. This crate
//! re-exports the public names of three crates:
//!
//! - `coap_client_request`: targets, requests and plans (`Target`, `Method`, `Extras`, `ClientPlan`).
//! - `coap_command_line`: parsers of command lines (`client_words`, `server_words`, `WordsFault`), the plan of a server
//!   (`ServerPlan`), and reasons for errors (`client_reason`, `server_reason`).
//! - `coap_client_engine`: the connection and its run (`Client`, `Event`, `run_client`, `run_to_end`), and the
//!   theorems in `laws`.
//!
//! The types of arguments and results are re-exported too. `coap_conn` defines limits, phases and errors, `coap_wire`
//! tokens and messages, `coap_io` the traits for transports and clocks, and `coap_print` the line of `explain`.
//!
//! This crate contains no function. A program that embeds a client imports these names from here, as `example_observer`
//! does. `program_client` and `program_server` use the crates below. Continue with `coap_client_engine/src/client.rt`.
#![tactic(auto)]

pub use coap_client_engine::{
    Awaited, Cause, Client, ClientAnnounceFault, ClientFault, Event, Refusal, RunEnd, Taken,
    explain, run_client, run_to_end,
};
pub use coap_client_request::{ClientPlan, Extras, Method, Target, TargetFault};
pub use coap_command_line::{
    Mode, ServerPlan, StartCounts, WordsFault, client_reason, client_words, server_reason,
    server_words,
};
pub use coap_conn::{
    LimitFault, Limits, LimitsBuilder, NotOutstanding, Phase, Reason, RequestFault, SendFault,
};
pub use coap_io::{Clock, Got, Outlet, Wire, WriteFailed, WriteOutlet};
pub use coap_print::Line;
pub use coap_wire::{Code, MessageRef, OptionRef, Token, TokenRef};

/// Theorems over all clients.
pub mod laws {
    pub use coap_client_engine::laws::{
        forgotten_tokens_stay_forgotten, last_announced_size_applies, limits_are_kept,
        messages_are_those_spelled, queued_messages_fit_limit, segmentation_is_irrelevant,
        tokens_are_given_once,
    };
}
