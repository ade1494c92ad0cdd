//! One end of a CoAP connection over a reliable transport, at a server or a client (RFC 8323 sections 3.3, 3.4 and 5).
//!
//! - `Link` is that end. It processes each received message and returns its `Verdict`. It queues messages that fit the
//!   peer's Max-Message-Size, and keeps delayed responses and outstanding requests.
//! - `OutQueue` has the bytes that are to be written. `Limits` are the limits of a connection, each within its
//!   range, and `LimitsBuilder` sets each by its name.
//! - `Phase`, `Reason` and the types of `phase.rt` are the states of a link and the results of its calls.
//! - `laws` has the theorems on all histories of a link.
//!
//! The contracts name the definitions of `specs/LinkValue.antt`, `specs/Calls.antt` and `specs/Reaction.antt`.
//!
//! This crate performs no I/O, splits no stream into frames (`coap_frame`) and responds to no request (`coap_store`).
//! `coap_server_session` and `coap_client_engine` have a link each. Continue with `link.rt`.
#![tactic(auto)]

pub mod laws;
mod limits;
mod link;
mod out_queue;
mod outstanding;
mod pending;
mod phase;
mod reason;
mod ring;
mod signal_messages;
mod signal_options;

pub use limits::{LimitFault, Limits, LimitsBuilder};
pub use link::Link;
pub use out_queue::{OutQueue, first_part};
pub use phase::{
    Due, Full, NotOutstanding, Phase, Reject, Reply, RequestFault, RespondFault, Role, SendFault,
    Verdict,
};
pub use reason::Reason;
