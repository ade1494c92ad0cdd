//! The resources of a server, and the responses to requests (RFC 7252 section 5.8, RFC 7641, RFC 6690).
//!
//! - `Store` has the built-in and the created resources. `Store::answer` returns the `Plan` for a request: the
//!   response, the `Change`, and the effect on the observers (`Watch`). `Store::apply` makes the change.
//! - `Store::put` and `Store::remove` change resources on behalf of the embedding program (`StoreFault`).
//! - `Listing` is the text of `/.well-known/core`: a list of byte strings that is stored as one text and changed in
//!   place. `links.rt` returns the links of which it consists.
//! - `PathKey` is the path of a resource (see `coap_path`). `laws` has the theorems on plans and changes.
//!
//! This crate has no connections and no list of observers: `coap_server_session` does. Continue with `store.rt`, then
//! `answer.rt`, whose contracts name the definitions of `specs/Answer.antt`.
#![tactic(auto)]

mod answer;
mod catalogue;
mod delayed;
mod fault;
mod found;
pub mod laws;
mod links;
mod listing;
mod local_changes;
mod moves;
mod notifications;
mod plan;
mod request;
mod request_options;
mod resource;
mod states;
mod store;
mod target;
mod text;

pub use coap_path::{PathKey, ResourceKind, Segments, UriPath};
pub use delayed::{delayed_response, expired_response, refused_delay};
pub use fault::StoreFault;
pub use found::Payload;
pub use links::ESCAPED;
pub use notifications::ObservedPath;
pub use plan::{Change, ChangePlan, Plan, PlannedChange, Watch};
pub use states::{Present, State};
pub use store::Store;
pub use target::request_path;
