//! The registrations of a resource directory (RFC 9176) as one value.
//!
//! - `Registry` has the registrations of endpoints, in the order in which they were made. It finds one by the name and
//!   sector of its endpoint in constant time.
//! - `Registration` is the registration of an endpoint: its location, lifetime and base URI, and its links.
//! - `Criterion` is a search criterion of a lookup, and `Page` the part of the results that a lookup asks for.
//!
//! The contracts name the definitions of `specs/Registrations.antt`, `specs/Matching.antt` and `specs/Lookups.antt`.
//! `laws` has theorems on these definitions.
//!
//! This crate contains no CoAP message: `directory_core` reads requests and writes responses. Continue with
//! `registry.rt`, then `matching.rt`.
#![tactic(auto)]

mod candidates;
mod criterion;
mod label;
pub mod laws;
mod listing;
mod matching;
mod offers;
mod registration;
mod registry;
mod results;

pub use criterion::Criterion;
pub use listing::{Listing, Page};
pub use registration::{EndpointKey, Registration};
pub use registry::Registry;
