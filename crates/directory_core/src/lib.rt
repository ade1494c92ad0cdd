//! The requests of a resource directory (RFC 9176) and its responses.
//!
//! - `Directory` answers requests: registration, update and removal at `/rd`, and lookups at `/rd-lookup/ep` and
//!   `/rd-lookup/res`.
//! - `Reply` is the response to a request before it is written.
//!
//! The contracts name the definitions of `specs/Requests.antt` (the parts of a request) and `specs/Replies.antt` (the
//! reply to a request and the registrations after it).
//!
//! Simple registration, observed lookups, block-wise transfer and multicast are not supported. This crate keeps no
//! connection and reads no clock. Continue with `directory.rt`, then `query.rt`.
#![tactic(auto)]

mod attributes;
mod conditions;
mod directory;
pub mod laws;
mod parameters;
mod query;
mod refusal;
mod reply;
mod request_error;
mod requests;
mod response;
mod route;

pub use directory::Directory;
pub use refusal::Refusal;
pub use reply::Reply;
pub use response::write_response;
