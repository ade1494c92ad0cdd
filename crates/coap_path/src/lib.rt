//! The paths of resources (RFC 7252 sections 5.10.1, 6.4), and the kinds of resources that they name. The embedding
//! program (the *application*) answers the requests of some paths by itself, instead of the engine.
//!
//! - `PathKey` is the path of a resource. `Segments` iterates over its segments.
//! - `UriPath` iterates over the path of a request.
//! - `ResourceKind` is the kind of resource that a path names. `PathMatch` finds it segment by segment, without a key.
//!
//! - `Applications` has up to 16 entries. `Applications::answers` decides for each request.
//! - `ApplicationEntry` is a prefix of paths, with the methods that the application answers there and the attributes of
//!   its link in `/.well-known/core` (RFC 6690).
//! - `ApplicationFault` is the reason why an entry is rejected.
//! - `laws` states theorems on all lists of entries and all paths.
//!
//! A path belongs to the entry with the longest prefix that its segments begin with. The engine answers the built-in
//! resources, the paths of no entry, and the methods that an entry does not name.
//!
//! This crate has no resources: `coap_store` does. Continue with `path.rt`, whose contracts name the definitions of
//! `specs/Paths.antt`, then `resource_kind.rt` and `applications.rt`.
#![tactic(auto)]

mod applications;
mod attributes;
mod entry;
mod fault;
pub mod laws;
mod methods;
mod path;
mod path_match;
mod path_start;
mod resource_kind;
mod uri_path;

pub use applications::Applications;
pub use entry::ApplicationEntry;
pub use fault::ApplicationFault;
pub use path::{PathKey, Segments};
pub use path_match::PathMatch;
pub use resource_kind::ResourceKind;
pub use uri_path::UriPath;
