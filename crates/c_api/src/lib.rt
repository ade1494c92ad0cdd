//! The proved engines for programs in C: a static library.
//!
//! - `server.rt`, `polling.rt` and `resources.rt` have a call for each call of `Server`, and `server_handle.rt` the
//!   handle that a C program keeps of a `PolledServer`. `client.rt` and `client_handle.rt` are the same for `Client`,
//!   and `applications.rt` and `applications_handle.rt` for `Applications`. `events.rt` has the event of a client, and
//!   `requests.rt` requests and URIs.
//! - `messages.rt` has the calls on messages, which have no handle. `coap_wire` decodes and encodes their parts.
//! - `numbers.rt` has the numbers that the calls return, `settings.rt` a configuration, `paths.rt` paths as text, and
//!   `bytes.rt` the copying into a buffer.
//!
//! The three files of handles differ in names alone. They cannot be one: an export accepts no generic struct, and
//! `rt ci` accepts no `impl` block that a macro wrote. Their proofs are one, in `c_handle` (`proofs/Handles.antt`).
//!
//! The contract of an export is that of the engine's call over the value of the handle (`specs/ServerCalls.antt`,
//! `specs/ApplicationCalls.antt`, `specs/ClientCalls.antt`). Those of the calls on messages are in
//! `specs/Messages.antt`. The header `include/dachreup.h` documents each call for C, and states what the C program
//! must guarantee.
#![tactic(auto)]

mod applications;
mod applications_handle;
mod bytes;
mod client;
mod client_handle;
mod events;
mod messages;
mod numbers;
mod paths;
mod polling;
mod requests;
mod resources;
mod server;
mod server_handle;
mod settings;

pub use applications_handle::ApplicationsHandle;
pub use client::ClientStatus;
pub use client_handle::ClientHandle;
pub use events::ClientEvent;
pub use messages::MessageSpans;
pub use requests::{Place, Request};
pub use resources::ResourceState;
pub use server::{ConnectionStatus, Took};
pub use server_handle::ServerHandle;
pub use settings::{ClientLimits, Settings};
