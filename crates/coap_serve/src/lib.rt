//! Runs of a CoAP server over reliable transports (RFC 8323). This crate also re-exports the public names of the crates
//! of the server, so an embedding program needs no other.
//!
//! - `serve_one` runs a server with one connection over one input and one output, such as standard input and output.
//! - `serve_door` runs a server over the connections that a listener (`Door`) accepts. `Service` does the same for a
//!   program that embeds the server: each call is one iteration of the event loop (docs/EMBEDDING.md).
//! - `Server` is the server itself, which performs no I/O: each event is one call.
//! - `Config`, `Limits` and `Starts` configure it. `script` parses a text of events, and `Server::replay` runs them.
//! - `Application` is the interface through which a program answers requests itself. It reads a `MessageRef`, and
//!   writes the response by a `Builder`. The attribute of its implementation names `specs::Prelude::AnswersMore`.
//! - `laws` has the theorems over all servers.
//!
//! Neither run opens a socket: `coap_sockets` implements `Door`, `Wire` and `Clock` over TCP. The server is in
//! `coap_server_engine`, and one connection of it in `coap_server_session`. `coap_model` defines the server's behaviour
//! as a function of its events.
//!
//! The contracts name the definitions of `specs/streams` (`serve_one`) and of `specs/listener`: `Turns.antt` and
//! `Serving.antt` (one iteration), `Run.antt` (a run). Continue with `serve_streams.rt`, then `door.rt`, or with
//! `coap_server_engine/src/server.rt`.
#![tactic(auto)]

mod door;
pub mod laws;
mod output;
mod serve_streams;

pub use coap_conn::{LimitFault, Limits, LimitsBuilder, Phase, Reason, Reply};
pub use coap_io::{
    Clock, Door, Got, Outlet, Polled, ReadBuffer, ReadSource, Ready, Source, Tried, Wait, Wire,
    Wires, WriteFailed, WriteOutlet, write_all,
};
pub use coap_model::{
    AnnounceFault, Backwards, Config, ConfigBuilder, ConfigFault, ConnId, Handled, NoSuch,
    OpenFault, ReleaseFault, ResponseFault, Starts, Status, TakeFault, Taken, WrittenFault,
};
pub use coap_path::{ApplicationEntry, ApplicationFault, Applications};
pub use coap_script::{Event, ScriptFault, script, scripts_continue_after_whole_lines};
pub use coap_server_engine::{
    Application, Call, DropReason, IoFault, Monitor, NoApplication, NoMonitor, ReplayFault, Server,
    TakenRequest,
};
pub use coap_store::{PathKey, Present, State, StoreFault, request_path};
pub use coap_text::{bytes_in, number_in};
pub use coap_wire::{
    BuildFault, Builder, Code, FormatFault, MessageBuilder, MessageRef, OptionRef, Sink, Token,
    TokenRef, option_numbers, parse, uint_bytes, uint_value,
};
pub use door::{Clocks, Service, ServiceConfig, Times, serve_door, serve_door_with};
pub use serve_streams::{Report, serve_one, serve_one_with};
