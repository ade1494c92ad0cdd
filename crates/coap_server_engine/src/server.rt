//! A server with all its connections.
//!
//! A call first applies its own effect. Then every connection *settles*: it queues everything that is due, as long as
//! its queue has room for a message of `max_sent` bytes.
//!
//! Each call that changes a `Server`, except `flush_once_at`, has two kinds of clauses. `after` or `answer`, `ok` and
//! `err` give the exact value after the call. `shows` states that the server still represents its history of events.

ghost use Rattle.std.specs.Prelude.{◌≡◌, [], Some, IfOk};
ghost use Rattle.coap_server_engine.specs.Prelude.{config_with, new_server, Shows};

mod bytes;
mod changes;
mod concerned;
mod connections;
mod requests;
mod responses;
mod sessions;
mod states;

use crate::index_set::IndexSet;
use coap_conn::Reason;
use coap_model::{Config, ConnId};
use coap_path::Applications;
use coap_server_session::{ServerState, Session};
use concerned::Concerned;
use indexmap::IndexMap;
use std::alloc::{AllocError, Global};
use std::marker::Model;

/// Work left on a connection.
#[derive(Clone, Copy, PartialEq, Eq)]
pub struct ConnectionWork {
    /// `true` if the connection accepts bytes.
    pub takes: bool,
    /// `true` if the connection no longer accepts messages.
    pub stopped: bool,
    /// `true` if bytes are queued.
    pub waits: bool,
    /// `true` if nothing remains to be written, now or later.
    pub finished: bool,
    /// Next time, in seconds, at which time alone may queue something.
    pub due: Option<u64>,
}

/// Result of `Server::flush_once_at`.
#[derive(Clone, Copy)]
pub struct FlushStep {
    /// `true` if bytes were queued before.
    pub waited: bool,
    /// Number of pending entries plus the number of observers, before the call.
    pub more: usize,
    /// Reason for which the connection no longer accepts messages.
    pub stop: Option<Reason>,
}

/// Result of `Server::take_all_for`.
#[derive(Clone, Copy)]
pub struct Served {
    /// Number of bytes accepted.
    pub count: usize,
    /// Indices of the connections on which the call may have changed the work left.
    pub affected: IndexSet,
}

/// A connection by its id, and its index as `Server::index_of` returns it.
#[derive(Clone, Copy, PartialEq, Eq)]
pub struct ConnIndex {
    /// Id of the connection.
    pub id: ConnId,
    /// Index of the connection.
    pub at: usize,
}

/// Connections by their ids, in ascending order.
type Sessions = IndexMap<u64, Session>;

/// Server with all its connections. Each call is one event. Contracts see a `ServerValue`, and the history of events
/// that it shows.
///
/// # Examples
///
/// ```
/// let mut server = Server::new(rt.alloc(), Config::builder().build()?)?;
/// let id = server.open()?;
/// // The client's CSM, and a GET of the root. A call of `take` processes one message.
/// let input = b"\x00\xe1\x01\x01\x2a".as_slice();
/// let csm = server.take(id, input)?;
/// let get = server.take(id, &input[csm.bytes..])?;
/// assert!(&rt; csm.bytes == 2 && get.bytes == 3);
/// // The server's CSM, and the response.
/// let output = server.front(id).unwrap_or(&[]);
/// assert!(&rt; output.ends_with(b"coap+tcp"));
/// let count = output.len();
/// server.written(id, count)?;
/// ```
#[derive(Drop)]
pub struct Server {
    alloc: Global,
    config: Config,
    shared: ServerState,
    ids: u64,
    sessions: Sessions,
    sets: Concerned,
    /// Index of the connection that was found last. A search looks there first.
    recent: usize,
}

impl Model for Server {
    ghost use Rattle.coap_server_engine.specs.values.Servers.{ServerValue};

    ghost Value = { ServerValue };

    ghost use Rattle.coap_server_engine.specs.views.ServerViews.{server_value, is_server};

    ghost view = { server_value };

    ghost invariant = { is_server };
}

impl Server {
    /// Returns a server without connections and resources, whose counts start at those of the configuration.
    ///
    /// # Errors
    ///
    /// Returns `AllocError` if allocation fails.
    pub fn new(alloc: Global, config: Config) -> Result<Server, AllocError>
        ensures value { IfOk result (λ s. s ≡ new_server config) }
        ensures shows { IfOk result (λ s. Shows s []) }
    {
        let starts = config.starts();
        let sets = Concerned::new(alloc)?;
        let sessions = IndexMap::with_capacity(alloc, config.connections())?;
        let shared = ServerState::open(
            alloc,
            config.dynamic_max(),
            config.rep_max(),
            starts.versions,
            starts.moment,
        )?;
        Ok(Server {
            alloc,
            config,
            shared,
            ids: starts.ids,
            sessions,
            sets,
            recent: 0,
        })
    }

    /// Returns a server as `new` does, whose application answers the requests of these entries (`Applications`).
    ///
    /// A request that the application answers is pending until `respond` is called with its token. At its deadline, the
    /// server sends 5.04 (Gateway Timeout). If the list of pending entries is full, it sends 5.03 at once.
    ///
    /// # Errors
    ///
    /// Returns `AllocError` if allocation fails.
    pub fn with_applications(
        alloc: Global,
        config: Config,
        applications: Applications,
    ) -> Result<Server, AllocError>
        ensures value { IfOk result (λ s. s ≡ new_server (config_with config (Some applications))) }
        ensures shows { IfOk result (λ s. Shows s []) }
    {
        let Server {
            alloc,
            config,
            shared,
            ids,
            sessions,
            sets,
            recent,
        } = Server::new(alloc, config)?;
        let ServerState { store, now } = shared;
        prove!(1 <= applications.deadline());
        let shared = ServerState {
            store: store.with_applications(applications)?,
            now,
        };
        Ok(Server {
            alloc,
            config,
            shared,
            ids,
            sessions,
            sets,
            recent,
        })
    }

    /// Returns the allocator.
    pub(crate) fn alloc(&self) -> Global {
        self.alloc
    }
}
