//! The state that all connections of a server share, and from which requests are answered.

ghost use Rattle.std.specs.Prelude.{◌≡◌, ◌<◌, ◌≤◌, ◌^◌, true, IfOk};
ghost use Rattle.coap_server_session.specs.Prelude.{empty_shared, mark_at as mark_in, present_mark, LARGEST_MESSAGE};
ghost use Rattle.coap_server_session.specs.Prelude.{is_dynamic, kind_of_path};

use coap_store::{PathKey, Present, Store};
use std::alloc::{AllocError, Global};

/// Server state that all connections share: the resources and the time.
#[derive(Drop)]
pub struct ServerState {
    /// Resources of the server.
    pub store: Store,
    /// Time of the server, in seconds.
    pub now: u64,
}

impl ServerState {
    /// Returns the server state with an empty store at the time `now`, in seconds. `Store::new` explains the other
    /// numbers.
    ///
    /// # Errors
    ///
    /// Returns `AllocError` if allocation fails.
    ///
    /// # Preconditions
    ///
    /// `dynamic_max` is at most 1,000, and `rep_max` is at most 1,048,576 bytes.
    pub fn open(
        alloc: Global,
        dynamic_max: usize,
        rep_max: usize,
        versions_from: u64,
        now: u64,
    ) -> Result<ServerState, AllocError>
        requires few { dynamic_max ≤ 1000 }
        requires small { rep_max ≤ LARGEST_MESSAGE }
        ensures value { IfOk result (λ h. h ≡ empty_shared dynamic_max rep_max versions_from now) }
        ensures moment { now < 2 ^ 64 }
    {
        let store = Store::new(alloc, dynamic_max, rep_max, versions_from)?;
        Ok(ServerState { store, now })
    }

    /// Sets the time, in seconds.
    pub fn move_to(&mut self, now: u64)
        ensures { self.new ≡ record self.old { now = now } }
    {
        self.now = now;
    }

    /// Caches the decimal text of the time, so that all requests and notifications of `/time` in one second share it.
    pub fn keep_moment(&mut self)
        ensures { self.new ≡ self.old }
    {
        self.store.keep_moment(self.now);
    }

    /// Returns the mark of the current state of the path of a created resource, or `None` if the path is absent. `near`
    /// is an index that the resource may have.
    ///
    /// A mark is a number that distinguishes the states that a path has over time.
    pub(crate) fn mark(&self, path: &PathKey, near: usize) -> Option<u64>
        requires { is_dynamic (kind_of_path path.now) ≡ true }
        ensures { result ≡ present_mark self.entry.now path.now }
    {
        path.is_kept();
        match self.store.version_near(path, near) {
            Some(version) => Some(if version == 0 { self.now } else { version }),
            None => None,
        }
    }
}

/// Returns the mark of a representation: its version if it is stored, or the time `now` if it is built in.
pub(crate) fn mark_at(now: u64, there: &Present) -> u64
    ensures { result ≡ mark_in now there.now }
{
    let version = there.version();
    if version == 0 { now } else { version }
}
