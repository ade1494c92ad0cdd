//! The state of a path of a server.

use super::Server;
use coap_store::{PathKey, State};

impl Server {
    ghost use Rattle.std.specs.Prelude.{◌≡◌};
    ghost use Rattle.coap_server_engine.specs.Prelude.{state_of, state_value};

    /// Returns the state of a path, built-in or not, at the time of the server. The representation is borrowed, so the
    /// call copies no bytes of a stored one, and allocates no memory.
    ///
    /// # Examples
    ///
    /// ```
    /// let config = Config::builder().dynamic_max(1).build()?;
    /// let mut server = Server::new(rt.alloc(), config)?;
    /// let path = PathKey::from_segments(&[b"temperature"]).ok_or("no path")?;
    /// let version = server.put(&path, Some(0), b"21.5")?;
    /// match server.state(&path) {
    ///     State::Present(stored) => {
    ///         assert!(&rt; stored.version() == version && stored.bytes() == b"21.5".as_slice());
    ///     }
    ///     State::Absent => assert!(&rt; false),
    /// }
    /// ```
    pub fn state(&self, path: &PathKey) -> State<'_>
        ensures { state_value result ≡ state_of self.now.shared.store self.now.shared.now path.now }
    {
        self.shared.store.state(path, self.shared.now)
    }
}
