//! State of a client, as its caller reads it.

ghost use Rattle.std.specs.Prelude.{◌≡◌, ◌≤◌, length};

use super::Client;
use coap_conn::Phase;

impl Client {
    /// Returns the number of outstanding requests, observations and Pings.
    pub fn outstanding(&self) -> usize
        ensures count { result ≡ length self.now.link.outstanding }
        ensures within { length self.now.link.outstanding ≤ self.now.link.limits.outstanding }
    {
        self.link.outstanding()
    }

    /// Returns the phase of the connection.
    pub fn phase(&self) -> Phase
        ensures { result ≡ self.now.link.phase }
    {
        self.link.phase()
    }

    /// Returns the number of bytes queued for writing.
    pub fn waiting(&self) -> usize
        ensures { result ≡ length self.now.link.waiting }
    {
        self.link.waiting()
    }

    /// Returns the Max-Message-Size in bytes that the peer announced last, or 1,152 if there is none (RFC 8323 section
    /// 5.3.1).
    pub fn peer_max(&self) -> u32
        ensures { result ≡ self.now.link.peer_max }
    {
        self.link.peer_max()
    }
}
