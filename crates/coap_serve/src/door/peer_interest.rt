//! The I/O interest of a connection.

ghost use Rattle.std.specs.Prelude.{◌≡◌, Some};
ghost use Rattle.coap_serve.specs.Prelude.{interest_in};

use coap_server_engine::ConnectionWork;

/// Present I/O interest of a connection.
#[derive(Clone, Copy, PartialEq, Eq)]
pub(super) struct PeerInterest {
    /// `true` if the connection must be visited whatever its wire does. Bytes that were read can be accepted or must be
    /// discarded, or nothing more will be written.
    pub(super) visit: bool,
    /// `true` if the wire must be read as soon as it has input.
    pub(super) read: bool,
    /// `true` if the wire must be written as soon as it has room.
    pub(super) write: bool,
    /// Next time, in seconds, at which time alone may queue something.
    pub(super) due: Option<u64>,
}

/// Returns the I/O interest of a connection with this work left. `is_empty` is `true` if all bytes that were read are
/// accepted.
#[inline(always)]
pub(super) fn interest_by(work: ConnectionWork, is_empty: bool) -> PeerInterest
    ensures { result ≡ interest_in (Some work) is_empty }
{
    PeerInterest {
        visit: (!is_empty && (work.takes || work.stopped)) || work.finished,
        read: is_empty && work.takes,
        write: work.waits,
        due: work.due,
    }
}
