//! TCP keep-alive (RFC 9293 section 3.8.4): the system probes a silent peer, and ends the connection if
//! the peer is gone.
//!
//! std and mio have no call for it. `keep_alive` therefore calls the C library, in the only `unsafe` block besides the
//! two of `c_handle`.

ghost use Rattle.std.specs.Prelude.{◌≡◌, ◌++◌, replicate};
ghost use Rattle.std.specs.Int.{to_le_bytes};
ghost use mir.Syntax.{w32};

use libc::net as c;
use std::os::fd::AsRawFd;

/// Seconds of silence after which the system sends the first probe. A connection whose peer is gone ends after
/// `IDLE + PROBES * INTERVAL` seconds, which is about two minutes. While the peer has not acknowledged all bytes, the
/// system repeats them instead, and ends the connection after about 15 minutes. The probes also keep the state of
/// address translators (NAT) on the path, of which many forget a silent connection after a few minutes.
const IDLE: u32 = 60;

/// Seconds between two probes.
const INTERVAL: u32 = 10;

/// Number of probes without a reply after which the connection ends.
const PROBES: u32 = 5;

/// Returns the value of an option of a socket. Its first four bytes are an `int` in the order of the machine.
fn option_value(number: u32) -> [u8; 16]
    ensures { result ≡ to_le_bytes w32 number ++ replicate 12 0 }
{
    let mut value = [0; 16];
    value[..4].copy_from_slice(&number.to_ne_bytes());
    value
}

/// Lets the system probe the peers of a socket. A listening socket passes its options on to the sockets
/// that it accepts.
///
/// If the system rejects an option, the socket keeps the value of the system for it.
pub(crate) fn keep_alive(socket: &impl AsRawFd) {
    let fd = socket.as_raw_fd();
    let (on, idle) = (option_value(1), option_value(IDLE));
    let (interval, probes) = (option_value(INTERVAL), option_value(PROBES));
    // The C library reads four bytes of each value, and keeps no reference to it.
    unsafe {
        let _ = c::setsockopt(fd, c::IPPROTO_TCP, c::TCP_KEEPIDLE, &idle, 4);
        let _ = c::setsockopt(fd, c::IPPROTO_TCP, c::TCP_KEEPINTVL, &interval, 4);
        let _ = c::setsockopt(fd, c::IPPROTO_TCP, c::TCP_KEEPCNT, &probes, 4);
        let _ = c::setsockopt(fd, c::SOL_SOCKET, c::SO_KEEPALIVE, &on, 4);
    }
}
