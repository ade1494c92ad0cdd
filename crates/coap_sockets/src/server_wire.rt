//! The connection of a server over TCP. The listener (`door.rt`) makes one for each socket that it accepted.

ghost use Rattle.std.specs.Prelude.{◌≡◌, Some, None};

use crate::readiness::Readiness;
use coap_io::{Got, READ_SIZE, Ready, Wire};
use mio::net::TcpStream;
use std::cell::Cell;
use std::io::Read;
use std::net::{Shutdown, SocketAddr};
use std::rc::Rc;

/// Readiness of a wire's socket, which the wire and the listener share.
pub(crate) type SharedReadiness = Rc<Cell<Readiness>>;

/// One accepted connection. Its socket is closed when it is dropped.
pub struct SocketWire {
    pub(crate) stream: TcpStream,
    pub(crate) readiness: SharedReadiness,
    pub(crate) peer: SocketAddr,
    pub(crate) place: usize,
}

impl SocketWire {
    /// Returns the address of the peer, as the system reported it when it accepted the connection.
    pub fn peer(&self) -> SocketAddr
        ensures { result ≡ self.now.peer }
    {
        self.peer
    }
}

// The system resets a connection that is closed with unread bytes, and the peer may then lose the last bytes written.
// So the socket is first shut down for writing, and the bytes received so far are read and discarded.
impl Drop for SocketWire {
    fn drop(self) {
        let SocketWire {
            mut stream,
            readiness: _,
            peer: _,
            place: _,
        } = self;
        let _ = stream.shutdown(Shutdown::Write);
        give_up(&mut stream);
    }
}

/// Reads the bytes received so far and discards them, at most a mebibyte.
fn give_up<S: Read>(stream: &mut S) {
    let mut bytes = [0; READ_SIZE];
    for _ in 0..64 {
        match stream.read(&mut bytes) {
            Ok(0) => return,
            Ok(_) => {}
            Err(_) => return,
        }
    }
}

impl Wire for SocketWire {
    // A socket does not record the bytes that it transferred.
    ghost given = { λ _. None };

    ghost written = { λ _. None };

    fn read(&mut self, buffer: &mut [u8]) -> Got {
        let mut readiness = self.readiness.get();
        let got = readiness.read(&mut self.stream, buffer);
        self.readiness.set(readiness);
        got
    }

    fn write(&mut self, bytes: &[u8]) -> Got {
        let mut readiness = self.readiness.get();
        let got = readiness.write(&mut self.stream, bytes);
        self.readiness.set(readiness);
        got
    }
}

impl Ready for SocketWire {
    // The readiness of a socket is stored in the cell that the wire and the listener share.
    ghost readable = { λ _. None };

    ghost writable = { λ _. None };

    fn may_read(&self) -> bool {
        self.readiness.get().readable
    }

    fn may_write(&self) -> bool {
        self.readiness.get().writable
    }

    fn place(&self) -> Option<usize>
        ensures { result ≡ Some self.now.place }
    {
        Some(self.place)
    }
}
