//! The connection of a client over TCP, whose calls may wait.

ghost use Rattle.std.specs.Prelude.{◌≡◌, ◌≢◌, ℕ, length, None, [], ◌∷◌};
ghost use Rattle.std.specs.IoError.{error_kind};
ghost use Rattle.std.specs.declared.io.ErrorKind.TheVariants as kind;
ghost use Rattle.coap_io.specs.streams.Wires.{IsWithin, bytes_passed};
ghost use Rattle.coap_sockets.specs.Ready.{is_blocked_by, is_later};
ghost use Rattle.coap_sockets.specs.declared.io_results.ConnectError.TheVariants as hindrance;
ghost use Rattle.coap_sockets.specs.declared.client_wire.ConnectFault.TheVariants as fault;
ghost use Rattle.coap_sockets.specs.IoResults.{connect_error_of};
ghost use Rattle.coap_io.specs.streams.Device.{AddsBytes};
ghost use Rattle.coap_io.specs.streams.DeviceTraces.{AddsCalls};

use crate::clock::RunClock;
use crate::durations::end_of_attempt;
use crate::io_results::{ConnectError, connect_error_of, read_got, write_got};
use crate::keepalive::keep_alive;
use coap_io::{Got, Wire};
use mio::net::TcpStream;
use mio::{Events, Interest, Poll, Token};
use std::alloc::{AllocError, Global};
use std::io::{ErrorKind, Read, Write};
use std::net::{Net, SocketAddr, ToSocketAddrs};
use std::time::Duration;
use std::{io, time};
use thiserror::Error;

/// Error of `ClientWire::connect`.
#[derive(Clone, Copy, Debug, PartialEq, Eq, Error)]
pub enum ConnectFault {
    /// Failure to connect, with its cause. If the host has several addresses, the cause is that of the last address
    /// tried.
    #[error("cannot connect")]
    Socket(ConnectError),
    /// Failed allocation.
    #[error("no memory")]
    Memory,
}

impl From<io::Error> for ConnectFault {
    ghost from_gives = { λ error given. given ≡ fault.Socket (connect_error_of (error_kind error)) };

    fn from(error: io::Error) -> ConnectFault {
        ConnectFault::Socket(connect_error_of(error))
    }
}

impl From<AllocError> for ConnectFault {
    ghost from_gives = { λ error given. given ≡ fault.Memory };

    fn from(_error: AllocError) -> ConnectFault {
        ConnectFault::Memory
    }
}

/// Token of the only socket.
const LINE: Token = Token(0);

/// Returns the error for a failed lookup of a name.
fn lookup_fault(error: io::Error) -> ConnectFault
    ensures memory { error_kind error ≡ kind.OutOfMemory → result ≡ fault.Memory }
    ensures other { error_kind error ≢ kind.OutOfMemory → result ≡ fault.Socket hindrance.UnknownName }
{
    match error.kind() {
        ErrorKind::OutOfMemory => ConnectFault::Memory,
        _ => ConnectFault::Socket(ConnectError::UnknownName),
    }
}

/// State for connecting to a host, which tries one address after the other.
#[derive(Drop)]
struct Dialer<'a, R> {
    rt: &'a R,
    poll: Poll,
    events: Events,
    clock: RunClock<'a, R>,
}

impl<'a, R: Net + time::Clock> Dialer<'a, R> {
    /// Returns the connection to an address. The attempt fails when the clock reaches `end`.
    fn dial(&mut self, address: SocketAddr, end: Duration) -> Result<TcpStream, ConnectFault> {
        let mut stream = TcpStream::connect(self.rt, address)?;
        self.poll
            .registry()
            .register(&mut stream, LINE, Interest::WRITABLE)?;
        if !self.wait_connected(end)? {
            return Err(ConnectFault::Socket(ConnectError::TimedOut));
        }
        if let Some(error) = stream.take_error()? {
            return Err(ConnectFault::from(error));
        }
        stream.peer_addr()?;
        stream.set_nodelay(true)?;
        keep_alive(&stream);
        Ok(stream)
    }

    /// Waits until the attempt to connect has succeeded or failed. Returns `false` if the clock reached `end` first.
    fn wait_connected(&mut self, end: Duration) -> io::Result<bool> {
        for _ in 0..u64::MAX {
            let left = end.saturating_sub(self.clock.passed());
            self.poll.poll(&mut self.events, Some(left))?;
            if !self.events.is_empty() {
                return Ok(true);
            }
            if left.is_zero() {
                break;
            }
        }
        Ok(false)
    }

    /// Returns the wire of a connection, whose run begins now.
    fn line(self, stream: TcpStream) -> ClientWire<'a, R> {
        ClientWire {
            stream,
            poll: self.poll,
            events: self.events,
            clock: RunClock::start(self.rt),
            is_blocked: true,
            is_stuck: false,
            has_ticked: false,
        }
    }
}

/// Connection of a client.
///
/// A read without input waits for some, at most until the next second of the run begins. A write without room waits in
/// the same way, but only if the call before it was one too. A caller that writes twice without a read must write
/// before it can continue.
#[derive(Drop)]
pub struct ClientWire<'a, R> {
    stream: TcpStream,
    poll: Poll,
    events: Events,
    clock: RunClock<'a, R>,
    /// `true` if bytes may have to be written: at first, and if the last write did not accept all bytes.
    is_blocked: bool,
    /// `true` if the last call was a write that found no room.
    is_stuck: bool,
    /// `true` if the last wait ended because a second of the run began. The run checks its deadlines at that time
    /// before it waits again.
    has_ticked: bool,
}

impl<'a, R: Net + time::Clock> ClientWire<'a, R> {
    /// Connects to a host, which is a name or an address without brackets, at a port.
    ///
    /// The addresses of the host are tried in turn, of a name the first 32. All attempts together take at most
    /// `seconds` seconds. Each attempt gets an equal share of the time left for it and the later ones. If at least one
    /// second is left, the share is no shorter. The lookup of a name comes before these seconds, and takes as long as
    /// the system needs.
    ///
    /// # Errors
    ///
    /// - `Socket`: the name is unknown, no address accepted a connection in time, or the system failed.
    /// - `Memory`: an allocation failed.
    pub fn connect(
        rt: &'a R,
        alloc: Global,
        place: (&str, u16),
        seconds: u32,
    ) -> Result<ClientWire<'a, R>, ConnectFault> {
        let addresses = match place.to_socket_addrs(rt) {
            Ok(addresses) => addresses,
            Err(error) => return Err(lookup_fault(error)),
        };
        let count = u16::try_from(addresses.len()).unwrap_or(u16::MAX);
        let mut dialer = Dialer {
            rt,
            poll: Poll::new(rt)?,
            events: Events::with_capacity(alloc, 1)?,
            clock: RunClock::start(rt),
        };
        let limit = Duration::from_secs(u64::from(seconds));
        let mut fault = ConnectFault::Socket(ConnectError::UnknownName);
        for (address, index) in addresses.zip(0..count) {
            let Some(end) = end_of_attempt(dialer.clock.passed(), limit, index, count) else {
                break;
            };
            match dialer.dial(address, end) {
                Ok(stream) => return Ok(dialer.line(stream)),
                Err(trouble) => fault = trouble,
            }
        }
        Err(fault)
    }

    /// Returns the address of the peer, as the system reports it.
    ///
    /// # Errors
    ///
    /// The error of the system, if it does not report the address.
    pub fn peer(&self) -> io::Result<SocketAddr> {
        self.stream.peer_addr()
    }

    /// Returns the clock of the run, which began when the connection was made.
    pub fn clock(&self) -> RunClock<'a, R> {
        self.clock.again()
    }

    /// Returns the events that a read waits for: input, and also room if bytes may have to be written.
    fn interest(&self) -> Interest {
        if self.is_blocked {
            Interest::READABLE | Interest::WRITABLE
        } else {
            Interest::READABLE
        }
    }

    /// Waits for one of these events, at most until the next second of the run begins.
    fn wait(&mut self, interest: Interest) {
        // To register the socket again makes the system report again what is ready. If that fails, the wait ends with
        // the second.
        let _ = self
            .poll
            .registry()
            .reregister(&mut self.stream, LINE, interest);
        let time = self.clock.to_next_second();
        let is_polled = self.poll.poll(&mut self.events, Some(time)).is_ok();
        if is_polled && self.events.iter().any(|event| event.is_writable()) {
            self.is_blocked = false;
        }
        self.has_ticked = self.events.is_empty();
    }

    /// Writes once. If there was no room, and the call before found none either, waits for room and writes again.
    fn write_or_wait(&mut self, bytes: &[u8]) -> Got
        ensures { IsWithin (length bytes.now) result }
    {
        let got = write_got(self.stream.write(bytes));
        if got != Got::Later || !self.is_stuck {
            return got;
        }
        self.wait(Interest::WRITABLE);
        write_got(self.stream.write(bytes))
    }
}

/// Returns `true` if a write of `offered` bytes left some for lack of room.
fn is_blocked_by(offered: usize, got: Got) -> bool
    ensures { result ≡ is_blocked_by offered got }
{
    match got {
        Got::Bytes(count) => count < offered,
        Got::Later => true,
        Got::End => false,
        Got::Failed => false,
    }
}

impl<'a, R: Net + time::Clock> Wire for ClientWire<'a, R> {
    // A socket does not record the bytes that it transferred.
    ghost given = { λ _. None };

    ghost written = { λ _. None };

    fn read(&mut self, buffer: &mut [u8]) -> Got {
        self.is_stuck = false;
        let got = read_got(self.stream.read(buffer));
        if got != Got::Later {
            return got;
        }
        if self.has_ticked {
            self.has_ticked = false;
            return Got::Later;
        }
        self.wait(self.interest());
        read_got(self.stream.read(buffer))
    }

    fn write(&mut self, bytes: &[u8]) -> Got
        ensures within { IsWithin (length bytes.now) result }
        ensures wrote { AddsBytes None None (bytes_passed bytes.now result) }
        ensures gave { AddsBytes None None [] }
        ensures answered { AddsCalls None None (result ∷ []) }
        ensures no_read { AddsCalls {A = ℕ} None None [] }
        ensures blocked { self.new.is_blocked ≡ is_blocked_by (length bytes.now) result }
        ensures stuck { self.new.is_stuck ≡ is_later result }
    {
        let got = self.write_or_wait(bytes);
        self.is_stuck = got == Got::Later;
        self.is_blocked = is_blocked_by(bytes.len(), got);
        got
    }
}
