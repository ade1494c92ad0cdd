//! The listener of a server over TCP: one listening socket, the connections that it accepted, and one set of events for
//! all of them.

ghost use Rattle.std.specs.Prelude.{◌≡◌, ◌≤◌, ◌&&◌, true, false, length, Some, None, IsSome, IfSome, IfNone, IfOk};
ghost use Rattle.std.specs.Prelude.{option_map};
ghost use Rattle.std.specs.Duration.{as_nanos};
ghost use Rattle.std.specs.IoError.{error_kind, raw_os_error};
ghost use Rattle.coap_io.specs.declared.wire.Wait.TheVariants as wanted;
ghost use Rattle.coap_sockets.specs.Durations.{second};
ghost use Rattle.coap_sockets.specs.declared.io_results.AcceptError.TheVariants as refusal;
ghost use Rattle.coap_sockets.specs.declared.door.ListenFault.TheVariants as fault;
ghost use Rattle.coap_sockets.specs.IoResults.{listen_error_of};
ghost use Rattle.coap_sockets.specs.ListenFaults.{listen_fault_number};
ghost use Rattle.coap_sockets.specs.Woken.{named};

use crate::clock::monotonic;
use crate::durations::{at_most, left_of, left_until, second};
use crate::io_results::{AcceptError, ListenError, accept_fault, listen_error_of};
use crate::keepalive::keep_alive;
use crate::readiness::Readiness;
use crate::server_wire::{SharedReadiness, SocketWire};
use crate::troubles::DoorTroubles;
use crate::woken::Woken;
use coap_io::{Door, Wait};
use mio::net::{TcpListener, TcpStream};
use mio::{Events, Interest, Poll, Token};
use std::alloc::{AllocError, Global};
use std::cell::Cell;
use std::net::{Net, SocketAddr};
use std::rc::Rc;
use std::time::Duration;
use std::{io, time};
use thiserror::Error;

/// Error of `SocketDoor::listen`.
#[derive(Clone, Copy, Debug, PartialEq, Eq, Error)]
pub enum ListenFault {
    /// Address at which the system cannot listen, with the cause.
    #[error("cannot listen")]
    Socket(ListenError),
    /// Failed allocation.
    #[error("no memory")]
    Memory,
}

impl ListenFault {
    /// Returns the number of the error: 1 for `Socket`, 2 for `Memory`.
    pub const fn number(self) -> u8
        ensures { result ≡ listen_fault_number self }
    {
        match self {
            ListenFault::Socket(_) => 1,
            ListenFault::Memory => 2,
        }
    }
}

impl From<io::Error> for ListenFault {
    ghost from_gives = { λ error given.
        given ≡ fault.Socket (listen_error_of (error_kind error) (raw_os_error error)) };

    fn from(error: io::Error) -> ListenFault {
        ListenFault::Socket(listen_error_of(error))
    }
}

impl From<AllocError> for ListenFault {
    ghost from_gives = { λ error given. given ≡ fault.Memory };

    fn from(_error: AllocError) -> ListenFault {
        ListenFault::Memory
    }
}

/// Numbers of failed system calls of a listener, which the listener and a log share.
type Troubles = Rc<Cell<DoorTroubles>>;

/// Token of the listening socket. No wire has it: the token of a wire is the index of its place.
const LISTENER: Token = Token(usize::MAX);

/// Number of sockets, of those that one wait reports, that are written as soon as they were read. A write may wake the
/// peer, which costs more than the write if the peer is another process on the same machine. The sockets after these
/// are therefore all read first, and then written together.
const WRITES_BEFORE_READS: usize = 8;

/// Listener of a server at one address.
///
/// It has a place for each wire, which is free while no wire shares it. The token of a wire is the index of its place.
/// A closed socket leaves the set of events, and all events of a wait are processed before another place is used. So no
/// event of an old wire reaches a new one.
#[derive(Drop)]
pub struct SocketDoor<'a, R> {
    rt: &'a R,
    listener: TcpListener,
    poll: Poll,
    events: Events,
    slots: Vec<SharedReadiness>,
    /// Places of the wires that had events.
    woken: Woken,
    /// `true` if a client may be waiting at the listening socket.
    may_accept: bool,
    /// `true` if each wait lasts at most one second.
    wakes: bool,
    /// Time at which the system had no room for a connection. Nothing is accepted for one second after it.
    full_since: Option<Duration>,
    /// Numbers of failed system calls, which the program can share.
    troubles: Troubles,
}

impl<'a, R: Net + time::Clock> SocketDoor<'a, R> {
    /// Listens at an address, with places for `wires` connections. After a program that listened at the address was
    /// killed, the address can be used again at once (`SO_REUSEADDR`).
    ///
    /// # Errors
    ///
    /// - `Socket`: the system cannot listen at the address, for this reason.
    /// - `Memory`: an allocation failed.
    pub fn listen(
        rt: &'a R,
        alloc: Global,
        address: SocketAddr,
        wires: usize,
    ) -> Result<SocketDoor<'a, R>, ListenFault>
        ensures slots { IfOk result (λ door. length door.slots.items ≡ wires) }
        ensures ready { IfOk result (λ door. (door.may_accept ≡ true) × (door.full_since ≡ None)) }
        ensures sleeps { IfOk result (λ door. door.wakes ≡ false) }
    {
        let slots = slots(alloc, wires)?;
        let woken = Woken::new(alloc, wires)?;
        let events = Events::with_capacity(alloc, wires.saturating_add(1))?;
        let troubles = no_troubles(alloc)?;
        let poll = Poll::new(rt)?;
        let mut listener = TcpListener::bind(rt, address)?;
        keep_alive(&listener);
        poll.registry()
            .register(&mut listener, LISTENER, Interest::READABLE)?;
        Ok(SocketDoor {
            wakes: false,
            rt,
            listener,
            poll,
            events,
            slots,
            woken,
            may_accept: true,
            full_since: None,
            troubles,
        })
    }

    /// Returns the address of the listener, as the system reports it.
    ///
    /// # Errors
    ///
    /// The error of the system, if it does not report the address.
    pub fn address(&self) -> io::Result<SocketAddr> {
        self.listener.local_addr()
    }

    /// Returns a share of the numbers of failed system calls. The listener updates them whenever a call fails, and a
    /// log can read them while the listener is borrowed. If the numbers have too many shares, the result is `None`.
    pub fn troubles(&self) -> Option<Rc<Cell<DoorTroubles>>> {
        self.troubles.clone().ok()
    }

    /// Makes each wait last at most one second from now on. A program calls it if it has work of its own once a second.
    pub fn wake_each_second(&mut self)
        ensures wakes { self.new.wakes ≡ true }
        ensures accepts { self.new.may_accept ≡ self.old.may_accept }
    {
        self.wakes = true;
    }

    /// Returns the longest time of a wait that has no end otherwise.
    fn longest(&self) -> Option<Duration>
        ensures none { self.now.wakes ≡ false → result ≡ None }
        ensures some { self.now.wakes ≡ true → IsSome result }
        ensures short { IfSome result (λ time. as_nanos time ≤ second) }
    {
        if self.wakes { Some(second()) } else { None }
    }

    /// Returns the time for which nothing is accepted, because the system had no room for a connection.
    fn full_for(&self) -> Duration
        ensures none { self.now.full_since ≡ None → as_nanos result ≡ 0 }
        ensures most { as_nanos result ≤ second }
    {
        match self.full_since {
            Some(since) => left_of(second(), since, monotonic(self.rt)),
            None => Duration::ZERO,
        }
    }

    /// Returns the wire of a new connection to a peer, for a place. If its socket cannot be set up, the connection is
    /// closed and the result is `None`.
    fn wire(&self, mut stream: TcpStream, peer: SocketAddr, place: usize) -> Option<SocketWire>
        ensures peer { IfSome result (λ wire. wire.peer ≡ peer) }
        ensures place { IfSome result (λ wire. wire.place ≡ place) }
    {
        stream.set_nodelay(true).ok()?;
        let readiness = self.slots.get(place)?.clone().ok()?;
        readiness.set(Readiness::unknown());
        self.poll
            .registry()
            .register(
                &mut stream,
                Token(place),
                Interest::READABLE | Interest::WRITABLE | Interest::PRIORITY,
            )
            .ok()?;
        Some(SocketWire {
            stream,
            readiness,
            peer,
            place,
        })
    }

    /// Records the reason for which an accept gave no connection.
    fn keep(&mut self, refused: AcceptError)
        ensures none_there { refused ≡ refusal.NoneThere →
            (self.new.may_accept ≡ false) × (self.new.full_since ≡ self.old.full_since) }
        ensures once { refused ≡ refusal.Once →
            (self.new.may_accept ≡ self.old.may_accept) × (self.new.full_since ≡ self.old.full_since) }
        ensures full { refused ≡ refusal.Full →
            (self.new.may_accept ≡ self.old.may_accept) × IsSome self.new.full_since }
    {
        match refused {
            AcceptError::NoneThere => self.may_accept = false,
            AcceptError::Once => {}
            AcceptError::Full => self.full_since = Some(monotonic(self.rt)),
        }
    }

    /// Returns the longest time of a wait, or `None` for a wait without end.
    fn time_for(&self, wait: Wait, opens: bool) -> Option<Duration>
        ensures no { wait ≡ wanted.No → option_map as_nanos result ≡ Some 0 }
        ensures forever { self.now.wakes ≡ false → wait ≡ wanted.Forever → opens && self.now.may_accept ≡ false →
            result ≡ None }
        // A wait has an end, unless `Wait::Forever` is requested, and then too if the listener wakes each second.
        ensures ends { IfNone result ((wait ≡ wanted.Forever) × (self.now.wakes ≡ false)) }
        // A client that is already waiting is not delayed, unless the system has no room for its connection.
        ensures at_once { opens && self.now.may_accept ≡ true → self.now.full_since ≡ None →
            option_map as_nanos result ≡ Some 0 }
        // A wait with an end lasts at most a second. The system does not end it earlier if the clock is set forward, or
        // after the machine was suspended.
        ensures short { IfSome result (λ time. as_nanos time ≤ second) }
    {
        let wanted = match wait {
            Wait::No => Some(Duration::ZERO),
            Wait::Until(moment) => Some(self.left_until(moment)),
            Wait::Forever => self.longest(),
        };
        if opens && self.may_accept {
            Some(at_most(self.full_for(), wanted))
        } else {
            wanted
        }
    }

    /// Returns the time until a second since 1970 begins, at most one second. If the system's clock cannot be read, the
    /// result is one second.
    fn left_until(&self, moment: u64) -> Duration
        ensures { as_nanos result ≤ second }
    {
        match self.rt.since_1970() {
            Ok(now) => left_until(moment, now).min(second()),
            Err(_) => second(),
        }
    }

    /// Passes the events of a wait to the wires and to the listener, and records the places of the wires.
    fn tell(&mut self) {
        self.woken.begin();
        for (before, event) in self.events.iter().enumerate() {
            let place = event.token().0;
            match self.slots.get(place) {
                Some(slot) => {
                    let after_many = before >= WRITES_BEFORE_READS;
                    slot.set(slot.get().after_event(event, after_many));
                    self.woken.add(place);
                }
                None => self.may_accept = true,
            }
        }
    }
}

/// Returns the numbers of failed system calls of a new listener.
fn no_troubles(alloc: Global) -> Result<Troubles, AllocError> {
    Ok(Rc::new(alloc, Cell::new(DoorTroubles::none()))?)
}

/// Returns `count` places that no wire shares yet.
fn slots(alloc: Global, count: usize) -> Result<Vec<SharedReadiness>, AllocError>
    ensures { IfOk result (λ slots. length slots.items ≡ count) }
{
    let mut slots = Vec::with_capacity(alloc, count)?;
    for _ in 0..count {
        slots.push(Rc::new(alloc, Cell::new(Readiness::unknown()))?)?;
    }
    Ok(slots)
}

impl<'a, R: Net + time::Clock> Door for SocketDoor<'a, R> {
    type Wire = SocketWire;

    fn next(&mut self) -> Option<SocketWire>
        // The system is not called if no client is waiting.
        ensures { self.old.may_accept ≡ false → result ≡ None }
    {
        if !self.may_accept || !self.full_for().is_zero() {
            return None;
        }
        let place = self
            .slots
            .iter()
            .position(|place| Rc::strong_count(place) == 1)?;
        match self.listener.accept() {
            Ok((stream, peer)) => {
                let wire = self.wire(stream, peer, place);
                if wire.is_none() {
                    self.troubles.set(self.troubles.get().after_other());
                }
                wire
            }
            Err(error) => {
                let refused = accept_fault(error);
                if refused != AcceptError::NoneThere {
                    self.troubles.set(self.troubles.get().after_accept(error));
                }
                self.keep(refused);
                None
            }
        }
    }

    // If the wait fails, nothing is recorded, and the next wait reports the events.
    fn wait(&mut self, wait: Wait, opens: bool) {
        let time = self.time_for(wait, opens);
        if self.poll.poll(&mut self.events, time).is_ok() {
            self.tell();
        } else {
            self.troubles.set(self.troubles.get().after_wait());
        }
    }

    fn closed(&mut self, _wire: SocketWire) {}

    fn woken(&self) -> Option<&[usize]>
        ensures { option_map (λ places. places.now) result ≡ named self.now.woken }
    {
        self.woken.places()
    }
}
