//! The readiness of a socket, as far as it is known without a system call.

ghost use Rattle.std.specs.Prelude.{◌≡◌, true, false, length};
ghost use Rattle.coap_io.specs.streams.Wires.{IsWithin};
ghost use Rattle.coap_io.specs.declared.wire.Got.TheVariants.{Later};
ghost use Rattle.coap_sockets.specs.Ready as spec;

use crate::io_results::{is_would_block, read_got, write_got};
use coap_io::Got;
use mio::event::Event;
use std::io;
use std::io::{Read, Write};

/// Readiness of a socket, as far as it is known without a system call.
///
/// The system reports changes only. A report is therefore valid until a call finds that the socket has no input, or no
/// room. A call that transfers fewer bytes than requested has found the same, except for a read that stops short.
#[derive(Clone, Copy, PartialEq, Eq)]
pub struct Readiness {
    /// `true` if a read may return something other than `Later`.
    pub readable: bool,
    /// `true` if a write may return something other than `Later`.
    pub writable: bool,
    /// `true` if a read may return fewer bytes than its buffer has room for, and leave something that the system has
    /// already reported. That can be the end of input, an error, or bytes after urgent data.
    pub stops_short: bool,
    /// `true` if the next write is deferred once, until the other sockets that the same wait reported have been read.
    pub yields: bool,
    /// `true` if a write was deferred and none was made since. The next write is then not deferred.
    pub has_yielded: bool,
}

impl Readiness {
    /// Returns the readiness of a new socket, for which a read and a write must be tried.
    pub(crate) fn unknown() -> Readiness
        ensures { result ≡ spec.unknown }
    {
        Readiness {
            readable: true,
            writable: true,
            stops_short: false,
            yields: false,
            has_yielded: false,
        }
    }

    /// Returns the readiness after an event. `after_many` is `true` if the same wait reported at least
    /// `WRITES_BEFORE_READS` events before it.
    pub(crate) fn after_event(self, event: &Event, after_many: bool) -> Readiness
        ensures { result ≡ spec.after_event self event.now after_many }
    {
        let failed = event.is_error() || event.is_read_closed();
        Readiness {
            readable: self.readable || event.is_readable() || failed,
            writable: self.writable
                || event.is_writable()
                || event.is_write_closed()
                || event.is_error(),
            stops_short: self.stops_short || failed || event.is_priority(),
            yields: after_many && event.is_readable() && !self.has_yielded,
            has_yielded: self.has_yielded,
        }
    }

    /// Returns the readiness after a read into a buffer of `room` bytes.
    fn after_read(self, room: usize, answer: io::Result<usize>) -> Readiness
        ensures { result ≡ spec.after_read self room answer }
    {
        let readable = match answer {
            Ok(count) => count == 0 || !(count < room) || self.stops_short,
            Err(error) => !is_would_block(error),
        };
        Readiness { readable, ..self }
    }

    /// Returns the readiness after a write of `offered` bytes.
    fn after_write(self, offered: usize, answer: io::Result<usize>) -> Readiness
        ensures { result ≡ spec.after_write self offered answer }
    {
        let writable = match answer {
            Ok(count) => count == 0 || !(count < offered),
            Err(error) => !is_would_block(error),
        };
        Readiness {
            writable,
            yields: false,
            has_yielded: false,
            ..self
        }
    }

    /// Returns the readiness after a write was deferred.
    fn deferred(self) -> Readiness
        ensures { result ≡ spec.deferred self }
    {
        Readiness {
            yields: false,
            has_yielded: true,
            ..self
        }
    }

    /// Reads once, if a read may return something, and records the resulting readiness.
    pub(crate) fn read<S: Read>(&mut self, stream: &mut S, buffer: &mut [u8]) -> Got
        ensures within { IsWithin (length buffer.new) result }
        // The system is not called if the socket has no input.
        ensures idle { self.old.readable ≡ false →
            (stream.new ≡ stream.old) × (self.new ≡ self.old) × (result ≡ Later) }
        // Otherwise the call acts as one read, whose answer decides the readiness and the result.
        ensures made { self.old.readable ≡ true →
            spec.ActsAsOneRead (S.remaining stream.old) (S.remaining stream.new) buffer.new self.old self.new result }
    {
        if !self.readable {
            return Got::Later;
        }
        let room = buffer.len();
        let answer = stream.read(buffer);
        *self = self.after_read(room, answer);
        read_got(answer)
    }

    /// Writes once, if there may be room and the write is not deferred, and records the resulting readiness.
    pub(crate) fn write<S: Write>(&mut self, stream: &mut S, bytes: &[u8]) -> Got
        ensures within { IsWithin (length bytes.now) result }
        // The system is not called if the socket has no room.
        ensures idle { self.old.writable ≡ false →
            (stream.new ≡ stream.old) × (self.new ≡ self.old) × (result ≡ Later) }
        // The system is not called either if the write is deferred. A write is deferred at most once.
        ensures later { self.old.writable ≡ true → self.old.yields ≡ true →
            (stream.new ≡ stream.old) × (self.new ≡ spec.deferred self.old) × (result ≡ Later) }
        // Otherwise the call acts as one write of these bytes, whose answer decides the readiness and the result. Both
        // flags of deferral are then clear.
        ensures made { self.old.writable ≡ true → self.old.yields ≡ false →
            spec.ActsAsOneWrite (S.contents stream.old) (S.contents stream.new) bytes.now self.old self.new result }
    {
        if !self.writable {
            return Got::Later;
        }
        if self.yields {
            *self = self.deferred();
            return Got::Later;
        }
        let answer = stream.write(bytes);
        *self = self.after_write(bytes.len(), answer);
        write_got(answer)
    }
}
