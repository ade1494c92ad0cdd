//! Devices of the runs of `door.rt`: a listener, connections and a clock in memory. They do what a text says and record
//! their calls.

ghost use Rattle.std.specs.Prelude.{None};

use crate::log::{Page, note};
use crate::row_words::{cut, number};
use crate::wires::{Moments, Reads, Writes};
use coap_io::{Clock, Door, Got, Ready, Wait, Wire, Wires};
use std::cell::Cell;

/// Record of the calls of the devices of a run, and the state that the devices share.
#[derive(Drop)]
pub(crate) struct CallLog<'a> {
    pub page: &'a Page,
    /// `true` if the calls of `Door::wait` are recorded, and a connection is ready when its text says so. Otherwise the
    /// connections are always ready.
    records_waits: bool,
    /// Number of calls of `Door::wait`.
    waits: Cell<usize>,
    /// Time of a clock that advances in waits alone, in seconds.
    moment: Cell<u64>,
}

impl<'a> CallLog<'a> {
    /// Creates a record in a line.
    pub(crate) fn new(page: &'a Page, records_waits: bool, moment: u64) -> CallLog<'a> {
        CallLog {
            page,
            records_waits,
            waits: Cell::new(0),
            moment: Cell::new(moment),
        }
    }
}

/// Connection that follows texts, and records its calls.
#[derive(Drop)]
pub(crate) struct ScriptedWire<'a> {
    place: u64,
    reads: Reads<'a>,
    writes: Writes<'a>,
    log: &'a CallLog<'a>,
}

impl Wire for ScriptedWire<'_> {
    ghost given = { λ wire. None };

    ghost written = { λ wire. None };

    fn read(&mut self, buffer: &mut [u8]) -> Got {
        let got = self.reads.next(buffer);
        note(self.log.page, "read", self.place, &[], &got);
        got
    }

    fn write(&mut self, bytes: &[u8]) -> Got {
        let got = self.writes.next(bytes.len());
        note(self.log.page, "write", self.place, bytes, &got);
        got
    }
}

impl Ready for ScriptedWire<'_> {
    fn may_read(&self) -> bool {
        !self.log.records_waits || self.reads.has_word(self.log.waits.get())
    }

    fn may_write(&self) -> bool {
        !self.log.records_waits || self.writes.has_word(self.log.waits.get())
    }
}

/// Listener that returns the connections that a text names. Each has the words of its writes, those of its reads, and
/// the number of bytes of these reads.
#[derive(Drop)]
pub(crate) struct ScriptedDoor<'a> {
    pub wires: &'a str,
    pub bytes: &'a [u8],
    pub count: u64,
    pub log: &'a CallLog<'a>,
}

impl<'a> ScriptedDoor<'a> {
    /// Returns the next connection, and records the call with its place, or with 0 if there is none.
    fn opened(&mut self) -> Option<ScriptedWire<'a>> {
        let has_wire = !self.wires.is_empty();
        self.count = self.count.saturating_add(1);
        let place = if has_wire { self.count } else { 0 };
        note(self.log.page, "open", place, &[], &());
        if !has_wire {
            return None;
        }
        let (writes, rest) = cut(self.wires);
        let (reads, rest) = cut(rest);
        let (count, rest) = cut(rest);
        self.wires = rest;
        let (bytes, rest) = self
            .bytes
            .split_at_checked(number(count))
            .unwrap_or_default();
        self.bytes = rest;
        Some(ScriptedWire {
            place,
            reads: Reads { text: reads, bytes },
            writes: Writes { text: writes },
            log: self.log,
        })
    }
}

impl<'a> Door for ScriptedDoor<'a> {
    type Wire = ScriptedWire<'a>;

    fn next(&mut self) -> Option<ScriptedWire<'a>> {
        self.opened()
    }

    fn wait(&mut self, wait: Wait, opens: bool) {
        let log = self.log;
        log.waits.set(log.waits.get().saturating_add(1));
        if let Wait::Until(moment) = wait {
            log.moment.set(moment);
        }
        if log.records_waits {
            note(log.page, "wait", u64::from(opens), &[], &wait);
        }
    }

    fn closed(&mut self, _wire: ScriptedWire<'a>) {}
}

impl<'a> Wires for ScriptedDoor<'a> {
    type Wire = ScriptedWire<'a>;

    fn next(&mut self) -> Option<ScriptedWire<'a>> {
        self.opened()
    }
}

/// Clock that returns the times that a text names, or that advances while the server waits, and at no other time.
#[derive(Drop)]
pub(crate) struct DoorClock<'a> {
    /// Times, unless the clock advances in waits.
    pub moments: Option<Moments<'a>>,
    pub log: &'a CallLog<'a>,
}

impl Clock for DoorClock<'_> {
    fn now(&mut self) -> u64 {
        match &mut self.moments {
            Some(moments) => moments.now(),
            None => self.log.moment.get(),
        }
    }
}
