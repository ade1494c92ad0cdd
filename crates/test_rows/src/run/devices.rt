//! A connection and writers in memory, with buffers of fixed size.

ghost use Rattle.std.specs.Prelude.{◌≡◌, false, None, Some};

use crate::wires::{Reads, Writes};
use arrayvec::ArrayVec;
use coap_io::{Got, Outlet, Wire};

/// Maximum number of bytes written to a device.
const ROOM: usize = 1_024;

/// Connection that follows texts, and keeps the bytes written.
#[derive(Drop)]
pub(crate) struct Line<'a> {
    pub reads: Reads<'a>,
    pub writes: Writes<'a>,
    pub written: ArrayVec<u8, ROOM>,
}

impl Wire for Line<'_> {
    ghost given = { λ line. None };

    ghost written = { λ line. None };

    fn read(&mut self, buffer: &mut [u8]) -> Got {
        self.reads.next(buffer)
    }

    fn write(&mut self, bytes: &[u8]) -> Got {
        let got = self.writes.next(bytes.len());
        let Got::Bytes(count) = got else {
            return got;
        };
        match self.written.try_extend_from_slice(&bytes[..count]) {
            Ok(()) => got,
            Err(_) => Got::Failed,
        }
    }
}

/// Writer that keeps the bytes written to it, up to its capacity.
#[derive(Drop)]
pub(crate) struct ScriptedOutlet {
    pub bytes: ArrayVec<u8, ROOM>,
    is_full: bool,
    failed: bool,
}

impl ScriptedOutlet {
    /// Creates an empty writer. If `is_full`, each write fails.
    pub(crate) fn new(is_full: bool) -> ScriptedOutlet
        ensures { result.failed ≡ false }
    {
        ScriptedOutlet {
            bytes: ArrayVec::new(),
            is_full,
            failed: false,
        }
    }
}

impl Outlet for ScriptedOutlet {
    ghost written = { λ page. Some page.bytes.items };

    ghost is_failed = { λ page. page.failed };

    fn write(&mut self, bytes: &[u8]) -> Option<usize> {
        if self.is_full {
            self.failed = true;
            return None;
        }
        let Ok(()) = self.bytes.try_extend_from_slice(bytes) else {
            self.failed = true;
            return None;
        };
        Some(bytes.len())
    }

    fn failed(&self) -> bool {
        self.failed
    }
}
