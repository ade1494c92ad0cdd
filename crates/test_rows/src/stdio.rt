//! Rows for runs of `serve_one` over one reader and one writer. `= stdio` with the thirteen numbers of a configuration
//! (`config::configured`) sets the configuration.
//!
//! The event `serve HEX` has the input bytes, and then the numbers that set up the devices. The numbers are:
//!
//! - the maximum number of bytes of a read,
//! - two offsets in the input that no read passes, where 0 is none,
//! - the number of reads that succeed before one fails,
//! - the maximum number of bytes of a write,
//! - the number of bytes that all writes accept,
//! - the number of writes that succeed before one fails.
//!
//! The result has all calls of the devices in order. The result of the run follows, and whether each device failed. All
//! other events are those of `door.rt`.

use crate::config::configured;
use crate::door;
use crate::layer::Layer;
use crate::log::{Page, note, tell_result};
use crate::row_line::RowLine;
use crate::row_words::{cut, numbers, read_hex};
use coap_io::{Outlet, ReadSource, Source, WriteOutlet};
use coap_model::Config;
use coap_serve::serve_one;
use std::alloc::{AllocError, Global};
use std::cell::RefCell;
use std::io::{Read, Write};
use std::{io, mem};

/// Reader or writer that records its calls. A record has the size of the buffer of a read or the bytes of a write, and
/// the number of bytes passed.
#[derive(Drop)]
struct Device<'a> {
    /// Bytes of further reads.
    rest: &'a [u8],
    /// Maximum number of bytes of a call.
    by: usize,
    /// Number of bytes that no call passes; 0 is none.
    cuts: [usize; 2],
    /// Number of bytes of all calls.
    room: usize,
    /// Number of calls before one fails.
    fails: usize,
    page: &'a Page,
}

impl Device<'_> {
    /// Returns the number of bytes that a call passes, at most `count`, or `None` if this call fails.
    fn pass(&mut self, count: usize) -> Option<usize> {
        self.fails = self.fails.checked_sub(1)?;
        let [first, second] = self.cuts;
        let cut = if 0 < first {
            first
        } else if 0 < second {
            second
        } else {
            usize::MAX
        };
        let count = count.min(self.by).min(self.room).min(cut);
        self.room = self.room.saturating_sub(count);
        self.cuts = [first.saturating_sub(count), second.saturating_sub(count)];
        Some(count)
    }
}

impl Read for Device<'_> {
    fn read(&mut self, buf: &mut [u8]) -> io::Result<usize> {
        let passed = self.pass(self.rest.len().min(buf.len()));
        note(self.page, "read", buf.len() as u64, &[], &passed);
        let Some(count) = passed else {
            return Err(io::ErrorKind::Other.into());
        };
        let count = count.min(self.rest.len()).min(buf.len());
        buf[..count].copy_from_slice(&self.rest[..count]);
        self.rest = &self.rest[count..];
        Ok(count)
    }
}

impl Write for Device<'_> {
    fn write(&mut self, buf: &[u8]) -> io::Result<usize> {
        let passed = self.pass(buf.len());
        note(self.page, "write", 0, buf, &passed);
        match passed {
            Some(count) => Ok(count.min(buf.len())),
            None => Err(io::ErrorKind::Other.into()),
        }
    }

    fn flush(&mut self) -> io::Result<()> {
        Ok(())
    }
}

/// Serves bytes over devices with the given setting. Writes their calls, the result, and whether each device failed.
fn serve(alloc: Global, config: &Config, rest: &[u8], setting: &str, page: &Page) {
    if config.starts().ids == u64::MAX {
        return;
    }
    let [
        by,
        cut,
        cut_again,
        read_fails,
        taking,
        room,
        write_fails,
        ..
    ] = numbers(setting);
    let mut source = ReadSource::new(Device {
        rest,
        by,
        cuts: [cut, cut_again],
        room: usize::MAX,
        fails: read_fails,
        page,
    });
    let mut outlet = WriteOutlet::new(Device {
        rest: &[],
        by: taking,
        cuts: [0, 0],
        room,
        fails: write_fails,
        page,
    });
    let outcome = serve_one(alloc, &mut source, &mut outlet, config);
    tell_result(page, &outcome);
    tell_result(page, &source.failed());
    tell_result(page, &outlet.failed());
}

impl Layer for Config {
    fn opened(_alloc: Global, words: &str) -> Option<Result<Config, AllocError>> {
        Some(Ok(configured(words)?))
    }

    /// Executes an event, and writes its result. The devices own the result line during the run. The line in its place
    /// has no capacity, so that `RowLine::new` allocates nothing.
    fn play(&mut self, alloc: Global, event: &str, bytes: &mut Vec<u8>, results: &mut RowLine) {
        let (word, rest) = cut(event);
        let (digits, last) = cut(rest);
        read_hex(digits, bytes);
        let Ok(none) = RowLine::new(alloc, 0) else {
            return results.word("memory");
        };
        let page = RefCell::new(mem::replace(results, none));
        match word {
            "serve" => serve(alloc, self, bytes, last, &page),
            _ => door::play(alloc, self, word, bytes, last, &page),
        }
        *results = page.into_inner();
    }
}
