//! The standard error of the process, which is written without blocking.

ghost use Rattle.std.specs.Prelude.{◌≤◌, length};

use crate::writer::LogOutlet;
use libc::STDERR_FILENO;
use libc::types::pollfd;

/// Maximum number of bytes of one write to a terminal. A terminal that is ready accepts this number of bytes at once,
/// or one newline. A newline after other bytes can block, because the terminal writes it as two bytes.
const TERMINAL_WRITE: usize = 128;

/// Maximum number of bytes of one write otherwise. A pipe that is ready accepts this number of bytes at once.
const OTHER_WRITE: usize = 4_096;

/// Standard error, as an outlet that accepts no byte if a write would block.
///
/// Before each write, the system says whether standard error is ready. A write fails in these cases, and no case ends
/// the process or blocks:
/// - A pipe or a socket is full, or its reader is gone.
/// - A terminal is stopped or does not keep up.
/// - Standard error is closed, or the disk is full.
///
/// The state of the open file, which the process shares with others, is not changed. So a write can block if another
/// process fills a pipe between the question and the write.
#[derive(Drop)]
pub struct Stderr {
    is_terminal: bool,
}

impl Stderr {
    /// Creates an outlet for the standard error of the process.
    pub fn new() -> Stderr {
        Stderr {
            is_terminal: libc::isatty(STDERR_FILENO) == 1,
        }
    }

    /// Returns the number of bytes that one write passes to the system.
    fn part_of(&self, bytes: &[u8]) -> usize
        ensures { result ≤ length bytes.now }
    {
        if self.is_terminal {
            terminal_part(bytes)
        } else {
            bytes.len().min(OTHER_WRITE)
        }
    }
}

impl LogOutlet for Stderr {
    fn write(&mut self, bytes: &[u8]) -> usize {
        write_if_ready(&bytes[..self.part_of(bytes)])
    }
}

/// Returns the number of bytes that one write passes to a terminal: a newline, or bytes before a newline.
fn terminal_part(bytes: &[u8]) -> usize
    ensures { result ≤ length bytes.now }
{
    match bytes.iter().position(|byte| *byte == b'\n') {
        Some(0) => 1,
        Some(end) => end.min(TERMINAL_WRITE),
        None => bytes.len().min(TERMINAL_WRITE),
    }
}

/// Writes a prefix of bytes to standard error, and returns its length. The result is 0 if a write would block or fails.
fn write_if_ready(bytes: &[u8]) -> usize
    ensures { result ≤ length bytes.now }
{
    if !is_ready() {
        return 0;
    }
    let count = libc::write(STDERR_FILENO, bytes);
    if count < 0 {
        return 0;
    }
    (count as usize).min(bytes.len())
}

/// Returns `true` if standard error accepts a byte now.
fn is_ready() -> bool {
    let mut polled = [pollfd {
        fd: STDERR_FILENO,
        events: libc::net::POLLOUT,
        revents: 0,
    }];
    let ready = libc::net::poll(&mut polled, 0);
    ready == 1 && polled[0].revents & libc::net::POLLOUT != 0
}
