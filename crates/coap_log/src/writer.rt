//! Writers of whole lines, which never block.

ghost use Rattle.std.specs.Prelude.{◌≡◌, ◌≤◌, ◌<◌, ◌++◌, ℕ, List, [], ◌∷◌, length, take, drop, Option, None, false};
ghost use Rattle.coap_io.specs.Prelude.{AddsBytes, AddsCalls};
ghost use Rattle.coap_log.specs.Writers.{Offer, RefusedIf, bytes_of, ended, with_rest};

use arrayvec::ArrayVec;
use coap_print::{LINE_LENGTH, Line};

/// Maximum number of bytes of a line and its newline.
const ENDED_LENGTH: usize = LINE_LENGTH + 1;

/// Writer of the lines of a log. Its calls never block.
pub trait LogWriter {
    /// Lines offered so far, in order, if the writer records them.
    ghost offers: { Self → Option (List Offer) } = { λ _. None };

    /// Bytes of the lines accepted so far, each followed by a newline, if the writer records them.
    ghost accepted: { Self → Option (List ℕ) } = { λ _. None };

    /// Bytes of the last line accepted that are not written yet, if the writer records them.
    ghost left: { Self → List ℕ } = { λ _. [] };

    /// Results of the writes to the outlet so far, in order, if the writer records them.
    ghost answers: { Self → Option (List ℕ) } = { λ _. None };

    /// Writes a line and a newline, and returns `true`. Returns `false` if the line cannot be written now or fails:
    /// then none of its bytes is written. Each call tries again.
    fn write(&mut self, line: &Line) -> bool
        ensures offered { AddsCalls (offers self.old) (offers self.new)
            (record { line = line.now; accepted = result } ∷ []) }
        ensures bytes { AddsBytes (accepted self.old) (accepted self.new)
            (bytes_of (record { line = line.now; accepted = result })) }
        ensures works { RefusedIf (answers self.old) (answers self.new) (result ≡ false) }
        ensures whole { RefusedIf (answers self.old) (answers self.new) (1 ≤ length (left self.new)) };

    /// Writes what is left of the last line that was accepted, as far as it can be written now.
    fn flush(&mut self)
        ensures offered { AddsCalls (offers self.old) (offers self.new) [] }
        ensures bytes { AddsBytes (accepted self.old) (accepted self.new) [] }
        ensures works { RefusedIf (answers self.old) (answers self.new) (1 ≤ length (left self.new)) };
}

/// Outlet of a log, such as standard error. Its calls never block.
pub trait LogOutlet {
    /// Bytes written so far, if the outlet records them.
    ghost written: { Self → Option (List ℕ) } = { λ _. None };

    /// Results of the writes so far, in order, if the outlet records them.
    ghost answers: { Self → Option (List ℕ) } = { λ _. None };

    /// Writes a prefix of `bytes` and returns its length. It is 0 if no byte can be written now, or the write fails.
    ///
    /// # Preconditions
    ///
    /// There is at least one byte.
    fn write(&mut self, bytes: &[u8]) -> usize
        requires { 1 ≤ length bytes.now }
        ensures within { result ≤ length bytes.now }
        ensures wrote { AddsBytes (written self.old) (written self.new) (take result bytes.now) }
        ensures answered { AddsCalls (answers self.old) (answers self.new) (result ∷ []) };
}

/// Writer of lines to an outlet that may accept only a part of a line.
///
/// A line of which the outlet accepted a byte is accepted. The rest of its bytes is kept and written before any other
/// line. Until then no other line is accepted, so at most one line is kept.
#[derive(Drop)]
pub struct LineWriter<O> {
    outlet: O,
    rest: ArrayVec<u8, ENDED_LENGTH>,
}

impl<O: LogOutlet> LineWriter<O> {
    /// Creates a writer to an outlet.
    pub fn new(outlet: O) -> LineWriter<O>
        ensures { ⟦<LineWriter<O> as LogWriter>⟧.accepted result ≡ with_rest (O.written outlet) [] }
    {
        LineWriter {
            outlet,
            rest: ArrayVec::new(),
        }
    }
}

impl<O: LogOutlet> LogWriter for LineWriter<O> {
    ghost accepted = { λ writer. with_rest (O.written writer.outlet) writer.rest.items };

    ghost left = { λ writer. writer.rest.items };

    ghost answers = { λ writer. O.answers writer.outlet };

    fn write(&mut self, line: &Line) -> bool {
        self.flush();
        if !self.rest.is_empty() {
            return false;
        }
        let bytes = ended(line);
        let count = push(&mut self.outlet, bytes.as_slice());
        if count == 0 {
            return false;
        }
        self.rest = rest_after(bytes.as_slice(), count);
        true
    }

    fn flush(&mut self) {
        let count = push(&mut self.outlet, self.rest.as_slice());
        self.rest = rest_after(self.rest.as_slice(), count);
    }
}

/// Returns the bytes of a line, followed by a newline.
fn ended(line: &Line) -> ArrayVec<u8, ENDED_LENGTH>
    ensures { result.items ≡ ended line.now }
{
    let mut bytes = ArrayVec::new();
    let (Ok(()), Ok(())) = (
        bytes.try_extend_from_slice(line.as_bytes()),
        bytes.try_push(b'\n'),
    ) else {
        unreachable!()
    };
    bytes
}

/// Returns the bytes after the first `count`.
fn rest_after(bytes: &[u8], count: usize) -> ArrayVec<u8, ENDED_LENGTH>
    requires { length bytes.now ≤ ENDED_LENGTH }
    ensures { result.items ≡ drop count bytes.now }
{
    let mut rest = ArrayVec::new();
    if count < bytes.len() {
        let Ok(()) = rest.try_extend_from_slice(&bytes[count..]) else {
            unreachable!()
        };
    }
    rest
}

/// Writes bytes until the outlet accepts no more of them, and returns the number of bytes written.
fn push<O: LogOutlet>(outlet: &mut O, bytes: &[u8]) -> usize
    ensures within { result ≤ length bytes.now }
    ensures bytes { AddsBytes (O.written outlet.old) (O.written outlet.new) (take result bytes.now) }
    ensures works { RefusedIf (O.answers outlet.old) (O.answers outlet.new) (result < length bytes.now) }
{
    let mut done = 0;
    while done < bytes.len() {
        let count = outlet.write(&bytes[done..]);
        if count == 0 {
            return done;
        }
        done += count;
    }
    done
}
