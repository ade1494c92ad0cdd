//! The lines that report the results of events. A `ShortLine` is built without memory. A call for another line fails
//! only if allocation fails.

ghost use Rattle.std.specs.Prelude.{◌≡◌, ◌≤◌, ◌+◌, ◌++◌, ℕ, List, IfOk, OnErr, OnOk, codes, decimal, length};
ghost use Rattle.std.specs.Prelude.{string_bytes};
ghost use Rattle.coap_script.specs.Prelude.{array_vec_len};
ghost use Rattle.coap_script.specs.script.Lines as spec;

use arrayvec::ArrayVec;
use coap_conn::Phase;
use itoa::{Buffer, Integer};
use std::alloc::{AllocError, Global};
use std::fmt::Write;

/// Largest number of bytes in a short line.
const SHORT: usize = 64;

/// Line of at most 64 bytes, built without allocation.
pub type ShortLine = ArrayVec<u8, SHORT>;

/// Appends a text. The line must have room for it.
fn append_text(line: &mut ShortLine, text: &[u8])
    requires { array_vec_len line.old + length text.now ≤ 64 }
    ensures text { line.new.items ≡ line.old.items ++ text.now }
    ensures count { array_vec_len line.new ≡ array_vec_len line.old + length text.now }
{
    let Ok(()) = line.try_extend_from_slice(text) else {
        unreachable!()
    };
}

/// Appends a number in decimal digits. The line must have room for it.
fn append_number<N: Integer>(line: &mut ShortLine, number: N)
    requires { array_vec_len line.old + N.MAX_STR_LEN ≤ 64 }
    ensures text { line.new.items ≡ line.old.items ++ N.text number }
    ensures count { array_vec_len line.new ≤ array_vec_len line.old + N.MAX_STR_LEN }
{
    let mut buffer = Buffer::new();
    append_text(line, buffer.format(number).as_bytes());
}

/// Returns the line `open ID`: a connection was opened.
pub fn open_line(id: u64) -> ShortLine
    ensures { result.items ≡ spec.open_line id }
{
    let mut line = ArrayVec::new();
    append_text(&mut line, b"open ");
    append_number(&mut line, id);
    append_text(&mut line, b"\n");
    line
}

/// Returns the line `in ID TAKEN`: a connection accepted `taken` bytes. If it has stopped, ` stop REASON` follows, with
/// the number of the reason.
pub fn in_line(id: u64, taken: u64, stop: Option<u8>) -> ShortLine
    ensures { result.items ≡ spec.in_line id taken stop }
{
    let mut line = ArrayVec::new();
    append_text(&mut line, b"in ");
    append_number(&mut line, id);
    append_text(&mut line, b" ");
    append_number(&mut line, taken);
    if let Some(reason) = stop {
        append_text(&mut line, b" stop ");
        append_number(&mut line, reason);
    }
    append_text(&mut line, b"\n");
    line
}

/// Returns the start of a line with bytes of a connection: a word with its space, and the connection.
fn line_front(word: &[u8], id: u64) -> ShortLine
    requires { length word.now ≤ 8 }
    ensures { result.items ≡ word.now ++ decimal id ++ codes " " }
{
    let mut line = ArrayVec::new();
    append_text(&mut line, word);
    append_number(&mut line, id);
    append_text(&mut line, b" ");
    line
}

/// Appends bytes in hexadecimal, or a hyphen if there are none.
fn append_bytes(line: &mut Vec<u8>, bytes: &[u8]) -> Result<(), AllocError>
    ensures ok { OnOk result (line.new.items ≡ line.old.items ++ spec.bytes_text bytes.now) }
    ensures err { OnErr result (line.new.items ≡ line.old.items) }
{
    if bytes.is_empty() {
        return line.extend_from_slice(b"-");
    }
    let front = line.len();
    line.resize(front.saturating_add(2 * bytes.len()), 0)?;
    let Ok(()) = hex::encode_to_slice(bytes, &mut line[front..]) else {
        unreachable!()
    };
    Ok(())
}

/// Returns the line `out ID HEX`: these bytes were written to a connection. The hexadecimal digits are lower case; a
/// hyphen replaces them if there are no bytes. All memory of the line is reserved at once.
///
/// # Errors
///
/// Returns `AllocError` if allocation fails.
pub fn out_line(alloc: Global, id: u64, bytes: &[u8]) -> Result<Vec<u8>, AllocError>
    ensures { IfOk result (λ line. line.items ≡ spec.out_line id bytes.now) }
{
    let room = bytes.len().saturating_mul(2).saturating_add(SHORT);
    let mut line = Vec::with_capacity(alloc, room)?;
    line.extend_from_slice(line_front(b"out ", id).as_slice())?;
    append_bytes(&mut line, bytes)?;
    line.extend_from_slice(b"\n")?;
    Ok(line)
}

/// Appends the line `request ID HEX` to other lines: the application was handed a request of a connection. `request` is
/// its encoding. The hexadecimal digits are lower case.
///
/// # Errors
///
/// Returns `AllocError` if allocation fails. The lines may end with a part of the new line then.
pub fn append_request_line(lines: &mut Vec<u8>, id: u64, request: &[u8]) -> Result<(), AllocError>
    ensures ok { OnOk result (lines.new.items ≡ lines.old.items ++ spec.request_line id request.now) }
    ensures err { OnErr result ((part : List ℕ) × (lines.new.items ≡ lines.old.items ++ part)) }
{
    lines.reserve(request.len().saturating_mul(2).saturating_add(SHORT))?;
    lines.extend_from_slice(line_front(b"request ", id).as_slice())?;
    append_bytes(lines, request)?;
    lines.extend_from_slice(b"\n")
}

/// Returns the line `tick MOMENT`: the time is now `moment`, in seconds.
pub fn tick_line(moment: u64) -> ShortLine
    ensures { result.items ≡ spec.tick_line moment }
{
    let mut line = ArrayVec::new();
    append_text(&mut line, b"tick ");
    append_number(&mut line, moment);
    append_text(&mut line, b"\n");
    line
}

/// Returns the line `put VERSION`: a representation was stored, with this version.
pub fn put_line(version: u64) -> ShortLine
    ensures { result.items ≡ spec.put_line version }
{
    let mut line = ArrayVec::new();
    append_text(&mut line, b"put ");
    append_number(&mut line, version);
    append_text(&mut line, b"\n");
    line
}

/// Returns the line `remove PATH`: a resource was removed. The path is written as `text` has it.
///
/// # Errors
///
/// Returns `AllocError` if allocation fails.
pub fn remove_line(alloc: Global, text: &[u8]) -> Result<Vec<u8>, AllocError>
    ensures { IfOk result (λ line. line.items ≡ spec.remove_line text.now) }
{
    let mut line = Vec::from_slice(alloc, b"remove ")?;
    line.extend_from_slice(text)?;
    line.extend_from_slice(b"\n")?;
    Ok(line)
}

/// Returns the line of a word and a connection, such as `end ID`. The events `end`, `release` and `drop` have this
/// form.
///
/// # Preconditions
///
/// The word has at most 8 bytes.
pub fn word_line(word: &str, id: u64) -> ShortLine
    requires { length word.now ≤ 8 }
    ensures { result.items ≡ spec.word_line word.now id }
{
    let mut line = ArrayVec::new();
    append_text(&mut line, word.as_bytes());
    append_text(&mut line, b" ");
    append_number(&mut line, id);
    append_text(&mut line, b"\n");
    line
}

/// Returns the phase of a connection as text, with the number of its reason if it has one.
fn phase_text(alloc: Global, phase: Phase) -> Result<String, AllocError>
    ensures { IfOk result (λ text. string_bytes text ≡ spec.phase_text phase) }
{
    match phase {
        Phase::Waiting => String::from_str(alloc, "waiting"),
        Phase::Open => String::from_str(alloc, "open"),
        Phase::Releasing(reason) => {
            let number = reason.number();
            format!(in alloc; "releasing {number}")
        }
        Phase::Stopped(reason) => {
            let number = reason.number();
            format!(in alloc; "stopped {number}")
        }
    }
}

/// Returns the start of a status line: the connection and its phase.
fn status_front(alloc: Global, id: u64, phase: Phase) -> Result<String, AllocError>
    ensures { IfOk result (λ text. string_bytes text ≡ codes "status " ++ decimal id ++ codes " " ++ spec.phase_text
        phase) }
{
    let phase = phase_text(alloc, phase)?;
    let front = format!(in alloc; "status {id} {phase}")?;
    Ok(front)
}

/// Appends a text and a number.
fn append(line: &mut String, text: &str, number: u64) -> Result<(), AllocError>
    ensures { OnOk result (string_bytes line.new ≡ string_bytes line.old ++ (text.now ++ decimal number)) }
{
    write!(line, "{text}{number}")
}

/// Numbers of a connection in its status line.
#[derive(Clone, Copy)]
pub struct StatusCounts {
    /// Bytes kept of an unfinished message.
    pub kept: usize,
    /// Bytes queued for writing.
    pub waiting: usize,
    /// Pending responses and Pongs.
    pub pending: usize,
    /// Observers.
    pub observers: usize,
}

/// Returns the line `status ID PHASE kept N waiting N pending N observers N`.
///
/// # Errors
///
/// Returns `AllocError` if allocation fails.
pub fn status_line(
    alloc: Global,
    id: u64,
    phase: Phase,
    counts: StatusCounts,
) -> Result<Vec<u8>, AllocError>
    ensures { IfOk result (λ line. line.items
        ≡ spec.status_line id phase counts.kept counts.waiting counts.pending counts.observers) }
{
    let mut line = status_front(alloc, id, phase)?;
    append(&mut line, " kept ", counts.kept as u64)?;
    append(&mut line, " waiting ", counts.waiting as u64)?;
    append(&mut line, " pending ", counts.pending as u64)?;
    append(&mut line, " observers ", counts.observers as u64)?;
    line.push_str("\n")?;
    Ok(line.into_bytes())
}

/// Returns the line `WORD ID fault NUMBER`: an event failed, with the number of the error. There is no `ID` if the
/// event names no connection.
///
/// # Preconditions
///
/// The word has at most 8 bytes.
pub fn fault_line(word: &str, id: Option<u64>, number: u8) -> ShortLine
    requires { length word.now ≤ 8 }
    ensures { result.items ≡ spec.fault_line word.now id number }
{
    let mut line = ArrayVec::new();
    append_text(&mut line, word.as_bytes());
    if let Some(id) = id {
        append_text(&mut line, b" ");
        append_number(&mut line, id);
    }
    append_text(&mut line, b" fault ");
    append_number(&mut line, number);
    append_text(&mut line, b"\n");
    line
}
