//! Writes the line of a call to an outlet.

ghost use Rattle.std.specs.Prelude.{◌≡◌, ◌<◌, ◌^◌, ◌+◌, ◌≤◌, ℕ, length, false, is_err, Ok};
ghost use Rattle.coap_model.specs.world.Events.{Opened};
ghost use Rattle.coap_record.specs.Prelude.{line_of, took_line, drain_line, stored_line, removed_line, announced_line};
ghost use Rattle.coap_record.specs.Prelude.{tick_line, word_line, format_word, call_value, WritesText, respond_line};
ghost use Rattle.coap_record.specs.Prelude.{spelling};
ghost use Rattle.coap_wire.specs.Reading.{message_of};
ghost use Rattle.coap_server_engine.specs.values.Calls.{response_in};

use crate::pieces::{write_hex, write_path, write_payload, write_pieces};
use arrayvec::ArrayVec;
use coap_io::{Outlet, WriteFailed, write_all};
use coap_model::ConnId;
use coap_script::{tick_line, word_line};
use coap_server_engine::Call;
use coap_store::PathKey;
use coap_text::decimal_digits;
use coap_wire::parse;

/// Writes the line `in ID HEX`, or nothing if there are no bytes.
///
/// # Errors
///
/// - `WriteFailed`: a write failed. Only a prefix of the line was written.
fn write_took<O: Outlet>(outlet: &mut O, id: ConnId, bytes: &[u8]) -> Result<(), WriteFailed>
    requires { O.is_failed outlet.old ≡ false }
    ensures text { WritesText (O.written outlet.old) (O.written outlet.new) (took_line id bytes.now) result }
    ensures failure { O.is_failed outlet.new ≡ is_err result }
{
    if bytes.is_empty() {
        return Ok(());
    }
    let id = decimal_digits(id);
    write_pieces(outlet, &[b"in ", id.as_slice(), b" "])?;
    write_hex(outlet, bytes)?;
    write_all(outlet, b"\n")
}

/// Writes the line `drain ID N`.
///
/// # Errors
///
/// - `WriteFailed`: a write failed. Only a prefix of the line was written.
fn write_drain<O: Outlet>(outlet: &mut O, id: ConnId, count: u64) -> Result<(), WriteFailed>
    requires { O.is_failed outlet.old ≡ false }
    ensures text { WritesText (O.written outlet.old) (O.written outlet.new) (drain_line id count) result }
    ensures failure { O.is_failed outlet.new ≡ is_err result }
{
    let id = decimal_digits(id);
    let count = decimal_digits(count);
    write_pieces(
        outlet,
        &[b"drain ", id.as_slice(), b" ", count.as_slice(), b"\n"],
    )
}

/// Returns the word of a Content-Format, a hyphen for none.
fn format_word(format: Option<u16>) -> ArrayVec<u8, 20>
    ensures { result.items ≡ format_word format }
{
    match format {
        Some(format) => decimal_digits(u64::from(format)),
        None => {
            let mut word = ArrayVec::new();
            word.push(b'-');
            word
        }
    }
}

/// Writes the line `put PATH FORMAT HEX`.
///
/// # Errors
///
/// - `WriteFailed`: a write failed. Only a prefix of the line was written.
fn write_stored<O: Outlet>(
    outlet: &mut O,
    path: &PathKey,
    format: Option<u16>,
    bytes: &[u8],
) -> Result<(), WriteFailed>
    requires { O.is_failed outlet.old ≡ false }
    ensures text { WritesText (O.written outlet.old) (O.written outlet.new) (stored_line path.now format bytes.now)
        result }
    ensures failure { O.is_failed outlet.new ≡ is_err result }
{
    write_all(outlet, b"put ")?;
    write_path(outlet, path)?;
    let format = format_word(format);
    write_pieces(outlet, &[b" ", format.as_slice(), b" "])?;
    write_payload(outlet, bytes)?;
    write_all(outlet, b"\n")
}

/// Writes the line `remove PATH`.
///
/// # Errors
///
/// - `WriteFailed`: a write failed. Only a prefix of the line was written.
fn write_removed<O: Outlet>(outlet: &mut O, path: &PathKey) -> Result<(), WriteFailed>
    requires { O.is_failed outlet.old ≡ false }
    ensures text { WritesText (O.written outlet.old) (O.written outlet.new) (removed_line path.now) result }
    ensures failure { O.is_failed outlet.new ≡ is_err result }
{
    write_all(outlet, b"remove ")?;
    write_path(outlet, path)?;
    write_all(outlet, b"\n")
}

/// Writes the line `respond ID HEX`.
///
/// # Errors
///
/// - `WriteFailed`: a write failed. Only a prefix of the line was written.
fn write_responded<O: Outlet>(
    outlet: &mut O,
    id: ConnId,
    response: &[u8],
) -> Result<(), WriteFailed>
    requires { O.is_failed outlet.old ≡ false }
    ensures text { WritesText (O.written outlet.old) (O.written outlet.new) (respond_line id response.now) result }
    ensures failure { O.is_failed outlet.new ≡ is_err result }
{
    let id = decimal_digits(id);
    write_pieces(outlet, &[b"respond ", id.as_slice(), b" "])?;
    write_hex(outlet, response)?;
    write_all(outlet, b"\n")
}

/// Returns the encoded response of a call: these bytes, or the empty message if they encode no message. (No server
/// accepts such bytes.)
pub(crate) fn response_of(response: &[u8]) -> &[u8]
    ensures encoded { result.now ≡ spelling (response_in (message_of response.now)) }
    ensures some { 1 ≤ length result.now }
    ensures read_back { message_of result.now ≡ Ok (response_in (message_of response.now)) }
{
    match parse(response) {
        Ok(_) => response,
        Err(_) => b"\0\0",
    }
}

/// Writes the comment `# announced ID SIZE`, since no event of a script announces a message size.
///
/// # Errors
///
/// - `WriteFailed`: a write failed. Only a prefix of the line was written.
fn write_announced<O: Outlet>(outlet: &mut O, id: ConnId, size: u32) -> Result<(), WriteFailed>
    requires { O.is_failed outlet.old ≡ false }
    ensures text { WritesText (O.written outlet.old) (O.written outlet.new) (announced_line id size) result }
    ensures failure { O.is_failed outlet.new ≡ is_err result }
{
    let id = decimal_digits(id);
    let size = decimal_digits(u64::from(size));
    write_pieces(
        outlet,
        &[b"# announced ", id.as_slice(), b" ", size.as_slice(), b"\n"],
    )
}

/// Writes the line of a call of `open`, `open`. The line does not name the number of the connection: a script opens the
/// next number.
///
/// # Errors
///
/// - `WriteFailed`: a write failed. Only a prefix of the line was written.
///
/// # Preconditions
///
/// No write to the outlet has failed before.
#[tactic(auto, unfolding(crate::specs::RecordLines::line_of))]
pub fn write_opened<O: Outlet>(outlet: &mut O) -> Result<(), WriteFailed>
    requires { O.is_failed outlet.old ≡ false }
    ensures text { (id : ℕ) → WritesText (O.written outlet.old) (O.written outlet.new) (line_of (Opened id)) result }
    ensures failure { O.is_failed outlet.new ≡ is_err result }
{
    write_all(outlet, b"open\n")
}

/// Writes the line of any other call: that of the script's event which makes the call again.
///
/// Accepted bytes have no line if there are none. An announced message size has a comment, which no script reader takes
/// for an event. Nothing is allocated.
///
/// # Errors
///
/// - `WriteFailed`: a write failed. Only a prefix of the line was written.
///
/// # Preconditions
///
/// No write to the outlet has failed before.
#[tactic(auto, unfolding(crate::specs::RecordLines::line_of))]
pub fn write_call<O: Outlet>(outlet: &mut O, call: &Call<'_>) -> Result<(), WriteFailed>
    requires { O.is_failed outlet.old ≡ false }
    ensures text { WritesText (O.written outlet.old) (O.written outlet.new) (line_of (call_value call.now)) result }
    ensures failure { O.is_failed outlet.new ≡ is_err result }
{
    match call {
        Call::Took { id, bytes, .. } => write_took(outlet, *id, bytes),
        Call::Wrote(id, first, second) => {
            write_drain(outlet, *id, (first.len() + second.len()) as u64)
        }
        Call::Ticked(now) => write_all(outlet, tick_line(*now).as_slice()),
        Call::Stored(path, format, bytes) => write_stored(outlet, path, *format, bytes),
        Call::Removed(path) => write_removed(outlet, path),
        Call::Ended(id) => write_all(outlet, word_line("end", *id).as_slice()),
        Call::Released(id) => write_all(outlet, word_line("release", *id).as_slice()),
        Call::Responded(id, response) => write_responded(outlet, *id, response_of(response)),
        Call::Announced(id, size) => write_announced(outlet, *id, *size),
        Call::Dropped(id, _) => write_all(outlet, word_line("drop", *id).as_slice()),
    }
}
