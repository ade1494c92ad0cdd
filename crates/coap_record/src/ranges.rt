//! The ranges of the values of a call, which the theorems ask for.

ghost use Rattle.coap_model.specs.world.Events.{Opened};
ghost use Rattle.coap_record.specs.Prelude.{IsNumber, AreBytes, IsPathOfBytes, IsFormat, IsInRange, IsReadBack};
ghost use Rattle.coap_record.specs.Prelude.{call_value};

use crate::lines::response_of;
use coap_model::ConnId;
use coap_server_engine::Call;
use coap_store::PathKey;

/// Reads a number, which gives its range to the proof of a caller. Does nothing else.
fn read_number(_number: u64)
    ensures { IsNumber _number }
{}

/// Reads bytes, which gives their range to the proof of a caller. Does nothing else.
fn read_bytes(_bytes: &[u8])
    ensures { AreBytes _bytes.now }
{}

/// Reads the segments of a path, which gives their range to the proof of a caller. Does nothing else.
fn read_path(path: &PathKey)
    ensures { IsPathOfBytes path.now }
{
    for segment in path.segments() {
        read_bytes(segment);
    }
}

/// Reads a Content-Format, which gives its range to the proof of a caller. Does nothing else.
fn read_format(format: Option<u16>)
    ensures { IsFormat format }
{
    if let Some(number) = format {
        read_number(u64::from(number));
    }
}

/// Reads the number of a connection that was opened, which gives the range of this call to the proof of a caller. Does
/// nothing else.
#[tactic(auto, unfolding(crate::specs::SaidEvents::IsInRange))]
pub(crate) fn read_opened(_id: ConnId)
    ensures { IsInRange (Opened _id) }
{
    read_number(_id);
}

/// Reads a call, which gives the range of its values to the proof of a caller. Does nothing else.
///
/// `laws::lines_are_read_back` asks for this range (`range`). The encoding of a response is read back as the response
/// (`read_back`). `Recorder` states both of each call whose line it has written.
#[tactic(auto, unfolding(crate::specs::SaidEvents::IsInRange))]
pub fn read_range(call: &Call<'_>)
    ensures range { IsInRange (call_value call.now) }
    ensures read_back { IsReadBack (call_value call.now) }
{
    match call {
        Call::Took { id, bytes, .. } => {
            read_number(*id);
            read_bytes(bytes);
        }
        Call::Wrote(id, first, second) => {
            read_number(*id);
            read_number((first.len() + second.len()) as u64);
        }
        Call::Ticked(now) => read_number(*now),
        Call::Stored(path, format, bytes) => {
            read_path(path);
            read_format(*format);
            read_bytes(bytes);
        }
        Call::Removed(path) => read_path(path),
        Call::Ended(id) => read_number(*id),
        Call::Released(id) => read_number(*id),
        Call::Responded(id, response) => {
            read_number(*id);
            read_bytes(response_of(response));
        }
        Call::Announced(id, size) => {
            read_number(*id);
            read_number(u64::from(*size));
        }
        Call::Dropped(id, _) => read_number(*id),
    }
}
