//! The options and the payload of a message, borrowed from the bytes of its frame.

ghost use Rattle.std.specs.Prelude.{◌≡◌, IsOk};
ghost use Rattle.coap_wire.specs.Prelude.{body_at, body_read, known_options, AreOrdered};

use crate::decode::payload_of;
use crate::options::Options;
use crate::recognition::RecognisedOptions;
use std::marker::Model;

/// Options and payload of a message, borrowed from its frame: a `MessageRef` without code and token, in one slice.
/// Contracts see a `BodyValue`.
#[derive(Drop)]
pub struct Body<'a> {
    bytes: &'a [u8],
}

impl<'a> Model for Body<'a> {
    ghost use Rattle.std.specs.Prelude.{IsOk};
    ghost use Rattle.coap_wire.specs.Message.{BodyValue};
    ghost use Rattle.coap_wire.specs.Reading.{body_at, body_read};

    ghost Value = { BodyValue };

    ghost view = { λ b. body_read b.bytes.now };

    ghost invariant = { λ b. IsOk (body_at 0 b.bytes.now) };
}

impl<'a> Body<'a> {
    /// Returns the options and the payload that these bytes encode. The bytes must be a well-formed body.
    pub(crate) fn of_bytes(bytes: &'a [u8]) -> Body<'a>
        requires { IsOk (body_at 0 bytes.now) }
        ensures { result ≡ body_read bytes.now }
    {
        Body { bytes }
    }

    /// Returns an iterator over the recognised options, in order of number (RFC 7252 sections 5.4, 5.10).
    pub fn known(&self) -> RecognisedOptions<'a>
        ensures { result ≡ known_options self.now.options }
    {
        RecognisedOptions::of_options(self.options())
    }

    /// Returns an iterator over all options, in order of number.
    fn options(&self) -> Options<'a>
        ensures all { result ≡ self.now.options }
        ensures ordered { AreOrdered 0 self.now.options }
    {
        Options::of_body(self.bytes)
    }

    /// Returns the payload, or an empty slice if there is none. Each call reads past the options again.
    pub fn payload(&self) -> &'a [u8]
        ensures { result.now ≡ self.now.payload }
    {
        let Ok(payload) = payload_of(self.bytes) else {
            unreachable!()
        };
        payload
    }
}
