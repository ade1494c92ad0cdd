//! `parse`, and the message that it returns.

ghost use Rattle.std.specs.Prelude.{◌≡◌, Ok, IfOk, IfErr};
ghost use Rattle.coap_wire.specs.Prelude.{Message, body_of, Spells, IsFirstFault, message_of, AreOrdered};
ghost use Rattle.coap_wire.specs.Prelude.{body_at, options_in, known_options, checked_options, first_critical};

use crate::body::Body;
use crate::code::Code;
use crate::decode::{head_laid_out, payload_of};
use crate::fault::FormatFault;
use crate::frame::FrameRef;
use crate::options::Options;
use crate::recognition::{CheckedOptions, RecognisedOptions, first_unrecognised_critical};
use crate::token::TokenRef;
use std::marker::Model;

/// Message borrowed from its frame. Contracts see a `Message`: code, token, options and payload.
// The small field is last, so that there is no padding between fields when a message is moved.
#[derive(Drop)]
pub struct MessageRef<'a> {
    token: TokenRef<'a>,
    body: &'a [u8],
    payload: &'a [u8],
    code: Code,
}

impl<'a> Model for MessageRef<'a> {
    ghost use Rattle.std.specs.Prelude.{◌≡◌, Ok};
    ghost use Rattle.coap_wire.specs.Message.{Message};
    ghost use Rattle.coap_wire.specs.Reading.{body_at, options_in};

    ghost Value = { Message };

    ghost view = { λ m.
        record { code = m.code; token = m.token; options = options_in 0 m.body.now; payload = m.payload.now } };

    ghost invariant = { λ m. body_at 0 m.body.now ≡ Ok (options_in 0 m.body.now, m.payload.now) };
}

impl<'a> MessageRef<'a> {
    /// Returns the message with these parts. The body must have this payload.
    #[inline(always)]
    pub(crate) fn of_parts(
        code: Code,
        token: TokenRef<'a>,
        body: &'a [u8],
        payload: &'a [u8],
    ) -> MessageRef<'a>
        requires { body_at 0 body.now ≡ Ok (options_in 0 body.now, payload.now) }
        ensures { result
            ≡ record { code = code; token = token.entry; options = options_in 0 body.now; payload = payload.now } }
    {
        MessageRef {
            token,
            body,
            payload,
            code,
        }
    }

    /// Returns the options and the payload. They borrow the bytes of the frame, not `self`.
    pub fn body(&self) -> Body<'a>
        ensures { result ≡ body_of self.now }
    {
        Body::of_bytes(self.body)
    }

    /// Returns the code.
    pub fn code(&self) -> Code
        ensures { result ≡ self.now.code }
    {
        self.code
    }

    /// Returns the token, borrowed from the frame.
    pub fn token(&self) -> &TokenRef<'a>
        ensures { result.now ≡ self.now.token }
    {
        &self.token
    }

    /// Returns an iterator over the options, in order of number.
    pub fn options(&self) -> Options<'a>
        ensures all { result ≡ self.now.options }
        ensures ordered { AreOrdered 0 self.now.options }
    {
        Options::of_body(self.body)
    }

    /// Returns an iterator over the recognised options, in order of number (RFC 7252 sections 5.4, 5.10).
    ///
    /// An option is recognised if `kind` has its number and allows the length of its value. An option that is not
    /// repeatable must also be the first one with its number.
    pub fn known(&self) -> RecognisedOptions<'a>
        ensures { result ≡ known_options self.now.options }
    {
        RecognisedOptions::of_options(self.options())
    }

    /// Returns an iterator over all options, in order of number. Each item says whether the option is recognised.
    pub fn checked_options(&self) -> CheckedOptions<'a>
        ensures { result ≡ checked_options self.now.options }
    {
        CheckedOptions::of_options(self.options())
    }

    /// Returns the number of the first critical option that is not recognised, or `None` if there is none (RFC 7252
    /// sections 5.4.1, 5.4.6).
    pub fn first_critical(&self) -> Option<u16>
        ensures { result ≡ first_critical self.now.options }
    {
        first_unrecognised_critical(self.options())
    }

    /// Returns the payload, or an empty slice if there is none.
    pub fn payload(&self) -> &'a [u8]
        ensures { result.now ≡ self.now.payload }
    {
        self.payload
    }
}

impl<'a> FrameRef<'a> {
    /// Returns the message that the frame encodes. The head of the frame is not read again.
    ///
    /// # Errors
    ///
    /// Those of `parse`, in the same order. `TokenLength` and `NotOneFrame` are never returned.
    #[inline(always)]
    #[tactic(auto, unfolding(crate::specs::Reading::message_of))]
    pub fn parse(self) -> Result<MessageRef<'a>, FormatFault>
        // The result is that of `parse`.
        ensures { result ≡ message_of self.entry.bytes.now }
    {
        let (token, body, code) = head_laid_out(self.bytes, self.layout);
        let payload = payload_of(body)?;
        Ok(MessageRef::of_parts(code, token, body, payload))
    }
}

/// Returns the message that the bytes encode (RFC 8323 section 3.2, RFC 7252 section 3.1).
///
/// # Errors
///
/// The first error of the frame, in this order:
///
/// - `TokenLength`: the first bytes state a token length above 64, or of nibble 15.
/// - `NotOneFrame`: there is no byte, or the bytes are not exactly the frame that they declare.
///
/// Then the first error of the first malformed option, in this order:
///
/// - `EmptyPayload`: the payload marker is the last byte.
/// - `OptionDelta`: the delta has nibble 15, and the byte is no payload marker.
/// - `OptionLength`: the length has nibble 15.
/// - `OptionCut`: the bytes end within an extension of the option.
/// - `OptionNumber`: the option number is above 65,535.
/// - `OptionCut`: the bytes end within the value of the option.
///
/// # Examples
///
/// ```
/// let message = parse(b"\x51\x01\x2a\xb4time")?;
/// assert!(&rt; message.code() == Code::GET);
/// assert!(&rt; message.token().bytes() == b"\x2a".as_slice());
/// for option in message.options() {
///     // Uri-Path
///     assert!(&rt; option.number == 11 && option.value == b"time".as_slice());
/// }
/// assert!(&rt; message.payload().is_empty());
/// ```
#[inline(always)]
pub fn parse(frame: &[u8]) -> Result<MessageRef<'_>, FormatFault>
    // The result is a message if and only if the bytes encode that message.
    ensures found { IfOk result (λ m. Spells frame.now m) }
    ensures only { (m : Message) → Spells frame.now m → result ≡ Ok m }
    // The error is the first one.
    ensures fault { IfErr result (IsFirstFault frame.now) }
    // The result as a function of the bytes.
    ensures exact { result ≡ message_of frame.now }
{
    message_in(frame)
}

/// Returns the message of a frame, or its first error.
#[inline(always)]
#[tactic(auto, unfolding(crate::specs::Reading::message_of))]
fn message_in(frame: &[u8]) -> Result<MessageRef<'_>, FormatFault>
    ensures { result ≡ message_of frame.now }
{
    FrameRef::of(frame)?.parse()
}
