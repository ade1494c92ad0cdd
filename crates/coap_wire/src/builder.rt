//! `MessageBuilder`, which collects the parts of a message and writes its only encoding.

ghost use Rattle.std.specs.Prelude.{◌≡◌, ◌+◌, ◌≤◌, ◌++◌, [], length, OnOk, OnErr};
ghost use Rattle.coap_wire.specs.Prelude.{last_number as number_of_last, coap_options, Spells, spelling};
ghost use Rattle.coap_wire.specs.Prelude.{front_spelling, body_spelling, HasSpelling, RefusedBy, CanBeBuilt};
ghost use Rattle.coap_wire.specs.Prelude.{option_refusal, payload_refusal, with_option};

use crate::code::Code;
use crate::encode::{head_size, marker_size, option_size, write_head, write_marker, write_options};
use crate::fault::BuildFault;
use crate::option::OptionRef;
use crate::sink::Sink;
use crate::sizes::{LARGEST_MESSAGE, MAX_EXTENDED_LENGTH};
use crate::token::{Token, TokenRef};
use arrayvec::ArrayVec;
use std::marker::Model;

/// Maximum number of options of a `MessageBuilder`, whatever its `N`.
const MAX_OPTIONS: usize = 40;

/// Builder of a message with at most 40 options.
pub type Builder<'a> = MessageBuilder<'a, MAX_OPTIONS>;

/// Builder of a message with at most `N` options, or 40 if `N` is larger. It borrows the token, the values of the
/// options and the payload. Contracts see the `Message`.
///
/// Each new builder clears the space of its `N` options, so a message with few options costs less if `N` is small.
///
/// # Examples
///
/// ```
/// let token = Token::try_from(b"\x2a".as_slice())?;
/// let mut request = Builder::new(Code::GET, &token);
/// // Uri-Path
/// request.option(11, b"time")?;
/// let mut bytes = Vec::with_capacity(rt.alloc(), request.size() as usize)?;
/// request.write(&mut bytes);
/// assert!(&rt; bytes.as_slice() == b"\x51\x01\x2a\xb4time".as_slice());
/// ```
#[derive(Drop)]
pub struct MessageBuilder<'a, const N: usize> {
    token: TokenRef<'a>,
    options: ArrayVec<OptionRef<'a>, N>,
    /// Length of the encoded options in bytes. The size of a message is needed before the options are written: `size`
    /// returns it, and the head contains the length of the body.
    options_size: u64,
    payload: &'a [u8],
    code: Code,
}

impl<'a, const N: usize> Model for MessageBuilder<'a, N> {
    ghost use Rattle.coap_wire.specs.Message.{Message};

    ghost Value = { Message };

    ghost use Rattle.coap_wire.specs.BuilderViews.{built_message, CanBuild};

    ghost view = { built_message };

    ghost invariant = { CanBuild };
}

impl<'a, const N: usize> MessageBuilder<'a, N> {
    /// Creates a builder with this code and token, without options and payload.
    pub fn new(code: Code, token: &'a Token) -> MessageBuilder<'a, N>
        ensures { result ≡ record { code = code; token = token.now.items; options = []; payload = [] } }
    {
        MessageBuilder::with_token_ref(code, TokenRef::of(token))
    }

    /// Creates a builder like `new`, with a borrowed token.
    pub fn with_token_ref(code: Code, token: TokenRef<'a>) -> MessageBuilder<'a, N>
        ensures { result ≡ record { code = code; token = token.entry; options = []; payload = [] } }
    {
        MessageBuilder {
            code,
            token: token.copy(),
            options: ArrayVec::new(),
            options_size: 0,
            payload: &[],
        }
    }

    /// Appends an option (RFC 7252 section 3.1). If this fails, the message is unchanged.
    ///
    /// # Errors
    ///
    /// The first that applies:
    ///
    /// - `Order`: the number is below that of the last option.
    /// - `TooLong`: the value has more than 65,804 bytes.
    /// - `Full`: the message has `N` options or 40 options.
    pub fn option(&mut self, number: u16, value: &'a [u8]) -> Result<(), BuildFault>
        ensures answer { RefusedBy result (option_refusal N self.old number value.now) }
        ensures ok { OnOk result (self.new ≡ with_option self.old number value.now) }
        ensures err { OnErr result (self.new ≡ self.old) }
    {
        let last = last_number(&self.options);
        if number < last {
            return Err(BuildFault::Order);
        }
        if value.len() > MAX_EXTENDED_LENGTH {
            return Err(BuildFault::TooLong);
        }
        if self.options.is_full() || self.options.len() >= MAX_OPTIONS {
            return Err(BuildFault::Full);
        }
        let option = OptionRef { number, value };
        self.options_size += option_size(last, &option);
        self.options.push(option);
        Ok(())
    }

    /// Sets the payload. An empty one is no payload, and no marker is written for it. If this fails, the message is
    /// unchanged.
    ///
    /// # Errors
    ///
    /// - `TooLong`: the payload has more than 1,048,576 bytes.
    pub fn payload(&mut self, payload: &'a [u8]) -> Result<(), BuildFault>
        ensures answer { RefusedBy result (payload_refusal payload.now) }
        ensures ok { OnOk result (self.new ≡ record self.old { payload = payload.now }) }
        ensures err { OnErr result (self.new ≡ self.old) }
    {
        if payload.len() > LARGEST_MESSAGE {
            return Err(BuildFault::TooLong);
        }
        self.payload = payload;
        Ok(())
    }

    /// Returns the code.
    pub fn code(&self) -> Code
        ensures { result ≡ self.now.code }
    {
        self.code
    }

    /// Returns the token.
    pub fn token(&self) -> &TokenRef<'a>
        ensures { result.now ≡ self.now.token }
    {
        &self.token
    }

    /// Returns a builder of the same message with another token.
    pub fn with_token(&self, token: &'a Token) -> MessageBuilder<'a, N>
        ensures { result ≡ record self.now { token = token.now.items } }
    {
        MessageBuilder {
            code: self.code,
            token: TokenRef::of(token),
            options: copied(&self.options),
            options_size: self.options_size,
            payload: self.payload,
        }
    }

    /// Returns the payload, or an empty slice if there is none. The encoding ends with these bytes.
    #[tactic(auto, using(crate::proofs::BuiltLemmas::whole))]
    pub fn payload_bytes(&self) -> &'a [u8]
        ensures payload { result.now ≡ self.now.payload }
        ensures last { spelling self.now ≡ front_spelling self.now ++ self.now.payload }
    {
        self.payload
    }

    /// Returns the length of the encoding in bytes.
    pub fn size(&self) -> u64
        ensures size { result ≡ length (spelling self.now) }
        ensures spelled { HasSpelling self.now }
    {
        self.front_size() + self.payload.len() as u64
    }

    /// Returns the length of the encoding without the payload, in bytes: at most 2,632,440.
    #[tactic(auto, using(crate::proofs::BuiltLemmas::front))]
    pub fn front_size(&self) -> u64
        ensures size { result ≡ length (front_spelling self.now) }
        ensures whole { result + length self.now.payload ≡ length (spelling self.now) }
        ensures bound { result ≤ 2632440 }
        ensures spelled { HasSpelling self.now }
    {
        let token = self.token.bytes().len();
        head_size(token, self.body_size()) + self.options_size + marker_size(self.payload)
    }

    /// Appends the only encoding of the message.
    ///
    /// # Preconditions
    ///
    /// The sink has space for the encoding.
    #[tactic(auto, using(crate::proofs::BuiltLemmas::whole))]
    pub fn write<S: Sink>(&self, out: &mut S)
        requires { length (spelling self.now) ≤ S.space out.old }
        ensures appended { S.contents out.new ≡ S.contents out.old ++ spelling self.now }
        ensures less_room { S.space out.new + length (spelling self.now) ≡ S.space out.old }
        ensures spelled { Spells (spelling self.now) self.now }
    {
        self.write_front(out);
        out.append(self.payload);
    }

    /// Appends the encoding of the message without its payload, which the caller writes next.
    ///
    /// # Preconditions
    ///
    /// The sink has space for these bytes.
    pub fn write_front<S: Sink>(&self, out: &mut S)
        requires { length (front_spelling self.now) ≤ S.space out.old }
        ensures appended { S.contents out.new ≡ S.contents out.old ++ front_spelling self.now }
        ensures less_room { S.space out.new + length (front_spelling self.now) ≡ S.space out.old }
        ensures whole { spelling self.now ≡ front_spelling self.now ++ self.now.payload }
        ensures spelled { Spells (spelling self.now) self.now }
    {
        write_head(out, self.code, self.token.bytes(), self.body_size());
        write_options(out, &self.options);
        write_marker(out, self.payload);
    }

    /// Returns the length of the encoded options, the marker and the payload in bytes.
    fn body_size(&self) -> u64
        ensures size { result ≡ length (body_spelling self.now) }
        ensures bound { result ≤ 3680937 }
        ensures spelled { CanBeBuilt self.now }
    {
        if self.payload.is_empty() {
            self.options_size
        } else {
            self.options_size + 1 + self.payload.len() as u64
        }
    }
}

/// Returns the number of the last option, or 0 if there is none.
fn last_number(options: &[OptionRef]) -> u16
    ensures { result ≡ number_of_last 0 (coap_options options.now) }
{
    let Some(last) = options.last() else {
        return 0;
    };
    last.number
}

/// Returns a copy of the list of options.
fn copied<'a, const N: usize>(options: &ArrayVec<OptionRef<'a>, N>) -> ArrayVec<OptionRef<'a>, N>
    ensures { result.items ≡ options.now.items }
{
    let Ok(same) = ArrayVec::try_from(options.as_slice()) else {
        unreachable!()
    };
    same
}
