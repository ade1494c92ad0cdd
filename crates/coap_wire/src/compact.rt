//! `CompactBuilder`, which builds messages with few and short options and encodes each option when it is added.

ghost use Rattle.std.specs.Prelude.{◌≡◌, ◌+◌, ◌≤◌, ◌++◌, [], length};
ghost use Rattle.coap_wire.specs.Prelude.{last_number, Spells, spelling, front_spelling, body_spelling, HasSpelling};
ghost use Rattle.coap_wire.specs.Prelude.{with_option, encoded_size, bytes_of_uint, MAX_EXTENDED_LENGTH};
ghost use Rattle.coap_wire.specs.Prelude.{LARGEST_MESSAGE};

use crate::code::Code;
use crate::encode::{append_short, head_size, marker_size, write_head, write_marker, write_option};
use crate::sink::Sink;
use crate::token::TokenRef;
use crate::uint::significant_bytes;
use arrayvec::ArrayVec;
use std::marker::Model;

/// Maximum length of the encoded options of a short message, in bytes. Each message that a server itself creates fits,
/// except a response with Location-Path.
pub const SHORT_OPTIONS: usize = 48;

/// Builder of a short message.
pub type ShortBuilder<'a> = CompactBuilder<'a, 'a, SHORT_OPTIONS>;

/// Builder of a message whose encoded options have at most `N` bytes. Each option is encoded when it is added, so its
/// value is not borrowed. The token and the payload are. Contracts see the `Message`.
///
/// A message with few and short options costs less than with a `Builder`, which accepts values of up to 65,804 bytes.
#[derive(Drop)]
pub struct CompactBuilder<'t, 'p, const N: usize> {
    token: TokenRef<'t>,
    options: ArrayVec<u8, N>,
    payload: &'p [u8],
    /// Number of the last option, or 0 if there is none.
    last: u16,
    code: Code,
}

impl<'t, 'p, const N: usize> Model for CompactBuilder<'t, 'p, N> {
    ghost use Rattle.coap_wire.specs.Message.{Message};

    ghost Value = { Message };

    ghost use Rattle.coap_wire.specs.CompactViews.{compact_message, IsCompact};

    ghost view = { compact_message };

    ghost invariant = { IsCompact };
}

impl<'t, 'p, const N: usize> CompactBuilder<'t, 'p, N> {
    /// Creates a builder with this code and token, without options and payload.
    ///
    /// # Preconditions
    ///
    /// `N` is at most 65,804.
    pub fn new(code: Code, token: TokenRef<'t>) -> CompactBuilder<'t, 'p, N>
        requires { N ≤ MAX_EXTENDED_LENGTH }
        ensures { result ≡ record { code = code; token = token.entry; options = []; payload = [] } }
    {
        CompactBuilder {
            code,
            token: token.copy(),
            options: ArrayVec::new(),
            last: 0,
            payload: &[],
        }
    }

    /// Appends an option (RFC 7252 section 3.1). Its encoding has at most 5 bytes besides the value.
    ///
    /// # Preconditions
    ///
    /// - The number is not below that of the last option.
    /// - The encoded options have at most `N` bytes, counting 5 bytes and the value for the new one.
    #[inline(always)]
    pub fn option(&mut self, number: u16, value: &[u8])
        requires order { last_number 0 self.old.options ≤ number }
        requires room { encoded_size self.old + 5 + length value.now ≤ N }
        ensures added { self.new ≡ with_option self.old number value.now }
        ensures size { encoded_size self.new ≤ encoded_size self.old + 5 + length value.now }
    {
        write_option(&mut self.options, self.last, number, value);
        self.last = number;
    }

    /// Appends an option of format uint, with the shortest value (RFC 7252 section 3.2). It needs at most 9 bytes.
    ///
    /// # Preconditions
    ///
    /// - The number is not below that of the last option.
    /// - The encoded options have at most `N` bytes, counting 9 bytes for the new one.
    #[tactic(auto, using(crate::proofs::UintLaws::no_byte_of_zero, crate::proofs::UintLaws::one_byte_of))]
    #[inline(always)]
    pub fn uint_option(&mut self, number: u16, value: u32)
        requires order { last_number 0 self.old.options ≤ number }
        requires room { encoded_size self.old + 9 ≤ N }
        ensures added { self.new ≡ with_option self.old number (bytes_of_uint value) }
        ensures size { encoded_size self.new ≤ encoded_size self.old + 9 }
    {
        if value == 0 {
            return self.option(number, &[]);
        }
        if value < 256 {
            return self.option(number, &[value as u8]);
        }
        self.long_uint_option(number, value);
    }

    /// Does the same as `uint_option`, and is never inlined. (Most numbers have at most one byte.)
    #[tactic(auto, using(crate::proofs::UintLaws::four_bytes_of))]
    #[inline(never)]
    fn long_uint_option(&mut self, number: u16, value: u32)
        requires order { last_number 0 self.old.options ≤ number }
        requires room { encoded_size self.old + 9 ≤ N }
        ensures added { self.new ≡ with_option self.old number (bytes_of_uint value) }
        ensures size { encoded_size self.new ≤ encoded_size self.old + 9 }
    {
        self.option(number, significant_bytes(&value.to_be_bytes()));
    }

    /// Sets the payload. An empty one is no payload, and no marker is written for it.
    ///
    /// # Preconditions
    ///
    /// The payload has at most 1,048,576 bytes.
    pub fn payload(&mut self, payload: &'p [u8])
        requires { length payload.now ≤ LARGEST_MESSAGE }
        ensures { self.new ≡ record self.old { payload = payload.now } }
    {
        self.payload = payload;
    }

    /// Returns the code.
    pub fn code(&self) -> Code
        ensures { result ≡ self.now.code }
    {
        self.code
    }

    /// Returns the token.
    pub fn token(&self) -> &TokenRef<'t>
        ensures { result.now ≡ self.now.token }
    {
        &self.token
    }

    /// Returns the payload, or an empty slice if there is none. The encoding ends with these bytes.
    #[tactic(auto, using(crate::proofs::BuiltLemmas::whole))]
    pub fn payload_bytes(&self) -> &'p [u8]
        ensures payload { result.now ≡ self.now.payload }
        ensures last { spelling self.now ≡ front_spelling self.now ++ self.now.payload }
    {
        self.payload
    }

    /// Returns the length of the encoding in bytes.
    pub fn size(&self) -> u64
        ensures size { result ≡ length (spelling self.now) }
        ensures spelled { HasSpelling self.now }
    {
        self.front_size() + self.payload.len() as u64
    }

    /// Returns the length of the encoding without the payload, in bytes: at most `N` + 73.
    #[tactic(auto, using(crate::proofs::BuiltLemmas::front))]
    pub fn front_size(&self) -> u64
        ensures size { result ≡ length (front_spelling self.now) }
        ensures whole { result + length self.now.payload ≡ length (spelling self.now) }
        ensures bound { result ≤ N + 73 }
        ensures spelled { HasSpelling self.now }
    {
        let token = self.token.bytes().len();
        head_size(token, self.body_size()) + self.options.len() as u64 + marker_size(self.payload)
    }

    /// Appends the encoding of the message without its payload, which the caller writes next.
    ///
    /// # Preconditions
    ///
    /// The sink has space for these bytes.
    #[inline(always)]
    pub fn write_front<S: Sink>(&self, out: &mut S)
        requires { length (front_spelling self.now) ≤ S.space out.old }
        ensures appended { S.contents out.new ≡ S.contents out.old ++ front_spelling self.now }
        ensures less_room { S.space out.new + length (front_spelling self.now) ≡ S.space out.old }
        ensures whole { spelling self.now ≡ front_spelling self.now ++ self.now.payload }
        ensures spelled { Spells (spelling self.now) self.now }
    {
        write_head(out, self.code, self.token.bytes(), self.body_size());
        append_short(out, &self.options);
        write_marker(out, self.payload);
    }

    /// Appends the only encoding of the message.
    ///
    /// # Preconditions
    ///
    /// The sink has space for the encoding.
    #[tactic(auto, using(crate::proofs::BuiltLemmas::whole))]
    pub fn write<S: Sink>(&self, out: &mut S)
        requires { length (spelling self.now) ≤ S.space out.old }
        ensures appended { S.contents out.new ≡ S.contents out.old ++ spelling self.now }
        ensures less_room { S.space out.new + length (spelling self.now) ≡ S.space out.old }
        ensures spelled { Spells (spelling self.now) self.now }
    {
        self.write_front(out);
        out.append(self.payload);
    }

    /// Returns the length of the encoded options, the marker and the payload in bytes.
    fn body_size(&self) -> u64
        ensures size { result ≡ length (body_spelling self.now) }
        ensures bound { result ≤ 1114381 }
        ensures spelled { HasSpelling self.now }
    {
        let options = self.options.len() as u64;
        options + marker_size(self.payload) + self.payload.len() as u64
    }
}
