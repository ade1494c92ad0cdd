//! The token of a message, owned (`Token`) or borrowed (`TokenRef`).

ghost use Rattle.std.specs.Prelude.{◌≡◌, ◌≤◌, length, [], nat_eq};
ghost use Rattle.coap_wire.specs.Prelude.{greatest_token, pointwise};

use arrayvec::ArrayVec;
use std::fmt;
use std::marker::Model;

/// Maximum length of a token that this project accepts, in bytes (RFC 8974 section 2.1).
pub const MAX_TOKEN: usize = 64;

/// Owned token of at most 64 bytes, with equality (RFC 7252 section 5.3.1, RFC 8974 section 2).
pub type Token = ArrayVec<u8, MAX_TOKEN>;

/// Returns the token with these bytes, of which there must be at most 64.
pub(crate) fn token_of(bytes: &[u8]) -> Token
    requires { length bytes.now ≤ greatest_token }
    ensures { result.items ≡ bytes.now }
{
    let Ok(token) = Token::try_from(bytes) else {
        unreachable!()
    };
    token
}

/// Returns a copy of a token.
pub fn copy_of(token: &Token) -> Token
    ensures { result.items ≡ token.now.items }
{
    token_of(token)
}

/// Token borrowed from the frame that it was read from, or from a `Token`. Contracts see its bytes.
#[derive(Drop)]
pub struct TokenRef<'a> {
    bytes: &'a [u8],
}

impl<'a> Model for TokenRef<'a> {
    ghost use Rattle.std.specs.Prelude.{List, ℕ, ◌≤◌, length};
    ghost use Rattle.coap_wire.specs.Forms.{greatest_token};

    ghost Value = { List ℕ };

    ghost view = { λ t. t.bytes.now };

    ghost invariant = { λ t. length t.bytes.now ≤ greatest_token };
}

impl<'a> TokenRef<'a> {
    /// Returns the token without bytes.
    pub fn empty() -> TokenRef<'a>
        ensures { result ≡ [] }
    {
        TokenRef { bytes: &[] }
    }

    /// Returns a borrow of an owned token.
    pub fn of(token: &'a Token) -> TokenRef<'a>
        ensures { result ≡ token.now.items }
    {
        TokenRef {
            bytes: token.as_slice(),
        }
    }

    /// Returns the token with these bytes, of which there must be at most 64.
    pub(crate) fn of_bytes(bytes: &'a [u8]) -> TokenRef<'a>
        requires { length bytes.now ≤ greatest_token }
        ensures { result ≡ bytes.now }
    {
        TokenRef { bytes }
    }

    /// Returns another borrow of the same bytes.
    pub fn copy(&self) -> TokenRef<'a>
        ensures token { result ≡ self.now }
        ensures short { length self.now ≤ greatest_token }
    {
        TokenRef { bytes: self.bytes }
    }

    /// Returns the bytes of the token, at most 64.
    pub fn bytes(&self) -> &'a [u8]
        ensures bytes { result.now ≡ self.now }
        ensures short { length self.now ≤ greatest_token }
    {
        self.bytes
    }

    /// Returns an owned copy of the token.
    pub fn to_token(&self) -> Token
        ensures { result.items ≡ self.now }
    {
        token_of(self.bytes)
    }

    /// Returns `true` if the bytes are those of an owned token (RFC 7252 section 5.3.1).
    pub fn equals(&self, token: &Token) -> bool
        ensures { result ≡ pointwise nat_eq token.now.items self.now }
    {
        token.as_slice() == self.bytes
    }
}

impl fmt::Debug for TokenRef<'_> {
    /// Writes the bytes in the format of a `Token`.
    fn fmt<W: fmt::Write>(&self, f: &mut fmt::Formatter<W>) -> Result<(), fmt::Error> {
        self.bytes.fmt(f)
    }
}
