//! A number with its decimal text.

ghost use Rattle.std.specs.Prelude.{◌≡◌, decimal, is_some, IfSome, ◌==◌};

use arrayvec::ArrayVec;
use itoa::Buffer;
use std::marker::Model;

/// Number whose decimal text is formatted once. Contracts see the number.
#[derive(Drop)]
pub struct Decimal {
    number: u64,
    text: ArrayVec<u8, 20>,
}

impl Model for Decimal {
    ghost use Rattle.std.specs.Prelude.{◌≡◌, ℕ, decimal};

    ghost Value = { ℕ };

    ghost view = { λ d. d.number };

    ghost invariant = { λ d. d.text.items ≡ decimal d.number };
}

impl Decimal {
    /// Formats a number.
    pub fn of(number: u64) -> Decimal
        ensures { result ≡ number }
    {
        Decimal {
            number,
            text: decimal_digits(number),
        }
    }

    /// Returns the text if this is the number, otherwise `None`.
    pub fn text_of(&self, number: u64) -> Option<&[u8]>
        ensures some { is_some result ≡ (self.now == number) }
        ensures text { IfSome result (λ text. text.now ≡ decimal number) }
    {
        if self.number != number {
            return None;
        }
        Some(&self.text)
    }
}

/// Returns the decimal text of a number.
pub fn decimal_digits(number: u64) -> ArrayVec<u8, 20>
    ensures { result.items ≡ decimal number }
{
    let mut buffer = Buffer::new();
    let Ok(text) = ArrayVec::try_from(buffer.format(number).as_bytes()) else {
        unreachable!()
    };
    text
}
