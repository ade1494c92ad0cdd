//! The size that the first bytes of a frame declare.

ghost use Rattle.std.specs.Prelude.{◌≡◌};
ghost use Rattle.coap_wire.specs.Prelude.{Declares, declared_of, declared_in, outline_of};

use crate::declaration::Declared;
use crate::decode::{NO_TOKEN_LENGTH, read_length, read_token_length};
use crate::layout::{FrameLayout, Outline};
use crate::token::MAX_TOKEN;

/// Returns the size of a frame, as far as its first bytes declare it.
///
/// The result is a size if `head` has the first byte and the complete extensions of the length and of the token length.
/// At most 8 bytes are needed.
pub fn declared(head: &[u8]) -> Declared
    ensures declared { Declares head.now result }
    // The result as a function of the bytes.
    ensures exact { result ≡ declared_of head.now }
{
    match outline(head) {
        Outline::Unknown => Declared::Unknown,
        Outline::BadToken => Declared::BadToken,
        Outline::Known { size, .. } => Declared::Size(size),
    }
}

/// Returns the size and the layout of a frame, as far as its first bytes state them.
///
/// Both are known if `head` has the first byte and the complete extensions of the length and of the token length. At
/// most 8 bytes are needed. Nothing changes if more bytes follow.
#[tactic(auto, using(crate::proofs::LayoutLaws::outline_declared))]
#[inline(always)]
pub fn outline(head: &[u8]) -> Outline
    ensures exact { result ≡ outline_of head.now }
    ensures declared { declared_in result ≡ declared_of head.now }
{
    outline_by(head)
}

// If neither length has an extension, the first byte states the outline. This is tested first, since it is common.
#[inline(always)]
#[tactic(auto, unfolding(crate::specs::Layout::outline_of, crate::specs::Reading::length_at, crate::specs::Reading::option_number_at))]
fn outline_by(head: &[u8]) -> Outline
    ensures { result ≡ outline_of head.now }
{
    let Some((first, after)) = head.split_first() else {
        return Outline::Unknown;
    };
    if *first / 16 < 13 && *first % 16 < 13 {
        return Outline::Known {
            size: 2 + u64::from(*first % 16) + u64::from(*first / 16),
            layout: FrameLayout {
                code_at: 1,
                token_at: 2,
                token_length: (*first % 16) as usize,
            },
        };
    }
    if *first % 16 == NO_TOKEN_LENGTH {
        return Outline::BadToken;
    }
    let Some((length, rest)) = read_length(*first / 16, after) else {
        return Outline::Unknown;
    };
    let code_at = 1 + (after.len() - rest.len());
    let after_code = rest.get(1..).unwrap_or_default();
    let Some((token_length, rest)) = read_token_length(*first % 16, after_code) else {
        return Outline::Unknown;
    };
    let token_length = token_length as usize;
    if token_length > MAX_TOKEN {
        return Outline::BadToken;
    }
    let token_at = code_at + 1 + (after_code.len() - rest.len());
    Outline::Known {
        size: (token_at + token_length) as u64 + length,
        layout: FrameLayout {
            code_at,
            token_at,
            token_length,
        },
    }
}
