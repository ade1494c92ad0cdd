//! The iterator over the options of a message.

ghost use Rattle.std.specs.Prelude.{◌≡◌, IsOk};
ghost use Rattle.coap_wire.specs.Prelude.{body_at, options_in, YieldsFirstBy, item_count, coap_option};

use crate::decode::read_option;
use crate::option::{OptionRef, PAYLOAD_MARKER};
use std::marker::Model;

/// Iterator over the options of a message, in order of number. Contracts see the list of the options that are left.
#[derive(Drop)]
pub struct Options<'a> {
    base: u16,
    rest: &'a [u8],
}

impl<'a> Model for Options<'a> {
    ghost use Rattle.std.specs.Prelude.{List, IsOk};
    ghost use Rattle.coap_wire.specs.Message.{CoapOption};
    ghost use Rattle.coap_wire.specs.Reading.{body_at, options_in};

    ghost Value = { List CoapOption };

    ghost view = { λ o. options_in o.base o.rest.now };

    ghost invariant = { λ o. IsOk (body_at o.base o.rest.now) };
}

impl<'a> Options<'a> {
    /// Returns an iterator over the options of a body, which must be well-formed.
    pub(crate) fn of_body(body: &'a [u8]) -> Options<'a>
        requires { IsOk (body_at 0 body.now) }
        ensures { result ≡ options_in 0 body.now }
    {
        Options {
            base: 0,
            rest: body,
        }
    }
}

impl<'a> Iterator for Options<'a> {
    type Item = OptionRef<'a>;

    ghost next_gives = { YieldsFirstBy coap_option (λ os. os) };

    ghost remaining = { item_count (λ os. os) };

    #[tactic(auto, using(crate::proofs::BodyLemmas::body_turns, crate::proofs::BodyLemmas::next_option))]
    #[inline(always)]
    fn next(&mut self) -> Option<OptionRef<'a>> {
        let (first, after) = self.rest.split_first()?;
        if *first == PAYLOAD_MARKER {
            return None;
        }
        let Ok((option, rest)) = read_option(self.base, *first, after) else {
            unreachable!()
        };
        self.base = option.number;
        self.rest = rest;
        Some(option)
    }
}
