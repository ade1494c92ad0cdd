//! The state of a path.

ghost use Rattle.std.specs.Prelude.{◌≡◌};
ghost use Rattle.coap_store.specs.Prelude.{state_of, state_value};

use crate::found::{PayloadText, RepresentationRef};
use crate::store::Store;
use coap_path::PathKey;
use std::marker::Model;

/// State of a path at a certain time. It borrows bytes of the store.
#[derive(Drop)]
pub enum State<'s> {
    /// No resource.
    Absent,
    /// Resource with this representation.
    Present(Present<'s>),
}

/// Representation of a path at a certain time. Contracts see a `Representation`.
#[derive(Drop)]
pub struct Present<'s> {
    found: RepresentationRef<'s>,
    /// Text of the bytes, if these are a number.
    text: PayloadText,
}

impl<'s> Model for Present<'s> {
    ghost use Rattle.coap_store.specs.Store.{Representation};

    ghost Value = { Representation };

    ghost use Rattle.coap_store.specs.PresentViews.{present_value, is_present};

    ghost view = { present_value };

    ghost invariant = { is_present };
}

impl<'s> Present<'s> {
    /// Returns the version, or 0 for a built-in resource. Each representation that is stored gets the next version.
    pub fn version(&self) -> u64
        ensures { result ≡ self.now.version }
    {
        self.found.version
    }

    /// Returns the Content-Format, if there is one (RFC 7252 section 5.10.3).
    pub fn format(&self) -> Option<u16>
        ensures { result ≡ self.now.format }
    {
        self.found.format
    }

    /// Returns the bytes.
    pub fn bytes(&self) -> &[u8]
        ensures { result.now ≡ self.now.bytes }
    {
        self.found.bytes.bytes(&self.text)
    }
}

impl Store {
    /// Returns the state of a path, built-in or not, at the time `now` in seconds. The call allocates nothing.
    #[tactic(auto, using(crate::proofs::StateLemmas::state_by_key))]
    pub fn state(&self, path: &PathKey, now: u64) -> State<'_>
        ensures { state_value result ≡ state_of self.now now path.now }
    {
        path.is_kept();
        match self.found_at(Some(path), path.kind(), now) {
            Some(found) => State::Present(Present {
                found,
                text: found.bytes.text(),
            }),
            None => State::Absent,
        }
    }
}
