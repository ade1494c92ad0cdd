//! A list of byte strings, stored as one text.

ghost use Rattle.std.specs.Prelude.{◌≡◌, ◌+◌, ◌-◌, ◌^◌, ◌<◌, ◌≤◌, ◌∷◌, ◌++◌, [], OnOk, OnErr, length, take};
ghost use Rattle.std.specs.Prelude.{slice_index_or, slice_set};
ghost use Rattle.std.specs.List.{remove, sum};
ghost use Rattle.coap_store.specs.Prelude.{joined, with_end};

use crate::text::Text;
use std::alloc::{AllocError, Global};
use std::marker::Model;

/// List of byte strings, stored as one text of less than 4 GiB. Contracts see the list of the entries.
#[derive(Drop)]
pub struct Listing {
    /// Entries, one after the other.
    text: Text,
    /// Length of each entry. Their sum is that of the text.
    lengths: Vec<u32>,
}

impl Model for Listing {
    ghost use Rattle.std.specs.Prelude.{ℕ, List};

    ghost Value = { List (List ℕ) };

    ghost use Rattle.coap_store.specs.ListingViews.{entries_of, IsListing};

    ghost view = { entries_of };

    ghost invariant = { IsListing };
}

impl Listing {
    /// Creates a listing without entries, and allocates nothing.
    #[tactic(auto, unfolding(crate::specs::Texts::split_by))]
    pub fn new(alloc: Global) -> Listing
        ensures { result ≡ [] }
    {
        Listing {
            text: Text::new(alloc),
            lengths: Vec::new(alloc),
        }
    }

    /// Returns the entries, one after the other.
    #[tactic(auto, using(crate::proofs::EntryLemmas::joined_split))]
    pub fn text(&self) -> &[u8]
        ensures { result.now ≡ joined self.now }
    {
        self.text.as_slice()
    }

    /// Appends an entry.
    ///
    /// # Errors
    ///
    /// - `AllocError` if allocation fails. The listing is unchanged.
    ///
    /// # Preconditions
    ///
    /// - The text stays shorter than 4 GiB.
    #[tactic(auto, using(crate::proofs::EntryLemmas::append_steps))]
    pub fn append(&mut self, entry: &[u8]) -> Result<(), AllocError>
        requires { length (joined self.old) + length entry.now < 2 ^ 32 }
        ensures ok { OnOk result (self.new ≡ self.old ++ entry.now ∷ []) }
        ensures err { OnErr result (self.new ≡ self.old) }
    {
        self.lengths.reserve(1)?;
        self.text.append(entry)?;
        self.lengths.push_reserved(entry.len() as u32);
        Ok(())
    }

    /// Replaces the last `count` bytes of an entry. Moves the bytes of the later entries once.
    ///
    /// # Errors
    ///
    /// - `AllocError` if the entry becomes longer and allocation fails. The listing is unchanged.
    ///
    /// # Preconditions
    ///
    /// - The entry exists and has `count` bytes.
    /// - The text stays shorter than 4 GiB.
    #[tactic(auto, using(crate::proofs::EntryLemmas::replace_end_steps))]
    pub fn replace_end(&mut self, index: usize, count: usize, end: &[u8]) -> Result<(), AllocError>
        requires exists { index < length self.old }
        requires within { count ≤ length (slice_index_or self.old index []) }
        requires short { length (joined self.old) + length end.now < 2 ^ 32 }
        ensures ok { OnOk result (self.new ≡ slice_set self.old index
            (with_end (slice_index_or self.old index []) count end.now)) }
        ensures err { OnErr result (self.new ≡ self.old) }
    {
        let length = self.lengths[index];
        let stop = total(&self.lengths[..index]) + length;
        self.text.replace(stop as usize - count, count, end)?;
        self.lengths[index] = length - count as u32 + end.len() as u32;
        Ok(())
    }

    /// Replaces an entry. Moves the bytes of the later entries once.
    ///
    /// # Errors
    ///
    /// - `AllocError` if the entry becomes longer and allocation fails. The listing is unchanged.
    ///
    /// # Preconditions
    ///
    /// - The entry exists.
    /// - The text stays shorter than 4 GiB.
    #[tactic(auto, using(crate::proofs::EntryLemmas::counted, crate::proofs::EntryLemmas::length_at))]
    pub fn replace(&mut self, index: usize, entry: &[u8]) -> Result<(), AllocError>
        requires exists { index < length self.old }
        requires short { length (joined self.old) + length entry.now < 2 ^ 32 }
        ensures ok { OnOk result (self.new ≡ slice_set self.old index entry.now) }
        ensures err { OnErr result (self.new ≡ self.old) }
    {
        let count = self.lengths[index];
        self.replace_end(index, count as usize, entry)
    }

    /// Removes an entry; the others keep their order. Moves the bytes of the later entries once, and allocates nothing.
    ///
    /// # Preconditions
    ///
    /// - The entry exists.
    #[tactic(auto, using(crate::proofs::EntryLemmas::remove_steps))]
    pub fn remove(&mut self, index: usize)
        requires { index < length self.old }
        ensures { self.new ≡ remove self.old index }
    {
        let start = total(&self.lengths[..index]);
        let length = self.lengths.remove(index);
        self.text.remove(start as usize, length as usize);
    }
}

/// Returns the sum of lengths. A sum of 32 bits lets the compiler add several numbers by one instruction.
fn total(lengths: &[u32]) -> u32
    requires { sum lengths.now < 2 ^ 32 }
    ensures { result ≡ sum lengths.now }
{
    let mut total = 0;
    for length in lengths {
        total += *length;
    }
    total
}
