//! Sets of the indices of connections.

ghost use Rattle.std.specs.Prelude.{◌≡◌, ◌≢◌, ℕ, ◌<◌, ◌≤◌, true, false};
ghost use Rattle.coap_server_engine.specs.Prelude.{bit_of, IsOutside};

/// Number of the indices that a set may lack. Every other index belongs to each set.
const LIMIT: usize = 256;

/// Bits of a word.
const WORD: usize = 64;

/// Number of words.
const WORDS: usize = 4;

/// Set of indices of connections. Each index from 256 on belongs to it.
#[derive(Clone, Copy)]
pub struct IndexSet {
    /// Bit `i % 64` of word `i / 64` is set if index `i` belongs to the set.
    pub words: [u64; WORDS],
}

impl IndexSet {
    /// Returns the set without the indices below 256.
    #[tactic(auto, using(crate::proofs::values::IndexSetLemmas::none_set))]
    #[inline(always)]
    pub fn empty() -> IndexSet
        ensures { (i : ℕ) → bit_of result.words i ≡ 0 }
    {
        IndexSet { words: [0; WORDS] }
    }

    /// Returns the set of all indices.
    #[tactic(auto, using(crate::proofs::values::IndexSetLemmas::all_set))]
    pub fn full() -> IndexSet
        ensures { (i : ℕ) → i < 256 → bit_of result.words i ≡ 1 }
    {
        IndexSet {
            words: [u64::MAX; WORDS],
        }
    }

    /// Adds an index.
    #[tactic(auto, using(crate::proofs::values::IndexSetLemmas::inserted_same, crate::proofs::values::IndexSetLemmas::inserted_other))]
    pub fn insert(&mut self, at: usize)
        ensures set { at < 256 → bit_of self.new.words at ≡ 1 }
        ensures others { (i : ℕ) → i ≢ at → bit_of self.new.words i ≡ bit_of self.old.words i }
    {
        if at < LIMIT {
            self.words[at / WORD] |= 1 << (at % WORD);
        }
    }

    /// Adds all indices of another set.
    #[inline(always)]
    pub fn join(&mut self, other: &IndexSet)
        ensures outside { (i : ℕ) → IsOutside self.new.words i →
            IsOutside self.old.words i × IsOutside other.now.words i }
        ensures only { (i : ℕ) → IsOutside self.old.words i → IsOutside other.now.words i →
            IsOutside self.new.words i }
    {
        self.words = [
            self.words[0] | other.words[0],
            self.words[1] | other.words[1],
            self.words[2] | other.words[2],
            self.words[3] | other.words[3],
        ];
    }

    /// Removes an index, if it is less than 256.
    #[tactic(auto, using(crate::proofs::values::IndexSetLemmas::removed_same, crate::proofs::values::IndexSetLemmas::removed_other))]
    pub fn remove(&mut self, at: usize)
        ensures clear { at < 256 → bit_of self.new.words at ≡ 0 }
        ensures others { (i : ℕ) → i ≢ at → bit_of self.new.words i ≡ bit_of self.old.words i }
    {
        if at < LIMIT {
            self.words[at / WORD] &= !(1 << (at % WORD));
        }
    }

    /// Removes an index as `remove` does, unless `keeps` is `true`.
    pub(crate) fn remove_unless(&mut self, at: usize, keeps: bool)
        ensures kept { keeps ≡ true → self.new ≡ self.old }
        ensures clear { keeps ≡ false → at < 256 → bit_of self.new.words at ≡ 0 }
        ensures others { (i : ℕ) → i ≢ at → bit_of self.new.words i ≡ bit_of self.old.words i }
    {
        if !keeps {
            self.remove(at);
        }
    }

    /// Returns the first index of the set from `from` on, or `end` if that is less.
    pub fn next(&self, from: usize, end: usize) -> usize
        requires { from ≤ end }
        ensures from { from ≤ result }
        ensures within { result ≤ end }
        ensures between { (i : ℕ) → from ≤ i → i < result → IsOutside self.now.words i }
        ensures found { result < end → result < 256 → bit_of self.now.words result ≡ 1 }
    {
        if from >= end || from >= LIMIT {
            return from;
        }
        let left = self.words[from / WORD] >> (from % WORD);
        if left != 0 {
            return end.min(from + left.trailing_zeros() as usize);
        }
        for word in from / WORD + 1..WORDS {
            let bits = self.words[word];
            if bits != 0 {
                return end.min(word * WORD + bits.trailing_zeros() as usize);
            }
        }
        end.min(LIMIT)
    }
}
