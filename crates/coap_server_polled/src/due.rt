//! The indices of the connections that are due, after a connection is removed.

ghost use Rattle.std.specs.Prelude.{◌≡◌, ◌≢◌, ℕ, ◌+◌, ◌<◌, ◌≤◌};
ghost use Rattle.coap_server_engine.specs.Prelude.{bit_of};

use coap_server_engine::IndexSet;

/// Adds or removes the index `to`, so that it belongs to the set as `from` does.
fn copy_index(set: &mut IndexSet, from: usize, to: usize)
    requires from { from < 256 }
    requires to { to < 256 }
    ensures copied { bit_of set.new.words to ≡ bit_of set.old.words from }
    ensures others { (i : ℕ) → i ≢ to → bit_of set.new.words i ≡ bit_of set.old.words i }
{
    if set.next(from, from + 1) > from {
        set.remove(to);
        return;
    }
    set.insert(to);
}

/// Follows the removal of an index from the indices below `count`: each later one becomes one less.
pub(crate) fn follow_removal(set: &mut IndexSet, at: usize, count: usize)
    requires within { at < count }
    requires few { count ≤ 256 }
    ensures before { (i : ℕ) → i < at → bit_of set.new.words i ≡ bit_of set.old.words i }
    ensures later { (i : ℕ) → at ≤ i → i + 1 < count → bit_of set.new.words i ≡ bit_of set.old.words (i + 1) }
{
    for i in at..count - 1 {
        copy_index(set, i + 1, i);
    }
}
