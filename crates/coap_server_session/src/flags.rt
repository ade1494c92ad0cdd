//! A set of 256 flags that finds the first flag that is set in few steps.

ghost use Rattle.std.specs.Prelude.{◌≡◌, ◌<◌, ◌≤◌, ℕ, true, false, length, get_or, slice_set, IfNone, IfSome};
ghost use Rattle.coap_server_session.specs.Prelude.{AreClear, AreBlocks};

use std::marker::Model;

/// Number of flags in a block.
const BLOCK: usize = 16;

/// Flag for each index below 256. Contracts see the list of flags.
#[derive(Drop)]
pub(crate) struct Flags {
    flags: [bool; 256],
    /// Summary of each block: if `false`, no flag of the block is set.
    blocks: [bool; 16],
    /// Lower bound: no flag before this index is set.
    from: usize,
    /// Upper bound: no flag from this index on is set.
    to: usize,
}

impl Model for Flags {
    ghost use Rattle.std.specs.Prelude.{List, Bool};

    ghost Value = { List Bool };

    ghost use Rattle.coap_server_session.specs.views.FlagViews.{flags_value, are_flags};

    ghost view = { flags_value };

    ghost invariant = { are_flags };
}

impl Flags {
    /// Returns flags of which none is set.
    pub(crate) fn new() -> Flags
        ensures { (i : ℕ) → get_or result i false ≡ false }
    {
        Flags {
            flags: [false; 256],
            blocks: [false; 16],
            from: 256,
            to: 0,
        }
    }

    /// Sets or clears the flag at an index.
    pub(crate) fn put(&mut self, index: usize, flag: bool)
        requires { index < 256 }
        ensures value { self.new ≡ slice_set self.old index flag }
        ensures many { length self.old ≡ 256 }
    {
        self.flags[index] = flag;
        if flag {
            self.blocks[index / BLOCK] = true;
            self.from = self.from.min(index);
            self.to = self.to.max(index + 1);
        } else if index + 1 == self.to {
            self.to = index;
        }
    }

    /// Returns the index of the first flag that is set, or `None` if no flag is set.
    pub(crate) fn first(&mut self) -> Option<usize>
        ensures none { IfNone result ((i : ℕ) → get_or self.old i false ≡ false) }
        ensures some { IfSome result (λ first. get_or self.old first false ≡ true) }
        ensures before { IfSome result (λ first. (i : ℕ) → i < first → get_or self.old i false ≡ false) }
        ensures same { self.new ≡ self.old }
    {
        self.from = first_from(&self.flags, &mut self.blocks, self.from, self.to);
        if self.from < self.to {
            return Some(self.from);
        }
        self.from = 256;
        self.to = 0;
        None
    }
}

/// Returns the index of the first flag that is set, or an index of at least `to` if none is. Only flags from `from` up
/// to, but not including, `to` may be set.
fn first_from(flags: &[bool; 256], blocks: &mut [bool; 16], from: usize, to: usize) -> usize
    requires within { from ≤ 256 }
    requires before { AreClear 0 from flags.now }
    requires end { to ≤ 256 }
    requires after { AreClear to 256 flags.now }
    requires blocks { AreBlocks flags.now blocks.old }
    ensures within { result ≤ 256 }
    ensures before { AreClear 0 result flags.now }
    ensures some { result < to → get_or flags.now result false ≡ true }
    ensures blocks { AreBlocks flags.now blocks.new }
{
    let mut at = from;
    while at < to && !flags[at] {
        let block = at / BLOCK;
        let end = (block + 1) * BLOCK;
        at = if blocks[block] { at + 1 } else { end };
        if at == end {
            blocks[block] = false;
        }
    }
    at
}
