//! Bytes that are changed in place.

ghost use Rattle.std.specs.Prelude.{◌≡◌, ◌+◌, ◌^◌, ◌<◌, ◌≤◌, ◌++◌, [], OnOk, OnErr, length, take, drop};

use crate::moves::{move_down, move_up};
use std::alloc::{AllocError, Global};
use std::marker::Model;

/// Maximum number of unused bytes before a text.
const MAX_START: usize = 4_096;

/// Bytes that are changed in place. A change moves the bytes before it or those after it, whichever are fewer.
/// Contracts see the bytes.
///
/// The bytes before a change can only move up if there are few unused bytes before them, and down if there are enough.
/// Otherwise the bytes after the change move.
#[derive(Drop)]
pub(crate) struct Text {
    /// Unused bytes, followed by the text.
    bytes: Vec<u8>,
    /// Number of unused bytes.
    start: usize,
}

impl Model for Text {
    ghost use Rattle.std.specs.Prelude.{ℕ, List};

    ghost Value = { List ℕ };

    ghost use Rattle.coap_store.specs.TextViews.{text_of, IsText};

    ghost view = { text_of };

    ghost invariant = { IsText };
}

impl Text {
    /// Creates an empty text, and allocates nothing.
    pub(crate) fn new(alloc: Global) -> Text
        ensures { result ≡ [] }
    {
        Text {
            bytes: Vec::new(alloc),
            start: 0,
        }
    }

    /// Returns the bytes.
    pub(crate) fn as_slice(&self) -> &[u8]
        ensures { result.now ≡ self.now }
    {
        &self.bytes[self.start..]
    }

    /// Appends bytes. If allocation fails, the text is unchanged.
    pub(crate) fn append(&mut self, more: &[u8]) -> Result<(), AllocError>
        ensures ok { OnOk result (self.new ≡ self.old ++ more.now) }
        ensures err { OnErr result (self.new ≡ self.old) }
    {
        self.bytes.extend_from_slice(more)
    }

    /// Replaces `gone` bytes at `at` by others. If allocation fails, the text is unchanged.
    #[tactic(auto, using(crate::proofs::MoveLemmas::replace_steps))]
    pub(crate) fn replace(&mut self, at: usize, gone: usize, new: &[u8]) -> Result<(), AllocError>
        requires within { at + gone ≤ length self.old }
        requires short { length self.old + length new.now < 2 ^ 62 }
        ensures ok { OnOk result (self.new ≡ take at self.old ++ (new.now ++ drop (at + gone) self.old)) }
        ensures err { OnErr result (self.new ≡ self.old) }
    {
        self.make_room(at, gone, new.len())?;
        let place = self.start + at;
        self.bytes[place..place + new.len()].copy_from_slice(new);
        Ok(())
    }

    /// Puts `count` unspecified bytes in place of `gone` bytes at `at`. If allocation fails, the text is unchanged.
    fn make_room(&mut self, at: usize, gone: usize, count: usize) -> Result<(), AllocError>
        requires within { at + gone ≤ length self.old }
        requires short { length self.old + count < 2 ^ 62 }
        ensures front { OnOk result (take at self.new ≡ take at self.old) }
        ensures back { OnOk result (drop (at + count) self.new ≡ drop (at + gone) self.old) }
        ensures room { OnOk result (at + count ≤ length self.new) }
        ensures err { OnErr result (self.new ≡ self.old) }
    {
        if count == gone {
            return Ok(());
        }
        if count < gone {
            self.remove(at + count, gone - count);
            return Ok(());
        }
        self.insert(at + gone, count - gone)
    }

    /// Removes `gap` bytes at `at`. Allocates nothing.
    #[tactic(auto, using(crate::proofs::MoveLemmas::closed_gap, std::proofs::lemmas::Grind::common_steps))]
    pub(crate) fn remove(&mut self, at: usize, gap: usize)
        requires { at + gap ≤ length self.old }
        ensures { self.new ≡ take at self.old ++ drop (at + gap) self.old }
    {
        let before = self.start + at;
        let after = self.bytes.len() - (before + gap);
        if at < after && gap <= MAX_START && self.start <= MAX_START - gap {
            move_up(&mut self.bytes, self.start, before, gap);
            self.start += gap;
        } else {
            close(&mut self.bytes, before, gap);
        }
    }

    /// Inserts `gap` unspecified bytes at `at`. If allocation fails, the text is unchanged.
    #[tactic(auto, using(crate::proofs::MoveLemmas::front_of, crate::proofs::MoveLemmas::opened_gap))]
    fn insert(&mut self, at: usize, gap: usize) -> Result<(), AllocError>
        requires within { at ≤ length self.old }
        requires short { length self.old + gap < 2 ^ 62 }
        ensures front { OnOk result (take at self.new ≡ take at self.old) }
        ensures back { OnOk result (drop (at + gap) self.new ≡ drop at self.old) }
        ensures room { OnOk result (at + gap ≤ length self.new) }
        ensures err { OnErr result (self.new ≡ self.old) }
    {
        let before = self.start + at;
        if at < self.bytes.len() - before && gap <= self.start {
            let start = self.start - gap;
            move_down(&mut self.bytes, start, start + at, gap);
            self.start = start;
            return Ok(());
        }
        open(&mut self.bytes, before, gap)
    }
}

/// Moves the bytes from `at` on up by `gap`. The bytes of the gap are unspecified. If allocation fails, the bytes are
/// unchanged.
fn open(bytes: &mut Vec<u8>, at: usize, gap: usize) -> Result<(), AllocError>
    requires within { at ≤ length bytes.old.items }
    requires short { length bytes.old.items + gap < 2 ^ 63 }
    ensures front { OnOk result (take at bytes.new.items ≡ take at bytes.old.items) }
    ensures back { OnOk result (drop (at + gap) bytes.new.items ≡ drop at bytes.old.items) }
    ensures count { OnOk result (length bytes.new.items ≡ length bytes.old.items + gap) }
    ensures err { OnErr result (bytes.new.items ≡ bytes.old.items) }
{
    let end = bytes.len();
    bytes.resize(end + gap, 0)?;
    move_up(bytes, at, end, gap);
    Ok(())
}

/// Removes `gap` bytes at `at`. Allocates nothing.
fn close(bytes: &mut Vec<u8>, at: usize, gap: usize)
    requires { at + gap ≤ length bytes.old.items }
    ensures { bytes.new.items ≡ take at bytes.old.items ++ drop (at + gap) bytes.old.items }
{
    let end = bytes.len() - gap;
    move_down(bytes, at, end, gap);
    bytes.truncate(end);
}
