//! Moves of bytes within a vector by a short distance.
//!
//! The compiler turns such a move into one `memmove` if the distance is a constant, and into a slower loop otherwise.
//! So each distance by which a change of Content-Format moves other entries, 1 to 9, has its own case.

ghost use Rattle.std.specs.Prelude.{◌≡◌, ◌+◌, ◌≤◌, length};
ghost use Rattle.std.specs.List.{copy_within};

/// Moves the bytes from `at` to `end` up by `gap`.
pub(crate) fn move_up(bytes: &mut Vec<u8>, at: usize, end: usize, gap: usize)
    requires order { at ≤ end }
    requires within { end + gap ≤ length bytes.old.items }
    ensures { bytes.new.items ≡ copy_within bytes.old.items at end (at + gap) }
{
    match gap {
        1 => shift_up(bytes, at, end, 1),
        2 => shift_up(bytes, at, end, 2),
        3 => shift_up(bytes, at, end, 3),
        4 => shift_up(bytes, at, end, 4),
        5 => shift_up(bytes, at, end, 5),
        6 => shift_up(bytes, at, end, 6),
        7 => shift_up(bytes, at, end, 7),
        8 => shift_up(bytes, at, end, 8),
        9 => shift_up(bytes, at, end, 9),
        _ => shift_up(bytes, at, end, gap),
    }
}

/// Moves the bytes from `at` to `end` up by `gap`, which is a constant in each case.
#[inline(always)]
#[tactic(auto, using(crate::proofs::MoveLemmas::shift_steps))]
fn shift_up(bytes: &mut Vec<u8>, at: usize, end: usize, gap: usize)
    requires order { at ≤ end }
    requires within { end + gap ≤ length bytes.old.items }
    ensures { bytes.new.items ≡ copy_within bytes.old.items at end (at + gap) }
{
    bytes[at..end + gap].copy_within(0..end - at, gap);
}

/// Moves the bytes from `at + gap` to `end + gap` down by `gap`, which is a constant in each case.
#[inline(always)]
#[tactic(auto, using(crate::proofs::MoveLemmas::shift_steps))]
fn shift_down(bytes: &mut Vec<u8>, at: usize, end: usize, gap: usize)
    requires order { at ≤ end }
    requires within { end + gap ≤ length bytes.old.items }
    ensures { bytes.new.items ≡ copy_within bytes.old.items (at + gap) (end + gap) at }
{
    bytes[at..end + gap].copy_within(gap.., 0);
}

/// Moves the bytes from `at + gap` to `end + gap` down by `gap`.
pub(crate) fn move_down(bytes: &mut Vec<u8>, at: usize, end: usize, gap: usize)
    requires order { at ≤ end }
    requires within { end + gap ≤ length bytes.old.items }
    ensures { bytes.new.items ≡ copy_within bytes.old.items (at + gap) (end + gap) at }
{
    match gap {
        1 => shift_down(bytes, at, end, 1),
        2 => shift_down(bytes, at, end, 2),
        3 => shift_down(bytes, at, end, 3),
        4 => shift_down(bytes, at, end, 4),
        5 => shift_down(bytes, at, end, 5),
        6 => shift_down(bytes, at, end, 6),
        7 => shift_down(bytes, at, end, 7),
        8 => shift_down(bytes, at, end, 8),
        9 => shift_down(bytes, at, end, 9),
        _ => shift_down(bytes, at, end, gap),
    }
}
