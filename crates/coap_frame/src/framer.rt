//! The framer, which splits a stream into frames. The chunks of the stream may end anywhere.

ghost use Rattle.std.specs.Prelude.{◌≡◌, ◌≤◌, ◌<◌, [], OnOk, OnErr, length, take, vec_capacity, max as larger, IfOk, ⊤};
ghost use Rattle.coap_frame.specs.Prelude.{Unfinished, prefix_kind, framing, framing_of, framer_after, framer_of};
ghost use Rattle.coap_frame.specs.Prelude.{kept_in, frame_in, finding_in, finding_of, finding_read, sem, follows_so};
ghost use Rattle.coap_frame.specs.Prelude.{none, IsFramer, MayUnread, with_frame_back, IsFramed, raised, IsRaiseAnswer};
ghost use Rattle.coap_frame.specs.Prelude.{frame_back};
ghost use Rattle.coap_frame.specs.Prelude.{BASE_MESSAGE_SIZE, LARGEST_MESSAGE, HasLayoutIn, IsFramedRef};
ghost use Rattle.coap_frame.specs.declared.framer.BufferContent.TheVariants as content_as;
ghost use Rattle.coap_frame.specs.contracts.framer.Framer.{the_row};

use crate::fault::RaiseFault;
use crate::filling::{FrameStatus, append, classify, fill};
use crate::frame_ref_event::{FrameRefEvent, FramedRef};
use coap_wire::{FrameFault, FrameRef, LARGEST_MESSAGE};
use std::alloc::{AllocError, Global};
use std::marker::Model;

/// Finding of `Framer::next` in a chunk.
#[derive(Clone, Copy)]
pub enum FrameEvent<'a, 'p> {
    /// No whole frame. All of the chunk is taken.
    More,
    /// Split frame, of which earlier chunks had bytes, borrowed from the framer's buffer. The chunk is taken up to the
    /// frame's last byte.
    Frame(&'a [u8]),
    /// Frame that is whole in the chunk, borrowed from there. The chunk is taken up to the frame's last byte.
    Whole(&'p [u8]),
    /// Malformed or oversized frame. The chunk is taken up to the byte at which the error is known, and no byte is
    /// kept.
    Fault(FrameFault),
}

impl<'a> FrameEvent<'a, 'a> {
    /// Returns the frame, from the chunk or from the buffer, or `None` if there is no whole frame.
    ///
    /// # Errors
    ///
    /// - `TokenLength`: the token length is above 64 or reserved.
    /// - `TooLarge`: the frame exceeds the framer's maximum.
    pub fn frame(self) -> Result<Option<&'a [u8]>, FrameFault>
        ensures { finding_read result ≡ finding_of self.entry }
    {
        match self {
            FrameEvent::More => Ok(None),
            FrameEvent::Frame(frame) => Ok(Some(frame)),
            FrameEvent::Whole(frame) => Ok(Some(frame)),
            FrameEvent::Fault(fault) => Err(fault),
        }
    }
}

/// Number of bytes that `Framer::next` took from a chunk, with the finding.
#[derive(Clone, Copy)]
pub struct Framed<'a, 'p> {
    /// Number of bytes taken.
    pub taken: usize,
    /// Finding in these bytes.
    pub what: FrameEvent<'a, 'p>,
}

/// Content of a framer's buffer.
#[derive(Clone, Copy)]
enum BufferContent {
    /// Beginning of an unfinished frame, or no byte.
    Prefix,
    /// Split frame that `next` returned.
    Split,
}

/// Splitter of a stream into frames of at most `max` bytes. The chunks of the stream may end anywhere.
///
/// `new` allocates the buffer, and `raise` grows it. `next` copies only bytes of frames that are not whole in one
/// chunk. Contracts see a `FramerValue`: the maximum, the bytes kept of an unfinished frame, the split frame returned
/// last, and the number of bytes copied.
///
/// # Examples
///
/// ```
/// let mut framer = Framer::new(rt.alloc(), 1_152)?;
/// // A message of three bytes arrives in two chunks. The second one begins another message.
/// let first = framer.next(b"\x01\x01");
/// assert!(&rt; first.taken == 2 && matches!(first.what, FrameEvent::More));
/// let second = framer.next(b"\x2a\x00");
/// let frame = second.what.frame()?;
/// assert!(&rt; second.taken == 1 && frame == Some(b"\x01\x01\x2a".as_slice()));
/// ```
#[derive(Drop)]
pub struct Framer {
    max: usize,
    buffer: Vec<u8>,
    content: BufferContent,
    copied: u64,
}

impl Model for Framer {
    ghost use Rattle.coap_frame.specs.Framing.{FramerValue};

    ghost Value = { FramerValue };

    ghost use Rattle.coap_frame.specs.FramerViews.{framer_value, is_framer};

    ghost view = { framer_value };

    ghost invariant = { is_framer };
}

impl Framer {
    /// Creates a framer for frames of at most `max` bytes, with an empty buffer.
    ///
    /// # Errors
    ///
    /// - `AllocError`: allocation of a buffer of `max` bytes failed.
    ///
    /// # Preconditions
    ///
    /// - `max` is between 1,152 and 1,048,576 bytes.
    pub fn new(alloc: Global, max: usize) -> Result<Framer, AllocError>
        requires low { BASE_MESSAGE_SIZE ≤ max }
        requires high { max ≤ LARGEST_MESSAGE }
        ensures { IfOk result (λ f. f ≡ record { max = max; kept = []; spent = []; copied = 0 }) }
    {
        Ok(Framer {
            max,
            buffer: Vec::with_capacity(alloc, max)?,
            content: BufferContent::Prefix,
            copied: 0,
        })
    }

    /// Takes bytes of the next chunk up to the end of the first frame, to the byte at which an error is known, or all.
    ///
    /// The caller passes the other bytes again with the next call. A frame that is whole in the chunk is returned from
    /// there, and no byte of it is copied.
    pub fn next<'a, 'p>(&'a mut self, piece: &'p [u8]) -> Framed<'a, 'p>
        ensures* writes_back { sem 𝓛 (follows_so the_row the_row self.entry.ghost_name none (λ _ _. ⊤)
            (λ f. f ≡ framer_after self.old piece.now)) }
        ensures framed { IsFramed result (framing_of self.old piece.now) }
        ensures within { result.taken ≤ length piece.now }
    {
        let framed = self.next_frame(piece);
        let what = match framed.what {
            FrameRefEvent::More => FrameEvent::More,
            FrameRefEvent::Frame(frame) => FrameEvent::Frame(frame.bytes),
            FrameRefEvent::Whole(frame) => FrameEvent::Whole(frame.bytes),
            FrameRefEvent::Fault(fault) => FrameEvent::Fault(fault),
        };
        Framed {
            taken: framed.taken,
            what,
        }
    }

    /// Does the same as `next`, and returns the frame with its layout.
    ///
    /// The caller need not read the head of the frame again: `FrameRef::parse` uses the layout.
    pub fn next_frame<'a, 'p>(&'a mut self, piece: &'p [u8]) -> FramedRef<'a, 'p>
        ensures* writes_back { sem 𝓛 (follows_so the_row the_row self.entry.ghost_name none (λ _ _. ⊤)
            (λ f. f ≡ framer_after self.old piece.now)) }
        ensures framed { IsFramedRef result (framing_of self.old piece.now) }
        ensures within { result.taken ≤ length piece.now }
    {
        let (taken, status) = advance(
            &mut self.buffer,
            &mut self.content,
            &mut self.copied,
            self.max,
            piece,
        );
        let what = match status {
            FrameStatus::Unfinished => FrameRefEvent::More,
            FrameStatus::Fault(fault) => FrameRefEvent::Fault(fault),
            FrameStatus::Whole(layout) => match self.content {
                BufferContent::Prefix => FrameRefEvent::Whole(FrameRef {
                    bytes: &piece[..taken],
                    layout,
                }),
                BufferContent::Split => FrameRefEvent::Frame(FrameRef {
                    bytes: &self.buffer,
                    layout,
                }),
            },
        };
        FramedRef { taken, what }
    }

    /// Begins a new stream: discards the kept bytes and the split frame.
    #[tactic(auto, using(crate::proofs::FramingLemmas::empty_framer))]
    pub fn clear(&mut self)
        ensures { self.new ≡ record self.old { kept = []; spent = [] } }
    {
        self.buffer.clear();
        self.content = BufferContent::Prefix;
    }

    /// Raises the maximum size of a frame to `new` bytes.
    ///
    /// The new maximum also applies to an unfinished frame whose size is not yet known. The kept bytes and the count of
    /// copied bytes stay; a split frame is discarded.
    ///
    /// # Errors
    ///
    /// The framer is unchanged. The errors are checked in this order:
    /// - `Lower`: `new` is below the current maximum.
    /// - `TooLarge`: `new` is above 1,048,576 bytes.
    /// - `Memory`: `new` is above the current maximum, and allocation failed.
    pub fn raise(&mut self, new: usize) -> Result<(), RaiseFault>
        ensures answer { IsRaiseAnswer self.old.max new result }
        ensures after { self.new ≡ raised self.old new result }
    {
        if new < self.max {
            return Err(RaiseFault::Lower);
        }
        if new > LARGEST_MESSAGE {
            return Err(RaiseFault::TooLarge);
        }
        let Ok(()) = grow(&mut self.buffer, new) else {
            return Err(RaiseFault::Memory);
        };
        keep_beginning(&mut self.buffer, &mut self.content);
        self.max = new;
        Ok(())
    }

    /// Returns the number of bytes kept of an unfinished frame. It is below `max`.
    pub fn kept(&self) -> usize
        ensures kept { result ≡ length self.now.kept }
        ensures below { result < self.now.max }
        ensures invariant { IsFramer self.now }
    {
        match self.content {
            BufferContent::Prefix => self.buffer.len(),
            BufferContent::Split => 0,
        }
    }

    /// Returns the length of the split frame in the buffer, which the last `next` returned, or 0 if there is none.
    pub fn spent(&self) -> usize
        ensures { result ≡ length self.now.spent }
    {
        match self.content {
            BufferContent::Split => self.buffer.len(),
            BufferContent::Prefix => 0,
        }
    }

    /// Returns the split frame in the buffer, which the last `next` returned, or an empty slice if there is none.
    pub fn split_frame(&self) -> &[u8]
        ensures { result.now ≡ self.now.spent }
    {
        match self.content {
            BufferContent::Split => &self.buffer,
            BufferContent::Prefix => &[],
        }
    }

    /// Returns the maximum size of a frame in bytes, between 1,152 and 1,048,576.
    pub fn max(&self) -> usize
        ensures value { result ≡ self.now.max }
        ensures low { BASE_MESSAGE_SIZE ≤ result }
        ensures high { result ≤ LARGEST_MESSAGE }
    {
        self.max
    }

    /// Returns the number of bytes copied into the buffer so far. The count saturates at the maximum of `u64`.
    ///
    /// The contracts do not rule out an uncounted copy to other memory, or one that is gone from the buffer when the
    /// call ends.
    pub fn copied(&self) -> u64
        ensures { result ≡ self.now.copied }
    {
        self.copied
    }

    /// Takes back the last byte of the frame that `next` has just returned, and keeps the other bytes of the frame.
    ///
    /// `piece` is the chunk of that call, truncated to the bytes taken. If the frame is whole there, its bytes except
    /// the last are copied into the buffer.
    ///
    /// # Preconditions
    ///
    /// - The buffer has a split frame, or `piece` is exactly one frame and no byte is kept. This is the case after
    ///   `next` returned a frame.
    #[tactic(auto, using(crate::proofs::FramingLemmas::frames_back))]
    pub fn unread(&mut self, piece: &[u8])
        requires { MayUnread self.old piece.now }
        ensures { self.new ≡ with_frame_back self.old piece.now }
    {
        let spent = self.spent();
        if spent > 0 {
            self.buffer.truncate(spent - 1);
        } else {
            let front = &piece[..piece.len() - 1];
            self.buffer.clear();
            append(&mut self.buffer, front);
            self.copied = self.copied.saturating_add(front.len() as u64);
        }
        self.content = BufferContent::Prefix;
    }
}

/// Grows the capacity of a buffer to exactly `room` bytes if it is smaller. The content stays.
fn grow(buffer: &mut Vec<u8>, room: usize) -> Result<(), AllocError>
    ensures items { buffer.new.items ≡ buffer.old.items }
    ensures exact { OnOk result (vec_capacity buffer.new ≡ larger (vec_capacity buffer.old) room) }
    ensures ok { OnOk result (room ≤ vec_capacity buffer.new) }
    ensures err { OnErr result (vec_capacity buffer.old < room) }
    ensures unchanged { OnErr result (vec_capacity buffer.new ≡ vec_capacity buffer.old) }
{
    buffer.reserve_exact(room.saturating_sub(buffer.len()))
}

/// Discards a split frame, and keeps the bytes of an unfinished frame.
fn keep_beginning(buffer: &mut Vec<u8>, content: &mut BufferContent)
    ensures items { buffer.new.items ≡ kept_in content.old buffer.old.items }
    ensures content { content.new ≡ content_as.Prefix }
    ensures capacity { vec_capacity buffer.old ≤ vec_capacity buffer.new }
{
    match *content {
        BufferContent::Prefix => {}
        BufferContent::Split => {
            buffer.clear();
            *content = BufferContent::Prefix;
        }
    }
}

/// Takes bytes of a chunk. Those of a split frame are copied into the buffer.
fn advance(
    buffer: &mut Vec<u8>,
    content: &mut BufferContent,
    copied: &mut u64,
    max: usize,
    piece: &[u8],
) -> (usize, FrameStatus)
    requires unfinished { prefix_kind max (kept_in content.old buffer.old.items) ≡ Unfinished }
    requires countable { copied.old ≤ 18446744073709551615 }
    requires low { BASE_MESSAGE_SIZE ≤ max }
    requires room { max ≤ vec_capacity buffer.old }
    ensures after { framer_of max content.new buffer.new.items copied.new
        ≡ framer_after (framer_of max content.old buffer.old.items copied.old) piece.now }
    ensures taken { result.0 ≡ (framing max (kept_in content.old buffer.old.items) piece.now).taken }
    ensures within { result.0 ≤ length piece.now }
    ensures layout { HasLayoutIn (frame_in content.new buffer.new.items (take result.0 piece.now)) result.1 }
    ensures found { finding_in (frame_in content.new buffer.new.items (take result.0 piece.now)) result.1
        ≡ (framing max (kept_in content.old buffer.old.items) piece.now).finding }
    ensures capacity { max ≤ vec_capacity buffer.new }
{
    keep_beginning(buffer, content);
    if buffer.is_empty() {
        advance_in_piece(buffer, copied, max, piece)
    } else {
        advance_in_buffer(buffer, content, copied, max, piece)
    }
}

/// Takes bytes of a chunk if no byte is kept. Only the beginning of an unfinished frame is copied into the buffer.
fn advance_in_piece(
    buffer: &mut Vec<u8>,
    copied: &mut u64,
    max: usize,
    piece: &[u8],
) -> (usize, FrameStatus)
    requires empty { buffer.old.items ≡ [] }
    requires countable { copied.old ≤ 18446744073709551615 }
    requires low { BASE_MESSAGE_SIZE ≤ max }
    requires room { max ≤ vec_capacity buffer.old }
    ensures after { framer_of max content_as.Prefix buffer.new.items copied.new
        ≡ framer_after (framer_of max content_as.Prefix [] copied.old) piece.now }
    ensures taken { result.0 ≡ (framing max [] piece.now).taken }
    ensures within { result.0 ≤ length piece.now }
    ensures layout { HasLayoutIn (take result.0 piece.now) result.1 }
    ensures found { finding_in (take result.0 piece.now) result.1 ≡ (framing max [] piece.now).finding }
    ensures capacity { max ≤ vec_capacity buffer.new }
{
    let (taken, status) = classify(piece, max);
    match status {
        FrameStatus::Unfinished => {
            append(buffer, piece);
            *copied = copied.saturating_add(taken as u64);
        }
        FrameStatus::Whole(_) => {}
        FrameStatus::Fault(_) => {}
    }
    (taken, status)
}

/// Takes bytes of a chunk, and appends them to the kept bytes of an unfinished frame.
fn advance_in_buffer(
    buffer: &mut Vec<u8>,
    content: &mut BufferContent,
    copied: &mut u64,
    max: usize,
    piece: &[u8],
) -> (usize, FrameStatus)
    requires unfinished { prefix_kind max buffer.old.items ≡ Unfinished }
    requires some { 0 < length buffer.old.items }
    requires low { BASE_MESSAGE_SIZE ≤ max }
    requires room { max ≤ vec_capacity buffer.old }
    ensures after { framer_of max content.new buffer.new.items copied.new
        ≡ framer_after (framer_of max content_as.Prefix buffer.old.items copied.old) piece.now }
    ensures taken { result.0 ≡ (framing max buffer.old.items piece.now).taken }
    ensures within { result.0 ≤ length piece.now }
    ensures layout { HasLayoutIn (frame_in content.new buffer.new.items (take result.0 piece.now)) result.1 }
    ensures found { finding_in (frame_in content.new buffer.new.items (take result.0 piece.now)) result.1
        ≡ (framing max buffer.old.items piece.now).finding }
    ensures capacity { max ≤ vec_capacity buffer.new }
{
    let (taken, status) = fill(buffer, max, piece);
    *copied = copied.saturating_add(taken as u64);
    *content = match status {
        FrameStatus::Unfinished => BufferContent::Prefix,
        FrameStatus::Whole(_) => BufferContent::Split,
        FrameStatus::Fault(_) => {
            buffer.clear();
            BufferContent::Prefix
        }
    };
    (taken, status)
}

/// Returns the frame that a call of `next` or `next_frame` completed. A split frame is the framer's copy
/// (`split_frame`), and any other frame is in the bytes that the call took.
pub fn frame_of<'a>(split: &'a [u8], taken: &'a [u8]) -> &'a [u8]
    ensures { result.now ≡ frame_back split.now taken.now }
{
    if split.is_empty() { taken } else { split }
}
