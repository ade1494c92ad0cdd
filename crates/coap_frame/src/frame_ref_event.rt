//! The result of `Framer::next_frame`: frames with their layout.

ghost use Rattle.std.specs.Prelude.{◌≡◌};
ghost use Rattle.coap_frame.specs.Prelude.{finding_laid_out, finding_of_ref};

use coap_wire::{FrameFault, FrameRef};

/// Finding of `Framer::next_frame` in a chunk: a `FrameEvent` whose frames have their layout.
#[derive(Clone, Copy)]
pub enum FrameRefEvent<'a, 'p> {
    /// No whole frame. All of the chunk is taken.
    More,
    /// Split frame, borrowed from the framer's buffer as in `FrameEvent::Frame`.
    Frame(FrameRef<'a>),
    /// Frame that is whole in the chunk, borrowed from there as in `FrameEvent::Whole`.
    Whole(FrameRef<'p>),
    /// Malformed or oversized frame, as in `FrameEvent::Fault`.
    Fault(FrameFault),
}

impl<'a> FrameRefEvent<'a, 'a> {
    /// Returns the frame with its layout, from the chunk or from the buffer, or `None` if there is no whole frame.
    ///
    /// # Errors
    ///
    /// - `TokenLength`: the token length is above 64 or reserved.
    /// - `TooLarge`: the frame exceeds the framer's maximum.
    #[inline(always)]
    pub fn laid_out(self) -> Result<Option<FrameRef<'a>>, FrameFault>
        ensures { finding_laid_out result ≡ finding_of_ref self.entry }
    {
        match self {
            FrameRefEvent::More => Ok(None),
            FrameRefEvent::Frame(frame) => Ok(Some(frame)),
            FrameRefEvent::Whole(frame) => Ok(Some(frame)),
            FrameRefEvent::Fault(fault) => Err(fault),
        }
    }
}

/// Number of bytes that `Framer::next_frame` took from a chunk, with the finding.
#[derive(Clone, Copy)]
pub struct FramedRef<'a, 'p> {
    /// Number of bytes taken.
    pub taken: usize,
    /// Finding in these bytes.
    pub what: FrameRefEvent<'a, 'p>,
}
