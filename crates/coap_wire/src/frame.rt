//! A frame with its layout.

ghost use Rattle.std.specs.Prelude.{◌≡◌, IfOk, IfErr, Err};
ghost use Rattle.coap_wire.specs.Layout.{IsLaidOut};
ghost use Rattle.coap_wire.specs.Reading.{head_at};

use crate::fault::FormatFault;
use crate::layout::{FrameLayout, Outline};
use crate::size::outline;

/// Bytes that are exactly one frame, with their layout. The crate `coap_frame` returns frames in this form.
///
/// # Examples
///
/// ```
/// let mut framer = Framer::new(rt.alloc(), 1_152)?;
/// let framed = framer.next_frame(b"\x51\x01\x2a\xb4time");
/// if let Some(frame) = framed.what.laid_out()? {
///     assert!(&rt; frame.layout.token_at == 2 && frame.layout.token_length == 1);
///     let message = frame.parse()?;
///     assert!(&rt; message.token().bytes() == b"\x2a".as_slice());
/// }
/// ```
#[derive(Clone, Copy)]
pub struct FrameRef<'a> {
    /// Bytes of the frame.
    pub bytes: &'a [u8],
    /// Positions of the parts of the frame.
    pub layout: FrameLayout,
    pub ghost laid_out: { IsLaidOut bytes.now layout },
}

impl<'a> FrameRef<'a> {
    /// Returns the frame that the bytes are.
    ///
    /// # Errors
    ///
    /// - `TokenLength`: the first bytes state a token length above 64, or of nibble 15.
    /// - `NotOneFrame`: there is no byte, or the bytes are not exactly the frame that they declare.
    #[inline(always)]
    pub(crate) fn of(bytes: &'a [u8]) -> Result<FrameRef<'a>, FormatFault>
        ensures ok { IfOk result (λ frame. frame.bytes.now ≡ bytes.now) }
        ensures err { IfErr result (λ fault. head_at bytes.now ≡ Err fault) }
    {
        match outline(bytes) {
            Outline::Unknown => Err(FormatFault::NotOneFrame),
            Outline::BadToken => Err(FormatFault::TokenLength),
            Outline::Known { size, layout } => {
                if size != bytes.len() as u64 {
                    return Err(FormatFault::NotOneFrame);
                }
                Ok(FrameRef { bytes, layout })
            }
        }
    }
}
