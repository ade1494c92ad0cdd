//! Splits a stream of bytes into frames (RFC 8323 section 3.2), however it is split into reads.
//!
//! - `Framer` accepts chunks of the stream and returns each frame when its last byte arrives. A frame that is whole in
//!   the chunk is returned from there and not copied (`FrameEvent`). `next_frame` also returns the layout of the frame.
//! - `FrameFault` is the reason if the bytes begin no frame, `RaiseFault` the reason if the maximum size is not raised.
//! - `laws` has the theorems on calls of a framer.
//!
//! The contracts name the definitions of `specs/Framing.antt`.
//!
//! This crate decodes no message: `coap_wire` does. It does not know which maximum size was announced to a peer:
//! `coap_conn` does. Continue with `framer.rt`.
#![tactic(auto)]

mod fault;
mod filling;
mod frame_ref_event;
mod framer;
pub mod laws;

pub use coap_wire::FrameFault;
pub use fault::RaiseFault;
pub use frame_ref_event::{FrameRefEvent, FramedRef};
pub use framer::{FrameEvent, Framed, Framer, frame_of};
