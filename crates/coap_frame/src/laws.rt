//! Theorems on framers. Each is the contract of a function with an empty body.

ghost use Rattle.std.specs.Prelude.{◌≡◌, ℕ, ◌≤◌, List, ◌++◌, length, take};
ghost use Rattle.coap_frame.specs.Prelude.{Unfinished, Faulty, prefix_kind, fault_bytes, FrameFault, FramerValue};
ghost use Rattle.coap_frame.specs.Prelude.{IsFramer, Nothing, AFrame, AFault, MayUnread, framing, framing_of};
ghost use Rattle.coap_frame.specs.Prelude.{framer_after, without_last, FramerCall, AreCounted, FramerInput, IsGiven};
ghost use Rattle.coap_frame.specs.Prelude.{output_of, taken_of, unread_after, last_byte};

/// States that the frames, the error and the kept bytes are those of the stream that the framer received.
///
/// The stream is the bytes kept at first, followed by the bytes taken. Each chunk is passed to one call, up to the
/// first error, and the maximum size may be raised between chunks. The size of a frame is compared with the current
/// maximum when the last byte that states the size is taken. If the token length has an extension, this is the last
/// byte of that extension. Otherwise it is the last byte of the frame's length (RFC 8323 section 3.2, RFC 8974 section
/// 2.1).
pub fn framer_yields_stream_frames()
    ensures { (v : FramerValue) (handed : List FramerInput) → IsFramer v → IsGiven v (output_of v handed) }
{}

/// States how many bytes of a chunk are taken. If nothing is found, all are taken. Otherwise they end with the last
/// byte of the frame, or with the byte at which the error is known.
pub fn framer_takes_each_piece_to_its_end()
    ensures within { (max : ℕ) (kept piece : List ℕ) → prefix_kind max kept ≡ Unfinished →
        (framing max kept piece).taken ≤ length piece }
    ensures nothing { (max : ℕ) (kept piece : List ℕ) → prefix_kind max kept ≡ Unfinished →
        (framing max kept piece).finding ≡ Nothing → (framing max kept piece).taken ≡ length piece }
    ensures frame { (max : ℕ) (kept piece frame : List ℕ) → prefix_kind max kept ≡ Unfinished →
        (framing max kept piece).finding ≡ AFrame frame → frame ≡ kept ++ take (framing max kept piece).taken piece }
    ensures fault { (max : ℕ) (kept piece : List ℕ) (fault : FrameFault) → prefix_kind max kept ≡ Unfinished →
        (framing max kept piece).finding ≡ AFault fault → (prefix_kind max (kept ++ piece) ≡ Faulty fault)
        × (kept ++ take (framing max kept piece).taken piece ≡ fault_bytes (kept ++ piece)) }
{}

/// States that `next` keeps the invariant of a framer, for every chunk.
pub fn framer_invariant_is_kept()
    ensures { (v : FramerValue) (piece : List ℕ) → IsFramer v → IsFramer (framer_after v piece) }
{}

/// States that `unread` is allowed after `next` returned a frame, and takes back one byte. Except for the count of
/// copied bytes, the framer is then as if that byte had not arrived. With that byte it returns the frame again.
pub fn unread_takes_one_byte_back()
    ensures allowed { (v : FramerValue) (piece frame : List ℕ) → IsFramer v →
        (framing_of v piece).finding ≡ AFrame frame → MayUnread (framer_after v piece) (taken_of v piece) }
    ensures one_less { (v : FramerValue) (piece frame : List ℕ) → IsFramer v →
        (framing_of v piece).finding ≡ AFrame frame → unread_after v piece
        ≡ record (framer_after v (without_last (taken_of v piece))) { copied = (unread_after v piece).copied } }
    ensures nothing { (v : FramerValue) (piece frame : List ℕ) → IsFramer v →
        (framing_of v piece).finding ≡ AFrame frame →
        (framing_of v (without_last (taken_of v piece))).finding ≡ Nothing }
    ensures again { (v : FramerValue) (piece frame : List ℕ) → IsFramer v →
        (framing_of v piece).finding ≡ AFrame frame →
        (framing_of (unread_after v piece) (last_byte frame)).finding ≡ AFrame frame }
    ensures taken { (v : FramerValue) (piece frame : List ℕ) → IsFramer v →
        (framing_of v piece).finding ≡ AFrame frame → (framing_of (unread_after v piece) (last_byte frame)).taken ≡ 1 }
{}

/// States how calls change the count of copied bytes, for every sequence of calls.
///
/// - A chunk adds at most the number of bytes taken, and nothing for a frame that is whole in the chunk.
/// - `unread` adds the length of a frame less 1 if the frame was whole in its chunk, and nothing for a split frame.
/// - `clear` and `raise` add nothing.
/// - Until the count saturates, the number of bytes in the buffer grows by at most the increase of the count.
pub fn what_is_copied_is_counted()
    ensures { (v : FramerValue) (calls : List FramerCall) → IsFramer v → AreCounted v calls }
{}
