//! All bytes of a ring buffer as one slice.

ghost use Rattle.std.specs.Prelude.{◌≡◌, ⊤};
ghost use Rattle.coap_conn.specs.Prelude.{sem, follows_so, none, ring_row, lends_bytes};

use circular_buffer::HeapCircularBuffer;

/// Moves the bytes of the ring into one slice, and returns that slice.
///
/// The proof of `contiguous` is written by hand, and a call of a function without type parameters keeps it short.
fn straighten<'a>(ring: &'a mut HeapCircularBuffer<u8>) -> &'a mut [u8]
    ensures* writes_back { sem 𝓛 (lends_bytes ring.entry result) }
    ensures all { result.now ≡ ring.old.items }
{
    ring.make_contiguous()
}

/// Returns all bytes of the ring in one slice. The value of the ring is unchanged.
///
/// The proof is written by hand, because the borrow checker does not follow a shared slice out of a mutable one.
pub(crate) fn contiguous<'a>(ring: &'a mut HeapCircularBuffer<u8>) -> &'a [u8]
    ensures* unchanged { sem 𝓛 (follows_so ring_row ring_row ring.entry.ghost_name none (λ _ _. ⊤)
        (λ b. b ≡ ring.old)) }
    ensures all { result.now ≡ ring.old.items }
{
    straighten(ring)
}
