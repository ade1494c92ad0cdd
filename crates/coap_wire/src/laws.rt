//! Theorems on encodings, streams and options. Each is the contract of a function that does nothing.

ghost use Rattle.std.specs.Prelude.{◌≡◌, ◌≢◌, ◌↔◌, ℕ, ◌^◌, ◌<◌, ◌≤◌, List, [], ◌∷◌, ◌++◌, length, None, IsTrue};
ghost use Rattle.coap_wire.specs.Prelude.{Message, CoapOption, AreBytes, AreOrdered, IsLengthForm, length_form};
ghost use Rattle.coap_wire.specs.Prelude.{greatest_length, IsOptionForm, option_form, MAX_EXTENDED_LENGTH, IsTokenForm};
ghost use Rattle.coap_wire.specs.Prelude.{token_form, greatest_token, Spells, spelling, HasSpelling, IsDeclaredSize};
ghost use Rattle.coap_wire.specs.Prelude.{IsFrame, Declares, declared_of, IsFirstFault, IsFrameFault, IsUnfinished};
ghost use Rattle.coap_wire.specs.Prelude.{Unfinished, Whole, Faulty, prefix_kind, fault_bytes, Frames, Sizes, FramedAs};
ghost use Rattle.coap_wire.specs.Prelude.{constant_size, size_for, sizes_after, sizes_of_rest, sized_frames};
ghost use Rattle.coap_wire.specs.Prelude.{frames_on, Stream, SplitsAs, sized_split, split, stream_then, sized_split_on};
ghost use Rattle.coap_wire.specs.Prelude.{split_on, uint_of, bytes_of_uint, IsFirstWithNumber, IsRecognised};
ghost use Rattle.coap_wire.specs.Prelude.{is_recognised, Declared, FormatFault, FrameFault};

/// States that each length up to 4,295,033,100 has one encoding: a nibble and its extension (RFC 8323 section 3.2).
pub fn length_has_one_form()
    ensures has { (n : ℕ) → n ≤ greatest_length → IsLengthForm (length_form n).0 (length_form n).1 n }
    ensures no_other { (n x : ℕ) (e : List ℕ) → IsLengthForm x e n → (x ≡ (length_form n).0) × (e ≡ (length_form n).1) }
{}

/// States that each option delta and length up to 65,804 has one encoding: a nibble and its extension (RFC 7252, 3.1).
pub fn option_number_has_one_form()
    ensures has { (n : ℕ) → n ≤ MAX_EXTENDED_LENGTH → IsOptionForm (option_form n).0 (option_form n).1 n }
    ensures no_other { (n x : ℕ) (e : List ℕ) → IsOptionForm x e n → (x ≡ (option_form n).0) × (e ≡ (option_form n).1) }
{}

/// States that each token length up to 64 has exactly one encoding: a nibble and its extension (RFC 8974 section 2.1).
pub fn token_length_has_one_form()
    ensures has { (n : ℕ) → n ≤ greatest_token → IsTokenForm (token_form n).0 (token_form n).1 n }
    ensures no_other { (n x : ℕ) (e : List ℕ) → IsTokenForm x e n → (x ≡ (token_form n).0) × (e ≡ (token_form n).1) }
{}

/// States that a message has at most one encoding.
pub fn message_has_one_spelling()
    ensures { (m : Message) (s t : List ℕ) → Spells s m → Spells t m → s ≡ t }
{}

/// States that bytes encode at most one message.
pub fn spelling_has_one_message()
    ensures { (s : List ℕ) (m n : Message) → Spells s m → Spells s n → m ≡ n }
{}

/// States that no encoding of a message is a proper prefix of another one.
pub fn no_spelling_begins_another()
    ensures { (s more : List ℕ) (m n : Message) → Spells s m → Spells (s ++ more) n → more ≡ [] }
{}

/// States that a message has an encoding if and only if its parts are in range (`HasSpelling`). `spelling` computes it.
pub fn messages_in_range_have_an_encoding()
    ensures has { (m : Message) → HasSpelling m → Spells (spelling m) m }
    ensures no_other { (m : Message) (s : List ℕ) → Spells s m → HasSpelling m }
{}

/// States that the first bytes of a frame declare exactly one thing, which `declared_of` computes. A declared size
/// stays the same when more bytes follow. Bytes that encode a message are a frame.
pub fn size_is_declared_once()
    ensures has { (s : List ℕ) → AreBytes s → Declares s (declared_of s) }
    ensures no_other { (s : List ℕ) (d : Declared) → AreBytes s → Declares s d → d ≡ declared_of s }
    ensures once { (s : List ℕ) (m n : ℕ) → IsDeclaredSize s m → IsDeclaredSize s n → m ≡ n }
    ensures stays { (s more : List ℕ) (n : ℕ) → IsDeclaredSize s n → IsDeclaredSize (s ++ more) n }
    ensures spelling { (s : List ℕ) (m : Message) → Spells s m → IsFrame s }
{}

/// States that bytes have exactly one first error if they encode no message, and none if they encode one.
pub fn first_fault_is_one()
    ensures has { (s : List ℕ) → AreBytes s → ((m : Message) → Spells s m → ⊥) → (f : FormatFault) × IsFirstFault s f }
    ensures once { (s : List ℕ) (f g : FormatFault) → AreBytes s → IsFirstFault s f → IsFirstFault s g → f ≡ g }
    ensures none { (s : List ℕ) (m : Message) (f : FormatFault) → AreBytes s → Spells s m → IsFirstFault s f → ⊥ }
{}

/// States that a stream splits in exactly one way into messages, a rest and an error, which `sized_split` computes (RFC
/// 8323 sections 3.2, 5.3.1).
///
/// Each message is compared with the maximum size in effect at the last byte that states its own size. `split` computes
/// the result if the maximum never changes.
#[tactic(auto, using(crate::proofs::StreamSteps::split_is, crate::proofs::StreamLaws::split_splits))]
pub fn stream_is_split_once()
    ensures has { (sizes : Sizes) (s : List ℕ) → AreBytes s → SplitsAs sizes s (sized_split sizes s) }
    ensures no_other { (sizes : Sizes) (s : List ℕ) (other : Stream) → AreBytes s → SplitsAs sizes s other
        → other ≡ sized_split sizes s }
    ensures one_size { (M : ℕ) (s : List ℕ) → split M s ≡ sized_split (constant_size M) s }
{}

/// States that the segmentation of a stream does not change its messages. To split `s ++ more`, split `s`, then
/// continue from its rest with `more`. After an error, `more` is ignored.
#[tactic(auto, using(crate::proofs::StreamSteps::sized_goes_on, crate::proofs::StreamSteps::split_goes_on))]
pub fn segmentation_is_irrelevant()
    ensures sized { (sizes : Sizes) (s more : List ℕ) → sized_split sizes (s ++ more)
        ≡ sized_split_on (sizes_of_rest sizes s (sized_split sizes s).rest) (sized_split sizes s) more }
    ensures one_size { (M : ℕ) (s more : List ℕ) → split M (s ++ more) ≡ split_on M (split M s) more }
{}

/// States that a stream divides in exactly one way into frames, a rest and an error, which `sized_frames` computes.
/// Each frame is compared with the maximum size in effect at the last byte that states its own size.
#[tactic(auto, using(crate::proofs::FramesLaws::frames_framed))]
pub fn frames_are_found_once()
    ensures has { (sizes : Sizes) (s : List ℕ) → AreBytes s → FramedAs sizes s (sized_frames sizes s) }
    ensures no_other { (sizes : Sizes) (s : List ℕ) (other : Frames) → AreBytes s → FramedAs sizes s other
        → other ≡ sized_frames sizes s }
{}

/// States that the segmentation of a stream does not change its frames. To find those of `s ++ more`, find those of
/// `s`, then continue from the rest with `more`. After an error, `more` is ignored.
#[tactic(auto, using(crate::proofs::StreamSteps::frames_go_on))]
pub fn frame_segmentation_is_irrelevant()
    ensures { (sizes : Sizes) (s more : List ℕ) → sized_frames sizes (s ++ more)
        ≡ frames_on (sizes_of_rest sizes s (sized_frames sizes s).rest) (sized_frames sizes s) more }
{}

/// States which maximum sizes a stream depends on. Those after its last byte have no effect. If its first bytes are an
/// unfinished frame, a larger maximum for them gives the same result.
///
/// So after the maximum grows, an unfinished frame is treated as if the new maximum had been in effect from its start.
pub fn sizes_matter_where_they_are_in_force()
    ensures later { (F G : Sizes) (s : List ℕ) → ((at : ℕ) → at < length s → F at ≡ G at) →
        sized_split F s ≡ sized_split G s }
    ensures before { (F G : Sizes) (kept more : List ℕ) → prefix_kind (size_for F kept) kept ≡ Unfinished
        → size_for F kept ≤ size_for G kept
        → ((at : ℕ) → length kept ≤ at → F at ≡ G at) → sized_split F (kept ++ more) ≡ sized_split G (kept ++ more) }
{}

/// States that a stream continues with the present maximum size `N`, if it was never larger before. If there is no
/// error, the rest is unfinished with that maximum. More bytes are split as if `N` were in effect from the start of the
/// rest.
pub fn a_stream_goes_on_with_the_size_in_force()
    ensures left { (F : Sizes) (N : ℕ) (s : List ℕ) → ((at : ℕ) → F at ≤ N) → (sized_split F s).fault ≡ None
        → prefix_kind N (sized_split F s).rest ≡ Unfinished }
    ensures more { (F : Sizes) (N : ℕ) (s more : List ℕ) → ((at : ℕ) → F at ≤ N) → ((at : ℕ) → length s ≤ at → F at ≡ N)
        → sized_split F (s ++ more) ≡ split_on N (sized_split F s) more }
{}

/// States that a stream can be read in order. The result is that of the first frame, followed by the result for the
/// bytes after it. If there is no error, the rest is an unfinished frame.
#[tactic(auto, using(crate::proofs::StreamSteps::stream_in_order))]
pub fn stream_is_read_in_order()
    ensures front { (sizes : Sizes) (s : List ℕ) → sized_split sizes s
        ≡ stream_then (λ frame. sized_split (sizes_after (length frame) sizes)) s (prefix_kind (size_for sizes s) s) }
    ensures rest { (sizes : Sizes) (s rest : List ℕ) → (sized_split sizes s).fault ≡ None →
        (sized_split sizes s).rest ≡ rest → prefix_kind (size_for (sizes_of_rest sizes s rest) rest) rest ≡ Unfinished }
    ensures front_of_one_size { (M : ℕ) (s : List ℕ) → split M s ≡ stream_then (λ frame. split M) s (prefix_kind M s) }
    ensures rest_of_one_size { (M : ℕ) (s : List ℕ) → (split M s).fault ≡ None →
        prefix_kind M (split M s).rest ≡ Unfinished }
{}

/// States that `prefix_kind` agrees with the relations `IsFrame`, `IsFrameFault` and `IsUnfinished`. The first bytes
/// are a frame of at most `M` bytes, or `fault_bytes` shows an error, or the frame is unfinished.
#[tactic(auto, using(crate::proofs::FramesLaws::first_bytes))]
pub fn prefix_kind_finds_first_frame()
    ensures frame_found { (M : ℕ) (frame rest : List ℕ) → IsFrame frame → length frame ≤ M →
        prefix_kind M (frame ++ rest) ≡ Whole frame rest }
    ensures frame_sound { (M : ℕ) (s frame rest : List ℕ) → AreBytes s → prefix_kind M s ≡ Whole frame rest →
        IsFrame frame }
    ensures fault_found { (M : ℕ) (r more : List ℕ) (fault : FrameFault) → IsFrameFault M fault r →
        prefix_kind M (r ++ more) ≡ Faulty fault }
    ensures fault_sound { (M : ℕ) (s : List ℕ) (fault : FrameFault) → AreBytes s → prefix_kind M s ≡ Faulty fault →
        IsFrameFault M fault (fault_bytes s) }
    ensures neither_found { (M : ℕ) (s : List ℕ) → AreBytes s → IsUnfinished M s → prefix_kind M s ≡ Unfinished }
    ensures neither_sound { (M : ℕ) (s : List ℕ) → prefix_kind M s ≡ Unfinished → IsUnfinished M s }
{}

/// States that a frame found by `prefix_kind` is the first 2 to `M` bytes of the stream, and is found
/// without later ones.
pub fn frame_at_the_front_is_the_first_bytes()
    ensures bytes { (M : ℕ) (s frame rest : List ℕ) → prefix_kind M s ≡ Whole frame rest → s ≡ frame ++ rest }
    ensures at_least { (M : ℕ) (s frame rest : List ℕ) → prefix_kind M s ≡ Whole frame rest → 2 ≤ length frame }
    ensures at_most { (M : ℕ) (s frame rest : List ℕ) → prefix_kind M s ≡ Whole frame rest → length frame ≤ M }
    ensures alone { (M : ℕ) (s frame rest : List ℕ) → prefix_kind M s ≡ Whole frame rest →
        prefix_kind M frame ≡ Whole frame [] }
{}

/// States that a frame or an error found by `prefix_kind` stays the same when more bytes follow.
#[tactic(auto, using(crate::proofs::StreamSteps::whole_more, crate::proofs::StreamSteps::faulty_more))]
pub fn prefix_classification_is_stable()
    ensures whole { (M : ℕ) (s more frame rest : List ℕ) → prefix_kind M s ≡ Whole frame rest →
        prefix_kind M (s ++ more) ≡ Whole frame (rest ++ more) }
    ensures fault { (M : ℕ) (s more : List ℕ) (fault : FrameFault) → prefix_kind M s ≡ Faulty fault →
        prefix_kind M (s ++ more) ≡ Faulty fault }
    ensures fault_bytes { (M : ℕ) (s more : List ℕ) (fault : FrameFault) → prefix_kind M s ≡ Faulty fault →
        fault_bytes (s ++ more) ≡ fault_bytes s }
{}

/// States that an unfinished frame is shorter than the maximum size, if that is at least 8. The frame is unfinished
/// with a larger maximum too. If one more byte gives a frame or an error, that byte is its last one.
pub fn unfinished_beginning_needs_more_bytes()
    ensures empty { (M : ℕ) → prefix_kind M [] ≡ Unfinished }
    ensures shorter { (M : ℕ) (s : List ℕ) → 8 ≤ M → prefix_kind M s ≡ Unfinished → length s < M }
    ensures larger { (M N : ℕ) (s : List ℕ) → M ≤ N → prefix_kind M s ≡ Unfinished → prefix_kind N s ≡ Unfinished }
    ensures frame { (M : ℕ) (s : List ℕ) (b : ℕ) (frame rest : List ℕ) → prefix_kind M s ≡ Unfinished →
        prefix_kind M (s ++ b ∷ []) ≡ Whole frame rest → (rest ≡ []) × (frame ≡ s ++ b ∷ []) }
    ensures fault { (M : ℕ) (s : List ℕ) (b : ℕ) (fault : FrameFault) → prefix_kind M s ≡ Unfinished →
        prefix_kind M (s ++ b ∷ []) ≡ Faulty fault → fault_bytes (s ++ b ∷ []) ≡ s ++ b ∷ [] }
{}

/// States that the bytes of a number below 2^64 encode it, so numbers with equal bytes are equal. They are at most 8
/// (RFC 7252 section 3.2).
#[tactic(auto, using(crate::proofs::UintLaws::uint_of_bytes, crate::proofs::UintLaws::bytes_are_one, crate::proofs::UintLaws::eight_bytes_at_most))]
pub fn bytes_of_a_number_mean_it()
    ensures mean { (n : ℕ) → n < 2 ^ 64 → uint_of (bytes_of_uint n) ≡ n }
    ensures distinct { (m n : ℕ) → m < 2 ^ 64 → n < 2 ^ 64 → bytes_of_uint m ≡ bytes_of_uint n → m ≡ n }
    ensures short { (n : ℕ) → length (bytes_of_uint n) ≤ 8 }
{}

/// States that in an ordered list, an option is the first with its number if and only if the one before has another.
pub fn first_has_another_number_than_the_one_before()
    ensures alone { (o : CoapOption) → IsFirstWithNumber [] o }
    ensures later { (earlier after : List CoapOption) (p o : CoapOption) → AreOrdered 0 (earlier ++ (p ∷ o ∷ after)) →
        (IsFirstWithNumber (earlier ++ p ∷ []) o ↔ (p.number ≢ o.number)) }
{}

/// States that the test `is_recognised` is true for exactly the recognised options (RFC 7252 sections 5.4.3, 5.4.5).
/// The definitions `known_options` and `first_critical` use it.
#[tactic(auto, using(crate::proofs::RecognitionLaws::recognised_is_decided))]
pub fn recognised_is_tested()
    ensures { (before : List CoapOption) (o : CoapOption) → (IsTrue (is_recognised before o) ↔ IsRecognised before o) }
{}
