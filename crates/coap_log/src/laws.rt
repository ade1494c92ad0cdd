//! Theorems on logs. Each is the contract of a function that does nothing.

ghost use Rattle.std.specs.Prelude.{◌≡◌, ◌+◌, ◌<◌, ◌≤◌, ◌^◌, ℕ, List, map, length, true};
ghost use Rattle.std.specs.List.{list_all};
ghost use Rattle.coap_wire.specs.Frames.{constant_size, sized_frames};
ghost use Rattle.coap_wire.specs.declared.sizes.TheConstants.{LARGEST_MESSAGE};
ghost use Rattle.coap_log.specs.Limits.{LimitCall, lines_of, lines_in, lost, reported, after_calls, fresh, after_end};
ghost use Rattle.coap_log.specs.Limits.{AreAt, GoesForward, is_before_end, admission};
ghost use Rattle.coap_log.specs.Taps.{new_tap, glimpse, output_of, after_pieces, taken};
ghost use Rattle.coap_log.specs.declared.limit.LineLimit.{LineLimit as Limit};
ghost use Rattle.coap_log.specs.declared.limit.Admission.TheVariants.{Line};

/// States that at most 100 lines are written while the clock shows one second, whatever the calls before. If the clock
/// does not go back, these are all lines of that second, whatever the calls in between. The reports of lines left out
/// are lines too.
pub fn lines_of_a_second_are_limited()
    ensures during { (second : ℕ) (l : Limit) (calls : List LimitCall) → AreAt second calls → lines_of l calls ≤ 100 }
    ensures forward { (second : ℕ) (l : Limit) (calls : List LimitCall) → GoesForward l calls →
        lines_in second l calls ≤ 100 }
{}

/// States that the last line of a log is written, whatever lines the log had before, and that no line left out is then
/// unreported.
pub fn last_line_is_written()
    ensures { (calls : List LimitCall) (end now : ℕ) → list_all is_before_end calls ≡ true →
        let l = after_end (after_calls fresh calls) end in (l.left_out ≡ 0) × (admission l now ≡ Line) }
{}

/// States that each line that was left out is reported once. The lines reported and those still to be reported are the
/// lines left out, as long as 64 bits can count them.
pub fn lines_left_out_are_reported()
    ensures { (l : Limit) (calls : List LimitCall) → l.left_out + lost l calls < 2 ^ 64 →
        reported l calls + (after_calls l calls).left_out ≡ l.left_out + lost l calls }
{}

/// States that a tap shows exactly the frames of its stream (RFC 8323 section 3.2), each with its first bytes and its
/// size. The split of the stream into pieces is irrelevant. The stream is the bytes that the tap took. Frames have at
/// most 1,048,576 bytes, and a malformed one is the end of the stream.
pub fn tap_shows_frames_of_stream()
    ensures { (room : ℕ) (pieces : List (List ℕ)) → 8 ≤ room → (output_of (new_tap room) pieces).frames
        ≡ map (glimpse room)
        (sized_frames (constant_size LARGEST_MESSAGE) (output_of (new_tap room) pieces).taken).frames }
{}

/// States that a tap takes at least one byte of a piece that has one, whatever it took before. So a caller that passes
/// the other bytes again comes to the end of the piece.
pub fn tap_takes_a_byte()
    ensures { (room : ℕ) (pieces : List (List ℕ)) (piece : List ℕ) → 8 ≤ room → 1 ≤ length piece →
        1 ≤ taken (after_pieces (new_tap room) pieces) piece }
{}
