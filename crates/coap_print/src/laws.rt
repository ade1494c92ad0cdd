//! Theorems on lines. Each is the contract of a function that does nothing.

ghost use Rattle.std.specs.Prelude.{◌≡◌, ◌≤◌, ℕ, List, [], ◌++◌, fold, length, take};
ghost use Rattle.std.specs.List.{concat};
ghost use Rattle.coap_wire.specs.Prelude.{IsByte, AllByRecursion};
ghost use Rattle.coap_print.specs.Texts.{escaped_text};
ghost use Rattle.coap_print.specs.Lines.{appended, cut_text};

/// States that escaped text has one meaning: no two lists of bytes have the same escaped text.
pub fn escaped_text_has_one_meaning()
    ensures { (xs ys : List ℕ) → AllByRecursion IsByte xs → AllByRecursion IsByte ys → escaped_text xs ≡ escaped_text ys
        → xs ≡ ys }
{}

/// States that a line is the text of all its pieces, cut once: an ellipsis is at its end, or nowhere.
pub fn a_line_is_cut_once()
    ensures { (limit : ℕ) (pieces : List (List ℕ)) → 3 ≤ limit → fold (appended limit) [] pieces
        ≡ cut_text limit (concat pieces) }
{}

/// States that the split of a text into pieces is irrelevant: two pieces, appended one after the other, leave the line
/// that both together leave. The earlier bytes of the line stay at its start.
pub fn pieces_of_a_line_are_one_piece()
    ensures joined { (limit : ℕ) (line first second : List ℕ) → appended limit (appended limit line first) second
        ≡ appended limit line (first ++ second) }
    ensures kept { (limit : ℕ) (line piece : List ℕ) → take (length line) (appended limit line piece) ≡ line }
{}
