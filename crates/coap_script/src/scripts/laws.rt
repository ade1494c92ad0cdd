//! Theorem on all scripts, as the contract of a function that does nothing.

ghost use Rattle.std.specs.Prelude.{◌≡◌, ◌==◌, ℕ, ◌+◌, List, [], ◌∷◌, ◌++◌, count_by};
ghost use Rattle.coap_script.specs.Prelude.{newline, script_of, said_on};

/// States that a script is read line by line.
///
/// The meaning of whole lines does not depend on the text after them. That text is read as a script of its own, whose
/// line numbers continue those before.
pub fn scripts_continue_after_whole_lines()
    ensures { (lines more : List ℕ) →
        script_of (lines ++ newline ∷ more)
        ≡ said_on (count_by (λ b. b == newline) lines + 1) (script_of (lines ++ newline ∷ [])) (script_of more) }
{}
