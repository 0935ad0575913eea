//! Laws of what lines and scripts say.
ghost use Rattle.std.specs.Prelude.{◌≡◌, ℕ, List};
ghost use Rattle.drill_script.specs.Line.{Says, SentenceView};
ghost use Rattle.drill_script.specs.Script.{IsFirstBroken, KeepsRules};

/// A line says at most one thing: nothing, one peer, one tape or one step.
pub fn says_once()
    ensures { (line : List ℕ) (one other : SentenceView) → Says line one → Says line other
        → one ≡ other }
{}

/// A text that keeps the rules has no first broken line, and any other text has at most one.
pub fn breaks_once()
    ensures never { (text : List ℕ) (line_number : ℕ)
        → KeepsRules text → IsFirstBroken text line_number → ⊥ }
    ensures once { (text : List ℕ) (one other : ℕ) → IsFirstBroken text one
        → IsFirstBroken text other → one ≡ other }
{}
