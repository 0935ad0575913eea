//! Laws of the lexemes in which a configuration is defined.
ghost use Rattle.std.specs.Prelude.{◌≡◌, ℕ, List};
ghost use Rattle.feed_conf.specs.Lexemes.{HasLexemes, Lexeme};

/// Every line has lexemes.
pub fn lexemes_exist()
    ensures { (line : List ℕ) → (lexemes : List Lexeme) × HasLexemes line lexemes }
{}

/// No line has two lists of lexemes.
pub fn lexemes_once()
    ensures { (line : List ℕ) (one other : List Lexeme)
        → HasLexemes line one → HasLexemes line other
        → one ≡ other }
{}
