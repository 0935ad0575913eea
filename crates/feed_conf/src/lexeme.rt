// The lexemes of a line of a configuration.
ghost use Rattle.std.specs.Prelude.{◌≡◌, ◌∷◌, ◌<◌, ◌≤◌, [], IfSome, MatchOption, length, not};
ghost use Rattle.std.specs.Prelude.{position};
ghost use Rattle.feed_conf.specs.Lexemes.{is_blank, is_quoted_octet, is_word_octet};
ghost use Rattle.feed_conf.specs.Scan.{BeginsWord, StopsAt, lexemes_of};
ghost use Rattle.feed_conf.specs.View.{lexeme_of};

/// The parts of a line, apart from blanks and a comment.
#[derive(Clone, Copy)]
pub(crate) enum Lexeme<'t> {
    /// Octets without a blank, a quote, `#` or a brace between them.
    Word(&'t [u8]),
    /// The text between two quotes.
    Quoted(&'t [u8]),
    Open,
    Close,
    /// A quote without a second one on its line.
    Unclosed,
}

fn is_blank(octet: u8) -> bool
    ensures { result ≡ is_blank octet }
{
    octet == b' ' || octet == b'\t' || octet == b'\r'
}

fn is_word_octet(octet: u8) -> bool
    ensures { result ≡ is_word_octet octet }
{
    !(is_blank(octet) || octet == b'"' || octet == b'#' || octet == b'{' || octet == b'}')
}

fn is_quoted_octet(octet: u8) -> bool
    ensures { result ≡ is_quoted_octet octet }
{
    octet != b'"'
}

fn find_solid(line: &[u8]) -> Option<usize>
    ensures { result ≡ position (λ octet. not (is_blank octet)) line.now }
{
    line.iter().position(|octet| !is_blank(*octet))
}

fn find_word_end(line: &[u8]) -> Option<usize>
    ensures { result ≡ position (λ octet. not (is_word_octet octet)) line.now }
{
    line.iter().position(|octet| !is_word_octet(*octet))
}

fn find_quote(line: &[u8]) -> Option<usize>
    ensures { result ≡ position (λ octet. not (is_quoted_octet octet)) line.now }
{
    line.iter().position(|octet| !is_quoted_octet(*octet))
}

fn skip_blanks(line: &[u8]) -> &[u8]
    ensures keeps_lexemes { lexemes_of line.now ≡ lexemes_of result.now }
    ensures first { StopsAt is_blank result.now }
    ensures within { length result.now ≤ length line.now }
{
    let start = find_solid(line).unwrap_or(line.len());
    line.split_at(start).1
}

fn word(line: &[u8]) -> (Lexeme<'_>, &[u8])
    requires { BeginsWord line.now }
    ensures lexemes { lexemes_of line.now ≡ lexeme_of result.0 ∷ lexemes_of result.1.now }
    ensures shorter { length result.1.now < length line.now }
{
    let end = find_word_end(line).unwrap_or(line.len());
    let (word, rest) = line.split_at(end);
    (Lexeme::Word(word), rest)
}

// Reads on after an opening quote.
fn quoted(behind: &[u8]) -> (Lexeme<'_>, &[u8])
    ensures lexemes { lexemes_of (34 ∷ behind.now) ≡ lexeme_of result.0 ∷ lexemes_of result.1.now }
    ensures within { length result.1.now ≤ length behind.now }
{
    let end = find_quote(behind).unwrap_or(behind.len());
    let (octets, rest) = behind.split_at(end);
    match rest.split_first() {
        Some((_, rest)) => (Lexeme::Quoted(octets), rest),
        None => (Lexeme::Unclosed, rest),
    }
}

/// The first lexeme of a line and the rest after it; `None` if only blanks and a comment are left.
pub(crate) fn next_lexeme(line: &[u8]) -> Option<(Lexeme<'_>, &[u8])>
    ensures lexemes { MatchOption result (lexemes_of line.now ≡ [])
        (λ r. lexemes_of line.now ≡ lexeme_of r.0 ∷ lexemes_of r.1.now) }
    ensures shorter { IfSome result (λ r. length r.1.now < length line.now) }
{
    let line = skip_blanks(line);
    match line.split_first() {
        None => None,
        Some((b'#', _)) => None,
        Some((b'"', rest)) => Some(quoted(rest)),
        Some((b'{', rest)) => Some((Lexeme::Open, rest)),
        Some((b'}', rest)) => Some((Lexeme::Close, rest)),
        Some(_) => Some(word(line)),
    }
}
