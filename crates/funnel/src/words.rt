// The words of a line.
ghost use Rattle.std.specs.Prelude.{◌≡◌, ◌≤◌, ◌<◌, length, MatchOption, IfSome};
ghost use Rattle.std.specs.List.{prefix_len};
ghost use Rattle.funnel.specs.Words.{is_blank, IsFirstWord, IsGap};
ghost use Rattle.funnel.specs.WordLaws.{is_solid};

/// The first word of a text, and all that follows it; `None` if the text has no word.
///
/// A word is a longest run of octets other than space (32) and tab (9). What follows it begins with a blank or is
/// empty, so another call on that returns the next word. Nothing is copied, and no memory is taken.
pub fn next_word(text: &[u8]) -> Option<(&[u8], &[u8])>
    ensures word { MatchOption result (IsGap text.now) (λ p. IsFirstWord text.now p.0.now p.1.now) }
    ensures shorter { IfSome result (λ p. length p.1.now < length text.now) }
{
    let text = &text[gap_len(text)..];
    if text.is_empty() {
        return None;
    }
    Some(text.split_at(word_len(text)))
}

fn is_blank(octet: u8) -> bool
    ensures { result ≡ is_blank octet }
{
    octet == b' ' || octet == b'\t'
}

fn gap_len(text: &[u8]) -> usize
    ensures value { result ≡ prefix_len is_blank text.now }
    ensures bound { result ≤ length text.now }
{
    text.iter().take_while(|octet| is_blank(**octet)).count()
}

fn word_len(text: &[u8]) -> usize
    ensures value { result ≡ prefix_len is_solid text.now }
    ensures bound { result ≤ length text.now }
{
    text.iter().take_while(|octet| !is_blank(**octet)).count()
}
