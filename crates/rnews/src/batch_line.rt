// The line before each article of a batch.
ghost use Rattle.std.specs.Prelude.{◌≡◌, ◌↔◌, ◌<◌, ◌^◌, ℕ, Some};
ghost use Rattle.rnews.specs.Batch.{IsBatchLine};

use feed_conf::read_digits;

// What comes before the length.
const WORD: &[u8] = b"#! rnews ";

/// The length in octets of the article that follows this line of a batch, which is given without its LF; `None` if
/// the line is not `#! rnews LENGTH`, or if the length does not fit into 64 bits (RFC 5537, section 4.1).
pub fn article_length(line: &[u8]) -> Option<u64>
    ensures { (n : ℕ) → (result ≡ Some n) ↔ (IsBatchLine line.now n × (n < 2 ^ 64)) }
{
    let digits = line.strip_prefix(WORD)?;
    match read_digits(digits) {
        Ok(length) => Some(length),
        Err(_) => None,
    }
}
