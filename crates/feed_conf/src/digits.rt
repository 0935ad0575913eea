// Numbers written in decimal digits.
ghost use Rattle.std.specs.Prelude.{◌≡◌, ◌↔◌, ◌<◌, ◌≤◌, ◌^◌, ℕ, Err, MatchOption, Ok};
ghost use Rattle.std.specs.Prelude.{false, true};
ghost use Rattle.std.specs.List.{list_all};
ghost use Rattle.feed_conf.specs.Values.{decimal, is_digit, is_number};
ghost use Rattle.feed_conf.specs.declared.digits.DigitsFault.TheVariants.{NoNumber, TooGreat};

use thiserror::Error;

/// Why octets are not a number of 64 bits.
#[derive(Clone, Copy, Debug, PartialEq, Eq, Error)]
pub enum DigitsFault {
    /// There is no digit, or an octet that is not a digit.
    #[error("NoNumber")]
    NoNumber,
    /// The number is 2 ^ 64 or more.
    #[error("TooGreat")]
    TooGreat,
}

/// Reads a number written in decimal digits.
///
/// # Errors
/// `NoNumber` if there is no digit or an octet that is not a digit; `TooGreat` if the number does not fit into 64
/// bits.
pub fn read_digits(octets: &[u8]) -> Result<u64, DigitsFault>
    ensures ok { (n : ℕ) → (result ≡ Ok n) ↔ ((is_number octets.now ≡ true)
        × (decimal 0 octets.now ≡ n) × (n < 2 ^ 64)) }
    ensures no_number { (result ≡ Err NoNumber) ↔ (is_number octets.now ≡ false) }
    ensures too_great { (result ≡ Err TooGreat) ↔ ((is_number octets.now ≡ true)
        × (2 ^ 64 ≤ decimal 0 octets.now)) }
{
    if is_number(octets) {
        match value_of(octets) {
            Some(number) => Ok(number),
            None => Err(DigitsFault::TooGreat),
        }
    } else {
        Err(DigitsFault::NoNumber)
    }
}

fn is_number(octets: &[u8]) -> bool
    ensures { result ≡ is_number octets.now }
{
    !octets.is_empty() && are_digits(octets)
}

fn are_digits(octets: &[u8]) -> bool
    ensures { result ≡ list_all is_digit octets.now }
{
    octets.iter().all(|octet| is_digit(*octet))
}

fn is_digit(octet: u8) -> bool
    ensures { result ≡ is_digit octet }
{
    b'0' <= octet && octet <= b'9'
}

// `None` if the number does not fit into 64 bits.
fn value_of(digits: &[u8]) -> Option<u64>
    ensures { MatchOption result (2 ^ 64 ≤ decimal 0 digits.now)
        (λ number. (number ≡ decimal 0 digits.now) × (number < 2 ^ 64)) }
{
    let mut number = 0u64;
    for digit in digits {
        number = number
            .checked_mul(10)?
            .checked_add(u64::from(digit.saturating_sub(b'0')))?;
    }
    Some(number)
}
