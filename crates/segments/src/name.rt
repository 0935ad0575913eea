// The names of segments: 20 decimal digits, the number of the first line.
ghost use Rattle.std.specs.Prelude.{◌≡◌, ◌↔◌, ◌<◌, ◌≤◌, ◌^◌, ◌==◌, ◌&&◌, ℕ};
ghost use Rattle.std.specs.Prelude.{Err, MatchOption, None, Ok, Some, length};
ghost use Rattle.std.specs.Prelude.{IsTrue};
ghost use Rattle.std.specs.Char.{is_ascii_digit};
ghost use Rattle.std.specs.List.{list_all};
ghost use Rattle.std.specs.Str.Parse.{AllDigits, digits_value};
ghost use Rattle.segments.specs.Names.{HasFault, IsFirstOf, IsNameOf, IsNumber};

use thiserror::Error;

/// How many digits a name has.
const DIGITS: usize = 20;

/// Why a name of 20 digits is not a segment's.
#[derive(Clone, Copy, Debug, PartialEq, Eq, Error)]
pub enum NameFault {
    /// 20 zeros: lines are numbered from 1.
    #[error("Zero")]
    Zero,
    /// The number is 2 ^ 64 or more.
    #[error("TooLarge")]
    TooLarge,
}

/// The number of the first line of the segment that has this name; `None` if the name is not 20 decimal digits.
///
/// # Errors
/// `Zero` if each of the 20 digits is 0; `TooLarge` if the number is 2 ^ 64 or more.
pub fn read_name(name: &[u8]) -> Result<Option<u64>, NameFault>
    ensures ok { (first : ℕ) → (result ≡ Ok (Some first)) ↔ IsFirstOf name.now first }
    ensures none { (result ≡ Ok None) ↔ (IsNumber name.now → ⊥) }
    ensures err { (fault : NameFault) → (result ≡ Err fault) ↔ HasFault name.now fault }
{
    if !is_number(name) {
        return Ok(None);
    }
    match value_of(name) {
        None => Err(NameFault::TooLarge),
        Some(0) => Err(NameFault::Zero),
        Some(first) => Ok(Some(first)),
    }
}

/// The name of the segment whose first line has this number.
pub fn name_of(first: u64) -> [u8; 20]
    ensures { IsNameOf result first }
{
    let mut name = [b'0'; DIGITS];
    let mut rest = first;
    for place in (0..DIGITS).rev() {
        name[place] = b'0' + (rest % 10) as u8;
        rest /= 10;
    }
    name
}

fn is_number(name: &[u8]) -> bool
    ensures { IsTrue result ↔ IsNumber name.now }
{
    name.len() == DIGITS && are_digits(name)
}

fn are_digits(octets: &[u8]) -> bool
    ensures { result ≡ list_all is_ascii_digit octets.now }
{
    octets.iter().all(|octet| octet.is_ascii_digit())
}

// The number that these digits write; `None` if it is 2 ^ 64 or more.
fn value_of(digits: &[u8]) -> Option<u64>
    requires { AllDigits 10 digits.now }
    ensures { MatchOption result (2 ^ 64 ≤ digits_value 10 digits.now)
        (λ number. (number ≡ digits_value 10 digits.now) × (number < 2 ^ 64)) }
{
    let mut number = 0u64;
    for digit in digits {
        number = number
            .checked_mul(10)?
            .checked_add(u64::from(digit.saturating_sub(b'0')))?;
    }
    Some(number)
}
