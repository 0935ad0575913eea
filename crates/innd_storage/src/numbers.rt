// Numbers: what digits write, and what octets of a header have.
ghost use Rattle.std.specs.Prelude.{◌≡◌, ◌≤◌, ◌+◌, ◌*◌, ◌<◌, ◌^◌, MatchOption, length};
ghost use Rattle.std.specs.Char.{digit_value, is_digit};
ghost use Rattle.std.specs.List.{list_all};
ghost use Rattle.std.specs.Str.Parse.{AllDigits, digits_value};
ghost use Rattle.innd_storage.specs.Numbers.{number_at, number_of};

// The number that one or more digits write; `None` if there is none, or another octet, or if it is 2 ^ 64 or more.
#[tactic(auto, unfolding(crate::specs::Numbers::number_of))]
pub(crate) fn read_number(digits: &[u8], radix: u32) -> Option<u64>
    requires low { 2 ≤ radix }
    requires high { radix ≤ 36 }
    ensures { result ≡ number_of radix digits.now }
{
    if digits.is_empty() {
        return None;
    }
    if !are_digits(digits, radix) {
        return None;
    }
    value_of(digits, radix)
}

fn are_digits(octets: &[u8], radix: u32) -> bool
    requires low { 2 ≤ radix }
    requires high { radix ≤ 36 }
    ensures { result ≡ list_all (λ octet. is_digit octet radix) octets.now }
{
    octets
        .iter()
        .all(|octet| char::from(*octet).is_digit(radix))
}

fn value_of(digits: &[u8], radix: u32) -> Option<u64>
    requires low { 2 ≤ radix }
    requires high { radix ≤ 36 }
    requires digits { AllDigits radix digits.now }
    ensures { MatchOption result (2 ^ 64 ≤ digits_value radix digits.now)
        (λ number. (number ≡ digits_value radix digits.now) × (number < 2 ^ 64)) }
{
    let mut number = 0u64;
    for octet in digits {
        number = with_digit(number, radix, digit_of(*octet, radix))?;
    }
    Some(number)
}

// The number with one more digit; `None` if it is 2 ^ 64 or more.
fn with_digit(number: u64, radix: u32, digit: u32) -> Option<u64>
    ensures { MatchOption result (2 ^ 64 ≤ number * radix + digit)
        (λ more. (more ≡ number * radix + digit) × (more < 2 ^ 64)) }
{
    number
        .checked_mul(u64::from(radix))?
        .checked_add(u64::from(digit))
}

fn digit_of(octet: u8, radix: u32) -> u32
    requires low { 2 ≤ radix }
    requires high { radix ≤ 36 }
    requires digit { digit_value octet < radix }
    ensures { result ≡ digit_value octet }
{
    char::from(octet).to_digit(radix).unwrap_or(0)
}

// The number that four octets have, the highest first.
#[tactic(auto, unfolding(crate::specs::Numbers::number_at))]
pub(crate) fn number_at(octets: &[u8], at: usize) -> u32
    requires { at + 4 ≤ length octets.now }
    ensures { result ≡ number_at octets.now at }
{
    u32::from_be_bytes([octets[at], octets[at + 1], octets[at + 2], octets[at + 3]])
}
