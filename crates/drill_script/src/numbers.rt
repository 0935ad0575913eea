// The numbers of a script.
ghost use Rattle.std.specs.Prelude.{◌≡◌};
ghost use Rattle.drill_script.specs.Numbers.{u64_of};

use feed_conf::{DigitsFault, read_digits};

/// The number that these digits spell; `None` if they are not all digits, or the number does not fit into 64 bits.
#[tactic(auto, using(std::proofs::lemmas::Bool::Decides::nat_tests))]
pub fn read_number(octets: &[u8]) -> Option<u64>
    ensures { result ≡ u64_of octets.now }
{
    match read_digits(octets) {
        Ok(number) => Some(number),
        Err(DigitsFault::NoNumber) => None,
        Err(DigitsFault::TooGreat) => None,
    }
}
