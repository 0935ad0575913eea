// Numbers in decimal, each with one spelling.
ghost use Rattle.std.specs.Prelude.{◌≡◌};
ghost use Rattle.requests.specs.Numbers.{number_in};

use itoa::Buffer;
use std::str;

/// The number below 2 ^ 64 that this text writes in decimal, without a sign and without a leading zero; `None` if it
/// writes none.
pub(crate) fn read_number(text: &[u8]) -> Option<u64>
    ensures { result ≡ number_in text.now }
{
    let Ok(digits) = str::from_utf8(text) else {
        return None;
    };
    match digits.parse::<u64>() {
        Ok(number) => {
            if Buffer::new().format(number) == digits {
                Some(number)
            } else {
                None
            }
        }
        Err(_) => None,
    }
}
