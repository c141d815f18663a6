// A number as decimal digits.
ghost use Rattle.std.specs.Prelude.{◌<◌, ◌≡◌};
ghost use Rattle.text_inputs.specs.Numerals.{is_numeral, with_digit, number_of};

use crate::schedules;
use byte_numbers::wide;

// One digit or more, and nothing else.
pub fn is_numeral(bytes: &[u8]) -> bool
    ensures { result ≡ is_numeral bytes.now }
{
    !bytes.is_empty() && bytes.iter().all(|byte| schedules::is_digit(*byte))
}

// One digit more.
fn with_digit(number: usize, byte: u8) -> usize
    requires { number < 1000256 }
    ensures { (result ≡ with_digit number byte) × (result < 1000256) }
{
    if number < 100000 {
        return number * 10 + wide(byte.saturating_sub(b'0'));
    }
    number
}

// The number of some digits.
pub fn number_of(bytes: &[u8]) -> usize
    ensures { result ≡ number_of bytes.now }
{
    let mut number = 0;
    for byte in bytes {
        number = with_digit(number, *byte);
    }
    number
}
