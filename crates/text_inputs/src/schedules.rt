// A schedule is text, the digits of its picks with white space between them, or packed bytes.
ghost use Rattle.std.specs.Prelude.{◌+◌, ◌≤◌, ◌<◌, ◌≡◌, ◌||◌, length};
ghost use Rattle.text.specs.Inner.Wrote.{Wrote};
ghost use Rattle.plan_notation.specs.Lexing.{is_blank};
ghost use Rattle.text_inputs.specs.Schedules.{is_digit, is_digits, pick_of, digit_picks, picks_of, digit_of, digit_line};

use crate::plans;

// The digits 0 to 9.
pub fn is_digit(byte: u8) -> bool
    ensures { result ≡ is_digit byte }
{
    (b'0' <= byte) & (byte <= b'9')
}

fn is_digit_or_blank(byte: u8) -> bool
    ensures { result ≡ (is_digit byte || is_blank byte) }
{
    is_digit(byte) | plans::is_blank(byte)
}

// A schedule that is given as text.
pub fn is_digits(bytes: &[u8]) -> bool
    ensures { result ≡ is_digits bytes.now }
{
    bytes.iter().all(|byte| is_digit_or_blank(*byte))
}

// The pick of a byte, if it is a digit.
fn put_pick(area: &mut [u8], at: usize, byte: u8) -> usize
    requires { at < length area.old }
    ensures { Wrote area.old at (pick_of byte) area.new result }
{
    if is_digit(byte) {
        return text::put_byte(area, at, byte - b'0');
    }
    at
}

// The picks of a schedule that is text.
fn put_digit_picks(area: &mut [u8], bytes: &[u8]) -> usize
    requires { length bytes.now ≤ length area.old }
    ensures { Wrote area.old 0 (digit_picks bytes.now) area.new result }
{
    let mut next = 0;
    for byte in bytes {
        next = put_pick(area, next, *byte);
    }
    next
}

// The picks of a schedule as it is given, at the start of an area that is no shorter.
pub fn put_picks(area: &mut [u8], bytes: &[u8]) -> usize
    requires { length bytes.now ≤ length area.old }
    ensures { Wrote area.old 0 (picks_of bytes.now) area.new result }
{
    if is_digits(bytes) {
        return put_digit_picks(area, bytes);
    }
    text::put_word(area, 0, bytes)
}

// The digit of a pick.
fn digit_of(pick: u8) -> u8
    ensures { result ≡ digit_of pick }
{
    if pick < 10 { b'0' + pick } else { b'?' }
}

// Picks as a line of digits.
pub fn put_digit_line(area: &mut [u8], at: usize, picks: &[u8]) -> usize
    requires { at + length picks.now < length area.old }
    ensures { Wrote area.old at (digit_line picks.now) area.new result }
{
    let mut next = at;
    for pick in picks {
        next = text::put_byte(area, next, digit_of(*pick));
    }
    text::put_byte(area, next, b'\n')
}
