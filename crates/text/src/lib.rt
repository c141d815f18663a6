// Bytes, words and numbers into a text area, each behind the text that is there.
#![tactic(auto)]

ghost use Rattle.std.specs.Prelude.{◌+◌, ◌≤◌, ◌<◌, [], ◌∷◌, length};
ghost use Rattle.text.specs.Text.{decimal};
ghost use Rattle.text.specs.Inner.Wrote.{Wrote};

pub fn put_byte(area: &mut [u8], at: usize, byte: u8) -> usize
    requires { at < length area.old }
    ensures { Wrote area.old at (byte ∷ []) area.new result }
{
    area[at] = byte;
    at + 1
}

// Byte by byte: std's `copy_from_slice` would have an archive for C need `memmove` from outside.
pub fn put_word(area: &mut [u8], at: usize, word: &[u8]) -> usize
    requires { at + length word.now ≤ length area.old }
    ensures { Wrote area.old at word.now area.new result }
{
    let mut next = at;
    for byte in word {
        next = put_byte(area, next, *byte);
    }
    next
}

// The decimal digits of a number, no zero in front.
pub fn put_number(area: &mut [u8], at: usize, number: usize) -> usize
    requires { at + length (decimal number) ≤ length area.old }
    ensures { Wrote area.old at (decimal number) area.new result }
{
    if number < 10 {
        return put_byte(area, at, b'0' + number as u8);
    }
    let next = put_number(area, at, number / 10);
    put_byte(area, next, b'0' + (number % 10) as u8)
}

// A space and a number.
pub fn put_column(area: &mut [u8], at: usize, number: usize) -> usize
    requires { at + length (32 ∷ decimal number) ≤ length area.old }
    ensures { Wrote area.old at (32 ∷ decimal number) area.new result }
{
    let next = put_byte(area, at, b' ');
    put_number(area, next, number)
}
