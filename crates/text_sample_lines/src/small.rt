// The decimal digits of a number below 10,000, no zero in front: straight code, since a line has two of them.
ghost use Rattle.std.specs.Prelude.{◌+◌, ◌*◌, ◌≤◌, ◌<◌, length};
ghost use Rattle.text.specs.Text.{decimal};
ghost use Rattle.text.specs.Inner.Wrote.{Wrote};
ghost use Rattle.text_sample_lines.specs.Inner.LineEnds.{last_digit};

// The last digit of a number.
fn put_last(area: &mut [u8], at: usize, number: usize) -> usize
    requires { at < length area.old }
    ensures { Wrote area.old at (last_digit number) area.new result }
{
    text::put_byte(area, at, 48 + (number % 10) as u8)
}

fn put_below_100(area: &mut [u8], at: usize, number: usize) -> usize
    requires { (number < 100) × (at + length (decimal number) ≤ length area.old) }
    ensures { Wrote area.old at (decimal number) area.new result }
{
    if number < 10 {
        return put_last(area, at, number);
    }
    let next = put_last(area, at, number / 10);
    put_last(area, next, number)
}

fn put_below_1000(area: &mut [u8], at: usize, number: usize) -> usize
    requires { (number < 1000) × (at + length (decimal number) ≤ length area.old) }
    ensures { Wrote area.old at (decimal number) area.new result }
{
    if number < 100 {
        return put_below_100(area, at, number);
    }
    let next = put_below_100(area, at, number / 10);
    put_last(area, next, number)
}

pub fn put_below_10000(area: &mut [u8], at: usize, number: usize) -> usize
    requires { (number < 10000) × (at + length (decimal number) ≤ length area.old) }
    ensures { Wrote area.old at (decimal number) area.new result }
{
    if number < 1000 {
        return put_below_1000(area, at, number);
    }
    let next = put_below_1000(area, at, number / 10);
    put_last(area, next, number)
}

// A thousand times the number.
pub fn put_thousands(area: &mut [u8], at: usize, number: usize) -> usize
    requires { (number < 10000) × (at + length (decimal (number * 1000)) ≤ length area.old) }
    ensures { Wrote area.old at (decimal (number * 1000)) area.new result }
{
    if number == 0 {
        return put_last(area, at, number);
    }
    let next = put_below_10000(area, at, number);
    text::put_word(area, next, b"000")
}
