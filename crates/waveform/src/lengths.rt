// The length of a data file, by the count of records alone.
ghost use Rattle.std.specs.Prelude.{◌-◌, ◌≤◌, ◌≡◌};
ghost use Rattle.waveform.specs.Inner.Lengths.{digits_to, length_for};

// How far a number is past a limit.
fn past(number: usize, limit: usize) -> usize
    ensures { result ≡ number - limit }
{
    if limit < number { number - limit } else { 0 }
}

// How many digits the numbers 1 to `last` have together.
fn digits_to(last: usize) -> usize
    requires { last ≤ 4096 }
    ensures { (result ≡ digits_to last) × (result ≤ 16384) }
{
    last + past(last, 9) + past(last, 99) + past(last, 999)
}

// A line has its sample number, its time stamp, which is a thousand times the one before, and 67 bytes more; after the lines stands the end mark.
pub fn file_length(count: usize) -> usize
    requires { count ≤ 4096 }
    ensures { result ≡ length_for count }
{
    if count == 0 {
        return 1;
    }
    let before = count - 1;
    2 + 67 * count + digits_to(count) + 3 * before + digits_to(before)
}
