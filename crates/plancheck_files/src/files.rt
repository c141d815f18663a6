// Files and standard input, areas, and schedules.
ghost use Rattle.std.specs.Prelude.{◌≡◌, ◌≤◌, IfOk, IfSome, length, take};
ghost use Rattle.plancheck_files.specs.Printed.{picks_in};

use std::io;
use std::rt::Files;
use text_inputs::schedules;

// Whether a name is that of standard input.
fn is_standard_input(name: &[u8]) -> bool {
    name == b"-".as_slice()
}

// What a second name of a command stands for behind a first one: where both are standard input, the first has taken all of it, and nothing is left.
pub fn behind<'a>(first: &[u8], second: &'a [u8]) -> &'a [u8] {
    if is_standard_input(first) && is_standard_input(second) {
        &second[..0]
    } else {
        second
    }
}

// The bytes of the file of this name, or of standard input where the name is `-`, as far as the buffer has room for them: how many, or none where the file
// cannot be opened, which is said on standard error.
pub fn read_input<R: Files + Input + Eprint + Alloc>(
    rt: &R,
    name: &[u8],
    buffer: &mut [u8],
) -> io::Result<Option<usize>>
    ensures { IfOk result (λ found. IfSome found (λ size. size ≤ length buffer.new)) }
{
    if is_standard_input(name) {
        let size = program_files::read_full(&mut rt.reader(), buffer)?;
        return Ok(Some(size));
    }
    match program_files::open(rt, name) {
        None => Ok(None),
        Some(mut file) => {
            let size = program_files::read_full(&mut file, buffer)?;
            Ok(Some(size))
        }
    }
}

// The same, and a file that fills its buffer is not taken either.
pub fn read_whole<R: Files + Input + Eprint + Alloc>(
    rt: &R,
    name: &[u8],
    buffer: &mut [u8],
) -> io::Result<Option<usize>>
    ensures { IfOk result (λ found. IfSome found (λ size. size ≤ length buffer.new)) }
{
    match read_input(rt, name, buffer)? {
        None => Ok(None),
        Some(size) => {
            if size == buffer.len() {
                say_too_long(rt, name);
                return Ok(None);
            }
            Ok(Some(size))
        }
    }
}

// An area for a plan: one that fills it is not taken.
pub fn plan_area() -> [u8; 600000] {
    [0; 600000]
}

// An area for a schedule, as bytes or as picks: one that fills it is not taken.
pub fn schedule_area() -> [u8; 65536] {
    [0; 65536]
}

// An area for every text about a plan.
pub fn text_area() -> [u8; 574501] {
    [0; 574501]
}

// An area for every text about a log.
pub fn picture_area() -> [u8; 2680576] {
    [0; 2680576]
}

// A file that fills its buffer is not taken.
pub fn say_too_long<R: Eprint + Alloc>(rt: &R, name: &[u8]) {
    program_files::say(rt, name, "too long");
}

// The picks of a schedule as it is given; none of one that is longer than the area.
pub fn put_picks(picks: &mut [u8], bytes: &[u8]) -> usize
    ensures within { result ≤ length picks.new }
    ensures taken { result ≡ length (take result picks.new) }
    ensures picks { take result picks.new ≡ picks_in (length picks.old) bytes.now }
{
    if picks.len() < bytes.len() {
        return 0;
    }
    schedules::put_picks(picks, bytes)
}
