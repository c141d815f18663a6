// The places that a log's records are at, each an object with a field, or with 0 its monitor. They have numbers from 1, in the order in which the
// records come to them, so that a log needs rows for its own places alone; where there are rows for all, each has its own.
ghost use Rattle.std.specs.Prelude.{◌≡◌, ◌<◌, length};
ghost use Rattle.log_places.specs.Inner.Places.{numbers_of, given_of, Numbered};

// A place has no number, and none is left: a log is at more places than there are numbers.
#[derive(Clone, Copy)]
pub struct NoneLeft;

// The number of a place, the next after those given where it has none yet, if one is left of as many as there are. `numbers` holds the number of each
// place, or 0; numbers over 255 do not fit there, so that of more each place has its own.
pub fn number(numbers: &mut [u8], given: &mut u16, place: usize, most: u16) -> Result<u16, NoneLeft>
    requires place_in { place < 1024 }
    requires sized { length numbers.old ≡ 1024 }
    ensures { Numbered (numbers_of most numbers.old) (given_of most given.old) place most
        (numbers_of most numbers.new) (given_of most given.new) result }
{
    if 255 < most {
        return Ok(place as u16 + 1);
    }
    let known = byte_numbers::wide(numbers[place]);
    if known == 0 {
        let last = *given;
        if most <= last {
            return Err(NoneLeft);
        }
        let next = last + 1;
        *given = next;
        numbers[place] = next as u8;
        return Ok(next);
    }
    Ok(known as u16)
}
