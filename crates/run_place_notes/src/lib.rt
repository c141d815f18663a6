// Notes, a byte to each place of a run: 16 times the lowest thread that can be picked there, and the lowest above the pick, or 8.
#![tactic(auto)]

ghost use Rattle.std.specs.Prelude.{◌≤◌, length};
ghost use Rattle.run_place_notes.specs.Inner.Notes.{NoteOf, Puts, PutNoted, LastDeparture};

use run_outcome::Thread;

// Where the following schedule leaves a given one, and its pick there.
#[derive(Clone, Copy)]
pub struct Departure {
    pub place: usize,
    pub pick: usize,
}

// The note of a place, by its threads: the lowest that can be picked there is known.
pub fn note(threads: [Thread; 8], lowest: usize, pick: usize) -> u8
    requires { lowest ≤ 8 }
    ensures { NoteOf threads lowest pick result }
{
    let thread = pick % 8;
    (lowest * 16 + run_open_threads::open_from(threads, thread + 1)) as u8
}

// The last of the first notes that has a higher thread, and that thread; none where the list is over.
pub fn last_departure(notes: &[u8], count: usize) -> Option<Departure>
    requires { count ≤ length notes.now }
    ensures { LastDeparture notes.now count result }
{
    for place in (0..count).rev() {
        let pick = byte_numbers::wide(notes[place]) % 16;
        if pick < 8 {
            return Some(Departure { place, pick });
        }
    }
    None
}

// The picks that are noted from `from` on, up to `made`, into the area.
pub fn put_noted(notes: &[u8], made: usize, area: &mut [u8], from: usize)
    requires { Puts notes.now made area.old from }
    ensures { PutNoted notes.now made from area.old area.new }
{
    for place in from..made {
        area[place] = notes[place] / 16;
    }
}
