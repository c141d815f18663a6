// Lines between the marks of records: arrows, and the line of a race.
#![tactic(auto)]

ghost use Rattle.std.specs.Prelude.{◌+◌, ◌*◌, ◌/◌, ◌≤◌, ◌<◌, length};
ghost use Rattle.log_records.specs.Packed.{log_of};
ghost use Rattle.text_diagram_elements.specs.Diagram.{between, arrow_texts, race_text, arrows_of, race_of};
ghost use Rattle.text_diagram_elements.specs.Inner.Drawn.{Drawn, ArrowsInside, RaceInside, Ends};

use text_diagram_elements::Race;

// A line of a class from the mark of one record to that of another.
fn put_between(
    area: &mut [u8],
    at: usize,
    log: &[u8],
    class: &[u8],
    first: usize,
    second: usize,
) -> usize
    requires { Ends (length log.now) first second × (at + (length class.now + 61) ≤ length area.old) }
    ensures { Drawn (length class.now + 61) area.old at
        (between class.now (log_of log.now) first second) area.new result }
{
    let start = log_packing::columns_at(log, first);
    let end = log_packing::columns_at(log, second);
    let x1 = 40 + 80 * start.thread;
    let x2 = 40 + 80 * end.thread;
    text_diagram_elements::put_segment(area, at, class, x1, 48 + 24 * first, x2, 48 + 24 * second)
}

// An arrow for each pair of indices.
pub fn put_arrows(
    area: &mut [u8],
    at: usize,
    log: &[u8],
    starts: &[u16],
    ends: &[u16],
    count: usize,
) -> usize
    requires { (length log.now ≤ 12288) × ArrowsInside starts.now ends.now count (length log.now / 3) × (at + 66 * count ≤ length area.old) }
    ensures { Drawn (66 * count) area.old at
        (arrow_texts (log_of log.now) (arrows_of starts.now ends.now count)) area.new result }
{
    let mut next = at;
    for index in 0..count {
        let start = starts[index] as usize;
        let end = ends[index] as usize;
        next = put_between(area, next, log, b"arrow", start, end);
    }
    next
}

// The line between the two records of a race.
pub fn put_race(area: &mut [u8], at: usize, log: &[u8], race: Option<Race>) -> usize
    requires { (length log.now ≤ 12288) × RaceInside race (length log.now / 3) × (at + 65 ≤ length area.old) }
    ensures { Drawn 65 area.old at (race_text (log_of log.now) (race_of race)) area.new result }
{
    match race {
        Some(race) => put_between(area, at, log, b"race", race.write, race.access),
        None => at,
    }
}
