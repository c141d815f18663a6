// The rows of records.
#![tactic(auto)]

ghost use Rattle.std.specs.Prelude.{◌+◌, ◌*◌, ◌/◌, ◌≤◌, ◌<◌, ◌≡◌, length};
ghost use Rattle.log_records.specs.Packed.{log_of};
ghost use Rattle.log_packing.specs.Inner.Columns.{Narrow};
ghost use Rattle.text_record_lines.specs.Inner.Columns.{record_of};
ghost use Rattle.text_diagram_elements.specs.Diagram.{in_race, colour, mark_text, words_text, row_text, row_texts, race_of};
ghost use Rattle.text_diagram_elements.specs.Inner.Drawn.{Drawn};

use log_packing::Columns;
use text_diagram_elements::Race;

// Whether a record is one of the two of a race.
fn in_race(race: Option<Race>, index: usize) -> bool
    ensures { result ≡ in_race (race_of race) index }
{
    match race {
        Some(race) => index == race.write || index == race.access,
        None => false,
    }
}

// Red for the two of a race.
fn put_colour(area: &mut [u8], at: usize, race: Option<Race>, index: usize) -> usize
    requires { at + 5 ≤ length area.old }
    ensures { Drawn 5 area.old at (colour (race_of race) index) area.new result }
{
    if in_race(race, index) {
        text::put_word(area, at, b"red")
    } else {
        text::put_word(area, at, b"black")
    }
}

// A mark.
fn put_mark(area: &mut [u8], at: usize, x: usize, y: usize) -> usize
    requires { (x < 100000) × (y < 100000) × (at + 38 ≤ length area.old) }
    ensures { Drawn 38 area.old at (mark_text x y) area.new result }
{
    let at = text::put_word(area, at, b"<circle r=\"5\"");
    let at = text_diagram_elements::put_attribute(area, at, b"cx", x);
    let at = text_diagram_elements::put_attribute(area, at, b"cy", y);
    text::put_word(area, at, b"/>\n")
}

// The words of a record.
fn put_words(area: &mut [u8], at: usize, lanes: usize, index: usize, columns: Columns) -> usize
    requires { (lanes ≤ 8) × (index < 4096) × Narrow columns × (at + 61 ≤ length area.old) }
    ensures { Drawn 61 area.old at (words_text lanes index (record_of columns)) area.new result }
{
    let at = text::put_word(area, at, b"<text");
    let at = text_diagram_elements::put_attribute(area, at, b"x", 40 + 80 * lanes);
    let at = text_diagram_elements::put_attribute(area, at, b"y", 48 + 24 * index + 4);
    let at = text::put_byte(area, at, 62);
    let at = text_record_lines::put_record(area, at, index, columns);
    text::put_word(area, at, b"</text>")
}

// The row of a record in its colour: its mark, a line from there to its words, and its words.
fn put_row(
    area: &mut [u8],
    at: usize,
    lanes: usize,
    race: Option<Race>,
    index: usize,
    columns: Columns,
) -> usize
    requires { (lanes ≤ 8) × (index < 4096) × Narrow columns × (at + 192 ≤ length area.old) }
    ensures { Drawn 192 area.old at (row_text lanes (race_of race) index (record_of columns)) area.new result }
{
    let x = 40 + 80 * columns.thread;
    let y = 48 + 24 * index;
    let at = text::put_word(area, at, b"<g fill=\"");
    let at = put_colour(area, at, race, index);
    let at = text::put_word(area, at, b"\">\n");
    let at = text_diagram_elements::put_segment(area, at, b"row", x, y, 40 + 80 * lanes, y);
    let at = put_mark(area, at, x, y);
    let at = put_words(area, at, lanes, index, columns);
    text::put_word(area, at, b"</g>\n")
}

// The rows of all records.
pub fn put_rows(area: &mut [u8], at: usize, log: &[u8], lanes: usize, race: Option<Race>) -> usize
    requires { (lanes ≤ 8) × (length log.now ≤ 12288) × (at + 192 * (length log.now / 3) ≤ length area.old) }
    ensures { Drawn (192 * (length log.now / 3)) area.old at
        (row_texts lanes (race_of race) 0 (log_of log.now)) area.new result }
{
    let mut next = at;
    for index in 0..log.len() / 3 {
        let columns = log_packing::columns_at(log, index);
        next = put_row(area, next, lanes, race, index, columns);
    }
    next
}
