// A line of the data file of a log (document 02, E14), written behind the text that is there.
#![tactic(auto)]

mod small; // small.rt: numbers below 10,000

ghost use Rattle.std.specs.Prelude.{◌+◌, ◌≤◌, ◌<◌, ◌≡◌, List, [], ◌∷◌, ◌++◌, length};
ghost use Rattle.log_records.specs.Record.{Record};
ghost use Rattle.text.specs.Inner.Wrote.{Wrote};
ghost use Rattle.log_packing.specs.Inner.Columns.{Narrow};
ghost use Rattle.text_record_lines.specs.Inner.Columns.{record_of};
ghost use Rattle.text_sample_lines.specs.Inner.LineEnds.{end_of, line_of, Extended};

use log_packing::Columns;
use log_records::kind;

// The end of a line before the first record: every digital value is 0.
pub fn no_values() -> [u8; 66]
    ensures { result ≡ end_of [] }
{
    *b",0,0,0,0,0,0,0,0,0,0,0,0,0,0,0,0,0,0,0,0,0,0,0,0,0,0,0,0,0,0,0,0\r\n"
}

// The end of a line after one record more: an acquire makes its object's digital value 1, a release 0.
pub fn after_record(end: &mut [u8], columns: Columns)
    requires { Narrow columns × (length end.old ≡ 66) }
    ensures { (L : List Record) → end.old ≡ end_of L → end.new ≡ end_of (L ++ (record_of columns ∷ [])) }
{
    let place = 2 * columns.object + 1;
    match columns.kind {
        kind::ACQUIRE => end[place] = 49,
        kind::RELEASE => end[place] = 48,
        _ => {}
    }
}

// Sample number, time stamp, and the line's end with the digital values.
pub fn put_sample(area: &mut [u8], at: usize, number: usize, end: &[u8]) -> usize
    requires { (0 < number) × (number ≤ 4096) × (at + length (line_of number end.now) ≤ length area.old) }
    ensures { Wrote area.old at (line_of number end.now) area.new result }
{
    let at = small::put_below_10000(area, at, number);
    let at = text::put_byte(area, at, 44);
    let at = small::put_thousands(area, at, number - 1);
    text::put_word(area, at, end)
}

// The line of one record more, and the end of a line after it. The line is copied as it ended before, and its value is changed there and in the end, so that no
// copy of many bytes has to wait for a store of one of them.
pub fn put_next_sample(
    area: &mut [u8],
    at: usize,
    number: usize,
    end: &mut [u8],
    columns: Columns,
) -> usize
    requires numbered { (0 < number) × (number ≤ 4096) × (at + length (line_of number end.old) ≤ length area.old) }
    requires narrow { Narrow columns × (length end.old ≡ 66) }
    ensures { (L : List Record) → end.old ≡ end_of L → Extended L (record_of columns) area.old at number area.new
        end.new result }
{
    let next = put_sample(area, at, number, end);
    let from = next - 66;
    after_record(&mut area[from..next], columns);
    after_record(end, columns);
    next
}
