// The picture of a log as SVG text: a lane for each thread, a row for each record, arrows between records, and a race in red.
#![tactic(auto)]

mod head; // head.rt: what stands before the lanes
mod lanes; // lanes.rt: the lanes of threads

ghost use Rattle.std.specs.Prelude.{◌+◌, ◌*◌, ◌/◌, ◌≤◌, length};
ghost use Rattle.log_records.specs.Packed.{log_of};
ghost use Rattle.text.specs.Inner.Wrote.{Wrote};
ghost use Rattle.text_diagram_elements.specs.Diagram.{diagram_text, arrows_of, race_of};
ghost use Rattle.text_diagram_elements.specs.Inner.Drawn.{Room};

use text_diagram_elements::Race;

// The whole picture of a log, the first `count` arrows from records with the indices in `starts` to those in `ends`.
pub fn put_diagram(
    area: &mut [u8],
    at: usize,
    log: &[u8],
    starts: &[u16],
    ends: &[u16],
    count: usize,
    race: Option<Race>,
) -> usize
    requires { Room log.now starts.now ends.now count race at (length area.old) }
    ensures wrote { Wrote area.old at
        (diagram_text (log_of log.now) (arrows_of starts.now ends.now count) (race_of race)) area.new result }
    ensures within { result ≤ at + (1792 + 192 * (length log.now / 3) + 66 * count) }
{
    let records = log.len() / 3;
    let lanes = lanes::lane_count(log);
    let at = head::put_head(area, at, lanes, records);
    let at = lanes::put_lanes(area, at, lanes, records);
    let at = text_diagram_rows::put_rows(area, at, log, lanes, race);
    let at = text_diagram_links::put_arrows(area, at, log, starts, ends, count);
    let at = text_diagram_links::put_race(area, at, log, race);
    text::put_word(area, at, b"</svg>\n")
}
