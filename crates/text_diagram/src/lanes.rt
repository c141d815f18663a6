// The lanes of threads.
ghost use Rattle.std.specs.Prelude.{◌+◌, ◌≤◌, ◌<◌, ◌≡◌, length};
ghost use Rattle.log_records.specs.Packed.{log_of};
ghost use Rattle.text_diagram_elements.specs.Diagram.{lane_count, lane_text, lane_texts};
ghost use Rattle.text_diagram_elements.specs.Inner.Drawn.{Drawn};

// One for each thread from 0 to the highest of the log.
pub fn lane_count(log: &[u8]) -> usize
    ensures { (result ≡ lane_count (log_of log.now)) × (result ≤ 8) }
{
    let mut lanes = 0;
    for index in 0..log.len() / 3 {
        let columns = log_packing::columns_at(log, index);
        if lanes <= columns.thread {
            lanes = columns.thread + 1;
        }
    }
    lanes
}

// A line down to the last row, and its title.
fn put_lane(area: &mut [u8], at: usize, thread: usize, records: usize) -> usize
    requires { (thread < 8) × (records ≤ 4096) × (at + 120 ≤ length area.old) }
    ensures { Drawn 120 area.old at (lane_text records thread) area.new result }
{
    let x = 40 + 80 * thread;
    let at = text_diagram_elements::put_segment(area, at, b"lane", x, 28, x, 48 + 24 * records);
    let at = text::put_word(area, at, b"<text class=\"title\"");
    let at = text_diagram_elements::put_attribute(area, at, b"x", x);
    let at = text::put_word(area, at, b" y=\"20\">thread ");
    let at = text::put_number(area, at, thread);
    text::put_word(area, at, b"</text>\n")
}

// The lanes of the first threads.
pub fn put_lanes(area: &mut [u8], at: usize, lanes: usize, records: usize) -> usize
    requires { (lanes ≤ 8) × (records ≤ 4096) × (at + 960 ≤ length area.old) }
    ensures { Drawn 960 area.old at (lane_texts records lanes) area.new result }
{
    let mut next = at;
    for thread in 0..lanes {
        next = put_lane(area, next, thread, records);
    }
    next
}
