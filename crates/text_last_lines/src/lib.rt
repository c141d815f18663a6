// The last line of a run (document 01, "Shot list"), written behind the text that is there.
#![tactic(auto)]

ghost use Rattle.std.specs.Prelude.{◌+◌, ◌≤◌, length};
ghost use Rattle.play.specs.Answer.{stop_of};
ghost use Rattle.text.specs.Inner.Wrote.{Wrote};
ghost use Rattle.text_last_lines.specs.Lines.{stop_word, outcome_line};

use run_outcome::{NoRoom, Stop};

fn put_room(area: &mut [u8], at: usize, room: NoRoom) -> usize
    requires { at + length (stop_word (stop_of (Stop.NoRoom room))) ≤ length area.old }
    ensures { Wrote area.old at (stop_word (stop_of (Stop.NoRoom room))) area.new result }
{
    match room {
        NoRoom::Thread => text::put_word(area, at, b"no-thread"),
        NoRoom::Object => text::put_word(area, at, b"no-object"),
        NoRoom::Key => text::put_word(area, at, b"no-key"),
        NoRoom::Depth => text::put_word(area, at, b"no-depth"),
    }
}

// The word of an outcome.
fn put_stop(area: &mut [u8], at: usize, stop: Stop) -> usize
    requires { at + length (stop_word (stop_of stop)) ≤ length area.old }
    ensures { Wrote area.old at (stop_word (stop_of stop)) area.new result }
{
    match stop {
        Stop::End => text::put_word(area, at, b"end"),
        Stop::Race => text::put_word(area, at, b"race"),
        Stop::NoRoom(room) => put_room(area, at, room),
    }
}

// Outcome, picks, moves, records.
pub fn put_outcome(
    area: &mut [u8],
    at: usize,
    stop: Stop,
    picks: usize,
    moves: usize,
    records: usize,
) -> usize
    requires { at + length (outcome_line (stop_of stop) picks moves records) ≤ length area.old }
    ensures { Wrote area.old at (outcome_line (stop_of stop) picks moves records) area.new result }
{
    let at = put_stop(area, at, stop);
    let at = text::put_column(area, at, picks);
    let at = text::put_column(area, at, moves);
    let at = text::put_column(area, at, records);
    text::put_byte(area, at, 10)
}
