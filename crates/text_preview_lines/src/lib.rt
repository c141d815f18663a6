// What the next pick would do after a schedule, in words.
#![tactic(auto)]

mod stops; // stops.rt: what stops a run, in words

ghost use Rattle.std.specs.Prelude.{◌≤◌, [], ◌∷◌, ◌++◌, length};
ghost use Rattle.std.proofs.Math.Option.{some, none};
ghost use Rattle.answers.specs.Answer.{answered};
ghost use Rattle.play.specs.Answer.{room_of, stop_of, status_of};
ghost use Rattle.preview.specs.Preview as preview;
ghost use Rattle.preview.specs.Answer.{record_of};
ghost use Rattle.text.specs.Inner.Wrote.{Wrote};
ghost use Rattle.text_phrases.specs.Phrase.{phrase};
ghost use Rattle.text_move_words.specs.Words.{record_words};
ghost use Rattle.text_preview_lines.specs.Lines.{preview_line};
ghost use Rattle.text_preview_lines.specs.Told.{PreviewTold};

use refusals::Refusal;
use run_last_pick::{Preview, RecordBytes};
use run_outcome::{NoRoom, Stop, ThreadState};

// The pick would be passed over, for the state of its thread.
fn put_passed(area: &mut [u8], pick: usize, state: ThreadState) -> usize
    requires { 200 ≤ length area.old }
    ensures { Wrote area.old 0 (preview_line pick (preview.passed (status_of state))) area.new result }
{
    let at = text_phrases::put_phrase(area, 0, b"thread ", pick);
    let at = text_status_words::put_status(area, at, state);
    text::put_word(area, at, b": its pick is passed over\n")
}

// It would move, without a record.
fn put_moved(area: &mut [u8], pick: usize) -> usize
    requires { 200 ≤ length area.old }
    ensures { Wrote area.old 0 (preview_line pick (preview.moved none)) area.new result }
{
    let at = text_phrases::put_phrase(area, 0, b"thread ", pick);
    text::put_word(area, at, b" moves, without a record\n")
}

// It would do what this record says; and what follows that.
fn put_recorded(area: &mut [u8], pick: usize, bytes: RecordBytes, end: &[u8]) -> usize
    requires { (200 ≤ length area.old) × (length end.now ≤ 20) }
    ensures { Wrote area.old 0 (phrase "thread " pick ++ (record_words (record_of bytes) ++ end.now)) area.new result }
{
    let packed = [bytes.high, bytes.middle, bytes.low];
    let columns = log_packing::columns_at(&packed, 0);
    let at = text_phrases::put_phrase(area, 0, b"thread ", pick);
    let at = text_move_words::put_move(area, at, columns);
    text::put_word(area, at, end)
}

// The run would stop for room.
fn put_no_room(area: &mut [u8], pick: usize, room: NoRoom) -> usize
    requires { 200 ≤ length area.old }
    ensures { Wrote area.old 0 (preview_line pick (preview.no_room (room_of room))) area.new result }
{
    let at = text_phrases::put_phrase(area, 0, b"thread ", pick);
    let at = text::put_word(area, at, b" stops the run: ");
    let at = stops::put_room(area, at, room);
    text::put_byte(area, at, 10)
}

// The schedule itself has stopped.
fn put_stopped(area: &mut [u8], stop: Stop) -> usize
    requires { 200 ≤ length area.old }
    ensures { Wrote area.old 0 (preview_line 0 (preview.stopped (stop_of stop))) area.new result }
{
    let at = text::put_word(area, 0, b"the run has stopped already: ");
    let at = stops::put_stop(area, at, stop);
    text::put_byte(area, at, 10)
}

// Every plan, schedule and pick gets the text of its preview at the start of an area of 200 bytes or more, and the text's length; or a refusal of number 1
// to 9.
pub fn preview_text(
    plan: &[u8],
    schedule: &[u8],
    pick: usize,
    area: &mut [u8],
) -> Result<usize, Refusal>
    ensures { PreviewTold plan.now schedule.now pick area.old (answered result) area.new }
{
    if area.len() < 200 {
        return Ok(0);
    }
    let shown = preview::preview(plan, schedule, pick)?;
    match shown {
        Preview::Stopped(stop) => Ok(put_stopped(area, stop)),
        Preview::Passed(state) => Ok(put_passed(area, pick, state)),
        Preview::Moved => Ok(put_moved(area, pick)),
        Preview::Recorded(bytes) => Ok(put_recorded(area, pick, bytes, b"\n")),
        Preview::Race(bytes) => Ok(put_recorded(area, pick, bytes, b": the run stops\n")),
        Preview::NoRoom(room) => Ok(put_no_room(area, pick, room)),
    }
}
