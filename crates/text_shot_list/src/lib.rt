// The text of a shot list (document 01, "Shot list"): what the printing program writes for the bytes that it reads.
#![tactic(auto)]

ghost use Rattle.std.specs.Prelude.{ℕ, ◌≤◌, ◌≡◌, List, length, take};
ghost use Rattle.refusals.specs.Numbers.{refusal_of};
ghost use Rattle.text_refusal_lines.specs.Lines.{refusal_line};
ghost use Rattle.text.specs.Inner.Wrote.{Wrote};
ghost use Rattle.text_shot_list.specs.Printed.{play_text, printed, TextWritten};

use refusals::{Reason, Refusal};

// The line of a refusal.
fn put_refusal(area: &mut [u8], refusal: Refusal) -> usize
    requires { 50 ≤ length area.old }
    ensures { Wrote area.old 0 (refusal_line (refusal_of refusal)) area.new result }
{
    text_refusal_lines::put_refusal(area, 0, refusal.number(), refusal.place)
}

// A schedule is played on a plan.
fn print_play(plan: &[u8], schedule: &[u8], area: &mut [u8]) -> usize
    requires { 131072 ≤ length area.old }
    ensures { Wrote area.old 0 (play_text plan.now schedule.now) area.new result }
{
    let mut log = [0u8; 12288];
    let played = play::play(plan, schedule, &mut log);
    let outcome = played.outcome;
    match played.checked {
        Err(refusal) => put_refusal(area, refusal),
        Ok(()) => {
            let end = play::outcome::record_bytes(outcome.records);
            text_run_lines::put_run(
                area,
                &log[0..end],
                outcome.stop,
                outcome.picks,
                outcome.moves,
                outcome.records,
            )
        }
    }
}

// A plan length of 16 bits, a plan and a schedule, as the program reads them. An area of 131,072 bytes or more then holds the text, whose length is the
// answer, and after it its old bytes; a shorter one has no room for every text, and stays as it was.
pub fn shot_list(input: &[u8], area: &mut [u8]) -> usize
    ensures { TextWritten (printed input.now) area.old area.new result }
{
    if area.len() < 131072 {
        return 0;
    }
    if text_input_parts::cut_short(input) {
        return put_refusal(area, Reason::PlanLength.at(0));
    }
    let plan = text_input_parts::plan_of(input);
    let schedule = text_input_parts::schedule_of(input);
    print_play(plan, schedule, area)
}

// The same of an input, however long, of which `size` bytes were read into a buffer of 9,291: those decide the text.
pub fn shot_list_read(buffer: &[u8; 9291], size: usize, area: &mut [u8]) -> usize
    ensures { (input : List ℕ) → take 9291 input ≡ take size buffer.now → TextWritten (printed input) area.old
        area.new result }
{
    let bytes: &[u8] = buffer;
    if size < bytes.len() {
        shot_list(&bytes[..size], area)
    } else {
        shot_list(bytes, area)
    }
}
