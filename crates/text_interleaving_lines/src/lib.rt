// All interleavings of a short plan as lines of digits, and how many there are (document 02, E11).
#![tactic(auto)]

ghost use Rattle.std.specs.Prelude.{◌+◌, ◌≤◌, length};
ghost use Rattle.text.specs.Inner.Wrote.{Wrote};
ghost use Rattle.text_answer_lines.specs.Inner.Told.{Told};
ghost use Rattle.text_interleaving_lines.specs.Lines.{count_line, more_line, InterleavingsText};
ghost use Rattle.text_interleaving_lines.specs.Inner.Steps.{Here, Begun, Advanced};

use text_inputs::schedules;

// From the schedule at the beginning of the area to the following one, in its place; none where the list is over. A listed schedule is not refused.
fn advance(plan: &[u8], n: usize, schedule: &mut [u8], picks: usize) -> Option<usize>
    requires { Here plan.now n schedule.old picks }
    ensures { Advanced plan.now n schedule.old picks schedule.new result }
{
    let mut after = [0u8; 64];
    let next = interleavings::next_interleaving(plan, n, &schedule[0..picks], &mut after);
    let Ok(following) = next else {
        return None;
    };
    let length = following?;
    Some(text::put_word(schedule, 0, &after[0..length]))
}

// The last line of a list that is whole.
fn put_count(area: &mut [u8], at: usize, count: usize) -> usize
    requires { at + 100 ≤ length area.old }
    ensures { Wrote area.old at (count_line count) area.new result }
{
    let next = text_phrases::put_phrase(area, at, b"interleavings: ", count);
    text::put_byte(area, next, 10)
}

// The last line of one that is not.
fn put_more(area: &mut [u8], at: usize) -> usize
    requires { at + 100 ≤ length area.old }
    ensures { Wrote area.old at more_line area.new result }
{
    text::put_word(
        area,
        at,
        b"interleavings: more than 8192, of which these are the first\n",
    )
}

// The lines from the first schedule on, one by one, until the list is over or 8,192 are written.
fn put_list(plan: &[u8], n: usize, schedule: &mut [u8], first: usize, area: &mut [u8]) -> usize
    requires { Begun plan.now n schedule.old first × (574501 ≤ length area.old) }
    ensures { Told (InterleavingsText plan.now n) area.old area.new result }
{
    let mut picks = first;
    let mut at = 0;
    for index in 0..8192 {
        at = schedules::put_digit_line(area, at, &schedule[0..picks]);
        let Some(length) = advance(plan, n, schedule, picks) else {
            return put_count(area, at, index + 1);
        };
        picks = length;
    }
    put_more(area, at)
}

// The text of a plan and a bound, at the start of an area.
pub fn interleavings_text(plan: &[u8], n: usize, area: &mut [u8]) -> usize
    requires { 574501 ≤ length area.old }
    ensures { Told (InterleavingsText plan.now n) area.old area.new result }
{
    let mut schedule = [0u8; 64];
    let first = interleavings::first_interleaving(plan, n, &mut schedule);
    match first {
        Err(refusal) => text_answer_lines::put_refusal(area, refusal),
        Ok(length) => put_list(plan, n, &mut schedule, length, area),
    }
}
