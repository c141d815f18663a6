// A play, its log, its threads' states and a preview, in words or in bytes, or the lines of what refuses them, at the start of an area.
ghost use Rattle.std.specs.Prelude.{◌≤◌, length};
ghost use Rattle.text.specs.Inner.Wrote.{Wrote};
ghost use Rattle.text_answer_lines.specs.Inner.Told.{Told};
ghost use Rattle.text_run_words.specs.Runs.{PlayText, threads_text, preview_text, log_text};

// A play.
pub fn play_text(plan: &[u8], schedule: &[u8], area: &mut [u8]) -> usize
    requires { 131072 ≤ length area.old }
    ensures { Told (PlayText plan.now schedule.now) area.old area.new result }
{
    let answered = text_play_lines::play_text(plan, schedule, area);
    text_answer_lines::settle(area, answered)
}

// The states of the threads after a play.
pub fn states_text(plan: &[u8], schedule: &[u8], area: &mut [u8]) -> usize
    requires { 2048 ≤ length area.old }
    ensures { Wrote area.old 0 (threads_text plan.now schedule.now) area.new result }
{
    let answered = text_state_lines::states_text(plan, schedule, area);
    text_answer_lines::settle(area, answered)
}

// What one pick more would do.
pub fn preview_text(plan: &[u8], schedule: &[u8], pick: usize, area: &mut [u8]) -> usize
    requires { 200 ≤ length area.old }
    ensures { Wrote area.old 0 (preview_text plan.now schedule.now pick) area.new result }
{
    let answered = text_preview_lines::preview_text(plan, schedule, pick, area);
    text_answer_lines::settle(area, answered)
}

// The packed log of a play.
pub fn log_text(plan: &[u8], schedule: &[u8], area: &mut [u8]) -> usize
    requires { 12288 ≤ length area.old }
    ensures { Wrote area.old 0 (log_text plan.now schedule.now) area.new result }
{
    let played = play::play(plan, schedule, area);
    let checked = played.checked;
    let outcome = played.outcome;
    match checked {
        Err(refusal) => text_answer_lines::put_refusal(area, refusal),
        Ok(()) => play::outcome::record_bytes(outcome.records),
    }
}
