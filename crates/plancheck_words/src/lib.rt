// What the program plancheck answers to a word, a plan as it is given and a schedule: the whole text.
#![tactic(auto)]

ghost use Rattle.std.specs.Prelude.{◌≤◌, ◌≡◌, length, take};
ghost use Rattle.text_answer_lines.specs.Inner.Told.{Told};
ghost use Rattle.plancheck_words.specs.Words.{Says, Answers};
ghost use Rattle.plancheck_words.specs.Given.{text_plan};
ghost use Rattle.plancheck_words.specs.Area.{Answered};

use read::ReadError;
use refusals::Reason;
use text_inputs::plans;
use text_run_words::told;

// The words whose answer is a text about a plan, some with a number.
#[derive(Clone, Copy)]
pub enum Word {
    Check,
    Show,
    Read,
    Canonical,
    Bound,
    Play,
    States,
    Preview(usize),
    Log,
    Witness,
    Charge,
    Interleavings(usize),
}

// The answer to a packed plan.
fn packed_text(word: Word, plan: &[u8], schedule: &[u8], area: &mut [u8]) -> usize
    requires { 574501 ≤ length area.old }
    ensures { Told (Says word plan.now schedule.now) area.old area.new result }
{
    match word {
        Word::Check => text_plan_words::check_text(plan, area),
        Word::Show => text_plan_words::show_text(plan, area),
        Word::Read => text_plan_words::plan_text(plan, area),
        Word::Canonical => text_plan_words::canonical_text(plan, area),
        Word::Bound => text_plan_words::bound_text(plan, area),
        Word::Play => told::play_text(plan, schedule, area),
        Word::States => told::states_text(plan, schedule, area),
        Word::Preview(pick) => told::preview_text(plan, schedule, pick, area),
        Word::Log => told::log_text(plan, schedule, area),
        Word::Witness => text_run_words::witness_text(plan, schedule, area),
        Word::Charge => text_run_words::charge_text(plan, schedule, area),
        Word::Interleavings(n) => text_interleaving_lines::interleavings_text(plan, n, area),
    }
}

// The answer to a plan that is given as text.
fn read_text(word: Word, text: &[u8], schedule: &[u8], area: &mut [u8]) -> usize
    requires { 574501 ≤ length area.old }
    ensures { Told (Answers word schedule.now (text_plan text.now)) area.old area.new result }
{
    let mut plan = [0u8; 5192];
    let answer = read::read(text, &mut plan);
    let error = match answer {
        Ok(length) => return packed_text(word, &plan[0..length], schedule, area),
        Err(error) => error,
    };
    match error {
        ReadError::Short => text_answer_lines::put_refusal(area, Reason::ReadArea.at(0)),
        ReadError::Failed {
            line,
            column,
            kind,
            reason,
        } => text_read_lines::put_failure(area, 0, line, column, kind, reason),
    }
}

// The answer to a plan as it is given, text or packed, at the start of an area of 574,501 bytes or more; its length. A shorter area stays as it was.
pub fn answer(word: Word, plan: &[u8], schedule: &[u8], area: &mut [u8]) -> usize
    ensures answered { Answered word plan.now schedule.now area.old area.new result }
    ensures within { (result ≤ length area.new) × (result ≡ length (take result area.new)) }
{
    if area.len() < 574501 {
        return 0;
    }
    if plans::is_text(plan) {
        return read_text(word, plan, schedule, area);
    }
    packed_text(word, plan, schedule, area)
}
