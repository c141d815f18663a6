// The entry `preview`: what the next pick would do after a schedule (document 02, E1).
#![tactic(auto)]

ghost use Rattle.std.specs.Prelude.{◌+◌, ◌≤◌, ◌≡◌, [], ◌∷◌, ◌++◌, length};
ghost use Rattle.text.specs.Inner.Wrote.{Wrote};
ghost use Rattle.play.specs.Inner.RunOn.{Given};
ghost use Rattle.preview.specs.Preview.{with_pick, previewed};
ghost use Rattle.preview.specs.PlaysAs.{PlaysIfShown};
ghost use Rattle.preview.specs.Answer.{answered, AsLogged};
ghost use Rattle.preview.specs.Inner.Shown.{inner_log, Shown};

use refusals::Refusal;
use run_last_pick::{Preview, last_pick};

// The schedule and this pick behind it, at the start of an area; how many picks that makes.
fn add_pick(picks: &mut [u8], schedule: &[u8], pick: u8) -> usize
    requires { length schedule.now + 1 ≤ length picks.old }
    ensures { Wrote picks.old 0 (schedule.now ++ (pick ∷ [])) picks.new result }
{
    let end = text::put_word(picks, 0, schedule);
    text::put_byte(picks, end, pick)
}

// The preview of a pick that nothing refuses, by one run of the schedule with the pick added, on arrays that nobody else sees.
fn shown(plan: &[u8], words: &[usize; 1024], schedule: &[u8], pick: usize) -> Preview
    requires { Given plan.now words.now (with_pick schedule.now pick) inner_log }
    ensures { Shown plan.now schedule.now pick result }
{
    let mut picks = [0u8; 4096];
    let mut log = [0u8; 12288];
    let end = add_pick(&mut picks, schedule, pick as u8);
    let ran = play::run(plan, words, false, &picks[0..end], &mut log);
    let counted = ran.before;
    last_pick(
        ran.outcome,
        counted.moves,
        counted.records,
        schedule.len(),
        pick,
        &log,
    )
}

// Every plan, schedule and pick gets E1's answer: a refusal of number 1 to 9 with its place; or what the pick would do after the schedule, which is what
// playing the schedule with the pick added does. Nothing is lent, and nothing changes.
pub fn preview(plan: &[u8], schedule: &[u8], pick: usize) -> Result<Preview, Refusal>
    ensures answer { answered result ≡ previewed plan.now schedule.now pick }
    ensures plays { PlaysIfShown plan.now schedule.now pick (answered result) }
    ensures logged { AsLogged result }
{
    let mut words = [0usize; 1024];
    run_refusals::refusal_with(plan, schedule, pick, &mut words)?;
    Ok(shown(plan, &words, schedule, pick))
}
