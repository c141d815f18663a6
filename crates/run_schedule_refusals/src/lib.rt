// Refusals 8 to 10 of a play: of the schedule, and of the log area.
#![tactic(auto)]

ghost use Rattle.std.specs.Prelude.{◌+◌, ◌≤◌, ◌≡◌, [], ◌∷◌, ◌++◌, length};
ghost use Rattle.format.specs.Refusal.{first_refusal};
ghost use Rattle.format.specs.Inner.Lowest.{Lowest};
ghost use Rattle.plan_refusals.specs.Answer.{answered};
ghost use Rattle.rules.specs.Play.{wrong_pick};
ghost use Rattle.run_schedule_refusals.specs.Inner.Checks.{pick_checks, ShortBy};

use refusals::{Reason, Refusal};

// The lowest pick over 7, or the length.
fn lowest_wrong_pick(schedule: &[u8]) -> usize
    ensures { Lowest (wrong_pick schedule.now) (length schedule.now) result }
{
    for (i, pick) in schedule.iter().enumerate() {
        if *pick > 7 {
            return i;
        }
    }
    schedule.len()
}

// The lowest pick over 7 of a schedule with this pick added as its last, or the length.
fn lowest_wrong_with(schedule: &[u8], pick: usize) -> usize
    ensures { Lowest (wrong_pick (schedule.now ++ (pick ∷ []))) (length schedule.now + 1) result }
{
    let wrong = lowest_wrong_pick(schedule);
    if wrong < schedule.len() {
        return wrong;
    }
    if pick > 7 {
        return schedule.len();
    }
    schedule.len() + 1
}

// What refuses a schedule, refusals 8 and 9, if anything does.
pub fn picks_refusal(schedule: &[u8]) -> Result<(), Refusal>
    ensures { answered result ≡ first_refusal (pick_checks schedule.now) }
{
    if schedule.len() > 4096 {
        return Err(Reason::ScheduleLength.at(0));
    }
    let pick = lowest_wrong_pick(schedule);
    if pick < schedule.len() {
        return Err(Reason::Pick.at(pick));
    }
    Ok(())
}

// What refuses a schedule with this pick added as its last, if anything does.
pub fn picks_refusal_with(schedule: &[u8], pick: usize) -> Result<(), Refusal>
    ensures { answered result ≡ first_refusal (pick_checks (schedule.now ++ (pick ∷ []))) }
{
    if schedule.len() > 4095 {
        return Err(Reason::ScheduleLength.at(0));
    }
    let wrong = lowest_wrong_with(schedule, pick);
    if wrong <= schedule.len() {
        return Err(Reason::Pick.at(wrong));
    }
    Ok(())
}

// What refuses a log area of this length for so many picks, refusal 10, if anything does.
pub fn area_refusal(picks: usize, area: usize) -> Result<(), Refusal>
    requires { picks ≤ 4096 }
    ensures { ShortBy picks area (answered result) }
{
    if area < 3 * picks {
        return Err(Reason::LogArea.at(0));
    }
    Ok(())
}
