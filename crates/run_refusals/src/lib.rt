// Refusals 1 to 10 of a play: of the plan, of the schedule, of the log area.
#![tactic(auto)]

ghost use Rattle.std.specs.Prelude.{◌≡◌, [], ◌∷◌, ◌++◌, replicate, OnOk};
ghost use Rattle.plan_packed.specs.Format.{terms};
ghost use Rattle.plan_packed.specs.Inner.Steps.{Loaded};
ghost use Rattle.plan_refusals.specs.Answer.{answered};
ghost use Rattle.rules.specs.Play.{schedule_refusal};
ghost use Rattle.run_refusals.specs.Inner.Refused.{RefusedAs};

use refusals::Refusal;

// What refuses a schedule on a plan, refusals 1 to 9, if anything does. Where nothing does, every term's 40 bits are then in `words`, which came as zeros.
pub fn schedule_refusal(
    plan: &[u8],
    schedule: &[u8],
    words: &mut [usize; 1024],
) -> Result<(), Refusal>
    requires { words.old ≡ replicate 1024 0 }
    ensures result_value { answered result ≡ schedule_refusal plan.now schedule.now }
    ensures loaded { OnOk result (Loaded plan.now (terms plan.now) words.new) }
{
    plan::load(plan, words)?;
    run_schedule_refusals::picks_refusal(schedule)
}

// What refuses a schedule with this pick added as its last, if anything does. The words are as above.
pub fn refusal_with(
    plan: &[u8],
    schedule: &[u8],
    pick: usize,
    words: &mut [usize; 1024],
) -> Result<(), Refusal>
    requires { words.old ≡ replicate 1024 0 }
    ensures result_value { answered result ≡ schedule_refusal plan.now (schedule.now ++ (pick ∷ [])) }
    ensures loaded { OnOk result (Loaded plan.now (terms plan.now) words.new) }
{
    plan::load(plan, words)?;
    run_schedule_refusals::picks_refusal_with(schedule, pick)
}

// What refuses a play with a log area of this length, refusals 1 to 10, if anything does. The words are as above.
pub fn refusal(
    plan: &[u8],
    schedule: &[u8],
    area: usize,
    words: &mut [usize; 1024],
) -> Result<(), Refusal>
    requires { words.old ≡ replicate 1024 0 }
    ensures refused_as { RefusedAs plan.now schedule.now area (answered result) }
    ensures loaded { OnOk result (Loaded plan.now (terms plan.now) words.new) }
{
    schedule_refusal(plan, schedule, words)?;
    run_schedule_refusals::area_refusal(schedule.len(), area)
}
