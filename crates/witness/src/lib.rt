// The entry `witness` (document 02, E10): from a run that stopped for a missing key, a schedule after which the last write and the failing access stand side
// by side.
#![tactic(auto)]

ghost use Rattle.answers.specs.Answer.{answered};
ghost use Rattle.witness.specs.Witness.{Witnesses};
ghost use Rattle.witness.specs.Inner.Passing.{Passing};

use refusals::{Reason, Refusal};
use run_outcome::Stop;

// Refusals 16 and 17 where nothing before them refuses, else what is written and its length, by one run with a record for every move, on arrays that
// nobody else sees.
fn from_run(
    plan: &[u8],
    words: &[usize; 1024],
    schedule: &[u8],
    area: &mut [u8],
) -> Result<usize, Refusal>
    requires { Passing plan.now words.now schedule.now }
    ensures { Witnesses plan.now schedule.now area.old (answered result) area.new }
{
    let mut log = [0u8; 12288];
    let ran = play::run(plan, words, true, schedule, &mut log);
    let outcome = ran.outcome;
    let stop = outcome.stop;
    let Stop::Race = stop else {
        return Err(Reason::NoRace.at(0));
    };
    let end = play::outcome::record_bytes(outcome.records);
    log_schedule_writer::write(&log[0..end], area)
}

// Every plan, schedule and area gets E10's answer: a refusal of number 1 to 9, 15, 16 or 17 with its place, and no byte of the area changed; or the length of
// a schedule, with which the area then begins, its other bytes as they were. Played, every pick of it moves, and at its end the two threads' next
// moves are the write and the failing access.
pub fn witness(plan: &[u8], schedule: &[u8], area: &mut [u8]) -> Result<usize, Refusal>
    ensures { Witnesses plan.now schedule.now area.old (answered result) area.new }
{
    let mut words = [0usize; 1024];
    run_refusals::schedule_refusal(plan, schedule, &mut words)?;
    if plan_left_out::left_out(plan, &words) {
        return Err(Reason::LeftOut.at(0));
    }
    from_run(plan, &words, schedule, area)
}
