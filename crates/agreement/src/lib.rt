// Demand 3: the stop for want of a key, the chains of the log and the judge agree. The theorem over the definitions is in specs/ and proofs/; here
// is the play and the judge, one after the other, on one log area.
#![tactic(auto)]

ghost use Rattle.std.specs.Prelude.{◌≡◌, ◌≤◌, length, take};
ghost use Rattle.log_conflicts.specs.Judge.{AnswersTold};
ghost use Rattle.rules.specs.Play.{played, area_after};
ghost use Rattle.play.specs.Answer.{answered, NoRunIfRefused};
ghost use Rattle.judge.specs.Answer as judge;
ghost use Rattle.agreement.specs.AgreedOn.{AgreedOn};

use plan_header::layout;
use play::outcome::Played;
use refusals::Refusal;

// What a play answers, and what the judge says of the records that it wrote, or the refusal of the play.
#[derive(Clone, Copy)]
pub struct PlayedAndJudged {
    pub played: Played,
    pub judgement: Result<Option<usize>, Refusal>,
}

// The judge on the first bytes of a log area, and on no other byte of it.
fn judge_first(version: usize, area: &[u8], bytes: usize) -> Result<Option<usize>, Refusal>
    requires { bytes ≤ length area.now }
    ensures { AnswersTold version (take bytes area.now) (judge.answered result) }
{
    judge::judge(version, &area[0..bytes])
}

// A schedule is played on a plan, and the judge gets the plan's version and just the run's records, the first bytes of the log area. A refused play has
// no run, and its judgement is the play's own refusal.
pub fn play_and_judge(plan: &[u8], schedule: &[u8], log: &mut [u8]) -> PlayedAndJudged
    ensures answer { answered result.played ≡ played plan.now schedule.now log.old }
    ensures area { log.new ≡ area_after plan.now schedule.now log.old }
    ensures agreed { AgreedOn plan.now schedule.now result }
    ensures refused { NoRunIfRefused result.played }
{
    let played = play::play(plan, schedule, log);
    let checked = played.checked;
    let outcome = played.outcome;
    match checked {
        Err(refusal) => PlayedAndJudged {
            played,
            judgement: Err(refusal),
        },
        Ok(()) => {
            let bytes = play::outcome::record_bytes(outcome.records);
            let version = layout::version(plan);
            let judgement = judge_first(version, log, bytes);
            PlayedAndJudged { played, judgement }
        }
    }
}
