// The entry `charge`: what a run of a schedule on a plan is charged, in cents.
#![tactic(auto)]

ghost use Rattle.std.specs.Prelude.{◌≡◌, ◌≤◌};
ghost use Rattle.answers.specs.Answer.{answered};
ghost use Rattle.play.specs.Answer.{stop_of};
ghost use Rattle.charge.specs.Charge.{price_by, charged};

use refusals::Refusal;
use run_outcome::Stop;
use run_prices::price;

// A run that stops for room is free.
fn price_by(option: bool, stop: Stop, moves: usize) -> usize
    requires { moves ≤ 4096 }
    ensures { result ≡ price_by option (stop_of stop) moves }
{
    match stop {
        Stop::End => price(option, moves),
        Stop::Race => price(option, moves),
        Stop::NoRoom(_) => 0,
    }
}

// Every plan, schedule and option gets document 02's answer: a refusal of number 1 to 9 with its place, or the cents. The run's log stays inside.
pub fn charge(plan: &[u8], schedule: &[u8], option: bool) -> Result<usize, Refusal>
    ensures answer { answered result ≡ charged plan.now schedule.now option }
{
    let mut log = [0u8; 12288];
    let played = play::play(plan, schedule, &mut log);
    played.checked?;
    let outcome = played.outcome;
    Ok(price_by(option, outcome.stop, outcome.moves))
}
