// How many moves a plan can need (document 02, E12): refusals 1 to 7, then 21 to 23, else the total.
#![tactic(auto)]

pub mod settling; // settling.rt: whom each procedure calls, and what bodies cost, callees first

ghost use Rattle.std.specs.Prelude.{◌≡◌};
ghost use Rattle.plan_packed.specs.Format.{terms};
ghost use Rattle.costs.specs.Bound.{bounded};
ghost use Rattle.answers.specs.Answer.{answered};
ghost use Rattle.bound.specs.NoMoreMoves.{NoMoreMoves};
ghost use Rattle.bound.specs.Inner.Settling.{Loads};

use plan_header::layout;
use plan_operands::tags;
use refusals::{Reason, Refusal};

// Refusals 21 to 23 of a plan that passes the others and is in `words`, else the total.
fn total_of(
    plan: &[u8],
    procedures: usize,
    count: usize,
    words: &[usize; 1024],
) -> Result<usize, Refusal>
    requires loads { Loads plan.now procedures words.now }
    requires count_value { count ≡ terms plan.now }
    ensures { answered result ≡ bounded plan.now }
{
    let calls = settling::calls(plan, procedures, words);
    let mut costs = [0usize; 32];
    let done = settling::settle(plan, procedures, words, &calls, &mut costs);
    if settling::lowest_left(done, procedures) < procedures {
        return Err(Reason::Cycle.at(0));
    }
    if plan_tag_search::occurs(words, count, tags::WHILE) {
        return Err(Reason::While.at(0));
    }
    let total = costs[0] + 1;
    if total > 65535 {
        return Err(Reason::Total.at(0));
    }
    Ok(total)
}

// The entry `bound`, for any bytes: a refusal, or a number of moves that no schedule of the plan goes beyond.
pub fn bound(plan: &[u8]) -> Result<usize, Refusal>
    ensures answer { answered result ≡ bounded plan.now }
    ensures most { NoMoreMoves plan.now (answered result) }
{
    let mut words = [0usize; 1024];
    plan::load(plan, &mut words)?;
    let procedures = layout::procedures(plan);
    let count = layout::terms(plan);
    total_of(plan, procedures, count, &words)
}
