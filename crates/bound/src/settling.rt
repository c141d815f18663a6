// Whom each procedure calls, and what bodies cost: a body is walked once its callees' costs are known, so that each is walked once. Where calls form a cycle,
// its procedures are left. A set of procedures is a number, bit q for procedure q.
ghost use Rattle.std.specs.Prelude.{◌≡◌, ◌&&◌, not, ◌<◌, ◌≤◌, length, replicate};
ghost use Rattle.format.specs.Inner.Lowest.{Lowest};
ghost use Rattle.run_keys.specs.Keys.{holds, subset};
ghost use Rattle.bound.specs.Inner.Settling.{Loads, Bits, Called, Settled, Stuck};

use plan_header::layout;

// The set of each procedure alone.
fn bits() -> [usize; 32]
    ensures { Bits 32 result }
{
    let mut all = [0usize; 32];
    for procedure in 0..32 {
        all[procedure] = 1usize << procedure;
    }
    all
}

// The procedures that each procedure calls.
pub fn calls(plan: &[u8], procedures: usize, words: &[usize; 1024]) -> [usize; 32]
    requires { Loads plan.now procedures words.now }
    ensures { Called plan.now procedures result }
{
    let bits = bits();
    let mut all = [0usize; 32];
    for procedure in 0..procedures {
        let root = layout::root(plan, procedure);
        all[procedure] = plan_cost_walk::walk_expression(words, root, &bits, false, 0);
    }
    all
}

// A procedure whose cost is not known, and those of all that it calls are.
fn is_next(calls: usize, done: usize, procedure: usize) -> bool
    requires { procedure < 64 }
    ensures { result ≡ (not (holds done procedure) && subset calls done) }
{
    (done >> procedure) % 2 == 0 && calls | done == done
}

// The procedures that are next, one after the other, the last first: main is the first, and often calls later ones.
fn round(
    plan: &[u8],
    procedures: usize,
    words: &[usize; 1024],
    calls: &[usize; 32],
    costs: &mut [usize; 32],
    before: usize,
) -> usize
    requires loads { Loads plan.now procedures words.now }
    requires called { Called plan.now procedures calls.now }
    requires settled { Settled plan.now before costs.old }
    ensures settled_2 { Settled plan.now result costs.new }
    ensures lower_bound { before ≤ result }
    ensures stuck { result ≡ before → Stuck plan.now calls.now before }
{
    let mut done = before;
    for procedure in (0..procedures).rev() {
        if is_next(calls[procedure], done, procedure) {
            let root = layout::root(plan, procedure);
            costs[procedure] = plan_cost_walk::walk_expression(words, root, costs, true, 0);
            done |= 1usize << procedure;
        }
    }
    done
}

// The procedures from which calls do not lead on for ever, with their costs.
pub fn settle(
    plan: &[u8],
    procedures: usize,
    words: &[usize; 1024],
    calls: &[usize; 32],
    costs: &mut [usize; 32],
) -> usize
    requires loads { Loads plan.now procedures words.now }
    requires called { Called plan.now procedures calls.now }
    requires costs_value { costs.old ≡ replicate 32 0 }
    ensures settled { Settled plan.now result costs.new }
    ensures stuck { Stuck plan.now calls.now result }
{
    let mut done = 0;
    loop {
        let next = round(plan, procedures, words, calls, costs, done);
        if next == done {
            return done;
        }
        done = next;
    }
}

// The lowest procedure that is not in the set, or `procedures`.
pub fn lowest_left(done: usize, procedures: usize) -> usize
    requires { procedures < 64 }
    ensures { Lowest (λ p. not (holds done p)) procedures result }
{
    for procedure in 0..procedures {
        if (done >> procedure) % 2 == 0 {
            return procedure;
        }
    }
    procedures
}
