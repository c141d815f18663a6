// Checks 5 and 6: every name of a term, by a procedure or by a parent, with the sort that the table wants there.
#![tactic(auto)]

pub mod notes; // notes.rt: both checks at once, where a plan passes them

ghost use Rattle.std.specs.Prelude.{◌≡◌, true, false, [], ◌∷◌, ℕ, ◌≤◌, ◌<◌, replicate};
ghost use Rattle.format.specs.Inner.Lowest.{Lowest};
ghost use Rattle.plan_packed.specs.Refusals.{wrongly_sorted};
ghost use Rattle.plan_packed.specs.Inner.Rows.{layout_rows, Tagged};
ghost use Rattle.plan_packed.specs.Inner.Steps.{Right, Loaded, node_in, child_of, children_of, lower_all, count_all, Counted, root_times, all_times};
ghost use Rattle.plan_packed.specs.Inner.Steps.{misplaced_root, not_once};

use plan_header::layout;
use plan_operands::rows;
use plan_operands::rows::{FIRST, Rows};

// Term `index` is named, where the table wants `sort`: it is counted in `times`, and the answer is the lower of `best` and the
// term, if that is of another sort.
fn name(
    rows: &Rows,
    words: &[usize; 1024],
    times: &mut [u8; 1024],
    sort: u8,
    index: usize,
    best: usize,
) -> usize
    requires index_bound { index < 1024 }
    requires rows_value { rows.now ≡ layout_rows }
    requires tagged { Tagged words.now }
    ensures value { result ≡ lower_all words.now (child_of sort index ∷ []) best }
    ensures times_after { times.new ≡ count_all (child_of sort index ∷ []) times.old }
{
    times[index] = plan_name_tests::once_more(times[index]);
    plan_name_tests::lower(rows, words, sort, index, best)
}

// A term names its children: where one is absent, so are those after it.
fn name_children(
    rows: &Rows,
    words: &[usize; 1024],
    times: &mut [u8; 1024],
    term: usize,
    best: usize,
) -> usize
    requires term_bound { term < 1024 }
    requires rows_value { rows.now ≡ layout_rows }
    requires tagged { Tagged words.now }
    ensures value { result ≡ lower_all words.now (children_of (node_in words.now term)) best }
    ensures times_after { times.new ≡ count_all (children_of (node_in words.now term)) times.old }
{
    let word = words[term];
    let tag = plan_operands::tag(word);
    let mut least = best;
    for operand in 0..3 {
        let column = FIRST + 2 * operand;
        let sort = rows::number(rows, tag, column);
        if sort == 0 {
            return least;
        }
        let child = rows::child(rows, tag, column + 1, word);
        least = name(rows, words, times, sort, child, least);
    }
    least
}

// Each procedure names its root.
fn name_roots(
    rows: &Rows,
    plan: &[u8],
    procedures: usize,
    count: usize,
    words: &[usize; 1024],
    times: &mut [u8; 1024],
) -> usize
    requires right { Right plan.now procedures count }
    requires loaded { Loaded plan.now count words.now }
    requires times_value { times.old ≡ replicate 1024 0 }
    requires rows_value { rows.now ≡ layout_rows }
    ensures lowest { Lowest (misplaced_root plan.now procedures) count result }
    ensures counted { Counted (root_times plan.now procedures) times.new }
{
    let mut best = count;
    for procedure in 0..procedures {
        let root = layout::root(plan, procedure);
        best = name(rows, words, times, rows::E, root, best);
    }
    best
}

// The lowest wrongly sorted term, or the count; `times`, which came as zeros, says how often each term is named.
pub fn name_all(
    rows: &Rows,
    plan: &[u8],
    procedures: usize,
    count: usize,
    words: &[usize; 1024],
    times: &mut [u8; 1024],
) -> usize
    requires right { Right plan.now procedures count }
    requires loaded { Loaded plan.now count words.now }
    requires times_value { times.old ≡ replicate 1024 0 }
    requires rows_value { rows.now ≡ layout_rows }
    ensures lowest { Lowest (wrongly_sorted plan.now) count result }
    ensures counted { Counted (all_times plan.now count) times.new }
{
    let mut best = name_roots(rows, plan, procedures, count, words, times);
    for term in 0..count {
        let least = name_children(rows, words, times, term, best);
        best = plan_name_tests::lower_call(plan, procedures, count, words, term, least);
    }
    best
}

// Each of the first `count` terms is counted once. Without an early end, so that the machine tests many at once.
fn all_once(times: &[u8; 1024], count: usize) -> bool
    requires { count ≤ 1024 }
    ensures { result ≡ true → (t : ℕ) → t < count → not_once times.now t ≡ false }
{
    let mut once = true;
    for named in &times[..count] {
        once &= *named == 1;
    }
    once
}

// The lowest of the first `count` terms that is not counted once, or `count`.
pub fn lowest_miscounted(times: &[u8; 1024], count: usize) -> usize
    requires { count ≤ 1024 }
    ensures { Lowest (not_once times.now) count result }
{
    if all_once(times, count) {
        return count;
    }
    times[..count]
        .iter()
        .position(|named| *named != 1)
        .unwrap_or(count)
}
