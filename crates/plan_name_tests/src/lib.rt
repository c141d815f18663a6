// Checks 5 and 6, one name of a term at a time: its sort, the arguments of a call, and what a name more makes of its count and of its note.
#![tactic(auto)]

ghost use Rattle.std.specs.Prelude.{◌≡◌, ◌<◌};
ghost use Rattle.plan_packed.specs.Refusals.{list_length, wrong_call};
ghost use Rattle.plan_packed.specs.Inner.Rows.{layout_rows, Tagged};
ghost use Rattle.plan_packed.specs.Inner.Steps.{Right, Loaded, wrong_sort, tag_in, lower_if, more_of, note_of};

use plan_header::layout;
use plan_operands::rows::Rows;
use plan_operands::{rows, tags};

// The count of a term that is named once more; two stands for more.
pub fn once_more(times: u8) -> u8
    ensures { result ≡ more_of times }
{
    if times == 0 { 1 } else { 2 }
}

// The note of a term that is named once more.
pub fn noted(note: u8, sort: u8) -> u8
    ensures { result ≡ note_of note sort }
{
    if note == 0 { sort } else { 4 }
}

// The lower of `best` and term `index`, if that is of another sort than the table wants. Chosen without a branch, since the sorts of a plan follow no pattern.
pub fn lower(rows: &Rows, words: &[usize; 1024], sort: u8, index: usize, best: usize) -> usize
    requires index_bound { index < 1024 }
    requires rows_value { rows.now ≡ layout_rows }
    requires tagged { Tagged words.now }
    ensures { result ≡ lower_if (wrong_sort sort (tag_in words.now index)) index best }
{
    let own = rows::number(rows, plan_operands::tag(words[index]), rows::SORT);
    if (own != sort) & (index < best) {
        index
    } else {
        best
    }
}

// The terms of tag `LIST` from term `from` on, up to the first other tag; counted to nine at most, one more than any parameters.
fn list_length(
    plan: &[u8],
    procedures: usize,
    count: usize,
    words: &[usize; 1024],
    from: usize,
) -> usize
    requires right { Right plan.now procedures count }
    requires loaded { Loaded plan.now count words.now }
    requires from_lt_count { from < count }
    ensures { result ≡ list_length plan.now 9 from }
{
    let mut term = from;
    for length in 0..9 {
        let word = words[term];
        if plan_operands::tag(word) != tags::LIST {
            return length;
        }
        term = plan_operands::second(word);
    }
    9
}

// The term, which is a call, has a list that is not as long as the parameters.
pub fn wrong_list(
    plan: &[u8],
    procedures: usize,
    count: usize,
    words: &[usize; 1024],
    term: usize,
) -> bool
    requires right { Right plan.now procedures count }
    requires loaded { Loaded plan.now count words.now }
    requires term_lt_count { (term < count) × (tag_in words.now term ≡ 8) }
    ensures { result ≡ wrong_call plan.now term }
{
    let word = words[term];
    let length = list_length(plan, procedures, count, words, plan_operands::list_of(word));
    length != layout::parameters(plan, plan_operands::procedure_of(word))
}

// The lower of `best` and the term, if that is a call whose list is not as long as the parameters.
pub fn lower_call(
    plan: &[u8],
    procedures: usize,
    count: usize,
    words: &[usize; 1024],
    term: usize,
    best: usize,
) -> usize
    requires right { Right plan.now procedures count }
    requires loaded { Loaded plan.now count words.now }
    requires term_lt_count { term < count }
    ensures { result ≡ lower_if (wrong_call plan.now term) term best }
{
    if plan_operands::tag(words[term]) != tags::CALL {
        return best;
    }
    if wrong_list(plan, procedures, count, words, term) & (term < best) {
        term
    } else {
        best
    }
}
