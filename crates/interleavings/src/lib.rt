// The entries `first_interleaving` and `next_interleaving`: all interleavings of a short plan, one after the other (document 02, E11); and `count`, how many
// there are.
#![tactic(auto)]

ghost use Rattle.plan_packed.specs.Trees.{program_of};
ghost use Rattle.answers.specs.Answer as answer;
ghost use Rattle.listing_answers.specs.Interleavings.{FirstAnswer, NextAnswer};
ghost use Rattle.interleavings.specs.Answer.{answered};
ghost use Rattle.interleavings.specs.Count.{CountAnswer};
ghost use Rattle.interleavings.specs.Inner.Steps.{Begins, Reached, Listing, Followed, Stands, Advanced, CountsOn};

use refusals::{Reason, Refusal};

// From the first `from` picks of the area on, the lowest pick that can follow, until there are n or none can; how many picks that makes.
fn go_on(plan: &[u8], words: &[usize; 1024], n: usize, area: &mut [u8], from: usize) -> usize
    requires { Begins plan.now words.now n area.old from }
    ensures { Reached (program_of plan.now) n from area.old area.new result }
{
    let mut notes = [0u8; 64];
    let explored = run_replays::explore(plan, words, &area[0..from], &mut notes[0..n]);
    let made = explored.made;
    run_place_notes::put_noted(&notes, made, area, from);
    made
}

// The schedule that follows a listed one, by its notes, into the area, or that the list is over: back to the last place where a higher thread can be picked,
// and on from there.
fn following(
    plan: &[u8],
    words: &[usize; 1024],
    n: usize,
    schedule: &[u8],
    notes: &[u8],
    area: &mut [u8],
) -> Option<usize>
    requires { Listing plan.now words.now n schedule.now notes.now area.old }
    ensures { Followed (program_of plan.now) n schedule.now area.old area.new result }
{
    let departure = run_place_notes::last_departure(notes, schedule.len())?;
    let end = text::put_word(area, 0, &schedule[0..departure.place]);
    let from = text::put_byte(area, end, departure.pick as u8);
    Some(go_on(plan, words, n, area, from))
}

// Every plan, bound and area gets document 02's answer: a refusal of number 1 to 7 with its place, or of number 18 or 20, and no byte of the area changed; or
// the length of the least listed schedule, with which the area then begins, and otherwise is as it was.
pub fn first_interleaving(plan: &[u8], n: usize, area: &mut [u8]) -> Result<usize, Refusal>
    ensures { FirstAnswer plan.now n area.old (answer.answered result) area.new }
{
    let mut words = [0usize; 1024];
    plan::load(plan, &mut words)?;
    if n > 64 {
        return Err(Reason::Bound.at(0));
    }
    if area.len() < n {
        return Err(Reason::BoundArea.at(0));
    }
    Ok(go_on(plan, &words, n, area, 0))
}

// Every plan, bound, schedule and area gets document 02's answer: a refusal of number 1 to 9 with its place, or of number 18 to 20, and no byte of the area
// changed; or the length of the least listed schedule above the given one, with which the area then begins, and otherwise is as it was; or that the list is
// over, and no byte changed.
pub fn next_interleaving(
    plan: &[u8],
    n: usize,
    schedule: &[u8],
    area: &mut [u8],
) -> Result<Option<usize>, Refusal>
    ensures { NextAnswer plan.now n schedule.now area.old (answered result) area.new }
{
    let mut words = [0usize; 1024];
    run_refusals::schedule_refusal(plan, schedule, &mut words)?;
    if n > 64 {
        return Err(Reason::Bound.at(0));
    }
    let mut notes = [0u8; 64];
    if !run_replays::listed(plan, &words, n, schedule, &mut notes) {
        return Err(Reason::NotListed.at(0));
    }
    if area.len() < n {
        return Err(Reason::BoundArea.at(0));
    }
    Ok(following(plan, &words, n, schedule, &notes, area))
}

// From the schedule at the beginning of the area to the following one, in its place.
fn advance(
    plan: &[u8],
    words: &[usize; 1024],
    n: usize,
    area: &mut [u8],
    picks: usize,
    place: usize,
) -> Option<usize>
    requires { Stands plan.now words.now n area.old picks place }
    ensures { Advanced plan.now words.now n area.new place result }
{
    let mut notes = [0u8; 64];
    run_replays::listed(plan, words, n, &area[0..picks], &mut notes);
    let mut after = [0u8; 64];
    let length = following(plan, words, n, &area[0..picks], &notes, &mut after)?;
    Some(text::put_word(area, 0, &after[0..length]))
}

// From the first schedule on, one by one, until the list is over or longer than the limit.
fn count_on(
    plan: &[u8],
    words: &[usize; 1024],
    n: usize,
    limit: usize,
    area: &mut [u8],
    first: usize,
) -> Option<usize>
    requires { Stands plan.now words.now n area.old first 0 }
    ensures { CountsOn plan.now n limit result }
{
    let mut picks = first;
    for place in 0..limit {
        let Some(length) = advance(plan, words, n, area, picks, place) else {
            return Some(place + 1);
        };
        picks = length;
    }
    None
}

// Every plan, bound and limit gets an answer: a refusal of number 1 to 7 with its place, or of number 18; or how many schedules are listed; or that more than
// the limit are.
pub fn count(plan: &[u8], n: usize, limit: usize) -> Result<Option<usize>, Refusal>
    ensures { CountAnswer plan.now n limit result }
{
    let mut words = [0usize; 1024];
    plan::load(plan, &mut words)?;
    if n > 64 {
        return Err(Reason::Bound.at(0));
    }
    let mut area = [0u8; 64];
    let first = go_on(plan, &words, n, &mut area, 0);
    Ok(count_on(plan, &words, n, limit, &mut area, first))
}
