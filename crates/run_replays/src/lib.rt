// What one run of some picks tells: the pick of each place and the next higher thread that could be picked there, and whether the picks are a listed schedule
// (document 02, E11).
#![tactic(auto)]

ghost use Rattle.plan_packed.specs.Trees.{program_of};
ghost use Rattle.run_replays.specs.Inner.Replay.{Replayable, Explores};
ghost use Rattle.run_replays.specs.Inner.Told.{Listable, ListedBy};

use run_engine::Explored;

// The run of some picks, and on behind them by the lowest thread that can be picked, of as many places as there are notes; on a log that nobody else sees.
pub fn explore(plan: &[u8], words: &[usize; 1024], picks: &[u8], notes: &mut [u8]) -> Explored
    requires { Replayable plan.now words.now picks.now notes.old }
    ensures { Explores plan.now picks.now notes.old notes.new result }
{
    let mut log = [0u8; 192];
    play::explore(plan, words, false, picks, notes, &mut log)
}

// The schedule is listed for the bound n: its run has as many picks as it, and each of them moved or stopped the run. Of a listed one the notes are left.
pub fn listed(
    plan: &[u8],
    words: &[usize; 1024],
    n: usize,
    schedule: &[u8],
    notes: &mut [u8],
) -> bool
    requires { Listable plan.now words.now n schedule.now notes.old }
    ensures { ListedBy (program_of plan.now) n schedule.now notes.new result }
{
    if n < schedule.len() {
        return false;
    }
    let explored = explore(plan, words, schedule, &mut notes[0..n]);
    if explored.made != schedule.len() {
        return false;
    }
    let ran = explored.ran;
    let outcome = ran.outcome;
    let stop = outcome.stop;
    run_counted_picks::all_counted(stop, outcome.moves, schedule.len())
}
