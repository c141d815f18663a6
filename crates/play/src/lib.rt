// The entry `play`: a schedule on a plan, its records into a log area.
#![tactic(auto)]

pub mod outcome;

ghost use Rattle.std.specs.Prelude.{◌≤◌, ◌+◌, ◌*◌, ◌≡◌, length};
ghost use Rattle.rules.specs.Play.{played, area_after};
ghost use Rattle.play.specs.Answer.{answered, NoRunIfRefused};
ghost use Rattle.play.specs.ExecutedOn.{ExecutedIfPassed};
ghost use Rattle.play.specs.Inner.Roots.{Roots};
ghost use Rattle.play.specs.Inner.RunOn.{Given, RunBy, Notable, ExploredBy};

use crate::outcome::Played;
use plan_header::layout;
use run_engine::Explored;
use run_state::Setting;
use run_tally::Ran;

// The roots of the procedures.
fn roots(plan: &[u8], procedures: usize) -> [usize; 32]
    requires { (procedures ≤ 32) × (8 + 2 * procedures ≤ length plan.now) }
    ensures { Roots plan.now procedures result }
{
    let mut all = [0usize; 32];
    for procedure in 0..procedures {
        all[procedure] = layout::root(plan, procedure);
    }
    all
}

// The run of picks on an accepted plan whose words are loaded, its records into the log: of every move, or of those that have one. Where notes are lent, it
// goes on behind the picks by the lowest thread that can be picked, and notes at each place what could be picked there.
pub fn explore(
    plan: &[u8],
    words: &[usize; 1024],
    every: bool,
    picks: &[u8],
    notes: &mut [u8],
    log: &mut [u8],
) -> Explored
    requires { Given plan.now words.now picks.now log.old × Notable notes.old log.old }
    ensures { ExploredBy every plan.now picks.now log.old log.new notes.old
        notes.new result }
{
    let procedures = layout::procedures(plan);
    let roots = roots(plan, procedures);
    let mask = layout::volatiles(plan);
    let version = layout::version(plan);
    let setting = Setting { mask, version };
    run_engine::explore(words, &roots, setting, every, picks, notes, log)
}

// The run of the picks alone.
pub fn run(plan: &[u8], words: &[usize; 1024], every: bool, picks: &[u8], log: &mut [u8]) -> Ran
    requires { Given plan.now words.now picks.now log.old }
    ensures { RunBy every plan.now picks.now log.old log.new result }
{
    let mut none = [0u8; 1];
    let explored = explore(plan, words, every, picks, &mut none[0..0], log);
    explored.ran
}

// Every plan, schedule and log area gets document 01's answer: a refusal of number 1 to 10 with its place, and no byte of the area changed; or the
// run's outcome, and an area that begins with the run's records and is otherwise as it was. The run is an execution by the rules.
pub fn play(plan: &[u8], schedule: &[u8], log: &mut [u8]) -> Played
    ensures answer { answered result ≡ played plan.now schedule.now log.old }
    ensures area { log.new ≡ area_after plan.now schedule.now log.old }
    ensures refused { NoRunIfRefused result }
    ensures executed { ExecutedIfPassed plan.now schedule.now log.old log.new result }
{
    let mut words = [0usize; 1024];
    let checked = run_refusals::refusal(plan, schedule, log.len(), &mut words);
    let Ok(()) = checked else {
        return outcome::refused(checked);
    };
    let ran = run(plan, &words, false, schedule, log);
    let outcome = ran.outcome;
    Played { checked, outcome }
}
