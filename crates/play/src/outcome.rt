// What a play answers (document 01, "How a thread moves"): the outcome of a run, with the state and the total of each of eight threads, or a refusal.
ghost use Rattle.std.specs.Prelude.{◌*◌, ◌≤◌, ◌≡◌};
ghost use Rattle.play.specs.Answer.{no_run};

use refusals::Refusal;
use run_outcome::{Outcome, Stop, Thread, ThreadState};

// What a play answers: what refused it, or that nothing did; then the run's outcome, or that of no run. `play` refuses by a reason; another's refusals
// may be of any type.
#[derive(Clone, Copy)]
pub struct Played<R = Refusal> {
    pub checked: Result<(), R>,
    pub outcome: Outcome,
}

// A refused play has no run.
pub fn refused<R>(checked: Result<(), R>) -> Played<R>
    ensures checked_value { result.checked ≡ checked }
    ensures outcome_value { result.outcome ≡ no_run }
{
    let none = Thread {
        state: ThreadState::Absent,
        learnt: 0,
    };
    let threads = [none; 8];
    let outcome = Outcome {
        stop: Stop::End,
        picks: 0,
        moves: 0,
        records: 0,
        threads,
    };
    Played { checked, outcome }
}

// The bytes of so many records.
pub fn record_bytes(records: usize) -> usize
    requires { records ≤ 4096 }
    ensures { result ≡ 3 * records }
{
    3 * records
}
