// Which threads of a run can be picked: those that can move, or stop the run for a missing key or for room.
#![tactic(auto)]

ghost use Rattle.std.specs.Prelude.{◌≤◌, ◌≡◌};
ghost use Rattle.run_open_threads.specs.Inner.Open.{is_open, absent, open_at, LowestFrom, GoesOnBy};

use run_outcome::{Thread, ThreadState};

// No thread.
pub fn no_thread() -> Thread
    ensures { result ≡ absent }
{
    Thread {
        state: ThreadState::Absent,
        learnt: 0,
    }
}

// A thread in this state can move or stop the run.
fn is_open(state: ThreadState) -> bool
    ensures { result ≡ is_open state }
{
    matches!(state, ThreadState::Ready | ThreadState::Lacking { .. })
}

// The lowest of the threads from `from` on that can be picked, or 8.
pub fn open_from(threads: [Thread; 8], from: usize) -> usize
    requires { from ≤ 8 }
    ensures { LowestFrom (open_at threads) from result }
{
    for thread in from..8 {
        if is_open(threads[thread].state) {
            return thread;
        }
    }
    8
}

// The lowest thread by which a run goes on; 8 where it has stopped, where no place is left, or where no thread can be picked.
pub fn goes_on_by(threads: [Thread; 8], stopped: bool, places: usize, made: usize) -> usize
    ensures { GoesOnBy threads stopped places made result }
{
    if stopped || places <= made {
        return 8;
    }
    open_from(threads, 0)
}
