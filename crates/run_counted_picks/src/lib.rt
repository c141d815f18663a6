// Whether each pick of a run counted: it moved, or stopped the run (document 02, E11).
#![tactic(auto)]

ghost use Rattle.std.specs.Prelude.{◌+◌, ◌≤◌, ◌≡◌, eqb};
ghost use Rattle.run_counted_picks.specs.Inner.Counted.{stop_count};

use run_outcome::Stop;

// One for a run that stopped.
fn stop_count(stop: Stop) -> usize
    ensures { result ≡ stop_count stop }
{
    match stop {
        Stop::End => 0,
        Stop::Race => 1,
        Stop::NoRoom(_) => 1,
    }
}

// Each of so many picks moved or stopped the run.
pub fn all_counted(stop: Stop, moves: usize, picks: usize) -> bool
    requires { moves ≤ 4096 }
    ensures { result ≡ eqb (moves + stop_count stop) picks }
{
    moves + stop_count(stop) == picks
}
