// The outcome of a run as 40 bytes, and what a play returns, whose refusal is of any type that tells its number and its place.
#![tactic(auto)]

ghost use Rattle.std.specs.Prelude.{◌≡◌, ◌/◌, ◌%◌, ◌<◌};
ghost use Rattle.play.specs.Answer.{stop_of, outcome_of};
ghost use Rattle.abi_outcome.specs.Inner.Answered.{play_by};
ghost use Rattle.abi_outcome.specs.Bytes.{outcome_bytes};
ghost use Rattle.abi_outcome.specs.Inner.Small.{SmallOutcome, SmallPlayed};
ghost use Rattle.abi_outcome.specs.Play.{play_number, out_after};
ghost use Rattle.abi_outcome.specs.Inner.Parts.{head_bytes};

use abi_thread_bytes::{stop_byte, thread_bytes};
use numbered_refusals::Numbered;
use play::outcome::Played;
use run_outcome::{Outcome, Stop};

fn high(number: usize) -> u8
    requires { number < 65536 }
    ensures { result ≡ number / 256 }
{
    (number / 256) as u8
}

fn low(number: usize) -> u8
    ensures { result ≡ number % 256 }
{
    (number % 256) as u8
}

// The first seven bytes: the stop, then the counts, 16 bits each, high byte first.
fn write_head(out: &mut [u8; 40], stop: Stop, picks: usize, moves: usize, records: usize)
    requires { (picks < 65536) × (moves < 65536) × (records < 65536) }
    ensures { out.new ≡ head_bytes out.old (stop_of stop) picks moves records }
{
    out[0] = stop_byte(stop);
    out[1] = high(picks);
    out[2] = low(picks);
    out[3] = high(moves);
    out[4] = low(moves);
    out[5] = high(records);
    out[6] = low(records);
}

// All 40 bytes of an outcome.
pub fn write(out: &mut [u8; 40], outcome: Outcome)
    requires { SmallOutcome (outcome_of outcome) }
    ensures { out.new ≡ outcome_bytes (outcome_of outcome) }
{
    let stop = outcome.stop;
    let threads = outcome.threads;
    *out = [0u8; 40];
    write_head(out, stop, outcome.picks, outcome.moves, outcome.records);
    for number in 0..8 {
        let thread = threads[number];
        let state = thread.state;
        let bytes = thread_bytes(state);
        out[8 + 4 * number] = bytes.state;
        out[9 + 4 * number] = bytes.named;
        out[10 + 4 * number] = bytes.field;
        out[11 + 4 * number] = thread.learnt;
    }
}

// 0 and the 40 bytes of a run; or the refusal, and no byte changed.
pub fn write_play<R: Numbered>(out: &mut [u8; 40], played: Played<R>) -> u64
    requires { SmallPlayed (play_by R.told played) }
    ensures number { result ≡ play_number (play_by R.told played) }
    ensures bytes { out.new ≡ out_after out.old (play_by R.told played) }
{
    let checked = played.checked;
    match checked {
        Ok(()) => {
            let outcome = played.outcome;
            write(out, outcome);
            0
        }
        Err(refused) => abi_convention::refusal(refused.number(), refused.place()),
    }
}
