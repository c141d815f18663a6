// What a thread's next pick would meet, in words behind the thread's name.
#![tactic(auto)]

ghost use Rattle.std.specs.Prelude.{◌+◌, ◌≤◌, length};
ghost use Rattle.play.specs.Answer.{wait_of, stuck_of, status_of};
ghost use Rattle.text.specs.Inner.Wrote.{Wrote};
ghost use Rattle.text_status_words.specs.Words.{wait_words, stuck_words, status_words};

use run_outcome::{Stuck, ThreadState, Wait};
use text_phrase_pairs::put_two;

// What a waiting thread waits for.
fn put_wait(area: &mut [u8], at: usize, wait: Wait) -> usize
    requires { at + 100 ≤ length area.old }
    ensures wrote { Wrote area.old at (wait_words (wait_of wait)) area.new result }
    ensures within { result ≤ at + 100 }
{
    match wait {
        Wait::Monitor { object } => {
            text_phrases::put_phrase(area, at, b" waits for the monitor of object ", object)
        }
        Wait::Join { object } => {
            text_phrases::put_phrase(
                area,
                at,
                b" waits for the end of the thread of object ",
                object,
            )
        }
        Wait::Notify { object } => {
            text_phrases::put_phrase(area, at, b" waits to be notified on object ", object)
        }
    }
}

// Why a thread is stuck.
fn put_stuck(area: &mut [u8], at: usize, stuck: Stuck) -> usize
    requires { at + 100 ≤ length area.old }
    ensures wrote { Wrote area.old at (stuck_words (stuck_of stuck)) area.new result }
    ensures within { result ≤ at + 100 }
{
    match stuck {
        Stuck::Field { object, field } => put_two(
            area,
            at,
            b" is stuck: field ",
            field,
            b" is missing from object ",
            object,
        ),
        Stuck::Thread { object } => {
            text_phrases::put_phrase(
                area,
                at,
                b" is stuck: there is no thread of object ",
                object,
            )
        }
        Stuck::Monitor { object } => text_phrases::put_phrase(
            area,
            at,
            b" is stuck: it does not hold the monitor of object ",
            object,
        ),
        Stuck::NoRule => text::put_word(area, at, b" is stuck: no rule"),
    }
}

// Any state: at most 100 bytes.
pub fn put_status(area: &mut [u8], at: usize, state: ThreadState) -> usize
    requires { at + 100 ≤ length area.old }
    ensures wrote { Wrote area.old at (status_words (status_of state)) area.new result }
    ensures within { result ≤ at + 100 }
{
    match state {
        ThreadState::Absent => text::put_word(area, at, b" is absent"),
        ThreadState::Finished { value } => {
            text_phrases::put_phrase(area, at, b" finished with ", value)
        }
        ThreadState::Ready => text::put_word(area, at, b" is ready"),
        ThreadState::Waiting(wait) => put_wait(area, at, wait),
        ThreadState::Stuck(stuck) => put_stuck(area, at, stuck),
        ThreadState::Lacking { object, field } => put_two(
            area,
            at,
            b" lacks the key of field ",
            field,
            b" of object ",
            object,
        ),
    }
}
