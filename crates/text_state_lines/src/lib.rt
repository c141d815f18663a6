// The states of a run's threads in words: a line to each thread that is there.
#![tactic(auto)]

ghost use Rattle.std.specs.Prelude.{◌≡◌, ◌+◌, ◌≤◌, length};
ghost use Rattle.answers.specs.Answer.{answered};
ghost use Rattle.play.specs.Answer.{status_of};
ghost use Rattle.text.specs.Inner.Wrote.{Wrote};
ghost use Rattle.text_state_lines.specs.Lines.{present_line, state_line};
ghost use Rattle.text_state_lines.specs.Told.{StatesTold};
ghost use Rattle.text_state_lines.specs.Inner.Threads.{not_there, thread_lines};

use refusals::Refusal;
use run_outcome::{Thread, ThreadState};

// The line of a thread that is there, with its total: at most 163 bytes.
fn put_present(area: &mut [u8], at: usize, index: usize, state: ThreadState, learnt: usize) -> usize
    requires { at + 163 ≤ length area.old }
    ensures wrote { Wrote area.old at (present_line index (status_of state) learnt) area.new result }
    ensures within { result ≤ at + 163 }
{
    let at = text_phrases::put_phrase(area, at, b"thread ", index);
    let at = text_status_words::put_status(area, at, state);
    let at = text_phrases::put_phrase(area, at, b"; keys learnt: ", learnt);
    text::put_byte(area, at, 10)
}

// A thread that is not there.
fn absent(state: ThreadState) -> bool
    ensures { result ≡ not_there state }
{
    matches!(state, ThreadState::Absent)
}

// The line of a thread, if it is there.
fn put_thread(area: &mut [u8], at: usize, index: usize, thread: Thread) -> usize
    requires { at + 163 ≤ length area.old }
    ensures wrote { Wrote area.old at (state_line index (status_of thread.state) thread.learnt) area.new result }
    ensures within { result ≤ at + 163 }
{
    let state = thread.state;
    if absent(state) {
        return at;
    }
    put_present(area, at, index, state, thread.learnt as usize)
}

// A line to each of eight threads that is there.
fn put_threads(area: &mut [u8], threads: [Thread; 8]) -> usize
    requires { (2048 ≤ length area.old) × (length threads ≡ 8) }
    ensures { Wrote area.old 0 (thread_lines 0 threads) area.new result }
{
    let mut at = 0;
    for index in 0..8 {
        let thread = threads[index];
        at = put_thread(area, at, index, thread);
    }
    at
}

// Every plan and schedule gets the states of the threads after its play at the start of an area of 2,048 bytes or more, and the text's length; or a refusal
// of number 1 to 9.
pub fn states_text(plan: &[u8], schedule: &[u8], area: &mut [u8]) -> Result<usize, Refusal>
    ensures { StatesTold plan.now schedule.now area.old (answered result) area.new }
{
    if area.len() < 2048 {
        return Ok(0);
    }
    let mut log = [0u8; 12288];
    let played = play::play(plan, schedule, &mut log);
    played.checked?;
    let outcome = played.outcome;
    Ok(put_threads(area, outcome.threads))
}
