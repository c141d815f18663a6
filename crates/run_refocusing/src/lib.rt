// Refocusing: steps until the redex that moves next is found. The frames of all threads lie in one lent array, three numbers to a frame, 33 places to a
// thread, of which the last is never part of the stack.
#![tactic(auto)]

ghost use Rattle.std.specs.Prelude.{◌≡◌, true, false, ◌<◌, ◌≤◌};
ghost use Rattle.run_lists.specs.Inner.Lists.{Right};
ghost use Rattle.run_refocusing.specs.Inner.Refocusing.{live_of, full_of, refocused_of, no_refocusing, refocusings_of, store_at, refocus_from, after_of};

use run_frames::frame::Frame;
use run_frames::refocusing::{Ready, Refocusing, Stage};
use run_frames::{frame, refocusing};

// The redex if refocusing found one, how deep it ended, and at which stage.
#[derive(Clone, Copy)]
pub struct Refocused {
    pub ready: Ready,
    pub depth: usize,
    pub stage: Stage,
}

// Where a refocusing starts: the place of the thread's first frame, how deep it stands, and its stage.
#[derive(Clone, Copy)]
pub struct Way {
    pub base: usize,
    pub depth: usize,
    pub go: Refocusing,
}

// The last of one or two refocusings, and the one before it, if there are two.
#[derive(Clone, Copy)]
pub struct Refocusings {
    pub before: Refocused,
    pub last: Refocused,
}

fn ends(before: Refocused, last: Refocused) -> Refocusings
    ensures { result ≡ refocusings_of before last }
{
    Refocusings { before, last }
}

pub fn end_at(go: Refocusing, depth: usize) -> Refocused
    ensures { result ≡ refocused_of go depth }
{
    Refocused {
        ready: refocusing::ready_in(go),
        depth,
        stage: go.stage,
    }
}

// No refocusing before the first.
fn no_refocusing() -> Refocused
    ensures { result ≡ no_refocusing }
{
    end_at(refocusing::full(), 0)
}

// Whether refocusing goes on.
fn live(go: Refocusing) -> bool
    ensures { result ≡ live_of go }
{
    !matches!(go.stage, Stage::At | Stage::Full)
}

// Whether there was no room.
pub fn full(refocused: Refocused) -> bool
    ensures { result ≡ full_of refocused }
{
    matches!(refocused.stage, Stage::Full)
}

// The store of a frame.
fn store(stack: &mut [usize; 891], place: usize, frame: Frame)
    requires { place < 297 }
    ensures { stack.new ≡ store_at stack.old place frame }
{
    let packed = frame::pack(frame);
    let at = place * 3;
    stack[at] = packed.top;
    stack[at + 1] = packed.environment;
    stack[at + 2] = packed.arguments;
}

// Steps until the redex that moves next is found, or there is no room; then, of a fork whose mover has room, the same from the second way. A refocusing has
// fewer than 2,100 steps. Both go through one loop, so that a step has one caller, and the loop with it. Where a refocusing ends, two tests are faster than one
// of both.
pub fn refocus(
    words: &[usize; 1024],
    roots: &[usize; 32],
    lists: &mut [usize; 32],
    stack: &mut [usize; 891],
    first: Way,
    second: Way,
    forks: bool,
) -> Refocusings
    requires { (first.base ≤ 264) × (first.depth ≤ 32) × (second.base ≤ 264) × (second.depth ≤ 32) × Right words.now lists.old }
    ensures result_value { (record { stack = stack.exit.now; refocusings = result }) ≡ after_of words.now roots.now forks second
        no_refocusing (refocus_from words.now roots.now first stack.entry.now) }
    ensures depth_bound { (result.before.depth ≤ 32) × (result.last.depth ≤ 32) }
    ensures right { Right words.now lists.new }
{
    let mut base = first.base;
    let mut go = first.go;
    let mut depth = first.depth;
    let mut more = forks;
    let mut before = no_refocusing();
    let mut left: usize = 2100;
    while 0 < left {
        if !live(go) {
            let ended = end_at(go, depth);
            if !more {
                return ends(before, ended);
            }
            if full(ended) {
                return ends(before, ended);
            }
            before = ended;
            base = second.base;
            go = second.go;
            depth = second.depth;
            more = false;
            left = 2100;
            continue;
        }
        let stepped = run_refocusing_step::step(words, roots, lists, stack, base, go, depth, left);
        let turn = stepped.turn;
        let pushed = turn.frame;
        if turn.at < turn.depth {
            store(stack, base + turn.at, pushed);
        }
        go = turn.go;
        depth = turn.depth;
        left = stepped.left - 1;
    }
    ends(before, end_at(refocusing::full(), depth))
}
