// A turn: the goal on top is taken, and done.
ghost use Rattle.std.specs.Prelude.{Err, ◌≡◌, ◌<◌, ◌≤◌};
ghost use Rattle.plan_parser.specs.Inner.Making.{Makeable};
ghost use Rattle.plan_parser.specs.Inner.Reading.{State, Going, NoneLeft, Room, Went, WentWith, Turned};
ghost use Rattle.plan_parser.specs.Inner.Stacks.{Entries};
ghost use Rattle.plan_parser.specs.Inner.Turning.{Ready, MadeOr, TurnedAny};

use crate::{arguments, followers, operands, stacks, terms};

// Where reading stands: the next token's place, how many goals and values there are, how many terms are left to be made.
#[derive(Clone, Copy)]
pub struct Standing {
    pub at: usize,
    pub goals: usize,
    pub values: usize,
    pub left: usize,
}

// Why reading stops, and before the token at which place.
#[derive(Clone, Copy, Debug, PartialEq, Eq)]
pub struct Halt {
    pub reason: usize,
    pub at: usize,
}

// Where reading goes on, or why it stops.
pub type Turn = Result<Standing, Halt>;

// The goal on top gives way to those of a move.
pub fn go_on(
    goals: &mut [u16],
    values: &mut [usize],
    standing: Standing,
    taken: usize,
    kept: usize,
    next: usize,
    digits: usize,
    popped: usize,
    value: usize,
) -> Standing
    requires { Room goals.old values.old standing taken kept next popped value }
    ensures { Went goals.old values.old standing taken kept next digits popped value goals.new values.new result }
{
    let above = stacks::stack_all(goals, standing.goals - 1, kept, next, digits);
    let held = stacks::put(values, standing.values, popped, value);
    Standing {
        at: standing.at + taken,
        goals: above,
        values: held,
        left: standing.left,
    }
}

// The goal on top gives way to the term that it makes.
fn make_on(values: &mut [usize], words: &mut [usize], standing: Standing, tag: usize) -> Standing
    requires { Makeable words.old values.old standing.values standing.left tag × (0 < standing.goals) }
    ensures { WentWith words.old values.old standing tag words.new values.new result }
{
    let held = terms::make(values, words, standing.values, standing.left, tag);
    Standing {
        at: standing.at,
        goals: standing.goals - 1,
        values: held,
        left: standing.left - 1,
    }
}

// The same, without a value less and without an argument's goal.
pub fn go(
    goals: &mut [u16],
    values: &mut [usize],
    standing: Standing,
    taken: usize,
    kept: usize,
    digits: usize,
    value: usize,
) -> Standing
    requires { Room goals.old values.old standing taken kept 0 0 value }
    ensures { Went goals.old values.old standing taken kept 0 digits 0 value goals.new values.new result }
{
    go_on(goals, values, standing, taken, kept, 0, digits, 0, value)
}

// What was to be read is not there.
pub fn stop(standing: Standing, code: usize) -> Turn
    ensures { result ≡ Err (record { reason = code; at = standing.at }) }
{
    Err(Halt {
        reason: code,
        at: standing.at,
    })
}

// The stop where a plan has no more terms.
const NO_TERMS: usize = 1000;

// A term is made, where one is left.
fn make(values: &mut [usize], words: &mut [usize], standing: Standing, tag: usize) -> Turn
    requires { (0 < standing.goals) × (0 < standing.left → Makeable words.old values.old standing.values standing.left tag) }
    ensures { MadeOr words.old values.old standing tag words.new values.new result }
{
    if standing.left == 0 {
        return stop(standing, NO_TERMS);
    }
    Ok(make_on(values, words, standing, tag))
}

// A slot, a procedure, a count, fields, and what stands behind an argument.
fn rest(
    tokens: &[u8],
    counts: &[u8],
    goals: &mut [u16],
    values: &mut [usize],
    standing: Standing,
    code: usize,
) -> Turn
    requires { Ready goals.old values.old standing code × (192 ≤ code) × (code < 896) × Entries 0 values.old standing.values }
    ensures { TurnedAny tokens.now counts.now goals.old values.old goals.new values.new
        standing result }
{
    if code == 192 {
        return arguments::binder(tokens, goals, values, standing);
    }
    if code == 193 {
        return arguments::procedure(tokens, counts, goals, values, standing);
    }
    if code < 256 {
        return arguments::count(tokens, goals, values, standing, code);
    }
    if code < 640 {
        return arguments::fields(tokens, goals, values, standing, code);
    }
    arguments::further(tokens, goals, values, standing, code)
}

// The goal on top is taken, and done.
pub fn take(
    tokens: &[u8],
    counts: &[u8],
    goals: &mut [u16],
    values: &mut [usize],
    words: &mut [usize],
    standing: Standing,
) -> Turn
    requires { State tokens.now goals.old values.old words.old standing × Going goals.old values.old standing × NoneLeft words.old standing }
    ensures { Turned tokens.now counts.now goals.old values.old words.old
        goals.new values.new words.new standing result }
{
    let code = stacks::goal(goals, standing.goals - 1);
    if code < 128 {
        return arguments::expect(tokens, goals, values, standing, code);
    }
    if code < 160 {
        return make(values, words, standing, code - 128);
    }
    if code < 176 {
        return operands::operand(tokens, goals, values, standing, code);
    }
    if code < 192 {
        return followers::more(tokens, goals, values, words, standing, code);
    }
    rest(tokens, counts, goals, values, standing, code)
}
