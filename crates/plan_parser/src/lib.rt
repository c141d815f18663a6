// An expression's tokens into terms, by a stack of goals.
#![tactic(auto)]

mod arguments; // arguments.rt: the turns of a token, a slot, a procedure, its arguments, and fields
mod followers; // followers.rt: the turn behind an operand
mod forms; // forms.rt: the forms that begin with a word
mod operands; // operands.rt: the turn of an operand
mod stacks; // stacks.rt: the arrays of goals and of values
mod terms; // terms.rt: terms made of values
pub mod turns; // turns.rt: the goal on top, done

ghost use Rattle.std.specs.Prelude.{◌≡◌, ◌<◌, ◌≤◌, ◌-◌, ◌&&◌, eqb, ltb, length, get_or, drop, [], ◌∷◌};
ghost use Rattle.plan_packed.specs.Inner.Steps.{Ordered};
ghost use Rattle.plan_parsing.specs.Goals as value;
ghost use Rattle.plan_parsing.specs.Parser.{parse};
ghost use Rattle.plan_parsing.specs.Plan.{procedure_goals};
ghost use Rattle.plan_parser.specs.Inner.Reading.{Sized, terms_left, State, Ran, read_from, crowded_by};

use turns::{Halt, Standing};

// An expression: its root, the parameters of its procedure, the terms that there is room for, and the next token's place.
#[derive(Clone, Copy, Debug, PartialEq, Eq)]
pub struct Parsed {
    pub root: usize,
    pub parameters: usize,
    pub left: usize,
    pub at: usize,
}

// The stop where goals or values are too many.
const TOO_DEEP: usize = 1001;

// Every goal is done: the expression is the last value, and the one before it the number of parameters.
fn ended(values: &[usize], standing: Standing) -> Parsed
    requires { (2 ≤ standing.values) × (standing.values ≤ length values.now) × (1024 ≤ get_or values.now (standing.values - 2) 0) }
    ensures { result ≡ record {
      root = get_or values.now (standing.values - 1) 0;
      parameters = get_or values.now (standing.values - 2) 0 - 1024;
      left = standing.left;
      at = standing.at;
    } }
{
    let count = standing.values;
    let root = values[count - 1];
    let parameters = values[count - 2] - 1024;
    Parsed {
        root,
        parameters,
        left: standing.left,
        at: standing.at,
    }
}

// Goals or values are more than there is room for: too many, or the arrays are short.
fn crowded(words: &[usize], at: usize) -> Option<Result<Parsed, Halt>>
    ensures { result ≡ crowded_by words.now at }
{
    if words.len() < 1024 {
        return None;
    }
    Some(Err(Halt {
        reason: TOO_DEEP,
        at,
    }))
}

// There is no room for a term, and a longer array would have some.
fn is_full(words: &[usize], left: usize) -> bool
    ensures { result ≡ (eqb left 0 && ltb (length words.now) 1024) }
{
    left == 0 && words.len() < 1024
}

// Goal after goal. There is no answer where the arrays are too short for this text, and not for every one.
fn run(
    tokens: &[u8],
    counts: &[u8],
    goals: &mut [u16],
    values: &mut [usize],
    words: &mut [usize],
    start: Standing,
) -> Option<Result<Parsed, Halt>>
    requires { State tokens.now goals.old values.old words.old start }
    ensures { Ran tokens.now words.old words.new start.left
        (read_from counts.now tokens.now goals.old values.old words.old start) result }
{
    let mut standing = start;
    while standing.goals != 0 {
        if goals.len() - 8 < standing.goals {
            return crowded(words, standing.at);
        }
        if values.len() - 8 < standing.values {
            return crowded(words, standing.at);
        }
        if is_full(words, standing.left) {
            return None;
        }
        match turns::take(tokens, counts, goals, values, words, standing) {
            Ok(next) => standing = next,
            Err(halt) => return Some(Err(halt)),
        }
    }
    Some(Ok(ended(values, standing)))
}

// The procedure of this number, from a token on: main is an expression, and any other has its heading before it. Or why reading stops, and
// before which token. There is no answer where the arrays are too short for this text, and not for every one. Goals and values are lent room.
pub fn procedure(
    tokens: &[u8],
    at: usize,
    number: usize,
    counts: &[u8],
    words: &mut [usize],
    left: usize,
    goals: &mut [u16],
    values: &mut [usize],
) -> Option<Result<Parsed, Halt>>
    requires { (length tokens.now ≤ 16384) × (at ≤ length tokens.now) × (number < 32) × (left ≤ length words.old) × Ordered words.old
        × Sized goals.old values.old words.old }
    ensures { Ran tokens.now words.old words.new left
        (parse counts.now (procedure_goals number) (value.number 0 ∷ []) (terms_left words.old left) (drop at tokens.now)) result }
{
    values[0] = 1024;
    let top = stacks::begin(goals, number);
    let start = Standing {
        at,
        goals: top,
        values: 1,
        left,
    };
    run(tokens, counts, goals, values, words, start)
}
