// The turn behind an operand: a field, `:=`, `=`, `and`, or the end of what was asked for.
ghost use Rattle.std.specs.Prelude.{◌≡◌, ◌<◌, ◌≤◌, get_or};
ghost use Rattle.plan_parser.specs.Inner.Turning.{Ready, Turns, TurnsBehind, Ending};

use crate::stacks;
use crate::turns::{Halt, Standing, Turn, go, stop};

// The stop where there is no field behind `.`.
const NO_FIELD: usize = 1002;

// Behind an expression `.`: a field, and `:=` where no tighter binding is asked for.
fn dot(
    tokens: &[u8],
    goals: &mut [u16],
    values: &mut [usize],
    standing: Standing,
    code: usize,
) -> Turn
    requires ready { Ready goals.old values.old standing code × (176 ≤ code) × (code < 192) }
    requires at_value { get_or tokens.now standing.at 69 ≡ 65 }
    ensures { TurnsBehind 1 tokens.now goals.old values.old goals.new values.new standing result }
{
    let field = stacks::token(tokens, standing.at + 1);
    if field == 0 {
        return Err(Halt {
            reason: NO_FIELD,
            at: standing.at + 1,
        });
    }
    if 31 < field {
        return Err(Halt {
            reason: NO_FIELD,
            at: standing.at + 1,
        });
    }
    if code > 178 {
        return Ok(go(goals, values, standing, 2, code, 131, 1024 + field));
    }
    if stacks::token(tokens, standing.at + 2) == 67 {
        return Ok(go(goals, values, standing, 3, code, 164996, 1024 + field));
    }
    Ok(go(goals, values, standing, 2, code, 131, 1024 + field))
}

// Nothing follows a value, which is of the sort that is asked for, or not.
fn end(
    goals: &mut [u16],
    values: &mut [usize],
    standing: Standing,
    code: usize,
    sort: usize,
) -> Turn
    requires { Ready goals.old values.old standing code × (176 ≤ code) × (code < 192) × (1 ≤ sort) × (sort ≤ 2) }
    ensures { Ending goals.old values.old standing code sort goals.new values.new result }
{
    let asked = (code - 176) % 3;
    if asked == 0 {
        return Ok(go(goals, values, standing, 0, 0, 0, 0));
    }
    if asked == sort {
        return Ok(go(goals, values, standing, 0, 0, 0, 0));
    }
    stop(standing, code)
}

// What may follow an expression.
fn behind_expression(
    tokens: &[u8],
    goals: &mut [u16],
    values: &mut [usize],
    standing: Standing,
    code: usize,
) -> Turn
    requires { Ready goals.old values.old standing code × (176 ≤ code) × (code < 192) }
    ensures { TurnsBehind 1 tokens.now goals.old values.old goals.new values.new standing result }
{
    let token = stacks::token(tokens, standing.at);
    if token == 65 {
        return dot(tokens, goals, values, standing, code);
    }
    if token != 66 {
        return end(goals, values, standing, code, 1);
    }
    if 181 < code {
        return end(goals, values, standing, code, 1);
    }
    if (code - 176) % 3 == 1 {
        return end(goals, values, standing, code, 1);
    }
    Ok(go(goals, values, standing, 1, code, 171151, 0))
}

// What may follow a condition.
fn behind_condition(
    tokens: &[u8],
    goals: &mut [u16],
    values: &mut [usize],
    standing: Standing,
    code: usize,
) -> Turn
    requires { Ready goals.old values.old standing code × (176 ≤ code) × (code < 192) }
    ensures { TurnsBehind 2 tokens.now goals.old values.old goals.new values.new standing result }
{
    if stacks::token(tokens, standing.at) != 48 {
        return end(goals, values, standing, code, 2);
    }
    if 178 < code {
        return end(goals, values, standing, code, 2);
    }
    Ok(go(goals, values, standing, 1, code, 166030, 0))
}

// What may follow an operand.
pub fn more(
    tokens: &[u8],
    goals: &mut [u16],
    values: &mut [usize],
    words: &[usize],
    standing: Standing,
    code: usize,
) -> Turn
    requires { Ready goals.old values.old standing code × (176 ≤ code) × (code < 192) }
    ensures { Turns tokens.now goals.old values.old words.now goals.new
        values.new words.now standing result }
{
    let sort = stacks::sort(words, stacks::last(values, standing.values));
    if sort == 1 {
        return behind_expression(tokens, goals, values, standing, code);
    }
    if sort == 2 {
        return behind_condition(tokens, goals, values, standing, code);
    }
    stop(standing, code)
}
