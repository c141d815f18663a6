// The turns of a token, a slot, a procedure, its arguments, and fields.
ghost use Rattle.std.specs.Prelude.{◌<◌, ◌≤◌};
ghost use Rattle.plan_parser.specs.Inner.Stacks.{Entries};
ghost use Rattle.plan_parser.specs.Inner.Turning.{Ready, TurnsAny, TurnedAny};

use crate::stacks;
use crate::turns::{Standing, Turn, go, go_on, stop};
use byte_numbers::wide;

// This token.
pub fn expect(
    tokens: &[u8],
    goals: &mut [u16],
    values: &mut [usize],
    standing: Standing,
    code: usize,
) -> Turn
    requires { Ready goals.old values.old standing code × (code < 69) }
    ensures { TurnsAny tokens.now goals.old values.old goals.new values.new standing result }
{
    if stacks::token(tokens, standing.at) == code {
        return Ok(go(goals, values, standing, 1, 0, 0, 0));
    }
    stop(standing, code)
}

// A slot, or `-`.
pub fn binder(tokens: &[u8], goals: &mut [u16], values: &mut [usize], standing: Standing) -> Turn
    requires { Ready goals.old values.old standing 192 }
    ensures { TurnsAny tokens.now goals.old values.old goals.new values.new standing result }
{
    let token = stacks::token(tokens, standing.at);
    if token < 8 {
        return Ok(go(goals, values, standing, 1, 0, 0, 1024 + token));
    }
    if token == 68 {
        return Ok(go(goals, values, standing, 1, 0, 0, 1039));
    }
    stop(standing, 192)
}

// How many parameters a procedure has.
pub fn count(
    tokens: &[u8],
    goals: &mut [u16],
    values: &mut [usize],
    standing: Standing,
    code: usize,
) -> Turn
    requires { Ready goals.old values.old standing code × (194 ≤ code) × (code < 256) }
    ensures { TurnsAny tokens.now goals.old values.old goals.new values.new standing result }
{
    let token = stacks::token(tokens, standing.at);
    if token < 9 {
        return Ok(go(goals, values, standing, 1, 0, 0, 1024 + token));
    }
    stop(standing, code)
}

// The number of a procedure, which leaves goals for its arguments.
pub fn procedure(
    tokens: &[u8],
    counts: &[u8],
    goals: &mut [u16],
    values: &mut [usize],
    standing: Standing,
) -> Turn
    requires { Ready goals.old values.old standing 193 }
    ensures { TurnedAny tokens.now counts.now goals.old values.old goals.new values.new
        standing result }
{
    let token = stacks::token(tokens, standing.at);
    if 31 < token {
        return stop(standing, 193);
    }
    if counts.len() <= token {
        return stop(standing, 193);
    }
    let parameters = wide(counts[token]);
    if parameters == 0 {
        return Ok(go(goals, values, standing, 1, 145, 63551, 1024 + token));
    }
    Ok(go_on(
        goals,
        values,
        standing,
        1,
        144,
        639 + parameters,
        63649,
        0,
        1024 + token,
    ))
}

// Behind an argument.
pub fn further(
    tokens: &[u8],
    goals: &mut [u16],
    values: &mut [usize],
    standing: Standing,
    code: usize,
) -> Turn
    requires { Ready goals.old values.old standing code × (640 ≤ code) × (code < 896) }
    ensures { TurnsAny tokens.now goals.old values.old goals.new values.new standing result }
{
    let token = stacks::token(tokens, standing.at);
    if code == 640 {
        if token == 63 {
            return Ok(go(goals, values, standing, 1, 145, 0, 0));
        }
        return stop(standing, code);
    }
    if token == 64 {
        return Ok(go_on(goals, values, standing, 1, 144, code - 1, 161, 0, 0));
    }
    stop(standing, code)
}

// A field into the mask that was read last, or the end of the fields.
pub fn fields(
    tokens: &[u8],
    goals: &mut [u16],
    values: &mut [usize],
    standing: Standing,
    code: usize,
) -> Turn
    requires { Ready goals.old values.old standing code × (256 ≤ code) × (code < 640) × Entries 0 values.old standing.values }
    ensures { TurnsAny tokens.now goals.old values.old goals.new values.new standing result }
{
    let token = stacks::token(tokens, standing.at);
    let least = (code - 256) % 32;
    if token == 63 {
        return Ok(go(goals, values, standing, 1, 0, 0, 0));
    }
    if code < 288 {
        return stop(standing, code);
    }
    if token <= least {
        return stop(standing, code);
    }
    if 31 < token {
        return stop(standing, code);
    }
    let mask = stacks::number(stacks::last(values, standing.values));
    let kept = code - 32 - least + token;
    let value = 1024 + (mask + (1usize << (31 - token))) % 4294967296;
    Ok(go_on(goals, values, standing, 1, kept, 0, 0, 1, value))
}
