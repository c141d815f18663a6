// The turn of an operand: a variable, a form that begins with a word, or what stands in parentheses.
ghost use Rattle.std.specs.Prelude.{◌≡◌, ◌<◌, ◌≤◌, get_or};
ghost use Rattle.plan_parser.specs.Inner.Turning.{Ready, TurnsAny, FormOf, TakenBy, ValueOf, Misplaced};

use crate::turns::{Standing, Turn, go, stop};
use crate::{forms, stacks};

// The form of a word, `true` to `notify`; `notify all` is the last.
fn form_of(token: usize, second: usize) -> usize
    requires { (49 ≤ token) × (token < 62) }
    ensures { FormOf token second result }
{
    if token != 61 {
        return token - 49;
    }
    if second == 47 {
        return 13;
    }
    12
}

// How many tokens its words are.
fn taken_by(form: usize) -> usize
    ensures { TakenBy form result }
{
    if form == 13 {
        return 2;
    }
    1
}

// The value that it begins with, `new` without fields; 0 is none.
fn value_of(form: usize) -> usize
    ensures { ValueOf form result }
{
    if form == 3 {
        return 1024;
    }
    0
}

// It is a condition, and an expression is asked for.
fn misplaced(form: usize, code: usize) -> bool
    requires { 160 ≤ code }
    ensures { Misplaced form code result }
{
    if 1 < form {
        return false;
    }
    (code - 160) % 3 == 1
}

// A form that begins with a word, where it binds as tightly as is asked for.
fn word(
    tokens: &[u8],
    goals: &mut [u16],
    values: &mut [usize],
    standing: Standing,
    code: usize,
    token: usize,
) -> Turn
    requires ready { Ready goals.old values.old standing code × (160 ≤ code) × (code < 176) }
    requires token_value { (token ≡ get_or tokens.now standing.at 69) × (49 ≤ token) × (token < 62) }
    ensures { TurnsAny tokens.now goals.old values.old goals.new values.new standing result }
{
    let form = form_of(token, stacks::token(tokens, standing.at + 1));
    if forms::binding(form) < (code - 160) / 3 {
        return stop(standing, code);
    }
    if misplaced(form, code) {
        return stop(standing, code);
    }
    let taken = taken_by(form);
    let value = value_of(form);
    Ok(go(
        goals,
        values,
        standing,
        taken,
        code + 16,
        forms::goals(form),
        value,
    ))
}

// An operand.
pub fn operand(
    tokens: &[u8],
    goals: &mut [u16],
    values: &mut [usize],
    standing: Standing,
    code: usize,
) -> Turn
    requires { Ready goals.old values.old standing code × (160 ≤ code) × (code < 176) }
    ensures { TurnsAny tokens.now goals.old values.old goals.new values.new standing result }
{
    let token = stacks::token(tokens, standing.at);
    if token < 32 {
        return stop(standing, code);
    }
    if token < 40 {
        return Ok(go(goals, values, standing, 1, code + 16, 129, 992 + token));
    }
    if token < 49 {
        return stop(standing, code);
    }
    if token < 62 {
        return word(tokens, goals, values, standing, code, token);
    }
    if token != 62 {
        return stop(standing, code);
    }
    if (code - 160) % 3 == 1 {
        return Ok(go(goals, values, standing, 1, code + 16, 164927, 0));
    }
    Ok(go(goals, values, standing, 1, code + 16, 163903, 0))
}
