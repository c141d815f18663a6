// The arrays of goals and of values.
ghost use Rattle.std.specs.Prelude.{◌≡◌, cond, ◌<◌, ◌≤◌, ◌+◌, ◌-◌, ◌*◌, ◌/◌, ◌%◌, ltb, length, get_or, ◌++◌};
ghost use Rattle.plan_parsing.specs.Plan.{procedure_goals};
ghost use Rattle.plan_parser_goals.specs.Inner.Encoded.{value_of, value_sort, stacked, unpacked};
ghost use Rattle.plan_parser.specs.Inner.Stacks.{Stacked, Put, last_of, operand_at};

use byte_numbers::wide;

// A goal on the others; 0 is none.
fn stack(goals: &mut [u16], top: usize, code: usize) -> usize
    requires { (top < length goals.old) × (length goals.old ≤ 8408) × (code < 1024) }
    ensures { Stacked (stacked code) goals.old top goals.new result × (result ≤ top + 1) × (result ≤ top + code) }
{
    if code == 0 {
        return top;
    }
    goals[top] = (code % 65536) as u16;
    top + 1
}

// The goals of six digits on the others.
fn stack_digits(goals: &mut [u16], top: usize, digits: usize) -> usize
    requires { (top + 6 < length goals.old) × (length goals.old ≤ 8408) }
    ensures { Stacked (unpacked digits) goals.old top goals.new result × (result ≤ top + 6) × (result ≤ top + 6 * digits) }
{
    let first = stack(goals, top, digits % 1024);
    let second = stack(goals, first, digits / 1024 % 1024);
    let third = stack(goals, second, digits / 1048576 % 1024);
    let fourth = stack(goals, third, digits / 1073741824 % 1024);
    let fifth = stack(goals, fourth, digits / 1099511627776 % 1024);
    stack(goals, fifth, digits / 1125899906842624 % 1024)
}

// The goals of a move on the others.
pub fn stack_all(goals: &mut [u16], top: usize, kept: usize, next: usize, digits: usize) -> usize
    requires { (top + 8 < length goals.old) × (length goals.old ≤ 8408) × (kept < 1024) × (next < 1024) }
    ensures stacked { Stacked (λ gs. unpacked digits (stacked next (stacked kept gs))) goals.old top goals.new result }
    ensures upper_bound { (result ≤ top + 8) × (result ≤ top + kept + next + 6 * digits) }
{
    let first = stack(goals, top, kept);
    let second = stack(goals, first, next);
    stack_digits(goals, second, digits)
}

fn half(code: u16) -> usize
    ensures { (result ≡ code) × (result < 65536) }
{
    code as usize
}

// The goal at a place.
pub fn goal(goals: &[u16], place: usize) -> usize
    requires { place < length goals.now }
    ensures { result ≡ get_or goals.now place 0 }
{
    half(goals[place])
}

// The goals of the procedure of this number.
pub fn begin(goals: &mut [u16], number: usize) -> usize
    requires { (number < 32) × (16 ≤ length goals.old) × (length goals.old ≤ 8408) }
    ensures { Stacked (λ gs. procedure_goals number ++ gs) goals.old 0 goals.new result × (result ≤ 7) }
{
    let body = stack(goals, 0, 161);
    if number == 0 {
        return body;
    }
    let equals = stack(goals, body, 66);
    let closing = stack(goals, equals, 63);
    let count = stack(goals, closing, 194);
    let opening = stack(goals, count, 62);
    let own = stack(goals, opening, number);
    stack(goals, own, 42)
}

// A value in place of so many; 0 is none.
pub fn put(values: &mut [usize], top: usize, popped: usize, value: usize) -> usize
    requires top_in_bounds { (top < length values.old) × (length values.old ≤ 3108) × (popped ≤ 1) }
    requires value_bound { (1024 - value ≤ 1024 * (1 - value)) × (value < 1024 + 4294967296) }
    ensures { Put popped value values.old top values.new result }
{
    if top < popped {
        if value == 0 {
            return 0;
        }
        values[0] = value;
        return 1;
    }
    let rest = top - popped;
    if value == 0 {
        return rest;
    }
    values[rest] = value;
    rest + 1
}

// The token at a place, or the end of the text.
pub fn token(tokens: &[u8], at: usize) -> usize
    ensures { (result ≡ get_or tokens.now at 69) × (69 ≤ result + 69 * (length tokens.now - at)) }
{
    if tokens.len() <= at {
        return 69;
    }
    wide(tokens[at])
}

// The sort of a value.
pub fn sort(words: &[usize], value: usize) -> usize
    ensures { result ≡ value_sort (value_of words.now value) }
{
    if 1023 < value {
        return 0;
    }
    let tag = plan_operands::tag(plan_words::word(words, value));
    if tag < 12 {
        return 1;
    }
    if tag < 16 {
        return 2;
    }
    if tag < 18 {
        return 3;
    }
    1
}

// The value that was read last.
pub fn last(values: &[usize], top: usize) -> usize
    requires { top ≤ length values.now }
    ensures { result ≡ last_of values.now top }
{
    if top == 0 {
        return 1024;
    }
    values[top - 1]
}

// The number that a value is; a term is taken for 0.
pub fn number(value: usize) -> usize
    ensures { result ≡ cond (ltb value 1024) 0 (value - 1024) }
{
    if value < 1024 {
        return 0;
    }
    value - 1024
}

// The number of an operand that is so far down, from 1; 0 is none.
pub fn operand(values: &[usize], top: usize, back: usize) -> usize
    requires { (back ≤ top) × (top ≤ length values.now) }
    ensures { result ≡ operand_at values.now top back }
{
    if back == 0 {
        return 0;
    }
    let value = values[top - back];
    if value < 1024 {
        return value;
    }
    value - 1024
}
