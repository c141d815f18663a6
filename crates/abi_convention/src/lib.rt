// What every entry for C and Rust returns: a number of 64 bits, whose upper half says which kind of answer it is. A refusal is of any type that
// tells its number and its place, so of any number.
#![tactic(auto)]

ghost use Rattle.std.specs.Prelude.{◌≡◌, ◌+◌, ◌*◌, ◌^◌, ◌≤◌, min};
ghost use Rattle.plan_refusals.specs.Inner.Small.{SmallCheck};
ghost use Rattle.numbered_refusals.specs.Inner.Answered.{check_by, tool_by};
ghost use Rattle.abi_convention.specs.Convention.{check_number, answer_number, place_number};
ghost use Rattle.abi_convention.specs.Inner.Small.{SmallNumber, SmallAnswer};

use numbered_refusals::Numbered;

// Of a refusal: 2 in the upper half.
pub fn refusal(number: usize, place: usize) -> u64
    requires { SmallNumber number place }
    ensures { result ≡ 2 * 2 ^ 32 + (number * 65536 + place) }
{
    8589934592 + (number as u64) * 65536 + place as u64
}

// Of an unordered access: 1 in the upper half.
pub fn index(index: usize) -> u64
    requires { index ≤ 4096 }
    ensures { result ≡ 2 ^ 32 + index }
{
    4294967296 + index as u64
}

// Of a check's answer.
pub fn of_check<R: Numbered>(checked: Result<(), R>) -> u64
    requires { SmallCheck (check_by R.told checked) }
    ensures { result ≡ check_number (check_by R.told checked) }
{
    match checked {
        Ok(()) => 0,
        Err(refused) => refusal(refused.number(), refused.place()),
    }
}

// Of a tool's answer.
pub fn of_answer<R: Numbered>(answered: Result<usize, R>) -> u64
    requires { SmallAnswer (tool_by R.told answered) }
    ensures { result ≡ answer_number (tool_by R.told answered) }
{
    match answered {
        Ok(value) => value as u64,
        Err(why) => refusal(why.number(), why.place()),
    }
}

// A line or a column, 65,535 where it is more.
fn clamped(number: usize) -> u64
    ensures { result ≡ min number 65535 }
{
    if number < 65535 { number as u64 } else { 65535 }
}

// Of the place where reading stops: 1 in the upper half.
pub fn place(line: usize, column: usize) -> u64
    ensures { result ≡ 2 ^ 32 + place_number line column }
{
    4294967296 + clamped(line) * 65536 + clamped(column)
}
