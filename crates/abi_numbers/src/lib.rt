// An answer as one number, by the convention. The judge's and next_interleaving's refusals are of any type that tells its number and its place.
#![tactic(auto)]

ghost use Rattle.std.specs.Prelude.{◌≡◌};
ghost use Rattle.read.specs.Answer as texts;
ghost use Rattle.abi_numbers.specs.Inner.Answered.{judge_by, next_by};
ghost use Rattle.abi_numbers.specs.Numbers.{judge_number, next_number, read_number};
ghost use Rattle.abi_numbers.specs.Inner.Small.{SmallJudged, SmallNext, SmallRead};

use abi_convention::{index, place, refusal};
use numbered_refusals::Numbered;
use read::ReadError;
use refusals::Reason;

// Of a judge's answer.
pub fn of_judge<R: Numbered>(judgement: Result<Option<usize>, R>) -> u64
    requires { SmallJudged (judge_by R.told judgement) }
    ensures { result ≡ judge_number (judge_by R.told judgement) }
{
    match judgement {
        Ok(None) => 0,
        Ok(Some(at)) => index(at),
        Err(refused) => refusal(refused.number(), refused.place()),
    }
}

// Of the answer of next_interleaving.
pub fn of_next<R: Numbered>(next: Result<Option<usize>, R>) -> u64
    requires { SmallNext (next_by R.told next) }
    ensures { result ≡ next_number (next_by R.told next) }
{
    match next {
        Ok(Some(length)) => length as u64,
        Ok(None) => 4294967296,
        Err(why) => refusal(why.number(), why.place()),
    }
}

// Of the answer of read.
pub fn of_read(answer: Result<usize, ReadError>) -> u64
    requires { SmallRead (texts.answered answer) }
    ensures { result ≡ read_number (texts.answered answer) }
{
    match answer {
        Ok(length) => length as u64,
        Err(ReadError::Short) => refusal(Reason::ReadArea.number(), 0),
        Err(
            ReadError::Failed {
                line,
                column,
                kind: _,
                reason: _,
            },
        ) => place(line, column),
    }
}
