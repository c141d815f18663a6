// Terms made of the values that were read last.
ghost use Rattle.std.specs.Prelude.{◌≡◌, ◌<◌, ◌≤◌, ◌-◌, get_or};
ghost use Rattle.plan_parsing.specs.Goals.{operand_counts};
ghost use Rattle.plan_parser.specs.Inner.Making.{Makeable, Makes};

use crate::stacks;

// How many operands a term has, by its tag. A match, for a constant array would be laid out anew in every call.
fn operand_count(tag: usize) -> usize
    requires { tag < 21 }
    ensures { result ≡ get_or operand_counts tag 0 }
{
    match tag {
        0 => 0,
        1 => 1,
        2 => 1,
        3 => 2,
        4 => 3,
        5 => 3,
        6 => 3,
        7 => 2,
        8 => 2,
        9 => 1,
        10 => 1,
        11 => 2,
        12 => 0,
        13 => 1,
        14 => 2,
        15 => 2,
        16 => 2,
        17 => 0,
        18 => 1,
        19 => 1,
        _ => 1,
    }
}

// The difference, or 0.
fn less(first: usize, second: usize) -> usize
    ensures { result ≡ first - second }
{
    if first < second {
        return 0;
    }
    first - second
}

// A term of a tag in place of its operands, with the next number below the terms that are there; how many values there are then.
pub fn make(values: &mut [usize], words: &mut [usize], top: usize, left: usize, tag: usize) -> usize
    requires { Makeable words.old values.old top left tag }
    ensures { Makes words.old values.old top left tag words.new values.new result }
{
    let count = operand_count(tag);
    let first = stacks::operand(values, top, count);
    let second = stacks::operand(values, top, less(count, 1));
    let third = stacks::operand(values, top, less(count, 2));
    let place = left - 1;
    words[place] = plan_term_making::word(tag, first, second, third);
    let rest = top - count;
    values[rest] = place;
    rest + 1
}
