// The 40 bits of a term, made of its tag and its operands. Spare bits are zero.
#![tactic(auto)]

ghost use Rattle.std.specs.Prelude.{◌≡◌, ◌<◌, ◌^◌};
ghost use Rattle.plan_packed.specs.Format.{width, layout};
ghost use Rattle.plan_written.specs.Terms.{word_of};

use plan_operands::tags;

// The tag, then the operands of its row of the table; an operand that the row has not is 0.
pub fn word(tag: usize, first: usize, second: usize, third: usize) -> usize
    requires { (tag < 21) × (first < 2 ^ width (layout tag).first) × (second < 2 ^ width (layout tag).second) × (third < 2 ^ width (layout tag).third) }
    ensures { result ≡ word_of tag first second third }
{
    let head = tag * plan_operands::TAG;
    match tag {
        tags::VARIABLE => head + first % 16 * plan_operands::SLOT,
        tags::NEW => head + first % 4294967296 * plan_operands::MASK,
        tags::READ => head
            + first % 1024 * plan_operands::FIRST
            + second % 32 * plan_operands::FIELD,
        tags::WRITE => head
            + first % 1024 * plan_operands::FIRST
            + second % 32 * plan_operands::FIELD
            + third % 1024 * plan_operands::WRITTEN,
        tags::LET => head
            + first % 16 * plan_operands::SLOT
            + second % 1024 * plan_operands::VALUE
            + third % 1024 * plan_operands::BODY,
        tags::CALL => head
            + first % 32 * plan_operands::PROCEDURE
            + second % 1024 * plan_operands::ARGUMENTS,
        _ => head
            + first % 1024 * plan_operands::FIRST
            + second % 1024 * plan_operands::SECOND
            + third % 1024 * plan_operands::THIRD,
    }
}
