// The 40 bits of a term, made of its old ones and of its children's new numbers, and their place in a plan. Spare bits are zero.
#![tactic(auto)]

ghost use Rattle.std.specs.Prelude.{◌≡◌, ◌+◌, ◌*◌, ◌^◌, ◌<◌, ◌≤◌, length};
ghost use Rattle.std.proofs.lemmas.List.Edits.{sets};
ghost use Rattle.plan_packed.specs.Inner.Operands.{tag_of, procedure_bits};
ghost use Rattle.plan_written.specs.Terms.{word_of};
ghost use Rattle.plan_written.specs.Written.{bytes_of};
ghost use Rattle.plan_packing.specs.Inner.Words.{leaf_word, one_word, two_word};

use plan_operands::tags;

// A term without children; any but a variable and a new is null.
pub fn leaf(word: usize) -> usize
    ensures { result ≡ leaf_word word }
{
    match plan_operands::tag(word) {
        tags::VARIABLE => tags::VARIABLE * plan_operands::TAG
            + plan_operands::slot_of(word) * plan_operands::SLOT,
        tags::NEW => tags::NEW * plan_operands::TAG
            + plan_operands::mask_of(word) * plan_operands::MASK,
        _ => 0,
    }
}

// A term with one child, which stands first.
pub fn one(word: usize, child: usize) -> usize
    requires { (tag_of word ≤ 20) × (child < 1024) }
    ensures { result ≡ one_word word child }
{
    let tag = plan_operands::tag(word);
    let head = tag * plan_operands::TAG + child * plan_operands::FIRST;
    if tag == tags::READ {
        return head + plan_operands::field_of(word) * plan_operands::FIELD;
    }
    head
}

// A term with two children.
pub fn two(word: usize, first: usize, second: usize) -> usize
    requires { (tag_of word ≤ 20) × (first < 1024) × (second < 1024) }
    ensures { result ≡ two_word word first second }
{
    let tag = plan_operands::tag(word);
    let head = tag * plan_operands::TAG;
    match tag {
        tags::WRITE => head
            + first * plan_operands::FIRST
            + plan_operands::field_of(word) * plan_operands::FIELD
            + second * plan_operands::WRITTEN,
        tags::LET => head
            + plan_operands::slot_of(word) * plan_operands::SLOT
            + first * plan_operands::VALUE
            + second * plan_operands::BODY,
        _ => head + first * plan_operands::FIRST + second * plan_operands::SECOND,
    }
}

// An if.
pub fn three(first: usize, second: usize, third: usize) -> usize
    requires { (first < 1024) × (second < 1024) × (third < 1024) }
    ensures { result ≡ word_of 6 first second third }
{
    tags::IF * plan_operands::TAG
        + first * plan_operands::FIRST
        + second * plan_operands::SECOND
        + third * plan_operands::THIRD
}

// A call.
pub fn call(word: usize, list: usize) -> usize
    requires { list < 1024 }
    ensures { result ≡ word_of 8 (procedure_bits word) list 0 }
{
    tags::CALL * plan_operands::TAG
        + plan_operands::procedure_of(word) * plan_operands::PROCEDURE
        + list * plan_operands::ARGUMENTS
}

// A number's last N bytes, the high one first.
pub fn put_bytes<const N: usize>(area: &mut [u8], at: usize, number: usize)
    requires in_bounds { at + N ≤ length area.old }
    requires few { N ≤ 8 }
    ensures { area.new ≡ sets area.old at (bytes_of N number) }
{
    for place in 0..N {
        let after = 8 * (N - 1 - place);
        area[at + place] = ((number >> after) % 256) as u8;
    }
}

// The five bytes of a term.
pub fn put(area: &mut [u8], at: usize, word: usize)
    requires { at + 5 ≤ length area.old }
    ensures { area.new ≡ sets area.old at (bytes_of 5 word) }
{
    put_bytes::<5>(area, at, word)
}
