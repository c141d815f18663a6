// The parts of a term's 40 bits: the tag, then the operands of the table, then spare bits. Check 7 and the run, which know what a term means, take it apart by
// the functions here; checks 4 to 6 take a tag's operands from its row.
#![tactic(auto)]

pub mod rows; // rows.rt: the operands of each tag
pub mod tags; // tags.rt: the tags by name

ghost use Rattle.std.specs.Prelude.{◌≡◌};
ghost use Rattle.plan_packed.specs.Inner.Operands.{tag_of, first_of, second_of, third_of, slot_bits, field_bits, write_second, let_first, let_second, procedure_bits};
ghost use Rattle.plan_packed.specs.Inner.Operands.{list_bits, mask_bits};

// The power of two that is the place of a part's last bit: a part is a quotient by it.
pub const TAG: usize = 34359738368;

pub const FIRST: usize = 33554432; // a term as the first operand

pub const SECOND: usize = 32768; // a term after a term

pub const THIRD: usize = 32; // a term after two

pub const SLOT: usize = 2147483648;

pub const VALUE: usize = 2097152; // the term after a let's slot

pub const BODY: usize = 2048; // the term after that

pub const FIELD: usize = 1048576; // the field after a term

pub const WRITTEN: usize = 1024; // the term after that

pub const PROCEDURE: usize = 1073741824;

pub const ARGUMENTS: usize = 1048576; // the list after a procedure

pub const MASK: usize = 8;

pub fn tag(word: usize) -> usize
    ensures { result ≡ tag_of word }
{
    word / TAG
}

// A child that stands first, second or third among 10-bit operands.
pub fn first(word: usize) -> usize
    ensures { result ≡ first_of word }
{
    word / FIRST % 1024
}

pub fn second(word: usize) -> usize
    ensures { result ≡ second_of word }
{
    word / SECOND % 1024
}

pub fn third(word: usize) -> usize
    ensures { result ≡ third_of word }
{
    word / THIRD % 1024
}

// The slot of a variable or a let.
pub fn slot_of(word: usize) -> usize
    ensures { result ≡ slot_bits word }
{
    word / SLOT % 16
}

// A let's first and second operand.
pub fn let_first(word: usize) -> usize
    ensures { result ≡ let_first word }
{
    word / VALUE % 1024
}

pub fn let_second(word: usize) -> usize
    ensures { result ≡ let_second word }
{
    word / BODY % 1024
}

// The field of a read or write.
pub fn field_of(word: usize) -> usize
    ensures { result ≡ field_bits word }
{
    word / FIELD % 32
}

// A write's value.
pub fn write_second(word: usize) -> usize
    ensures { result ≡ write_second word }
{
    word / WRITTEN % 1024
}

// A call's procedure and list.
pub fn procedure_of(word: usize) -> usize
    ensures { result ≡ procedure_bits word }
{
    word / PROCEDURE % 32
}

pub fn list_of(word: usize) -> usize
    ensures { result ≡ list_bits word }
{
    word / ARGUMENTS % 1024
}

// The fields of a `new`.
pub fn mask_of(word: usize) -> usize
    ensures { result ≡ mask_bits word }
{
    word / MASK % 4294967296
}
