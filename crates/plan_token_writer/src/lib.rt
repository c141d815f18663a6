// The tokens of a tree, written by a stack of items: a token, or the tree at a term in a context. A term is replaced by the items of its row.
#![tactic(auto)]

pub mod rows; // rows.rt: the rows

ghost use Rattle.std.specs.Prelude.{◌+◌, ◌-◌, ◌*◌, ◌≤◌, ◌<◌, ◌≡◌, ◌∷◌, [], ◌++◌, length};
ghost use Rattle.plan_packed.specs.Format.{mask_bit, fields_from};
ghost use Rattle.plan_packed.specs.Inner.Operands.{tag_of, mask_bits};
ghost use Rattle.plan_packed.specs.Inner.Steps.{Ordered, tree_in};
ghost use Rattle.plan_notation.specs.Tokens.{new_word, opening, closing};
ghost use Rattle.plan_notation.specs.Shown.{loose, shown};
ghost use Rattle.text.specs.Inner.Wrote.{Wrote};
ghost use Rattle.plan_token_writer.specs.Inner.Items.{operand_by, binder_on, item_of, item_rows, condition_row, row_as, row_number, items_from, row_items};
ghost use Rattle.plan_token_writer.specs.Inner.Items.{new_tokens, is_new, tokens_in, stack_of, Pushed, Running, Stepped};

use crate::rows::Rows;
use plan_notation::tokens;
use plan_operands::tags;

// An item from here on is a token.
const TOKEN: usize = 16384;

// The items of a row that are no tokens; any further one is a child.
const SLOT: usize = 70;

const BINDER: usize = 71;

const FIELD: usize = 72;

const PROCEDURE: usize = 73;

// How many bits of a term stand behind each operand that is a child, by its number in a row's item, a byte to each: 25, 15, 5, 21, 11, 10 and 20.
const SHIFTS: usize = 5640542247784217;

// The operand of a term that is a child, without a branch: which one it is follows no pattern.
fn operand(number: usize, word: usize) -> usize
    requires { number < 8 }
    ensures { (result ≡ operand_by number word) × (result < 1024) }
{
    let shift = (SHIFTS >> (8 * number)) % 64;
    (word >> shift) % 1024
}

// The slot of a let, or none.
fn binder(slot: usize) -> usize
    requires { slot < 16 }
    ensures { (result ≡ binder_on slot) × (result < 65536) }
{
    if slot == 15 {
        return TOKEN + tokens::DASH;
    }
    TOKEN + slot
}

// An item of a row, of a term with these 40 bits.
fn item(number: usize, word: usize) -> usize
    requires { number < 256 }
    ensures { (result ≡ item_of word number) × (result < 65536) }
{
    if number < SLOT {
        return TOKEN + number;
    }
    match number {
        SLOT => TOKEN + tokens::VARIABLE + plan_operands::slot_of(word),
        BINDER => binder(plan_operands::slot_of(word)),
        FIELD => TOKEN + plan_operands::field_of(word),
        PROCEDURE => TOKEN + plan_operands::procedure_of(word),
        _ => number % 16 * 1024 + operand(number / 16 % 8, word),
    }
}

// The row of a condition.
fn condition_row(tag: usize) -> usize
    ensures { (result ≡ condition_row tag) × (result < 28) }
{
    match tag {
        13..=15 => 9 + tag,
        _ => 21,
    }
}

// The row of a tag in a context.
fn row_as(context: usize, tag: usize) -> usize
    ensures { (result ≡ row_as context tag) × (result < 28) }
{
    if context < 4 {
        return if tag < 21 { tag } else { 0 };
    }
    if context < 8 {
        return condition_row(tag);
    }
    if tag != tags::LIST {
        return 27;
    }
    if context == 8 { 25 } else { 26 }
}

fn push(stack: &mut [u16], top: usize, item: usize) -> usize
    requires { (top < length stack.old) × (item < 65536) }
    ensures { Pushed stack.old top (item ∷ []) stack.new result }
{
    stack[top] = item as u16;
    top + 1
}

// The items of a row, the first on top.
fn push_items(stack: &mut [u16], top: usize, rows: &Rows, row: usize, word: usize) -> usize
    requires { (row < 28) × (top + 6 ≤ length stack.old) }
    ensures { Pushed stack.old top (items_from word row 2 (row_number row 1)) stack.new result }
{
    let mut next = top;
    let items = rows.number(row, 1);
    for left in (0..items).rev() {
        let number = rows.number(row, 2 + left);
        next = push(stack, next, item(number, word));
    }
    next
}

// The same, in parentheses where the place asks for more than the term's binding.
fn push_row(
    stack: &mut [u16],
    top: usize,
    rows: &Rows,
    row: usize,
    word: usize,
    level: usize,
) -> usize
    requires { (row < 28) × (top + 8 ≤ length stack.old) }
    ensures { Pushed stack.old top (row_items level word row) stack.new result }
{
    if rows.number(row, 0) < level {
        let inside = push(stack, top, TOKEN + tokens::CLOSING);
        let next = push_items(stack, inside, rows, row, word);
        return push(stack, next, TOKEN + tokens::OPENING);
    }
    push_items(stack, top, rows, row, word)
}

// The bit of a field, in a mask whose top bit is field 0.
pub fn bit(mask: usize, field: usize) -> usize
    requires { field < 32 }
    ensures { result ≡ mask_bit mask field }
{
    (mask >> (31 - field)) % 2
}

// A field, where the mask has it.
fn put_field(area: &mut [u8], at: usize, mask: usize, field: usize) -> usize
    requires { (field < 32) × (at + length (fields_from mask field 1) ≤ length area.old) }
    ensures { Wrote area.old at (fields_from mask field 1) area.new result }
{
    if bit(mask, field) == 1 {
        return text::put_byte(area, at, field as u8);
    }
    at
}

// The fields of a mask, from one on.
pub fn put_fields(area: &mut [u8], at: usize, mask: usize, first: usize) -> usize
    requires { (first ≤ 32) × (at + length (fields_from mask first (32 - first)) ≤ length area.old) }
    ensures { Wrote area.old at (fields_from mask first (32 - first)) area.new result }
{
    let mut next = at;
    for field in first..32 {
        next = put_field(area, next, mask, field);
    }
    next
}

// `new` with its fields.
fn put_new(area: &mut [u8], at: usize, mask: usize) -> usize
    requires { at + length (new_tokens mask) ≤ length area.old }
    ensures { Wrote area.old at (new_tokens mask) area.new result }
{
    let next = text::put_byte(area, at, tokens::NEW as u8);
    let next = text::put_byte(area, next, tokens::OPENING as u8);
    let next = put_fields(area, next, mask, 0);
    text::put_byte(area, next, tokens::CLOSING as u8)
}

// Where writing stands: the items on the stack, and the place of the next token.
#[derive(Clone, Copy)]
struct Standing {
    top: usize,
    at: usize,
}

// A `new` in an expression's context.
fn is_new(context: usize, tag: usize) -> bool
    ensures { result ≡ is_new context tag }
{
    context < 4 && tag == tags::NEW
}

// The item on top: a token is written, a `new` too, any other term gives way to the items of its row.
fn step(
    words: &[usize; 1024],
    rows: &Rows,
    stack: &mut [u16],
    standing: Standing,
    area: &mut [u8],
) -> Standing
    requires { Running words.now stack.old standing.top area.old standing.at }
    ensures { Stepped words.now area.old standing.at stack.old standing.top area.new stack.new result }
{
    let top = standing.top - 1;
    let item = stack[top] as usize;
    if item >= TOKEN {
        let at = text::put_byte(area, standing.at, (item % 256) as u8);
        return Standing { top, at };
    }
    let context = item / 1024;
    let word = words[item % 1024];
    let tag = plan_operands::tag(word);
    if is_new(context, tag) {
        let at = put_new(area, standing.at, plan_operands::mask_of(word));
        return Standing { top, at };
    }
    let top = push_row(stack, top, rows, row_as(context, tag), word, context % 4);
    Standing {
        top,
        at: standing.at,
    }
}

// The tree of an expression, behind the tokens that are there, by the rows and a stack that are lent: each item on it has a token, and a row eight items at
// most.
pub fn write_expression(
    words: &[usize; 1024],
    rows: &Rows,
    stack: &mut [u16],
    root: usize,
    area: &mut [u8],
    from: usize,
) -> usize
    requires ordered { Ordered words.now × (root < 1024) }
    requires stack_size { length area.old + 8 ≤ length stack.old }
    requires root_in_bounds { from + length (shown loose (tree_in words.now root)) ≤ length area.old }
    ensures { Wrote area.old from (shown loose (tree_in words.now root)) area.new result }
{
    let top = push(stack, 0, root);
    let mut standing = Standing { top, at: from };
    while standing.top > 0 {
        standing = step(words, rows, stack, standing, area);
    }
    standing.at
}
