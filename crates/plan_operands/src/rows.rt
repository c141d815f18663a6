// The layout of the terms' operands, a row to a tag (document 02, E4). Checks 4 to 6 take it from here.
ghost use Rattle.std.specs.Prelude.{◌≡◌, ◌<◌};
ghost use Rattle.plan_packed.specs.Format.{tag_count};
ghost use Rattle.plan_packed.specs.Inner.Rows.{layout_rows, number_at, bits_to, bits_after, child_at};

use byte_numbers::wide;

// How many tags there are.
pub const TAGS: usize = 21;

// The columns of a row: the sort of the tag's terms, the number of spare bits; what the operand that is no term is, and its place, the bits to its right; of
// each operand that is a term the sort, and in the next column its place.
pub const SORT: usize = 0;

pub const SPARE: usize = 1;

pub const OTHER: usize = 2;

pub const FIRST: usize = 4;

pub const SECOND: usize = 6;

pub const THIRD: usize = 8;

// The sorts of terms: an expression and a condition by document 01's letters.
pub const E: u8 = 1;

pub const C: u8 = 2;

pub const LIST: u8 = 3;

// The operands that are no terms.
pub const SLOT: u8 = 1;

pub const BINDER: u8 = 2; // a slot, or 15, which binds nothing

pub const MASK: u8 = 3;

pub const FIELD: u8 = 4;

pub const PROCEDURE: u8 = 5;

// The place of an operand that is not there; its sort or kind is 0.
const PAST: u8 = 63;

pub type Rows = [[u8; 10]; TAGS];

const ROWS: Rows = [
    [E, 35, 0, PAST, 0, PAST, 0, PAST, 0, PAST], // null
    [E, 31, SLOT, 31, 0, PAST, 0, PAST, 0, PAST], // variable
    [E, 3, MASK, 3, 0, PAST, 0, PAST, 0, PAST], // new
    [E, 20, FIELD, 20, E, 25, 0, PAST, 0, PAST], // read
    [E, 10, FIELD, 20, E, 25, E, 10, 0, PAST], // write
    [E, 11, BINDER, 31, E, 21, E, 11, 0, PAST], // let
    [E, 5, 0, PAST, C, 25, E, 15, E, 5], // if
    [E, 15, 0, PAST, C, 25, E, 15, 0, PAST], // while
    [E, 20, PROCEDURE, 30, LIST, 20, 0, PAST, 0, PAST], // call
    [E, 25, 0, PAST, E, 25, 0, PAST, 0, PAST], // fork
    [E, 25, 0, PAST, E, 25, 0, PAST, 0, PAST], // join
    [E, 15, 0, PAST, E, 25, E, 15, 0, PAST], // synch
    [C, 35, 0, PAST, 0, PAST, 0, PAST, 0, PAST], // true
    [C, 25, 0, PAST, C, 25, 0, PAST, 0, PAST], // not
    [C, 15, 0, PAST, C, 25, C, 15, 0, PAST], // and
    [C, 15, 0, PAST, E, 25, E, 15, 0, PAST], // equal
    [LIST, 15, 0, PAST, E, 25, LIST, 15, 0, PAST], // list
    [LIST, 35, 0, PAST, 0, PAST, 0, PAST, 0, PAST], // list end
    [E, 25, 0, PAST, E, 25, 0, PAST, 0, PAST], // wait
    [E, 25, 0, PAST, E, 25, 0, PAST, 0, PAST], // notify
    [E, 25, 0, PAST, E, 25, 0, PAST, 0, PAST], // notify all
];

// The rows, which are those of the table: one computed test of them all.
pub fn layouts() -> Rows
    ensures { result ≡ layout_rows }
{
    ROWS
}

// A number of a tag's row.
pub fn number(rows: &Rows, tag: usize, column: usize) -> u8
    requires rows_value { rows.now ≡ layout_rows }
    requires tag_lt_tag_count { (tag < tag_count) × (column < 10) }
    ensures { result ≡ number_at tag column }
{
    rows[tag][column]
}

// What of a term's 40 bits ends at a place.
pub fn bits_to(word: usize, place: u8) -> usize
    ensures { result ≡ bits_to place word }
{
    word >> (wide(place) % 64)
}

// The operand that is a term and has its place in this column of the row.
pub fn child(rows: &Rows, tag: usize, column: usize, word: usize) -> usize
    requires rows_value { rows.now ≡ layout_rows }
    requires tag_lt_tag_count { (tag < tag_count) × (column < 10) }
    ensures { result ≡ child_at (number_at tag column) word }
{
    bits_to(word, number(rows, tag, column)) % 1024
}

// What of a term's 40 bits stands after a place.
pub fn bits_after(word: usize, place: u8) -> usize
    ensures { result ≡ bits_after place word }
{
    word % (1usize << (wide(place) % 64))
}
