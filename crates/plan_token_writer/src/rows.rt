// The rows: how a term of each tag is written.
ghost use Rattle.std.specs.Prelude.{◌≡◌, ℕ, ◌<◌, List};
ghost use Rattle.plan_token_writer.specs.Inner.Items.{item_rows, row_number};

use byte_numbers::wide;
use std::marker::Model;

// The rows of all tags. They are always those of the definition.
#[derive(Clone, Copy)]
pub struct Rows {
    pub table: [[u8; 8]; 28],
}

impl Model for Rows {
    ghost Value = { List (List ℕ) };

    ghost view = { λ rows. rows.table };

    ghost invariant = { λ rows. rows.table ≡ item_rows };

    ghost inverse = { λ table. record { table = table } };
}

// Eight numbers to a row: how tightly the term binds, from 0 to 3, how many items it has, and these: a token; 70 a slot, 71 a binder, 72 a field, 73 a
// procedure's number; from 128 on a child, 16 to each operand, with its context; then the number of each column. Expressions come by their tags, with null
// for a term of another sort; then conditions, a call's arguments, those behind one, and the end of both.
const ROWS: [[u8; 8]; 28] = [
    [3, 1, 51, 3, 4, 5, 6, 7], // null
    [3, 1, 70, 3, 4, 5, 6, 7], // variable
    [3, 1, 51, 3, 4, 5, 6, 7], // new, which is written at once
    [3, 3, 131, 65, 72, 5, 6, 7], // e.f
    [0, 5, 131, 65, 72, 67, 208, 7], // e.f := e
    [0, 6, 53, 71, 66, 176, 43, 192], // let x = e in e
    [0, 6, 54, 132, 44, 144, 45, 160], // if c then e else e
    [0, 4, 55, 132, 46, 144, 6, 7], // while c do e
    [3, 4, 56, 73, 62, 232, 6, 7], // call m (
    [2, 2, 57, 130, 4, 5, 6, 7], // fork e
    [2, 2, 58, 130, 4, 5, 6, 7], // join e
    [0, 4, 59, 128, 46, 144, 6, 7], // synch e do e
    [3, 1, 51, 3, 4, 5, 6, 7], // no expression
    [3, 1, 51, 3, 4, 5, 6, 7],
    [3, 1, 51, 3, 4, 5, 6, 7],
    [3, 1, 51, 3, 4, 5, 6, 7],
    [3, 1, 51, 3, 4, 5, 6, 7],
    [3, 1, 51, 3, 4, 5, 6, 7],
    [2, 2, 60, 130, 4, 5, 6, 7], // wait e
    [2, 2, 61, 130, 4, 5, 6, 7], // notify e
    [2, 3, 61, 47, 130, 5, 6, 7], // notify all e
    [3, 1, 49, 3, 4, 5, 6, 7], // true
    [1, 2, 50, 133, 4, 5, 6, 7], // not c
    [0, 3, 133, 48, 148, 5, 6, 7], // c and c
    [1, 3, 130, 66, 146, 5, 6, 7], // e = e
    [3, 2, 128, 153, 4, 5, 6, 7], // e, and further ones
    [3, 3, 64, 128, 153, 5, 6, 7], // a comma, e, and further ones
    [3, 1, 63, 3, 4, 5, 6, 7], // the end
];

// The rows, which are those of the definition: one computed test of them all.
pub fn all() -> Rows
    ensures { result ≡ item_rows }
{
    Rows { table: ROWS }
}

impl Rows {
    // A number of a row.
    pub fn number(&self, row: usize, column: usize) -> usize
        requires { (row < 28) × (column < 8) }
        ensures { (result ≡ row_number row column) × (result < 256) }
    {
        wide(self.table[row][column])
    }
}
