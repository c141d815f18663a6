// The texts of the tokens, a row to a token.
ghost use Rattle.std.specs.Prelude.{◌≡◌, ℕ, ◌<◌, List, length};
ghost use Rattle.plan_notation.specs.Tokens.{text_end, text_of};
ghost use Rattle.plan_layout.specs.Inner.Rows.{text_row, text_rows};

use byte_numbers::wide;
use std::marker::Model;

// How many tokens there are.
const TOKENS: usize = 69;

// The rows of all tokens. They are always those of the texts.
#[derive(Clone, Copy)]
pub struct TextRows {
    pub table: [[u8; 10]; TOKENS],
}

impl Model for TextRows {
    ghost Value = { List (List ℕ) };

    ghost view = { λ rows. rows.table };

    ghost invariant = { λ rows. rows.table ≡ text_rows };

    ghost inverse = { λ table. record { table = table } };
}

// The name by which they are passed: a struct of this name and the function `rows` would differ only in case.
pub type Rows = TextRows;

// How long a text is, its bytes, and up to ten the number of each column: the compiler writes a run of equal bytes apart.
const ROWS: [[u8; 10]; TOKENS] = [
    [1, 48, 2, 3, 4, 5, 6, 7, 8, 9], // 0
    [1, 49, 2, 3, 4, 5, 6, 7, 8, 9], // 1
    [1, 50, 2, 3, 4, 5, 6, 7, 8, 9], // 2
    [1, 51, 2, 3, 4, 5, 6, 7, 8, 9], // 3
    [1, 52, 2, 3, 4, 5, 6, 7, 8, 9], // 4
    [1, 53, 2, 3, 4, 5, 6, 7, 8, 9], // 5
    [1, 54, 2, 3, 4, 5, 6, 7, 8, 9], // 6
    [1, 55, 2, 3, 4, 5, 6, 7, 8, 9], // 7
    [1, 56, 2, 3, 4, 5, 6, 7, 8, 9], // 8
    [1, 57, 2, 3, 4, 5, 6, 7, 8, 9], // 9
    [2, 49, 48, 3, 4, 5, 6, 7, 8, 9], // 10
    [2, 49, 49, 3, 4, 5, 6, 7, 8, 9], // 11
    [2, 49, 50, 3, 4, 5, 6, 7, 8, 9], // 12
    [2, 49, 51, 3, 4, 5, 6, 7, 8, 9], // 13
    [2, 49, 52, 3, 4, 5, 6, 7, 8, 9], // 14
    [2, 49, 53, 3, 4, 5, 6, 7, 8, 9], // 15
    [2, 49, 54, 3, 4, 5, 6, 7, 8, 9], // 16
    [2, 49, 55, 3, 4, 5, 6, 7, 8, 9], // 17
    [2, 49, 56, 3, 4, 5, 6, 7, 8, 9], // 18
    [2, 49, 57, 3, 4, 5, 6, 7, 8, 9], // 19
    [2, 50, 48, 3, 4, 5, 6, 7, 8, 9], // 20
    [2, 50, 49, 3, 4, 5, 6, 7, 8, 9], // 21
    [2, 50, 50, 3, 4, 5, 6, 7, 8, 9], // 22
    [2, 50, 51, 3, 4, 5, 6, 7, 8, 9], // 23
    [2, 50, 52, 3, 4, 5, 6, 7, 8, 9], // 24
    [2, 50, 53, 3, 4, 5, 6, 7, 8, 9], // 25
    [2, 50, 54, 3, 4, 5, 6, 7, 8, 9], // 26
    [2, 50, 55, 3, 4, 5, 6, 7, 8, 9], // 27
    [2, 50, 56, 3, 4, 5, 6, 7, 8, 9], // 28
    [2, 50, 57, 3, 4, 5, 6, 7, 8, 9], // 29
    [2, 51, 48, 3, 4, 5, 6, 7, 8, 9], // 30
    [2, 51, 49, 3, 4, 5, 6, 7, 8, 9], // 31
    [2, 118, 48, 3, 4, 5, 6, 7, 8, 9], // v0
    [2, 118, 49, 3, 4, 5, 6, 7, 8, 9], // v1
    [2, 118, 50, 3, 4, 5, 6, 7, 8, 9], // v2
    [2, 118, 51, 3, 4, 5, 6, 7, 8, 9], // v3
    [2, 118, 52, 3, 4, 5, 6, 7, 8, 9], // v4
    [2, 118, 53, 3, 4, 5, 6, 7, 8, 9], // v5
    [2, 118, 54, 3, 4, 5, 6, 7, 8, 9], // v6
    [2, 118, 55, 3, 4, 5, 6, 7, 8, 9], // v7
    [7, 118, 101, 114, 115, 105, 111, 110, 8, 9], // version
    [8, 118, 111, 108, 97, 116, 105, 108, 101, 9], // volatile
    [9, 112, 114, 111, 99, 101, 100, 117, 114, 101], // procedure
    [2, 105, 110, 3, 4, 5, 6, 7, 8, 9], // in
    [4, 116, 104, 101, 110, 5, 6, 7, 8, 9], // then
    [4, 101, 108, 115, 101, 5, 6, 7, 8, 9], // else
    [2, 100, 111, 3, 4, 5, 6, 7, 8, 9], // do
    [3, 97, 108, 108, 4, 5, 6, 7, 8, 9], // all
    [3, 97, 110, 100, 4, 5, 6, 7, 8, 9], // and
    [4, 116, 114, 117, 101, 5, 6, 7, 8, 9], // true
    [3, 110, 111, 116, 4, 5, 6, 7, 8, 9], // not
    [4, 110, 117, 108, 108, 5, 6, 7, 8, 9], // null
    [3, 110, 101, 119, 4, 5, 6, 7, 8, 9], // new
    [3, 108, 101, 116, 4, 5, 6, 7, 8, 9], // let
    [2, 105, 102, 3, 4, 5, 6, 7, 8, 9], // if
    [5, 119, 104, 105, 108, 101, 6, 7, 8, 9], // while
    [4, 99, 97, 108, 108, 5, 6, 7, 8, 9], // call
    [4, 102, 111, 114, 107, 5, 6, 7, 8, 9], // fork
    [4, 106, 111, 105, 110, 5, 6, 7, 8, 9], // join
    [5, 115, 121, 110, 99, 104, 6, 7, 8, 9], // synch
    [4, 119, 97, 105, 116, 5, 6, 7, 8, 9], // wait
    [6, 110, 111, 116, 105, 102, 121, 7, 8, 9], // notify
    [1, 40, 2, 3, 4, 5, 6, 7, 8, 9], // (
    [1, 41, 2, 3, 4, 5, 6, 7, 8, 9], // )
    [1, 44, 2, 3, 4, 5, 6, 7, 8, 9], // ,
    [1, 46, 2, 3, 4, 5, 6, 7, 8, 9], // .
    [1, 61, 2, 3, 4, 5, 6, 7, 8, 9], // =
    [2, 58, 61, 3, 4, 5, 6, 7, 8, 9], // :=
    [1, 45, 2, 3, 4, 5, 6, 7, 8, 9], // -
];

// The rows are those of the texts: one computed test of them all.
pub fn rows() -> Rows
    ensures { result ≡ text_rows }
{
    TextRows { table: ROWS }
}

impl TextRows {
    // How many bytes the text of a token has.
    pub fn width(&self, token: u8) -> usize
        requires { token < text_end }
        ensures { result ≡ length (text_of token) }
    {
        wide(self.table[wide(token)][0])
    }

    // The whole row of a token.
    pub fn row(&self, token: u8) -> [u8; 10]
        requires { token < text_end }
        ensures { result ≡ text_row (text_of token) }
    {
        self.table[wide(token)]
    }
}
