// What each token says of the gap behind it and of the one before it, as sets of bits: the gap between two tokens goes by the bits that both have.
ghost use Rattle.std.specs.Prelude.{◌≡◌, ℕ, not, ◌/◌, ◌%◌, ◌≤◌, ◌<◌, eqb, List};
ghost use Rattle.plan_notation.specs.Tokens.{text_end};
ghost use Rattle.plan_notation.specs.Layout.{apart, breaks};
ghost use Rattle.plan_pen.specs.Inner.Looks.{look_rows, begins, ends};

use byte_numbers::wide;
use std::marker::Model;

// The looks of all tokens. They are always those of the definition.
#[derive(Clone, Copy)]
pub struct Looks {
    pub rows: [[u8; 2]; 70],
}

impl Model for Looks {
    ghost Value = { List (List ℕ) };

    ghost view = { λ looks. looks.rows };

    ghost invariant = { λ looks. looks.rows ≡ look_rows };

    ghost inverse = { λ rows. record { rows = rows } };
}

// Of each token, and of none at the start: what it says behind it and before it. A bit of 1, 2 or 4 that both have is no space, one of 8, 16 or 32 a new
// line: 1 is that of every token before `)`, `,` and `.`, 2 that of `(`, `.` and the start before any, 4 that of `new` before `(`, 8 that of every token
// before `volatile` and `procedure`, 16 that of `in` and `do` before any, 32 that of a number before what begins an expression. Before a token, 64 is that
// it ends something, 128 that it begins something.
const LOOKS: [[u8; 2]; 70] = [
    [41, 18], // 0
    [41, 18], // 1
    [41, 18], // 2
    [41, 18], // 3
    [41, 18], // 4
    [41, 18], // 5
    [41, 18], // 6
    [41, 18], // 7
    [41, 18], // 8
    [41, 18], // 9
    [41, 18], // 10
    [41, 18], // 11
    [41, 18], // 12
    [41, 18], // 13
    [41, 18], // 14
    [41, 18], // 15
    [41, 18], // 16
    [41, 18], // 17
    [41, 18], // 18
    [41, 18], // 19
    [41, 18], // 20
    [41, 18], // 21
    [41, 18], // 22
    [41, 18], // 23
    [41, 18], // 24
    [41, 18], // 25
    [41, 18], // 26
    [41, 18], // 27
    [41, 18], // 28
    [41, 18], // 29
    [41, 18], // 30
    [41, 18], // 31
    [9, 50], // v0
    [9, 50], // v1
    [9, 50], // v2
    [9, 50], // v3
    [9, 50], // v4
    [9, 50], // v5
    [9, 50], // v6
    [9, 50], // v7
    [9, 18], // version
    [9, 26], // volatile
    [9, 26], // procedure
    [25, 82], // in
    [9, 18], // then
    [9, 82], // else
    [25, 18], // do
    [9, 18], // all
    [9, 18], // and
    [9, 18], // true
    [9, 18], // not
    [9, 50], // null
    [13, 50], // new
    [9, 178], // let
    [9, 178], // if
    [9, 50], // while
    [9, 50], // call
    [9, 50], // fork
    [9, 50], // join
    [9, 50], // synch
    [9, 50], // wait
    [9, 50], // notify
    [11, 150], // (
    [9, 83], // )
    [9, 19], // ,
    [11, 19], // .
    [9, 18], // =
    [9, 18], // :=
    [9, 18], // -
    [11, 18], // none
];

// The looks are those of the definition: one computed test of them all.
pub fn all() -> Looks
    ensures { result ≡ look_rows }
{
    Looks { rows: LOOKS }
}

impl Looks {
    // The bits of the gap between two tokens.
    pub fn between(&self, before: u8, token: u8) -> u8
        requires { (before ≤ text_end) × (token < text_end) }
        ensures { (eqb (result % 8) 0 ≡ apart before token) × (not (eqb (result / 8) 0) ≡ breaks before token) }
    {
        let behind = self.rows[wide(before)][0];
        let ahead = self.rows[wide(token)][1];
        behind & (ahead % 64)
    }

    // A token ends something.
    pub fn ends(&self, token: u8) -> bool
        requires { token < text_end }
        ensures { result ≡ ends token }
    {
        self.rows[wide(token)][1] / 64 % 2 == 1
    }

    // It begins something.
    pub fn begins(&self, token: u8) -> bool
        requires { token < text_end }
        ensures { result ≡ begins token }
    {
        128 <= self.rows[wide(token)][1]
    }
}
