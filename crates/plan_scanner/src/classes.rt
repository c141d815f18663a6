// What the lexer needs to know of a byte, one number to each: a digit of a name as 1 to 36, `#` as 37, `:` as 38, a blank as 39; else the token that it is.
ghost use Rattle.std.specs.Prelude.{◌≡◌, ◌<◌};
ghost use Rattle.plan_scanner.specs.Inner.Classes.{class_of, Classed};

use byte_numbers::wide;

// Digits of a name are the classes below.
pub const HASH: u8 = 37;

pub const BLANK: u8 = 39;

// The tokens that are a byte by themselves, or unknown, are classes from here on.
pub const MARK: u8 = 62;

pub type Classes = [u8; 256];

// A line to each byte.
const CLASSES: Classes = [
    70, 70, 70, 70, 70, 70, 70, 70, 70, 39, // tabulator
    39, // line feed
    70, 70, 39, // carriage return
    70, 70, 70, 70, 70, 70, 70, 70, 70, 70, 70, 70, 70, 70, 70, 70, 70, 70, 39, // space
    70, // !
    70, // "
    37, // #
    70, // $
    70, // %
    70, // &
    70, // '
    62, // (
    63, // )
    70, // *
    70, // +
    64, // ,
    68, // -
    65, // .
    70, // /
    1, // 0
    2, // 1
    3, // 2
    4, // 3
    5, // 4
    6, // 5
    7, // 6
    8, // 7
    9, // 8
    10, // 9
    38, // :
    70, // ;
    70, // <
    66, // =
    70, // >
    70, // ?
    70, // @
    70, // A
    70, // B
    70, // C
    70, // D
    70, // E
    70, // F
    70, // G
    70, // H
    70, // I
    70, // J
    70, // K
    70, // L
    70, // M
    70, // N
    70, // O
    70, // P
    70, // Q
    70, // R
    70, // S
    70, // T
    70, // U
    70, // V
    70, // W
    70, // X
    70, // Y
    70, // Z
    70, // [
    70, // \
    70, // ]
    70, // ^
    70, // _
    70, // `
    11, // a
    12, // b
    13, // c
    14, // d
    15, // e
    16, // f
    17, // g
    18, // h
    19, // i
    20, // j
    21, // k
    22, // l
    23, // m
    24, // n
    25, // o
    26, // p
    27, // q
    28, // r
    29, // s
    30, // t
    31, // u
    32, // v
    33, // w
    34, // x
    35, // y
    36, // z
    70, // {
    70, // |
    70, // }
    70, // ~
    70, 70, // no ASCII from here on
    70, 70, 70, 70, 70, 70, 70, 70, 70, 70, 70, 70, 70, 70, 70, 70, 70, 70, 70, 70, 70, 70, 70, 70,
    70, 70, 70, 70, 70, 70, 70, 70, 70, 70, 70, 70, 70, 70, 70, 70, 70, 70, 70, 70, 70, 70, 70, 70,
    70, 70, 70, 70, 70, 70, 70, 70, 70, 70, 70, 70, 70, 70, 70, 70, 70, 70, 70, 70, 70, 70, 70, 70,
    70, 70, 70, 70, 70, 70, 70, 70, 70, 70, 70, 70, 70, 70, 70, 70, 70, 70, 70, 70, 70, 70, 70, 70,
    70, 70, 70, 70, 70, 70, 70, 70, 70, 70, 70, 70, 70, 70, 70, 70, 70, 70, 70, 70, 70, 70, 70, 70,
    70, 70, 70, 70, 70, 70, 70,
];

// The class of every byte: one computed test of them all.
pub fn classes() -> Classes
    ensures { Classed result }
{
    CLASSES
}

pub fn class_of(classes: &Classes, byte: u8) -> u8
    requires { Classed classes.now }
    ensures { (result ≡ class_of byte) × (byte < 256) }
{
    classes[wide(byte)]
}
