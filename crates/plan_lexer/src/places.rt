// The line and the column of a token.
ghost use Rattle.std.specs.Prelude.{◌≡◌, length};
ghost use Rattle.plan_notation.specs.Lexing.{tokens_of, place_after};
ghost use Rattle.plan_lexer.specs.Place.{place_in, place_of};

use crate::lexemes;
use plan_scanner::classes;

// Both from 1.
#[derive(Clone, Copy)]
pub struct Spot {
    pub line: usize,
    pub column: usize,
}

// The first byte of a token by its number; the text's length if there are fewer.
fn first_byte(text: &[u8], number: usize) -> usize
    ensures { result ≡ place_in (tokens_of text.now) number (length text.now) }
{
    let classes = classes::classes();
    let mut left = number;
    let mut index = 0;
    while index < text.len() {
        let found = lexemes::begun(&classes, text, index);
        if found.code.is_some() {
            if left == 0 {
                return index;
            }
            left -= 1;
        }
        index = found.end;
    }
    text.len()
}

// The line and the column behind these bytes.
fn spot_after(bytes: &[u8]) -> Spot
    ensures { (result.line ≡ (place_after bytes.now).line) × (result.column ≡ (place_after bytes.now).column) }
{
    let mut line = 1;
    let mut column = 1;
    for byte in bytes {
        if *byte == b'\n' {
            line += 1;
            column = 1;
        } else {
            column += 1;
        }
    }
    Spot { line, column }
}

// The line and the column of a token by its number; those of the text's end if there are fewer.
pub fn place(text: &[u8], number: usize) -> Spot
    ensures { (result.line ≡ (place_of text.now number).line) × (result.column ≡ (place_of text.now number).column) }
{
    let first = first_byte(text, number);
    if first < text.len() {
        return spot_after(&text[..first]);
    }
    spot_after(text)
}
