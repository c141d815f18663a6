// Where comments and names end, and whether a colon is the first byte of `:=`.
ghost use Rattle.std.specs.Prelude.{◌≡◌, ◌<◌, ◌≤◌, ◌+◌, eqb, length, get_or};
ghost use Rattle.plan_notation.specs.Lexing.{grown};
ghost use Rattle.plan_scanner.specs.Inner.Classes.{Classed};
ghost use Rattle.plan_scanner.specs.Inner.Extents.{CommentEnds, NameEnds};

use crate::classes;
use crate::classes::{Classes, HASH};
use byte_numbers::wide;

// A name: its number, and the place of the byte behind it.
#[derive(Clone, Copy)]
pub struct Name {
    pub value: usize,
    pub end: usize,
}

// A name whose number is smaller can have one digit more: 37 to the ninth.
const SHORT: usize = 129961739795077;

// The number of a name with one digit more.
fn grown(value: usize, digit: u8) -> usize
    ensures { result ≡ grown value digit }
{
    if value < SHORT {
        return value * 37 + wide(digit);
    }
    value
}

// A name by its first digit, and the place of the byte behind it.
pub fn name_from(classes: &Classes, text: &[u8], from: usize, first: u8) -> Name
    requires classed { Classed classes.now }
    requires from_in_bounds { from ≤ length text.now }
    ensures { NameEnds text.now from first result.value result.end }
{
    let mut value = wide(first);
    for end in from..text.len() {
        let class = classes::class_of(classes, text[end]);
        if HASH <= class {
            return Name { value, end };
        }
        value = grown(value, class);
    }
    Name {
        value,
        end: text.len(),
    }
}

// The end of the line that a comment is on.
pub fn comment_end(text: &[u8], from: usize) -> usize
    requires { from ≤ length text.now }
    ensures { CommentEnds text.now from result }
{
    for end in from..text.len() {
        if text[end] == b'\n' {
            return end;
        }
    }
    text.len()
}

// Whether `=` comes behind the colon at this place.
pub fn becomes(text: &[u8], colon: usize) -> bool
    requires { colon < length text.now }
    ensures { result ≡ eqb (get_or text.now (colon + 1) 0) 61 }
{
    text.get(colon + 1) == Some(&b'=')
}
