// What begins at a byte where nothing has begun before it: a token, a comment or a blank.
ghost use Rattle.std.specs.Prelude.{◌<◌, length};
ghost use Rattle.plan_scanner.specs.Inner.Classes.{Classed};
ghost use Rattle.plan_lexer.specs.Inner.Lexed.{Lexed};

use plan_scanner::classes::{BLANK, Classes, HASH, MARK};
use plan_scanner::names::UNKNOWN;
use plan_scanner::{classes, extents, names};

const BECOMES: u8 = 67;

// Its token, unless it is a comment or a blank, and the place of the byte behind it.
#[derive(Clone, Copy)]
pub struct Lexeme {
    pub code: Option<u8>,
    pub end: usize,
}

// By the class of the byte. A name is asked for last: with the loop over it in between, the one over a comment is compiled longer, and takes longer.
#[inline(always)]
pub fn begun(classes: &Classes, text: &[u8], index: usize) -> Lexeme
    requires classed { Classed classes.now }
    requires inside { index < length text.now }
    ensures { Lexed text.now index result.code result.end }
{
    let class = classes::class_of(classes, text[index]);
    let end = index + 1;
    if class == BLANK {
        return Lexeme { code: None, end };
    }
    if MARK <= class {
        return Lexeme {
            code: Some(class),
            end,
        };
    }
    if class == HASH {
        let end = extents::comment_end(text, end);
        return Lexeme { code: None, end };
    }
    if HASH < class {
        if extents::becomes(text, index) {
            return Lexeme {
                code: Some(BECOMES),
                end: index + 2,
            };
        }
        return Lexeme {
            code: Some(UNKNOWN),
            end,
        };
    }
    let name = extents::name_from(classes, text, end, class);
    Lexeme {
        code: Some(names::token_of(name.value)),
        end: name.end,
    }
}
