// From the bytes of a text to its tokens (docs/FORMAT.md, "A plan as text").
#![tactic(auto)]

mod lexemes; // lexemes.rt: what begins at a byte
pub mod places; // places.rt: the line and the column of a token

ghost use Rattle.plan_notation.specs.Lexing.{codes_of};
ghost use Rattle.plan_lexer.specs.Kept.{Kept};
ghost use Rattle.plan_lexer.specs.Inner.Adds.{Adds, AddsSome};

use plan_scanner::classes;

const TEXT_END: u8 = 69;

// A token behind those that are kept, where there is room for it.
fn put(tokens: &mut [u8], count: usize, code: u8) -> usize
    ensures { Adds tokens.old count code tokens.new result }
{
    if tokens.len() <= count {
        return tokens.len() + 1;
    }
    tokens[count] = code;
    count + 1
}

// The same, if there is one.
fn put_some(tokens: &mut [u8], count: usize, code: Option<u8>) -> usize
    ensures { AddsSome tokens.old count code tokens.new result }
{
    match code {
        Some(code) => put(tokens, count, code),
        None => count,
    }
}

// The tokens of a text, with its end. How many they are; one more than there is room for, if they are more.
pub fn lex(text: &[u8], tokens: &mut [u8]) -> usize
    ensures { Kept tokens.old (codes_of text.now) tokens.new result }
{
    let classes = classes::classes();
    let mut count = 0;
    let mut index = 0;
    while index < text.len() {
        let found = lexemes::begun(&classes, text, index);
        count = put_some(tokens, count, found.code);
        index = found.end;
    }
    put(tokens, count, TEXT_END)
}
