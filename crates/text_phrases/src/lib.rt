// A word and a number of a sentence, written behind the text that is there.
#![tactic(auto)]

ghost use Rattle.std.specs.Prelude.{◌+◌, ◌≤◌, ◌++◌, length};
ghost use Rattle.text.specs.Text.{decimal};
ghost use Rattle.text.specs.Inner.Wrote.{Wrote};

// A word, with the space at its end if there is one, and the number behind it.
pub fn put_phrase(area: &mut [u8], at: usize, word: &[u8], number: usize) -> usize
    requires { at + length (word.now ++ decimal number) ≤ length area.old }
    ensures { Wrote area.old at (word.now ++ decimal number) area.new result }
{
    let next = text::put_word(area, at, word);
    text::put_number(area, next, number)
}
