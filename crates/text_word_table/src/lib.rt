// A word of a table that is kept as one row of bytes, written behind the text that is there.
#![tactic(auto)]

ghost use Rattle.text.specs.Inner.Wrote.{Wrote};
ghost use Rattle.text_word_table.specs.Inner.Table.{word_at, Room};

// The bytes of all words, one word behind the other; where each begins, and where the last ends; the number of the word.
pub fn put_row(area: &mut [u8], at: usize, words: &[u8], starts: &[usize], row: usize) -> usize
    requires { Room words.now starts.now row at area.old }
    ensures { Wrote area.old at (word_at words.now starts.now row) area.new result }
{
    let start = starts[row];
    let end = starts[row + 1];
    text::put_word(area, at, &words[start..end])
}
