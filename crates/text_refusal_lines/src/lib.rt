// The line of a refusal (document 01, "Shot list"), and behind it its sentence, each written behind the text that is there.
#![tactic(auto)]

mod sentences; // sentences.rt: the sentences as one row of bytes

ghost use Rattle.std.specs.Prelude.{◌+◌, ◌≤◌, length};
ghost use Rattle.text.specs.Inner.Wrote.{Wrote};
ghost use Rattle.text_refusal_lines.specs.Lines.{refusal_line, sentence_line, refusal_lines};

// Refused, number, place.
pub fn put_refusal(area: &mut [u8], at: usize, number: usize, place: usize) -> usize
    requires { at + length (refusal_line (record { number = number; place = place })) ≤ length area.old }
    ensures { Wrote area.old at (refusal_line (record { number = number; place = place })) area.new result }
{
    let at = text::put_word(area, at, b"refused");
    let at = text::put_column(area, at, number);
    let at = text::put_column(area, at, place);
    text::put_byte(area, at, 10)
}

// The sentence of a number.
fn put_sentence(area: &mut [u8], at: usize, number: usize) -> usize
    requires { at + length (sentence_line number) ≤ length area.old }
    ensures { Wrote area.old at (sentence_line number) area.new result }
{
    let words = sentences::words();
    let starts = sentences::starts();
    let at = text_word_table::put_row(area, at, &words, &starts, sentences::row(number));
    text::put_byte(area, at, 10)
}

// Both.
pub fn put_refusal_lines(area: &mut [u8], at: usize, number: usize, place: usize) -> usize
    requires { at + length (refusal_lines (record { number = number; place = place })) ≤ length area.old }
    ensures { Wrote area.old at (refusal_lines (record { number = number; place = place })) area.new result }
{
    let at = put_refusal(area, at, number, place);
    put_sentence(area, at, number)
}
