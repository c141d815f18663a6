// The answer of a tool that has written its text into an area, as the length of what is told there: that text, or the lines of what refused it. A refusal
// is of any type that tells its number and its place, so of any number.
#![tactic(auto)]

ghost use Rattle.std.specs.Prelude.{◌≤◌, length};
ghost use Rattle.text.specs.Inner.Wrote.{Wrote};
ghost use Rattle.text_refusal_lines.specs.Lines.{refusal_lines};
ghost use Rattle.numbered_refusals.specs.Inner.Answered.{tool_by};
ghost use Rattle.text_answer_lines.specs.Inner.Told.{Settled};

use numbered_refusals::Numbered;

// The lines of a refusal.
pub fn put_refusal<R: Numbered>(area: &mut [u8], refusal: R) -> usize
    requires { 200 ≤ length area.old }
    ensures { Wrote area.old 0 (refusal_lines (R.told refusal)) area.new result }
{
    text_refusal_lines::put_refusal_lines(area, 0, refusal.number(), refusal.place())
}

// A refusal's lines come in place of the text.
pub fn settle<R: Numbered>(area: &mut [u8], answered: Result<usize, R>) -> usize
    requires { 200 ≤ length area.old }
    ensures { Settled (tool_by R.told answered) area.old area.new result }
{
    match answered {
        Ok(length) => length,
        Err(refusal) => put_refusal(area, refusal),
    }
}
