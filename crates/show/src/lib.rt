// The entry `show`: an accepted plan as text, in document 01's own notation, into an area.
#![tactic(auto)]

ghost use Rattle.std.specs.Prelude.{◌+◌, ◌≤◌, ◌<◌, ◌≡◌, length};
ghost use Rattle.plan_packed.specs.Trees.{program_of};
ghost use Rattle.plan_notation.specs.Inner.Known.{Known};
ghost use Rattle.plan_notation.specs.Shown.{shown_plan};
ghost use Rattle.plan_pen.specs.Inner.Looks.{look_rows};
ghost use Rattle.plan_layout.specs.Inner.Rows.{text_rows};
ghost use Rattle.plan_tokens.specs.Inner.Begun.{Given};
ghost use Rattle.answers.specs.Answer.{answered};
ghost use Rattle.show.specs.Show.{show_answer, show_area};
ghost use Rattle.show.specs.Inner.Begun.{BytesWritten, TextWritten};

use plan_layout::rows;
use plan_layout::rows::Rows;
use plan_pen::looks;
use plan_pen::looks::Looks;
use refusals::{Reason, Refusal};

// A text that was laid out, into an area where it has room.
fn copy(text: &[u8], area: &mut [u8]) -> Result<usize, Refusal>
    ensures { BytesWritten text.now area.old area.new result }
{
    if area.len() < text.len() {
        return Err(Reason::TextArea.at(0));
    }
    text::put_word(area, 0, text);
    Ok(text.len())
}

// The text of some tokens, where the area has room for it, in two passes, by marks that are lent.
fn write_marked(
    rows: &Rows,
    looks: &Looks,
    tokens: &[u8],
    marks: &mut [u16],
    area: &mut [u8],
) -> Result<usize, Refusal>
    requires rows_value { (rows.now ≡ text_rows) × (looks.now ≡ look_rows) × Known tokens.now }
    requires tokens_len_bound { (length tokens.now ≤ 16384) × (length tokens.now ≤ length marks.old) }
    ensures { TextWritten tokens.now area.old area.new result }
{
    let length = plan_layout::measure(rows, looks, tokens, marks);
    if area.len() < length {
        return Err(Reason::TextArea.at(0));
    }
    plan_layout::lay_out(rows, tokens, marks, area, length);
    Ok(length)
}

// The same in one pass, by a room that is lent: its text is copied. Where the room is too short, in two.
fn write(
    tokens: &[u8],
    marks: &mut [u16],
    room: &mut [u8],
    area: &mut [u8],
) -> Result<usize, Refusal>
    requires known { Known tokens.now × (length tokens.now ≤ 16384) }
    requires tokens_in_bounds { (length tokens.now ≤ length marks.old) × (0 < length room.old) }
    ensures { TextWritten tokens.now area.old area.new result }
{
    let rows = rows::rows();
    let looks = looks::all();
    let Some(laid) = plan_layout::lay_within(&rows, &looks, tokens, room) else {
        return write_marked(&rows, &looks, tokens, marks, area);
    };
    copy(&room[0..laid], area)
}

// The text of an accepted plan, by arrays that are lent: for its tokens, for a stack and then marks, and for its text.
fn show_by(
    plan: &[u8],
    words: &[usize; 1024],
    stack: &mut [u16],
    tokens: &mut [u8],
    room: &mut [u8],
    area: &mut [u8],
) -> Result<usize, Refusal>
    requires given { Given plan.now words.now × (length (shown_plan (program_of plan.now)) ≤ length tokens.old) }
    requires tokens_in_bounds { (length tokens.old + 8 ≤ length stack.old) × (0 < length room.old) }
    ensures { TextWritten (shown_plan (program_of plan.now)) area.old area.new result }
{
    let count = plan_tokens::put_plan(plan, words, stack, tokens);
    write(&tokens[0..count], stack, room, area)
}

// The same by arrays of these sizes on this function's stack: `STACK` and `TOKENS` for the tokens, `ROOM` for the text. Filling longer ones than a short plan
// needs would take longer than its text.
fn show_in<const STACK: usize, const TOKENS: usize, const ROOM: usize>(
    plan: &[u8],
    words: &[usize; 1024],
    area: &mut [u8],
) -> Result<usize, Refusal>
    requires given { Given plan.now words.now × (length (shown_plan (program_of plan.now)) ≤ TOKENS) }
    requires tokens_bound { (TOKENS + 8 ≤ STACK) × (STACK ≤ 16384) }
    requires room_bound { (0 < ROOM) × (ROOM ≤ 16384) }
    ensures { TextWritten (shown_plan (program_of plan.now)) area.old area.new result }
{
    let mut stack = [0u16; STACK];
    let mut tokens = [0u8; TOKENS];
    let mut room = [0u8; ROOM];
    show_by(plan, words, &mut stack, &mut tokens, &mut room, area)
}

// Every plan and every area gets an answer: a refusal of number 1 to 7 with its place, or of number 25, and no byte of the area changed; or the length of the
// plan's text, with which the area then begins, and otherwise is as it was.
pub fn show(plan: &[u8], area: &mut [u8]) -> Result<usize, Refusal>
    ensures answer { answered result ≡ show_answer plan.now area.old }
    ensures area { area.new ≡ show_area plan.now area.old }
{
    let mut words = [0usize; 1024];
    plan::load(plan, &mut words)?;
    match plan.len() {
        0..=60 => show_in::<198, 190, 320>(plan, &words, area),
        61..=210 => show_in::<648, 640, 768>(plan, &words, area),
        211..=679 => show_in::<2056, 2048, 2048>(plan, &words, area),
        _ => show_in::<11498, 11490, 12288>(plan, &words, area),
    }
}
