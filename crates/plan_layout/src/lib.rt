// Tokens as text: spaces, lines, indentation (docs/FORMAT.md, "A plan as text").
#![tactic(auto)]

pub mod rows;

ghost use Rattle.std.specs.Prelude.{◌≡◌, ◌+◌, ◌<◌, ◌≤◌, ◌++◌, length, replicate, IfSome};
ghost use Rattle.format.specs.Area.{overwrite};
ghost use Rattle.text.specs.Inner.Wrote.{Wrote};
ghost use Rattle.plan_notation.specs.Tokens.{text_end, text_of};
ghost use Rattle.plan_notation.specs.Inner.Known.{Known};
ghost use Rattle.plan_notation.specs.Layout.{laid_out};
ghost use Rattle.plan_layout.specs.Inner.Rows.{text_rows};
ghost use Rattle.plan_layout.specs.Inner.Marks.{gap_of, Marked, WroteWithin, LaidWithin};
ghost use Rattle.plan_pen.specs.Inner.Pens.{gap_bytes};
ghost use Rattle.plan_pen.specs.Inner.Looks.{look_rows};

use plan_pen::looks::Looks;
use plan_pen::{Gap, Pen};
use rows::Rows;

// A gap as a mark.
fn mark(gap: Gap) -> u16
    requires { gap.spaces ≤ 40 }
    ensures { gap_of result ≡ gap }
{
    if gap.feed {
        return 64 + gap.spaces as u16;
    }
    gap.spaces as u16
}

fn gap_of(mark: u16) -> Gap
    ensures { result ≡ gap_of mark }
{
    let number = mark as usize;
    Gap {
        spaces: number % 64,
        feed: 64 <= number,
    }
}

// How many bytes the text of some tokens has, and the marks of their gaps.
pub fn measure(rows: &Rows, looks: &Looks, tokens: &[u8], marks: &mut [u16]) -> usize
    requires rows_value { (rows.now ≡ text_rows) × (looks.now ≡ look_rows) × Known tokens.now }
    requires tokens_len_bound { (length tokens.now ≤ 16384) × (length tokens.now ≤ length marks.old) }
    ensures { (result ≡ length (laid_out tokens.now)) × Marked tokens.now marks.new }
{
    let mut pen = Pen::start();
    let mut total = 0;
    for (index, token) in tokens.iter().enumerate() {
        let width = rows.width(*token);
        let gap = pen.pass(looks, *token, width);
        marks[index] = mark(gap);
        total += gap.length() + width;
    }
    total + 1
}

fn put_spaces(area: &mut [u8], at: usize, count: usize) -> usize
    requires { at + count ≤ length area.old }
    ensures { Wrote area.old at (replicate count 32) area.new result }
{
    let end = at + count;
    area[at..end].fill(b' ');
    end
}

fn put_gap(area: &mut [u8], at: usize, gap: Gap) -> usize
    requires { at + length (gap_bytes gap) ≤ length area.old }
    ensures { Wrote area.old at (gap_bytes gap) area.new result }
{
    if gap.feed {
        let next = text::put_byte(area, at, b'\n');
        return put_spaces(area, next, gap.spaces);
    }
    put_spaces(area, at, gap.spaces)
}

fn put_token(area: &mut [u8], at: usize, rows: &Rows, token: u8, width: usize) -> usize
    requires { (token < text_end) × (width ≡ length (text_of token)) × (at + width ≤ length area.old) }
    ensures { Wrote area.old at (text_of token) area.new result }
{
    let row = rows.row(token);
    text::put_word(area, at, &row[1..1 + width])
}

// A gap, and spaces up to 41 bytes.
fn put_wide_gap(area: &mut [u8], at: usize, gap: Gap) -> usize
    requires { (gap.spaces ≤ 40) × (at + 41 ≤ length area.old) }
    ensures { WroteWithin area.old at (gap_bytes gap) area.new result (at + 41) }
{
    if gap.feed {
        let next = text::put_byte(area, at, b'\n');
        put_spaces(area, next, 40);
        return next + gap.spaces;
    }
    put_spaces(area, at, 40);
    at + gap.spaces
}

// A token, and what else is in its row.
fn put_wide_token(area: &mut [u8], at: usize, rows: &Rows, token: u8, width: usize) -> usize
    requires { (token < text_end) × (width ≡ length (text_of token)) × (at + 9 ≤ length area.old) }
    ensures { WroteWithin area.old at (text_of token) area.new result (at + 9) }
{
    let row = rows.row(token);
    text::put_word(area, at, &row[1..10]);
    at + width
}

// A gap and a token, and what else is written with them.
fn put_wide(area: &mut [u8], at: usize, rows: &Rows, token: u8, gap: Gap, width: usize) -> usize
    requires { (token < text_end) × (width ≡ length (text_of token)) × (gap.spaces ≤ 40) × (at + 50 ≤ length area.old) }
    ensures { WroteWithin area.old at (gap_bytes gap ++ text_of token) area.new result (at + 50) }
{
    let next = put_wide_gap(area, at, gap);
    put_wide_token(area, next, rows, token, width)
}

// A token behind its gap. Where the text goes on for 50 bytes, both are written with so many bytes as any has, since what follows is written over these.
fn put_next(rows: &Rows, token: u8, gap: Gap, area: &mut [u8], at: usize, total: usize) -> usize
    requires token_value { (token < text_end) × (gap.spaces ≤ 40) }
    requires token_bound { (at + length (gap_bytes gap) + length (text_of token) ≤ total) × (total ≤ length area.old) }
    ensures { WroteWithin area.old at (gap_bytes gap ++ text_of token) area.new result total }
{
    let width = rows.width(token);
    if total - at < 50 {
        let next = put_gap(area, at, gap);
        return put_token(area, next, rows, token, width);
    }
    put_wide(area, at, rows, token, gap, width)
}

// The text of some tokens and the marks of their gaps, at the start of an area that has room for it.
pub fn lay_out(rows: &Rows, tokens: &[u8], marks: &[u16], area: &mut [u8], total: usize)
    requires rows_value { (rows.now ≡ text_rows) × Known tokens.now × Marked tokens.now marks.now × (length tokens.now ≤ 16384) }
    requires tokens_in_bounds { (length tokens.now ≤ length marks.now) × (total ≡ length (laid_out tokens.now)) × (total ≤ length area.old) }
    ensures { area.new ≡ overwrite (laid_out tokens.now) area.old }
{
    let mut at = 0;
    for (index, token) in tokens.iter().enumerate() {
        let gap = gap_of(marks[index]);
        at = put_next(rows, *token, gap, area, at, total);
    }
    text::put_byte(area, at, b'\n');
}

// The text of some tokens, gaps found and written at once, at the start of a room, and how long it is: none where fewer than 51 bytes of the room are left
// before a token, since both are written with so many bytes as any has, and a line feed may follow.
pub fn lay_within(rows: &Rows, looks: &Looks, tokens: &[u8], room: &mut [u8]) -> Option<usize>
    requires rows_value { (rows.now ≡ text_rows) × (looks.now ≡ look_rows) × Known tokens.now }
    requires tokens_len_bound { (length tokens.now ≤ 16384) × (0 < length room.old) }
    ensures { IfSome result (LaidWithin tokens.now room.new) }
{
    let mut pen = Pen::start();
    let mut at = 0;
    for token in tokens {
        if room.len() - at < 51 {
            return None;
        }
        let width = rows.width(*token);
        let gap = pen.pass(looks, *token, width);
        at = put_wide(room, at, rows, *token, gap, width);
    }
    Some(text::put_byte(room, at, b'\n'))
}
