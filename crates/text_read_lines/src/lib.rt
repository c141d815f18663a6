// The line of a text that is no plan, written behind the text that is there.
#![tactic(auto)]

mod reasons; // reasons.rt: the sentences as one row of bytes

ghost use Rattle.std.specs.Prelude.{◌+◌, ◌≤◌, ◌<◌, ◌≡◌, length};
ghost use Rattle.text.specs.Inner.Wrote.{Wrote};
ghost use Rattle.plan_parser_goals.specs.Inner.Encoded.{goal_of, sort_of, reason_of};
ghost use Rattle.read.specs.Answer.{failure_of};
ghost use Rattle.text_read_lines.specs.Reasons.{token_row, sort_row, goal_row, reason_row, failure_row, place_words, reason_words, failure_line};

// The row of a token that is wanted.
fn token_row(token: usize) -> usize
    ensures { result ≡ token_row token }
{
    match token {
        0..32 => 9,
        42 => 10,
        43 => 11,
        44 => 12,
        45 => 13,
        46 => 14,
        62 => 15,
        63 => 16,
        66 => 18,
        _ => 0,
    }
}

// The row of a sort.
fn sort_row(sort: usize) -> usize
    ensures { result ≡ sort_row (sort_of sort) }
{
    match sort {
        0 => 3,
        1 => 1,
        _ => 2,
    }
}

// The row of what was to be read, by its number.
fn goal_row(goal: usize) -> usize
    ensures { result ≡ goal_row (goal_of goal) }
{
    match goal {
        0..128 => token_row(goal),
        128..160 => 0,
        160..176 => sort_row((goal - 160) % 3),
        176..192 => sort_row((goal - 176) % 3),
        192 => 4,
        193 => 6,
        194..256 => 8,
        256..640 => 5,
        _ => 7,
    }
}

// The row of why reading stops.
fn reason_row(reason: usize) -> usize
    ensures { result ≡ reason_row (reason_of reason) }
{
    match reason {
        1000 => 19,
        1001 => 20,
        1002 => 17,
        _ => goal_row(reason),
    }
}

// The row of why a text is no plan.
fn failure_row(kind: usize, reason: usize) -> usize
    ensures { result ≡ failure_row (failure_of kind reason) }
{
    match kind {
        0 => reason_row(reason),
        1 => 21,
        2 => 22,
        4 => 24,
        _ => 23,
    }
}

// Where reading stops.
fn put_place(area: &mut [u8], at: usize, line: usize, column: usize) -> usize
    requires { at + length (place_words line column) ≤ length area.old }
    ensures { Wrote area.old at (place_words line column) area.new result }
{
    let at = text::put_word(area, at, b"no plan: line ");
    let at = text::put_number(area, at, line);
    let at = text::put_word(area, at, b", column ");
    let at = text::put_number(area, at, column);
    text::put_word(area, at, b": ")
}

// Why.
fn put_reason(area: &mut [u8], at: usize, row: usize) -> usize
    requires { (row < 25) × (at + length (reason_words row) ≤ length area.old) }
    ensures { Wrote area.old at (reason_words row) area.new result }
{
    let words = reasons::words();
    let starts = reasons::starts();
    let at = text_word_table::put_row(area, at, &words, &starts, row);
    text::put_byte(area, at, b'\n')
}

// The line, by what `read` answers.
pub fn put_failure(
    area: &mut [u8],
    at: usize,
    line: usize,
    column: usize,
    kind: usize,
    reason: usize,
) -> usize
    requires { at + length (failure_line line column (failure_of kind reason)) ≤ length area.old }
    ensures { Wrote area.old at (failure_line line column (failure_of kind reason)) area.new result }
{
    let at = put_place(area, at, line, column);
    put_reason(area, at, failure_row(kind, reason))
}
