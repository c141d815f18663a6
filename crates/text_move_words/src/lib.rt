// What a thread does by a move, in words.
#![tactic(auto)]

ghost use Rattle.std.specs.Prelude.{◌+◌, ◌≤◌, ◌++◌, length};
ghost use Rattle.log_packing.specs.Inner.Columns.{Narrow};
ghost use Rattle.text_record_lines.specs.Inner.Columns.{record_of};
ghost use Rattle.text.specs.Text.{ascii, decimal};
ghost use Rattle.text.specs.Inner.Wrote.{Wrote};
ghost use Rattle.text_move_words.specs.Words.{record_words};

use log_packing::Columns;
use log_records::kind;

// A word with a field or a thread, and its object.
fn put_place(area: &mut [u8], at: usize, word: &[u8], field: usize, object: usize) -> usize
    requires { at + (length word.now + 51) ≤ length area.old }
    ensures wrote { Wrote area.old at ((word.now ++ decimal field) ++ (ascii " of object " ++ decimal object)) area.new result }
    ensures upper_bound { result ≤ at + (length word.now + 51) }
{
    text_phrase_pairs::put_two(area, at, word, field, b" of object ", object)
}

// What a record says that its thread does, at most 100 bytes.
pub fn put_move(area: &mut [u8], at: usize, columns: Columns) -> usize
    requires narrow { Narrow columns }
    requires room { at + 100 ≤ length area.old }
    ensures wrote { Wrote area.old at (record_words (record_of columns)) area.new result }
    ensures within { result ≤ at + 100 }
{
    let kind = columns.kind;
    let field = columns.field;
    let object = columns.object;
    match kind {
        kind::READ => put_place(area, at, b" reads field ", field, object),
        kind::WRITE => put_place(area, at, b" writes field ", field, object),
        kind::VOLATILE_READ => put_place(area, at, b" reads volatile field ", field, object),
        kind::VOLATILE_WRITE => put_place(area, at, b" writes volatile field ", field, object),
        kind::ACQUIRE => text_phrases::put_phrase(
            area,
            at,
            b" acquires the monitor of object ",
            object,
        ),
        kind::RELEASE => text_phrases::put_phrase(
            area,
            at,
            b" releases the monitor of object ",
            object,
        ),
        kind::FORK => put_place(area, at, b" forks thread ", field, object),
        kind::JOIN => put_place(area, at, b" joins thread ", field, object),
        kind::LACKS_READ => put_place(area, at, b" reads, without its key, field ", field, object),
        kind::LACKS_WRITE => put_place(
            area,
            at,
            b" writes, without its key, field ",
            field,
            object,
        ),
        _ => text_phrases::put_phrase(area, at, b" makes object ", object),
    }
}
