// The line of a record of a log (document 01, "Shot list"), written behind the text that is there.
#![tactic(auto)]

ghost use Rattle.std.specs.Prelude.{◌+◌, ◌≤◌, ◌<◌, length};
ghost use Rattle.log_records.specs.Packed.{kind_of};
ghost use Rattle.text.specs.Inner.Wrote.{Wrote};
ghost use Rattle.text_record_lines.specs.Lines.{kind_word, record_line};
ghost use Rattle.text_record_lines.specs.Inner.Columns.{record_of};

use log_packing::Columns;
use log_records::kind;

// The word of a kind of access, or new.
fn put_access(area: &mut [u8], at: usize, kind: usize) -> usize
    requires { (at + length (kind_word (kind_of kind)) ≤ length area.old) × (5 < kind → 11 < kind) }
    ensures { Wrote area.old at (kind_word (kind_of kind)) area.new result }
{
    match kind {
        kind::READ => text::put_word(area, at, b"read"),
        kind::WRITE => text::put_word(area, at, b"write"),
        kind::VOLATILE_READ => text::put_word(area, at, b"readv"),
        kind::VOLATILE_WRITE => text::put_word(area, at, b"writev"),
        _ => text::put_word(area, at, b"new"),
    }
}

// The word of a kind; a number that is no kind's is read as NEW.
fn put_kind(area: &mut [u8], at: usize, kind: usize) -> usize
    requires { at + length (kind_word (kind_of kind)) ≤ length area.old }
    ensures { Wrote area.old at (kind_word (kind_of kind)) area.new result }
{
    match kind {
        kind::ACQUIRE => text::put_word(area, at, b"acquire"),
        kind::RELEASE => text::put_word(area, at, b"release"),
        kind::FORK => text::put_word(area, at, b"fork"),
        kind::JOIN => text::put_word(area, at, b"join"),
        kind::LACKS_READ => text::put_word(area, at, b"lacks-read"),
        kind::LACKS_WRITE => text::put_word(area, at, b"lacks-write"),
        _ => put_access(area, at, kind),
    }
}

// Index, kind, thread, object, field, value.
pub fn put_record(area: &mut [u8], at: usize, index: usize, columns: Columns) -> usize
    requires { at + length (record_line index (record_of columns)) ≤ length area.old }
    ensures { Wrote area.old at (record_line index (record_of columns)) area.new result }
{
    let at = text::put_number(area, at, index);
    let at = text::put_byte(area, at, 32);
    let at = put_kind(area, at, columns.kind);
    let at = text::put_column(area, at, columns.thread);
    let at = text::put_column(area, at, columns.object);
    let at = text::put_column(area, at, columns.field);
    let at = text::put_column(area, at, columns.value);
    text::put_byte(area, at, 10)
}
