// Two records of a log between which nothing leads, in words, written behind the text that is there.
#![tactic(auto)]

ghost use Rattle.std.specs.Prelude.{◌+◌, ◌≤◌, ◌<◌, cond, length};
ghost use Rattle.log_records.specs.Packed.{kind_of};
ghost use Rattle.log_order.specs.Accesses.{is_write};
ghost use Rattle.text.specs.Inner.Wrote.{Wrote};
ghost use Rattle.text_record_lines.specs.Inner.Columns.{record_of};
ghost use Rattle.text_race_lines.specs.Lines.{apart_line, lack_line, access_part, other_part, conflict_lines};
ghost use Rattle.text_race_lines.specs.Inner.Written.{RaceRoom, WroteUnordered, ConflictRoom};

use log_packing::Columns;
use log_records::kind;

// The word for a write, where the kind of a plain access is one, and else the word for a read.
fn put_either(area: &mut [u8], at: usize, kind: usize, write: &[u8], read: &[u8]) -> usize
    requires { (at + length (cond (is_write (kind_of kind)) write.now read.now) ≤ length area.old) × (kind < 16) }
    ensures { Wrote area.old at (cond (is_write (kind_of kind)) write.now read.now) area.new result }
{
    match kind {
        kind::WRITE | kind::LACKS_WRITE => text::put_word(area, at, write),
        _ => text::put_word(area, at, read),
    }
}

// That nothing leads from one record to another.
pub fn put_apart(area: &mut [u8], at: usize, earlier: usize, later: usize) -> usize
    requires { at + length (apart_line earlier later) ≤ length area.old }
    ensures { Wrote area.old at (apart_line earlier later) area.new result }
{
    let at = text_phrases::put_phrase(area, at, b"nothing leads from record ", earlier);
    let at = text_phrases::put_phrase(area, at, b" to record ", later);
    text::put_byte(area, at, 10)
}

// An access that lacks the key of a write, the record at `index`.
fn put_lack(area: &mut [u8], at: usize, index: usize, write: Columns, access: Columns) -> usize
    requires { (at + length (lack_line index (record_of write) (record_of access)) ≤ length area.old) × (access.kind < 16) }
    ensures { Wrote area.old at (lack_line index (record_of write) (record_of access)) area.new result }
{
    let at = text_phrases::put_phrase(area, at, b"thread ", access.thread);
    let at = put_either(area, at, access.kind, b" writes", b" reads");
    let at = text_phrases::put_phrase(area, at, b" field ", access.field);
    let at = text_phrases::put_phrase(area, at, b" of object ", access.object);
    let at = text_phrases::put_phrase(area, at, b" without the key of thread ", write.thread);
    let at = text_phrases::put_phrase(area, at, b"'s write, record ", index);
    text::put_byte(area, at, 10)
}

// The access at `failing`, and the last write of its field before it: that the access lacks its key, and that nothing leads from the one to the other.
pub fn put_unordered(area: &mut [u8], at: usize, log: &[u8], failing: usize) -> usize
    requires { RaceRoom log.now failing area.old at }
    ensures { WroteUnordered log.now failing area.old at area.new result }
{
    let last = log_last_write::last_write(log, failing);
    let write = log_packing::columns_at(log, last);
    let access = log_packing::columns_at(log, failing);
    let at = put_lack(area, at, last, write, access);
    put_apart(area, at, last, failing)
}

// The access at `index`, with its field.
fn put_access(area: &mut [u8], at: usize, index: usize, access: Columns) -> usize
    requires { (at + length (access_part index (record_of access)) ≤ length area.old) × (access.kind < 16) }
    ensures { Wrote area.old at (access_part index (record_of access)) area.new result }
{
    let at = text_phrases::put_phrase(area, at, b"thread ", access.thread);
    let at = put_either(area, at, access.kind, b"'s write", b"'s read");
    let at = text_phrases::put_phrase(area, at, b" of field ", access.field);
    let at = text_phrases::put_phrase(area, at, b" of object ", access.object);
    text_phrases::put_phrase(area, at, b", record ", index)
}

// The access at `index`, to a field that was named, and that the two conflict.
fn put_other(area: &mut [u8], at: usize, index: usize, access: Columns) -> usize
    requires { (at + length (other_part index (record_of access)) ≤ length area.old) × (access.kind < 16) }
    ensures { Wrote area.old at (other_part index (record_of access)) area.new result }
{
    let at = text_phrases::put_phrase(area, at, b", and thread ", access.thread);
    let at = put_either(area, at, access.kind, b"'s write", b"'s read");
    let at = text_phrases::put_phrase(area, at, b", record ", index);
    let at = text::put_word(area, at, b", conflict");
    text::put_byte(area, at, 10)
}

// Two accesses that conflict, the records at these indices, and that nothing leads from the one to the other.
pub fn put_conflict(
    area: &mut [u8],
    at: usize,
    earlier: usize,
    first: Columns,
    later: usize,
    second: Columns,
) -> usize
    requires { ConflictRoom earlier first later second area.old at }
    ensures { Wrote area.old at (conflict_lines earlier (record_of first) later (record_of second)) area.new result }
{
    let at = put_access(area, at, later, second);
    let at = put_other(area, at, earlier, first);
    put_apart(area, at, earlier, later)
}
