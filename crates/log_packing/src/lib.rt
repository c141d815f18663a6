// A record of the log: its columns packed into three bytes, and taken apart again.
#![tactic(auto)]

ghost use Rattle.std.specs.Prelude.{◌≡◌, ◌+◌, ◌*◌, ◌/◌, ◌<◌, ◌≤◌, length};
ghost use Rattle.format.specs.Bits.{bits_at};
ghost use Rattle.log_packing.specs.Inner.Columns.{ReadAt};
ghost use Rattle.log_packing.specs.Inner.Packing.{word_of, put_at};

#[derive(Clone, Copy)]
pub struct Columns {
    pub kind: usize,
    pub thread: usize,
    pub object: usize,
    pub field: usize,
    pub value: usize,
    pub spare: usize,
}

// The 24 bits of the record at an index.
fn word_at(log: &[u8], index: usize) -> usize
    requires { index < length log.now / 3 }
    ensures value { result ≡ bits_at log.now (24 * index) 24 }
    ensures result_in { result < 16777216 }
{
    let first = byte_numbers::wide(log[3 * index]);
    let second = byte_numbers::wide(log[3 * index + 1]);
    let third = byte_numbers::wide(log[3 * index + 2]);
    (first * 256 + second) * 256 + third
}

// The columns of the record at an index: kind 4 bits, thread 3, object 5, field 5, value 5, spare 2.
pub fn columns_at(log: &[u8], index: usize) -> Columns
    requires { index < length log.now / 3 }
    ensures { ReadAt log.now index result }
{
    let word = word_at(log, index);
    Columns {
        kind: word / 1048576,
        thread: word / 131072 % 8,
        object: word / 4096 % 32,
        field: word / 128 % 32,
        value: word / 4 % 32,
        spare: word % 4,
    }
}

// Writes the record at an index, its spare bits 0. Of each number the bits of its column are kept.
pub fn put_columns(
    log: &mut [u8],
    index: usize,
    kind: usize,
    thread: usize,
    object: usize,
    field: usize,
    value: usize,
)
    requires { (index * 3 + 3 ≤ length log.old) × (index ≤ 4096) }
    ensures { log.new ≡ put_at log.old index (word_of kind thread object field value) }
{
    let word = (((kind % 16 * 8 + thread % 8) * 32 + object % 32) * 32 + field % 32) * 128
        + value % 32 * 4;
    let at = index * 3;
    log[at] = (word / 65536 % 256) as u8;
    log[at + 1] = (word / 256 % 256) as u8;
    log[at + 2] = (word % 256) as u8;
}
