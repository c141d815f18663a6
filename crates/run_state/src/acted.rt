// What a move does to the state, by value.
ghost use Rattle.std.specs.Prelude.{◌≡◌};
ghost use Rattle.run_state.specs.Inner.Acted.{entry_of, cell_of, acted_with, acted_of, heard_of, go_on};

use crate::{Cell, Counts, Entry, Head, Object};
use log_records::kind;
use run_frames::refocusing::Refocusing;
use run_keys::{Joined, KeySet};
use run_outcome::NoRoom;

// What a move does: where the mover goes on, its keys, the cell, the new object, the counts, the record, and how many keys it has learnt. Where it goes on
// stands first, as in a move that only goes on elsewhere, so that one byte of the one is not part of a whole number of the other.
#[derive(Clone, Copy)]
pub struct Acted {
    pub go: Refocusing,
    pub keys: KeySet,
    pub cell: Cell,
    pub object: Object,
    pub counts: Counts,
    pub entry: Entry,
    pub new: u32,
}

// A move is done, or there is no room for what it makes.
#[derive(Clone, Copy)]
pub enum Act {
    Done(Acted),
    NoRoom(NoRoom),
}

pub fn entry(kind: usize, object: usize, field: usize, value: usize) -> Entry
    ensures { result ≡ entry_of kind object field value }
{
    Entry {
        kind,
        object,
        field,
        value,
    }
}

pub fn cell_with(value: usize, key: u8, keys: KeySet) -> Cell
    ensures { result ≡ cell_of value key keys }
{
    Cell {
        keys,
        value: (value % 32) as u32,
        key: key as u32,
    }
}

// A move, with the fields and the thread of the object that it makes.
pub fn acted_with(
    go: Refocusing,
    counts: Counts,
    keys: KeySet,
    cell: Cell,
    entry: Entry,
    mask: usize,
    thread: usize,
) -> Act
    ensures { result ≡ acted_with go counts keys cell entry mask thread }
{
    let object = Object { mask, thread };
    Act::Done(Acted {
        go,
        keys,
        cell,
        object,
        counts,
        entry,
        new: 0,
    })
}

// A move that makes nothing.
pub fn acted_of(go: Refocusing, counts: Counts, keys: KeySet, cell: Cell, entry: Entry) -> Act
    ensures { result ≡ acted_of go counts keys cell entry }
{
    acted_with(go, counts, keys, cell, entry, 0, 8)
}

// A move that joins a set into the mover's, and counts the new keys.
pub fn heard(go: Refocusing, counts: Counts, joined: Joined, cell: Cell, entry: Entry) -> Act
    ensures { result ≡ heard_of go counts joined cell entry }
{
    let keys = joined.keys;
    let object = Object { mask: 0, thread: 8 };
    Act::Done(Acted {
        go,
        keys,
        cell,
        object,
        counts,
        entry,
        new: joined.new,
    })
}

// A move that only goes on elsewhere.
pub fn go_on(go: Refocusing, counts: Counts, head: Head, cell: Cell) -> Act
    ensures { result ≡ go_on go counts head cell }
{
    let keys = head.keys;
    acted_of(go, counts, keys, cell, entry(kind::NONE, 0, 0, 0))
}
