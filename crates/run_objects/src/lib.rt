// What a new, a fork or a join does, by value.
#![tactic(auto)]

ghost use Rattle.std.specs.Prelude.{◌≡◌};
ghost use Rattle.run_objects.specs.Inner.Objects.{act_new, act_fork, act_join};

use log_records::kind;
use run_frames::refocusing;
use run_outcome::NoRoom;
use run_state::acted::{Act, acted_with, entry, heard};
use run_state::{Cell, Counts, Head, Object};

pub fn act_new(counts: Counts, head: Head, cell: Cell, mask: usize) -> Act
    ensures { result ≡ act_new counts head cell mask }
{
    let object = counts.objects;
    if 32 <= object {
        return Act::NoRoom(NoRoom::Object);
    }
    let keys = head.keys;
    let entry = entry(kind::NEW, object, 0, 0);
    let objects = object + 1;
    let counted = Counts {
        threads: counts.threads,
        objects,
        keys: counts.keys,
    };
    let go = refocusing::value(object);
    acted_with(go, counted, keys, cell, entry, mask, 8)
}

pub fn act_fork(counts: Counts, head: Head, cell: Cell) -> Act
    ensures { result ≡ act_fork counts head cell }
{
    let thread = counts.threads;
    let object = counts.objects;
    if 8 <= thread {
        return Act::NoRoom(NoRoom::Thread);
    }
    if 32 <= object {
        return Act::NoRoom(NoRoom::Object);
    }
    let keys = head.keys;
    let entry = entry(kind::FORK, object, thread, 0);
    let threads = thread + 1;
    let objects = object + 1;
    let counted = Counts {
        threads,
        objects,
        keys: counts.keys,
    };
    let go = refocusing::value(object);
    acted_with(go, counted, keys, cell, entry, 0, thread)
}

pub fn act_join(
    counts: Counts,
    head: Head,
    cell: Cell,
    object: Object,
    other: Head,
    number: usize,
) -> Act
    ensures { result ≡ act_join counts head cell object other number }
{
    let keys = head.keys;
    let other_keys = other.keys;
    let joined = keys.join(other_keys);
    let ready = other.ready;
    let value = ready.first;
    let go = refocusing::value(value);
    let entry = entry(kind::JOIN, number, object.thread, value);
    heard(go, counts, joined, cell, entry)
}
