// What a read or a write of a field does, by value.
#![tactic(auto)]

ghost use Rattle.std.specs.Prelude.{◌≡◌};
ghost use Rattle.run_accesses.specs.Inner.Accesses.{passed_of, act_read, act_write};

use log_records::kind;
use run_frames::refocusing;
use run_keys::KeySet;
use run_outcome::NoRoom;
use run_state::acted::{Act, acted_of, cell_with, entry, heard};
use run_state::{Cell, Counts, Head, Setting};

// What a volatile access passes on of a set: all of it in version 1, and else nothing.
fn passed_on(setting: Setting, keys: KeySet) -> KeySet
    ensures { result ≡ passed_of setting keys }
{
    if setting.version == 1 {
        return keys;
    }
    KeySet::new()
}

pub fn act_read(
    setting: Setting,
    counts: Counts,
    head: Head,
    cell: Cell,
    object: usize,
    field: usize,
) -> Act
    ensures { result ≡ act_read setting counts head cell object field }
{
    let keys = head.keys;
    let value = cell.value as usize;
    let go = refocusing::value(value);
    if run_look::has(setting.mask, field) {
        let cell_keys = cell.keys;
        let passed = passed_on(setting, cell_keys);
        let joined = keys.join(passed);
        let entry = entry(kind::VOLATILE_READ, object, field, value);
        return heard(go, counts, joined, cell, entry);
    }
    let entry = entry(kind::READ, object, field, value);
    acted_of(go, counts, keys, cell, entry)
}

pub fn act_write(
    setting: Setting,
    counts: Counts,
    head: Head,
    cell: Cell,
    object: usize,
    field: usize,
    value: usize,
) -> Act
    ensures { result ≡ act_write setting counts head cell object field value }
{
    let keys = head.keys;
    let cell_keys = cell.keys;
    let go = refocusing::value(value);
    if run_look::has(setting.mask, field) {
        let passed = passed_on(setting, keys);
        let joined = cell_keys.join(passed);
        let all = joined.keys;
        let changed = cell_with(value, 0, all);
        let entry = entry(kind::VOLATILE_WRITE, object, field, value);
        return acted_of(go, counts, keys, changed, entry);
    }
    let next = counts.keys;
    if 256 <= next {
        return Act::NoRoom(NoRoom::Key);
    }
    let key = next as u8;
    let known = keys.learn(key);
    let changed = cell_with(value, key, cell_keys);
    let used = next + 1;
    let counted = Counts {
        threads: counts.threads,
        objects: counts.objects,
        keys: used,
    };
    let entry = entry(kind::WRITE, object, field, value);
    acted_of(go, counted, known, changed, entry)
}
