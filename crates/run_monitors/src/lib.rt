// What a synch does at its start and at its end, a wait or a notify, and a thread that wakes, by value.
#![tactic(auto)]

ghost use Rattle.std.specs.Prelude.{◌≡◌};
ghost use Rattle.run_monitors.specs.Inner.Monitors.{act_synch, act_hold, act_wait, act_signal, act_wake};

use log_records::kind;
use run_frames::frame::{Frame, Kind};
use run_frames::{redex, refocusing};
use run_keys::KeySet;
use run_state::acted::{Act, acted_of, cell_with, entry, go_on, heard};
use run_state::{Cell, Counts, Head};

pub fn act_synch(
    counts: Counts,
    head: Head,
    cell: Cell,
    object: usize,
    term: usize,
    environment: usize,
) -> Act
    ensures { result ≡ act_synch counts head cell object term environment }
{
    let keys = head.keys;
    let cell_keys = cell.keys;
    if cell_keys.is_empty() {
        return go_on(refocusing::run(term, environment), counts, head, cell);
    }
    let joined = keys.join(cell_keys);
    let none = KeySet::new();
    let changed = cell_with(head.object, 0, none);
    let frame = Frame {
        kind: Kind::Hold,
        first: 0,
        second: 0,
        member: 0,
        count: 0,
        environment,
        arguments: object,
    };
    let go = refocusing::want(frame, term);
    let entry = entry(kind::ACQUIRE, object, 0, 0);
    heard(go, counts, joined, changed, entry)
}

pub fn act_hold(counts: Counts, head: Head, object: usize, value: usize) -> Act
    ensures { result ≡ act_hold counts head object value }
{
    let keys = head.keys;
    let changed = cell_with(0, 0, keys);
    let go = refocusing::value(value);
    let entry = entry(kind::RELEASE, object, 0, 0);
    acted_of(go, counts, keys, changed, entry)
}

// A wait gives up the monitor with the thread's keys, and goes on in the queue.
fn act_wait(counts: Counts, head: Head, object: usize) -> Act
    ensures { result ≡ act_wait counts head object }
{
    let keys = head.keys;
    let changed = cell_with(0, 0, keys);
    let go = refocusing::at(refocusing::ready_of(redex::WAITING, object, 0, 0, 0));
    let entry = entry(kind::RELEASE, object, 0, 0);
    acted_of(go, counts, keys, changed, entry)
}

// A wait; a notify or a notify all, which change the queue alone.
pub fn act_signal(counts: Counts, head: Head, cell: Cell, object: usize, signal: usize) -> Act
    ensures { result ≡ act_signal counts head cell object signal }
{
    if signal == 0 {
        return act_wait(counts, head, object);
    }
    go_on(refocusing::value(0), counts, head, cell)
}

// A thread that was notified takes the monitor again.
pub fn act_wake(counts: Counts, head: Head, cell: Cell, object: usize) -> Act
    ensures { result ≡ act_wake counts head cell object }
{
    let keys = head.keys;
    let given = cell.keys;
    let joined = keys.join(given);
    let none = KeySet::new();
    let changed = cell_with(head.object, 0, none);
    let go = refocusing::value(0);
    let entry = entry(kind::ACQUIRE, object, 0, 0);
    heard(go, counts, joined, changed, entry)
}
