// One pick, in three steps: how it begins, by what it meets; its refocusings; what it leaves of a head. The frames alone are lent; all else goes by value. A
// move
// that only goes on elsewhere is a case of its own, in which nothing but the thread's head is looked at.
#![tactic(auto)]

ghost use Rattle.std.specs.Prelude.{◌≡◌, ◌<◌, ◌+◌, ◌%◌, false};
ghost use Rattle.run_act.specs.Inner.Act.{goes_on_by, act_pure};
ghost use Rattle.run_state.specs.Inner.Acted.{no_entry};
ghost use Rattle.run_lists.specs.Inner.Lists.{Right};
ghost use Rattle.run_pick.specs.Inner.Pick.{stopped_for, lack_entry, refocused_head, no_head, mover_way, forked_way, begun_by, begin_of, go_of, refocusings_from};
ghost use Rattle.run_pick.specs.Inner.Pick.{act_met};
ghost use Rattle.run_outcome.specs.declared.Stop.TheVariants as stop;
ghost use Rattle.run_pick.specs.declared.Begun.TheVariants as begun;

use log_records::kind;
use run_frames::refocusing::{Ready, Refocusing};
use run_frames::{redex, refocusing};
use run_keys::KeySet;
use run_look::Sight;
use run_outcome::{NoRoom, Stop};
use run_refocusing::{Refocused, Refocusings, Way};
use run_state::acted::{Act, Acted};
use run_state::{Cell, Counts, Entry, Head, Object, Setting, acted};

// What a pick meets: the counts, the thread's head, the cell and the object that its redex is about, the head of the thread that the object stands for,
// the thread's number, and its place in a queue.
#[derive(Clone, Copy)]
pub struct Met {
    pub counts: Counts,
    pub head: Head,
    pub cell: Cell,
    pub object: Object,
    pub other: Head,
    pub thread: usize,
    pub place: u16,
}

// How a pick begins: it is passed over, stops the run with a last record, is a move that only goes on elsewhere, or another move.
#[derive(Clone, Copy)]
pub enum Begun {
    Passed,
    Stopped { stop: Stop, entry: Entry },
    Went(Refocusing),
    Acted(Acted),
}

// No record.
pub fn no_entry() -> Entry
    ensures { result ≡ no_entry }
{
    acted::entry(kind::NONE, 0, 0, 0)
}

// A stop for want of room, which leaves no record.
fn no_room(room: NoRoom) -> Begun
    ensures { result ≡ stopped_for room }
{
    Begun::Stopped {
        stop: Stop::NoRoom(room),
        entry: no_entry(),
    }
}

// The record of an access that lacks its key.
fn lack(ready: Ready) -> Entry
    ensures { result ≡ lack_entry ready }
{
    if ready.redex == redex::WRITE {
        return acted::entry(kind::LACKS_WRITE, ready.first, ready.second, ready.third);
    }
    acted::entry(kind::LACKS_READ, ready.first, ready.second, 0)
}

// A stop for want of a key, with that record.
fn race(ready: Ready) -> Begun
    ensures { result ≡ begun.Stopped stop.Race (lack_entry ready) }
{
    Begun::Stopped {
        stop: Stop::Race,
        entry: lack(ready),
    }
}

// A thread where its refocusing ended.
fn head_at(refocused: Refocused, object: usize, keys: KeySet, learnt: usize) -> Head
    ensures { result ≡ refocused_head refocused object keys learnt }
{
    let ready = refocused.ready;
    Head {
        ready,
        depth: refocused.depth,
        object,
        keys,
        learnt,
    }
}

// No thread: none is made, or none is there yet.
pub fn no_head() -> Head
    ensures { result ≡ no_head }
{
    let none = refocusing::ready_of(redex::DONE, 0, 0, 0, 0);
    let keys = KeySet::new();
    Head {
        ready: none,
        depth: 0,
        object: 0,
        keys,
        learnt: 0,
    }
}

// The mover of a move that only goes on elsewhere, where it refocused.
pub fn gone(head: Head, refocused: Refocused) -> Head
    ensures { result ≡ refocused_head refocused head.object head.keys (head.learnt % 256) }
{
    let keys = head.keys;
    head_at(refocused, head.object, keys, head.learnt % 256)
}

// The mover of another move, where it refocused.
pub fn moved(head: Head, acted: Acted, refocused: Refocused) -> Head
    ensures { result ≡ refocused_head refocused head.object acted.keys (head.learnt % 256 + acted.new) }
{
    let keys = acted.keys;
    let learnt = head.learnt % 256 + acted.new as usize;
    head_at(refocused, head.object, keys, learnt)
}

// The thread that a fork makes, where it refocused: its object is the next one, its keys are its maker's, and it has learnt none of them.
pub fn forked(head: Head, object: usize, refocused: Refocused) -> Head
    ensures { result ≡ refocused_head refocused object head.keys 0 }
{
    let keys = head.keys;
    head_at(refocused, object, keys, 0)
}

// How a move begins that only goes on elsewhere.
pub fn went(head: Head) -> Begun
    ensures { result ≡ begun.Went (act_pure head) }
{
    Begun::Went(run_act::act_pure(head))
}

// How the move of a thread that is ready begins, where there is room for it.
fn make(setting: Setting, met: Met) -> Begun
    ensures { result ≡ begun_by (act_met setting met) }
{
    let counts = met.counts;
    let head = met.head;
    let cell = met.cell;
    let object = met.object;
    let other = met.other;
    let act = run_act::act(setting, counts, head, cell, object, other);
    match act {
        Act::Done(acted) => Begun::Acted(acted),
        Act::NoRoom(room) => no_room(room),
    }
}

// How a pick of a thread that is there begins, where its move would not only go on elsewhere.
pub fn begin(setting: Setting, met: Met) -> Begun
    requires { goes_on_by met.head.ready.redex ≡ false }
    ensures { result ≡ begin_of setting met }
{
    let head = met.head;
    let cell = met.cell;
    let object = met.object;
    let other = met.other;
    let ready = head.ready;
    let joined = other.ready;
    let sight = run_look::look(setting, head, cell, object, joined.redex, met.place);
    match sight {
        Sight::Ready => make(setting, met),
        Sight::Lacking => race(ready),
        Sight::Blocked(_) => Begun::Passed,
    }
}

// The remainder of a number by a limit: mostly the number is below it, and none is computed.
pub fn remainder(number: usize, limit: usize) -> usize
    requires { 0 < limit }
    ensures { result ≡ number % limit }
{
    if number < limit {
        return number;
    }
    number % limit
}

// From where the mover refocuses.
fn mover_way(thread: usize, head: Head, from: Refocusing) -> Way
    requires { thread < 8 }
    ensures { result ≡ mover_way thread head from }
{
    Way {
        base: thread * 33,
        depth: remainder(head.depth, 33),
        go: from,
    }
}

// From where the thread refocuses that a fork makes.
fn forked_way(counts: Counts, head: Head) -> Way
    ensures { result ≡ forked_way counts head }
{
    let ready = head.ready;
    let from = refocusing::run(ready.first, ready.environment);
    Way {
        base: remainder(counts.threads, 9) * 33,
        depth: 0,
        go: from,
    }
}

// From where a move refocuses that begins so.
pub fn go_of(begun: Begun) -> Refocusing
    ensures { result ≡ go_of begun }
{
    match begun {
        Begun::Passed => refocusing::full(),
        Begun::Stopped { stop: _, entry: _ } => refocusing::full(),
        Begun::Went(go) => go,
        Begun::Acted(acted) => acted.go,
    }
}

// Refocuses the mover from here and, of a fork, the thread that it makes. All moves go through one call of `run_refocusing`, so that it is compiled into the
// caller.
pub fn refocus(
    words: &[usize; 1024],
    roots: &[usize; 32],
    lists: &mut [usize; 32],
    stack: &mut [usize; 891],
    counts: Counts,
    head: Head,
    thread: usize,
    from: Refocusing,
) -> Refocusings
    requires { (thread < 8) × Right words.now lists.old }
    ensures result_value { (record { stack = stack.exit.now; refocusings = result }) ≡ refocusings_from words.now roots.now counts head thread from
        stack.entry.now }
    ensures right { Right words.now lists.new }
{
    let ready = head.ready;
    let forks = ready.redex == redex::FORK;
    let mover = mover_way(thread, head, from);
    let forked = forked_way(counts, head);
    run_refocusing::refocus(words, roots, lists, stack, mover, forked, forks)
}
