// The run of a schedule over a loaded plan. `run` owns flat arrays of small structs, 32 cells to an object, the monitor at field 0; the frames lie in
// an array of numbers that only refocusing touches, the places of threads in queues in one that only a signal changes. What is made is stored past the
// present ones, and counts once it is counted.
#![tactic(auto)]

ghost use Rattle.std.specs.Prelude.{◌≡◌, ◌≤◌};
ghost use Rattle.run_engine.specs.Inner.Engine.{Placed, head_of, no_object, thread_by, start_of};
ghost use Rattle.run_state.specs.Inner.Acted.{nothing};
ghost use Rattle.run_engine.specs.Inner.Exploring.{pick_at, Unseen, Explorable, ExploredOn};

use run_frames::{redex, refocusing};
use run_keys::KeySet;
use run_outcome::{NoRoom, Stop, Thread, ThreadState};
use run_pick::{Begun, Met};
use run_state::{Counts, Head, Object, Setting};
use run_tally::Ran;

pub mod kept;

// About to call main.
pub fn first_head(root: usize) -> Head
    ensures { result ≡ head_of root }
{
    let call = refocusing::ready_of(redex::RUN, root, 0, 0, 0);
    let one = KeySet::zero();
    Head {
        ready: call,
        depth: 0,
        object: 0,
        keys: one,
        learnt: 0,
    }
}

// No fields; the first object stands for thread 0.
pub fn first_object() -> Object
    ensures { result ≡ no_object }
{
    Object { mask: 0, thread: 0 }
}

// No object is made.
pub fn no_object() -> Object
    ensures { result ≡ nothing }
{
    Object { mask: 0, thread: 8 }
}

// The cell that the thread's redex is about, 32 to an object.
pub fn cell_of(head: Head) -> usize
    ensures { Placed head.ready result }
{
    let ready = head.ready;
    let object = run_look::object_of(ready);
    let field = run_look::field_of(ready);
    object * 32 + field
}

// What a thread's next pick would meet, and its total.
pub fn thread_of(setting: Setting, met: Met) -> Thread
    ensures { result ≡ thread_by setting met }
{
    let counts = met.counts;
    if counts.threads <= met.thread {
        return run_open_threads::no_thread();
    }
    let head = met.head;
    let cell = met.cell;
    let object = met.object;
    let other = met.other;
    let joined = other.ready;
    let state = run_look::status(setting, head, cell, object, joined.redex, met.place);
    let learnt = (head.learnt % 256) as u8;
    Thread { state, learnt }
}

// What a run comes to that may go on behind the given picks, and how many picks it made, one that stopped it among them.
#[derive(Clone, Copy)]
pub struct Explored {
    pub ran: Ran,
    pub made: usize,
}

// The pick of a place: the given one, and behind those the lowest thread that can be picked.
fn pick_at(picks: &[u8], place: usize, lowest: usize) -> usize
    ensures { result ≡ pick_at picks.now place lowest }
{
    if place < picks.len() {
        return byte_numbers::wide(picks[place]);
    }
    lowest
}

// How many picks are made before the first look at all threads: all of them where nothing is noted, and else none.
fn unseen(picks: usize, places: usize) -> usize
    ensures { Unseen picks places result }
{
    if places == 0 { picks } else { 0 }
}

// The run of the picks from the start, with its records in the log, of every move or of those that have one; then what each of the eight threads would meet.
// Where notes are lent, it goes on behind the picks by the lowest thread that can be picked, and notes at each place that thread and the lowest above the pick
// that could be picked there, or 8. It owns arrays of structs, which no function can be lent, so its loops stand in it. A thread whose pick was passed over is
// not looked at again before the next move: nothing has changed that it would meet.
pub fn explore(
    words: &[usize; 1024],
    roots: &[usize; 32],
    setting: Setting,
    every: bool,
    picks: &[u8],
    notes: &mut [u8],
    log: &mut [u8],
) -> Explored
    requires { Explorable picks.now notes.old log.old }
    ensures { ExploredOn words.now roots.now setting (start_of every roots.now log.old)
        picks.now notes.old notes.new log.new result }
{
    let mut heads = [run_pick::no_head(); 16];
    heads[0] = first_head(roots[0]);
    let mut cells = [kept::zeros(); 1024];
    let mut objects = [first_object(); 33];
    let mut places = [0u16; 8];
    let mut lists = [0usize; 32];
    let mut stack = [0usize; 891];
    let mut passed = [false; 8];
    let mut tally = run_tally::first();
    let mut stop = Stop::End;
    let mut dealt = 0;
    let mut moves_before = 0;
    let mut records_before = 0;
    let mut threads = [run_open_threads::no_thread(); 8];
    let mut lowest = 0;
    let mut from = 0;
    let mut to = unseen(picks.len(), notes.len());
    loop {
        dealt = to;
        for i in from..to {
            moves_before = tally.moves;
            records_before = tally.records;
            let thread = pick_at(picks, i, lowest) % 8;
            let counts = tally.counts;
            if counts.threads <= thread {
                continue;
            }
            if passed[thread] {
                continue;
            }
            let head = heads[thread];
            let ready = head.ready;
            let mut begun = Begun::Passed;
            if run_act::goes_on(ready.redex) {
                begun = run_pick::went(head);
            } else {
                let number = cell_of(head);
                let stored = cells[number];
                let cell = kept::restore(stored);
                let object = objects[number / 32];
                let other = heads[object.thread % 16];
                let met = Met {
                    counts,
                    head,
                    cell,
                    object,
                    other,
                    thread,
                    place: places[thread],
                };
                begun = run_pick::begin(setting, met);
            }
            let (Begun::Went(_) | Begun::Acted(_)) = begun else {
                let Begun::Stopped {
                    stop: reason,
                    entry,
                } = begun
                else {
                    passed[thread] = true;
                    continue;
                };
                tally = run_tally::put(&mut *log, tally, thread, entry);
                stop = reason;
                dealt = i;
                break;
            };
            let go = run_pick::go_of(begun);
            let refocusings = run_pick::refocus(
                words, roots, &mut lists, &mut stack, counts, head, thread, go,
            );
            let last = refocusings.last;
            if run_refocusing::full(last) {
                stop = Stop::NoRoom(NoRoom::Depth);
                dealt = i;
                break;
            }
            passed = [false; 8];
            let mover = heads[thread];
            let Begun::Acted(acted) = begun else {
                let none = run_pick::no_entry();
                tally = run_tally::put_move(&mut *log, tally, every, thread, none);
                heads[thread] = run_pick::gone(mover, last);
                objects[run_pick::remainder(counts.objects, 33)] = no_object();
                tally = run_tally::moved(tally, counts);
                continue;
            };
            run_queue::after(&mut places, ready, thread);
            let entry = acted.entry;
            tally = run_tally::put_move(&mut *log, tally, every, thread, entry);
            if ready.redex == redex::FORK {
                let refocused = refocusings.before;
                heads[run_pick::remainder(counts.threads, 9)] = run_pick::forked(
                    mover,
                    counts.objects,
                    last,
                );
                heads[thread] = run_pick::moved(mover, acted, refocused);
            } else {
                heads[thread] = run_pick::moved(mover, acted, last);
            }
            if run_act::changes(ready.redex) {
                let number = cell_of(head);
                let changed = acted.cell;
                cells[number] = kept::keep(changed);
            }
            let made = acted.object;
            let counted = acted.counts;
            objects[run_pick::remainder(counts.objects, 33)] = made;
            tally = run_tally::moved(tally, counted);
        }
        let counts = tally.counts;
        for thread in 0..8 {
            if thread >= counts.threads {
                threads[thread] = run_open_threads::no_thread();
                continue;
            }
            let head = heads[thread];
            let number = cell_of(head);
            let stored = cells[number];
            let cell = kept::restore(stored);
            let object = objects[number / 32];
            let other = heads[object.thread % 16];
            let met = Met {
                counts,
                head,
                cell,
                object,
                other,
                thread,
                place: places[thread],
            };
            threads[thread] = thread_of(setting, met);
        }
        lowest = run_open_threads::goes_on_by(threads, dealt < to, notes.len(), to);
        if lowest == 8 {
            break;
        }
        let pick = pick_at(picks, to, lowest);
        notes[to] = run_place_notes::note(threads, lowest, pick);
        from = to;
        to += 1;
    }
    let ran = run_tally::result(stop, dealt, tally, moves_before, records_before, threads);
    Explored { ran, made: to }
}
