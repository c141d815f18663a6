// What a run counts and records: threads, objects and keys; moves; records, three bytes each in the log, for the moves that have one or for every move; and
// what the run comes to by its counts.
#![tactic(auto)]

ghost use Rattle.std.specs.Prelude.{◌≡◌, ◌≤◌, ◌+◌, ◌*◌, length};
ghost use Rattle.run_tally.specs.Inner.Tally.{shown_entry, tally_first, tally_put, tally_moved, log_put, result_of};

use log_packing::put_columns;
use log_records::kind;
use run_outcome::{Outcome, Stop, Thread};
use run_state::{Counts, Entry, acted};

// What a run has counted.
#[derive(Clone, Copy)]
pub struct Tally {
    pub counts: Counts,
    pub moves: usize,
    pub records: usize,
}

// How many moves and records a run had before the last pick that it met; none where it met no pick.
#[derive(Clone, Copy)]
pub struct Before {
    pub moves: usize,
    pub records: usize,
}

// What a run comes to.
#[derive(Clone, Copy)]
pub struct Ran {
    pub outcome: Outcome,
    pub before: Before,
}

// One thread, one object, one key.
pub fn first() -> Tally
    ensures { result ≡ tally_first }
{
    let one = Counts {
        threads: 1,
        objects: 1,
        keys: 1,
    };
    Tally {
        counts: one,
        moves: 0,
        records: 0,
    }
}

// Writes the thread's record and counts it, unless it is none.
pub fn put(log: &mut [u8], tally: Tally, thread: usize, entry: Entry) -> Tally
    requires { (tally.records * 3 + 3 ≤ length log.old) × (tally.records ≤ 4096) }
    ensures value { (result ≡ tally_put tally entry) × (result.records ≤ tally.records + 1) }
    ensures log_after { log.new ≡ log_put log.old tally.records thread entry }
{
    let number = entry.kind;
    if number == kind::NONE {
        return tally;
    }
    put_columns(
        log,
        tally.records,
        number,
        thread,
        entry.object,
        entry.field,
        entry.value,
    );
    let counts = tally.counts;
    Tally {
        counts,
        moves: tally.moves,
        records: tally.records + 1,
    }
}

// Writes a record of a move that has none of its own, a `new` record of object 0, where every move is to have one.
fn put_unlogged(log: &mut [u8], tally: Tally, every: bool, thread: usize, entry: Entry) -> Tally
    requires { (tally.records * 3 + 3 ≤ length log.old) × (tally.records ≤ 4096) × (entry.kind ≡ 0) }
    ensures value { (result ≡ tally_put tally (shown_entry every entry)) × (result.records ≤ tally.records + 1) }
    ensures log_after { log.new ≡ log_put log.old tally.records thread (shown_entry every entry) }
{
    if every {
        return put(log, tally, thread, acted::entry(kind::NEW, 0, 0, 0));
    }
    tally
}

// Writes the record of a move of the thread and counts it, unless it has none.
pub fn put_move(log: &mut [u8], tally: Tally, every: bool, thread: usize, entry: Entry) -> Tally
    requires { (tally.records * 3 + 3 ≤ length log.old) × (tally.records ≤ 4096) }
    ensures value { (result ≡ tally_put tally (shown_entry every entry)) × (result.records ≤ tally.records + 1) }
    ensures log_after { log.new ≡ log_put log.old tally.records thread (shown_entry every entry) }
{
    if entry.kind == kind::NONE {
        return put_unlogged(log, tally, every, thread, entry);
    }
    put(log, tally, thread, entry)
}

// The counts after a move.
pub fn moved(tally: Tally, counts: Counts) -> Tally
    requires { tally.moves ≤ 4096 }
    ensures { (result ≡ tally_moved tally counts) × (result.moves ≤ tally.moves + 1) }
{
    Tally {
        counts,
        moves: tally.moves + 1,
        records: tally.records,
    }
}

// What a run comes to that ended so behind so many picks, by what it had counted then, and its moves and records before the last pick that it met.
pub fn result(
    stop: Stop,
    picks: usize,
    then: Tally,
    moves: usize,
    records: usize,
    threads: [Thread; 8],
) -> Ran
    ensures { result ≡ result_of stop picks then moves records threads }
{
    let outcome = Outcome {
        stop,
        picks,
        moves: then.moves,
        records: then.records,
        threads,
    };
    let before = Before { moves, records };
    Ran { outcome, before }
}
