// Stores to the table of rows, whose clocks are below 32,768. A thread's row has the highest number for the thread itself, which has heard of all its own
// records.
#![tactic(auto)]

ghost use Rattle.std.specs.Prelude.{◌≡◌, ◌+◌, ◌<◌, ◌≤◌, length};
ghost use Rattle.log_row_stores.specs.Inner.Table.{Sound, Started, Keeps, Hears, Told, Accessed};

use log_clocks::Row;

// Each thread has heard of all its own records.
pub fn start(table: &mut [Row])
    requires sized { 8 ≤ length table.old }
    requires sound { Sound table.old }
    ensures { Started 8 table.old table.new }
{
    for thread in 0..8 {
        table[thread][thread] = 32767;
    }
}

// A row keeps a record of a thread: `time` is 1 more than the record's index.
fn keep(table: &mut [Row], row: usize, thread: usize, time: u16)
    requires row_in { row < length table.old }
    requires thread_in { thread < 8 }
    requires time_in { time < 32768 }
    requires sound { Sound table.old }
    ensures { Keeps row thread time table.old table.new }
{
    table[row][thread] = time;
}

// A row hears all that another row knows.
pub fn hear(table: &mut [Row], row: usize, other: usize)
    requires row_in { row < length table.old }
    requires other_in { other < length table.old }
    requires sound { Sound table.old }
    ensures { Hears row other table.old table.new }
{
    let own = table[row];
    let heard = table[other];
    table[row] = log_clocks::raised_to(own, heard, 32767);
}

// A row is told what another row knows of the records below `time`.
pub fn tell(table: &mut [Row], row: usize, other: usize, time: u16)
    requires row_in { row < length table.old }
    requires other_in { other < length table.old }
    requires time_in { time < 32768 }
    requires sound { Sound table.old }
    ensures { Told row other time table.old table.new }
{
    let own = table[row];
    let known = table[other];
    table[row] = log_clocks::raised_to(own, known, time);
}

// A plain access: whether it is unordered; if it is not, it is kept.
pub fn access(table: &mut [Row], kind: usize, thread: usize, at: usize, time: u16) -> bool
    requires sound { Sound table.old }
    requires thread_in { thread < 8 }
    requires time_in { time < 32768 }
    requires at_in { (8 ≤ at) × (at ≤ 65536) }
    requires room { at + 2 < length table.old }
    ensures { Accessed kind thread at time table.old table.new result }
{
    let own = table[thread];
    let held = log_rows::held(kind, at);
    let heard = table[held];
    if log_clocks::lower(own, heard) {
        return true;
    }
    keep(table, at + 1, thread, time);
    let kept = log_rows::kept(kind, at);
    keep(table, kept, thread, time);
    false
}
