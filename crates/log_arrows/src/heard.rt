// What each record of a log has heard of each thread, kept as 1 more than the index of the thread's newest record that has a chain to it, or 0. On the way a
// row is kept for each thread, each monitor and each volatile field: the newest record of each thread that has reached it.
ghost use Rattle.std.specs.Prelude.{◌≡◌, ◌/◌, ◌<◌, ◌≤◌, length};
ghost use Rattle.std.proofs.Math.Option.{none};
ghost use Rattle.format.specs.Version.{version_of};
ghost use Rattle.log_records.specs.Packed.{log_of};
ghost use Rattle.log_records.specs.Refusals.{log_refusal};
ghost use Rattle.log_packing.specs.Inner.Columns.{Narrow};
ghost use Rattle.log_arrows.specs.Inner.Newest.{HeardRows};
ghost use Rattle.log_arrows.specs.Inner.Links.{link_row, source_row, target_row, Marked};

use log_clocks::Row;
use log_packing::Columns;
use log_records::kind;

// The row that a record hears or tells besides its thread's own, or its own, by the three kinds that do.
fn link(version: usize, columns: Columns, monitor: usize, volatile: usize, thread: usize) -> usize
    requires { Narrow columns }
    ensures { result ≡ link_row version monitor volatile thread columns }
{
    if columns.kind == monitor {
        return 32 + columns.object;
    }
    if (columns.kind == volatile) & (version == 1) {
        return 64 + columns.object * 32 + columns.field;
    }
    if columns.kind == thread {
        return columns.field;
    }
    columns.thread
}

// The row that a record hears besides its thread's own, or its own: an acquire the monitor's, a volatile read the field's, a join the thread's.
fn source(version: usize, columns: Columns) -> usize
    requires { Narrow columns }
    ensures { result ≡ source_row version columns }
{
    link(
        version,
        columns,
        kind::ACQUIRE,
        kind::VOLATILE_READ,
        kind::JOIN,
    )
}

// The row that a record tells besides its thread's own, or its own: a release the monitor's, a volatile write the field's, a fork the thread's.
fn target(version: usize, columns: Columns) -> usize
    requires { Narrow columns }
    ensures { result ≡ target_row version columns }
{
    link(
        version,
        columns,
        kind::RELEASE,
        kind::VOLATILE_WRITE,
        kind::FORK,
    )
}

// The row of a thread after a record, by 1 more than the record's index.
fn marked(row: Row, thread: usize, mark: u16) -> Row
    requires { thread < 8 }
    ensures { Marked row thread mark result }
{
    let mut clocks = row;
    clocks[thread] = mark;
    clocks
}

// The rows of all records of a log that is not refused.
pub fn rows(version: usize, log: &[u8], heard: &mut [Row])
    requires accepted { log_refusal log.now ≡ none }
    requires sized { length log.now / 3 ≤ length heard.old }
    ensures { HeardRows (version_of version) (log_of log.now) (length log.now / 3) heard.new }
{
    let none = [0u16; 8];
    let mut links = [none; 1088];
    for index in 0..log.len() / 3 {
        let columns = log_packing::columns_at(log, index);
        let thread = columns.thread;
        let from = source(version, columns);
        let to = target(version, columns);
        let own = links[thread];
        let drawn = links[from];
        let known = log_clocks::raised(own, drawn);
        // Read before the thread's row is stored: where the two are one row, what it is told is what the thread has moved to.
        let fed = links[to];
        let moved = marked(known, thread, index as u16 + 1);
        let told = log_clocks::raised(fed, moved);
        links[thread] = moved;
        links[to] = told;
        heard[index] = known;
    }
}
