// Whether an arrow is needed, by what each record has heard.
ghost use Rattle.std.specs.Prelude.{◌≡◌, ◌<◌};
ghost use Rattle.log_arrows.specs.Inner.Implied.{heard_in, Earlier, implied_by, implied, is_needed};

use log_clocks::Row;

// The newest record of another thread that the record at the index has heard of has itself heard of the newest of this thread.
fn by(rows: &[Row], index: usize, thread: usize, other: usize) -> bool
    requires earlier { Earlier rows.now index }
    requires thread_in { thread < 8 }
    requires other_in { other < 8 }
    ensures { result ≡ implied_by (heard_in rows.now) index thread other }
{
    if other == thread {
        return false;
    }
    let row = rows[index];
    let mark = row[other] as usize;
    if mark == 0 {
        return false;
    }
    let newest = rows[mark - 1];
    row[thread] <= newest[thread]
}

// The same of one of the threads.
fn by_one(rows: &[Row], index: usize, thread: usize) -> bool
    requires earlier { Earlier rows.now index }
    requires thread_in { thread < 8 }
    ensures { result ≡ implied (heard_in rows.now) index thread 8 }
{
    let mut found = false;
    for other in 0..8 {
        found |= by(rows, index, thread, other);
    }
    found
}

// The arrow from the newest record of a thread to the record at the index, which is of the thread `own`, is needed.
pub fn needed(rows: &[Row], index: usize, own: usize, thread: usize) -> bool
    requires earlier { Earlier rows.now index }
    requires thread_in { thread < 8 }
    ensures { result ≡ is_needed (heard_in rows.now) own index thread }
{
    if thread == own {
        return false;
    }
    let row = rows[index];
    if row[thread] == 0 {
        return false;
    }
    !by_one(rows, index, thread)
}
