// What the last pick of a run did, as a preview answers it (document 02, E1).
#![tactic(auto)]

ghost use Rattle.std.specs.Prelude.{◌*◌, ◌-◌, ◌≤◌, ◌≡◌, length};
ghost use Rattle.run_last_pick.specs.Inner.LastPick.{record_in, last_pick, LastGiven};

use run_outcome::{NoRoom, Outcome, Stop, ThreadState};

// The three bytes of a record, as a log has them.
#[derive(Clone, Copy)]
pub struct RecordBytes {
    pub high: u8,
    pub middle: u8,
    pub low: u8,
}

// What a pick would do.
#[derive(Clone, Copy)]
pub enum Preview {
    // The schedule itself has stopped.
    Stopped(Stop),
    // The pick would be passed over, for the state of its thread.
    Passed(ThreadState),
    // It would move, without a record.
    Moved,
    // It would move, with this record.
    Recorded(RecordBytes),
    // The run would stop for want of a key, with this record as its last.
    Race(RecordBytes),
    // The run would stop for room.
    NoRoom(NoRoom),
}

// The last of so many records.
fn last_record(log: &[u8], records: usize) -> RecordBytes
    requires { (1 ≤ records) × (3 * records ≤ length log.now) }
    ensures { result ≡ record_in log.now (records - 1) }
{
    let index = records - 1;
    RecordBytes {
        high: log[3 * index],
        middle: log[3 * index + 1],
        low: log[3 * index + 2],
    }
}

// What the last pick of a run did, where `before` picks came before it, with so many moves and records: by the stop, the picks dealt with, and what it moved
// and recorded.
pub fn last_pick(
    outcome: Outcome,
    moves: usize,
    records: usize,
    before: usize,
    pick: usize,
    log: &[u8],
) -> Preview
    requires { LastGiven outcome records before pick log.now }
    ensures { result ≡ last_pick outcome moves records before pick log.now }
{
    let stop = outcome.stop;
    if outcome.picks < before {
        return Preview::Stopped(stop);
    }
    match stop {
        Stop::NoRoom(room) => Preview::NoRoom(room),
        Stop::Race => Preview::Race(last_record(log, outcome.records)),
        Stop::End => {
            if outcome.moves == moves {
                let threads = outcome.threads;
                let thread = threads[pick];
                let state = thread.state;
                return Preview::Passed(state);
            }
            if outcome.records == records {
                return Preview::Moved;
            }
            Preview::Recorded(last_record(log, outcome.records))
        }
    }
}
