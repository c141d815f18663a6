// What is written from the moves of a run that raced (document 02, E10): the picks of the moves that are kept, renumbered, one pass forward.
#![tactic(auto)]

ghost use Rattle.std.specs.Prelude.{◌≡◌, ◌<◌, ◌≤◌, ◌/◌, length};
ghost use Rattle.format.specs.Area.{overwrite};
ghost use Rattle.log_records.specs.Packed.{log_of};
ghost use Rattle.answers.specs.Answer.{answered};
ghost use Rattle.log_schedule_writer.specs.Inner.Kept.{flagged, count_kept, Small, picks_in};
ghost use Rattle.log_schedule_writer.specs.Inner.WritesFrom.{RacedIn, WritesFrom};

use log_records::kind;
use refusals::{Reason, Refusal};

// How many of the first moves are kept.
pub fn count(kept: &[bool], moves: usize) -> usize
    requires { moves ≤ length kept.now }
    ensures { (result ≡ count_kept (flagged kept.now) 0 moves) × (result ≤ moves) }
{
    kept[..moves].iter().filter(|kept| **kept).count()
}

// The picks of the moves that are kept, renumbered, at the area's start; its other bytes keep their values. Thread 0 is thread 0, and each fork that is
// kept makes the next thread.
pub fn put_picks(log: &[u8], kept: &[bool], area: &mut [u8])
    requires sized { length log.now / 3 ≤ length kept.now }
    requires room { length (picks_in log.now kept.now) ≤ length area.old }
    requires small { Small
        (picks_in log.now kept.now) }
    ensures { area.new ≡ overwrite (picks_in log.now kept.now) area.old }
{
    let mut numbers = [0usize; 32];
    let mut next: usize = 1;
    let mut at = 0;
    for index in 0..log.len() / 3 {
        if kept[index] {
            let columns = log_packing::columns_at(log, index);
            let thread = columns.thread;
            area[at] = (numbers[thread] % 8) as u8;
            at += 1;
            if columns.kind == kind::FORK {
                let made = columns.field;
                numbers[made] = next;
                next += 1;
            }
        }
    }
}

// The schedule that is written from the moves of a run that raced, at the area's start, and its length; or refusal 17 where the area is shorter.
pub fn write(log: &[u8], area: &mut [u8]) -> Result<usize, Refusal>
    requires { RacedIn log.now }
    ensures { WritesFrom log.now area.old (answered result) area.new }
{
    let moves = log.len() / 3;
    let failing = moves - 1;
    let last = log_last_write::last_write(log, failing);
    let mut kept = [false; 4096];
    log_marking::mark(log, failing, last, &mut kept);
    let length = count(&kept, moves);
    if area.len() < length {
        return Err(Reason::ScheduleArea.at(0));
    }
    put_picks(log, &kept, area);
    Ok(length)
}
