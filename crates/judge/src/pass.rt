// The pass over a log: each record is held against the plain accesses of its field that it must come after, then the table takes it in.
ghost use Rattle.std.specs.Prelude.{◌≡◌, ◌+◌, ◌/◌, ◌≤◌, ◌⊎◌, length};
ghost use Rattle.std.proofs.Math.Option.{none};
ghost use Rattle.format.specs.Version.{version_of};
ghost use Rattle.log_records.specs.Refusals.{log_refusal};
ghost use Rattle.log_conflicts.specs.Judge.{Answers};
ghost use Rattle.log_rows.specs.Inner.Rows.{place_row};
ghost use Rattle.judge.specs.Answer.{answered};
ghost use Rattle.judge.specs.Inner.Found.{Finds, judgement_of, is_full};
ghost use Rattle.judge.specs.Inner.Clear.{Clear, large_table};

use log_clocks::Row;
use log_places::places::NoneLeft;
use log_records::kind;

// What a pass finds: the index of the first unordered access, or none; or that the log is at more places than the table has rows for.
type Found = Result<Option<usize>, NoneLeft>;

// The pass over a log that is not refused, by its version. The table is lent, clear, with rows for so many places.
fn pass(log: &[u8], version: usize, places: u16, table: &mut [Row]) -> Found
    requires accepted { log_refusal log.now ≡ none }
    requires clear { Clear places table.old }
    ensures { Finds (version_of version) log.now places result }
{
    log_row_stores::start(table);
    let read = log_rows::ordering(version, kind::VOLATILE_READ);
    let write = log_rows::ordering(version, kind::VOLATILE_WRITE);
    let mut numbers = [0u8; 1024];
    let mut given = 0u16;
    for index in 0..log.len() / 3 {
        let unordered = log_effects::step(
            log,
            index,
            read,
            write,
            places,
            &mut numbers,
            &mut given,
            table,
        )?;
        if unordered {
            return Ok(Some(index));
        }
    }
    Ok(None)
}

// What is found by a table with rows for so many places: `ROWS` of them, eight for the threads and three for each place.
fn by_rows<const ROWS: usize>(log: &[u8], version: usize, places: u16) -> Found
    requires accepted { log_refusal log.now ≡ none }
    requires most { (places ≤ 255) ⊎ (places ≡ 1024) }
    requires rows { ROWS ≡ place_row places + 3 }
    ensures { Finds (version_of version) log.now places result }
{
    let clear = [0u16; 8];
    let mut table = [clear; ROWS];
    pass(log, version, places, &mut table)
}

// What is found, as an answer.
fn judgement(found: Found) -> Option<usize>
    ensures { result ≡ judgement_of found }
{
    found.unwrap_or(None)
}

// The table did not suffice.
fn full(found: Found) -> bool
    ensures { result ≡ is_full found }
{
    found.is_err()
}

// The answer to a log of at most 64 records: rows for as many places as it can be at, since clearing more would take longer than judging it.
pub fn short(log: &[u8], version: usize) -> Option<usize>
    requires accepted { log_refusal log.now ≡ none }
    requires short { length log.now / 3 ≤ 64 }
    ensures { Answers (version_of version) log.now (answered (Ok result)) }
{
    let count = log.len() / 3;
    if count <= 8 {
        let found = by_rows::<35>(log, version, 8);
        return judgement(found);
    }
    if count <= 16 {
        let found = by_rows::<59>(log, version, 16);
        return judgement(found);
    }
    if count <= 32 {
        let found = by_rows::<107>(log, version, 32);
        return judgement(found);
    }
    let found = by_rows::<203>(log, version, 64);
    judgement(found)
}

// The answer to a log of at most 128 records, in the same way.
pub fn middle(log: &[u8], version: usize) -> Option<usize>
    requires accepted { log_refusal log.now ≡ none }
    requires short { length log.now / 3 ≤ 128 }
    ensures { Answers (version_of version) log.now (answered (Ok result)) }
{
    let found = by_rows::<395>(log, version, 128);
    judgement(found)
}

// What is found by the one or the other of the two large tables.
fn by_either(log: &[u8], version: usize, all: bool) -> Found
    requires { log_refusal log.now ≡ none }
    ensures { Finds (version_of version) log.now (large_table all) result }
{
    if all {
        return by_rows::<3083>(log, version, 1024);
    }
    by_rows::<776>(log, version, 255)
}

// The answer by a table for 255 places, or at once by one for all, which decides too where 255 do not suffice. It stays a function of its own: the frame of the
// large tables is then set up for such logs alone, not in every call of the entry.
#[inline(never)]
fn widened(log: &[u8], version: usize, all: bool) -> Option<usize>
    requires { log_refusal log.now ≡ none }
    ensures { Answers (version_of version) log.now (answered (Ok result)) }
{
    let found = by_either(log, version, all);
    if full(found) {
        return widened(log, version, true);
    }
    judgement(found)
}

// The answer to any log: most are at few places, so that more rows are cleared only where those for 64 do not suffice.
pub fn long(log: &[u8], version: usize) -> Option<usize>
    requires { log_refusal log.now ≡ none }
    ensures { Answers (version_of version) log.now (answered (Ok result)) }
{
    let found = by_rows::<203>(log, version, 64);
    if full(found) {
        return widened(log, version, 255 < log.len() / 3);
    }
    judgement(found)
}
