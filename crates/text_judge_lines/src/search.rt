// The last earlier access that conflicts with a given one and from which no chain leads to it: one pass says which records the given one has heard of, and
// the others are looked at from the last to the first.
ghost use Rattle.std.specs.Prelude.{◌≡◌, ◌<◌};
ghost use Rattle.format.specs.Version.{version_of};
ghost use Rattle.log_records.specs.Packed.{kind_of};
ghost use Rattle.log_records.specs.Record.{is_plain};
ghost use Rattle.log_order.specs.Accesses.{is_write};
ghost use Rattle.log_packing.specs.Inner.Columns.{Narrow};
ghost use Rattle.text_judge_lines.specs.Inner.Search.{conflict_test, Named, LastOf};

use log_packing::Columns;
use log_records::kind;

// A plain write, also one that lacks its key.
fn writes(kind: usize) -> bool
    requires { kind < 16 }
    ensures { result ≡ is_write (kind_of kind) }
{
    matches!(kind, kind::WRITE | kind::LACKS_WRITE)
}

// A plain access, also one that lacks its key.
fn plain(kind: usize) -> bool
    requires { kind < 16 }
    ensures { result ≡ is_plain (kind_of kind) }
{
    matches!(
        kind,
        kind::READ | kind::WRITE | kind::LACKS_READ | kind::LACKS_WRITE
    )
}

// Whether an earlier record conflicts with a later one, which is a plain access.
fn conflict(earlier: Columns, later: Columns) -> bool
    requires earlier_narrow { Narrow earlier }
    requires later_narrow { Narrow later }
    ensures { result ≡ conflict_test earlier later }
{
    plain(earlier.kind)
        && (writes(earlier.kind) || writes(later.kind))
        && earlier.object == later.object
        && earlier.field == later.field
}

// The last earlier access that conflicts with the one at `later` and from which no chain leads to it, by the chains of a version.
pub fn last_conflict(version: usize, log: &[u8], later: usize) -> usize
    requires { Named (version_of version) log.now later }
    ensures { LastOf (version_of version) log.now later result }
{
    let none = [0u16; 8];
    let mut rows = [none; 4096];
    log_arrows::heard::rows(version, log, &mut rows);
    let row = rows[later];
    let access = log_packing::columns_at(log, later);
    for index in (0..later).rev() {
        let columns = log_packing::columns_at(log, index);
        let thread = columns.thread;
        let heard = index < row[thread] as usize;
        if conflict(columns, access) && !heard {
            return index;
        }
    }
    0
}
