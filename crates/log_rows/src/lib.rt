// The rows that a record is held against and kept in, and which records hear and tell. Thread q has row q. The place of number n has three rows, the first
// at 8 + 3 n: what its monitor's releases or its volatile writes tell, its plain accesses, and its plain writes.
#![tactic(auto)]

ghost use Rattle.std.specs.Prelude.{◌≡◌, cond, ◌≤◌};
ghost use Rattle.format.specs.Version.{version_of};
ghost use Rattle.log_rows.specs.Inner.Rows.{place_row, is_access, ordering_kind, passes, held_row, kept_row};

use log_records::kind;

// Chooses without a branch, since a log's kinds follow no pattern.
pub fn choose(test: bool, yes: usize, no: usize) -> usize
    ensures { result ≡ cond test yes no }
{
    if test { yes } else { no }
}

// The first row of the place of a number.
pub fn first(number: u16) -> usize
    ensures { result ≡ place_row number }
{
    8 + 3 * number as usize
}

// A plain access: a read or a write, or one that lacks its key, whose kind is 8 more.
pub fn access(kind: usize) -> bool
    ensures { result ≡ is_access kind }
{
    (kind % 8 == kind::READ) | (kind % 8 == kind::WRITE)
}

// A kind of volatile access, where the version lets it order something, or 12, which is no record's kind.
pub fn ordering(version: usize, volatile: usize) -> usize
    ensures { result ≡ ordering_kind (version_of version) volatile }
{
    if version == 1 { volatile } else { 12 }
}

// One of the two kinds that pass on what has come to the place: of its monitor, or of its volatile field.
fn passing(kind: usize, monitor: usize, volatile: usize) -> bool
    ensures { result ≡ passes monitor volatile kind }
{
    (kind == monitor) | (kind == volatile)
}

// A record that hears what has come to its place: an acquire, a volatile read of the kind that orders something.
pub fn hears(kind: usize, volatile: usize) -> bool
    ensures { result ≡ passes 6 volatile kind }
{
    passing(kind, kind::ACQUIRE, volatile)
}

// A record that tells its place what its thread knows: a release, a volatile write of the kind that orders something.
pub fn tells(kind: usize, volatile: usize) -> bool
    ensures { result ≡ passes 7 volatile kind }
{
    passing(kind, kind::RELEASE, volatile)
}

// The row that a plain access must have heard: a write that of the field's accesses, a read that of its writes.
pub fn held(kind: usize, at: usize) -> usize
    requires { at ≤ 65536 }
    ensures { result ≡ held_row kind at }
{
    choose(kind % 8 == kind::WRITE, at + 1, at + 2)
}

// The row that a plain access is kept in besides that of the field's accesses: a write in that of its writes.
pub fn kept(kind: usize, at: usize) -> usize
    requires { at ≤ 65536 }
    ensures { result ≡ kept_row kind at }
{
    choose(kind % 8 == kind::WRITE, at + 2, at + 1)
}
