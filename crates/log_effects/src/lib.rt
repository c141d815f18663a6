// What a record does to the table: a plain access is held against what it must have heard and kept, an acquire and a volatile read hear, a release, a volatile
// write, a fork and a join tell. By its kind first: only what is at a place has the place looked up.
#![tactic(auto)]

ghost use Rattle.log_places.specs.Inner.Places.{place_at, numbers_of, given_of, Numbered};
ghost use Rattle.log_effects.specs.Inner.Step.{field_at, Numbers, Elsewhere, Ready, OtherStep, Stepped};

use log_clocks::Row;
use log_places::places::NoneLeft;
use log_places::{places, records};
use log_records::kind;

// The number of the place of the record at an index, if one is left.
fn number_at(
    log: &[u8],
    index: usize,
    most: u16,
    numbers: &mut [u8],
    given: &mut u16,
) -> Result<u16, NoneLeft>
    requires { Numbers log.now index numbers.old }
    ensures { Numbered (numbers_of most numbers.old) (given_of most given.old) (place_at log.now index) most
        (numbers_of most numbers.new) (given_of most given.new) result }
{
    let place = records::place_at(log, index);
    places::number(numbers, given, place, most)
}

// A record at no place: a fork or a join, or one that does nothing.
fn elsewhere(log: &[u8], index: usize, kind: usize, thread: usize, time: u16, table: &mut [Row])
    requires { Elsewhere log.now index kind thread time table.old }
    ensures { OtherStep kind thread (field_at log.now index) time table.old table.new }
{
    if kind == kind::FORK {
        let columns = log_packing::columns_at(log, index);
        log_row_stores::tell(table, columns.field, thread, time);
        return;
    }
    if kind == kind::JOIN {
        let columns = log_packing::columns_at(log, index);
        log_row_stores::tell(table, thread, columns.field, time);
    }
}

// The record at an index: whether it is an unordered access; if it is not, the table has taken it in; or no number is left for its place. `read` and `write`
// are the kinds of volatile accesses that order something; `most` is how many places the table has rows for.
pub fn step(
    log: &[u8],
    index: usize,
    read: usize,
    write: usize,
    most: u16,
    numbers: &mut [u8],
    given: &mut u16,
    table: &mut [Row],
) -> Result<bool, NoneLeft>
    requires { Ready log.now index most numbers.old table.old }
    ensures { Stepped log.now index read write most (numbers_of most numbers.old) (given_of most given.old)
        table.old (numbers_of most numbers.new) (given_of most given.new) table.new result }
{
    let kind = records::kind_at(log, index);
    let thread = records::thread_at(log, index);
    let time = index as u16 + 1;
    if log_rows::access(kind) {
        let number = number_at(log, index, most, numbers, given)?;
        let at = log_rows::first(number);
        let unordered = log_row_stores::access(table, kind, thread, at, time);
        return Ok(unordered);
    }
    if log_rows::hears(kind, read) {
        let number = number_at(log, index, most, numbers, given)?;
        let at = log_rows::first(number);
        log_row_stores::hear(table, thread, at);
        return Ok(false);
    }
    if log_rows::tells(kind, write) {
        let number = number_at(log, index, most, numbers, given)?;
        let at = log_rows::first(number);
        log_row_stores::tell(table, at, thread, time);
        return Ok(false);
    }
    elsewhere(log, index, kind, thread, time, table);
    Ok(false)
}
