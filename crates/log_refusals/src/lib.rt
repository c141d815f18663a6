// Refusals 11 and 12: what the log's author can do wrong. The tests are by tables and without branches, since a log's kinds follow no pattern.
#![tactic(auto)]

ghost use Rattle.std.specs.Prelude.{◌≡◌, eqb, ◌+◌, ◌/◌, ◌<◌, length, false};
ghost use Rattle.format.specs.Inner.Lowest.{Lowest};
ghost use Rattle.log_records.specs.Packed.{record_count};
ghost use Rattle.log_records.specs.Refusals.{wrong_log_length, wrong_record};
ghost use Rattle.log_limits.specs.Inner.Limits.{least_bits, zero_bits};
ghost use Rattle.log_refusals.specs.Inner.Fours.{four_wrong, RightTo};

// Refusal 11: the length is no multiple of 3, or over 12,288.
pub fn wrong_length(log: &[u8]) -> bool
    ensures { result ≡ wrong_log_length log.now }
{
    (log.len() % 3 != 0) | (12288 < log.len())
}

// Refusal 12 at the record of an index, by the tables for its place.
fn wrong_record<'a>(log: &[u8], index: usize, least: &'a [u16; 16], zero: &'a [u16; 16]) -> bool
    requires index_in { index < length log.now / 3 }
    requires least_value { least.now ≡ least_bits (eqb (index + 1) (length log.now / 3)) }
    requires zero_value { zero.now ≡ zero_bits }
    ensures { result ≡ wrong_record log.now index }
{
    let columns = log_packing::columns_at(log, index);
    let bits = ((columns.field * 32 + columns.value) * 4 + columns.spare) as u16;
    let kind = columns.kind;
    let low = bits < least[kind];
    let set = bits & zero[kind];
    low | (set != 0)
}

// Refusal 12 at one of four records in a row, none of them the last.
fn four_wrong<'a>(log: &[u8], index: usize, least: &'a [u16; 16], zero: &'a [u16; 16]) -> bool
    requires index_in { index + 4 < length log.now / 3 }
    requires least_value { least.now ≡ least_bits false }
    requires zero_value { zero.now ≡ zero_bits }
    ensures { result ≡ four_wrong log.now index }
{
    let first = wrong_record(log, index, least, zero);
    let second = wrong_record(log, index + 1, least, zero);
    let third = wrong_record(log, index + 2, least, zero);
    let fourth = wrong_record(log, index + 3, least, zero);
    first | second | third | fourth
}

// A count of records from the first on that are all right: four are tested before a branch. Counted by hand, since a range of fours takes longer on short
// logs.
fn right_fours<'a>(log: &[u8], least: &'a [u16; 16], zero: &'a [u16; 16]) -> usize
    requires least_value { least.now ≡ least_bits false }
    requires zero_value { zero.now ≡ zero_bits }
    ensures { RightTo log.now result }
{
    let count = log.len() / 3;
    let mut index = 0;
    while index + 4 < count {
        if four_wrong(log, index, least, zero) {
            return index;
        }
        index += 4;
    }
    index
}

// The lowest record that refusal 12 finds wrong, or the count of records. The tables are laid out once, and the last record is tested by its own.
pub fn lowest_wrong(log: &[u8]) -> usize
    ensures { Lowest (wrong_record log.now) (record_count log.now) result }
{
    let count = log.len() / 3;
    let early = log_limits::least(false);
    let last = log_limits::least(true);
    let zero = log_limits::zero_bits();
    if count == 0 {
        return 0;
    }
    let tested = right_fours(log, &early, &zero);
    for index in tested..count - 1 {
        if wrong_record(log, index, &early, &zero) {
            return index;
        }
    }
    if wrong_record(log, count - 1, &last, &zero) {
        return count - 1;
    }
    count
}
