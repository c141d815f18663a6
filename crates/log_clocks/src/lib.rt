// Rows of eight clocks, one to a thread. A record of thread u has reached what a row is of when its index is below the row's clock of u.
#![tactic(auto)]

ghost use Rattle.std.specs.Prelude.{◌≡◌, ltb, ◌<◌, max, min};
ghost use Rattle.log_clocks.specs.Inner.Rows.{Raised, RaisedTo, lower_of, Low};

pub type Row = [u16; 8];

// The higher of two clocks.
pub fn higher(one: u16, other: u16) -> u16
    ensures { result ≡ max one other }
{
    if one < other { other } else { one }
}

// Whether a clock is lower than another, both below 32,768. They are compared as signed numbers, since any x86-64 compares eight of those at once.
fn less(one: u16, other: u16) -> bool
    requires one_in { one < 32768 }
    requires other_in { other < 32768 }
    ensures { result ≡ ltb one other }
{
    (one as i16) < (other as i16)
}

// The higher of two clocks below 32,768.
fn greater(one: u16, other: u16) -> u16
    requires one_in { one < 32768 }
    requires other_in { other < 32768 }
    ensures { result ≡ max one other }
{
    if less(one, other) { other } else { one }
}

// The lower of two clocks below 32,768.
fn lesser(one: u16, other: u16) -> u16
    requires one_in { one < 32768 }
    requires other_in { other < 32768 }
    ensures { result ≡ min one other }
{
    if less(one, other) { one } else { other }
}

// The row that is told what another row knows.
pub fn raised(row: Row, told: Row) -> Row
    ensures { Raised row told result }
{
    let mut clocks = [0u16; 8];
    for thread in 0..8 {
        clocks[thread] = higher(row[thread], told[thread]);
    }
    clocks
}

// The row that is told what another row knows of the records below `most`.
pub fn raised_to(row: Row, told: Row, most: u16) -> Row
    requires row_low { Low row }
    requires told_low { Low told }
    requires most_in { most < 32768 }
    ensures { RaisedTo most row told result }
{
    let mut clocks = [0u16; 8];
    for thread in 0..8 {
        let known = lesser(told[thread], most);
        clocks[thread] = greater(row[thread], known);
    }
    clocks
}

// One of the eight clocks of a row is lower than that of another: what the other knows has not all reached it.
pub fn lower(own: Row, heard: Row) -> bool
    requires own_low { Low own }
    requires heard_low { Low heard }
    ensures { result ≡ lower_of 8 own heard }
{
    let mut found = false;
    for thread in 0..8 {
        found |= less(own[thread], heard[thread]);
    }
    found
}
