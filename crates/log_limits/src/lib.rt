// What each kind allows of its record's last 12 bits, which are field, value and spare: the tables by which refusal 12 is tested.
#![tactic(auto)]

ghost use Rattle.std.specs.Prelude.{◌≡◌};
ghost use Rattle.log_limits.specs.Inner.Limits.{least_bits, zero_bits};

// For each kind, the least number that it allows in its record's last 12 bits, which are field, value and spare: an access has a field, at 128 and above.
// 4096, above them all, allows none: so for what is no kind, and for the kinds 10 and 11 before the last record.
const LEAST_EARLY: [u16; 16] = [
    4096, 0, 128, 128, 128, 128, 0, 0, 0, 0, 4096, 4096, 4096, 4096, 4096, 4096,
];

// The same in the last record.
const LEAST_LAST: [u16; 16] = [
    4096, 0, 128, 128, 128, 128, 0, 0, 0, 0, 128, 128, 4096, 4096, 4096, 4096,
];

// For each kind, those of the 12 bits that must be 0: a column without a use, what is above a thread in the field of fork and join, and the
// spare bits; of what is no kind, all.
const ZERO: [u16; 16] = [
    4095, 4095, 3, 3, 3, 3, 4095, 4095, 3199, 3075, 127, 3, 4095, 4095, 4095, 4095,
];

// The least numbers in the last record, or before it.
pub fn least(last: bool) -> [u16; 16]
    ensures { result ≡ least_bits last }
{
    if last {
        return LEAST_LAST;
    }
    LEAST_EARLY
}

// The bits that must be 0.
pub fn zero_bits() -> [u16; 16]
    ensures { result ≡ zero_bits }
{
    ZERO
}
