// Eight slots of a value 0 to 31 in one number, slot 0 lowest: the variables of a procedure, and the values collected for a call.
ghost use Rattle.std.specs.Prelude.{◌≡◌, ◌<◌};
ghost use Rattle.run_term_words.specs.Inner.Slots.{unit_of, slot_of, bind_of};

// What one in a slot under 8 is worth.
fn unit(slot: usize) -> usize
    requires { slot < 8 }
    ensures { (result ≡ unit_of slot) × (0 < result) × (result < 68719476736) }
{
    1usize << (slot * 5)
}

pub fn slot(environment: usize, slot: usize) -> usize
    ensures { result ≡ slot_of environment slot }
{
    if slot < 8 {
        return (environment >> (slot * 5)) % 32;
    }
    0
}

// The slots with the value in this slot; a slot over 7 binds nothing.
pub fn bind(environment: usize, slot: usize, value: usize) -> usize
    ensures { result ≡ bind_of environment slot value }
{
    if slot < 8 {
        let slots = environment % 1099511627776;
        let unit = unit(slot);
        return slots - (slots / unit) % 32 * unit + value % 32 * unit;
    }
    environment
}
