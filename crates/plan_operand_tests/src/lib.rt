// Check 4: the operands of a term, one by one.
#![tactic(auto)]

ghost use Rattle.std.specs.Prelude.{◌≡◌, ◌&&◌, not, ◌<◌, ltb, eqb};
ghost use Rattle.plan_packed.specs.Format.{mask};
ghost use Rattle.plan_packed.specs.Refusals.{wrong_operand};
ghost use Rattle.plan_packed.specs.Inner.Rows.{bits_to, wrong_other};
ghost use Rattle.plan_packed.specs.Inner.Steps.{outside};

use plan_operands::rows;

// A child index not above its parent's, or not below the count.
pub fn outside(child: usize, term: usize, count: usize) -> bool
    ensures { result ≡ outside count term child }
{
    child <= term || child >= count
}

// A `new` that names the monitor, or over eight fields.
fn wrong_mask(fields: usize) -> bool
    requires { fields < 4294967296 }
    ensures { result ≡ wrong_operand 0 0 0 mask fields }
{
    fields >= 2147483648 || fields.count_ones() > 8
}

// A let's slot: 0 to 7, or 15.
fn wrong_binder(slot: usize) -> bool
    ensures { result ≡ (ltb 7 slot && not (eqb slot 15)) }
{
    slot > 7 && slot != 15
}

// The operand that is no term, by what it is and its place. By comparisons and not by a match, whose jump would follow no pattern.
pub fn wrong_other(kind: u8, word: usize, place: u8, procedures: usize) -> bool
    requires { kind < 6 }
    ensures { result ≡ wrong_other procedures kind (bits_to place word) }
{
    if kind == 0 {
        return false;
    }
    let bits = rows::bits_to(word, place);
    if kind == rows::SLOT {
        return bits % 16 > 7;
    }
    if kind < rows::MASK {
        return wrong_binder(bits % 16);
    }
    if kind > rows::FIELD {
        return bits % 32 >= procedures;
    }
    if kind > rows::MASK {
        return bits % 32 == 0;
    }
    wrong_mask(bits % 4294967296)
}
