// Fields of a plan, most significant bit first: a struct that holds the plan and a bit position, and thin functions over it, which leave the work to
// `bits_at` over a plain slice.
#![tactic(auto)]

ghost use Rattle.std.specs.Prelude.{◌≡◌, ◌+◌, ◌*◌, ◌≤◌, length};
ghost use Rattle.format.specs.Bits.{bits_at};

#[derive(Clone, Copy)]
pub struct Reader<'a> {
    pub plan: &'a [u8],
    pub at: usize,
}

// The number that `count` bytes make from byte `start` on.
fn bytes_at(plan: &[u8], start: usize, count: usize) -> usize
    requires { (start + count ≤ length plan.now) × (count ≤ 6) }
    ensures { result ≡ bits_at plan.now (start * 8) (count * 8) }
{
    let mut value: usize = 0;
    for byte in &plan[start..start + count] {
        value = value * 256 + *byte as usize;
    }
    value
}

// The work: the `width` bits from bit `at` on. They stand in whole bytes, with some bits of these before and after them.
pub fn bits_at(plan: &[u8], at: usize, width: usize) -> usize
    requires { (at + width ≤ 8 * length plan.now) × (width ≤ 40) }
    ensures { result ≡ bits_at plan.now at width }
{
    let before = at % 8;
    let count = (before + width + 7) / 8;
    let after = count * 8 - (before + width);
    let value = bytes_at(plan, at / 8, count);
    (value >> after) % (1usize << width)
}

impl<'a> Reader<'a> {
    // A reader of the plan that stands at bit `at`.
    pub fn at_bit(plan: &'a [u8], at: usize) -> Reader<'a>
        ensures { (result.plan ≡ plan.entry) × (result.at ≡ at) }
    {
        Reader { plan, at }
    }

    // The `width` bits where the reader stands.
    pub fn take(self, width: usize) -> usize
        requires { (self.at + width ≤ 8 * length self.plan.now) × (width ≤ 40) }
        ensures { result ≡ bits_at self.entry.plan.now self.entry.at width }
    {
        bits_at(self.plan, self.at, width)
    }
}

// The `width` bits from bit `at` of the plan on.
pub fn field(plan: &[u8], at: usize, width: usize) -> usize
    requires { (at + width ≤ 8 * length plan.now) × (width ≤ 40) }
    ensures { result ≡ bits_at plan.now at width }
{
    Reader::at_bit(plan, at).take(width)
}
