// The 40 bits of a term.
ghost use Rattle.std.specs.Prelude.{◌≡◌, ◌+◌, ◌*◌, ◌<◌, ◌≤◌, length};
ghost use Rattle.plan_packed.specs.Format;
ghost use Rattle.plan_packed.specs.Inner.Steps.{word_at};

pub fn word_at(plan: &[u8], procedures: usize, term: usize) -> usize
    requires { (procedures ≡ Format.procedures plan.now) × (term < 1024) × (8 + 2 * procedures + 5 * term + 5 ≤ length plan.now) }
    ensures { result ≡ word_at plan.now term }
{
    plan_bit_reader::field(plan, (8 + 2 * procedures + 5 * term) * 8, 40)
}
