// The numbers of the header, of the mask and of the procedures, each by its place in document 01.
ghost use Rattle.std.specs.Prelude.{◌≡◌, ◌+◌, ◌*◌, ◌<◌, ◌≤◌, length};
ghost use Rattle.plan_packed.specs.Format.{version, procedures, terms, header_spare, volatiles, parameters, root};

pub fn version(plan: &[u8]) -> usize
    requires { 8 ≤ length plan.now }
    ensures { result ≡ version plan.now }
{
    plan_bit_reader::field(plan, 0, 4)
}

pub fn procedures(plan: &[u8]) -> usize
    requires { 8 ≤ length plan.now }
    ensures { result ≡ procedures plan.now }
{
    plan_bit_reader::field(plan, 4, 6)
}

pub fn terms(plan: &[u8]) -> usize
    requires { 8 ≤ length plan.now }
    ensures { result ≡ terms plan.now }
{
    plan_bit_reader::field(plan, 10, 12)
}

pub fn spare(plan: &[u8]) -> usize
    requires { 8 ≤ length plan.now }
    ensures { result ≡ header_spare plan.now }
{
    plan_bit_reader::field(plan, 22, 10)
}

pub fn volatiles(plan: &[u8]) -> usize
    requires { 8 ≤ length plan.now }
    ensures { result ≡ volatiles plan.now }
{
    plan_bit_reader::field(plan, 32, 32)
}

// A procedure's number has six bits, so that the place of its bits, counted from the plan's start, fits a `usize`.
pub fn parameters(plan: &[u8], procedure: usize) -> usize
    requires { (procedure < 64) × (8 + 2 * procedure + 2 ≤ length plan.now) }
    ensures { result ≡ parameters plan.now procedure }
{
    plan_bit_reader::field(plan, 64 + 16 * procedure, 4)
}

pub fn root(plan: &[u8], procedure: usize) -> usize
    requires { (procedure < 64) × (8 + 2 * procedure + 2 ≤ length plan.now) }
    ensures { result ≡ root plan.now procedure }
{
    plan_bit_reader::field(plan, 68 + 16 * procedure, 12)
}
