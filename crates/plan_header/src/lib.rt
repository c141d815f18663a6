// Checks 1 to 3: the length, the header and the mask, the procedures.
#![tactic(auto)]

pub mod layout; // layout.rt: the numbers of the header, of the mask and of the procedures

ghost use Rattle.std.specs.Prelude.{◌≡◌, ◌+◌, ◌*◌, ◌<◌, ◌≤◌, length};
ghost use Rattle.format.specs.Inner.Lowest.{Lowest};
ghost use Rattle.plan_packed.specs.Format.{terms};
ghost use Rattle.plan_packed.specs.Refusals.{wrong_length, wrong_header, wrong_procedure};
ghost use Rattle.plan_packed.specs.Inner.Steps.{Sized};

pub fn wrong_length(plan: &[u8]) -> bool
    ensures { result ≡ wrong_length plan.now }
{
    plan.len() < 8 || plan.len() != 8 + 2 * layout::procedures(plan) + 5 * layout::terms(plan)
}

pub fn wrong_header(plan: &[u8]) -> bool
    requires { 8 ≤ length plan.now }
    ensures { result ≡ wrong_header plan.now }
{
    let version = layout::version(plan);
    let procedures = layout::procedures(plan);
    let count = layout::terms(plan);
    let spare = layout::spare(plan);
    let mask = layout::volatiles(plan);
    version > 1
        || procedures < 1
        || procedures > 32
        || count < 1
        || count > 1024
        || spare != 0
        || mask / 2147483648 % 2 != 1 // the top bit is field 0, the monitor
}

fn wrong_procedure(plan: &[u8], count: usize, procedure: usize) -> bool
    requires { (count ≡ terms plan.now) × (procedure < 64) × (8 + 2 * procedure + 2 ≤ length plan.now) }
    ensures { result ≡ wrong_procedure plan.now procedure }
{
    let parameters = layout::parameters(plan, procedure);
    parameters > 8 || (procedure == 0 && parameters > 0) || layout::root(plan, procedure) >= count
}

// The lowest procedure that is wrong, or `procedures`.
pub fn lowest_wrong_procedure(plan: &[u8], procedures: usize, count: usize) -> usize
    requires { Sized plan.now procedures count }
    ensures { Lowest (wrong_procedure plan.now) procedures result }
{
    for procedure in 0..procedures {
        if wrong_procedure(plan, count, procedure) {
            return procedure;
        }
    }
    procedures
}
