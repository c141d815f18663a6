// Whether `witness` leaves a plan out (document 02, E10).
#![tactic(auto)]

ghost use Rattle.std.specs.Prelude.{◌≡◌};
ghost use Rattle.side_by_side.specs.LeftOut.{left_out};
ghost use Rattle.plan_left_out.specs.Inner.Loads.{Loads};

use plan_header::layout;
use plan_operands::tags;

// The plan has version 0, or a wait among its terms.
pub fn left_out(plan: &[u8], words: &[usize; 1024]) -> bool
    requires { Loads plan.now words.now }
    ensures { result ≡ left_out plan.now }
{
    let count = layout::terms(plan);
    let version = layout::version(plan);
    let waits = plan_tag_search::occurs(words, count, tags::WAIT);
    (version == 0) | waits
}
