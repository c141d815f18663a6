// The entry `canonical`: a plan, written in the one way that document 02, E5, names, into an output area.
#![tactic(auto)]

ghost use Rattle.std.specs.Prelude.{◌≤◌, ◌≡◌, length, take, replicate, OnOk};
ghost use Rattle.std.proofs.lemmas.List.Edits.{sets};
ghost use Rattle.format.specs.Area.{overwrite};
ghost use Rattle.plan_packed.specs.Format.{terms, procedures};
ghost use Rattle.plan_packed.specs.Inner.Steps.{Loaded};
ghost use Rattle.plan_refusals.specs.Answer as refusals;
ghost use Rattle.plan_written.specs.Written.{written_plan};
ghost use Rattle.canonical.specs.Canonical.{canonical_answer, canonical_area};
ghost use Rattle.answers.specs.Answer.{answered};
ghost use Rattle.canonical.specs.Inner.Begun.{RefusedAs, Ready, trees_written};

use plan_header::layout;
use plan_writer::put_procedure;
use refusals::{Reason, Refusal};

// What turns away a plan with an output area of this length, if anything does. Where nothing does, every term's 40 bits are then in `words`, which came as
// zeros.
fn refusal(plan: &[u8], area: usize, words: &mut [usize; 1024]) -> Result<(), Refusal>
    requires { words.old ≡ replicate 1024 0 }
    ensures refused_as { RefusedAs plan.now area (refusals.answered result) }
    ensures loaded { OnOk result (Loaded plan.now (terms plan.now) words.new) }
{
    plan::load(plan, words)?;
    if area < plan.len() {
        return Err(Reason::PlanArea.at(0));
    }
    Ok(())
}

// The header and the mask stay as they are.
fn copy_header(plan: &[u8], area: &mut [u8])
    requires { (8 ≤ length plan.now) × (8 ≤ length area.old) }
    ensures { area.new ≡ sets area.old 0 (take 8 plan.now) }
{
    area[..8].copy_from_slice(&plan[..8]);
}

// The procedures in their order, each with the number of its root and all its terms.
fn write_trees(plan: &[u8], words: &[usize; 1024], area: &mut [u8], count: usize)
    requires ready { Ready plan.now words.now area.old }
    requires count_value { count ≡ procedures plan.now }
    ensures { area.new ≡ trees_written plan.now 0 0 area.old }
{
    let base = 8 + 2 * count;
    let mut number = 0;
    for procedure in 0..count {
        let parameters = layout::parameters(plan, procedure);
        put_procedure(area, 8 + 2 * procedure, parameters, number);
        let root = layout::root(plan, procedure);
        number = plan_tree_writer::write_expression(words, root, area, base, number);
    }
}

// An accepted plan, whose terms are in `words`.
fn write(plan: &[u8], words: &[usize; 1024], area: &mut [u8])
    requires { Ready plan.now words.now area.old }
    ensures { area.new ≡ overwrite (written_plan plan.now) area.old }
{
    let procedures = layout::procedures(plan);
    copy_header(plan, area);
    write_trees(plan, words, area, procedures);
}

// Every plan and every area gets document 02's answer: a refusal of number 1 to 7 with its place, or of number 13, and no byte of the area changed; or the
// length of the written plan, with which the area then begins, and otherwise is as it was.
pub fn canonical(plan: &[u8], area: &mut [u8]) -> Result<usize, Refusal>
    ensures answer { answered result ≡ canonical_answer plan.now area.old }
    ensures area { area.new ≡ canonical_area plan.now area.old }
{
    let mut words = [0usize; 1024];
    refusal(plan, area.len(), &mut words)?;
    write(plan, &words, area);
    Ok(plan.len())
}
