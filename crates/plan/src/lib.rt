// The packed plan: is it one that can be played, and if not, what is wrong with it, and where (document 01, refusals 1 to 7).
#![tactic(auto)]

ghost use Rattle.std.specs.Prelude.{◌≡◌, take, drop, replicate, OnOk};
ghost use Rattle.format.specs.Refusal.{first_refusal};
ghost use Rattle.plan_packed.specs.Check.{checks, refusal};
ghost use Rattle.plan_packed.specs.Format.{terms};
ghost use Rattle.plan_packed.specs.Inner.Rows.{layout_rows};
ghost use Rattle.plan_packed.specs.Inner.Steps.{Right, Loaded, TermsNoted};
ghost use Rattle.plan_refusals.specs.Answer.{answered};
ghost use Rattle.plan_scopes.specs.Inner.Scopes.{TermsScoped};

use plan_header::layout;
use plan_naming::notes;
use plan_operands::rows;
use plan_operands::rows::Rows;
use plan_terms::table;
use refusals::{Reason, Refusal};

// Refusals 1 to 3: the length, the header and the mask, the procedures.
fn check_header(plan: &[u8]) -> Result<(), Refusal>
    ensures { answered result ≡ first_refusal (take 3 (checks plan.now)) }
{
    if plan_header::wrong_length(plan) {
        return Err(Reason::PlanLength.at(0));
    }
    if plan_header::wrong_header(plan) {
        return Err(Reason::Header.at(0));
    }
    let procedures = layout::procedures(plan);
    let count = layout::terms(plan);
    let procedure = plan_header::lowest_wrong_procedure(plan, procedures, count);
    if procedure < procedures {
        return Err(Reason::Procedure.at(procedure));
    }
    Ok(())
}

// Refusals 5 and 6, of a plan whose terms are right, in `words` and noted in `notes`. Where the notes do not show that it passes, the lowest places are
// looked for.
fn check_names(
    rows: &Rows,
    plan: &[u8],
    procedures: usize,
    count: usize,
    words: &[usize; 1024],
    notes: &[u8; 1024],
) -> Result<(), Refusal>
    requires right { Right plan.now procedures count }
    requires loaded { Loaded plan.now count words.now }
    requires rows_value { rows.now ≡ layout_rows }
    requires terms_noted { TermsNoted plan.now count notes.now }
    ensures { answered result ≡ first_refusal (take 2 (drop 4 (checks plan.now))) }
{
    if notes::all_fit(rows, plan, procedures, count, words, notes) {
        return Ok(());
    }
    let mut times = [0u8; 1024];
    let misplaced = plan_naming::name_all(rows, plan, procedures, count, words, &mut times);
    let miscounted = plan_naming::lowest_miscounted(&times, count);
    if misplaced < count {
        return Err(Reason::Sort.at(misplaced));
    }
    if miscounted < count {
        return Err(Reason::Naming.at(miscounted));
    }
    Ok(())
}

// Refusals 5 to 7, of such a plan. Where the scopes do not show that it passes check 7, the trees are walked.
fn check_trees(
    rows: &Rows,
    plan: &[u8],
    procedures: usize,
    count: usize,
    words: &[usize; 1024],
    notes: &[u8; 1024],
    scopes: &[u8; 1024],
) -> Result<(), Refusal>
    requires right { Right plan.now procedures count }
    requires loaded { Loaded plan.now count words.now }
    requires rows_value { rows.now ≡ layout_rows }
    requires terms_noted { TermsNoted plan.now count notes.now }
    requires terms_scoped { TermsScoped plan.now count scopes.now }
    ensures { answered result ≡ first_refusal (drop 4 (checks plan.now)) }
{
    check_names(rows, plan, procedures, count, words, notes)?;
    if plan_scopes::all_bound(plan, procedures, count, words, scopes) {
        return Ok(());
    }
    let open = plan_bound_slots::lowest_open(plan, procedures, count, words);
    if open < procedures {
        return Err(Reason::Slot.at(open));
    }
    Ok(())
}

// The checks run in the order of their numbers; the answer is the first that finds a fault, at its lowest place. Where none does, every term's 40 bits
// are then in `words`, which came as zeros. The rows of the operand layouts are laid out here, once a check, and lent.
pub fn load(plan: &[u8], words: &mut [usize; 1024]) -> Result<(), Refusal>
    requires { words.old ≡ replicate 1024 0 }
    ensures result_value { answered result ≡ refusal plan.now }
    ensures loaded { OnOk result (Loaded plan.now (terms plan.now) words.new) }
{
    check_header(plan)?;
    let procedures = layout::procedures(plan);
    let count = layout::terms(plan);
    let rows = rows::layouts();
    let mut notes = [0u8; 1024];
    notes::name_roots(plan, procedures, count, &mut notes);
    let mut scopes = [0u8; 1024];
    plan_scopes::hand_to_roots(plan, procedures, count, &mut scopes);
    let term = table::load(
        &rows,
        plan,
        procedures,
        count,
        words,
        &mut notes,
        &mut scopes,
    );
    if term < count {
        return Err(Reason::Term.at(term));
    }
    check_trees(&rows, plan, procedures, count, words, &notes, &scopes)
}

// The entry `check`.
pub fn check(plan: &[u8]) -> Result<(), Refusal>
    ensures { answered result ≡ refusal plan.now }
{
    let mut words = [0usize; 1024];
    load(plan, &mut words)
}
