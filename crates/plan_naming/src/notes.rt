// Checks 5 and 6 at once, where a plan passes them: a note of each term that is named, the sort that is wanted of it, or that it is named again.
ghost use Rattle.std.specs.Prelude.{◌≡◌, true, [], ◌∷◌, ◌<◌, replicate};
ghost use Rattle.plan_packed.specs.Inner.Rows.{layout_rows};
ghost use Rattle.plan_packed.specs.Inner.Steps.{Headed, Right, Loaded, child_of, note_all, RootsNoted, TermsNoted, Fitting};

use plan_header::layout;
use plan_operands::rows::Rows;
use plan_operands::{rows, tags};

// Term `index` is named, where `sort` is wanted.
pub fn name(notes: &mut [u8; 1024], sort: u8, index: usize)
    requires { index < 1024 }
    ensures { notes.new ≡ note_all (child_of sort index ∷ []) notes.old }
{
    notes[index] = plan_name_tests::noted(notes[index], sort);
}

// Each procedure names its root.
pub fn name_roots(plan: &[u8], procedures: usize, count: usize, notes: &mut [u8; 1024])
    requires headed { Headed plan.now procedures count }
    requires notes_value { notes.old ≡ replicate 1024 0 }
    ensures { RootsNoted plan.now procedures notes.new }
{
    for procedure in 0..procedures {
        let root = layout::root(plan, procedure);
        name(notes, rows::E, root);
    }
}

// Every term is named once, where its sort is wanted, and every call has as many arguments as there are parameters.
pub fn all_fit(
    rows: &Rows,
    plan: &[u8],
    procedures: usize,
    count: usize,
    words: &[usize; 1024],
    notes: &[u8; 1024],
) -> bool
    requires right { Right plan.now procedures count }
    requires loaded { Loaded plan.now count words.now }
    requires rows_value { rows.now ≡ layout_rows }
    requires terms_noted { TermsNoted plan.now count notes.now }
    ensures { result ≡ true → Fitting plan.now count }
{
    for term in 0..count {
        let tag = plan_operands::tag(words[term]);
        if notes[term] != rows::number(rows, tag, rows::SORT) {
            return false;
        }
        if tag == tags::CALL && plan_name_tests::wrong_list(plan, procedures, count, words, term) {
            return false;
        }
    }
    true
}
