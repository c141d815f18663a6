// Check 4: a single term against the table; the terms' 40 bits are loaded, their names noted and their scopes handed on, for the checks after it.
ghost use Rattle.std.specs.Prelude.{◌≡◌, false, [], ◌∷◌, ◌<◌, ◌≤◌, replicate};
ghost use Rattle.format.specs.Inner.Lowest.{Lowest};
ghost use Rattle.plan_packed.specs.Format.{tag_count};
ghost use Rattle.plan_packed.specs.Refusals.{breaks_table, wrong_term};
ghost use Rattle.plan_packed.specs.Inner.Rows.{layout_rows, wrong_terms, children_by_row};
ghost use Rattle.plan_packed.specs.Inner.Steps.{Headed, Loaded, outside, term_in, child_of, children_of, note_all, RootsNoted, TermsNoted};
ghost use Rattle.plan_packed.specs.Trees.{node_of};
ghost use Rattle.plan_packed.specs.Inner.Operands.{tag_of};
ghost use Rattle.plan_scopes.specs.Inner.Scopes.{handed, handed_by_row, hand_all, RootsScoped, TermsScoped};

use crate::term;
use plan_naming::notes;
use plan_operand_tests::{outside, wrong_other};
use plan_operands::rows;
use plan_operands::rows::{FIRST, OTHER, Rows, SECOND, SPARE, TAGS, THIRD};

// The operand that is a term of this sort: it is named and handed this scope, unless it is wrong.
fn wrong_child(
    notes: &mut [u8; 1024],
    scopes: &mut [u8; 1024],
    sort: u8,
    scope: u8,
    child: usize,
    term: usize,
    count: usize,
) -> bool
    requires { count ≤ 1024 }
    ensures value { result ≡ outside count term child }
    ensures notes_after { result ≡ false → notes.new ≡ note_all (child_of sort child ∷ []) notes.old }
    ensures scopes_after { result ≡ false → scopes.new ≡ hand_all (handed scope child ∷ []) scopes.old }
{
    if outside(child, term, count) {
        return true;
    }
    notes::name(notes, sort, child);
    plan_scopes::hand(scopes, scope, child);
    false
}

// The operands that are terms: where one is absent, so are those after it.
fn wrong_children(
    rows: &Rows,
    tag: usize,
    word: usize,
    scope: u8,
    term: usize,
    count: usize,
    notes: &mut [u8; 1024],
    scopes: &mut [u8; 1024],
) -> bool
    requires { (rows.now ≡ layout_rows) × (tag < tag_count) × (count ≤ 1024) }
    ensures value { result ≡ wrong_terms count term word tag }
    ensures notes_after { result ≡ false → notes.new ≡ note_all (children_by_row word tag) notes.old }
    ensures scopes_after { result ≡ false → scopes.new ≡ hand_all (handed_by_row scope word tag) scopes.old }
{
    let first = rows::number(rows, tag, FIRST);
    if first == 0 {
        return false;
    }
    let child = rows::child(rows, tag, FIRST + 1, word);
    if wrong_child(notes, scopes, first, scope, child, term, count) {
        return true;
    }
    let second = rows::number(rows, tag, SECOND);
    if second == 0 {
        return false;
    }
    let child = rows::child(rows, tag, SECOND + 1, word);
    let inner = plan_scopes::inner(tag, word, scope);
    if wrong_child(notes, scopes, second, inner, child, term, count) {
        return true;
    }
    let third = rows::number(rows, tag, THIRD);
    if third == 0 {
        return false;
    }
    let child = rows::child(rows, tag, THIRD + 1, word);
    wrong_child(notes, scopes, third, scope, child, term, count)
}

// The table of terms: `word`, the 40 bits of a term, is wrong by the row of its tag; else its children are named and handed their scopes.
fn wrong_term(
    rows: &Rows,
    word: usize,
    scope: u8,
    term: usize,
    procedures: usize,
    count: usize,
    notes: &mut [u8; 1024],
    scopes: &mut [u8; 1024],
) -> bool
    requires rows_value { rows.now ≡ layout_rows }
    requires count_bound { count ≤ 1024 }
    ensures value { result ≡ breaks_table procedures count term (term_in word) }
    ensures notes_after { result ≡ false → notes.new ≡ note_all (children_of (node_of (term_in word))) notes.old }
    ensures scopes_after { result ≡ false → scopes.new ≡ hand_all (handed_by_row scope word (tag_of word)) scopes.old }
{
    let tag = plan_operands::tag(word);
    if tag >= TAGS {
        return true;
    }
    let kind = rows::number(rows, tag, OTHER);
    let place = rows::number(rows, tag, OTHER + 1);
    wrong_other(kind, word, place, procedures)
        || wrong_children(rows, tag, word, scope, term, count, notes, scopes)
        || rows::bits_after(word, rows::number(rows, tag, SPARE)) != 0
}

// The lowest wrong term, or the count: then every term's 40 bits are in `words`, which came as zeros, the names of all terms are noted beside those by the
// procedures, and every term has handed its children their scopes.
pub fn load(
    rows: &Rows,
    plan: &[u8],
    procedures: usize,
    count: usize,
    words: &mut [usize; 1024],
    notes: &mut [u8; 1024],
    scopes: &mut [u8; 1024],
) -> usize
    requires rows_value { rows.now ≡ layout_rows }
    requires headed { Headed plan.now procedures count }
    requires words_value { words.old ≡ replicate 1024 0 }
    requires roots_noted { RootsNoted plan.now procedures notes.old }
    requires roots_scoped { RootsScoped plan.now procedures scopes.old }
    ensures lowest { Lowest (wrong_term plan.now) count result }
    ensures loaded { count ≤ result → Loaded plan.now count words.new }
    ensures terms_noted { count ≤ result → TermsNoted plan.now count notes.new }
    ensures terms_scoped { count ≤ result → TermsScoped plan.now count scopes.new }
{
    for term in 0..count {
        let word = term::word_at(plan, procedures, term);
        let scope = scopes[term];
        if wrong_term(rows, word, scope, term, procedures, count, notes, scopes) {
            return term;
        }
        words[term] = word;
    }
    count
}
