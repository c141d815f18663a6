// Check 7 where a plan passes it: the scope of each term, the slots that are bound there, bit x for slot x, handed from each term to its children.
#![tactic(auto)]

ghost use Rattle.std.specs.Prelude.{◌≡◌, true, false, ◌||◌, not, [], ◌∷◌, ℕ, ◌<◌, eqb, replicate};
ghost use Rattle.plan_packed.specs.Refusals.{not_named_once, uses_unbound_slot};
ghost use Rattle.plan_packed.specs.Inner.Operands.{tag_of, slot_bits};
ghost use Rattle.plan_packed.specs.Inner.Steps.{Headed, Right, Loaded, bit_of};
ghost use Rattle.plan_scopes.specs.Inner.Scopes.{inner_scope, handed, hand_all, RootsScoped, TermsScoped};

use byte_numbers::wide;
use plan_header::layout;
use plan_operands::tags;

// What a term hands to its second operand: a let its slot too, but for 15, which binds nothing.
pub fn inner(tag: usize, word: usize, scope: u8) -> u8
    ensures { result ≡ inner_scope scope word tag }
{
    if tag != tags::LET {
        return scope;
    }
    (plan_bound_slots::with(wide(scope), plan_operands::slot_of(word)) % 256) as u8
}

// Term `index` is handed this scope.
pub fn hand(scopes: &mut [u8; 1024], scope: u8, index: usize)
    requires { index < 1024 }
    ensures { scopes.new ≡ hand_all (handed scope index ∷ []) scopes.old }
{
    scopes[index] = scope;
}

// Each procedure hands its parameters' slots to its root.
pub fn hand_to_roots(plan: &[u8], procedures: usize, count: usize, scopes: &mut [u8; 1024])
    requires headed { Headed plan.now procedures count }
    requires scopes_value { scopes.old ≡ replicate 1024 0 }
    ensures { RootsScoped plan.now procedures scopes.new }
{
    for procedure in 0..procedures {
        let root = layout::root(plan, procedure);
        let parameters = layout::parameters(plan, procedure);
        hand(scopes, ((1usize << parameters) - 1) as u8, root);
    }
}

// The term, by its 40 bits, is no variable, or its slot is bound.
fn bound(word: usize, scope: u8) -> bool
    ensures { result ≡ (not (eqb (tag_of word) 1) || bit_of scope (slot_bits word)) }
{
    (plan_operands::tag(word) != tags::VARIABLE)
        | plan_bound_slots::holds(wide(scope), plan_operands::slot_of(word))
}

// Every slot that a procedure uses is bound there, of a plan whose terms are named once. Without an early end and without a branch to each term, since the
// terms of a plan follow no pattern.
pub fn all_bound(
    plan: &[u8],
    procedures: usize,
    count: usize,
    words: &[usize; 1024],
    scopes: &[u8; 1024],
) -> bool
    requires right { Right plan.now procedures count }
    requires loaded { Loaded plan.now count words.now }
    requires terms_scoped { TermsScoped plan.now count scopes.now }
    requires by_index { (t : ℕ) → t < count → not_named_once plan.now t ≡ false }
    ensures { result ≡ true → (p : ℕ) → p < procedures → uses_unbound_slot plan.now p ≡ false }
{
    let mut all = true;
    for term in 0..count {
        all &= bound(words[term], scopes[term]);
    }
    all
}
