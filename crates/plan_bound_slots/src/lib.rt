// Check 7: every slot that a procedure's tree uses is a parameter's or an enclosing let's. Bit x of `bound` says that slot x is bound.
// Of two operands one is a call and the other a turn of the loop, whichever side the deeper one is on: a leaf is seen in place (`rest_of_two`). With a call for
// each operand the deepest plans would take more stack, and every leaf the time of a call; so a term's rest is an answer (`Rest`) and not a call of its own.
#![tactic(auto)]

ghost use Rattle.std.specs.Prelude.{◌≡◌, ◌&&◌, ℕ, ◌<◌, ltb};
ghost use Rattle.format.specs.Inner.Lowest.{Lowest};
ghost use Rattle.plan_packed.specs.Inner.Operands.{tag_of};
ghost use Rattle.plan_packed.specs.Slots.{closed, closedᶜ, closedᵃ};
ghost use Rattle.plan_packed.specs.Refusals.{uses_unbound_slot};
ghost use Rattle.plan_packed.specs.Inner.Steps.{Right, Loaded, bit_of, with_slot, slots, Ordered, tree_in, condition_in, list_in, leaf_in};
ghost use Rattle.plan_bound_slots.specs.Inner.Left.{seen, After};

use plan_header::layout;
use plan_operands::tags;
use std::ops::ControlFlow;
use std::ops::ControlFlow::{Break, Continue};

// What is left to see of an expression: nothing, and this was seen, whether all slots are bound; or the term of an index, with what is bound there.
type Rest = ControlFlow<bool, (usize, usize)>;

// This slot is bound.
pub fn holds(bound: usize, slot: usize) -> bool
    requires { slot < 64 }
    ensures { result ≡ bit_of bound slot }
{
    (bound >> slot) % 2 == 1
}

// What is bound in a let's second operand; slot 15 binds nothing.
pub fn with(bound: usize, slot: usize) -> usize
    requires { slot < 64 }
    ensures { result ≡ with_slot bound slot }
{
    if slot == 15 {
        bound
    } else {
        bound | (1usize << slot)
    }
}

// A term without children, by its 40 bits.
fn closed_leaf(word: usize, bound: usize) -> bool
    requires { tag_of word < 3 }
    ensures { result ≡ closed (slots bound) (leaf_in word) }
{
    plan_operands::tag(word) != tags::VARIABLE || holds(bound, plan_operands::slot_of(word))
}

// Two operands, of which one is seen here and the other is left: the second is seen here if it has no children, else the first.
#[cycle(closed_tree)]
fn rest_of_two(words: &[usize], first: usize, bound: usize, second: usize, inner: usize) -> Rest
    requires ordered { Ordered words.now }
    requires first_bound { (first < 1024) × (second < 1024) }
    ensures result_value { seen words.now result ≡
        (closed (slots bound) (tree_in words.now first) && closed (slots inner) (tree_in words.now second)) }
    ensures by_index { (term : ℕ) → term < first → term < second → After term result }
{
    let word = plan_words::word(words, second);
    if plan_operands::tag(word) < tags::READ {
        if closed_leaf(word, inner) {
            return Continue((first, bound));
        }
        return Break(false);
    }
    if closed_expression(&*words, first, bound) {
        return Continue((second, inner));
    }
    Break(false)
}

// An expression, taken apart once.
#[cycle(closed_tree)]
fn rest_of(words: &[usize], term: usize, bound: usize) -> Rest
    requires ordered { Ordered words.now }
    requires term_bound { term < 1024 }
    ensures result_value { seen words.now result ≡ closed (slots bound) (tree_in words.now term) }
    ensures after { After term result }
{
    let word = plan_words::word(words, term);
    let first = plan_operands::first(word);
    let second = plan_operands::second(word);
    match plan_operands::tag(word) {
        tags::VARIABLE => Break(holds(bound, plan_operands::slot_of(word))),
        tags::READ => Continue((first, bound)),
        tags::WRITE => rest_of_two(
            words,
            first,
            bound,
            plan_operands::write_second(word),
            bound,
        ),
        tags::LET => {
            let inner = with(bound, plan_operands::slot_of(word));
            let value = plan_operands::let_first(word);
            let body = plan_operands::let_second(word);
            rest_of_two(words, value, bound, body, inner)
        }
        tags::IF => {
            if closed_condition(&*words, first, bound) {
                return rest_of_two(words, second, bound, plan_operands::third(word), bound);
            }
            Break(false)
        }
        tags::WHILE => {
            if closed_condition(&*words, first, bound) {
                return Continue((second, bound));
            }
            Break(false)
        }
        tags::CALL => Break(closed_list(&*words, plan_operands::list_of(word), bound)),
        tags::FORK => Continue((first, bound)),
        tags::JOIN => Continue((first, bound)),
        tags::SYNCH => rest_of_two(words, first, bound, second, bound),
        tags::WAIT => Continue((first, bound)),
        tags::NOTIFY => Continue((first, bound)),
        tags::NOTIFY_ALL => Continue((first, bound)),
        _ => Break(true),
    }
}

// An expression, one operand after the other: a call for the one, a turn of the loop for the other.
#[cycle(closed_tree)]
fn closed_expression(words: &[usize], from: usize, outer: usize) -> bool
    requires ordered { Ordered words.now }
    requires from_bound { from < 1024 }
    ensures { result ≡ closed (slots outer) (tree_in words.now from) }
{
    let mut term = from;
    let mut bound = outer;
    loop {
        let rest = rest_of(words, term, bound);
        match rest {
            Break(closed) => return closed,
            Continue((next, inner)) => {
                term = next;
                bound = inner;
            }
        }
    }
}

// A condition; the second operand of an `and` that is `true` needs no call.
#[cycle(closed_tree)]
fn closed_condition(words: &[usize], from: usize, bound: usize) -> bool
    requires ordered { Ordered words.now }
    requires from_bound { from < 1024 }
    ensures { result ≡ closedᶜ (slots bound) (condition_in words.now from) }
{
    let mut term = from;
    loop {
        let word = plan_words::word(words, term);
        let first = plan_operands::first(word);
        let second = plan_operands::second(word);
        match plan_operands::tag(word) {
            tags::NOT => {
                term = first;
                continue;
            }
            tags::AND => {
                if plan_operands::tag(plan_words::word(words, second)) == tags::TRUE {
                    term = first;
                    continue;
                }
                if !closed_condition(&*words, first, bound) {
                    return false;
                }
                term = second;
                continue;
            }
            tags::EQUAL => {
                let rest = rest_of_two(words, first, bound, second, bound);
                match rest {
                    Break(closed) => return closed,
                    Continue((next, inner)) => return closed_expression(&*words, next, inner),
                }
            }
            _ => return true,
        }
    }
}

// The arguments of a call.
#[cycle(closed_tree)]
fn closed_list(words: &[usize], from: usize, bound: usize) -> bool
    requires ordered { Ordered words.now }
    requires from_bound { from < 1024 }
    ensures { result ≡ closedᵃ (slots bound) (list_in words.now from) }
{
    let mut term = from;
    loop {
        let word = plan_words::word(words, term);
        if plan_operands::tag(word) != tags::LIST {
            return true;
        }
        if !closed_expression(&*words, plan_operands::first(word), bound) {
            return false;
        }
        term = plan_operands::second(word);
    }
}

// An expression uses no slot but the first ones, so many parameters, and those that its lets bind.
pub fn closed_with(words: &[usize], root: usize, parameters: usize) -> bool
    requires { Ordered words.now × (root < 1024) × (parameters < 64) }
    ensures { result ≡ closed (λ x. ltb x parameters) (tree_in words.now root) }
{
    closed_expression(words, root, (1usize << parameters) - 1)
}

// The lowest procedure whose root uses an unbound slot, or `procedures`.
pub fn lowest_open(plan: &[u8], procedures: usize, count: usize, words: &[usize]) -> usize
    requires right { Right plan.now procedures count }
    requires loaded { Loaded plan.now count words.now }
    ensures { Lowest (uses_unbound_slot plan.now) procedures result }
{
    for procedure in 0..procedures {
        let parameters = layout::parameters(plan, procedure);
        if !closed_with(words, layout::root(plan, procedure), parameters) {
            return procedure;
        }
    }
    procedures
}
