// What a tree costs, no further than 65,536, or which procedures it calls: one walk, asked for the one or the other. An expression, a condition and a call's
// list are walked by functions that call each other, each child coming after its parent. What the earlier parts come to is handed on to the later ones,
// so that the last part of a term is a last call, which takes no stack.
#![tactic(auto)]

ghost use Rattle.std.specs.Prelude.{◌≡◌, ◌+◌, ◌<◌};
ghost use Rattle.plan_packed.specs.Inner.Operands.{list_bits, procedure_bits};
ghost use Rattle.plan_packed.specs.Inner.Steps.{Ordered, tree_in, condition_in, list_in};
ghost use Rattle.plan_cost_walk.specs.Inner.Walked.{capped, more, called, branches, entry_of, walked, walkedᶜ, walkedᵃ, in_turn, either};

use plan_operands::{tags, third, write_second};

// Over the most that is answered.
pub const OVER: usize = 65536;

// The sum, no further than 65,536, of any two numbers.
fn capped_sum(one: usize, other: usize) -> usize
    ensures { result ≡ capped (one + other) }
{
    one.saturating_add(other).min(OVER)
}

// So many moves more, which are no calls.
fn more(counting: bool, earlier: usize, moves: usize) -> usize
    ensures { result ≡ more counting earlier moves }
{
    if counting {
        capped_sum(earlier, moves)
    } else {
        earlier
    }
}

// A call of the procedure that this is the table's entry of.
fn called(counting: bool, earlier: usize, entry: usize) -> usize
    ensures { result ≡ called counting earlier entry }
{
    if counting {
        capped_sum(earlier, entry)
    } else {
        earlier | entry
    }
}

// The dearer of two branches, or the calls of both.
fn branches(counting: bool, one: usize, other: usize) -> usize
    ensures { result ≡ branches counting one other }
{
    if counting {
        one.max(other)
    } else {
        one | other
    }
}

// An expression. The table has what each procedure's body costs, where moves are counted, else bit q for procedure q.
#[cycle(cost_walk)]
pub fn walk_expression(
    words: &[usize; 1024],
    term: usize,
    table: &[usize; 32],
    counting: bool,
    earlier: usize,
) -> usize
    requires ordered { Ordered words.now }
    requires term_bound { term < 1024 }
    ensures { result ≡ walked counting (entry_of table.now) earlier (tree_in words.now term) }
{
    let word = words[term];
    let first = plan_operands::first(word);
    let second = plan_operands::second(word);
    let one = more(counting, earlier, 1);
    match plan_operands::tag(word) {
        tags::NEW => one,
        tags::READ => walk_expression(words, first, table, counting, one),
        tags::WRITE => walk_two(words, first, write_second(word), table, counting, one),
        tags::LET => {
            let value = plan_operands::let_first(word);
            let body = plan_operands::let_second(word);
            walk_two(words, value, body, table, counting, one)
        }
        tags::IF => walk_branches(words, first, second, third(word), table, counting, one),
        tags::WHILE => {
            let test = walk_condition(words, first, table, counting, one);
            walk_expression(words, second, table, counting, test)
        }
        tags::CALL => walk_call(words, word, table, counting, one),
        tags::FORK => walk_expression(words, first, table, counting, one),
        tags::JOIN => walk_expression(words, first, table, counting, one),
        tags::SYNCH => walk_two(
            words,
            first,
            second,
            table,
            counting,
            more(counting, one, 1),
        ),
        tags::WAIT => walk_expression(words, first, table, counting, more(counting, one, 1)),
        tags::NOTIFY => walk_expression(words, first, table, counting, one),
        tags::NOTIFY_ALL => walk_expression(words, first, table, counting, one),
        _ => earlier,
    }
}

// Two expressions, one after the other.
#[cycle(cost_walk)]
fn walk_two(
    words: &[usize; 1024],
    first: usize,
    second: usize,
    table: &[usize; 32],
    counting: bool,
    earlier: usize,
) -> usize
    requires ordered { Ordered words.now }
    requires first_bound { (first < 1024) × (second < 1024) }
    ensures { result ≡ in_turn counting (entry_of table.now) earlier (tree_in words.now first) (tree_in words.now second) }
{
    let between = walk_expression(words, first, table, counting, earlier);
    walk_expression(words, second, table, counting, between)
}

// A condition and the two branches after it.
#[cycle(cost_walk)]
fn walk_branches(
    words: &[usize; 1024],
    test: usize,
    yes: usize,
    no: usize,
    table: &[usize; 32],
    counting: bool,
    earlier: usize,
) -> usize
    requires ordered { Ordered words.now }
    requires test_bound { (test < 1024) × (yes < 1024) × (no < 1024) }
    ensures { result ≡ either counting (entry_of table.now)
        (walkedᶜ counting (entry_of table.now) earlier (condition_in words.now test))
        (tree_in words.now yes) (tree_in words.now no) }
{
    let tested = walk_condition(words, test, table, counting, earlier);
    let one = walk_expression(words, yes, table, counting, tested);
    let other = walk_expression(words, no, table, counting, tested);
    branches(counting, one, other)
}

// A call, by its 40 bits: its arguments, and then its procedure.
#[cycle(cost_walk)]
fn walk_call(
    words: &[usize; 1024],
    word: usize,
    table: &[usize; 32],
    counting: bool,
    earlier: usize,
) -> usize
    requires { Ordered words.now }
    ensures { result ≡ called counting (walkedᵃ counting (entry_of table.now) earlier (list_in words.now (list_bits word)))
        (entry_of table.now (procedure_bits word)) }
{
    let passed = walk_list(
        words,
        plan_operands::list_of(word),
        table,
        counting,
        earlier,
    );
    called(counting, passed, table[plan_operands::procedure_of(word)])
}

// A condition.
#[cycle(cost_walk)]
fn walk_condition(
    words: &[usize; 1024],
    term: usize,
    table: &[usize; 32],
    counting: bool,
    earlier: usize,
) -> usize
    requires ordered { Ordered words.now }
    requires term_bound { term < 1024 }
    ensures { result ≡ walkedᶜ counting (entry_of table.now) earlier (condition_in words.now term) }
{
    let word = words[term];
    let first = plan_operands::first(word);
    let second = plan_operands::second(word);
    let one = more(counting, earlier, 1);
    match plan_operands::tag(word) {
        tags::NOT => walk_condition(words, first, table, counting, one),
        tags::AND => {
            let between = walk_condition(words, first, table, counting, one);
            walk_condition(words, second, table, counting, between)
        }
        tags::EQUAL => walk_two(words, first, second, table, counting, one),
        _ => earlier,
    }
}

// The arguments of a call.
#[cycle(cost_walk)]
fn walk_list(
    words: &[usize; 1024],
    term: usize,
    table: &[usize; 32],
    counting: bool,
    earlier: usize,
) -> usize
    requires ordered { Ordered words.now }
    requires term_bound { term < 1024 }
    ensures { result ≡ walkedᵃ counting (entry_of table.now) earlier (list_in words.now term) }
{
    let word = words[term];
    if plan_operands::tag(word) != tags::LIST {
        return earlier;
    }
    let between = walk_expression(words, plan_operands::first(word), table, counting, earlier);
    walk_list(words, plan_operands::second(word), table, counting, between)
}
