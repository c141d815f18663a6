// The terms of a tree into an area, five bytes each: the root's first, then those of its children from left to right, each child followed by all that is
// below it before the next. A term's last child is a turn of the loop and every other one a call, so what is left of a term is an answer (`Left`); an
// expression without children is written in place of a call (`write_child`).
#![tactic(auto)]

ghost use Rattle.std.specs.Prelude.{◌≡◌, ◌<◌};
ghost use Rattle.plan_packed.specs.Inner.Steps.{Ordered};
ghost use mir.Val.{has_key};
ghost use Rattle.plan_tree_writer.specs.Inner.Left.{singles, pairs, pair_first, pair_second, expressions_in, conditions_in, lists_in, Room, Wrote, Going};

use plan_operands::tags;

// What is left to write of a tree: nothing, and the next term has this number; or the tree at a term, whose root has this number.
#[derive(Clone, Copy)]
enum Left {
    Done(usize),
    At(usize, usize),
}

// An expression of this tag has one child, an expression.
fn has_one(tag: usize) -> bool
    ensures { result ≡ has_key singles tag }
{
    matches!(
        tag,
        tags::READ | tags::FORK | tags::JOIN | tags::WAIT | tags::NOTIFY | tags::NOTIFY_ALL
    )
}

// It has two, both expressions.
fn has_two(tag: usize) -> bool
    ensures { result ≡ has_key pairs tag }
{
    matches!(tag, tags::WRITE | tags::LET | tags::SYNCH)
}

// The first child of an expression with two.
fn pair_first(word: usize) -> usize
    ensures { result ≡ pair_first word }
{
    if plan_operands::tag(word) == tags::LET {
        return plan_operands::let_first(word);
    }
    plan_operands::first(word)
}

// Its second child.
fn pair_second(word: usize) -> usize
    ensures { result ≡ pair_second word }
{
    match plan_operands::tag(word) {
        tags::WRITE => plan_operands::write_second(word),
        tags::LET => plan_operands::let_second(word),
        _ => plan_operands::second(word),
    }
}

// An expression but for its last child.
#[cycle(tree_writer)]
fn begin_expression(
    words: &[usize],
    term: usize,
    area: &mut [u8],
    base: usize,
    number: usize,
) -> Left
    requires ordered { Ordered words.now × (term < 1024) }
    requires room { Room (expressions_in words.now term) base number area.old }
    ensures { Going (expressions_in words.now) base term number area.old area.new result }
{
    let word = plan_words::word(words, term);
    let tag = plan_operands::tag(word);
    let place = base + 5 * number;
    let next = number + 1;
    if has_one(tag) {
        plan_packing::put(area, place, plan_packing::one(word, next));
        return Left::At(plan_operands::first(word), next);
    }
    if has_two(tag) {
        let child = pair_first(word);
        let last = pair_second(word);
        let second = write_child(&*words, child, area, base, next);
        plan_packing::put(area, place, plan_packing::two(word, next, second));
        return Left::At(last, second);
    }
    match tag {
        tags::IF => {
            let second = write_condition(&*words, plan_operands::first(word), area, base, next);
            let third = write_child(&*words, plan_operands::second(word), area, base, second);
            plan_packing::put(area, place, plan_packing::three(next, second, third));
            Left::At(plan_operands::third(word), third)
        }
        tags::WHILE => {
            let body = write_condition(&*words, plan_operands::first(word), area, base, next);
            plan_packing::put(area, place, plan_packing::two(word, next, body));
            Left::At(plan_operands::second(word), body)
        }
        tags::CALL => {
            plan_packing::put(area, place, plan_packing::call(word, next));
            let end = write_list(&*words, plan_operands::list_of(word), area, base, next);
            Left::Done(end)
        }
        _ => {
            plan_packing::put(area, place, plan_packing::leaf(word));
            Left::Done(next)
        }
    }
}

// A condition but for its last child, if that is a condition.
#[cycle(tree_writer)]
fn begin_condition(
    words: &[usize],
    term: usize,
    area: &mut [u8],
    base: usize,
    number: usize,
) -> Left
    requires ordered { Ordered words.now × (term < 1024) }
    requires room { Room (conditions_in words.now term) base number area.old }
    ensures { Going (conditions_in words.now) base term number area.old area.new result }
{
    let word = plan_words::word(words, term);
    let place = base + 5 * number;
    let next = number + 1;
    let first = plan_operands::first(word);
    match plan_operands::tag(word) {
        tags::NOT => {
            plan_packing::put(area, place, plan_packing::one(word, next));
            Left::At(first, next)
        }
        tags::AND => {
            let second = write_condition(&*words, first, area, base, next);
            plan_packing::put(area, place, plan_packing::two(word, next, second));
            Left::At(plan_operands::second(word), second)
        }
        tags::EQUAL => {
            let second = write_child(&*words, first, area, base, next);
            plan_packing::put(area, place, plan_packing::two(word, next, second));
            let end = write_child(&*words, plan_operands::second(word), area, base, second);
            Left::Done(end)
        }
        _ => {
            plan_packing::put(area, place, tags::TRUE * plan_operands::TAG);
            Left::Done(next)
        }
    }
}

// An argument of a call, or the end of its list.
#[cycle(tree_writer)]
fn begin_list(words: &[usize], term: usize, area: &mut [u8], base: usize, number: usize) -> Left
    requires ordered { Ordered words.now × (term < 1024) }
    requires room { Room (lists_in words.now term) base number area.old }
    ensures { Going (lists_in words.now) base term number area.old area.new result }
{
    let word = plan_words::word(words, term);
    let place = base + 5 * number;
    let next = number + 1;
    if plan_operands::tag(word) != tags::LIST {
        plan_packing::put(area, place, tags::LIST_END * plan_operands::TAG);
        return Left::Done(next);
    }
    let rest = write_child(&*words, plan_operands::first(word), area, base, next);
    plan_packing::put(area, place, plan_packing::two(word, next, rest));
    Left::At(plan_operands::second(word), rest)
}

// An expression that is not a term's last child: in place if it has no children, else by a call.
#[cycle(tree_writer)]
fn write_child(words: &[usize], term: usize, area: &mut [u8], base: usize, number: usize) -> usize
    requires ordered { Ordered words.now × (term < 1024) }
    requires room { Room (expressions_in words.now term) base number area.old }
    ensures { Wrote (expressions_in words.now term) base number area.old area.new result }
{
    let word = plan_words::word(words, term);
    if plan_operands::tag(word) < tags::READ {
        plan_packing::put(area, base + 5 * number, plan_packing::leaf(word));
        return number + 1;
    }
    write_expression(&*words, term, area, base, number)
}

// An expression whose root has this number, in the area whose terms begin at `base`; the number after its last term's.
#[cycle(tree_writer)]
pub fn write_expression(
    words: &[usize],
    from: usize,
    area: &mut [u8],
    base: usize,
    first: usize,
) -> usize
    requires ordered { Ordered words.now × (from < 1024) }
    requires room { Room (expressions_in words.now from) base first area.old }
    ensures { Wrote (expressions_in words.now from) base first area.old area.new result }
{
    let mut term = from;
    let mut number = first;
    loop {
        let left = begin_expression(words, term, area, base, number);
        match left {
            Left::Done(next) => return next,
            Left::At(child, next) => {
                term = child;
                number = next;
            }
        }
    }
}

// A condition, as an expression.
#[cycle(tree_writer)]
fn write_condition(
    words: &[usize],
    from: usize,
    area: &mut [u8],
    base: usize,
    first: usize,
) -> usize
    requires ordered { Ordered words.now × (from < 1024) }
    requires room { Room (conditions_in words.now from) base first area.old }
    ensures { Wrote (conditions_in words.now from) base first area.old area.new result }
{
    let mut term = from;
    let mut number = first;
    loop {
        let left = begin_condition(words, term, area, base, number);
        match left {
            Left::Done(next) => return next,
            Left::At(child, next) => {
                term = child;
                number = next;
            }
        }
    }
}

// The arguments of a call, as an expression.
#[cycle(tree_writer)]
fn write_list(words: &[usize], from: usize, area: &mut [u8], base: usize, first: usize) -> usize
    requires ordered { Ordered words.now × (from < 1024) }
    requires room { Room (lists_in words.now from) base first area.old }
    ensures { Wrote (lists_in words.now from) base first area.old area.new result }
{
    let mut term = from;
    let mut number = first;
    loop {
        let left = begin_list(words, term, area, base, number);
        match left {
            Left::Done(next) => return next,
            Left::At(child, next) => {
                term = child;
                number = next;
            }
        }
    }
}
