// One step of refocusing, the way down (an operand, a call's list, a term) or up with a value; before it, one for each value that comes next in a call's list.
#![tactic(auto)]

ghost use Rattle.std.specs.Prelude.{◌≡◌, ◌<◌, ◌≤◌, ◌-◌};
ghost use Rattle.run_lists.specs.Inner.Lists.{Right};
ghost use Rattle.run_refocusing_step.specs.Inner.Ahead.{next_of, gathered_of, called_of, going_of, Fits, stepped_of};
ghost use Rattle.run_refocusing_step.specs.Inner.Down.{stay_of, push_of, want_of, want_condition_of, root_at, call_of, list_of, signal_of, simple_of, open_expression_of};
ghost use Rattle.run_refocusing_step.specs.Inner.Down.{open_condition_of, opened_of, wanted_of, back_of, back_condition_of, frame_at, top_of};

use plan_operands::tags;
use run_frames::frame::{Frame, Kind};
use run_frames::refocusing::{Refocusing, Stage};
use run_frames::{frame, redex, refocusing};
use run_term_words::{slots, words};

// One step: how deep refocusing then is, a frame for place `at`, and where refocusing stands.
#[derive(Clone, Copy)]
pub struct Turn {
    pub depth: usize,
    pub at: usize,
    pub frame: Frame,
    pub go: Refocusing,
}

// A call's frame after the values that came next in its list, and how many steps are left.
#[derive(Clone, Copy)]
pub struct Gathered {
    pub left: usize,
    pub frame: Frame,
}

// Where refocusing stands once it is through a call's list, and how many steps are left.
#[derive(Clone, Copy)]
pub struct Through {
    pub left: usize,
    pub go: Refocusing,
}

// A step, and how many are left with it.
#[derive(Clone, Copy)]
pub struct Stepped {
    pub left: usize,
    pub turn: Turn,
}

// No frame more.
fn stay(go: Refocusing, depth: usize) -> Turn
    ensures { result ≡ stay_of go depth }
{
    let frame = frame::frame_of(Kind::Read, 0, 0, 0, 0);
    Turn {
        go,
        depth,
        at: depth,
        frame,
    }
}

// A frame more, if there is room for it.
fn push(go: Refocusing, depth: usize, frame: Frame) -> Turn
    ensures { result ≡ push_of go depth frame }
{
    if depth < 32 {
        return Turn {
            go,
            depth: depth + 1,
            at: depth,
            frame,
        };
    }
    stay(refocusing::full(), depth)
}

// A frame that wants the value of an expression: fed at once where that needs no move.
fn want(words: &[usize; 1024], frame: Frame, term: usize, depth: usize) -> Turn
    ensures { result ≡ want_of words.now frame term depth }
{
    let value = words::value(words, frame.environment, term);
    if value < 32 {
        return stay(refocusing::feed(frame, value), depth);
    }
    push(refocusing::run(term, frame.environment), depth, frame)
}

// The same of a condition.
fn want_condition(words: &[usize; 1024], frame: Frame, term: usize, depth: usize) -> Turn
    ensures { result ≡ want_condition_of words.now frame term depth }
{
    let truth = words::truth(words, term);
    if truth < 2 {
        return stay(refocusing::feed_condition(frame, truth), depth);
    }
    push(
        refocusing::run_condition(term, frame.environment),
        depth,
        frame,
    )
}

// The root of a procedure; an index over 31 wraps.
fn root(roots: &[usize; 32], procedure: usize) -> usize
    ensures { result ≡ root_at roots.now procedure }
{
    roots[procedure % 32]
}

// The call of a frame's procedure with these arguments.
fn call(roots: &[usize; 32], frame: Frame, arguments: usize) -> Refocusing
    ensures { result ≡ call_of roots.now frame arguments }
{
    let term = root(roots, frame.member);
    refocusing::at(refocusing::ready_of(redex::RUN, term, 0, 0, arguments))
}

// The rest of a call's list: the next operand, or the call.
fn list(words: &[usize; 1024], roots: &[usize; 32], frame: Frame) -> Refocusing
    ensures { result ≡ list_of words.now roots.now frame }
{
    let word = words::word(words, frame.first);
    if plan_operands::tag(word) == tags::LIST {
        return refocusing::want(
            frame::rest(frame, plan_operands::second(word)),
            plan_operands::first(word),
        );
    }
    call(roots, frame, frame.arguments)
}

// The value that comes next in a call's list whose word this is; 32 where the list is over or its next operand needs a move.
fn next(words: &[usize; 1024], environment: usize, word: usize) -> usize
    ensures { result ≡ next_of words.now environment word }
{
    if plan_operands::tag(word) == tags::LIST {
        return words::value(words, environment, plan_operands::first(word));
    }
    32
}

// Takes the values that come next in a call's list into its frame, a step to each, as long as another step is left.
fn gather(words: &[usize; 1024], frame: Frame, left: usize) -> Gathered
    requires { 0 < left }
    ensures { result ≡ gathered_of (left - 1) words.now frame }
{
    let mut frame = frame;
    for more in (1..left).rev() {
        let word = words::word(words, frame.first);
        let value = next(words, frame.environment, word);
        if 32 <= value {
            return Gathered {
                left: more + 1,
                frame,
            };
        }
        frame = frame::collect(frame::rest(frame, plan_operands::second(word)), value);
    }
    Gathered { left: 1, frame }
}

// The same, and then a step.
fn one_by_one(words: &[usize; 1024], roots: &[usize; 32], frame: Frame, left: usize) -> Through
    requires { 0 < left }
    ensures { result ≡ called_of words.now roots.now left frame }
{
    let gathered = gather(words, frame, left);
    let frame = gathered.frame;
    Through {
        left: gathered.left,
        go: list(words, roots, frame),
    }
}

// Whether so many values have room in a call's frame, above those that are there, and a step is left after one to each.
fn fits(frame: Frame, count: usize, left: usize) -> bool
    ensures { Fits frame count left result }
{
    count < left
        && count <= 8
        && frame.count <= 8 - count
        && frame.arguments >> (frame.count * 5) == 0
}

// Through the rest of a call's list: all of it at once where it is values alone, which its number tells; else to an operand that needs a move.
fn called(
    words: &[usize; 1024],
    roots: &[usize; 32],
    lists: &mut [usize; 32],
    frame: Frame,
    left: usize,
) -> Through
    requires { (0 < left) × Right words.now lists.old }
    ensures { (result ≡ called_of words.now roots.now left frame) × Right words.now lists.new }
{
    if plan_operands::tag(words::word(words, frame.first)) == tags::LIST {
        let told = run_lists::told(words, lists, frame.first % 1024);
        let count = run_lists::count_of(told);
        if fits(frame, count, left) {
            let more = run_lists::values(frame.environment, told) << (frame.count * 5);
            return Through {
                left: left - count,
                go: call(roots, frame, frame.arguments + more),
            };
        }
        return one_by_one(words, roots, frame, left);
    }
    Through {
        left,
        go: call(roots, frame, frame.arguments),
    }
}

// Down from a wait, a notify or a notify all.
fn signal(word: usize, environment: usize) -> Refocusing
    ensures { result ≡ signal_of word environment }
{
    let tag = plan_operands::tag(word);
    let first = plan_operands::first(word);
    match tag {
        tags::WAIT => refocusing::want(frame::frame_of(Kind::Signal, 0, 0, 0, environment), first),
        tags::NOTIFY => refocusing::want(
            frame::frame_of(Kind::Signal, 0, 0, 1, environment),
            first,
        ),
        tags::NOTIFY_ALL => refocusing::want(
            frame::frame_of(Kind::Signal, 0, 0, 2, environment),
            first,
        ),
        _ => refocusing::at(refocusing::ready_of(redex::NO_RULE, 0, 0, 0, 0)),
    }
}

// Down from an expression whose operands need no look: a value, `new`, `while`, `fork`; or from a signal.
fn simple(word: usize, environment: usize) -> Refocusing
    ensures { result ≡ simple_of word environment }
{
    let tag = plan_operands::tag(word);
    match tag {
        tags::NEW => refocusing::at(refocusing::ready_of(
            redex::NEW,
            plan_operands::mask_of(word),
            0,
            0,
            0,
        )),
        tags::WHILE => refocusing::at(refocusing::ready_of(
            redex::WHILE,
            plan_operands::first(word),
            plan_operands::second(word),
            0,
            environment,
        )),
        tags::FORK => refocusing::at(refocusing::ready_of(
            redex::FORK,
            plan_operands::first(word),
            0,
            0,
            environment,
        )),
        tags::NULL => refocusing::value(0),
        tags::VARIABLE => refocusing::value(slots::slot(environment, plan_operands::slot_of(word))),
        _ => signal(word, environment),
    }
}

// Down from an expression.
fn open_expression(word: usize, environment: usize) -> Refocusing
    ensures { result ≡ open_expression_of word environment }
{
    let tag = plan_operands::tag(word);
    let first = plan_operands::first(word);
    let second = plan_operands::second(word);
    let field = plan_operands::field_of(word);
    match tag {
        tags::READ => refocusing::want(
            frame::frame_of(Kind::Read, 0, 0, field, environment),
            first,
        ),
        tags::WRITE => {
            let value = plan_operands::write_second(word);
            let frame = frame::frame_of(Kind::Write1, value, 0, field, environment);
            refocusing::want(frame, first)
        }
        tags::LET => refocusing::want(
            frame::let_frame(
                plan_operands::slot_of(word),
                plan_operands::let_second(word),
                environment,
            ),
            plan_operands::let_first(word),
        ),
        tags::IF => refocusing::want_condition(
            frame::frame_of(Kind::If, second, plan_operands::third(word), 0, environment),
            first,
        ),
        tags::CALL => refocusing::list(frame::frame_of(
            Kind::Call,
            plan_operands::list_of(word),
            0,
            plan_operands::procedure_of(word),
            environment,
        )),
        tags::JOIN => refocusing::want(frame::frame_of(Kind::Join, 0, 0, 0, environment), first),
        tags::SYNCH => refocusing::want(
            frame::frame_of(Kind::Synch, second, 0, 0, environment),
            first,
        ),
        _ => simple(word, environment),
    }
}

// Down from a condition.
fn open_condition(word: usize, environment: usize) -> Refocusing
    ensures { result ≡ open_condition_of word environment }
{
    let tag = plan_operands::tag(word);
    let first = plan_operands::first(word);
    let second = plan_operands::second(word);
    match tag {
        tags::TRUE => refocusing::truth(1),
        tags::NOT => refocusing::want_condition(
            frame::frame_of(Kind::Not, 0, 0, 0, environment),
            first,
        ),
        tags::AND => refocusing::want_condition(
            frame::frame_of(Kind::And, second, 0, 0, environment),
            first,
        ),
        tags::EQUAL => refocusing::want(
            frame::frame_of(Kind::Equal1, second, 0, 0, environment),
            first,
        ),
        _ => refocusing::at(refocusing::ready_of(redex::NO_RULE, 0, 0, 0, 0)),
    }
}

// A way down is taken: its term is opened.
fn opened(words: &[usize; 1024], go: Refocusing) -> Refocusing
    ensures { result ≡ opened_of words.now go }
{
    let frame = go.frame;
    let stage = go.stage;
    match stage {
        Stage::Run => open_expression(words::word(words, go.operand), frame.environment),
        Stage::RunCondition => open_condition(words::word(words, go.operand), frame.environment),
        _ => go,
    }
}

// A call's list is gone through.
fn listed(
    words: &[usize; 1024],
    roots: &[usize; 32],
    lists: &mut [usize; 32],
    go: Refocusing,
    left: usize,
) -> Through
    requires { (0 < left) × Right words.now lists.old }
    ensures { (result ≡ going_of words.now roots.now left go) × Right words.now lists.new }
{
    let frame = go.frame;
    let stage = go.stage;
    match stage {
        Stage::List => called(words, roots, lists, frame, left),
        _ => Through { left, go },
    }
}

// A frame that wants an operand is fed, or set down.
fn wanted(words: &[usize; 1024], go: Refocusing, depth: usize) -> Turn
    ensures { result ≡ wanted_of words.now go depth }
{
    let frame = go.frame;
    let stage = go.stage;
    match stage {
        Stage::Want => want(words, frame, go.operand, depth),
        Stage::WantCondition => want_condition(words, frame, go.operand, depth),
        _ => stay(go, depth),
    }
}

// A value goes up into the top frame.
fn back(frame: Frame, value: usize, depth: usize) -> Turn
    ensures { result ≡ back_of frame value depth }
{
    if depth == 0 {
        return stay(
            refocusing::at(refocusing::ready_of(redex::DONE, value, 0, 0, 0)),
            depth,
        );
    }
    stay(refocusing::feed(frame, value), depth - 1)
}

// A condition's value goes up into the top frame.
fn back_condition(frame: Frame, truth: usize, depth: usize) -> Turn
    ensures { result ≡ back_condition_of frame truth depth }
{
    if depth == 0 {
        return stay(
            refocusing::at(refocusing::ready_of(redex::NO_RULE, 0, 0, 0, 0)),
            depth,
        );
    }
    stay(refocusing::feed_condition(frame, truth), depth - 1)
}

// The frame at a place, three numbers to a frame.
fn frame_at(stack: &[usize; 891], place: usize) -> Frame
    requires { place < 297 }
    ensures { result ≡ frame_at stack.now place }
{
    let at = place * 3;
    frame::unpack(stack[at], stack[at + 1], stack[at + 2])
}

// The place of the top frame, of a thread whose places start at base.
fn top(base: usize, depth: usize) -> usize
    requires { (base ≤ 264) × (depth ≤ 32) }
    ensures { (result ≡ top_of base depth) × (result < 297) }
{
    if depth == 0 {
        return base;
    }
    base + (depth - 1)
}

// One step of refocusing and, before it, one for each value that comes next in a call's list, of at most so many, with the frames of a thread whose places
// start at base, of which only a value on its way up takes the top one. A way down goes through its functions one after the other, so that each has one caller.
pub fn step(
    words: &[usize; 1024],
    roots: &[usize; 32],
    lists: &mut [usize; 32],
    stack: &[usize; 891],
    base: usize,
    go: Refocusing,
    depth: usize,
    left: usize,
) -> Stepped
    requires { (base ≤ 264) × (depth ≤ 32) × (0 < left) × Right words.now lists.old }
    ensures value { result ≡ stepped_of words.now roots.now left go depth (frame_at stack.now (top_of base depth)) }
    ensures right { Right words.now lists.new }
{
    let stage = go.stage;
    match stage {
        Stage::Value => {
            let turn = back(frame_at(stack, top(base, depth)), go.operand, depth);
            Stepped { left, turn }
        }
        Stage::Truth => {
            let turn = back_condition(frame_at(stack, top(base, depth)), go.operand, depth);
            Stepped { left, turn }
        }
        _ => {
            let opened = opened(words, go);
            let listed = listed(words, roots, lists, opened, left);
            let turn = wanted(words, listed.go, depth);
            Stepped {
                left: listed.left,
                turn,
            }
        }
    }
}
