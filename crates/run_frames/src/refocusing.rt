// Where refocusing stands, and what a frame does with the value of its operand.
ghost use Rattle.std.specs.Prelude.{◌≡◌};
ghost use Rattle.run_frames.specs.Inner.Going.{ready_at, go_of, go_at, ready_in, go_run, go_run_condition, go_want, go_want_condition, go_list, go_value, go_truth};
ghost use Rattle.run_frames.specs.Inner.Going.{go_full, same_of, feed_of, feed_if_of, feed_condition_of};

use crate::frame::{Frame, Kind};
use crate::{frame, redex};
use run_term_words::slots;

// The redex with its numbers, and the slots `environment` where it has terms. By redex:
//   DONE, VAL, TRUTH            first: the value
//   RUN, RUN_CONDITION, FORK    first: the term
//   WHILE, BODY, AGAIN          first and second: the condition and the body
//   NEW                         first: the mask of its fields
//   READ, WRITE                 first: the object; second: the field; of a write, third: the value
//   JOIN                        first: the object
//   SYNCH                       first: the object; second: the body
//   HOLD                        first: the object; second: the value
//   SIGNAL                      first: the object; second: which signal, 0 wait, 1 notify, 2 notify all
//   WAITING                     first: the object
//   NO_RULE                     nothing
#[derive(Clone, Copy)]
pub struct Ready {
    pub redex: usize,
    pub first: usize,
    pub second: usize,
    pub third: usize,
    pub environment: usize,
}

// Refocusing goes down from an expression or a condition, wants an operand for a frame, goes through a call's list, carries a value up, or has ended.
#[derive(Clone, Copy)]
pub enum Stage {
    Full,
    At,
    Run,
    RunCondition,
    Want,
    WantCondition,
    List,
    Value,
    Truth,
}

// A stage with its numbers: `operand` is a term or a value; the slots of a way down are the frame's. Where refocusing has ended, the frame's numbers are
// the redex's.
#[derive(Clone, Copy)]
pub struct Refocusing {
    pub operand: usize,
    pub frame: Frame,
    pub stage: Stage,
}

pub fn ready_of(
    redex: usize,
    first: usize,
    second: usize,
    third: usize,
    environment: usize,
) -> Ready
    ensures { result ≡ ready_at redex first second third environment }
{
    Ready {
        redex,
        first,
        second,
        third,
        environment,
    }
}

fn go_of(stage: Stage, frame: Frame, operand: usize) -> Refocusing
    ensures { result ≡ go_of stage frame operand }
{
    Refocusing {
        operand,
        frame,
        stage,
    }
}

// Refocusing has ended at a redex that moves.
pub fn at(ready: Ready) -> Refocusing
    ensures { result ≡ go_at ready }
{
    let frame = Frame {
        kind: Kind::Read,
        first: ready.first,
        second: ready.second,
        member: ready.redex,
        count: 0,
        environment: ready.environment,
        arguments: ready.third,
    };
    go_of(Stage::At, frame, 0)
}

// The redex where refocusing has ended.
pub fn ready_in(go: Refocusing) -> Ready
    ensures { result ≡ ready_in go }
{
    let frame = go.frame;
    ready_of(
        frame.member,
        frame.first,
        frame.second,
        frame.arguments,
        frame.environment,
    )
}

// Down from an expression with these slots.
pub fn run(term: usize, environment: usize) -> Refocusing
    ensures { result ≡ go_run term environment }
{
    go_of(
        Stage::Run,
        frame::frame_of(Kind::Read, 0, 0, 0, environment),
        term,
    )
}

// Down from a condition with these slots.
pub fn run_condition(term: usize, environment: usize) -> Refocusing
    ensures { result ≡ go_run_condition term environment }
{
    go_of(
        Stage::RunCondition,
        frame::frame_of(Kind::Read, 0, 0, 0, environment),
        term,
    )
}

// A frame that wants the value of an expression.
pub fn want(frame: Frame, term: usize) -> Refocusing
    ensures { result ≡ go_want frame term }
{
    go_of(Stage::Want, frame, term)
}

// A frame that wants the value of a condition.
pub fn want_condition(frame: Frame, term: usize) -> Refocusing
    ensures { result ≡ go_want_condition frame term }
{
    go_of(Stage::WantCondition, frame, term)
}

// A call's frame, at the rest of its list.
pub fn list(frame: Frame) -> Refocusing
    ensures { result ≡ go_list frame }
{
    go_of(Stage::List, frame, 0)
}

// A value on its way up.
pub fn value(value: usize) -> Refocusing
    ensures { result ≡ go_value value }
{
    go_of(Stage::Value, frame::frame_of(Kind::Read, 0, 0, 0, 0), value)
}

// A condition's value on its way up, 0 false and 1 true.
pub fn truth(truth: usize) -> Refocusing
    ensures { result ≡ go_truth truth }
{
    go_of(Stage::Truth, frame::frame_of(Kind::Read, 0, 0, 0, 0), truth)
}

// No room for a frame.
pub fn full() -> Refocusing
    ensures { result ≡ go_full }
{
    go_of(Stage::Full, frame::frame_of(Kind::Read, 0, 0, 0, 0), 0)
}

// 1 where two values are the same object, else 0.
fn same(value: usize, other: usize) -> usize
    ensures { result ≡ same_of value other }
{
    if value == other { 1 } else { 0 }
}

// What a frame does with the value of its operand.
pub fn feed(frame: Frame, value: usize) -> Refocusing
    ensures { result ≡ feed_of frame value }
{
    let kind = frame.kind;
    match kind {
        Kind::Read => at(ready_of(redex::READ, value, frame.member, 0, 0)),
        Kind::Write1 => want(frame::second_frame(Kind::Write2, frame, value), frame.first),
        Kind::Write2 => at(ready_of(redex::WRITE, frame.arguments, frame.member, value, 0)),
        Kind::Call => list(frame::collect(frame, value)),
        Kind::Let => at(ready_of(
            redex::RUN,
            frame.first,
            0,
            0,
            slots::bind(frame.environment, frame.count, value),
        )),
        Kind::Synch => at(ready_of(redex::SYNCH, value, frame.first, 0, frame.environment)),
        Kind::Hold => at(ready_of(redex::HOLD, frame.arguments, value, 0, 0)),
        Kind::Join => at(ready_of(redex::JOIN, value, 0, 0, 0)),
        Kind::Equal1 => want(frame::second_frame(Kind::Equal2, frame, value), frame.first),
        Kind::Equal2 => at(ready_of(redex::TRUTH, same(frame.arguments, value), 0, 0, 0)),
        Kind::Body => at(ready_of(
            redex::AGAIN,
            frame.first,
            frame.second,
            0,
            frame.environment,
        )),
        Kind::Signal => at(ready_of(redex::SIGNAL, value, frame.member, 0, 0)),
        Kind::If => at(ready_of(redex::NO_RULE, 0, 0, 0, 0)),
        Kind::And => at(ready_of(redex::NO_RULE, 0, 0, 0, 0)),
        Kind::Not => at(ready_of(redex::NO_RULE, 0, 0, 0, 0)),
        Kind::Test => at(ready_of(redex::NO_RULE, 0, 0, 0, 0)),
    }
}

// What a frame does with a condition's value, where it is an `if` or a loop's test.
fn feed_if(frame: Frame, truth: usize) -> Refocusing
    ensures { result ≡ feed_if_of frame truth }
{
    let kind = frame.kind;
    match kind {
        Kind::If => {
            if truth == 1 {
                return at(ready_of(redex::RUN, frame.first, 0, 0, frame.environment));
            }
            at(ready_of(redex::RUN, frame.second, 0, 0, frame.environment))
        }
        Kind::Test => {
            if truth == 1 {
                return at(ready_of(redex::BODY, frame.first, frame.second, 0, frame.environment));
            }
            at(ready_of(redex::VAL, 0, 0, 0, 0))
        }
        _ => at(ready_of(redex::NO_RULE, 0, 0, 0, 0)),
    }
}

// What a frame does with a condition's value.
pub fn feed_condition(frame: Frame, truth: usize) -> Refocusing
    ensures { result ≡ feed_condition_of frame truth }
{
    let kind = frame.kind;
    match kind {
        Kind::And => {
            if truth == 1 {
                return at(ready_of(redex::RUN_CONDITION, frame.first, 0, 0, frame.environment));
            }
            at(ready_of(redex::TRUTH, 0, 0, 0, 0))
        }
        Kind::Not => {
            if truth == 1 {
                return crate::refocusing::truth(0);
            }
            at(ready_of(redex::TRUTH, 1, 0, 0, 0))
        }
        _ => feed_if(frame, truth),
    }
}
