// Act: what a move does, by value.
#![tactic(auto)]

ghost use Rattle.std.specs.Prelude.{◌≡◌};
ghost use Rattle.run_act.specs.Inner.Act.{goes_on_by, act_pure, changes_by, act_of};

use run_frames::frame::Kind;
use run_frames::refocusing::Refocusing;
use run_frames::{frame, redex, refocusing};
use run_state::acted::Act;
use run_state::{Cell, Counts, Head, Object, Setting, acted};

// Whether a move of the redex only goes on elsewhere: it leaves no record, and nothing but its own thread has to do with it.
pub fn goes_on(redex: usize) -> bool
    ensures { result ≡ goes_on_by redex }
{
    redex::RUN <= redex && redex <= redex::AGAIN
}

// Where a move that leaves no record goes on.
pub fn act_pure(head: Head) -> Refocusing
    ensures { result ≡ act_pure head }
{
    let ready = head.ready;
    let redex = ready.redex;
    match redex {
        redex::RUN => refocusing::run(ready.first, ready.environment),
        redex::RUN_CONDITION => refocusing::run_condition(ready.first, ready.environment),
        redex::VAL => refocusing::value(ready.first),
        redex::TRUTH => refocusing::truth(ready.first),
        redex::WHILE => refocusing::want_condition(
            frame::frame_of(Kind::Test, ready.first, ready.second, 0, ready.environment),
            ready.first,
        ),
        redex::BODY => refocusing::want(
            frame::frame_of(Kind::Body, ready.first, ready.second, 0, ready.environment),
            ready.second,
        ),
        redex::AGAIN => refocusing::at(refocusing::ready_of(
            redex::WHILE,
            ready.first,
            ready.second,
            0,
            ready.environment,
        )),
        _ => refocusing::full(),
    }
}

// Whether a move of the redex may change its cell.
pub fn changes(redex: usize) -> bool
    ensures { result ≡ changes_by redex }
{
    redex == redex::WRITE || redex::SYNCH <= redex
}

// What the move of a thread that can move does.
pub fn act(
    setting: Setting,
    counts: Counts,
    head: Head,
    cell: Cell,
    object: Object,
    other: Head,
) -> Act
    ensures { result ≡ act_of setting counts head cell object other }
{
    let ready = head.ready;
    let redex = ready.redex;
    match redex {
        redex::NEW => run_objects::act_new(counts, head, cell, ready.first),
        redex::READ => run_accesses::act_read(
            setting,
            counts,
            head,
            cell,
            ready.first,
            ready.second,
        ),
        redex::WRITE => run_accesses::act_write(
            setting,
            counts,
            head,
            cell,
            ready.first,
            ready.second,
            ready.third,
        ),
        redex::FORK => run_objects::act_fork(counts, head, cell),
        redex::JOIN => run_objects::act_join(counts, head, cell, object, other, ready.first),
        redex::SYNCH => run_monitors::act_synch(
            counts,
            head,
            cell,
            ready.first,
            ready.second,
            ready.environment,
        ),
        redex::HOLD => run_monitors::act_hold(counts, head, ready.first, ready.second),
        redex::SIGNAL => run_monitors::act_signal(counts, head, cell, ready.first, ready.second),
        redex::WAITING => run_monitors::act_wake(counts, head, cell, ready.first),
        _ => acted::go_on(act_pure(head), counts, head, cell),
    }
}
