// Look: what a thread's next pick meets, apart from room, and the state that an outcome gives it.
#![tactic(auto)]

ghost use Rattle.std.specs.Prelude.{◌≡◌, ◌<◌};
ghost use Rattle.run_look.specs.Inner.Look.{object_of, field_of, has_of, look_field, look_join, look_synch, look_signal, look_waiting, about_field, look_of};
ghost use Rattle.run_look.specs.Inner.Look.{blocked_of, state_of};

use run_frames::redex;
use run_frames::refocusing::Ready;
use run_outcome::{Stuck, ThreadState, Wait};
use run_state::{Cell, Head, Object, Setting};

// Why a present thread's pick is passed over: it has finished; waits for a monitor, for a join or to be notified; is stuck for a field, for a thread, for
// a monitor that it does not hold or for a rule.
#[derive(Clone, Copy)]
pub enum Block {
    Finished,
    Monitor,
    Join,
    Notify,
    Field,
    Thread,
    NotHeld,
    NoRule,
}

// What a pick meets: a thread that can move, one that lacks a key, or one that is blocked. Of two bytes, and apart from the numbers that a state names,
// so that it costs a pick nothing to be told.
#[derive(Clone, Copy)]
pub enum Sight {
    Ready,
    Lacking,
    Blocked(Block),
}

// The object that the redex is about; 0 where it is about none. Of the redexes from a read on, a fork alone is about none: three tests are faster than a match.
pub fn object_of(ready: Ready) -> usize
    ensures { (result ≡ object_of ready) × (result < 32) }
{
    let redex = ready.redex;
    if redex < redex::READ {
        return 0;
    }
    if redex::WAITING < redex {
        return 0;
    }
    if redex == redex::FORK {
        return 0;
    }
    ready.first % 32
}

// The field that the redex is about; 0, the monitor, where it is about none.
pub fn field_of(ready: Ready) -> usize
    ensures { (result ≡ field_of ready) × (result < 32) }
{
    let redex = ready.redex;
    match redex {
        redex::READ => ready.second % 32,
        redex::WRITE => ready.second % 32,
        _ => 0,
    }
}

// Whether the mask, whose top bit is field 0, has the field.
pub fn has(mask: usize, field: usize) -> bool
    ensures { result ≡ has_of mask field }
{
    (mask >> (31 - field % 32)) % 2 == 1
}

// What an access to a field meets.
fn look_field(setting: Setting, head: Head, cell: Cell, object: Object, field: usize) -> Sight
    ensures { result ≡ look_field setting head cell object field }
{
    if !has(object.mask, field) {
        return Sight::Blocked(Block::Field);
    }
    if has(setting.mask, field) {
        return Sight::Ready;
    }
    let keys = head.keys;
    if keys.holds((cell.key % 256) as u8) {
        return Sight::Ready;
    }
    Sight::Lacking
}

// What a join meets, by the redex of the thread that its object stands for.
fn look_join(object: Object, other: usize) -> Sight
    ensures { result ≡ look_join object other }
{
    if 8 <= object.thread {
        return Sight::Blocked(Block::Thread);
    }
    if other == redex::DONE {
        Sight::Ready
    } else {
        Sight::Blocked(Block::Join)
    }
}

fn look_synch(head: Head, cell: Cell) -> Sight
    ensures { result ≡ look_synch head cell }
{
    let keys = cell.keys;
    if keys.is_empty() && cell.value as usize != head.object {
        return Sight::Blocked(Block::Monitor);
    }
    Sight::Ready
}

// A wait, a notify and a notify all need the monitor held by the mover.
fn look_signal(head: Head, cell: Cell) -> Sight
    ensures { result ≡ look_signal head cell }
{
    let keys = cell.keys;
    if keys.is_empty() && cell.value as usize == head.object {
        return Sight::Ready;
    }
    Sight::Blocked(Block::NotHeld)
}

// A thread that waits in its place, number * 32 + object, needs to be notified, and then the monitor free.
fn look_waiting(cell: Cell, place: u16) -> Sight
    ensures { result ≡ look_waiting cell place }
{
    if place / 32 != 0 {
        return Sight::Blocked(Block::Notify);
    }
    let keys = cell.keys;
    if keys.is_empty() {
        Sight::Blocked(Block::Monitor)
    } else {
        Sight::Ready
    }
}

// Whether the redex reads or writes a field.
fn about_field(redex: usize) -> bool
    ensures { result ≡ about_field redex }
{
    redex == redex::READ || redex == redex::WRITE
}

// What a present thread's next pick meets, by its head, the cell and the object that its redex is about, the redex of the thread that the object
// stands for, and its place in a queue.
pub fn look(
    setting: Setting,
    head: Head,
    cell: Cell,
    object: Object,
    other: usize,
    place: u16,
) -> Sight
    ensures { result ≡ look_of setting head cell object other place }
{
    let ready = head.ready;
    let redex = ready.redex;
    if about_field(redex) {
        return look_field(setting, head, cell, object, ready.second);
    }
    match redex {
        redex::DONE => Sight::Blocked(Block::Finished),
        redex::NO_RULE => Sight::Blocked(Block::NoRule),
        redex::JOIN => look_join(object, other),
        redex::SYNCH => look_synch(head, cell),
        redex::SIGNAL => look_signal(head, cell),
        redex::WAITING => look_waiting(cell, place),
        _ => Sight::Ready,
    }
}

fn blocked(block: Block, ready: Ready) -> ThreadState
    ensures { result ≡ blocked_of block ready }
{
    let object = object_of(ready);
    let field = field_of(ready);
    match block {
        Block::Finished => ThreadState::Finished { value: ready.first },
        Block::Monitor => ThreadState::Waiting(Wait::Monitor { object }),
        Block::Join => ThreadState::Waiting(Wait::Join { object }),
        Block::Notify => ThreadState::Waiting(Wait::Notify { object }),
        Block::Field => ThreadState::Stuck(Stuck::Field { object, field }),
        Block::Thread => ThreadState::Stuck(Stuck::Thread { object }),
        Block::NotHeld => ThreadState::Stuck(Stuck::Monitor { object }),
        Block::NoRule => ThreadState::Stuck(Stuck::NoRule),
    }
}

// The state of a thread whose next pick meets this, with the numbers of its redex.
pub fn state_of(sight: Sight, ready: Ready) -> ThreadState
    ensures { result ≡ state_of sight ready }
{
    match sight {
        Sight::Ready => ThreadState::Ready,
        Sight::Lacking => ThreadState::Lacking {
            object: object_of(ready),
            field: field_of(ready),
        },
        Sight::Blocked(block) => blocked(block, ready),
    }
}

// The state of a present thread, by what its next pick meets. It goes the way of `look` once more: called by nothing else, `look` is compiled into the pick.
pub fn status(
    setting: Setting,
    head: Head,
    cell: Cell,
    object: Object,
    other: usize,
    place: u16,
) -> ThreadState
    ensures { result ≡ state_of (look_of setting head cell object other place) head.ready }
{
    let ready = head.ready;
    let redex = ready.redex;
    if about_field(redex) {
        return state_of(look_field(setting, head, cell, object, ready.second), ready);
    }
    match redex {
        redex::DONE => state_of(Sight::Blocked(Block::Finished), ready),
        redex::NO_RULE => state_of(Sight::Blocked(Block::NoRule), ready),
        redex::JOIN => state_of(look_join(object, other), ready),
        redex::SYNCH => state_of(look_synch(head, cell), ready),
        redex::SIGNAL => state_of(look_signal(head, cell), ready),
        redex::WAITING => state_of(look_waiting(cell, place), ready),
        _ => ThreadState::Ready,
    }
}
