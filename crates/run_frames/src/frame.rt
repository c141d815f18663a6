// Frames: the constructs around the redex that moves.
ghost use Rattle.std.specs.Prelude.{◌≡◌, ◌<◌};
ghost use Rattle.run_frames.specs.Inner.Frames.{code_of, kind_of, framed, let_frame, second_frame, collected, rest_of, pack_of, unpack_of};

use run_term_words::slots;

#[derive(Clone, Copy)]
pub enum Kind {
    Read,
    Write1,
    Write2,
    Call,
    Let,
    Synch,
    Hold,
    Join,
    Equal1,
    Equal2,
    If,
    And,
    Not,
    Test,
    Body,
    Signal,
}

// A construct: terms `first` and `second`, a field or a procedure `member`, a slot or a count `count`, the slots `environment`, and a value or the
// values collected `arguments`. Each kind has the slots, and besides:
//   Read                member: the field
//   Write1              first: the value's term; member: the field
//   Write2              member: the field; arguments: the object
//   Call                first: the rest of the list; member: the procedure; count and arguments: the values collected
//   Let                 first: the term that has the binding; count: the slot
//   Synch               first: the body
//   Hold                arguments: the object
//   Equal1, And         first: the right side
//   Equal2              arguments: the value of the left side
//   If                  first and second: the two branches
//   Test, Body          first and second: the condition and the body of a loop
//   Join, Not           nothing
//   Signal              member: which signal, 0 wait, 1 notify, 2 notify all
#[derive(Clone, Copy)]
pub struct Frame {
    pub first: usize,
    pub second: usize,
    pub member: usize,
    pub count: usize,
    pub environment: usize,
    pub arguments: usize,
    pub kind: Kind,
}

// The three numbers of a frame.
#[derive(Clone, Copy)]
pub struct Packed {
    pub top: usize,
    pub environment: usize,
    pub arguments: usize,
}

fn code(kind: Kind) -> usize
    ensures { (result ≡ code_of kind) × (result < 16) }
{
    match kind {
        Kind::Read => 0,
        Kind::Write1 => 1,
        Kind::Write2 => 2,
        Kind::Call => 3,
        Kind::Let => 4,
        Kind::Synch => 5,
        Kind::Hold => 6,
        Kind::Join => 7,
        Kind::Equal1 => 8,
        Kind::Equal2 => 9,
        Kind::If => 10,
        Kind::And => 11,
        Kind::Not => 12,
        Kind::Test => 13,
        Kind::Body => 14,
        Kind::Signal => 15,
    }
}

fn kind_of(code: usize) -> Kind
    ensures { result ≡ kind_of code }
{
    match code {
        0 => Kind::Read,
        1 => Kind::Write1,
        2 => Kind::Write2,
        3 => Kind::Call,
        4 => Kind::Let,
        5 => Kind::Synch,
        6 => Kind::Hold,
        7 => Kind::Join,
        8 => Kind::Equal1,
        9 => Kind::Equal2,
        10 => Kind::If,
        11 => Kind::And,
        12 => Kind::Not,
        13 => Kind::Test,
        14 => Kind::Body,
        15 => Kind::Signal,
        _ => Kind::Read,
    }
}

pub fn pack(frame: Frame) -> Packed
    ensures { result ≡ pack_of frame }
{
    let kind = frame.kind;
    let code = code(kind);
    Packed {
        top: (((frame.count % 16 * 32 + frame.member % 32) * 1024 + frame.second % 1024) * 1024
            + frame.first % 1024)
            * 16
            + code,
        environment: frame.environment,
        arguments: frame.arguments,
    }
}

pub fn unpack(top: usize, environment: usize, arguments: usize) -> Frame
    ensures { result ≡ unpack_of top environment arguments }
{
    let kind = kind_of(top % 16);
    Frame {
        kind,
        first: top / 16 % 1024,
        second: top / 16384 % 1024,
        member: top / 16777216 % 32,
        count: top / 536870912 % 16,
        environment,
        arguments,
    }
}

pub fn frame_of(kind: Kind, first: usize, second: usize, member: usize, environment: usize) -> Frame
    ensures { result ≡ framed kind first second member environment }
{
    Frame {
        kind,
        first,
        second,
        member,
        count: 0,
        environment,
        arguments: 0,
    }
}

// The frame of a let that binds the slot in the term.
pub fn let_frame(slot: usize, term: usize, environment: usize) -> Frame
    ensures { result ≡ let_frame slot term environment }
{
    Frame {
        kind: Kind::Let,
        first: term,
        second: 0,
        member: 0,
        count: slot,
        environment,
        arguments: 0,
    }
}

// The frame of a second operand, which holds the value of the first.
pub fn second_frame(kind: Kind, frame: Frame, value: usize) -> Frame
    ensures { result ≡ second_frame kind frame value }
{
    Frame {
        kind,
        first: 0,
        second: 0,
        member: frame.member,
        count: 0,
        environment: frame.environment,
        arguments: value,
    }
}

// A call's frame with one value more.
pub fn collect(frame: Frame, value: usize) -> Frame
    ensures { result ≡ collected frame value }
{
    let more = slots::bind(frame.arguments, frame.count, value);
    Frame {
        kind: Kind::Call,
        first: frame.first,
        second: 0,
        member: frame.member,
        count: frame.count % 16 + 1,
        environment: frame.environment,
        arguments: more,
    }
}

// A call's frame with the rest of its list at the term.
pub fn rest(frame: Frame, term: usize) -> Frame
    ensures { result ≡ rest_of frame term }
{
    Frame {
        kind: Kind::Call,
        first: term,
        second: 0,
        member: frame.member,
        count: frame.count,
        environment: frame.environment,
        arguments: frame.arguments,
    }
}
