// How a run ended, and what the next pick of each of its eight threads would meet (document 01, "How a thread moves"). Every reason has its one home here.

#![tactic(auto)]

// No room for a thread, an object, a key or a depth.
#[derive(Clone, Copy)]
pub enum NoRoom {
    Thread,
    Object,
    Key,
    Depth,
}

#[derive(Clone, Copy)]
pub enum Stop {
    End,
    Race,
    NoRoom(NoRoom),
}

// What a waiting thread waits for: a monitor that another thread holds; the end of a thread, named by its object; or, after a wait on an object, until it
// is notified.
#[derive(Clone, Copy)]
pub enum Wait {
    Monitor { object: usize },
    Join { object: usize },
    Notify { object: usize },
}

// Why a thread is stuck: the object has no such field, or is no thread, or its monitor is not held by the mover; or no rule is for its part, to which no
// accepted plan comes.
#[derive(Clone, Copy)]
pub enum Stuck {
    Field { object: usize, field: usize },
    Thread { object: usize },
    Monitor { object: usize },
    NoRule,
}

#[derive(Clone, Copy)]
pub enum ThreadState {
    Absent,
    Finished { value: usize },
    Ready,
    Waiting(Wait),
    Stuck(Stuck),
    Lacking { object: usize, field: usize },
}

// One of the eight threads: its state, and how many keys that were new to it its acquires, volatile reads and joins brought.
#[derive(Clone, Copy)]
pub struct Thread {
    pub state: ThreadState,
    pub learnt: u8,
}

#[derive(Clone, Copy)]
pub struct Outcome {
    pub stop: Stop,
    pub picks: usize,
    pub moves: usize,
    pub records: usize,
    pub threads: [Thread; 8],
}
