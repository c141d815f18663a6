// The bytes of a stop and of a thread's state, for programs in C, Rust and other languages.
#![tactic(auto)]

ghost use Rattle.std.specs.Prelude.{◌≡◌, ◌<◌};
ghost use Rattle.play.specs.Answer.{stop_of, status_of};
ghost use Rattle.abi_thread_bytes.specs.Bytes.{stop_byte, three, thread_bytes};
ghost use Rattle.abi_thread_bytes.specs.Inner.Small.{SmallStatus};

use run_outcome::{NoRoom, Stop, Stuck, ThreadState, Wait};

// The first three of a thread's four bytes: its state, the value or the object that the state names, the field that it names. The fourth is its total.
#[derive(Clone, Copy)]
pub struct ThreadBytes {
    pub state: u8,
    pub named: u8,
    pub field: u8,
}

fn room_byte(room: NoRoom) -> u8
    ensures { result ≡ stop_byte (stop_of (Stop.NoRoom room)) }
{
    match room {
        NoRoom::Thread => 2,
        NoRoom::Object => 3,
        NoRoom::Key => 4,
        NoRoom::Depth => 5,
    }
}

pub fn stop_byte(stop: Stop) -> u8
    ensures { result ≡ stop_byte (stop_of stop) }
{
    match stop {
        Stop::End => 0,
        Stop::Race => 1,
        Stop::NoRoom(room) => room_byte(room),
    }
}

fn named(state: u8, named: usize, field: usize) -> ThreadBytes
    requires { (named < 256) × (field < 256) }
    ensures { result ≡ three state named field }
{
    ThreadBytes {
        state: state,
        named: named as u8,
        field: field as u8,
    }
}

fn waiting_bytes(wait: Wait) -> ThreadBytes
    requires { SmallStatus (status_of (ThreadState.Waiting wait)) }
    ensures { result ≡ thread_bytes (status_of (ThreadState.Waiting wait)) }
{
    match wait {
        Wait::Monitor { object } => named(3, object, 0),
        Wait::Join { object } => named(4, object, 0),
        Wait::Notify { object } => named(8, object, 0),
    }
}

fn stuck_bytes(stuck: Stuck) -> ThreadBytes
    requires { SmallStatus (status_of (ThreadState.Stuck stuck)) }
    ensures { result ≡ thread_bytes (status_of (ThreadState.Stuck stuck)) }
{
    match stuck {
        Stuck::Field { object, field } => named(5, object, field),
        Stuck::Thread { object } => named(6, object, 0),
        Stuck::Monitor { object } => named(9, object, 0),
        Stuck::NoRule => named(10, 0, 0),
    }
}

pub fn thread_bytes(state: ThreadState) -> ThreadBytes
    requires { SmallStatus (status_of state) }
    ensures { result ≡ thread_bytes (status_of state) }
{
    match state {
        ThreadState::Absent => named(0, 0, 0),
        ThreadState::Finished { value } => named(1, value, 0),
        ThreadState::Ready => named(2, 0, 0),
        ThreadState::Waiting(reason) => waiting_bytes(reason),
        ThreadState::Stuck(reason) => stuck_bytes(reason),
        ThreadState::Lacking { object, field } => named(7, object, field),
    }
}
