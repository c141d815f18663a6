// The places of eight threads in the queues of monitors: number * 32 + object, where the number says how many threads that are not yet notified have
// waited on the object as long or longer, and 0 is no place in the queue.
#![tactic(auto)]

ghost use Rattle.std.specs.Prelude.{◌≡◌, ◌≤◌, ◌<◌, length};
ghost use Rattle.run_queue.specs.Inner.Queue.{queued_on, count_of, last_of, waited_of, nearer, notified_of, freed, all_notified_of, signalled_of, after_of};

use run_frames::redex;
use run_frames::refocusing::Ready;

// Whether it is a place in the object's queue.
fn queued(object: u16, place: u16) -> bool
    ensures { result ≡ queued_on object place }
{
    object == place % 32 && 0 < place / 32
}

// How many are queued on the object.
fn count(places: &[u16], object: u16) -> u16
    requires { length places.now ≤ 8 }
    ensures { (result ≡ count_of object places.now) × (result ≤ length places.now) }
{
    let mut count: u16 = 0;
    for place in places {
        if queued(object, *place) {
            count += 1;
        }
    }
    count
}

// A wait takes the last place.
fn wait(places: &mut [u16], object: u16, thread: usize)
    requires { (length places.old ≡ 8) × (object < 32) × (thread < 8) }
    ensures { places.new ≡ waited_of object thread places.old }
{
    let before = count(&*places, object);
    places[thread] = (before + 1) * 32 + object;
}

// The place after a notify: one nearer to the front of the object's queue.
fn nearer(object: u16, place: u16) -> u16
    ensures { result ≡ nearer object place }
{
    if queued(object, place) {
        return place - 32;
    }
    place
}

// A notify wakes the thread that has waited longest: it has no place in the queue any more.
fn notify(places: &mut [u16], object: u16)
    ensures { places.new ≡ notified_of object places.old }
{
    for place in places.iter_mut() {
        *place = nearer(object, *place);
    }
}

// The place after a notify all: none in the object's queue.
fn freed(object: u16, place: u16) -> u16
    ensures { result ≡ freed object place }
{
    if object == place % 32 { object } else { place }
}

// A notify all wakes every thread that waits on the object.
fn notify_all(places: &mut [u16], object: u16)
    ensures { places.new ≡ all_notified_of object places.old }
{
    for place in places.iter_mut() {
        *place = freed(object, *place);
    }
}

// A signal of the thread: 0 wait, 1 notify, 2 notify all.
fn signalled(places: &mut [u16], signal: usize, object: u16, thread: usize)
    requires { (length places.old ≡ 8) × (object < 32) × (thread < 8) }
    ensures { places.new ≡ signalled_of signal object thread places.old }
{
    if signal == 0 {
        return wait(&mut *places, object, thread);
    }
    if signal == 1 {
        return notify(&mut *places, object);
    }
    notify_all(&mut *places, object)
}

// The places after the thread has moved from this redex: only a signal changes them.
pub fn after(places: &mut [u16], ready: Ready, thread: usize)
    requires { (length places.old ≡ 8) × (thread < 8) }
    ensures { places.new ≡ after_of places.old ready thread }
{
    if ready.redex == redex::SIGNAL {
        signalled(
            &mut *places,
            ready.second,
            (ready.first % 32) as u16,
            thread,
        );
    }
}
