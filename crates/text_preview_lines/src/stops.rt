// What stops a run, in words.
ghost use Rattle.std.specs.Prelude.{◌+◌, ◌≤◌, length};
ghost use Rattle.play.specs.Answer.{room_of, stop_of};
ghost use Rattle.text.specs.Inner.Wrote.{Wrote};
ghost use Rattle.text_preview_lines.specs.Lines.{room_words, stop_words};

use run_outcome::{NoRoom, Stop};

// What there is no room for, at most 100 bytes.
pub fn put_room(area: &mut [u8], at: usize, room: NoRoom) -> usize
    requires { at + 100 ≤ length area.old }
    ensures wrote { Wrote area.old at (room_words (room_of room)) area.new result }
    ensures within { result ≤ at + 100 }
{
    match room {
        NoRoom::Thread => text::put_word(area, at, b"no room for a thread"),
        NoRoom::Object => text::put_word(area, at, b"no room for an object"),
        NoRoom::Key => text::put_word(area, at, b"no room for a key"),
        NoRoom::Depth => text::put_word(area, at, b"no room for the depth"),
    }
}

// Why a run stopped, at most 100 bytes.
pub fn put_stop(area: &mut [u8], at: usize, stop: Stop) -> usize
    requires { at + 100 ≤ length area.old }
    ensures wrote { Wrote area.old at (stop_words (stop_of stop)) area.new result }
    ensures within { result ≤ at + 100 }
{
    match stop {
        Stop::End => text::put_word(area, at, b"its end"),
        Stop::Race => text::put_word(area, at, b"a missing key"),
        Stop::NoRoom(room) => put_room(area, at, room),
    }
}
