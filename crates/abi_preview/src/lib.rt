// A preview as a number and eight bytes, for programs in C, Rust and other languages. Its refusal is of any type that tells its number and its place.
#![tactic(auto)]

ghost use Rattle.std.specs.Prelude.{◌≡◌};
ghost use Rattle.play.specs.Answer.{stop_of};
ghost use Rattle.abi_thread_bytes.specs.Bytes.{three, stop_byte};
ghost use Rattle.preview.specs.Answer.{preview_of, LoggedAs};
ghost use Rattle.abi_preview.specs.Inner.Answered.{preview_by, LoggedIn};
ghost use Rattle.abi_preview.specs.Bytes.{preview_bytes, preview_number, out_after};
ghost use Rattle.abi_preview.specs.Inner.Small.{SmallPreview, SmallPreviewed, eight, no_record};

use abi_thread_bytes::ThreadBytes;
use numbered_refusals::Numbered;
use run_last_pick::{Preview, RecordBytes};
use run_outcome::Stop;

// A stop, where a thread's bytes would stand.
fn stop_bytes(stop: Stop) -> ThreadBytes
    ensures { result ≡ three (stop_byte (stop_of stop)) 0 0 }
{
    ThreadBytes {
        state: abi_thread_bytes::stop_byte(stop),
        named: 0,
        field: 0,
    }
}

// Nothing to say why.
fn no_reason() -> ThreadBytes
    ensures { result ≡ three 0 0 0 }
{
    ThreadBytes {
        state: 0,
        named: 0,
        field: 0,
    }
}

fn no_record() -> RecordBytes
    ensures { result ≡ no_record }
{
    RecordBytes {
        high: 0,
        middle: 0,
        low: 0,
    }
}

// Every byte: what the pick would do, the three that say why, the record's three, 0.
fn fill(out: &mut [u8; 8], kind: u8, why: ThreadBytes, logged: RecordBytes)
    ensures { out.new ≡ eight kind why logged }
{
    *out = [0u8; 8];
    out[0] = kind;
    out[1] = why.state;
    out[2] = why.named;
    out[3] = why.field;
    out[4] = logged.high;
    out[5] = logged.middle;
    out[6] = logged.low;
}

// The eight bytes of a preview.
fn write_shown(out: &mut [u8; 8], shown: Preview)
    requires { SmallPreview (preview_of shown) × LoggedAs shown }
    ensures { out.new ≡ preview_bytes (preview_of shown) }
{
    match shown {
        Preview::Stopped(stop) => fill(out, 5, stop_bytes(stop), no_record()),
        Preview::Passed(state) => fill(out, 0, abi_thread_bytes::thread_bytes(state), no_record()),
        Preview::Moved => fill(out, 1, no_reason(), no_record()),
        Preview::Recorded(logged) => fill(out, 2, no_reason(), logged),
        Preview::Race(logged) => fill(out, 3, stop_bytes(Stop::Race), logged),
        Preview::NoRoom(room) => fill(out, 4, stop_bytes(Stop::NoRoom(room)), no_record()),
    }
}

// 0 and the eight bytes; or the refusal, and no byte changed.
pub fn write<R: Numbered>(out: &mut [u8; 8], previewed: Result<Preview, R>) -> u64
    requires { SmallPreviewed (preview_by R.told previewed) × LoggedIn previewed }
    ensures number { result ≡ preview_number (preview_by R.told previewed) }
    ensures bytes { out.new ≡ out_after out.old (preview_by R.told previewed) }
{
    match previewed {
        Ok(shown) => {
            write_shown(out, shown);
            0
        }
        Err(refused) => abi_convention::refusal(refused.number(), refused.place()),
    }
}
