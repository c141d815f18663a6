// The kind, the thread and the place of the record at an index, each by those of its three bytes that have it.
ghost use Rattle.std.specs.Prelude.{◌≡◌, ◌/◌, ◌<◌, length};
ghost use Rattle.log_records.specs.Packed.{kind_at};
ghost use Rattle.log_places.specs.Inner.Places.{thread_at, place_at};

// The first four bits.
pub fn kind_at(log: &[u8], index: usize) -> usize
    requires { index < length log.now / 3 }
    ensures { result ≡ kind_at log.now index }
{
    let first = byte_numbers::wide(log[3 * index]);
    first / 16
}

// The next three.
pub fn thread_at(log: &[u8], index: usize) -> usize
    requires { index < length log.now / 3 }
    ensures value { result ≡ thread_at log.now index }
    ensures result_in { result < 8 }
{
    let first = byte_numbers::wide(log[3 * index]);
    first / 2 % 8
}

// The ten bits of object and field.
pub fn place_at(log: &[u8], index: usize) -> usize
    requires { index < length log.now / 3 }
    ensures value { result ≡ place_at log.now index }
    ensures result_in { result < 1024 }
{
    let first = byte_numbers::wide(log[3 * index]);
    let second = byte_numbers::wide(log[3 * index + 1]);
    let third = byte_numbers::wide(log[3 * index + 2]);
    first % 2 * 512 + second * 2 + third / 128
}
