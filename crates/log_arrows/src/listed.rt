// The needed arrows into two areas, in their order.
ghost use Rattle.std.specs.Prelude.{◌≡◌, ℕ, ◌+◌, ◌*◌, ◌/◌, ◌<◌, ◌≤◌, length};
ghost use Rattle.log_arrows.specs.Arrows.{Room, pairs};
ghost use Rattle.log_arrows.specs.Inner.Implied.{heard_in, Earlier, thread_at, arrows_below, Added};

use log_clocks::Row;

// Adds those to the record at the index, which is of the thread `own`, after the `count` arrows that the areas hold, and returns how many they then hold.
fn to_one(
    rows: &[Row],
    index: usize,
    own: usize,
    from: &mut [u16],
    to: &mut [u16],
    count: usize,
) -> usize
    requires earlier { Earlier rows.now index }
    requires index_in { index < 4096 }
    requires own_in { own < 8 }
    requires room { Room (count + 7) from.old to.old }
    ensures { Added (heard_in rows.now) own index 8 count from.old to.old result from.new to.new }
{
    let row = rows[index];
    let mut held = count;
    for thread in 0..8 {
        if crate::implied::needed(rows, index, own, thread) {
            from[held] = row[thread] - 1;
            to[held] = index as u16;
            held += 1;
        }
    }
    held
}

// Writes those to every record, and returns how many they are.
pub fn all(log: &[u8], rows: &[Row], from: &mut [u16], to: &mut [u16]) -> usize
    requires earlier { ((j : ℕ) → j < length log.now / 3 → Earlier rows.now j) }
    requires short { length log.now / 3 ≤ 4096 }
    requires room { Room (7 * (length log.now / 3)) from.old to.old }
    ensures few { result ≤ 7 * (length log.now / 3) }
    ensures arrows { pairs result from.new to.new
        ≡ arrows_below (heard_in rows.now) (thread_at log.now) (length log.now / 3) }
{
    let mut held = 0;
    for index in 0..log.len() / 3 {
        let columns = log_packing::columns_at(log, index);
        held = to_one(rows, index, columns.thread, from, to, held);
    }
    held
}
