// Which moves have a chain to the failing access or to the last write (document 02, E10): one pass over the moves, from the last to the first. A thread, a
// monitor or a volatile field is wanted where a later move draws from it that is one of the two or is kept itself; a move is kept that feeds what is wanted.
#![tactic(auto)]

mod rows; // rows.rt: the flags of what a move draws from and feeds

ghost use Rattle.std.specs.Prelude.{◌≡◌, ◌≤◌, ◌/◌, length};
ghost use Rattle.log_marking.specs.Inner.Marked.{MarkedIn, SameBeyond};

// The marks of the moves of a log in which every move has a record; what is lent past them stays.
pub fn mark(log: &[u8], failing: usize, last: usize, kept: &mut [bool])
    requires { length log.now / 3 ≤ length kept.old }
    ensures marked_in { MarkedIn log.now failing last kept.new }
    ensures same_beyond { SameBeyond log.now kept.old kept.new }
{
    let mut wanted = [false; 1088];
    for index in (0..log.len() / 3).rev() {
        let columns = log_packing::columns_at(log, index);
        let thread = columns.thread;
        let from = rows::drawn(columns);
        let to = rows::fed(columns);
        let own = wanted[thread];
        let keep = own | wanted[to];
        let goes = keep | (index == failing) | (index == last);
        kept[index] = keep;
        wanted[thread] = own | goes;
        let heard = wanted[from];
        wanted[from] = heard | goes;
    }
}
