// The last write of the field that a record of the log accesses, before that record.
#![tactic(auto)]

ghost use Rattle.log_last_write.specs.Inner.LastWrite.{HasLast, IsLast};

use log_records::kind;

// The index of the last write of the field that the record at `failing` accesses, before that record.
pub fn last_write(log: &[u8], failing: usize) -> usize
    requires { HasLast log.now failing }
    ensures { IsLast log.now failing result }
{
    let access = log_packing::columns_at(log, failing);
    for index in (0..failing).rev() {
        let columns = log_packing::columns_at(log, index);
        if (columns.kind == kind::WRITE)
            & (columns.object == access.object)
            & (columns.field == access.field)
        {
            return index;
        }
    }
    0
}
