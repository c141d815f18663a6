// What a record draws from and feeds besides its own thread, as the index of a flag: thread q at q, the monitor of object o at 32 + o, the volatile field f
// of object o at 64 + 32 o + f.
ghost use Rattle.std.specs.Prelude.{◌≡◌};
ghost use Rattle.log_packing.specs.Inner.Columns.{Narrow};
ghost use Rattle.log_marking.specs.Inner.Rows.{drawn_row, fed_row};

use log_packing::Columns;
use log_records::kind;
use log_rows::choose;

// An acquire draws from the monitor, a volatile read from the field, a join from the thread, any other from its own thread alone.
pub fn drawn(columns: Columns) -> usize
    requires { Narrow columns }
    ensures { result ≡ drawn_row columns }
{
    let of_thread = choose(columns.kind == kind::JOIN, columns.field, columns.thread);
    let of_field = choose(
        columns.kind == kind::VOLATILE_READ,
        64 + (columns.object * 32 + columns.field),
        of_thread,
    );
    choose(columns.kind == kind::ACQUIRE, 32 + columns.object, of_field)
}

// A release feeds the monitor, a volatile write the field, a fork the thread, any other its own thread alone.
pub fn fed(columns: Columns) -> usize
    requires { Narrow columns }
    ensures { result ≡ fed_row columns }
{
    let of_thread = choose(columns.kind == kind::FORK, columns.field, columns.thread);
    let of_field = choose(
        columns.kind == kind::VOLATILE_WRITE,
        64 + (columns.object * 32 + columns.field),
        of_thread,
    );
    choose(columns.kind == kind::RELEASE, 32 + columns.object, of_field)
}
