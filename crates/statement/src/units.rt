// The lines of a unit.
ghost use Rattle.book.specs.tables.Sizes.{BoundedUnit};
ghost use Rattle.statement.specs.Statement.{max_unit_lines};
ghost use Rattle.statement.specs.tables.Inner.{lines_of_unit};
ghost use Rattle.statement.specs.tables.Cursors.{SheetRoom, SheetLines};

use crate::cursor::{Cursor, put_line};
use crate::hours::{amount_line, put_error};
use crate::lines::Kind;
use book::answers::UnitAmounts;

// The day total and the reversal of a unit, or its error.
pub(crate) fn put_unit(out: &mut [u8], c: Cursor, u: UnitAmounts) -> Cursor
    requires { SheetRoom out.old c max_unit_lines × BoundedUnit u }
    ensures { SheetLines out.old c max_unit_lines (lines_of_unit u) out.new result }
{
    let Ok(day) = u.day else {
        return put_error(out, c, 0, u.name);
    };
    let rev = put_line(out, c, amount_line(0, Kind::Pcg, u.name, day.total));
    put_line(out, rev, amount_line(0, Kind::Rev, u.name, day.reversal))
}
