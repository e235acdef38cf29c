// The lines of an hour.
ghost use Rattle.std.specs.Prelude.{◌≡◌, [], ◌∷◌, map, length};
ghost use Rattle.money.specs.tables.Numbers.{Bounded};
ghost use Rattle.book.specs.tables.Sizes.{AllBounded, BoundedHour};
ghost use Rattle.statement.specs.Statement.{amount_line, line_of, error_line, offset_lines, max_hour_lines};
ghost use Rattle.statement.specs.tables.Inner.{lines_of_hour};
ghost use Rattle.statement.specs.tables.Cursors.{SheetRoom, SheetLines};

use crate::cursor::{Cursor, put_line};
use crate::lines::{Kind, Line};
use book::answers::{HourAmounts, NamedAmount};
use money::names::Name;
use money::refusals::Refusal;
use money::units::{Cents, Ticks};
use records::names::no_name;

// The line of an amount. Its parts come apart: hour and kind of the walk, name and ticks of the book.
pub(crate) fn amount_line(hour: u8, kind: Kind, name: Name, ticks: Ticks) -> Line
    ensures { result ≡ amount_line hour kind name ticks.0 }
{
    let cents = ticks.cents();
    Line {
        hour,
        kind,
        name,
        cents,
    }
}

// A price lacks: the only line.
pub(crate) fn put_error(out: &mut [u8], c: Cursor, hour: u8, name: Name) -> Cursor
    requires { SheetRoom out.old c 1 }
    ensures { SheetLines out.old c 1 (error_line hour name ∷ []) out.new result }
{
    let line = Line {
        hour,
        kind: Kind::Err,
        name,
        cents: Cents(Refusal::PriceMissing.number() as i64),
    };
    put_line(out, c, line)
}

// A line for each amount, in their order.
fn put_amounts(out: &mut [u8], c: Cursor, hour: u8, kind: Kind, amounts: &[NamedAmount]) -> Cursor
    requires { SheetRoom out.old c (length amounts.now) × AllBounded amounts.now }
    ensures { SheetLines out.old c (length amounts.now) (map (line_of hour kind) amounts.now) out.new result }
{
    let mut next = c;
    for x in amounts {
        next = put_line(out, next, amount_line(hour, kind, x.name, x.ticks));
    }
    next
}

// The wheel offset, where imports stand.
fn put_offset(out: &mut [u8], c: Cursor, hour: u8, imports: usize, offset: Ticks) -> Cursor
    requires { SheetRoom out.old c 1 × Bounded offset.0 }
    ensures { SheetLines out.old c 1 (offset_lines hour imports offset.0) out.new result }
{
    if imports == 0 {
        return c;
    }
    put_line(out, c, amount_line(hour, Kind::Off, no_name(), offset))
}

// The lines of an hour's amounts, or of the price that it lacks.
pub(crate) fn put_hour(out: &mut [u8], c: Cursor, hour: u8, a: &HourAmounts) -> Cursor
    requires { SheetRoom out.old c max_hour_lines × BoundedHour a.now }
    ensures { SheetLines out.old c max_hour_lines (lines_of_hour hour a.now) out.new result }
{
    let (Ok(g), Ok(f), Ok(e)) = (&a.guarantees, &a.imports, &a.exports) else {
        return put_error(out, c, hour, no_name());
    };
    let off = put_amounts(out, c, hour, Kind::Iog, &g.credits);
    let ifc = put_offset(out, off, hour, g.credits.len(), g.offset);
    let efc = put_amounts(out, ifc, hour, Kind::Ifc, f);
    put_amounts(out, efc, hour, Kind::Efc, e)
}
