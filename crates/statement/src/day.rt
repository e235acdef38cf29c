// The statement of the day that a book holds. Book, log and output are three arguments, as 01 hands them over.
ghost use Rattle.std.specs.Prelude.{◌≡◌, ℕ, List, [], ◌∷◌, ◌+◌, ◌*◌, ◌^◌, ◌≤◌, ◌<◌, pos, length};
ghost use Rattle.money.specs.Units.{day_hours};
ghost use Rattle.book.specs.Meaning.{load};
ghost use Rattle.statement.specs.Lines.{text_of};
ghost use Rattle.statement.specs.Total.{total_of, with_total};
ghost use Rattle.statement.specs.Statement.{Fits, max_hour_lines, max_unit_lines, max_lines, text_by, Answers, AnswersBy};
ghost use Rattle.statement.specs.tables.Inner.{Writes, BoundedHours, BoundedUnits, BoundedDay, lines_of_hours, lines_of_units, lines_of_day};
ghost use Rattle.statement.specs.tables.Cursors.{top, SheetRoom, SheetLines};

use crate::bytes::write_front;
use crate::cursor::{Cursor, put_line};
use crate::hours::put_hour;
use crate::lines::{Kind, LINE_MAX, Line};
use crate::units::put_unit;
use book::answers::{CHARGES_MAX, CREDITS_MAX, DayAmounts, HourAmounts, UnitAmounts};
use book::book::{Book, CHANGES_MAX};
use money::refusals::Refusal;
use money::units::{Cents, HOURS};
use records::names::no_name;

// The most lines of an hour: an `IOG` for each credit, an `OFF`, an `IFC` and an `EFC` for each charge; and of a unit.
const HOUR_LINES_MAX: usize = CREDITS_MAX + 1 + 2 * CHARGES_MAX;

const UNIT_LINES_MAX: usize = 2;

// The most lines of a statement, its total among them.
pub(crate) const LINES_MAX: usize = HOUR_LINES_MAX * HOURS + UNIT_LINES_MAX * CHANGES_MAX + 1;

// The most bytes of a statement: 145,266.
pub const STATEMENT_MAX: usize = LINE_MAX * LINES_MAX;

// Writes the hours in turn.
fn put_hours(out: &mut [u8], c: Cursor, hours: &[HourAmounts; HOURS]) -> Cursor
    requires { SheetRoom out.old c (max_hour_lines * day_hours) × BoundedHours hours.now }
    ensures { SheetLines out.old c (max_hour_lines * day_hours) (lines_of_hours day_hours hours.now) out.new result }
{
    let mut next = c;
    for (h, a) in hours.iter().enumerate() {
        next = put_hour(out, next, h as u8 + 1, a);
    }
    next
}

// Writes the units in turn.
fn put_units(out: &mut [u8], c: Cursor, units: &[UnitAmounts]) -> Cursor
    requires { SheetRoom out.old c (max_unit_lines * length units.now) × BoundedUnits units.now }
    ensures { SheetLines out.old c (max_unit_lines * length units.now) (lines_of_units units.now) out.new result }
{
    let mut next = c;
    for u in units {
        next = put_unit(out, next, *u);
    }
    next
}

// The line of the total.
fn total_line(cents: Cents) -> Line
    ensures { result ≡ total_of cents.0 }
{
    Line {
        hour: 0,
        kind: Kind::Tot,
        name: no_name(),
        cents,
    }
}

// Writes the line of the total, which no sum counts.
fn put_foot(out: &mut [u8], c: Cursor) -> Cursor
    requires { SheetRoom out.old c 1 }
    ensures { SheetLines out.old c 1 (total_of c.sum.0 ∷ []) out.new result }
{
    put_line(out, c, total_line(c.sum))
}

// Writes all lines of a day and their total from a cursor on.
pub(crate) fn put_lines(out: &mut [u8], c: Cursor, day: &DayAmounts) -> Cursor
    requires { BoundedDay day.now × SheetRoom out.old c max_lines × (c.sum.0 ≡ pos 0) }
    ensures { SheetLines out.old c max_lines (with_total (lines_of_day day.now)) out.new result }
{
    let d = put_hours(out, c, &day.hours);
    let e = put_units(out, d, &day.units);
    put_foot(out, e)
}

// Where a text without pages begins.
fn top() -> Cursor
    ensures { result ≡ top }
{
    Cursor {
        at: 0,
        sum: Cents(0),
        sheet: None,
    }
}

// A way to lay out lines as a text, of a day's no longer than MAX.
pub(crate) trait Layout<const MAX: usize> {
    ghost use Rattle.statement.specs.declared.lines.Line.{Line};

    ghost text: { List Line → List ℕ };

    // Writes all lines of a day and their total from the first byte on, and answers the place behind them.
    fn put(out: &mut [u8], day: &DayAmounts) -> usize
        requires { BoundedDay day.now × (MAX ≤ length out.old) }
        ensures { Writes out.old 0 (text (with_total (lines_of_day day.now))) out.new result × (result ≤ MAX) };
}

// The text of a day where less is lent than the longest takes: it is written aside first. Its bytes aside are on the stack only where it is called.
#[inline(never)]
fn write_aside<L: Layout<MAX>, const MAX: usize>(
    day: &DayAmounts,
    out: &mut [u8],
) -> Result<usize, Refusal>
    requires { BoundedDay day.now × (MAX < 2 ^ 63) }
    ensures fits { Fits (L.text (with_total (lines_of_day day.now))) out.old out.new result }
    ensures short { length (L.text (with_total (lines_of_day day.now))) ≤ MAX }
{
    let mut aside = [0u8; MAX];
    let len = L::put(&mut aside, day);
    write_front(out, &aside[..len])
}

// The text of a day that a book holds, from the first lent byte on: 13 where it is longer than what is lent, 16 where book and log don't belong
// together.
pub(crate) fn write_day<L: Layout<MAX>, const MAX: usize>(
    book: Book,
    log: &[u8],
    out: &mut [u8],
) -> Result<usize, Refusal>
    requires { MAX < 2 ^ 63 }
    ensures { AnswersBy (text_by L.text) MAX (load book log.now) out.old out.new result }
{
    let day = book.day(log)?;
    if MAX <= out.len() {
        return Ok(L::put(out, &day));
    }
    write_aside::<L, MAX>(&day, out)
}

// Lines one after the other.
struct Plain;

impl Layout<STATEMENT_MAX> for Plain {
    ghost text = { text_of };

    fn put(out: &mut [u8], day: &DayAmounts) -> usize {
        put_lines(out, top(), day).at
    }
}

// Writes the statement. No statement is longer than STATEMENT_MAX.
pub fn statement(book: Book, log: &[u8], out: &mut [u8]) -> Result<usize, Refusal>
    ensures { Answers (load book log.now) out.old out.new result }
{
    write_day::<Plain, STATEMENT_MAX>(book, log, out)
}
