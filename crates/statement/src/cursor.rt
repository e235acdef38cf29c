// Lines written one behind the other, on pages or without. The cursor holds no lent bytes, for the reason in `bytes`. Room is a fact of the bytes at a
// step, and of no value; and a line is of any amount where the definitions speak of it, so that it is bounded (`Countable`) only where it is counted.
ghost use Rattle.std.specs.Prelude.{◌≡◌, [], ◌∷◌, None, ◌<◌};
ghost use Rattle.statement.specs.Pages.{page_entries};
ghost use Rattle.statement.specs.tables.Inner.{Countable};
ghost use Rattle.statement.specs.tables.Cursors.{fresh_sheet, SheetRoom, SheetLines, EntryRoom, Turns, Enters};

use crate::columns::{put_entry, put_head, put_sum};
use crate::lines::{Line, put_text};
use crate::sums::counted;
use money::units::Cents;

// The entries of a page.
pub(crate) const ENTRIES: usize = 57;

// The page that the next entry is written on, counted from 1; how many entries stand on it, and their sum.
#[derive(Clone, Copy)]
pub(crate) struct Sheet {
    pub(crate) page: u64,
    pub(crate) entries: usize,
    pub(crate) sum: Cents,
}

// Where the next line is written, the sum of the lines before it, and the page, where the text has pages. It is asked at each line: a type parameter would
// have the walk of hours and units proved for each of the two texts.
#[derive(Clone, Copy)]
pub(crate) struct Cursor {
    pub(crate) at: usize,
    pub(crate) sum: Cents,
    pub(crate) sheet: Option<Sheet>,
}

// Where the next entry of a page is written.
#[derive(Clone, Copy)]
struct Spot {
    at: usize,
    sheet: Sheet,
}

impl Sheet {
    // A page without entries.
    pub(crate) fn fresh(page: u64) -> Sheet
        ensures { result ≡ fresh_sheet page }
    {
        Sheet {
            page,
            entries: 0,
            sum: Cents(0),
        }
    }
}

// Turns a full page: its sum, and the head of the next.
fn turn(out: &mut [u8], p: Spot) -> Spot
    requires { EntryRoom out.old p }
    ensures { Turns out.old p out.new result }
{
    let sheet = p.sheet;
    if sheet.entries < ENTRIES {
        return p;
    }
    let page = sheet.page + 1;
    let head = put_sum(out, p.at, sheet.sum);
    let at = put_head(out, head, page);
    Spot {
        at,
        sheet: Sheet::fresh(page),
    }
}

// Writes a line on a page that has room for it, and counts it there.
fn enter(out: &mut [u8], p: Spot, line: Line) -> Spot
    requires { EntryRoom out.old p × Countable line × (p.sheet.entries < page_entries) }
    ensures { Enters out.old p line out.new result }
{
    let sheet = p.sheet;
    let sum = counted(sheet.sum, line.towards());
    let at = put_entry(out, p.at, line);
    Spot {
        at,
        sheet: Sheet {
            page: sheet.page,
            entries: sheet.entries + 1,
            sum,
        },
    }
}

// Writes a line of a text without pages, and counts it.
fn put_plain(out: &mut [u8], c: Cursor, line: Line) -> Cursor
    requires { SheetRoom out.old c 1 × Countable line × (c.sheet ≡ None) }
    ensures { SheetLines out.old c 1 (line ∷ []) out.new result }
{
    let sum = counted(c.sum, line.towards());
    let at = put_text(out, c.at, line);
    Cursor {
        at,
        sum,
        sheet: None,
    }
}

// Writes a line behind those before it, and counts it.
pub(crate) fn put_line(out: &mut [u8], c: Cursor, line: Line) -> Cursor
    requires { SheetRoom out.old c 1 × Countable line }
    ensures { SheetLines out.old c 1 (line ∷ []) out.new result }
{
    let Some(sheet) = c.sheet else {
        return put_plain(out, c, line);
    };
    let sum = counted(c.sum, line.towards());
    let turned = turn(out, Spot { at: c.at, sheet });
    let entered = enter(out, turned, line);
    Cursor {
        at: entered.at,
        sum,
        sheet: Some(entered.sheet),
    }
}
