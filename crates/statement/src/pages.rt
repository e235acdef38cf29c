// The pages of the day that a book holds.
ghost use Rattle.std.specs.Prelude.{◌≡◌, ◌*◌, ◌≤◌, length};
ghost use Rattle.book.specs.Meaning.{load};
ghost use Rattle.statement.specs.Statement.{AnswersBy};
ghost use Rattle.statement.specs.Pages.{line_size, page_size, page_head, pages_text, pages_of, longest_pages};
ghost use Rattle.statement.specs.tables.Inner.{Writes};
ghost use Rattle.statement.specs.tables.Cursors.{ending, first_entry, Placed};

use crate::columns::{COLUMNS, put_blank_lines, put_head, put_sum};
use crate::cursor::{Cursor, ENTRIES, Sheet};
use crate::day::{LINES_MAX, Layout, put_lines, write_day};
use book::answers::DayAmounts;
use book::book::Book;
use money::refusals::Refusal;
use money::units::Cents;

// The lines of a page, and the most pages of a statement.
const PAGE_LINES: usize = 60;

const PAGES: usize = (LINES_MAX + ENTRIES - 1) / ENTRIES;

// The most bytes of all pages of a statement: 170,820.
pub const PAGES_MAX: usize = (COLUMNS + 1) * PAGE_LINES * PAGES;

// Begins the first page.
fn open_first(out: &mut [u8]) -> Cursor
    requires { line_size * 2 ≤ length out.old }
    ensures { Writes out.old 0 (page_head 1) out.new result.at × (result ≡ first_entry) }
{
    let at = put_head(out, 0, 1);
    Cursor {
        at,
        sum: Cents(0),
        sheet: Some(Sheet::fresh(1)),
    }
}

// Ends the last page: blanks for the entries that it lacks, and its sum.
fn close_last(out: &mut [u8], at: usize, sheet: Sheet) -> usize
    requires { Placed at sheet × (page_size * sheet.page ≤ length out.old) }
    ensures { Writes out.old at (ending sheet) out.new result × (result ≡ page_size * sheet.page) }
{
    let foot = put_blank_lines(out, at, ENTRIES - sheet.entries);
    put_sum(out, foot, sheet.sum)
}

// Lines on pages.
struct Paged;

impl Layout<PAGES_MAX> for Paged {
    ghost text = { pages_text };

    fn put(out: &mut [u8], day: &DayAmounts) -> usize {
        let first = open_first(out);
        let last = put_lines(out, first, day);
        match last.sheet {
            Some(sheet) => close_last(out, last.at, sheet),
            // Not reached: the walk keeps the sheet, which its type does not say.
            None => last.at,
        }
    }
}

// Writes the statement on pages. No pages are longer than PAGES_MAX.
pub fn pages(book: Book, log: &[u8], out: &mut [u8]) -> Result<usize, Refusal>
    ensures { AnswersBy pages_of longest_pages (load book log.now) out.old out.new result }
{
    write_day::<Paged, PAGES_MAX>(book, log, out)
}
