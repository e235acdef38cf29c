// The lines of a page: text in its columns.
ghost use Rattle.std.specs.Prelude.{◌≡◌, ◌+◌, ◌*◌, ◌≤◌, length};
ghost use Rattle.records.specs.Names.{max_spelling};
ghost use Rattle.statement.specs.Lines.{name_bytes, figure, max_figure};
ghost use Rattle.statement.specs.Pages.{line_size, blanks, left_in, right_in, entry_bytes, sum_line, blank_line, blank_lines, page_head};
ghost use Rattle.statement.specs.tables.Inner.{Writes};

use crate::bytes::{put_byte, put_part};
use crate::lines::{FIGURE_MAX, Kind, Line, put_figure, put_label, put_name};
use itoa::Buffer;
use money::names::Name;
use money::units::Cents;
use records::names::SPELLING_MAX;

// The columns of a page, and those of an amount.
pub(crate) const COLUMNS: usize = 72;

const AMOUNT_COLUMNS: usize = COLUMNS - 7 - SPELLING_MAX;

fn put_blanks(out: &mut [u8], at: usize, n: usize) -> usize
    requires { at + n ≤ length out.old }
    ensures { Writes out.old at (blanks n) out.new result }
{
    let end = at + n;
    out[at..end].fill(b' ');
    end
}

// A text that ends in the last of so many columns.
fn put_right(out: &mut [u8], at: usize, columns: usize, text: &[u8]) -> usize
    requires { (length text.now ≤ columns) × (at + columns ≤ length out.old) }
    ensures { Writes out.old at (right_in columns text.now) out.new result }
{
    let first = put_blanks(out, at, columns - text.len());
    put_part(out, first, text)
}

// A name that begins in the first of its columns.
fn put_name_left(out: &mut [u8], at: usize, name: Name) -> usize
    requires { at + max_spelling ≤ length out.old }
    ensures { Writes out.old at (left_in max_spelling (name_bytes name)) out.new result × (result ≡ at + max_spelling) }
{
    let end = put_name(out, at, name);
    put_blanks(out, end, at + SPELLING_MAX - end)
}

// A figure that ends in the last of so many columns.
fn put_figure_right(out: &mut [u8], at: usize, columns: usize, kind: Kind, cents: Cents) -> usize
    requires { (max_figure ≤ columns) × (at + columns ≤ length out.old) }
    ensures { Writes out.old at (right_in columns (figure kind cents.0)) out.new result × (result ≡ at + columns) }
{
    let mut text = [0u8; FIGURE_MAX];
    let len = put_figure(&mut text, 0, kind, cents);
    put_right(out, at, columns, &text[..len])
}

// The entry of a line.
pub(crate) fn put_entry(out: &mut [u8], at: usize, line: Line) -> usize
    requires { at + line_size ≤ length out.old }
    ensures { Writes out.old at (entry_bytes line) out.new result × (result ≡ at + line_size) }
{
    let kind = line.kind;
    let name = line.name;
    let cents = line.cents;
    let a = put_label(out, at, line.hour, kind);
    let b = put_name_left(out, a, name);
    let d = put_figure_right(out, b, AMOUNT_COLUMNS, kind, cents);
    put_byte(out, d, b'\n')
}

fn put_blank_line(out: &mut [u8], at: usize) -> usize
    requires { at + line_size ≤ length out.old }
    ensures { Writes out.old at blank_line out.new result × (result ≡ at + line_size) }
{
    let end = put_blanks(out, at, COLUMNS);
    put_byte(out, end, b'\n')
}

pub(crate) fn put_blank_lines(out: &mut [u8], at: usize, n: usize) -> usize
    requires { at + line_size * n ≤ length out.old }
    ensures { Writes out.old at (blank_lines n) out.new result × (result ≡ at + line_size * n) }
{
    let mut next = at;
    for _ in 0..n {
        next = put_blank_line(out, next);
    }
    next
}

// The number of a page, and the blank line below it.
pub(crate) fn put_head(out: &mut [u8], at: usize, page: u64) -> usize
    requires { at + line_size * 2 ≤ length out.old }
    ensures { Writes out.old at (page_head page) out.new result × (result ≡ at + line_size * 2) }
{
    let end = put_right(out, at, COLUMNS, Buffer::new().format(page).as_bytes());
    let second = put_byte(out, end, b'\n');
    put_blank_line(out, second)
}

// The sum at the foot of a page.
pub(crate) fn put_sum(out: &mut [u8], at: usize, cents: Cents) -> usize
    requires { at + line_size ≤ length out.old }
    ensures { Writes out.old at (sum_line cents.0) out.new result × (result ≡ at + line_size) }
{
    let end = put_figure_right(out, at, COLUMNS, Kind::Tot, cents);
    put_byte(out, end, b'\n')
}
