// The lines of the statement, and their text.
ghost use Rattle.std.specs.Prelude.{◌≡◌, ◌+◌, ◌≤◌, ◌<◌, nat_abs, length};
ghost use Rattle.records.specs.Names.{max_spelling};
ghost use Rattle.statement.specs.Lines.{when_bytes, kind_bytes, name_bytes, sign, figure, line_bytes, max_figure, max_line};
ghost use Rattle.statement.specs.tables.Inner.{Writes, label_bytes, label_size};

use crate::bytes::{put_byte, put_decimal, put_part, put_two};
use money::names::Name;
use money::units::Cents;
use records::names::{SPELLING_MAX, spell_name};

// The most bytes of a figure, and of a line.
pub(crate) const FIGURE_MAX: usize = 21;

pub const LINE_MAX: usize = 9 + SPELLING_MAX + FIGURE_MAX;

#[derive(Clone, Copy, PartialEq, Eq)]
pub enum Kind {
    Iog,
    Off,
    Ifc,
    Efc,
    Pcg,
    Rev,
    Err,
    Tot,
}

impl Kind {
    #[tactic(auto, unfolding(crate::specs::Lines::kind_bytes))]
    fn mark(self) -> [u8; 3]
        ensures { result ≡ kind_bytes self }
    {
        match self {
            Kind::Iog => *b"IOG",
            Kind::Off => *b"OFF",
            Kind::Ifc => *b"IFC",
            Kind::Efc => *b"EFC",
            Kind::Pcg => *b"PCG",
            Kind::Rev => *b"REV",
            Kind::Err => *b"ERR",
            Kind::Tot => *b"TOT",
        }
    }
}

// Hour 0 is the day. A name that breaks its rule, as one of no bytes, is none. The cents of an `Err` are its number. No `Option`s for hour and name: the
// definitions of lines and their theorems speak of this form, and each of the two is told at the one place that writes it. No enum of an amount and a
// number: it would be told apart where the kind is, in what is written and in what counts, in code and in the definitions.
#[derive(Clone, Copy)]
pub struct Line {
    pub hour: u8,
    pub kind: Kind,
    pub name: Name,
    pub cents: Cents,
}

// The hour in two digits, or the day.
fn put_when(out: &mut [u8], at: usize, hour: u8) -> usize
    requires { at + 2 ≤ length out.old }
    ensures { Writes out.old at (when_bytes hour) out.new result }
{
    if hour == 0 {
        let second = put_byte(out, at, b'D');
        return put_byte(out, second, b'D');
    }
    put_two(out, at, hour)
}

// Hour and kind, and a blank behind each.
pub(crate) fn put_label(out: &mut [u8], at: usize, hour: u8, kind: Kind) -> usize
    requires { at + label_size ≤ length out.old }
    ensures { Writes out.old at (label_bytes hour kind) out.new result × (result ≡ at + label_size) }
{
    let a = put_when(out, at, hour);
    let b = put_byte(out, a, b' ');
    let c = put_part(out, b, &kind.mark());
    put_byte(out, c, b' ')
}

// The name as written, or `-` where there is none.
#[tactic(auto, using(crate::proofs::laws::LineLaws::spelled))]
pub(crate) fn put_name(out: &mut [u8], at: usize, name: Name) -> usize
    requires { at + max_spelling ≤ length out.old }
    ensures { Writes out.old at (name_bytes name) out.new result }
{
    match spell_name(name) {
        Ok(s) => put_part(out, at, s.as_slice()),
        Err(_) => put_byte(out, at, b'-'),
    }
}

fn put_sign(out: &mut [u8], at: usize, cents: Cents) -> usize
    requires { at < length out.old }
    ensures { Writes out.old at (sign cents.0) out.new result }
{
    if cents.0 < 0 {
        return put_byte(out, at, b'-');
    }
    at
}

// Dollars with two decimals, or the number of an `Err`.
pub(crate) fn put_figure(out: &mut [u8], at: usize, kind: Kind, cents: Cents) -> usize
    requires { at + max_figure ≤ length out.old }
    ensures { Writes out.old at (figure kind cents.0) out.new result × (nat_abs cents.0 ≤ 9223372036854775808) }
{
    let n = cents.magnitude();
    let first = put_sign(out, at, cents);
    if kind == Kind::Err {
        return put_decimal(out, first, n);
    }
    let point = put_decimal(out, first, n / 100);
    let decimals = put_byte(out, point, b'.');
    put_two(out, decimals, (n % 100) as u8)
}

// Writes the text of a line.
pub(crate) fn put_text(out: &mut [u8], at: usize, line: Line) -> usize
    requires { at + max_line ≤ length out.old }
    ensures { Writes out.old at (line_bytes line) out.new result × (length (line_bytes line) ≤ max_line) }
{
    let kind = line.kind;
    let name = line.name;
    let cents = line.cents;
    let a = put_label(out, at, line.hour, kind);
    let b = put_name(out, a, name);
    let d = put_byte(out, b, b' ');
    let e = put_figure(out, d, kind, cents);
    put_byte(out, e, b'\n')
}
