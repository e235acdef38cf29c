// The line of a refusal.
ghost use Rattle.std.specs.Prelude.{◌≡◌, ◌≤◌, length};
ghost use Rattle.statement.specs.Lines.{max_line};
ghost use Rattle.statement.specs.Statement.{Fits};
ghost use Rattle.statement.specs.Refusal.{refusal_line};
ghost use Rattle.statement.specs.tables.Inner.{Writes};

use crate::bytes::{put_byte, put_decimal, put_part, write_front};
use crate::lines::LINE_MAX;
use money::refusals::Refusal;

// Writes `REF n r` from the first byte on.
fn put_refusal(out: &mut [u8], ordinal: u64, number: u8) -> usize
    requires { length out.old ≡ max_line }
    ensures { Writes out.old 0 (refusal_line ordinal number) out.new result }
{
    let a = put_part(out, 0, b"REF");
    let b = put_byte(out, a, b' ');
    let c = put_decimal(out, b, ordinal);
    let d = put_byte(out, c, b' ');
    let e = put_decimal(out, d, number as u64);
    put_byte(out, e, b'\n')
}

// Writes `REF n r` from the first lent byte on: 13 where it is longer than what is lent. It never needs more than LINE_MAX bytes. The number is any `u8`:
// a `Refusal` would ask more of callers.
pub fn refusal(ordinal: u64, number: u8, out: &mut [u8]) -> Result<usize, Refusal>
    ensures { Fits (refusal_line ordinal number) out.old out.new result × (length (refusal_line ordinal number) ≤ max_line) }
{
    let mut line = [0u8; LINE_MAX];
    let len = put_refusal(&mut line, ordinal, number);
    write_front(out, &line[..len])
}
