// Bytes written at a place of lent bytes. Each function answers the place behind them. Bytes and place stand in no struct, here or in the lines and
// columns: one that held `&mut` bytes would have each promise add that it holds the same ones still. The room that a function asks for is its own fact.
// No `Display` and `write!`: these promise a text where the writer answers `Ok`, and never that it does; here nothing can fail, and each function promises its
// bytes at their place, and that all others stay.
// A text of its own (a figure in its column, a refusal's line, a day aside) is an array and the place behind the text, as these functions take and answer
// them: a `FixedList` would need each of them a second time.
ghost use Rattle.std.specs.Prelude.{[], ◌∷◌, ◌+◌, ◌≤◌, ◌<◌, length};
ghost use Rattle.statement.specs.Decimal.{decimal, two_digits};
ghost use Rattle.statement.specs.Statement.{Fits};
ghost use Rattle.statement.specs.tables.Inner.{Writes};

use itoa::Buffer;
use money::refusals::Refusal;

pub(crate) fn put_byte(out: &mut [u8], at: usize, b: u8) -> usize
    requires { at < length out.old }
    ensures { Writes out.old at (b ∷ []) out.new result }
{
    out[at] = b;
    at + 1
}

// Two digits of a number below 100; `itoa` puts no zero in front.
pub(crate) fn put_two(out: &mut [u8], at: usize, n: u8) -> usize
    requires { at + 2 ≤ length out.old }
    ensures { Writes out.old at (two_digits n) out.new result }
{
    let second = put_byte(out, at, b'0' + n / 10);
    put_byte(out, second, b'0' + n % 10)
}

// A number without leading zeros.
pub(crate) fn put_decimal(out: &mut [u8], at: usize, n: u64) -> usize
    requires { at + length (decimal n) ≤ length out.old }
    ensures { Writes out.old at (decimal n) out.new result }
{
    put_part(out, at, Buffer::new().format(n).as_bytes())
}

// Not records' `copy`, which is inner to that crate: each states it in a word of its own, `Wrote` there and `Writes` here.
pub(crate) fn put_part(out: &mut [u8], at: usize, part: &[u8]) -> usize
    requires { at + length part.now ≤ length out.old }
    ensures { Writes out.old at part.now out.new result }
{
    let end = at + part.len();
    out[at..end].copy_from_slice(part);
    end
}

// Writes a text from the first lent byte on: 13 where it is longer than what is lent.
pub(crate) fn write_front(out: &mut [u8], text: &[u8]) -> Result<usize, Refusal>
    ensures { Fits text.now out.old out.new result }
{
    if out.len() < text.len() {
        return Err(Refusal::NoSpace);
    }
    Ok(put_part(out, 0, text))
}
