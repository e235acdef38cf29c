// Records that arrive in pieces of any size.
ghost use Rattle.std.specs.Prelude.{◌≡◌, ◌+◌, ◌≤◌, min, length, take};
ghost use Rattle.money.specs.Answers.{fault_in};
ghost use Rattle.records.specs.Changes.{put};
ghost use Rattle.book.specs.FeedPromise.{Feeds};
ghost use Rattle.filter.specs.Reading.{counted, begun, is_over, waits, part, ReadsOn};

use book::book::Book;
use book::feed::{Fed, feed};
use money::refusals::Refusal;
use records::parse::first_change;

// The most that is counted: 2^64 - 1.
pub const COUNT_MAX: u64 = u64::MAX;

// The book so far, and the records that it took; how many bytes of the next one are held, at the front of the input's bytes; and the number
// of the refusal at which the reading stands, 0 for none. Bytes that end early may still go on. The held bytes stay in the buffer that is lent to each
// read, so that a reading has their number alone. The refusal's number is any `u8`: a `Refusal` would ask more of callers.
#[derive(Clone, Copy)]
pub struct Reading {
    pub book: Book,
    pub count: u64,
    pub held: usize,
    pub number: u8,
}

// The sum, as far as 64 bits go.
pub(crate) fn plus(a: u64, b: u64) -> u64
    ensures { result ≡ counted (a + b) }
{
    a.saturating_add(b).min(COUNT_MAX)
}

// The place behind the held bytes and n more, within so many.
fn end_at(held: usize, n: usize, len: usize) -> usize
    ensures { result ≡ min (held + n) len }
{
    held.saturating_add(n).min(len)
}

// Whether the bytes up to a place are the beginning of a record, and no more.
fn waits_at(input: &[u8], end: usize) -> bool
    requires { end ≤ length input.now }
    ensures { result ≡ waits (take end input.now) }
{
    if end == 0 {
        return false;
    }
    matches!(first_change(&input[..end]), Err(Refusal::EndsEarly))
}

// Feeds the bytes up to a place.
fn feed_front(book: Book, log: &mut [u8], input: &[u8], end: usize) -> Fed
    requires { end ≤ length input.now }
    ensures { Feeds book log.old (take end input.now) result log.new }
{
    feed(book, log, &input[..end])
}

// The number of the refusal at which a call ended, 0 for none.
fn fault_in(end: Result<(), Refusal>) -> u8
    ensures { result ≡ fault_in end }
{
    end.map_or_else(|refusal| refusal.number(), |()| 0)
}

// Moves the bytes between two places to the front. How many they are.
fn to_front(bytes: &mut [u8], from: usize, end: usize) -> usize
    ensures { (bytes.new ≡ put bytes.old 0 (part from end bytes.old))
        × (result ≡ length (part from end bytes.old)) }
{
    let stop = end.min(bytes.len());
    if stop <= from {
        return 0;
    }
    bytes.copy_within(from..stop, 0);
    stop - from
}

impl Reading {
    // Nothing is read.
    pub fn fresh() -> Reading
        ensures { result ≡ begun }
    {
        Reading {
            book: Book::fresh(),
            count: 0,
            held: 0,
            number: 0,
        }
    }

    // Whether the reading stands at a refusal that no more bytes can change.
    pub fn is_over(self) -> bool
        ensures { result ≡ is_over self }
    {
        Refusal::EndsEarly.number() < self.number
    }

    // After a read of n bytes, which stand in the input's bytes behind those that were held: takes the records that are whole, and holds what is
    // left at the front. The book is not checked for a record that is not whole.
    pub fn read_on(self, log: &mut [u8], input: &mut [u8], n: usize) -> Reading
        ensures { ReadsOn self log.old input.old n result log.new input.new }
    {
        if self.is_over() {
            return self;
        }
        let end = end_at(self.held, n, input.len());
        let book = self.book;
        if waits_at(&input[..], end) {
            return Reading {
                book,
                count: self.count,
                held: end,
                number: Refusal::EndsEarly.number(),
            };
        }
        let f = feed_front(book, log, &input[..], end);
        let held = to_front(input, f.taken, end);
        Reading {
            book: f.book,
            count: plus(self.count, f.count),
            held,
            number: fault_in(f.end),
        }
    }
}
