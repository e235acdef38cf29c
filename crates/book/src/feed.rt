// The records of an input, taken back to back into a book.
ghost use Rattle.std.specs.Prelude.{◌≡◌, List, ℕ, ◌≤◌, length};
ghost use Rattle.book.specs.Layer.{Change};
ghost use Rattle.book.specs.Meaning.{belongs, load};
ghost use Rattle.book.specs.tables.Checked.{Checked, key_in};
ghost use Rattle.book.specs.Feed.{feeding};
ghost use Rattle.book.specs.FeedPromise.{Ends, Feeds};

use crate::book::{Book, CHANGES_MAX};
use crate::log::index::{BUCKETS, bucket_of};
use crate::log::row::Row;
use money::refusals::Refusal;
use records::keys::{Key, key_of};
use records::marks::Mark;
use records::parse::{Act, first_change};

// The book with the records that it took, how many they were and how many bytes; and the refusal that ended the reading, if one did.
#[derive(Clone, Copy)]
pub struct Fed {
    pub book: Book,
    pub count: u64,
    pub taken: usize,
    pub end: Result<(), Refusal>,
}

fn fed_so(book: Book, count: u64, taken: usize, end: Result<(), Refusal>) -> Fed
    ensures { result ≡ record { book = book; count = count; taken = taken; end = end } }
{
    Fed {
        book,
        count,
        taken,
        end,
    }
}

// Where the search for a key starts, by the latest change of its number: one that was taken back is behind all.
fn search_from(latest: u16, changes: u16) -> usize
    ensures { (result ≤ changes) × ((m : ℕ) → m ≤ latest → m ≤ changes → m ≤ result) }
{
    latest.min(changes) as usize
}

// The key of a change of a record; a mark that stands alone has that of no record. An `Option` would put a second case into each promise of a change.
fn key_in(act: Act) -> Key
    ensures { result ≡ key_in act }
{
    match act {
        Act::Change(view) => view.key,
        Act::TakeBack | Act::Close => key_of(Mark::Pr, 0),
    }
}

// Takes the records into a book that was checked, up to the first that is refused. Each is read once. The latest changes stand in a
// table by their keys' numbers: no map, as the book owns no heap.
fn feed_checked(mut book: Book, log: &mut [u8], rows: &mut [Row; CHANGES_MAX], input: &[u8]) -> Fed
    requires { Checked book log.old rows.old }
    ensures { (l : List Change) → load book log.old ≡ belongs l → Ends (feeding (length log.old)
        (record { list = l; closed = book.closed }) input.now) log.old result log.new }
{
    let mut latest = [book.changes; BUCKETS];
    let mut count: u64 = 0;
    let mut at = 0;
    // Each record says where the next begins, so no range or iterator counts the places.
    while at < input.len() {
        let f = match first_change(&input[at..]) {
            Ok(front) => front,
            Err(fault) => return fed_so(book, count, at, Err(fault)),
        };
        let ordinal = count + 1;
        let end = at + f.end;
        let act = f.act;
        let bucket = bucket_of(key_in(act));
        let from = search_from(latest[bucket], book.changes);
        match book.checked_change(log, rows, from, act, &input[at..end]) {
            Ok(next) => book = next,
            Err(refusal) => return fed_so(book, count, at, Err(refusal)),
        }
        latest[bucket] = book.changes;
        count = ordinal;
        at = end;
    }
    fed_so(book, count, at, Ok(()))
}

// Takes the records that the input holds back to back, up to the first that is refused. Book and bytes are checked once.
pub fn feed(mut book: Book, log: &mut [u8], input: &[u8]) -> Fed
    ensures { Feeds book log.old input.now result log.new }
{
    if input.len() == 0 {
        return fed_so(book, 0, 0, Ok(()));
    }
    let mut rows = [Row::default(); CHANGES_MAX];
    if let Err(fault) = book.check_rows(log, &mut rows) {
        return fed_so(book, 0, 0, Err(fault));
    }
    feed_checked(book, log, &mut rows, input)
}
