// The one pass over a book's used part.
ghost use Rattle.std.specs.Prelude.{◌≡◌, cond, [], ◌<◌, ◌+◌, ◌-◌};
ghost use Rattle.book.specs.Layer.{is_filing, is_withdrawal};
ghost use Rattle.book.specs.Meaning.{replay};
ghost use Rattle.book.specs.tables.Rows.{slot_unit, Rowed};

use crate::book::{CHANGES_MAX, USED_MAX};
use crate::log::checked_log::CheckedLog;
use crate::log::index::{BUCKETS, SLOTS, bucket_of, hour_slot};
use crate::log::refusal::check_change;
use crate::log::row::Row;
use crate::log::rows::clear_row;
use records::hours::limit_of;
use records::marks::Kind;
use records::scan::{View, peek};

// How many records of a mark and hour stand after a change of theirs.
fn count_with(view: View, count: usize) -> usize
    requires { count < slot_unit }
    ensures { result ≡ cond (is_filing view.kind) (count + 1) (cond (is_withdrawal view.kind) (count - 1) count) }
{
    match view.kind {
        Kind::File => count + 1,
        Kind::Withdraw => count.saturating_sub(1),
        Kind::Correct => count,
    }
}

// Whether the bytes are n written changes that can be played, with a row for each change; the refusal is `check_rows`' to say. Each is read once. The search for its key
// starts at the latest change with the key's number. These stand in a table by number: no map, as the book owns no heap.
pub(crate) fn replayed_rows(part: &[u8], n: u16, rows: &mut [Row; CHANGES_MAX]) -> bool
    ensures { Rowed (replay n [] part.now) result rows.new }
{
    let mut latest = [0u16; BUCKETS];
    let mut counts = [0usize; SLOTS];
    let mut q: usize = 0;
    // By number, and no iterator over the rows: the search for a change's key reads as many rows as there are changes before it.
    for i in 0..n as usize {
        let Some(v) = peek(&part[q..]) else {
            return false;
        };
        let bucket = bucket_of(v.key);
        let near = latest[bucket] as usize;
        let standing = CheckedLog::new(part, rows, i).find_from(near, v.key);
        let hour = hour_slot(v.key);
        let count = counts[hour];
        let most = limit_of(v.key);
        if check_change(v, standing, count, most, i, q, USED_MAX).is_err() {
            return false;
        }
        clear_row(rows, standing);
        let row = Row::of(v, hour, q);
        rows[i] = row;
        latest[bucket] = (i + 1) as u16;
        counts[hour] = count_with(v, count);
        q += v.len;
    }
    q == part.len()
}
