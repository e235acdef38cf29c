// Changes on a book that was checked: the rows of its changes are at hand and change with it, and nothing is replayed. Log and rows are lent for writing
// here, each by itself: between the two writes no struct's fact would hold. The checked log is lent for reading.
ghost use Rattle.std.specs.Prelude.{◌≡◌, List, ◌∷◌, length, ℕ, ◌<◌, IfSome, IsSomeAnd};
ghost use Rattle.book.specs.Layer.{Key, Change, key_of, parse};
ghost use Rattle.book.specs.Register.{max_changes, listed, taken_back, closing, general};
ghost use Rattle.book.specs.tables.Rows.{Rows, Logged, Log};
ghost use Rattle.book.specs.declared.log.row.Row.{Row};
ghost use Rattle.book.specs.tables.Checked.{Checked, Makes, Since, IsChange, Viewing, IsEntry, Undoing, Wrote, key_in, done_of};

use crate::book::{Book, CHANGES_MAX};
use crate::log::checked_log::CheckedLog;
use crate::log::index::hour_slot;
use crate::log::refusal::check_change;
use crate::log::row::Row;
use crate::log::rows::clear_row;
use money::refusals::Refusal;
use records::heads::{head_key, name_head};
use records::hours::limit_of;
use records::marks::{Wanted, is_filing};
use records::parse::Act;
use records::scan::View;
use records::writing::put_viewed;

impl<'a> CheckedLog<'a> {
    // The newest change before the last one that wrote a record of the mark and hour which has the name behind them.
    fn written_before(&self, slot: usize, name: &[u8]) -> Option<usize>
        requires { 0 < length self.now.rows.now }
        ensures inside { IfSome result (λ at. at < length self.now.rows.now) }
        ensures wrote { (c : Change) (l : List Change) → Undoing self.now.bytes.now self.now.rows.now slot name.now c l
            → IsSomeAnd result (λ at. Wrote (length l) (key_of c) at l) }
    {
        let earlier = &self.rows[..self.rows.len() - 1];
        earlier
            .iter()
            .rposition(|row| row.wrote(slot) && row.has_name(self.bytes, name))
    }
}

// The rows without the last of n changes: the record that it replaced or removed stands again. A filing did neither.
fn restore(log: &[u8], rows: &mut [Row; CHANGES_MAX], n: usize)
    requires log_rows { Log log.now rows.old n }
    requires some_row { 0 < n }
    ensures { ((c : Change) (l : List Change) → Logged log.now rows.old n (c ∷ l) → Rows rows.new l l)
        × (length rows.new ≡ max_changes) }
{
    let held = CheckedLog::new(log, rows, n);
    let row = held.rows[n - 1];
    if is_filing(row.kind()) {
        return;
    }
    let start = row.start();
    let Ok(key) = head_key(&held.bytes[start..]) else {
        return;
    };
    let Some(head) = name_head(key) else {
        return;
    };
    let Some(at) = held.written_before(hour_slot(key), head.as_slice()) else {
        return;
    };
    rows[at] = rows[at].restored();
}

impl Book {
    // A filing, correction or withdrawal that was read. Its key is looked for among the first `from` changes.
    pub(crate) fn checked_enter(
        mut self,
        log: &mut [u8],
        rows: &mut [Row; CHANGES_MAX],
        from: usize,
        view: View,
        rec: &[u8],
    ) -> Result<Book, Refusal>
        requires checked { Checked self log.old rows.old }
        requires since { Since self log.old view.key from }
        requires viewed { Viewing rec.now view }
        ensures { (want : Wanted) → IsChange want rec.now view
            → Makes (listed (parse want rec.now)) self log.old view.key (done_of self result) log.new rows.new }
    {
        if self.closed {
            return Err(Refusal::Closed);
        }
        let n = self.changes as usize;
        let at = self.used as usize;
        let held = CheckedLog::new(log, rows, n);
        let standing = held.find_from(from, view.key);
        let count = held.count(view.key);
        let most = limit_of(view.key);
        check_change(view, standing, count, most, n, at, log.len())?;
        put_viewed(log, at, rec, Some(view)).is_ok();
        clear_row(rows, standing);
        let hour = hour_slot(view.key);
        let row = Row::of(view, hour, at);
        rows[n] = row;
        self.used = (at + view.len) as u32;
        self.changes = self.changes + 1;
        Ok(self)
    }

    // The used part then ends where the last change begins.
    pub(crate) fn checked_take_back(
        mut self,
        log: &[u8],
        rows: &mut [Row; CHANGES_MAX],
    ) -> Result<Book, Refusal>
        requires { Checked self log.now rows.old }
        ensures { (k : Key) → Makes (taken_back 0) self log.now k (done_of self result) log.now rows.new }
    {
        if self.closed {
            return Err(Refusal::Closed);
        }
        if self.changes == 0 {
            return Err(Refusal::NothingToTakeBack);
        }
        let n = self.changes as usize;
        let row = rows[n - 1];
        restore(log, rows, n);
        self.changes = self.changes - 1;
        self.used = row.start() as u32;
        Ok(self)
    }

    pub(crate) fn checked_close(mut self) -> Result<Book, Refusal>
        ensures { (s : List ℕ) (rows : List Row) (k : Key) → Checked self s rows → Makes (closing 0) self s k (done_of self result) s rows }
    {
        if self.closed {
            return Err(Refusal::Closed);
        }
        self.closed = true;
        Ok(self)
    }

    // A change of any mark that was read.
    pub(crate) fn checked_change(
        self,
        log: &mut [u8],
        rows: &mut [Row; CHANGES_MAX],
        from: usize,
        act: Act,
        rec: &[u8],
    ) -> Result<Book, Refusal>
        requires checked { Checked self log.old rows.old }
        requires since { Since self log.old (key_in act) from }
        requires entry_of_act { IsEntry rec.now act }
        ensures { Makes (general rec.now) self log.old (key_in act) (done_of self result) log.new rows.new }
    {
        match act {
            Act::Change(view) => self.checked_enter(log, rows, from, view, rec),
            Act::TakeBack => self.checked_take_back(log, rows),
            Act::Close => self.checked_close(),
        }
    }
}
