// The rows of a checked book: one for each change, lent and never copied.
ghost use Rattle.std.specs.Prelude.{◌≡◌, Some, List, length, drop, ◌<◌, ◌≤◌};
ghost use Rattle.book.specs.Layer.{Key, Change, scan, scanned_len};
ghost use Rattle.book.specs.tables.LayerTables.{Padded};
ghost use Rattle.book.specs.Register.{max_changes, standing, count};
ghost use Rattle.book.specs.declared.log.rows.Standing.{Standing};
ghost use Rattle.book.specs.tables.Index.{mark_slots, bucket, latest_of};
ghost use Rattle.book.specs.tables.Rows.{Search, Sought, cleared};
ghost use Rattle.book.specs.tables.CheckedLog.{Says};

use crate::book::CHANGES_MAX;
use crate::log::checked_log::CheckedLog;
use crate::log::index::hour_slot;
use crate::log::row::Row;
use records::heads::name_head;
use records::keys::Key;
use records::scan::peek;

// The length of the record that is written at a place.
pub(crate) fn written_len(log: &[u8], start: usize) -> usize
    requires { start ≤ length log.now }
    ensures { result ≡ scanned_len (scan (drop start log.now)) }
{
    match peek(&log[start..]) {
        Some(view) => view.len,
        None => 0,
    }
}

// A record that stands: which change wrote it, and where it is written.
#[derive(Clone, Copy)]
pub(crate) struct Standing {
    pub(crate) at: usize,
    pub(crate) start: usize,
}

impl<'a> CheckedLog<'a> {
    // How many records of the key's mark and hour stand.
    pub(crate) fn count(&self, key: Key) -> usize
        ensures { (l : List Change) → Says self.now l → key.hour < mark_slots → result ≡ count key (standing l) }
    {
        let slot = hour_slot(key);
        // No filter and count: these go row by row, and this loop eight rows at a time. 512 filings cost 2,213,300 instructions with them,
        // 1,562,061 with the loop.
        let mut sum: usize = 0;
        for row in self.rows {
            if row.stands(slot) {
                sum += 1;
            }
        }
        sum
    }

    // The newest of the first `from` changes whose record stands, is of the mark and hour, and has the name behind them.
    fn find_named(&self, from: usize, slot: usize, name: &[u8]) -> Option<Standing>
        requires { from ≤ length self.now.rows.now }
        ensures { (k : Key) (l : List Change) → Search self.now.bytes.now self.now.rows.now from slot name.now k l
            → Sought self.now.rows.now k result l }
    {
        let front = &self.rows[..from];
        let at = front
            .iter()
            .rposition(|row| row.stands(slot) && row.has_name(self.bytes, name))?;
        let start = front[at].place();
        Some(Standing { at, start })
    }

    // The record of a key by the first `from` changes: no later one has the key's number. The key is spelled once, and no record is read.
    pub(crate) fn find_from(&self, from: usize, key: Key) -> Option<Standing>
        requires { from ≤ length self.now.rows.now }
        ensures { (l : List Change) → Says self.now l → key.hour < mark_slots → Padded key.name
            → latest_of (bucket key) l ≤ from → Sought self.now.rows.now key result l }
    {
        if from == 0 {
            return None;
        }
        let head = name_head(key)?;
        self.find_named(from, hour_slot(key), head.as_slice())
    }

    // The record of a key.
    pub(crate) fn find(&self, key: Key) -> Option<Standing>
        ensures { (l : List Change) → Says self.now l → key.hour < mark_slots → Padded key.name → Sought self.now.rows.now key result l }
    {
        self.find_from(self.rows.len(), key)
    }
}

// The record that was found stands no longer.
pub(crate) fn clear_row(rows: &mut [Row; CHANGES_MAX], standing: Option<Standing>)
    requires { (s : Standing) → standing ≡ Some s → s.at < max_changes }
    ensures { rows.new ≡ cleared rows.old standing }
{
    if let Some(Standing { at, start: _ }) = standing {
        rows[at] = rows[at].gone();
    }
}
