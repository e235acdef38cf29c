// The book, and whether it belongs to the bytes that are lent.
ghost use Rattle.std.specs.Prelude.{◌≡◌, List, Ok, Err, false, is_ok};
ghost use Rattle.money.specs.declared.refusals.Refusal.TheVariants.{NotTogether};
ghost use Rattle.book.specs.Layer.{Change, Refusal};
ghost use Rattle.book.specs.Meaning.{belongs, mismatched, load};
ghost use Rattle.book.specs.tables.Rows.{Rows, Rowed};
ghost use Rattle.book.specs.tables.CheckedLog.{Says};
ghost use Rattle.book.specs.declared.log.checked_log.CheckedLog.{CheckedLog};

use crate::log::checked_log::CheckedLog;
use crate::log::replay;
use crate::log::row::Row;
use money::refusals::Refusal;

// Changes in a book, at most.
pub const CHANGES_MAX: usize = 512;

// Bytes that a book uses, at most, however many are lent.
pub const USED_MAX: usize = 65535;

// What the book carries: its number of changes, its used bytes, and whether it is closed.
#[derive(Clone, Copy)]
pub struct Book {
    pub changes: u16,
    pub used: u32,
    pub closed: bool,
}

impl Book {
    pub fn fresh() -> Self
        ensures { result ≡ record { changes = 0; used = 0; closed = false } }
    {
        Book {
            changes: 0,
            used: 0,
            closed: false,
        }
    }

    // A row for each change, where the book and the bytes belong together. The rows are the caller's array, as no function can hand them out.
    pub(crate) fn check_rows(self, log: &[u8], rows: &mut [Row; CHANGES_MAX]) -> Result<(), Refusal>
        ensures rowed { Rowed (load self log.now) (is_ok result) rows.new }
        ensures apart { (e : Refusal) → result ≡ Err e → e ≡ NotTogether }
    {
        let used = self.used as usize;
        if log.len() < used {
            return Err(Refusal::NotTogether);
        }
        if replay::replayed_rows(&log[..used], self.changes, rows) {
            return Ok(());
        }
        Err(Refusal::NotTogether)
    }

    // What a question answers of the checked log: 16 where book and bytes are apart, then the fault of what is asked for.
    pub(crate) fn asked<K: Drop, T, F: FnOnce(CheckedLog, K) -> Result<T, Refusal>>(
        self,
        log: &[u8],
        key: Result<K, Refusal>,
        ask: F,
    ) -> Result<T, Refusal>
        requires { (h : CheckedLog) (k : K) (l : List Change) → key ≡ Ok k → Says h l → F.pre ask h k }
        ensures apart { load self log.now ≡ mismatched → result ≡ Err NotTogether }
        ensures wrong { (l : List Change) (e : Refusal) → load self log.now ≡ belongs l → key ≡ Err e → result ≡ Err e }
        ensures right { (l : List Change) (k : K) → load self log.now ≡ belongs l → key ≡ Ok k
            → (h : CheckedLog) × (h.bytes.now ≡ log.now) × Says h l × F.post ask h k result }
    {
        let mut rows = [Row::default(); CHANGES_MAX];
        self.check_rows(log, &mut rows)?;
        ask(self.checked_log(log, &rows), key?)
    }

    // The log that was checked, with its rows.
    pub(crate) fn checked_log<'a>(
        self,
        log: &'a [u8],
        rows: &'a [Row; CHANGES_MAX],
    ) -> CheckedLog<'a>
        requires { (l : List Change) × (load self log.now ≡ belongs l) × Rows rows.now l l }
        ensures bytes { result.bytes.now ≡ log.entry.now }
        ensures says { (l : List Change) → load self log.entry.now ≡ belongs l → Says result l }
    {
        CheckedLog::new(log, rows, self.changes as usize)
    }
}
