// A log that was checked: the bytes, and a row for each of the changes that they begin with. The log knows only that some list of changes wrote
// it, so each promise says: for every list that it says.
ghost use Rattle.std.specs.Prelude.{◌≡◌, List, length, take, ◌≤◌};
ghost use Rattle.book.specs.Layer.{Change};
ghost use Rattle.book.specs.Register.{max_changes};
ghost use Rattle.book.specs.tables.Rows.{InReach, Logged, Log};

use crate::book::CHANGES_MAX;
use crate::log::row::Row;

#[derive(Clone, Copy)]
pub(crate) struct CheckedLog<'a> {
    pub(crate) bytes: &'a [u8],
    pub(crate) rows: &'a [Row],
    ghost in_reach: { InReach bytes.now rows.now },
    ghost few: { length rows.now ≤ max_changes },
    ghost log: { ∥ Log bytes.now rows.now (length rows.now) ∥₁ },
}

impl<'a> CheckedLog<'a> {
    // With the first n rows.
    pub(crate) fn new(bytes: &'a [u8], rows: &'a [Row; CHANGES_MAX], n: usize) -> CheckedLog<'a>
        requires { Log bytes.now rows.now n }
        ensures bytes { result.bytes.now ≡ bytes.entry.now }
        ensures rows { result.rows.now ≡ take n rows.entry.now }
        ensures count { length result.rows.now ≡ n }
        ensures says { (l : List Change) → Logged bytes.entry.now rows.entry.now n l → Logged result.bytes.now result.rows.now n l }
    {
        CheckedLog {
            bytes,
            rows: &rows[..n],
        }
    }
}
