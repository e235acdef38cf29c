// The names of the units: those under which a GH stands.
ghost use Rattle.std.specs.Prelude.{◌≡◌, ◌&&◌, ℕ, List, Some, eqb, length, ◌<◌, ◌≤◌, ◌+◌, ◌/◌};
ghost use Rattle.book.specs.Layer.{Change, key_order};
ghost use Rattle.book.specs.Register.{max_changes, standing};
ghost use Rattle.book.specs.ByName.{add_name, names_of};
ghost use Rattle.book.specs.Meaning.{load};
ghost use Rattle.book.specs.tables.CheckedLog.{Says};
ghost use Rattle.book.specs.tables.Rows.{row_live, row_slot};
ghost use Rattle.book.specs.UnitNames.{with_new, unit_names, unit_list_of};
ghost use Rattle.book.specs.tables.Index.{mark_slots};

use crate::amounts::places::name_at;
use crate::book::{Book, CHANGES_MAX};
use crate::log::checked_log::CheckedLog;
use crate::log::row::Row;
use fixed_list::FixedList;
use money::names::Name;
use money::refusals::Refusal;
use records::keys::{Key, key_of};
use records::marks::Mark;
use std::cmp::Ordering;

// Decoded names in byte order, each once.
pub type Units = FixedList<Name, CHANGES_MAX>;

// Whether the record that a row's change wrote stands, and is of the mark.
fn of_mark(row: Row, mark: Mark) -> bool
    ensures { result ≡ (row_live row && eqb (row_slot row / mark_slots) (key_order mark)) }
{
    row.hour_of(mark).is_some()
}

// The place of a name that is not yet there: the first whose name comes after it, their number where none does. No
// binary search: that names are in order is no fact at hand, and a day has few units.
fn place_for(names: &[Name], name: Name) -> Option<usize>
    ensures in_reach { (i : ℕ) → result ≡ Some i → i ≤ length names.now }
    ensures added { add_name name names.now ≡ with_new result name names.now }
{
    for (i, x) in names.iter().enumerate() {
        match name.cmp(x) {
            Ordering::Less => return Some(i),
            Ordering::Equal => return None,
            Ordering::Greater => {}
        }
    }
    Some(names.len())
}

fn add_name(names: &mut Units, name: Name)
    requires { length names.old.items < max_changes }
    ensures added { names.new.items ≡ add_name name names.old.items }
    ensures one_more { length names.new.items ≤ length names.old.items + 1 }
{
    if let Some(i) = place_for(names, name) {
        names.insert(i, name);
    }
}

impl<'a> CheckedLog<'a> {
    // The names under which a record of the key's mark stands. They are read where they are written.
    pub(crate) fn names(&self, key: Key) -> Units
        ensures { (l : List Change) → Says self.now l → result.items ≡ names_of key (standing l) }
    {
        let mut names = Units::new();
        for row in self.rows {
            if of_mark(*row, key.mark) {
                add_name(&mut names, name_at(self.bytes, row.place()));
            }
        }
        names
    }
}

impl Book {
    // The names of the units, by decoded name in byte order.
    pub fn units(self, log: &[u8]) -> Result<Units, Refusal>
        ensures { unit_list_of result ≡ unit_names (load self log.now) }
    {
        self.asked(log, Ok(()), |held, _| Ok(held.names(key_of(Mark::Gh, 1))))
    }
}
