// Where the records of a mark and name are written, in each hour of the day.
ghost use Rattle.std.specs.Prelude.{◌≡◌, List};
ghost use Rattle.book.specs.Layer.{Change, key_order};
ghost use Rattle.book.specs.tables.LayerTables.{Wellformed};
ghost use Rattle.book.specs.tables.CheckedLog.{Says};
ghost use Rattle.book.specs.tables.Hours.{name_hour, Written, DayIs};

use crate::log::checked_log::CheckedLog;
use crate::log::row::Row;
use money::units::HOURS;
use records::heads::name_head;
use records::keys::Key;
use records::marks::Mark;

// Where the record of each hour that has one is written, the first hour at 0.
pub(crate) type DayPlaces = [Option<usize>; HOURS];

// The hour of a row whose record stands and is of the mark, and begins with the name behind mark and hour.
fn hour_for(log: &[u8], row: Row, mark: Mark, name: &[u8]) -> Option<usize>
    ensures { result ≡ name_hour (key_order mark) name.now log.now row }
{
    let hour = row.hour_of(mark)?;
    row.has_name(log, name).then_some(hour)
}

impl<'a> CheckedLog<'a> {
    // For a mark and a name as it is written.
    fn day_named(&self, mark: Mark, name: &[u8]) -> DayPlaces
        ensures { (k : Key) → Written k (key_order mark) name.now → (l : List Change) → Says self.now l → DayIs k l result }
    {
        let mut hours = [None; HOURS];
        for row in self.rows {
            if let Some(hour) = hour_for(self.bytes, *row, mark, name) {
                hours[hour - 1] = Some(row.place());
            }
        }
        hours
    }

    // For the key's mark and name. The name is spelled once, and no record is read.
    pub(crate) fn day(&self, key: Key) -> DayPlaces
        requires { Wellformed key }
        ensures { (l : List Change) → Says self.now l → DayIs key l result }
    {
        let Some(head) = name_head(key) else {
            return [None; HOURS];
        };
        self.day_named(key.mark, head.as_slice())
    }
}
