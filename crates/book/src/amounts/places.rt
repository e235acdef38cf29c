// Where the standing records of a mark and hour are written, by decoded name.
// Hours are asked below 32, where rows have a slot: a type for that would be made where the clause is shown now, and taken apart by a `.key` in each promise.
ghost use Rattle.std.specs.Prelude.{◌≡◌, cond, List, ◌∷◌, ◌++◌, map, ltb, length, take, drop, ◌<◌, ◌≤◌};
ghost use Rattle.book.specs.Layer.{Change, empty_name};
ghost use Rattle.book.specs.Register.{standing};
ghost use Rattle.book.specs.ByName.{by_name};
ghost use Rattle.book.specs.tables.CheckedLog.{Says};
ghost use Rattle.book.specs.tables.Rows.{key_at};
ghost use Rattle.book.specs.tables.Places.{max_places, spot_of, put_spot};
ghost use Rattle.book.specs.tables.Index.{mark_slots};

use crate::log::checked_log::CheckedLog;
use crate::log::index::hour_slot;
use fixed_list::{Blank, FixedList};
use money::names::Name;
use records::heads::head_key;
use records::keys::Key;
use records::marks::HOUR_LIMIT;
use records::names::{comes_before, no_name};

// A standing record's decoded name, and where it is written.
#[derive(Clone, Copy, Default)]
pub struct Spot {
    pub name: Name,
    pub start: usize,
}

// No spot stands in a list's place without an element.
impl Blank for Spot {
    ghost blank = { record { name = empty_name; start = 0 } };

    fn blank() -> Self {
        Spot {
            name: Blank::blank(),
            start: 0,
        }
    }
}

// An hour holds no more records of a mark.
pub const PLACES_MAX: usize = HOUR_LIMIT as usize;

// Standing records, by decoded name in byte order.
pub type Places = FixedList<Spot, PLACES_MAX>;

// The first place whose name comes after the spot's, their number where none does.
fn position_for(places: &[Spot], spot: Spot) -> usize
    ensures within { result ≤ length places.now }
    ensures splits { put_spot spot places.now ≡ take result places.now ++ (spot ∷ drop result places.now) }
{
    places
        .iter()
        .position(|x| comes_before(spot.name, x.name))
        .unwrap_or(places.len())
}

// Puts the spot before the first whose name comes after its own; they stay as they are where an hour has no more places.
pub fn put_spot(places: &mut Places, spot: Spot)
    ensures { places.new.items ≡ cond (ltb (length places.old.items) max_places) (put_spot spot places.old.items) places.old.items }
{
    if !places.is_full() {
        places.insert(position_for(places, spot), spot);
    }
}

// The name of the record that is written at a place.
pub(crate) fn name_at(log: &[u8], start: usize) -> Name
    requires { start ≤ length log.now }
    ensures { result ≡ (key_at log.now start).name }
{
    match head_key(&log[start..]) {
        Ok(key) => key.name,
        Err(_) => no_name(),
    }
}

impl<'a> CheckedLog<'a> {
    // The places of the records of the key's mark and hour.
    pub(crate) fn places(&self, key: Key) -> Places
        requires { key.hour < mark_slots }
        ensures { (l : List Change) → Says self.now l → result.items ≡ map (spot_of l) (by_name key (standing l)) }
    {
        let slot = hour_slot(key);
        let mut places = Places::new();
        for row in self.rows {
            if row.stands(slot) {
                let start = row.place();
                let name = name_at(self.bytes, start);
                put_spot(&mut places, Spot { name, start });
            }
        }
        places
    }
}
