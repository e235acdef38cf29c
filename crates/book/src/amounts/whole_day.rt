// All amounts of a day, from one check of the book.
// Hours are asked below 32, where rows have a slot: a type for that would be made where the clause is shown now, and taken apart by an `.hour` in each promise.
ghost use Rattle.std.specs.Prelude.{◌≡◌, List, map, ℕ, ◌<◌, ◌+◌};
ghost use Rattle.money.specs.Units.{day_hours};
ghost use Rattle.book.specs.Layer.{Change};
ghost use Rattle.book.specs.tables.CheckedLog.{Says};
ghost use Rattle.book.specs.Register.{standing};
ghost use Rattle.book.specs.Meaning.{load};
ghost use Rattle.book.specs.Amounts.{HourPricing};
ghost use Rattle.book.specs.ByName.{names_of};
ghost use Rattle.book.specs.tables.Prices.{PriceIs, TableOf};
ghost use Rattle.book.specs.tables.Units.{Named};
ghost use Rattle.book.specs.UnitNames.{gh_key};
ghost use Rattle.book.specs.WholeDay.{hour_reply, unit_reply, hours_from, day_amounts, told_hour, told_unit, told_day};
ghost use Rattle.book.specs.tables.Index.{mark_slots};

use crate::amounts::prices::PriceTable;
use crate::amounts::units::Units;
use crate::answers::{DayAmounts, HourAmounts, UnitAmounts};
use crate::book::{Book, CHANGES_MAX};
use crate::log::checked_log::CheckedLog;
use crate::log::row::Row;
use fixed_list::FixedList;
use money::refusals::Refusal;
use money::units::HOURS;
use records::keys::{Key, key_of};
use records::layouts::HourPrices;
use records::marks::Mark;
use std::array;

impl<'a> CheckedLog<'a> {
    // The amounts of an hour, at a price of it. Hour and price are two: which hour a price is of depends on the log.
    fn hour_amounts(&self, hour: u8, price: Option<HourPrices>) -> HourAmounts
        requires { hour < mark_slots }
        ensures { (l : List Change) → Says self.now l → (q : ℕ → HourPricing) → PriceIs (q hour) price
            → told_hour result ≡ hour_reply (standing l) q hour }
    {
        HourAmounts {
            guarantees: self.guarantees(hour, price),
            imports: self.charges(Mark::Fi, hour, price),
            exports: self.charges(Mark::Fe, hour, price),
        }
    }

    // Those of each hour, at the prices of a table.
    #[inline(never)]
    fn each_hour(&self, table: &PriceTable) -> [HourAmounts; HOURS]
        ensures { (l : List Change) → Says self.now l → (q : ℕ → HourPricing) → TableOf q table.now
            → map told_hour result ≡ map (hour_reply (standing l) q) (hours_from 1 day_hours) }
    {
        array::from_fn(
            |i|
                requires { i < day_hours }
                ensures { (l : List Change) → Says self.entry.now l → (q : ℕ → HourPricing) → TableOf q table.entry.now
                    → told_hour result ≡ hour_reply (standing l) q (1 + i) }
            { self.hour_amounts(i as u8 + 1, table[i]) },
        )
    }

    // The days of the units of these names in their order, at the prices of a table.
    #[inline(never)]
    fn each_unit(&self, names: &Units, table: &PriceTable) -> FixedList<UnitAmounts, CHANGES_MAX>
        requires { Named names.now.items }
        ensures { (l : List Change) → Says self.now l → names.now.items ≡ names_of gh_key (standing l) → (q : ℕ → HourPricing)
            → TableOf q table.now → map told_unit result.items ≡ map (unit_reply (standing l) q) (names_of gh_key (standing l)) }
    {
        let mut units = FixedList::new();
        for name in names {
            let key = Key {
                mark: Mark::Gh,
                hour: 1,
                name: *name,
            };
            let day = self.unit_day(key, table);
            units.push(UnitAmounts { name: *name, day });
        }
        units
    }
}

impl Book {
    // All amounts of the day, from one check.
    pub fn day(self, log: &[u8]) -> Result<DayAmounts, Refusal>
        ensures { told_day result ≡ day_amounts (load self log.now) }
    {
        // Not by `asked`, which would move the day's 49,480 bytes once more: settle took 606,208 bytes of stack on a busy day so, where its manual page says
        // 576 KiB.
        let mut rows = [Row::default(); CHANGES_MAX];
        self.check_rows(log, &mut rows)?;
        let held = self.checked_log(log, &rows);
        let table = held.prices();
        let hours = held.each_hour(&table);
        let units = held.each_unit(&held.names(key_of(Mark::Gh, 1)), &table);
        Ok(DayAmounts { hours, units })
    }
}
