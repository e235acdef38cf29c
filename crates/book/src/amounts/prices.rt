// Prices: of an hour, and of each hour of the day.
// Hours are asked below 32, where rows have a slot: a type for that would be made where the clause is shown now, and taken apart by an `.hour` in each promise.
ghost use Rattle.std.specs.Prelude.{◌≡◌, Some, None, List, drop, ◌<◌};
ghost use Rattle.book.specs.Layer.{Change, prices_in};
ghost use Rattle.book.specs.Register.{standing};
ghost use Rattle.book.specs.Amounts.{price_of};
ghost use Rattle.book.specs.tables.CheckedLog.{Says};
ghost use Rattle.book.specs.tables.Prices.{PriceIs, TableOf};
ghost use Rattle.book.specs.tables.Index.{mark_slots};

use crate::log::checked_log::CheckedLog;
use money::units::HOURS;
use records::keys::key_of;
use records::layouts::HourPrices;
use records::marks::Mark;
use records::views::prices_of;

// The price of each hour that has one, the first at 0.
pub(crate) type PriceTable = [Option<HourPrices>; HOURS];

// Of the `PR` that is written at a place. One beyond the log's end reads from the end.
pub fn prices_at(log: &[u8], at: usize) -> HourPrices
    ensures { result ≡ prices_in (drop at log.now) }
{
    let start = at.min(log.len());
    prices_of(&log[start..]).unwrap_or_default()
}

impl<'a> CheckedLog<'a> {
    // The price of an hour.
    pub(crate) fn price(&self, hour: u8) -> Option<HourPrices>
        requires { hour < mark_slots }
        ensures { (l : List Change) → Says self.now l → PriceIs (price_of (standing l) hour) result }
    {
        let standing = self.find(key_of(Mark::Pr, hour))?;
        Some(prices_at(self.bytes, standing.start))
    }

    // The price of each hour. A walk of its own: `day_named` keeps places, and a second walk over them would read the prices.
    pub(crate) fn prices(&self) -> PriceTable
        ensures { (l : List Change) → Says self.now l → TableOf (price_of (standing l)) result }
    {
        let mut table = [None; HOURS];
        for row in self.rows {
            if let Some(hour) = row.hour_of(Mark::Pr) {
                table[hour - 1] = Some(prices_at(self.bytes, row.place()));
            }
        }
        table
    }
}
