// A unit's day. A type for keys that are well formed would be made where the clause is shown now, and taken apart by a `.key` in each promise.
ghost use Rattle.std.specs.Prelude.{◌≡◌, Some, List, length, is_none, ℕ, ◌≤◌};
ghost use Rattle.money.specs.Units.{day_hours};
ghost use Rattle.laws.specs.Sums.{every};
ghost use Rattle.book.specs.Layer.{Change, Gh};
ghost use Rattle.book.specs.tables.LayerTables.{Wellformed};
ghost use Rattle.book.specs.tables.CheckedLog.{Says};
ghost use Rattle.book.specs.Register.{standing, ask, day_of};
ghost use Rattle.book.specs.Meaning.{Meets, day_reply};
ghost use Rattle.book.specs.Amounts.{HourPricing, unit_day_of};
ghost use Rattle.book.specs.tables.Prices.{TableOf};
ghost use Rattle.book.specs.tables.Worked.{InDay, place_in, price_for, paid, part_of, Parts};

use crate::amounts::hours::DayPlaces;
use crate::amounts::prices::PriceTable;
use crate::book::Book;
use crate::log::checked_log::CheckedLog;
use money::production::DayTotals;
use money::refusals::Refusal;
use money::units::{CentsPerStart, HOURS, Ticks};
use records::amounts::{UnitPart, day_of, unit_part};
use records::keys::{Key, unit_key};
use records::layouts::HourPrices;

// The amounts of the day's hours and their start-ups, 0 where the unit has no hour: two series, as at money's `ReadyDay`.
#[derive(Clone, Copy, Default)]
struct DayParts {
    ticks: [Ticks; HOURS],
    starts: [CentsPerStart; HOURS],
}

// No hour of the day has a record.
fn nowhere(units: &DayPlaces) -> bool
    ensures { result ≡ every day_hours (λ (j : ℕ). is_none (place_in units.now j)) }
{
    units.iter().all(|unit| unit.is_none())
}

// Each hour with a record has its prices.
fn payable(units: &DayPlaces, table: &PriceTable) -> bool
    ensures { result ≡ every day_hours (λ (j : ℕ). paid (place_in units.now j) (price_for table.now j)) }
{
    units
        .iter()
        .zip(table)
        .all(|(unit, price)| unit.is_none() || price.is_some())
}

// What an hour adds: nothing without a record or its prices.
#[tactic(auto, using(crate::proofs::amounts::days::Lemmas::no_parts), unfolding(crate::specs::tables::Worked::part_of))]
fn part_at(log: &[u8], unit: Option<usize>, price: Option<HourPrices>) -> UnitPart
    requires { (start : ℕ) → unit ≡ Some start → start ≤ length log.now }
    ensures { result ≡ part_of log.now unit price }
{
    match (unit, price) {
        (Some(start), Some(prices)) => unit_part(&log[start..], prices).unwrap_or_default(),
        _ => UnitPart::default(),
    }
}

// The parts of each hour. It is numbered, as it writes in both series.
fn parts_of(log: &[u8], units: &DayPlaces, table: &PriceTable) -> DayParts
    requires { InDay log.now units.now }
    ensures { Parts log.now units.now table.now result.ticks result.starts day_hours }
{
    let mut d = DayParts::default();
    for (h, (unit, price)) in units.iter().zip(table).enumerate() {
        let p = part_at(log, *unit, *price);
        d.ticks[h] = p.ticks;
        d.starts[h] = p.start;
    }
    d
}

impl<'a> CheckedLog<'a> {
    // The day of the key's unit, at the prices of a table.
    pub(crate) fn unit_day(&self, key: Key, table: &PriceTable) -> Result<DayTotals, Refusal>
        requires { Wellformed key }
        ensures { (l : List Change) → Says self.now l → key.mark ≡ Gh → (price : ℕ → HourPricing) → TableOf price table.now
            → day_reply result ≡ unit_day_of key (standing l) price }
    {
        let units = self.day(key);
        if nowhere(&units) {
            return Err(Refusal::NoSuchKey);
        }
        if !payable(&units, table) {
            return Err(Refusal::PriceMissing);
        }
        let DayParts { ticks, starts } = parts_of(self.bytes, &units, table);
        day_of(ticks, starts)
    }
}

impl Book {
    // The day total of a unit and its reversal.
    pub fn unit_day(self, log: &[u8], name: &[u8]) -> Result<DayTotals, Refusal>
        ensures { Meets (ask (day_of name.now)) self log.now self (day_reply result) log.now }
    {
        self.asked(
            log,
            unit_key(name),
            |held, key| held.unit_day(key, &held.prices()),
        )
    }
}
