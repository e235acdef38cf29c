// An hour's guarantees and its wheel offset.
// Hours are asked below 32, where rows have a slot: a type for that would be made where the clause is shown now, and taken apart by an `.hour` in each promise.
ghost use Rattle.std.specs.Prelude.{◌≡◌, List, map, take, length, ℕ, ◌≤◌, ◌<◌};
ghost use Rattle.book.specs.Layer.{Change, no_entry};
ghost use Rattle.book.specs.tables.CheckedLog.{Says};
ghost use Rattle.book.specs.Register.{standing, ask, hour_guarantees};
ghost use Rattle.book.specs.Meaning.{Meets, guarantees_reply};
ghost use Rattle.book.specs.Amounts.{HourPricing, guarantees_of};
ghost use Rattle.book.specs.Handed.{max_credits};
ghost use Rattle.book.specs.tables.Worked.{entries_in, totals_in, entry_credit, named_of, Workable, worked_in};
ghost use Rattle.book.specs.tables.Prices.{PriceIs};
ghost use Rattle.book.specs.tables.Index.{mark_slots};

use crate::amounts::places::{Places, Spot};
use crate::answers::{CREDITS_MAX, Credits, Guarantees, NamedAmount};
use crate::book::Book;
use crate::log::checked_log::CheckedLog;
use money::imports::Import;
use money::refusals::Refusal;
use money::units::{INTERVALS, Quantity, Ticks};
use records::amounts::{hour_offset, offset_entry, totals_with_export};
use records::keys::{hour_key, key_of};
use records::layouts::HourPrices;
use records::marks::Mark;

// What stands for an entry where none is read.
fn no_entry() -> Import
    ensures { result ≡ no_entry }
{
    Import::default()
}

// The offset's entries of the imports at the places. A place beyond the log's end reads from the end.
pub fn entries_at(log: &[u8], places: &Places, prices: HourPrices) -> [Import; CREDITS_MAX]
    ensures { take (length places.now.items) result ≡ entries_in log.now prices places.now.items }
{
    let none = no_entry();
    let mut entries = [none; CREDITS_MAX];
    for (i, spot) in places.iter().enumerate() {
        let start = spot.start.min(log.len());
        entries[i] = offset_entry(&log[start..], prices).unwrap_or(none);
    }
    entries
}

// The quantities of the exports at the places, summed for each interval.
pub fn totals_at(log: &[u8], places: &Places) -> [Quantity; INTERVALS]
    ensures { result ≡ totals_in log.now places.now.items }
{
    let mut sums = [Quantity(0); INTERVALS];
    for spot in places.iter() {
        let start = spot.start.min(log.len());
        sums = totals_with_export(&log[start..], sums).unwrap_or([Quantity(0); INTERVALS]);
    }
    sums
}

// The credit of each entry, with the name of its place.
fn credits_of(places: &[Spot], entries: &[Import]) -> Credits
    requires { length places.now ≤ max_credits }
    ensures { result.items ≡ named_of places.now (map entry_credit (take (length places.now) entries.now)) }
{
    let mut credits = Credits::new();
    for (spot, entry) in places.iter().zip(entries) {
        credits.push(NamedAmount {
            name: spot.name,
            ticks: entry.credit,
        });
    }
    credits
}

// Of the imports and exports at the places, at their hour's prices.
fn worked(
    log: &[u8],
    imports: &Places,
    exports: &Places,
    prices: HourPrices,
) -> Result<Guarantees, Refusal>
    ensures { Workable log.now prices imports.now.items exports.now.items
        → guarantees_reply result ≡ worked_in log.now prices imports.now.items exports.now.items }
{
    let entries = entries_at(log, imports, prices);
    let totals = totals_at(log, exports);
    let offset = hour_offset(imports.len() as u8, entries, prices, totals)?;
    let credits = credits_of(imports, &entries);
    Ok(Guarantees { credits, offset })
}

impl<'a> CheckedLog<'a> {
    // The guarantees of an hour, at a price of it. Hour and price are two: which hour a price is of depends on the log.
    pub(crate) fn guarantees(
        &self,
        hour: u8,
        price: Option<HourPrices>,
    ) -> Result<Guarantees, Refusal>
        requires { hour < mark_slots }
        ensures { (l : List Change) → Says self.now l → (q : ℕ → HourPricing) → PriceIs (q hour) price
            → guarantees_reply result ≡ guarantees_of (standing l) q hour }
    {
        let imports = self.places(key_of(Mark::Im, hour));
        if imports.is_empty() {
            return Ok(Guarantees {
                credits: Credits::new(),
                offset: Ticks(0),
            });
        }
        let prices = price.ok_or(Refusal::PriceMissing)?;
        let exports = self.places(key_of(Mark::Ex, hour));
        worked(self.bytes, &imports, &exports, prices)
    }
}

impl Book {
    // The credit of each import of an hour by name, and the wheel offset.
    pub fn guarantees(self, log: &[u8], hour: u8) -> Result<Guarantees, Refusal>
        ensures { Meets (ask (hour_guarantees hour)) self log.now self (guarantees_reply result) log.now }
    {
        self.asked(
            log,
            hour_key(Mark::Im, hour),
            // The key is asked for its refusal.
            |held, _| held.guarantees(hour, held.price(hour)),
        )
    }
}
