// Failure charges.
// Hours are asked below 32, where rows have a slot, and keys are well formed: types for that would be made where the clauses are shown now, and
// taken apart by a `.key` or an `.hour` in each promise.
ghost use Rattle.std.specs.Prelude.{◌≡◌, true, cond, List, ◌<◌, ℕ};
ghost use Rattle.money.specs.Refusals.{mark_unknown};
ghost use Rattle.book.specs.Layer.{Change, is_failure, answer_of, told, input_of, fault, ask_hour_of};
ghost use Rattle.book.specs.tables.LayerTables.{Wellformed};
ghost use Rattle.book.specs.tables.CheckedLog.{Says};
ghost use Rattle.book.specs.Register.{standing, ask, failure_charge};
ghost use Rattle.book.specs.Meaning.{Meets, load, charge_reply, charges_reply, hour_charges};
ghost use Rattle.book.specs.Amounts.{HourPricing, hour_key, price_of, charge_of, charges_of};
ghost use Rattle.book.specs.tables.Worked.{Inside, ticks_of, charges_in, named_of};
ghost use Rattle.book.specs.tables.Prices.{PriceIs};
ghost use Rattle.book.specs.tables.Index.{mark_slots};

use crate::amounts::places::Spot;
use crate::answers::{Charges, NamedAmount};
use crate::book::Book;
use crate::log::checked_log::CheckedLog;
use money::refusals::Refusal;
use money::units::Ticks;
use records::amounts::failure_charge;
use records::keys::{Key, ask_failure, hour_key, key_of};
use records::layouts::HourPrices;
use records::marks::{Mark, is_failure};

// The ticks of an amount. No charge of a standing record is refused.
fn ticks_of(a: Result<Ticks, Refusal>) -> Ticks
    ensures { result ≡ ticks_of (answer_of a) }
{
    a.unwrap_or(Ticks(0))
}

// The key of the failures of a mark and hour.
fn failure_hour(mark: Mark, hour: u8) -> Result<Key, Refusal>
    ensures { told result ≡ cond (is_failure mark) (input_of (ask_hour_of mark hour)) (fault mark_unknown) }
{
    if !is_failure(mark) {
        return Err(Refusal::MarkUnknown);
    }
    hour_key(mark, hour)
}

// The charges of the failures at the places, with their names.
fn charges_at(log: &[u8], places: &[Spot], mark: Mark, prices: HourPrices) -> Charges
    requires { Inside log.now places.now }
    ensures { result.items ≡ named_of places.now (charges_in log.now mark prices places.now) }
{
    let mut charges = Charges::new();
    for spot in places {
        charges.push(NamedAmount {
            name: spot.name,
            ticks: ticks_of(failure_charge(&log[spot.start..], mark, prices)),
        });
    }
    charges
}

impl<'a> CheckedLog<'a> {
    // The charge of a key's failure.
    pub(crate) fn charge(&self, key: Key) -> Result<Ticks, Refusal>
        requires { Wellformed key }
        ensures { (l : List Change) → Says self.now l → is_failure key.mark ≡ true
            → charge_reply result ≡ charge_of key (standing l) (price_of (standing l)) }
    {
        let standing = self.find(key).ok_or(Refusal::NoSuchKey)?;
        let prices = self.price(key.hour).ok_or(Refusal::PriceMissing)?;
        failure_charge(&self.bytes[standing.start..], key.mark, prices)
    }

    // The charges of a mark and hour, at a price of the hour. Hour and price are two: which hour a price is of depends on the log.
    pub(crate) fn charges(
        &self,
        mark: Mark,
        hour: u8,
        price: Option<HourPrices>,
    ) -> Result<Charges, Refusal>
        requires { hour < mark_slots }
        ensures { (l : List Change) → Says self.now l → is_failure mark ≡ true → (q : ℕ → HourPricing)
            → PriceIs (q hour) price → charges_reply result ≡ charges_of (hour_key mark hour) (standing l) q }
    {
        let failures = self.places(key_of(mark, hour));
        if failures.is_empty() {
            return Ok(Charges::new());
        }
        let prices = price.ok_or(Refusal::PriceMissing)?;
        Ok(charges_at(self.bytes, &failures, mark, prices))
    }
}

impl Book {
    // The charge of a failed import (FI) or export (FE).
    pub fn failure_charge(
        self,
        log: &[u8],
        mark: &[u8],
        hour: u8,
        name: &[u8],
    ) -> Result<Ticks, Refusal>
        ensures { Meets (ask (failure_charge mark.now hour name.now)) self log.now self (charge_reply result) log.now }
    {
        self.asked(
            log,
            ask_failure(mark, hour, name),
            |held, key| held.charge(key),
        )
    }

    // The charges of an hour's failed imports (FI) or exports (FE), by name.
    pub fn charges(self, log: &[u8], mark: Mark, hour: u8) -> Result<Charges, Refusal>
        ensures { charges_reply result ≡ hour_charges mark hour (load self log.now) }
    {
        self.asked(
            log,
            failure_hour(mark, hour),
            // The key is asked for its refusals.
            |held, _| held.charges(mark, hour, held.price(hour)),
        )
    }
}
