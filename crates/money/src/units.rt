// Prices, quantities and money, each a type of its own.
ghost use Rattle.std.specs.Prelude.{◌≡◌, ◌<◌, ◌≤◌, ◌+◌, ◌-◌, ◌*◌, ◌^◌, min, max, ℤ, pos, neg_ℤ, nat_abs, ◌+ℤ◌, ◌-ℤ◌, ◌*ℤ◌};
ghost use Rattle.laws.specs.Ints.{minℤ};
ghost use Rattle.money.specs.Units.{intervals, max_gap, ticks_per_cent, noload_ticks, price_ok, quantity_ok, price_read, quantity_read, prices_ok, quantities_ok, within_ok, cents_of};
ghost use Rattle.money.specs.tables.Numbers.{Moderate};

use crate::refusals::Refusal;

// The intervals of an hour.
pub const INTERVALS: usize = 12;

// The hours of a trading day.
pub const HOURS: usize = 24;

// The ticks of a cent.
pub const TICKS_PER_CENT: u64 = 120;

// The ticks of a cent per hour in one interval.
const NOLOAD_TICKS: i64 = 10;

// Cents per MWh.
#[derive(Clone, Copy, PartialEq, Eq, PartialOrd, Ord, Default)]
pub struct Price(pub i32);

// Cents per MWh between two prices, 0 to 400,000: a price's own limits don't bind it.
#[derive(Clone, Copy, PartialEq, Eq, PartialOrd, Ord)]
pub struct PriceGap(pub i32);

// Tenths of a MW.
#[derive(Clone, Copy, PartialEq, Eq, PartialOrd, Ord, Default)]
pub struct Quantity(pub u32);

// 1/120 cent: a price times a quantity for one interval is that many.
#[derive(Clone, Copy, PartialEq, Eq, PartialOrd, Ord, Default)]
pub struct Ticks(pub i64);

// Cents for each start of a unit.
#[derive(Clone, Copy, PartialEq, Eq, PartialOrd, Ord, Default)]
pub struct CentsPerStart(pub u32);

// Cents for each hour in which a unit turns with no net energy.
#[derive(Clone, Copy, PartialEq, Eq, PartialOrd, Ord)]
pub struct CentsPerHour(pub u32);

// Whole cents, for the line that is printed.
#[derive(Clone, Copy)]
pub struct Cents(pub i64);

// That a number is in range stays a clause of the three products below, and of failure.rt's `gap` and `charge_of`: the types take any number, as a caller may;
// `HourPrices`, `GoodOffer` and `GoodFailure` hold the fact for their callers.
impl Price {
    pub const MIN: Price = Price(-200000);

    pub const MAX: Price = Price(200000);

    pub fn new(cents: i32) -> Result<Price, Refusal>
        ensures { result ≡ price_read cents }
    {
        let price = Price(cents);
        if !price.in_range() {
            return Err(Refusal::NumberOutside);
        }
        Ok(price)
    }

    pub fn in_range(self) -> bool
        ensures { result ≡ price_ok self }
    {
        Price::MIN <= self && self <= Price::MAX
    }

    // This price for a quantity, in one interval.
    pub(crate) fn for_quantity(self, q: Quantity) -> Ticks
        requires self_in { nat_abs self.0 ≤ 200000 }
        requires q_in { q.0 ≤ 100000 }
        ensures value { result.0 ≡ self.0 *ℤ pos q.0 }
        ensures bounded { nat_abs result.0 ≤ 20000000000 }
    {
        Ticks((self.0 as i64) * (q.0 as i64))
    }

    // This price for the part of a list from one quantity to another, in one interval.
    pub(crate) fn between(self, from: Quantity, to: Quantity) -> Ticks
        requires self_in { nat_abs self.0 ≤ 200000 }
        requires in_order { from.0 ≤ to.0 }
        requires to_in { to.0 ≤ 100000 }
        ensures value { result.0 ≡ self.0 *ℤ pos (to.0 - from.0) }
        ensures bounded { nat_abs result.0 ≤ 20000000000 }
    {
        let part = to.0 - from.0;
        self.for_quantity(Quantity(part))
    }
}

impl PriceGap {
    // 01's min, by std's of the derived order.
    pub fn lesser(self, other: PriceGap) -> PriceGap
        ensures { result.0 ≡ minℤ self.0 other.0 }
    {
        self.min(other)
    }

    // This gap for a quantity over a whole hour, of twelve intervals.
    pub(crate) fn for_an_hour(self, q: Quantity) -> Ticks
        requires self_in { nat_abs self.0 ≤ max_gap }
        requires q_in { q.0 ≤ 100000 }
        ensures { result.0 ≡ self.0 *ℤ pos q.0 *ℤ pos intervals }
    {
        Ticks((self.0 as i64) * (q.0 as i64) * (INTERVALS as i64))
    }
}

impl Quantity {
    pub const MAX: Quantity = Quantity(100000);

    // Price's twin, as are `in_range`, `quantities_ok` for `prices_ok`, and the reader in records. A trait of these short bodies is no plainer: it wants a
    // ghost for each range, and a law that ties it to 01's words price_ok, quantity_ok, prices_ok and quantities_ok.
    pub fn new(tenths: u32) -> Result<Quantity, Refusal>
        ensures { result ≡ quantity_read tenths }
    {
        let quantity = Quantity(tenths);
        if !quantity.in_range() {
            return Err(Refusal::NumberOutside);
        }
        Ok(quantity)
    }

    pub fn in_range(self) -> bool
        ensures { result ≡ quantity_ok self }
    {
        self <= Quantity::MAX
    }

    // 01's min and max, by std's of the derived order.
    pub fn lesser(self, other: Quantity) -> Quantity
        ensures { result.0 ≡ min self.0 other.0 }
    {
        self.min(other)
    }

    pub fn greater(self, other: Quantity) -> Quantity
        ensures { result.0 ≡ max self.0 other.0 }
    {
        self.max(other)
    }

    // max(0, self - other)
    pub fn above(self, other: Quantity) -> Quantity
        ensures { result.0 ≡ self.0 - other.0 }
    {
        Quantity(self.0.saturating_sub(other.0))
    }
}

impl CentsPerStart {
    pub const MAX: CentsPerStart = CentsPerStart(100000000);

    pub fn ticks(self) -> Ticks
        ensures { result.0 ≡ pos (self.0 * ticks_per_cent) }
    {
        Ticks((self.0 as i64) * (TICKS_PER_CENT as i64))
    }
}

impl CentsPerHour {
    pub const MAX: CentsPerHour = CentsPerHour(100000000);

    // A twelfth of the hour's.
    pub fn an_interval(self) -> Ticks
        ensures { result.0 ≡ pos (self.0 * noload_ticks) }
    {
        Ticks((self.0 as i64) * NOLOAD_TICKS)
    }
}

// That an amount is moderate stays a clause: a sum of two moderate ones need not be, so a type for them would ask for the same proof at each sum.
impl Ticks {
    pub(crate) fn plus(self, other: Ticks) -> Ticks
        requires self_moderate { Moderate self.0 }
        requires other_moderate { Moderate other.0 }
        ensures value { result.0 ≡ self.0 +ℤ other.0 }
        ensures within { nat_abs result.0 ≤ nat_abs self.0 + nat_abs other.0 }
    {
        Ticks(self.0 + other.0)
    }

    pub(crate) fn minus(self, other: Ticks) -> Ticks
        requires self_moderate { Moderate self.0 }
        requires other_moderate { Moderate other.0 }
        ensures value { result.0 ≡ self.0 -ℤ other.0 }
        ensures within { nat_abs result.0 ≤ nat_abs self.0 + nat_abs other.0 }
    {
        Ticks(self.0 - other.0)
    }

    // -min(0, self)
    pub(crate) fn deficit(self) -> Ticks
        requires { Moderate self.0 }
        ensures { result.0 ≡ neg_ℤ (minℤ (pos 0) self.0) }
    {
        Ticks((-self.0).max(0))
    }

    // Rounded half away from zero.
    pub fn cents(self) -> Cents
        ensures { result.0 ≡ cents_of self.0 }
    {
        let whole = ((self.0.unsigned_abs() + TICKS_PER_CENT / 2) / TICKS_PER_CENT) as i64;
        if self.0 < 0 {
            return Cents(-whole);
        }
        Cents(whole)
    }
}

impl Cents {
    // std's magnitude of the number that a printer wants.
    pub fn magnitude(self) -> u64
        ensures value { result ≡ nat_abs self.0 }
        ensures bounded { result ≤ 2 ^ 63 }
    {
        self.0.unsigned_abs()
    }
}

pub(crate) fn prices_ok(prices: [Price; INTERVALS]) -> bool
    ensures { result ≡ prices_ok prices }
{
    prices.iter().all(|p| p.in_range())
}

pub(crate) fn quantities_ok(qs: [Quantity; INTERVALS]) -> bool
    ensures { result ≡ quantities_ok qs }
{
    qs.iter().all(|q| q.in_range())
}

// No quantity lies beyond the last of a list.
pub fn within_ok(qs: [Quantity; INTERVALS], last: Quantity) -> bool
    ensures { result ≡ within_ok qs last.0 }
{
    qs.iter().all(|q| *q <= last)
}
