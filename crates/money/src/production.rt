// The production cost guarantee: a unit's hour and its day.
ghost use Rattle.std.specs.Prelude.{◌≡◌, ℕ, ◌<◌, ◌≤◌, min, nat_abs, ltb, IfOk};
ghost use Rattle.laws.specs.Sums.{Σℤ};
ghost use Rattle.money.specs.Units.{intervals, quantity_at, unless};
ghost use Rattle.money.specs.Answers.{answer_of, day_answer_of, fault_in};
ghost use Rattle.money.specs.Refusals.{number_outside};
ghost use Rattle.money.specs.Production.{reserve_net, S, C1, C2, C3, C4, hour_amount, reserve_fault, reserve_numbers_ok, reserves_numbers_ok, numbers_fine, lists_fault, within_fine, unit_fault, component1_answer, component2_answer, component3_answer, component4_answer, hour_answer, amount_ok, hours_ok, day_sum, day_answer};
ghost use Rattle.money.specs.tables.Numbers.{Moderate, running};
ghost use Rattle.money.specs.tables.Ready.{Usable, UnitReady, DayReady};

use crate::guarantee::{HourPrices, profit_sum};
use crate::offers::{GoodOffer, Offer, check_offer, last_of};
use crate::refusals::Refusal;
use crate::series::zip_series;
use crate::units::{
    CentsPerHour, CentsPerStart, HOURS, INTERVALS, Price, Quantity, Ticks, prices_ok,
    quantities_ok, within_ok,
};

// A kind of operating reserve in an hour: prices, unconstrained schedules, and the list offered, which may be empty.
// Two series, no array of pairs: 01 gives them apart, and each is tested, cut and summed by itself.
#[derive(Clone, Copy)]
pub struct Reserve {
    pub prices: [Price; INTERVALS],
    pub schedules: [Quantity; INTERVALS],
    pub offer: Offer,
}

// A unit's hour. The schedules are 01's D, R, U, A and K; the offers its DA and RT.
#[derive(Clone, Copy)]
pub struct UnitHour {
    pub startup: CentsPerStart,
    pub noload: CentsPerHour,
    pub ahead: [Quantity; INTERVALS],
    pub constrained: [Quantity; INTERVALS],
    pub unconstrained: [Quantity; INTERVALS],
    pub metered: [Quantity; INTERVALS],
    pub capacity: [Quantity; INTERVALS],
    pub spinning: Reserve,
    pub nonspinning: Reserve,
    pub thirty: Reserve,
    pub aheadoffer: Offer,
    pub realoffer: Offer,
}

// A unit's day total and its reversal.
#[derive(Clone, Copy)]
pub struct DayTotals {
    pub total: Ticks,
    pub reversal: Ticks,
}

// ---- the checks

// The numbers of a reserve.
fn reserve_numbers_ok(s: Reserve) -> bool
    ensures { result ≡ reserve_numbers_ok s }
{
    prices_ok(s.prices) && quantities_ok(s.schedules)
}

#[tactic(auto, unfolding(crate::specs::Production::reserves_numbers_ok))]
fn reserves_numbers_ok(h: &UnitHour) -> bool
    ensures { result ≡ reserves_numbers_ok h.now }
{
    reserve_numbers_ok(h.spinning)
        && reserve_numbers_ok(h.nonspinning)
        && reserve_numbers_ok(h.thirty)
}

// The numbers of an hour, before its lists.
#[tactic(auto, unfolding(crate::specs::Production::numbers_fine))]
fn numbers_fine(h: &UnitHour) -> bool
    ensures { result ≡ numbers_fine h.now }
{
    h.startup <= CentsPerStart::MAX
        && h.noload <= CentsPerHour::MAX
        && quantities_ok(h.ahead)
        && quantities_ok(h.constrained)
        && quantities_ok(h.unconstrained)
        && quantities_ok(h.metered)
        && quantities_ok(h.capacity)
        && reserves_numbers_ok(h)
}

// Whether a reserve's list keeps its rule: it may be empty where nothing is scheduled.
#[tactic(auto, unfolding(crate::specs::Production::reserve_fault))]
fn check_reserve(s: Reserve) -> Result<(), Refusal>
    ensures { fault_in result ≡ reserve_fault s }
{
    if s.offer.count < 1 && within_ok(s.schedules, Quantity(0)) {
        return Ok(());
    }
    check_offer(s.offer)
}

// Whether the five lists keep their rules, or the first fault of them.
#[tactic(auto, unfolding(crate::specs::Production::lists_fault))]
fn check_lists(h: &UnitHour) -> Result<(), Refusal>
    ensures { fault_in result ≡ lists_fault h.now }
{
    check_offer(h.aheadoffer)?;
    check_offer(h.realoffer)?;
    check_reserve(h.spinning)?;
    check_reserve(h.nonspinning)?;
    check_reserve(h.thirty)
}

// Each schedule within its list.
#[tactic(auto, unfolding(crate::specs::Production::within_fine))]
fn within_fine(h: &UnitHour) -> bool
    ensures { result ≡ within_fine h.now }
{
    within_ok(h.ahead, last_of(h.aheadoffer))
        && within_ok(h.ahead, last_of(h.realoffer))
        && within_ok(h.spinning.schedules, last_of(h.spinning.offer))
        && within_ok(h.nonspinning.schedules, last_of(h.nonspinning.offer))
        && within_ok(h.thirty.schedules, last_of(h.thirty.offer))
}

// ---- what passed them

// An interval of an hour, counted from 0.
#[derive(Clone, Copy)]
struct Interval {
    k: usize,
    ghost k_in: { k < intervals },
}

impl Interval {
    fn new(k: usize) -> Result<Interval, Refusal>
        ensures fault { fault_in result ≡ unless (ltb k intervals) number_outside 0 }
        ensures kept { IfOk result (λ i. i.k ≡ k) }
    {
        if INTERVALS <= k {
            return Err(Refusal::NumberOutside);
        }
        Ok(Interval { k })
    }
}

// A reserve whose list keeps its rule, or is empty where nothing is scheduled.
#[derive(Clone, Copy)]
struct UsableReserve<'a> {
    reserve: &'a Reserve,
    ghost usable: { Usable reserve.now },
}

impl<'a> UsableReserve<'a> {
    // Price × q - cost(q) in an interval, of as much of the schedule as is left; nothing for nothing, of an empty list too.
    fn net(self, i: Interval, left: Quantity) -> Ticks
        ensures value { result.0 ≡ reserve_net self.entry.reserve.now i.k (min left.0 (S self.entry.reserve.now i.k)) }
        ensures bounded { nat_abs result.0 ≤ 440000000000 }
    {
        let s = self.reserve;
        let q = left.lesser(s.schedules[i.k]);
        if q.0 < 1 {
            return Ticks(0);
        }
        let good = GoodOffer { offer: s.offer };
        s.prices[i.k].for_quantity(q).minus(good.cost_of(q))
    }

    // The same of the twelve intervals.
    fn net_sum(self, left: [Quantity; INTERVALS]) -> Ticks
        ensures value { result.0 ≡ Σℤ intervals (λ (k : ℕ). reserve_net self.entry.reserve.now k (min (quantity_at left k) (S self.entry.reserve.now k))) }
        ensures bounded { nat_abs result.0 ≤ 5280000000000 }
    {
        let s = self.reserve;
        if s.offer.count < 1 {
            return Ticks(0);
        }
        let good = GoodOffer { offer: s.offer };
        profit_sum(
            good,
            HourPrices { prices: s.prices },
            zip_series(left, s.schedules, Quantity::lesser),
        )
    }
}

// A unit's hour and its prices, which keep their rules. It is a view of the two, so that no hour is copied to pass its checks.
#[derive(Clone, Copy)]
struct ReadyHour<'a> {
    hour: &'a UnitHour,
    prices: &'a [Price; INTERVALS],
    ghost ready: { UnitReady hour.now prices.now },
}

impl<'a> ReadyHour<'a> {
    #[tactic(auto, unfolding(crate::specs::Production::unit_fault))]
    fn new(h: &'a UnitHour, prices: &'a [Price; INTERVALS]) -> Result<ReadyHour<'a>, Refusal>
        ensures fault { fault_in result ≡ unit_fault h.now prices.now }
        ensures hour_kept { IfOk result (λ r. r.hour.now ≡ h.now) }
        ensures prices_kept { IfOk result (λ r. r.prices.now ≡ prices.now) }
    {
        if !prices_ok(*prices) || !numbers_fine(h) {
            return Err(Refusal::NumberOutside);
        }
        check_lists(h)?;
        if !within_fine(h) {
            return Err(Refusal::BeyondList);
        }
        Ok(ReadyHour { hour: h, prices })
    }

    // ---- the components of an interval

    // C1, of the lesser of D, R and A.
    fn c1(self, i: Interval) -> Ticks
        ensures { result.0 ≡ C1 self.entry.hour.now self.entry.prices.now i.k }
    {
        let h = self.hour;
        let emp = self.prices[i.k];
        let da = GoodOffer {
            offer: h.aheadoffer,
        };
        let m = h.ahead[i.k].lesser(h.constrained[i.k].lesser(h.metered[i.k]));
        let loss = da.cost_of(m).minus(emp.for_quantity(m));
        loss.plus(running_at(h.noload, m))
    }

    // C2, between the lesser of D and K and what was dispatched or delivered of it.
    fn c2(self, i: Interval) -> Ticks
        ensures { result.0 ≡ C2 self.entry.hour.now self.entry.prices.now i.k }
    {
        let h = self.hour;
        let da = GoodOffer {
            offer: h.aheadoffer,
        };
        let rt = GoodOffer { offer: h.realoffer };
        let to = h.ahead[i.k].lesser(h.capacity[i.k]);
        let from = to.lesser(h.constrained[i.k].greater(h.metered[i.k]));
        let ahead = da.cost_of(to).minus(da.cost_of(from));
        let real = rt.cost_of(to).minus(rt.cost_of(from));
        ahead.minus(real)
    }

    // C3, between U and R as far as D goes.
    fn c3(self, i: Interval) -> Ticks
        ensures { result.0 ≡ C3 self.entry.hour.now self.entry.prices.now i.k }
    {
        let h = self.hour;
        let emp = self.prices[i.k];
        let rt = GoodOffer { offer: h.realoffer };
        let to = h.constrained[i.k].lesser(h.ahead[i.k]);
        let from = h.unconstrained[i.k].lesser(h.ahead[i.k]);
        let spent = rt.cost_of(to).minus(emp.for_quantity(to));
        let saved = rt.cost_of(from).minus(emp.for_quantity(from));
        spent.minus(saved)
    }

    // C4, of what is left of D above U for each reserve in turn.
    fn c4(self, i: Interval) -> Ticks
        ensures { result.0 ≡ C4 self.entry.hour.now self.entry.prices.now i.k }
    {
        let h = self.hour;
        let r1 = UsableReserve {
            reserve: &h.spinning,
        };
        let r2 = UsableReserve {
            reserve: &h.nonspinning,
        };
        let r3 = UsableReserve { reserve: &h.thirty };
        let left1 = h.ahead[i.k].above(h.unconstrained[i.k]);
        let left2 = left1.above(r1.reserve.schedules[i.k]);
        let left3 = left2.above(r2.reserve.schedules[i.k]);
        let one = r1.net(i, left1);
        let two = r2.net(i, left2);
        let three = r3.net(i, left3);
        one.plus(two).plus(three)
    }

    // ---- twelve intervals at a time: each list is walked in one call, not in each interval

    // The speed no-load of the intervals in which something is delivered.
    fn noload_sum(self, m: [Quantity; INTERVALS]) -> Ticks
        ensures value { result.0 ≡ Σℤ intervals (λ (k : ℕ). running self.entry.hour.now.noload.0 (quantity_at m k)) }
        ensures bounded { nat_abs result.0 ≤ 12000000000 }
    {
        let noload = self.hour.noload;
        let mut sum = Ticks(0);
        for q in &m {
            sum = sum.plus(running_at(noload, *q));
        }
        sum
    }

    // C1 of the twelve.
    fn sum_1(self) -> Ticks
        ensures value { result.0 ≡ Σℤ intervals (C1 self.entry.hour.now self.entry.prices.now) }
        ensures bounded { nat_abs result.0 ≤ 24000000000000 }
    {
        let h = self.hour;
        let prices = HourPrices {
            prices: *self.prices,
        };
        let da = GoodOffer {
            offer: h.aheadoffer,
        };
        let ra = zip_series(h.constrained, h.metered, Quantity::lesser);
        let m = zip_series(h.ahead, ra, Quantity::lesser);
        self.noload_sum(m).minus(profit_sum(da, prices, m))
    }

    // C2 of the twelve. At any prices it is what the profits differ by.
    fn sum_2(self) -> Ticks
        ensures value { result.0 ≡ Σℤ intervals (C2 self.entry.hour.now self.entry.prices.now) }
        ensures bounded { nat_abs result.0 ≤ 24000000000000 }
    {
        let h = self.hour;
        let prices = HourPrices {
            prices: *self.prices,
        };
        let da = GoodOffer {
            offer: h.aheadoffer,
        };
        let rt = GoodOffer { offer: h.realoffer };
        let to = zip_series(h.ahead, h.capacity, Quantity::lesser);
        let ra = zip_series(h.constrained, h.metered, Quantity::greater);
        let from = zip_series(to, ra, Quantity::lesser);
        let ahead = profit_sum(da, prices, from).minus(profit_sum(da, prices, to));
        let real = profit_sum(rt, prices, from).minus(profit_sum(rt, prices, to));
        ahead.minus(real)
    }

    // C3 of the twelve.
    fn sum_3(self) -> Ticks
        ensures value { result.0 ≡ Σℤ intervals (C3 self.entry.hour.now self.entry.prices.now) }
        ensures bounded { nat_abs result.0 ≤ 24000000000000 }
    {
        let h = self.hour;
        let prices = HourPrices {
            prices: *self.prices,
        };
        let rt = GoodOffer { offer: h.realoffer };
        let to = zip_series(h.constrained, h.ahead, Quantity::lesser);
        let from = zip_series(h.unconstrained, h.ahead, Quantity::lesser);
        profit_sum(rt, prices, from).minus(profit_sum(rt, prices, to))
    }

    // C4 of the twelve.
    fn sum_4(self) -> Ticks
        ensures value { result.0 ≡ Σℤ intervals (C4 self.entry.hour.now self.entry.prices.now) }
        ensures bounded { nat_abs result.0 ≤ 24000000000000 }
    {
        let h = self.hour;
        let r1 = UsableReserve {
            reserve: &h.spinning,
        };
        let r2 = UsableReserve {
            reserve: &h.nonspinning,
        };
        let r3 = UsableReserve { reserve: &h.thirty };
        let left1 = zip_series(h.ahead, h.unconstrained, Quantity::above);
        let left2 = zip_series(left1, h.spinning.schedules, Quantity::above);
        let left3 = zip_series(left2, h.nonspinning.schedules, Quantity::above);
        let one = r1.net_sum(left1);
        let two = r2.net_sum(left2);
        let three = r3.net_sum(left3);
        one.plus(two).plus(three)
    }

    // The sum of the twelve intervals.
    fn amount(self) -> Ticks
        ensures { result.0 ≡ hour_amount self.entry.hour.now self.entry.prices.now }
    {
        let x1 = self.sum_1();
        let x2 = self.sum_2();
        let x3 = self.sum_3();
        let x4 = self.sum_4();
        x1.plus(x2).minus(x3.plus(x4))
    }
}

// An interval's speed no-load, where something is delivered.
fn running_at(noload: CentsPerHour, m: Quantity) -> Ticks
    ensures { result.0 ≡ running noload.0 m.0 }
{
    if m.0 < 1 {
        return Ticks(0);
    }
    noload.an_interval()
}

// ---- the four components of an interval, counted from 0

// What they take is bare, as a caller has it; what passed the checks is a `ReadyHour` and an `Interval`. Each is two lines: one function that took a method
// of `ReadyHour` would need the same four to state what they promise.

#[tactic(auto, unfolding(crate::specs::Production::interval_fault))]
pub fn component_1(h: UnitHour, prices: [Price; INTERVALS], k: usize) -> Result<Ticks, Refusal>
    ensures { answer_of result ≡ component1_answer h prices k }
{
    let ready = ReadyHour::new(&h, &prices)?;
    Ok(ready.c1(Interval::new(k)?))
}

#[tactic(auto, unfolding(crate::specs::Production::interval_fault))]
pub fn component_2(h: UnitHour, prices: [Price; INTERVALS], k: usize) -> Result<Ticks, Refusal>
    ensures { answer_of result ≡ component2_answer h prices k }
{
    let ready = ReadyHour::new(&h, &prices)?;
    Ok(ready.c2(Interval::new(k)?))
}

#[tactic(auto, unfolding(crate::specs::Production::interval_fault))]
pub fn component_3(h: UnitHour, prices: [Price; INTERVALS], k: usize) -> Result<Ticks, Refusal>
    ensures { answer_of result ≡ component3_answer h prices k }
{
    let ready = ReadyHour::new(&h, &prices)?;
    Ok(ready.c3(Interval::new(k)?))
}

#[tactic(auto, unfolding(crate::specs::Production::interval_fault))]
pub fn component_4(h: UnitHour, prices: [Price; INTERVALS], k: usize) -> Result<Ticks, Refusal>
    ensures { answer_of result ≡ component4_answer h prices k }
{
    let ready = ReadyHour::new(&h, &prices)?;
    Ok(ready.c4(Interval::new(k)?))
}

// ---- an hour and a day

// The amount of a unit's hour without its start-up.
#[tactic(auto, unfolding(crate::specs::Production::hour_answer))]
pub fn unit_hour(h: UnitHour, prices: [Price; INTERVALS]) -> Result<Ticks, Refusal>
    ensures { answer_of result ≡ hour_answer h prices }
{
    Ok(ReadyHour::new(&h, &prices)?.amount())
}

// No hour comes to more, either way.
pub const HOUR_MAX: Ticks = Ticks(100000000000000);

fn hour_ok(amount: Ticks, start: CentsPerStart) -> bool
    ensures { result ≡ amount_ok amount start }
{
    -HOUR_MAX.0 <= amount.0 && amount <= HOUR_MAX && start <= CentsPerStart::MAX
}

// 24 hours' amounts and start-ups, each within its limit. Two series and no pairs: a day's definition and its laws are over two (`day_answer`, `day_sum`), and
// each promise would take pairs apart.
#[derive(Clone, Copy)]
struct ReadyDay<'a> {
    amounts: &'a [Ticks; HOURS],
    starts: &'a [CentsPerStart; HOURS],
    ghost ready: { DayReady amounts.now starts.now },
}

impl<'a> ReadyDay<'a> {
    fn new(
        amounts: &'a [Ticks; HOURS],
        starts: &'a [CentsPerStart; HOURS],
    ) -> Result<ReadyDay<'a>, Refusal>
        ensures fault { fault_in result ≡ unless (hours_ok amounts.now starts.now) number_outside 0 }
        ensures amounts_kept { IfOk result (λ d. d.amounts.now ≡ amounts.now) }
        ensures starts_kept { IfOk result (λ d. d.starts.now ≡ starts.now) }
    {
        if !amounts.iter().zip(starts).all(|(a, s)| hour_ok(*a, *s)) {
            return Err(Refusal::NumberOutside);
        }
        Ok(ReadyDay { amounts, starts })
    }

    fn total(self) -> Ticks
        ensures value { result.0 ≡ day_sum self.entry.amounts.now self.entry.starts.now }
        ensures moderate { Moderate result.0 }
    {
        let ReadyDay { amounts, starts } = self;
        let mut sum = Ticks(0);
        for (a, s) in amounts.iter().zip(starts) {
            sum = sum.plus(a.plus(s.ticks()));
        }
        sum
    }
}

// The day total and its reversal of 24 hours' amounts and start-ups, both 0 where the unit has no hour.
#[tactic(auto, unfolding(crate::specs::Production::day_answer))]
pub fn unit_day(
    amounts: [Ticks; HOURS],
    starts: [CentsPerStart; HOURS],
) -> Result<DayTotals, Refusal>
    ensures { day_answer_of result ≡ day_answer amounts starts }
{
    let total = ReadyDay::new(&amounts, &starts)?.total();
    let reversal = total.deficit();
    Ok(DayTotals { total, reversal })
}
