// The intertie offer guarantee: an import's credit for an hour.
ghost use Rattle.std.specs.Prelude.{◌≡◌, ℕ, ◌<◌, ◌≤◌, nat_abs};
ghost use Rattle.money.specs.Units.{intervals, quantity_at};
ghost use Rattle.money.specs.Answers.{answer_of};
ghost use Rattle.money.specs.Offers.{last_q};
ghost use Rattle.money.specs.Guarantee.{profits, credit, credit_answer};
ghost use Rattle.money.specs.tables.Ready.{Rates};

use crate::offers::{GoodOffer, Offer, last_of};
use crate::refusals::Refusal;
use crate::units::{INTERVALS, Price, Quantity, Ticks, prices_ok, quantities_ok, within_ok};

// An hour's prices, each in its range.
#[derive(Clone, Copy)]
pub(crate) struct HourPrices {
    pub(crate) prices: [Price; INTERVALS],
    ghost rates: { Rates prices },
}

// The profits of twelve intervals. The walk over the pairs stops at the first one that reaches the quantity; what the pairs before it cost is known.
pub(crate) fn profit_sum(good: GoodOffer, hour: HourPrices, qs: [Quantity; INTERVALS]) -> Ticks
    requires { (k : ℕ) → k < intervals → quantity_at qs k ≤ last_q good.offer }
    ensures value { result.0 ≡ profits good.offer hour.prices (quantity_at qs) }
    ensures bounded { nat_abs result.0 ≤ 5280000000000 }
{
    let costs = good.costs_before();
    let o = good.offer;
    let mut sum = Ticks(0);
    // The specification's form: the walk in an interval yields its cost by a break.
    'intervals: for (p, q) in hour.prices.iter().zip(&qs) {
        let mut last = Quantity(0);
        let mut i: usize = 0;
        let cost = 'pairs: loop {
            let w = o.quantities[i];
            if *q <= w {
                break costs[i].plus(o.prices[i].between(last, *q));
            }
            last = w;
            i += 1;
        };
        sum = sum.plus(p.for_quantity(*q).minus(cost));
    }
    sum
}

pub(crate) fn credit_of(good: GoodOffer, hour: HourPrices, qs: [Quantity; INTERVALS]) -> Ticks
    requires { (k : ℕ) → k < intervals → quantity_at qs k ≤ last_q good.offer }
    ensures { result.0 ≡ credit good.offer hour.prices (quantity_at qs) }
{
    profit_sum(good, hour, qs).deficit()
}

// An import's credit for an hour.
#[tactic(auto, unfolding(crate::specs::Guarantee::credit_answer))]
pub fn hour_credit(
    o: Offer,
    prices: [Price; INTERVALS],
    qs: [Quantity; INTERVALS],
) -> Result<Ticks, Refusal>
    ensures { answer_of result ≡ credit_answer o prices qs }
{
    if !prices_ok(prices) || !quantities_ok(qs) {
        return Err(Refusal::NumberOutside);
    }
    let hour = HourPrices { prices };
    let good = GoodOffer::new(o)?;
    if !within_ok(qs, last_of(o)) {
        return Err(Refusal::BeyondList);
    }
    Ok(credit_of(good, hour, qs))
}
