// Offers: pairs of a price and a quantity, their rule, and what a quantity costs.
ghost use Rattle.std.specs.Prelude.{◌≡◌, ℕ, ◌≤◌, ◌<◌, ◌&&◌, nat_abs, IfOk};
ghost use Rattle.laws.specs.Sums.{Σℤ};
ghost use Rattle.money.specs.Units.{price_ok, quantity_ok};
ghost use Rattle.money.specs.Answers.{answer_of, fault_in};
ghost use Rattle.money.specs.Offers.{max_pairs, numbers_ok, rises, order_ok, offer_fault, last_q, piece, cost, cost_answer};
ghost use Rattle.money.specs.tables.Numbers.{ticks_at};
ghost use Rattle.money.specs.tables.Ready.{Good};

use crate::refusals::Refusal;
use crate::units::{Price, Quantity, Ticks};

// The number of pairs that an offer may have.
pub const PAIRS_MAX: usize = 20;

// A count, and places for twenty pairs of a price and a quantity: the form that 01 names, by value.
#[derive(Clone, Copy, Default)]
pub struct Offer {
    pub count: u8,
    pub prices: [Price; PAIRS_MAX],
    pub quantities: [Quantity; PAIRS_MAX],
}

fn pair_ok(p: Price, q: Quantity) -> bool
    ensures { result ≡ (price_ok p && quantity_ok q) }
{
    p.in_range() && q.in_range()
}

// The numbers of an offer's pairs are in range.
fn numbers_ok(o: &Offer) -> bool
    requires { o.now.count ≤ max_pairs }
    ensures { result ≡ numbers_ok o.now }
{
    let n = o.count as usize;
    o.prices[..n]
        .iter()
        .zip(&o.quantities[..n])
        .all(|(p, q)| pair_ok(*p, *q))
}

fn pair_rises(p: Price, next: Price, q: Quantity, other: Quantity) -> bool
    ensures { result ≡ rises p next q other }
{
    p <= next && q < other
}

// P never falls, and Q rises strictly from above 0.
fn order_ok(o: &Offer) -> bool
    requires not_empty { 1 ≤ o.now.count }
    requires count_in { o.now.count ≤ max_pairs }
    ensures { result ≡ order_ok o.now }
{
    let first = o.quantities[0];
    if first.0 < 1 {
        return false;
    }
    let n = o.count as usize;
    let prices = o.prices[..n - 1].iter().zip(&o.prices[1..n]);
    let quantities = o.quantities[..n - 1].iter().zip(&o.quantities[1..n]);
    prices.zip(quantities).all(|((p, next), (q, other))| pair_rises(*p, *next, *q, *other))
}

// Whether an offer keeps its rule, or what is wrong with it first.
#[tactic(auto, unfolding(crate::specs::Offers::offer_fault))]
pub fn check_offer(o: Offer) -> Result<(), Refusal>
    ensures { fault_in result ≡ offer_fault o }
{
    let n = o.count as usize;
    if n < 1 || PAIRS_MAX < n {
        return Err(Refusal::ListFault);
    }
    if !numbers_ok(&o) {
        return Err(Refusal::NumberOutside);
    }
    if !order_ok(&o) {
        return Err(Refusal::ListFault);
    }
    Ok(())
}

// The quantity of the last pair, 0 where no pair is.
pub fn last_of(o: Offer) -> Quantity
    ensures { result.0 ≡ last_q o }
{
    let n = o.count as usize;
    if n < 1 || PAIRS_MAX < n {
        return Quantity(0);
    }
    o.quantities[n - 1]
}

// An offer that keeps its rule.
#[derive(Clone, Copy)]
pub(crate) struct GoodOffer {
    pub(crate) offer: Offer,
    ghost good: { Good offer },
}

impl GoodOffer {
    pub(crate) fn new(o: Offer) -> Result<GoodOffer, Refusal>
        ensures fault { fault_in result ≡ offer_fault o }
        ensures kept { IfOk result (λ g. g.offer ≡ o) }
    {
        check_offer(o)?;
        Ok(GoodOffer { offer: o })
    }

    // The cost of a quantity within the offer.
    pub(crate) fn cost_of(self, q: Quantity) -> Ticks
        requires { q.0 ≤ last_q self.offer }
        ensures value { result.0 ≡ cost self.offer q.0 }
        ensures bounded { nat_abs result.0 ≤ 420000000000 }
    {
        let o = self.offer;
        let mut acc = Ticks(0);
        let mut last = Quantity(0);
        let mut i: usize = 0;
        // The specification's form: a walk that yields the cost by a break.
        'pairs: loop {
            let p = o.prices[i];
            let w = o.quantities[i];
            if q <= w {
                break acc.plus(p.between(last, q));
            }
            acc = acc.plus(p.between(last, w));
            last = w;
            i += 1;
        }
    }

    // For each pair, what the pairs before it cost together.
    pub(crate) fn costs_before(self) -> [Ticks; PAIRS_MAX]
        ensures { (i : ℕ) → i < self.offer.count → ticks_at result i ≡ Σℤ i (piece self.offer) }
    {
        let o = self.offer;
        let mut costs = [Ticks(0); PAIRS_MAX];
        let mut acc = Ticks(0);
        let mut last = Quantity(0);
        // By number: with `iter_mut` of the costs zipped with the pairs, the proof lacks what the slice of costs ends as; std tells it of no adapter.
        for i in 0..o.count as usize {
            costs[i] = acc;
            let w = o.quantities[i];
            acc = acc.plus(o.prices[i].between(last, w));
            last = w;
        }
        costs
    }
}

// The cost of a quantity.
#[tactic(auto, unfolding(crate::specs::Offers::cost_answer))]
pub fn cost_at(o: Offer, q: Quantity) -> Result<Ticks, Refusal>
    ensures { answer_of result ≡ cost_answer o q }
{
    if !q.in_range() {
        return Err(Refusal::NumberOutside);
    }
    let good = GoodOffer::new(o)?;
    if last_of(o) < q {
        return Err(Refusal::BeyondList);
    }
    Ok(good.cost_of(q))
}
