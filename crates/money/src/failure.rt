// Failure charges: of an import and of an export.
ghost use Rattle.std.specs.Prelude.{◌≡◌, ◌≤◌, true, pos, nat_abs, ◌-ℤ◌, ◌*ℤ◌, IfOk};
ghost use Rattle.laws.specs.Ints.{minℤ, maxℤ};
ghost use Rattle.money.specs.Units.{intervals, max_gap, unless};
ghost use Rattle.money.specs.Answers.{answer_of, fault_in};
ghost use Rattle.money.specs.Refusals.{number_outside};
ghost use Rattle.money.specs.Failure.{dev, failure_ok, import_charge, export_charge, import_charge_answer, export_charge_answer};

use crate::refusals::Refusal;
use crate::units::{Price, PriceGap, Quantity, Ticks};

// A failed import or export of an hour: the quantities scheduled, and the prices offered or bid, day-ahead and in pre-dispatch.
#[derive(Clone, Copy)]
pub struct Failure {
    pub day_ahead_quantity: Quantity,
    pub pre_dispatch_quantity: Quantity,
    pub day_ahead_price: Price,
    pub pre_dispatch_price: Price,
}

// max(0, high - low)
fn gap(high: Price, low: Price) -> PriceGap
    requires high_in { nat_abs high.0 ≤ 200000 }
    requires low_in { nat_abs low.0 ≤ 200000 }
    ensures { result.0 ≡ maxℤ (pos 0) (high.0 -ℤ low.0) }
{
    PriceGap((high.0 - low.0).max(0))
}

// The lesser of two gaps, for a quantity over a whole hour.
fn charge_of(a: PriceGap, b: PriceGap, dev: Quantity) -> Ticks
    requires a_in { nat_abs a.0 ≤ max_gap }
    requires b_in { nat_abs b.0 ≤ max_gap }
    requires dev_in { dev.0 ≤ 100000 }
    ensures { result.0 ≡ minℤ a.0 b.0 *ℤ pos dev.0 *ℤ pos intervals }
{
    a.lesser(b).for_an_hour(dev)
}

impl Failure {
    #[tactic(auto, unfolding(crate::specs::Failure::failure_ok))]
    fn in_range(self, pd: Price) -> bool
        ensures { result ≡ failure_ok self pd }
    {
        pd.in_range()
            && self.day_ahead_quantity.in_range()
            && self.pre_dispatch_quantity.in_range()
            && self.day_ahead_price.in_range()
            && self.pre_dispatch_price.in_range()
    }

    // max(0, day-ahead - pre-dispatch)
    fn dev(self) -> Quantity
        ensures { result.0 ≡ dev self }
    {
        self.day_ahead_quantity.above(self.pre_dispatch_quantity)
    }
}

// A failure and its hour's pre-dispatch price, all in range.
#[derive(Clone, Copy)]
struct GoodFailure {
    failure: Failure,
    pd: Price,
    ghost good: { failure_ok failure pd ≡ true },
}

impl GoodFailure {
    fn new(failure: Failure, pd: Price) -> Result<GoodFailure, Refusal>
        ensures fault { fault_in result ≡ unless (failure_ok failure pd) number_outside 0 }
        ensures failure_kept { IfOk result (λ g. g.failure ≡ failure) }
        ensures price_kept { IfOk result (λ g. g.pd ≡ pd) }
    {
        if !failure.in_range(pd) {
            return Err(Refusal::NumberOutside);
        }
        Ok(GoodFailure { failure, pd })
    }

    // The two differ in which price each gap begins with, as 01's two formulas do: a function of both would take the order as a closure.
    fn of_import(self) -> Ticks
        ensures { result.0 ≡ import_charge self.failure self.pd }
    {
        let f = self.failure;
        let day_ahead = f.day_ahead_price;
        let market = gap(self.pd, day_ahead);
        charge_of(market, gap(f.pre_dispatch_price, day_ahead), f.dev())
    }

    fn of_export(self) -> Ticks
        ensures { result.0 ≡ export_charge self.failure self.pd }
    {
        let f = self.failure;
        let day_ahead = f.day_ahead_price;
        let market = gap(day_ahead, self.pd);
        charge_of(market, gap(day_ahead, f.pre_dispatch_price), f.dev())
    }
}

// The charge for a failed import at the hour's pre-dispatch price.
pub fn import_charge(f: Failure, pd: Price) -> Result<Ticks, Refusal>
    ensures { answer_of result ≡ import_charge_answer f pd }
{
    Ok(GoodFailure::new(f, pd)?.of_import())
}

// The charge for a failed export at the hour's pre-dispatch price.
pub fn export_charge(f: Failure, pd: Price) -> Result<Ticks, Refusal>
    ensures { answer_of result ≡ export_charge_answer f pd }
{
    Ok(GoodFailure::new(f, pd)?.of_export())
}
