// The wheel offset of an hour.
ghost use Rattle.std.specs.Prelude.{◌≡◌, ℕ, ◌<◌, ◌+◌, ◌-◌, min, ◌&&◌, length};
ghost use Rattle.laws.specs.Sums.{Σℕ};
ghost use Rattle.money.specs.Units.{intervals, quantity_at};
ghost use Rattle.money.specs.Answers.{answer_of};
ghost use Rattle.money.specs.Offset.{max_total, entry, mqsi, counted, offset, totals_with, rates_ok, offset_answer};
ghost use Rattle.money.specs.tables.Numbers.{Fits};
ghost use Rattle.money.specs.tables.Ready.{Listed};
ghost use Rattle.money.specs.tables.Taken.{start_of, add_of, finish_of};

use crate::guarantee::{HourPrices, credit_of};
use crate::imports::{IMPORTS_MAX, Import, check_entries, up_to};
use crate::offers::GoodOffer;
use crate::refusals::Refusal;
use crate::series::zip_series;
use crate::units::{INTERVALS, Price, Quantity, Ticks, prices_ok};

// What an hour's sixteen exports can come to.
pub const TOTAL_MAX: Quantity = Quantity(1600000);

// A total with one quantity more, no further than TOTAL_MAX + 1.
fn total_with(total: Quantity, more: Quantity) -> Quantity
    ensures { result.0 ≡ min (total.0 + more.0) (max_total + 1) }
{
    Quantity(total.0.saturating_add(more.0).min(TOTAL_MAX.0 + 1))
}

// Twelve totals, each with one quantity more. What would come to more than TOTAL_MAX is TOTAL_MAX + 1, which the offset refuses.
pub fn totals_with(
    totals: [Quantity; INTERVALS],
    more: [Quantity; INTERVALS],
) -> [Quantity; INTERVALS]
    ensures { result ≡ totals_with totals more }
{
    zip_series(totals, more, total_with)
}

// Two series of quantities, added up.
fn series_sum(a: [Quantity; INTERVALS], b: [Quantity; INTERVALS]) -> [Quantity; INTERVALS]
    requires { (k : ℕ) → k < intervals → Fits (quantity_at a k + quantity_at b k) }
    ensures { (k : ℕ) → k < intervals → quantity_at result k ≡ quantity_at a k + quantity_at b k }
{
    zip_series(a, b, |x, y| Quantity(x.0 + y.0))
}

// Sums with an import's quantities, if it precedes `e` or is `e`.
fn counted_in(sums: [Quantity; INTERVALS], a: &Import, e: &Import) -> [Quantity; INTERVALS]
    requires { (k : ℕ) → k < intervals → Fits (quantity_at sums k + mqsi a.now k) }
    ensures { (k : ℕ) → k < intervals → quantity_at result k ≡ quantity_at sums k + counted a.now e.now k }
{
    if up_to(*a, *e) {
        return series_sum(sums, a.quantities);
    }
    sums
}

// The first n entries, of which each keeps its rules, and the hour's prices: a view, so that their list is not copied. A number and all places, no slice: the
// definitions of the core count n entries of a list (`offset`, `reach`, `entries_fault`), and each promise would cut the list first.
#[derive(Clone, Copy)]
struct GoodImports<'a> {
    n: usize,
    entries: &'a [Import; IMPORTS_MAX],
    hour: HourPrices,
    ghost listed: { Listed n entries.now },
}

impl<'a> GoodImports<'a> {
    // For twelve intervals, the sum of the quantities up to and including an import.
    fn reach_series(self, e: &Import) -> [Quantity; INTERVALS]
        ensures { (k : ℕ) → k < intervals → quantity_at result k ≡ Σℕ self.entry.n (λ j. counted (entry self.entry.entries.now j) e.now k) }
    {
        let entries = self.entries;
        let mut sums = [Quantity(0); INTERVALS];
        for a in &entries[..self.n] {
            // By way of `next`: the borrow checker refuses `sums = counted_in(sums, a, e)` ("a call's result is laid in a local that .. holds .. an array").
            let next = counted_in(sums, a, e);
            sums = next;
        }
        sums
    }

    // The twelve adjusted quantities of an import.
    fn adj_series(self, totals: [Quantity; INTERVALS], e: &Import) -> [Quantity; INTERVALS]
        ensures { (k : ℕ) → k < intervals
            → quantity_at result k ≡ min (mqsi e.now k) (Σℕ self.entry.n (λ j. counted (entry self.entry.entries.now j) e.now k) - quantity_at totals k) }
    {
        let beyond = zip_series(self.reach_series(e), totals, Quantity::above);
        zip_series(e.quantities, beyond, Quantity::lesser)
    }

    // Their offset.
    fn offset(self, totals: [Quantity; INTERVALS]) -> Ticks
        ensures { result.0 ≡ offset self.entry.n self.entry.entries.now self.entry.hour.prices totals }
    {
        let entries = self.entries;
        let mut sum = Ticks(0);
        for e in &entries[..self.n] {
            let series = self.adj_series(totals, e);
            let good = GoodOffer { offer: e.offer };
            sum = sum.plus(e.credit.minus(credit_of(good, self.hour, series)));
        }
        sum
    }
}

// Prices and totals stay two: 01's call takes each by itself, and behind this test each goes its own way.
fn rates_ok(prices: [Price; INTERVALS], totals: [Quantity; INTERVALS]) -> bool
    ensures { result ≡ rates_ok prices totals }
{
    prices_ok(prices) && totals.iter().all(|t| *t <= TOTAL_MAX)
}

// The offset of the first `count` entries.
pub fn offset_core(
    count: u8,
    entries: [Import; IMPORTS_MAX],
    prices: [Price; INTERVALS],
    totals: [Quantity; INTERVALS],
) -> Result<Ticks, Refusal>
    ensures { answer_of result ≡ offset_answer count entries prices totals }
{
    let n = count as usize;
    if IMPORTS_MAX < n {
        return Err(Refusal::HourFull);
    }
    if !rates_ok(prices, totals) {
        return Err(Refusal::NumberOutside);
    }
    let hour = HourPrices { prices };
    check_entries(n, &entries, hour)?;
    let imports = GoodImports {
        n,
        entries: &entries,
        hour,
    };
    Ok(imports.offset(totals))
}

// The entries taken so far, beside the hour's prices and export totals. 01 names one thin function by hand over a core on arrays: what it takes one by one, and
// the theorem that the whole list is answered (`LentLaws.whole`), are of this struct.
#[derive(Clone, Copy)]
pub struct Taken {
    pub count: u8,
    pub prices: [Price; INTERVALS],
    pub totals: [Quantity; INTERVALS],
    pub entries: [Import; IMPORTS_MAX],
}

pub(crate) fn start(prices: [Price; INTERVALS], totals: [Quantity; INTERVALS]) -> Taken
    ensures { result ≡ start_of prices totals }
{
    let entries = [Import::default(); IMPORTS_MAX];
    Taken {
        count: 0,
        prices,
        totals,
        entries,
    }
}

// One entry more; one that has no place is only counted.
pub(crate) fn add(mut s: Taken, e: Import) -> Taken
    ensures { result ≡ add_of s e }
{
    let n = s.count as usize;
    if n < IMPORTS_MAX {
        s.entries[n] = e;
        s.count = s.count + 1;
        return s;
    }
    s.count = IMPORTS_MAX as u8 + 1;
    s
}

pub(crate) fn finish(s: Taken) -> Result<Ticks, Refusal>
    ensures { answer_of result ≡ finish_of s }
{
    let entries = s.entries;
    let prices = s.prices;
    let totals = s.totals;
    offset_core(s.count, entries, prices, totals)
}

// The offset of one hour's imports, a lent list of whole entries in any order. Each entry goes by value to the core above.
pub fn offset(
    entries: &[Import],
    prices: [Price; INTERVALS],
    totals: [Quantity; INTERVALS],
) -> Result<Ticks, Refusal>
    ensures { answer_of result ≡ offset_answer (length entries.now) entries.now prices totals }
{
    let mut t = start(prices, totals);
    for e in entries {
        t = add(t, *e);
    }
    finish(t)
}
