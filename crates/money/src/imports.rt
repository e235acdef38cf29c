// The imports of an hour as the offset takes them: their order and their faults.
ghost use Rattle.std.specs.Prelude.{◌≡◌, ◌<◌, ◌≤◌};
ghost use Rattle.money.specs.Answers.{fault_in};
ghost use Rattle.money.specs.Offset.{max_imports, precedes, up_to, entry_fault, fresh_name, nth_fault, entries_fault};

use crate::guarantee::{HourPrices, credit_of};
use crate::names::{Name, name_ok, same_name};
use crate::offers::{GoodOffer, Offer, last_of};
use crate::refusals::Refusal;
use crate::units::{INTERVALS, Quantity, Ticks, quantities_ok, within_ok};

// The number of imports that an hour may have.
pub const IMPORTS_MAX: usize = 16;

// An hour's import, as the offset takes it.
#[derive(Clone, Copy, Default)]
pub struct Import {
    pub name: Name,
    pub credit: Ticks,
    pub quantities: [Quantity; INTERVALS],
    pub offer: Offer,
}

// Credit ascending, then name: 01's word for std's `<` of the two pairs.
fn comes_before(a: Import, b: Import) -> bool
    ensures { result ≡ precedes a b }
{
    (a.credit, a.name) < (b.credit, b.name)
}

// `a` precedes `e`, or is `e`. No derived `<=` says it: an entry is the same by its name, whatever its credit.
pub(crate) fn up_to(a: Import, e: Import) -> bool
    ensures { result ≡ up_to a e }
{
    comes_before(a, e) || same_name(a.name, e.name)
}

// Whether an entry by itself keeps its rules, or what is wrong with it first.
#[tactic(auto, unfolding(crate::specs::Offset::entry_fault))]
fn check_entry(e: Import, hour: HourPrices) -> Result<(), Refusal>
    ensures { fault_in result ≡ entry_fault hour.prices e }
{
    let o = e.offer;
    if !name_ok(e.name) {
        return Err(Refusal::NameFault);
    }
    if !quantities_ok(e.quantities) {
        return Err(Refusal::NumberOutside);
    }
    let good = GoodOffer::new(o)?;
    if !within_ok(e.quantities, last_of(o)) {
        return Err(Refusal::BeyondList);
    }
    if e.credit != credit_of(good, hour, e.quantities) {
        return Err(Refusal::NumberOutside);
    }
    Ok(())
}

// No entry before i has its name.
fn fresh(entries: &[Import; IMPORTS_MAX], i: usize) -> bool
    requires { i < max_imports }
    ensures { result ≡ fresh_name entries.now i }
{
    let name = entries[i].name;
    entries[..i].iter().all(|a| name != a.name)
}

// Whether entry i keeps its rules in its list, or what is wrong with it first.
fn check_nth(entries: &[Import; IMPORTS_MAX], hour: HourPrices, i: usize) -> Result<(), Refusal>
    requires { i < max_imports }
    ensures { fault_in result ≡ nth_fault hour.prices entries.now i }
{
    let e = entries[i];
    check_entry(e, hour)?;
    if !fresh(entries, i) {
        return Err(Refusal::KeyStands);
    }
    Ok(())
}

// Whether the first n entries keep their rules, or the first fault of them. A number and all places, as at `GoodImports`.
pub(crate) fn check_entries(
    n: usize,
    entries: &[Import; IMPORTS_MAX],
    hour: HourPrices,
) -> Result<(), Refusal>
    requires { n ≤ max_imports }
    ensures { fault_in result ≡ entries_fault n hour.prices entries.now }
{
    // By number: each entry is held against those before it.
    for i in 0..n {
        check_nth(entries, hour, i)?;
    }
    Ok(())
}
