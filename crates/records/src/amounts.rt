// The amounts of a written record, at its hour's prices.
ghost use Rattle.std.specs.Prelude.{◌≡◌};
ghost use Rattle.money.specs.Answers.{answer_of, day_answer_of};
ghost use Rattle.records.specs.Answers.{told, input_of};
ghost use Rattle.records.specs.Amounts.{offset_answer, day_answer, credit_for, credit_in, unit_amount_in, charge_for, charge_in, entry_read, part_read, totals_read};

use crate::fields::{Field, Got};
use crate::layouts;
use crate::layouts::HourPrices;
use crate::marks::Mark;
use crate::views::{export_of, failure_of, fields_at, import_of, unit_of_hour};
use money::failure::{Failure, export_charge, import_charge};
use money::guarantee::hour_credit;
use money::imports::{IMPORTS_MAX, Import};
use money::offset::{offset_core, totals_with};
use money::production::{DayTotals, unit_day, unit_hour};
use money::refusals::Refusal;
use money::units::{CentsPerStart, HOURS, INTERVALS, Quantity, Ticks};

// ---- the amount of the record that bytes begin with, at its hour's prices; or the refusal that reading it gives

// Bytes and prices stay two parameters: they stand in two records, and a caller reads the prices once for many.

fn credit_for(i: layouts::Import, prices: HourPrices) -> Result<Ticks, Refusal>
    ensures { answer_of result ≡ credit_for i prices }
{
    hour_credit(i.offer, prices.emp, i.mqsi)
}

// The credit of an import.
pub fn import_credit(s: &[u8], prices: HourPrices) -> Result<Ticks, Refusal>
    ensures { answer_of result ≡ credit_in s.now prices }
{
    credit_for(import_of(s)?, prices)
}

// The amount of a unit's hour, without its start-up.
pub fn unit_amount(s: &[u8], prices: HourPrices) -> Result<Ticks, Refusal>
    ensures { answer_of result ≡ unit_amount_in s.now prices }
{
    unit_hour(unit_of_hour(s)?, prices.emp)
}

fn charge_for(mark: Mark, f: Failure, prices: HourPrices) -> Result<Ticks, Refusal>
    ensures { answer_of result ≡ charge_for mark f prices }
{
    match mark {
        Mark::Fi => import_charge(f, prices.pd),
        Mark::Fe => export_charge(f, prices.pd),
        Mark::Pr | Mark::Im | Mark::Ex | Mark::Gh => Err(Refusal::MarkUnknown),
    }
}

// The charge of a failed import (FI) or export (FE).
pub fn failure_charge(s: &[u8], mark: Mark, prices: HourPrices) -> Result<Ticks, Refusal>
    ensures { answer_of result ≡ charge_in mark s.now prices }
{
    charge_for(mark, failure_of(s, mark)?, prices)
}

// ---- what the offset and the day take of a record

// An import as the offset takes it.
pub fn offset_entry(s: &[u8], prices: HourPrices) -> Result<Import, Refusal>
    ensures { told result ≡ input_of (entry_read prices s.now) }
{
    let Got { value: name, next } = fields_at(s, Mark::Im)?;
    let Got { value: import, .. } = layouts::Import::read(s, next)?;
    let credit = credit_for(import, prices)?;
    let layouts::Import {
        mqsi: quantities,
        offer,
    } = import;
    Ok(Import {
        name,
        credit,
        quantities,
        offer,
    })
}

// What a unit's hour adds to its day: its amount, and its start-up.
#[derive(Clone, Copy, Default)]
pub struct UnitPart {
    pub ticks: Ticks,
    pub start: CentsPerStart,
}

// A unit's hour as its day takes it.
pub fn unit_part(s: &[u8], prices: HourPrices) -> Result<UnitPart, Refusal>
    ensures { told result ≡ input_of (part_read prices s.now) }
{
    let unit = unit_of_hour(s)?;
    let ticks = unit_hour(unit, prices.emp)?;
    Ok(UnitPart {
        ticks,
        start: unit.startup,
    })
}

// The export totals with those of one more export.
pub fn totals_with_export(
    s: &[u8],
    totals: [Quantity; INTERVALS],
) -> Result<[Quantity; INTERVALS], Refusal>
    ensures { told result ≡ input_of (totals_read totals s.now) }
{
    let export = export_of(s)?;
    Ok(totals_with(totals, export.mqsw))
}

// ---- what an hour and a day come to, from what the functions above give

// The offset of the first `count` entries.
pub fn hour_offset(
    count: u8,
    entries: [Import; IMPORTS_MAX],
    prices: HourPrices,
    totals: [Quantity; INTERVALS],
) -> Result<Ticks, Refusal>
    ensures { answer_of result ≡ offset_answer count entries prices.emp totals }
{
    offset_core(count, entries, prices.emp, totals)
}

// The day total and the reversal of 24 hours' amounts and start-ups.
pub fn day_of(ticks: [Ticks; HOURS], starts: [CentsPerStart; HOURS]) -> Result<DayTotals, Refusal>
    ensures { day_answer_of result ≡ day_answer ticks starts }
{
    unit_day(ticks, starts)
}
