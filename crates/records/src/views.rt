// The fields of a written record as the money rules take them.
ghost use Rattle.std.specs.Prelude.{◌≡◌};
ghost use Rattle.records.specs.Answers.{told, input_of};
ghost use Rattle.records.specs.Layouts.{hour_prices, import, export, unit};
ghost use Rattle.records.specs.Views.{ahead, viewed, viewed_failure};
ghost use Rattle.records.specs.tables.Inner.{read_as, InBytes};

use crate::changes::name_for_at;
use crate::fields::{Field, Got, hour_at};
use crate::layouts::{Export, HourPrices, Import};
use crate::marks::{Kind, Mark, Wanted, head_at, is_failure, same_mark};
use money::failure::Failure;
use money::names::Name;
use money::production::UnitHour;
use money::refusals::Refusal;

// What stands in bytes that begin with a record as it was filed: its fields as the money rules take them, or the first fault. Bytes and a mark are two
// arguments of 01's calls, and no type of ours binds bytes to a mark that they may not begin with.

// A record's name, and the place behind it, where its fields begin.
#[tactic(auto, using(crate::proofs::fields::Step::read_out), unfolding(crate::specs::Views::ahead))]
pub(crate) fn fields_at(s: &[u8], mark: Mark) -> Result<Got<Name>, Refusal>
    ensures value { read_as s.now result ≡ ahead mark s.now }
    ensures placed { InBytes s.now result }
{
    let Got { value: head, next } = head_at(s, Wanted::Only(Kind::File))?;
    if !same_mark(head.mark, mark) {
        return Err(Refusal::MarkUnknown);
    }
    let Got { next, .. } = hour_at(s, next)?;
    name_for_at(s, next, Kind::File, mark)
}

// The fields of a record of a mark, in its layout.
#[tactic(auto, using(crate::proofs::fields::Step::told_out), unfolding(crate::specs::Views::viewed))]
fn view<T: Field>(s: &[u8], mark: Mark) -> Result<T, Refusal>
    ensures { told result ≡ input_of (viewed mark T.reader s.now) }
{
    let Got { next, .. } = fields_at(s, mark)?;
    let Got { value, .. } = T::read(s, next)?;
    Ok(value)
}

pub fn prices_of(s: &[u8]) -> Result<HourPrices, Refusal>
    ensures { told result ≡ input_of (viewed Mark.Pr hour_prices s.now) }
{
    view(s, Mark::Pr)
}

pub fn import_of(s: &[u8]) -> Result<Import, Refusal>
    ensures { told result ≡ input_of (viewed Mark.Im import s.now) }
{
    view(s, Mark::Im)
}

pub fn export_of(s: &[u8]) -> Result<Export, Refusal>
    ensures { told result ≡ input_of (viewed Mark.Ex export s.now) }
{
    view(s, Mark::Ex)
}

pub fn unit_of_hour(s: &[u8]) -> Result<UnitHour, Refusal>
    ensures { told result ≡ input_of (viewed Mark.Gh unit s.now) }
{
    view(s, Mark::Gh)
}

// The failure of an import (FI) or an export (FE); another mark gives 2 before anything is read.
pub fn failure_of(s: &[u8], mark: Mark) -> Result<Failure, Refusal>
    ensures { told result ≡ input_of (viewed_failure mark s.now) }
{
    if !is_failure(mark) {
        return Err(Refusal::MarkUnknown);
    }
    view(s, mark)
}
