// Twelve prices, or twelve quantities, one for each interval.
ghost use Rattle.std.specs.Prelude.{◌≡◌};
ghost use Rattle.money.specs.Units.{intervals};
ghost use Rattle.records.specs.Reading.{from, many};
ghost use Rattle.records.specs.tables.Inner.{read_as, InBytes};

use crate::fields::{Field, Got};
use money::refusals::Refusal;
use money::units::INTERVALS;

// Twelve fields of one form, one behind the other.
#[tactic(auto, using(crate::proofs::fields::Step::many_fields))]
pub(crate) fn series_at<T: Field + Default>(
    s: &[u8],
    at: usize,
) -> Result<Got<[T; INTERVALS]>, Refusal>
    ensures value { read_as s.now result ≡ many intervals T.reader (from s.now at) }
    ensures placed { InBytes s.now result }
{
    let mut values = [T::default(); INTERVALS];
    let mut next = at;
    for value in &mut values {
        let r = T::read(s, next)?;
        *value = r.value;
        next = r.next;
    }
    Ok(Got {
        value: values,
        next,
    })
}
