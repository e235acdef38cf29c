// The records of one hour's offset, back to back.
ghost use Rattle.std.specs.Prelude.{◌≡◌};
ghost use Rattle.records.specs.Answers.{told};
ghost use Rattle.records.specs.HourRecord.{of_hour, same_as, hour_record, hour_front_of, first_hour};

use crate::changes::{Read, read_change};
use crate::fields::{Got, hour_at};
use crate::keys::Key;
use crate::marks::{Kind, Mark, Wanted, head_at};
use money::refusals::Refusal;

// The first of them: its key, and the place where it ends. No `Got`, as at parse.rt's `Front`.
#[derive(Clone, Copy)]
pub struct HourFront {
    pub key: Key,
    pub end: usize,
}

fn of_hour(m: Mark) -> bool
    ensures { result ≡ of_hour m }
{
    matches!(m, Mark::Pr | Mark::Im | Mark::Ex)
}

// Whether an hour may follow the first record's, where there is one. No `==`: any may follow none, and 0 too, which the definitions have for none.
fn same_as(first: Option<u8>, hour: u8) -> bool
    ensures { result ≡ same_as (first_hour first) hour }
{
    first.is_none_or(|h| h == 0 || h == hour)
}

// The first of an hour's records that stand back to back; `first` is the hour of those before it.
#[tactic(auto, using(crate::proofs::hour_records::Lemmas::fronts), unfolding(crate::specs::HourRecord::hour_record))]
pub fn first_of_hour(s: &[u8], first: Option<u8>) -> Result<HourFront, Refusal>
    ensures { told result ≡ hour_front_of s.now (hour_record (first_hour first) s.now) }
{
    let Got { value: head, next } = head_at(s, Wanted::Only(Kind::File))?;
    if !of_hour(head.mark) {
        return Err(Refusal::MarkUnknown);
    }
    let Got { value: hour, .. } = hour_at(s, next)?;
    if !same_as(first, hour) {
        return Err(Refusal::HourOutside);
    }
    let Read { key, end, .. } = read_change(s, Wanted::Only(Kind::File))?;
    Ok(HourFront { key, end })
}
