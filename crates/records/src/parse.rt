// What the bytes of an argument are: a change, or any of the ten marks.
ghost use Rattle.std.specs.Prelude.{◌≡◌};
ghost use Rattle.money.specs.Answers.{fault_in};
ghost use Rattle.records.specs.Changes.{change, entry, parse, parse_any, bare, take_back_bytes, close_bytes};
ghost use Rattle.records.specs.Answers.{told, seen_view, seen_act, front_of};
ghost use Rattle.records.specs.tables.Inner.{read_as, InBytes, change_view, entry_act};

use crate::changes::{Read, read_change};
use crate::fields::Got;
use crate::marks::{Wanted, starts};
use crate::scan::View;
use crate::writing::head_of;
use money::refusals::Refusal;

// What some bytes are: a change of a record, or a mark that stands alone.
#[derive(Clone, Copy)]
pub enum Act {
    Change(View),
    TakeBack,
    Close,
}

// The first of several changes, and the place where it ends. No `Got`: callers in the book, the filter and the C call say `act` and `end`, where a reader's
// `value` and `next` say nothing.
#[derive(Clone, Copy)]
pub struct Front {
    pub act: Act,
    pub end: usize,
}

#[tactic(auto, using(crate::proofs::writing::Lemmas::view_full))]
fn change_at(s: &[u8], want: Wanted) -> Result<Got<View>, Refusal>
    ensures value { read_as s.now result ≡ change_view (change want s.now) }
    ensures placed { InBytes s.now result }
{
    let Read {
        kind,
        key,
        body,
        end: next,
    } = read_change(s, want)?;
    let len = head_of(kind, key).len() + (next - body);
    let value = View { kind, key, len };
    Ok(Got { value, next })
}

#[tactic(auto, using(crate::proofs::parse::Lemmas::entries))]
fn act_at(s: &[u8]) -> Result<Got<Act>, Refusal>
    ensures value { read_as s.now result ≡ entry_act (entry s.now) }
    ensures placed { InBytes s.now result }
{
    if s.len() < 2 {
        return Err(Refusal::EndsEarly);
    }
    if starts(s, b"TB") {
        return Ok(Got {
            value: Act::TakeBack,
            next: 2,
        });
    }
    if starts(s, b"CL") {
        return Ok(Got {
            value: Act::Close,
            next: 2,
        });
    }
    let Got { value: view, next } = change_at(s, Wanted::Any)?;
    Ok(Got {
        value: Act::Change(view),
        next,
    })
}

// The change that an argument's bytes are, of the kind that is wanted, or their first fault.
#[tactic(auto, using(crate::proofs::parse::Lemmas::parses))]
pub fn parse_change(s: &[u8], want: Wanted) -> Result<View, Refusal>
    ensures { told result ≡ seen_view (parse want s.now) }
{
    let Got { value: view, next } = change_at(s, want)?;
    if next < s.len() {
        return Err(Refusal::BytesLeftOver);
    }
    Ok(view)
}

// The change of any mark that an argument's bytes are, or their first fault. One function for the two would take the reader as a closure, whose promise would
// be said once more.
#[tactic(auto, using(crate::proofs::parse::Lemmas::parses))]
pub fn parse_any(s: &[u8]) -> Result<Act, Refusal>
    ensures { told result ≡ seen_act (parse_any s.now) }
{
    let Got { value: act, next } = act_at(s)?;
    if next < s.len() {
        return Err(Refusal::BytesLeftOver);
    }
    Ok(act)
}

// The first of the changes that stand back to back, and where it ends.
#[tactic(auto, using(crate::proofs::parse::Lemmas::fronts))]
pub fn first_change(s: &[u8]) -> Result<Front, Refusal>
    ensures { told result ≡ front_of s.now (entry s.now) }
{
    let Got {
        value: act,
        next: end,
    } = act_at(s)?;
    Ok(Front { act, end })
}

// Whether an argument is a mark and no more, or its first fault.
#[tactic(auto, using(crate::proofs::parse::Lemmas::bares))]
fn mark_alone(s: &[u8], mark: &[u8; 2]) -> Result<(), Refusal>
    ensures { fault_in result ≡ bare mark.now s.now }
{
    if s.len() < 2 {
        return Err(Refusal::EndsEarly);
    }
    if !starts(s, mark) {
        return Err(Refusal::MarkUnknown);
    }
    if 2 < s.len() {
        return Err(Refusal::BytesLeftOver);
    }
    Ok(())
}

// Whether what is lent to take back is its mark, or the first fault in it.
pub fn parse_take_back(s: &[u8]) -> Result<(), Refusal>
    ensures { fault_in result ≡ bare take_back_bytes s.now }
{
    mark_alone(s, b"TB")
}

// The same for close.
pub fn parse_close(s: &[u8]) -> Result<(), Refusal>
    ensures { fault_in result ≡ bare close_bytes s.now }
{
    mark_alone(s, b"CL")
}
