// A change as it is read: mark, hour, name and fields.
ghost use Rattle.std.specs.Prelude.{◌≡◌, ◌≤◌, length, IfOk};
ghost use Rattle.money.specs.Names.{max_name};
ghost use Rattle.records.specs.Reading.{from};
ghost use Rattle.records.specs.Changes.{nameless, name_for};
ghost use Rattle.records.specs.tables.Inner.{read_as, InBytes, layout_for, ReadIs};

use crate::fields::{Got, byte_at, hour_at};
use crate::keys::Key;
use crate::layouts::layout_at;
use crate::marks::{Head, Kind, Mark, Wanted, has_name, head_at};
use crate::names::{name_at, no_name};
use money::names::Name;
use money::refusals::Refusal;

// A change that was read: its body stands from `body` to `end`.
#[derive(Clone, Copy)]
pub(crate) struct Read {
    pub(crate) kind: Kind,
    pub(crate) key: Key,
    pub(crate) body: usize,
    pub(crate) end: usize,
}

// Bytes and a place go together as in `Field`. That the place lies in the bytes stays a clause of these three functions, which hand it on where they read
// nothing; a type that holds it would be asked of every reader, and those answer for any place. Kind and mark stay two: a `Head` is one that was read, and
// views.rt names its own.

// Where a mark has no name: nothing, or the length byte 0 of a withdrawal.
fn nameless_at(s: &[u8], at: usize, kind: Kind) -> Result<Got<Name>, Refusal>
    requires { at ≤ length s.now }
    ensures value { read_as s.now result ≡ nameless kind (from s.now at) }
    ensures placed { InBytes s.now result }
    ensures few { IfOk result (λ r. r.value.len ≤ max_name) }
{
    let value = no_name();
    if kind != Kind::Withdraw {
        return Ok(Got { value, next: at });
    }
    let Got { value: len, next } = byte_at(s, at)?;
    if len != 0 {
        return Err(Refusal::NameFault);
    }
    Ok(Got { value, next })
}

#[tactic(auto, unfolding(crate::specs::Changes::name_for))]
pub(crate) fn name_for_at(s: &[u8], at: usize, kind: Kind, mark: Mark) -> Result<Got<Name>, Refusal>
    requires { at ≤ length s.now }
    ensures value { read_as s.now result ≡ name_for kind mark (from s.now at) }
    ensures placed { InBytes s.now result }
    ensures few { IfOk result (λ r. r.value.len ≤ max_name) }
{
    if has_name(mark) {
        return name_at(s, at);
    }
    nameless_at(s, at, kind)
}

// A withdrawal has no fields.
#[tactic(auto, unfolding(crate::specs::tables::Inner::layout_for))]
fn fields_at(s: &[u8], at: usize, kind: Kind, mark: Mark) -> Result<Got<()>, Refusal>
    requires { at ≤ length s.now }
    ensures value { read_as s.now result ≡ layout_for kind mark (from s.now at) }
    ensures placed { InBytes s.now result }
{
    if kind == Kind::Withdraw {
        return Ok(Got {
            value: (),
            next: at,
        });
    }
    layout_at(s, at, mark)
}

#[tactic(auto, using(crate::proofs::changes::Lemmas::faults))]
pub(crate) fn read_change(s: &[u8], want: Wanted) -> Result<Read, Refusal>
    ensures { ReadIs s.now want result }
{
    let Got { value: head, next } = head_at(s, want)?;
    let Head { kind, mark } = head;
    let Got { value: hour, next } = hour_at(s, next)?;
    let Got {
        value: name,
        next: body,
    } = name_for_at(s, next, kind, mark)?;
    let Got { next: end, .. } = fields_at(s, body, kind, mark)?;
    let key = Key { mark, hour, name };
    Ok(Read {
        kind,
        key,
        body,
        end,
    })
}
