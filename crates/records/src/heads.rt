// The head of a change, which is its mark, hour and name: read by itself, and the bytes by which the records of a name are found.
ghost use Rattle.std.specs.Prelude.{◌≡◌};
ghost use Rattle.records.specs.Answers.{told, input_of};
ghost use Rattle.records.specs.tables.Heads.{head_key, nameable, NameHeadIs};

use crate::changes::name_for_at;
use crate::fields::{Got, hour_at};
use crate::keys::Key;
use crate::marks::{Head, Kind, Wanted, has_name, head_at};
use crate::writing::{NAME_HEAD_MAX, push_key_name};
use fixed_list::FixedList;
use money::names::name_ok;
use money::refusals::Refusal;

// The key of the change that bytes begin with, or the first fault in its head. Its fields are not read.
#[tactic(auto, using(crate::proofs::fields::Step::told_out), unfolding(crate::specs::tables::Heads::head_key))]
pub fn head_key(s: &[u8]) -> Result<Key, Refusal>
    ensures { told result ≡ input_of (head_key s.now) }
{
    let Got { value: head, next } = head_at(s, Wanted::Any)?;
    let Head { kind, mark } = head;
    let Got { value: hour, next } = hour_at(s, next)?;
    let Got { value: name, .. } = name_for_at(s, next, kind, mark)?;
    Ok(Key { mark, hour, name })
}

// The bytes by which the records of a mark and name are told from others of the mark: those behind the hour.
pub type NameHead = FixedList<u8, NAME_HEAD_MAX>;

// Whether a record of the key's mark can have its name.
#[tactic(auto, unfolding(crate::specs::tables::Heads::nameable))]
fn nameable(key: Key) -> bool
    ensures { result ≡ nameable key }
{
    if has_name(key.mark) {
        return name_ok(key.name);
    }
    key.name.len == 0
}

// None of a name that no record of the mark can have.
#[tactic(auto, using(crate::proofs::heads::Lemmas::able_short))]
pub fn name_head(key: Key) -> Option<NameHead>
    ensures { NameHeadIs key result }
{
    if !nameable(key) {
        return None;
    }
    let mut out = FixedList::new();
    push_key_name(Kind::File, key.mark, key.name, &mut out);
    Some(out)
}
