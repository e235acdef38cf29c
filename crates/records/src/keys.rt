// Keys, and the key that a question asks for.
ghost use Rattle.std.specs.Prelude.{◌≡◌};
ghost use Rattle.records.specs.Answers.{told, input_of};
ghost use Rattle.records.specs.Names.{decode_name, empty_name, stored_name};
ghost use Rattle.records.specs.Keys.{same_hour, same, ask_mark, ask_name, ask_failure_mark, ask_key_of, ask, ask_failure, ask_hour_of, ask_hour, ask_unit};

use crate::fields::hour_ok;
use crate::marks::{Mark, has_name, is_failure, mark_at};
use crate::names::{decode, no_name};
use money::names::Name;
use money::refusals::Refusal;

#[derive(Clone, Copy, PartialEq, Eq)]
pub struct Key {
    pub mark: Mark,
    pub hour: u8,
    pub name: Name,
}

// The same mark and hour, whatever the names.
#[tactic(auto, unfolding(crate::specs::Keys::same_hour))]
pub fn same_hour(a: Key, b: Key) -> bool
    ensures { result ≡ same_hour a b }
{
    a.mark == b.mark && a.hour == b.hour
}

// Public, and the word of the definitions; the derived `==`, of decoded names, is its body.
#[tactic(auto, using(crate::proofs::keys::Lemmas::equals), unfolding(crate::specs::Keys::same, crate::specs::Keys::same_hour))]
pub fn same_key(a: Key, b: Key) -> bool
    ensures { result ≡ same a b }
{
    a == b
}

// ---- the key of a question

// Mark, hour and name come one by one: the type of the three is the key that these functions make of them.

#[tactic(auto, using(crate::proofs::keys::Lemmas::asks))]
fn asked_mark(mark: &[u8]) -> Result<Mark, Refusal>
    ensures { told result ≡ input_of (ask_mark mark.now) }
{
    if mark.len() != 2 {
        return Err(Refusal::MarkUnknown);
    }
    let m = mark_at(mark, 0)?;
    Ok(m.value)
}

#[tactic(auto, unfolding(crate::specs::Keys::ask_name))]
fn asked_name(name: &[u8], mark: Mark) -> Result<Name, Refusal>
    ensures { told result ≡ input_of (ask_name mark name.now) }
{
    if has_name(mark) {
        return ask_name(name);
    }
    if !name.is_empty() {
        return Err(Refusal::NameFault);
    }
    Ok(no_name())
}

// A mark and an hour, as a key without a name.
pub fn key_of(mark: Mark, hour: u8) -> Key
    ensures { result ≡ record { mark = mark; hour = hour; name = empty_name } }
{
    let name = no_name();
    Key { mark, hour, name }
}

fn key_from(mark: Mark, hour: u8, name: &[u8]) -> Result<Key, Refusal>
    ensures { told result ≡ input_of (ask_key_of mark hour name.now) }
{
    if !hour_ok(hour) {
        return Err(Refusal::HourOutside);
    }
    let name = asked_name(name, mark)?;
    Ok(Key { mark, hour, name })
}

// The key that a mark, an hour and a spelled name without its length byte ask for.
#[tactic(auto, unfolding(crate::specs::Keys::ask_from))]
pub fn ask_key(mark: &[u8], hour: u8, name: &[u8]) -> Result<Key, Refusal>
    ensures { told result ≡ input_of (ask mark.now hour name.now) }
{
    key_from(asked_mark(mark)?, hour, name)
}

#[tactic(auto, unfolding(crate::specs::Keys::ask_failure_mark))]
fn asked_failure_mark(mark: &[u8]) -> Result<Mark, Refusal>
    ensures { told result ≡ input_of (ask_failure_mark mark.now) }
{
    let m = asked_mark(mark)?;
    if !is_failure(m) {
        return Err(Refusal::MarkUnknown);
    }
    Ok(m)
}

// The same of a failure: another mark than FI or FE gives 2.
#[tactic(auto, unfolding(crate::specs::Keys::ask_from))]
pub fn ask_failure(mark: &[u8], hour: u8, name: &[u8]) -> Result<Key, Refusal>
    ensures { told result ≡ input_of (ask_failure mark.now hour name.now) }
{
    key_from(asked_failure_mark(mark)?, hour, name)
}

// The same of an hour of the day; any other gives 3.
#[tactic(auto, unfolding(crate::specs::Keys::ask_hour_of))]
pub fn hour_key(mark: Mark, hour: u8) -> Result<Key, Refusal>
    ensures { told result ≡ input_of (ask_hour_of mark hour) }
{
    if !hour_ok(hour) {
        return Err(Refusal::HourOutside);
    }
    Ok(key_of(mark, hour))
}

// The same, asked for by the mark's bytes.
#[tactic(auto, unfolding(crate::specs::Keys::ask_hour))]
pub fn ask_hour(mark: &[u8], hour: u8) -> Result<Key, Refusal>
    ensures { told result ≡ input_of (ask_hour mark.now hour) }
{
    hour_key(asked_mark(mark)?, hour)
}

// The key of a unit that a spelled name asks for: its day has a name only, so the hour of this key is not used.
#[tactic(auto, unfolding(crate::specs::Keys::ask_unit))]
pub fn unit_key(name: &[u8]) -> Result<Key, Refusal>
    ensures { told result ≡ input_of (ask_unit name.now) }
{
    let name = ask_name(name)?;
    Ok(Key {
        mark: Mark::Gh,
        hour: 1,
        name,
    })
}

// The name that spelled bytes without a length byte ask for.
pub fn ask_name(name: &[u8]) -> Result<Name, Refusal>
    ensures { told result ≡ input_of (stored_name (decode_name name.now)) }
{
    let n = decode(name)?;
    Ok(n.value)
}
