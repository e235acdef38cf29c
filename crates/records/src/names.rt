// Names: read in any spelling, decoded once, written in one spelling. No type of this crate holds that a name is short: a `Key` holds a caller's `Name`, so
// what spells the name of a key would ask again. It stays a clause.
ghost use Rattle.std.specs.Prelude.{◌≡◌, ◌+◌, ◌≤◌, ◌<◌, ◌++◌, length, IfOk};
ghost use Rattle.money.specs.Names.{max_name, decoded_bytes, name_before};
ghost use Rattle.records.specs.Reading.{from};
ghost use Rattle.records.specs.Names.{max_spelling, hex_digit, escaped, one, decode_name, unreserved, digit, spell_byte, spell, name_field, empty_name, bytes_of, stored_name};
ghost use Rattle.records.specs.Answers.{told, spelling_of};
ghost use Rattle.records.specs.tables.Inner.{read_as, InBytes};

use crate::fields::{Got, byte_at};
use fixed_list::FixedList;
use money::names::{NAME_MAX, Name, name_before, name_ok};
use money::refusals::Refusal;

// Bytes of a written name, at most: each byte of a decoded one takes three.
pub const SPELLING_MAX: usize = 36;

// The written spelling of a name.
pub type Spelling = FixedList<u8, SPELLING_MAX>;

#[tactic(auto, unfolding(crate::specs::Names::hex_val))]
fn hex(x: u8) -> Option<u8>
    ensures { result ≡ hex_digit x }
{
    char::from(x).to_digit(16).map(|d| d as u8)
}

// Bytes and a place go together as in `Field`.

// The byte that % and two hex digits at a place of s stand for.
#[tactic(auto, using(crate::proofs::names::Lemmas::escapes))]
fn escaped_at(s: &[u8], at: usize) -> Result<Got<u8>, Refusal>
    ensures value { read_as s.now result ≡ escaped (from s.now at) }
    ensures placed { InBytes s.now result }
{
    if s.len() < at || s.len() - at < 2 {
        return Err(Refusal::NameFault);
    }
    let high = hex(s[at]).ok_or(Refusal::NameFault)?;
    let low = hex(s[at + 1]).ok_or(Refusal::NameFault)?;
    let value = 16 * high + low;
    if !value.is_ascii_graphic() {
        return Err(Refusal::NameFault);
    }
    Ok(Got {
        value,
        next: at + 2,
    })
}

#[tactic(auto, using(crate::proofs::names::Lemmas::at_next), unfolding(crate::specs::Names::one, crate::specs::Names::visible))]
fn one_at(s: &[u8], at: usize) -> Result<Got<u8>, Refusal>
    requires { at < length s.now }
    ensures value { read_as s.now result ≡ one (from s.now at) }
    ensures placed { InBytes s.now result }
{
    let value = s[at];
    if value == b'%' {
        return escaped_at(s, at + 1);
    }
    if !value.is_ascii_graphic() {
        return Err(Refusal::NameFault);
    }
    Ok(Got {
        value,
        next: at + 1,
    })
}

// The name of a mark that has none.
pub fn no_name() -> Name
    ensures { result ≡ empty_name }
{
    Name::default()
}

// A name by the bytes of its spelling, all of them.
#[tactic(auto, using(crate::proofs::names::Lemmas::decodes))]
pub(crate) fn decode(spelled: &[u8]) -> Result<Got<Name>, Refusal>
    ensures value { read_as spelled.now result ≡ stored_name (decode_name spelled.now) }
    ensures placed { InBytes spelled.now result }
    ensures few { IfOk result (λ r. r.value.len ≤ max_name) }
{
    if spelled.len() < 1 || SPELLING_MAX < spelled.len() {
        return Err(Refusal::NameFault);
    }
    let mut bytes = [0u8; NAME_MAX];
    let mut n: usize = 0;
    let mut next: usize = 0;
    // No `for`: a step is one byte or three, which `one_at` says.
    while next < spelled.len() {
        if NAME_MAX <= n {
            return Err(Refusal::NameFault);
        }
        let one = one_at(spelled, next)?;
        bytes[n] = one.value;
        n += 1;
        next = one.next;
    }
    let value = Name {
        len: n as u8,
        bytes,
    };
    Ok(Got { value, next })
}

#[tactic(auto, unfolding(crate::specs::Names::unreserved))]
fn unreserved(x: u8) -> bool
    ensures { result ≡ unreserved x }
{
    x.is_ascii_alphanumeric() || matches!(x, b'-' | b'.' | b'_' | b'~')
}

// No `char::from_digit`: it gives small letters, as an `Option` of a char.
#[tactic(auto, unfolding(crate::specs::Names::digit))]
fn digit(n: u8) -> u8
    requires { n < 16 }
    ensures { result ≡ digit n }
{
    if n < 10 { b'0' + n } else { b'A' + (n - 10) }
}

#[tactic(auto, using(crate::proofs::names::SpellName::spellings), unfolding(crate::specs::Names::spell_byte))]
fn push_byte<const N: usize>(x: u8, out: &mut FixedList<u8, N>)
    requires { length out.old.items + 3 ≤ N }
    ensures { out.new.items ≡ out.old.items ++ spell_byte x }
{
    if unreserved(x) {
        out.push(x);
        return;
    }
    out.push(b'%');
    out.push(digit(x / 16));
    out.push(digit(x % 16));
}

#[tactic(auto, using(crate::proofs::names::SpellName::spellings), unfolding(crate::specs::Names::spell))]
pub(crate) fn push_name<const N: usize>(name: Name, out: &mut FixedList<u8, N>)
    requires name_in { name.len ≤ max_name }
    requires room { length out.old.items + max_spelling ≤ N }
    ensures { out.new.items ≡ out.old.items ++ spell (bytes_of name) }
{
    for x in &name.bytes[..name.len as usize] {
        push_byte(*x, out);
    }
}

// A name as it is written, for bytes that hold no record. One that breaks its rule is none.
#[tactic(auto, using(crate::proofs::names::SpellName::spelled))]
pub fn spell_name(name: Name) -> Result<Spelling, Refusal>
    ensures { told result ≡ spelling_of name }
{
    if !name_ok(name) {
        return Err(Refusal::NameFault);
    }
    let mut out = FixedList::new();
    push_name(name, &mut out);
    Ok(out)
}

#[tactic(auto, unfolding(crate::specs::Names::spell_byte))]
fn byte_len(x: u8) -> usize
    ensures value { result ≡ length (spell_byte x) }
    ensures most { result ≤ 3 }
{
    if unreserved(x) { 1 } else { 3 }
}

#[tactic(auto, using(crate::proofs::names::SpellName::spellings), unfolding(crate::specs::Names::spell))]
pub(crate) fn spelled_len(name: Name) -> usize
    requires { name.len ≤ max_name }
    ensures value { result ≡ length (spell (bytes_of name)) }
    ensures most { result ≤ max_spelling }
{
    let mut sum: usize = 0;
    for x in &name.bytes[..name.len as usize] {
        sum += byte_len(*x);
    }
    sum
}

// The name that a length byte at a place stands before.
#[tactic(auto, using(crate::proofs::names::Lemmas::fields))]
pub(crate) fn name_at(s: &[u8], at: usize) -> Result<Got<Name>, Refusal>
    ensures value { read_as s.now result ≡ stored_name (name_field (from s.now at)) }
    ensures placed { InBytes s.now result }
    ensures few { IfOk result (λ r. r.value.len ≤ max_name) }
{
    let Got {
        value: len,
        next: first,
    } = byte_at(s, at)?;
    let len = len as usize;
    if len < 1 || SPELLING_MAX < len {
        return Err(Refusal::NameFault);
    }
    if s.len() - first < len {
        return Err(Refusal::EndsEarly);
    }
    let next = first + len;
    let Got { value, .. } = decode(&s[first..next])?;
    Ok(Got { value, next })
}

// Public: the definitions' `name_before`, which is `<` of names, passed on since the book calls this layer alone.
pub fn comes_before(a: Name, b: Name) -> bool
    ensures { result ≡ name_before (decoded_bytes a) (decoded_bytes b) }
{
    name_before(a, b)
}
