// Marks: of records, and of the changes that bear them.
ghost use Rattle.std.specs.Prelude.{◌≡◌};
ghost use Rattle.records.specs.Reading.{from};
ghost use Rattle.records.specs.Marks.{mark_bytes, mark, has_name, is_failure, order, same_mark, key_mark, key_order, limit};
ghost use Rattle.records.specs.Changes.{allowed, begins, inside, head, is_filing, is_correction, is_withdrawal};
ghost use Rattle.records.specs.tables.Inner.{read_as, InBytes, headed};

use crate::fields::Got;
use money::refusals::Refusal;

// The most records of a mark in an hour, and of `GH`.
pub const HOUR_LIMIT: u8 = 16;

pub const UNIT_LIMIT: u8 = 8;

// In the listing's order.
#[derive(Clone, Copy, PartialEq, Eq)]
pub enum Mark {
    Pr,
    Im,
    Ex,
    Gh,
    Fi,
    Fe,
}

#[derive(Clone, Copy, PartialEq, Eq)]
pub enum Kind {
    File,
    Correct,
    Withdraw,
}

// What a method asks for: a change of any kind, or of its own only. No type of it and the bytes that are lent: it would be taken apart at once.
// No `Option<Kind>`: its `None` would stand for any kind, and read as the contrary.
#[derive(Clone, Copy)]
pub enum Wanted {
    Any,
    Only(Kind),
}

// What a change does, and the mark of its record.
#[derive(Clone, Copy)]
pub struct Head {
    pub kind: Kind,
    pub mark: Mark,
}

// A mark's bytes are 01's listing.
pub(crate) fn bytes_of(m: Mark) -> [u8; 2]
    ensures { result ≡ mark_bytes m }
{
    match m {
        Mark::Pr => *b"PR",
        Mark::Im => *b"IM",
        Mark::Ex => *b"EX",
        Mark::Gh => *b"GH",
        Mark::Fi => *b"FI",
        Mark::Fe => *b"FE",
    }
}

// The marks in the listing's order.
const LISTING: [Mark; 6] = [Mark::Pr, Mark::Im, Mark::Ex, Mark::Gh, Mark::Fi, Mark::Fe];

// Whether bytes begin with others: std's, under the definitions' word, which contracts of the book cite.
pub fn starts(s: &[u8], front: &[u8]) -> bool
    ensures { result ≡ begins front.now s.now }
{
    s.starts_with(front)
}

// Bytes and a place go together as in `Field`. It also answers bytes that end early, which a `TryFrom` of two bytes can't.
#[tactic(auto, using(crate::proofs::marks::Lemmas::listed))]
pub(crate) fn mark_at(s: &[u8], at: usize) -> Result<Got<Mark>, Refusal>
    ensures value { read_as s.now result ≡ mark (from s.now at) }
    ensures placed { InBytes s.now result }
{
    if s.len() < at || s.len() - at < 2 {
        return Err(Refusal::EndsEarly);
    }
    for value in LISTING {
        if starts(&s[at..], &bytes_of(value)) {
            return Ok(Got {
                value,
                next: at + 2,
            });
        }
    }
    Err(Refusal::MarkUnknown)
}

// Public, and the words of the definitions; the derived `==` is their body.
pub fn is_filing(k: Kind) -> bool
    ensures { result ≡ is_filing k }
{
    k == Kind::File
}

pub fn is_correction(k: Kind) -> bool
    ensures { result ≡ is_correction k }
{
    k == Kind::Correct
}

pub fn is_withdrawal(k: Kind) -> bool
    ensures { result ≡ is_withdrawal k }
{
    k == Kind::Withdraw
}

fn allowed(want: Wanted, k: Kind) -> bool
    ensures { result ≡ allowed want k }
{
    match want {
        Wanted::Any => true,
        Wanted::Only(w) => w == k,
    }
}

fn inside_at(s: &[u8], at: usize, want: Wanted, kind: Kind) -> Result<Got<Head>, Refusal>
    ensures value { headed (read_as s.now result) ≡ inside want kind (from s.now at) }
    ensures placed { InBytes s.now result }
{
    if !allowed(want, kind) {
        return Err(Refusal::MarkUnknown);
    }
    let Got { value: mark, next } = mark_at(s, at)?;
    let value = Head { kind, mark };
    Ok(Got { value, next })
}

#[tactic(auto, using(crate::proofs::marks::Lemmas::heads))]
pub(crate) fn head_at(s: &[u8], want: Wanted) -> Result<Got<Head>, Refusal>
    ensures value { headed (read_as s.now result) ≡ head want s.now }
    ensures placed { InBytes s.now result }
{
    if s.len() < 2 {
        return Err(Refusal::EndsEarly);
    }
    if starts(s, b"CO") {
        return inside_at(s, 2, want, Kind::Correct);
    }
    if starts(s, b"WD") {
        return inside_at(s, 2, want, Kind::Withdraw);
    }
    inside_at(s, 0, want, Kind::File)
}

pub(crate) fn has_name(m: Mark) -> bool
    ensures { result ≡ has_name m }
{
    m != Mark::Pr
}

pub fn is_failure(m: Mark) -> bool
    ensures { result ≡ is_failure m }
{
    m == Mark::Fi || m == Mark::Fe
}

// The place of a mark in the listing, the definitions' word for the enum's own order.
pub fn order(m: Mark) -> u8
    ensures { result ≡ order m }
{
    m as u8
}

// Public, and the word of the definitions; the derived `==` is its body.
pub fn same_mark(a: Mark, b: Mark) -> bool
    ensures { result ≡ same_mark a b }
{
    a == b
}

// The mark under whose key a record of a mark stands, which is its own: the definitions keep the word for marks that would share keys.
pub fn key_mark(m: Mark) -> Mark
    ensures { result ≡ key_mark m }
{
    m
}

// The place of that mark in the listing.
pub fn key_order(m: Mark) -> u8
    ensures { result ≡ key_order m }
{
    order(key_mark(m))
}

// How many records of a mark an hour may hold.
pub fn limit(m: Mark) -> u8
    ensures { result ≡ limit m }
{
    if m == Mark::Gh {
        UNIT_LIMIT
    } else {
        HOUR_LIMIT
    }
}
