// One field at a place of some bytes: a byte, a number, an hour. A reader answers the value and the place behind it, or the first fault.
ghost use Rattle.std.specs.Prelude.{◌≡◌};
ghost use Rattle.money.specs.Units.{day_hours};
ghost use Rattle.records.specs.Reading.{from, byte};
ghost use Rattle.records.specs.Numbers.{between, word, price, quantity, amount, hour};
ghost use Rattle.records.specs.tables.Inner.{read_as, InBytes, FieldReader};

use money::refusals::Refusal;
use money::units::{HOURS, Price, Quantity};

// A value that was read, and the place behind its bytes.
#[derive(Clone, Copy)]
pub struct Got<T> {
    pub value: T,
    pub next: usize,
}

// What stands in the bytes of a record in a form of its own. Bytes and a place, no cursor: it would hand the bytes back with each value, or be lent for
// writing, and each promise would add that its bytes are the same still.
pub(crate) trait Field: Copy {
    ghost reader: { FieldReader Self };

    fn read(s: &[u8], at: usize) -> Result<Got<Self>, Refusal>
        ensures value { read_as s.now result ≡ reader (from s.now at) }
        ensures placed { InBytes s.now result };
}

pub(crate) fn byte_at(s: &[u8], at: usize) -> Result<Got<u8>, Refusal>
    ensures value { read_as s.now result ≡ byte (from s.now at) }
    ensures placed { InBytes s.now result }
{
    if s.len() <= at {
        return Err(Refusal::EndsEarly);
    }
    Ok(Got {
        value: s[at],
        next: at + 1,
    })
}

fn word_at(s: &[u8], at: usize) -> Result<Got<u32>, Refusal>
    ensures value { read_as s.now result ≡ word (from s.now at) }
    ensures placed { InBytes s.now result }
{
    // The bound is one for all words of a record: with the place taken from the length, a full GH costs 28,863 instructions in the place of 25,440.
    if s.len() < 4 || s.len() - 4 < at {
        return Err(Refusal::EndsEarly);
    }
    let value = u32::from_le_bytes([s[at], s[at + 1], s[at + 2], s[at + 3]]);
    Ok(Got {
        value,
        next: at + 4,
    })
}

// Prices and quantities: what differs is the type and its constructor, which is all that each says.
impl Field for Price {
    ghost reader = { price };

    #[tactic(auto, using(crate::proofs::fields::Step::read_out), unfolding(crate::specs::Numbers::price))]
    fn read(s: &[u8], at: usize) -> Result<Got<Price>, Refusal> {
        let Got { value: word, next } = word_at(s, at)?;
        let value = Price::new(word.cast_signed())?;
        Ok(Got { value, next })
    }
}

impl Field for Quantity {
    ghost reader = { quantity };

    #[tactic(auto, using(crate::proofs::fields::Step::read_out), unfolding(crate::specs::Numbers::quantity))]
    fn read(s: &[u8], at: usize) -> Result<Got<Quantity>, Refusal> {
        let Got { value: word, next } = word_at(s, at)?;
        let value = Quantity::new(word)?;
        Ok(Got { value, next })
    }
}

// Cents of a start or of an hour, at most so many.
#[tactic(auto, using(crate::proofs::fields::Step::read_out), unfolding(crate::specs::Numbers::amount))]
pub(crate) fn amount_at(s: &[u8], at: usize, most: u32) -> Result<Got<u32>, Refusal>
    ensures value { read_as s.now result ≡ amount most (from s.now at) }
    ensures placed { InBytes s.now result }
{
    let w = word_at(s, at)?;
    if most < w.value {
        return Err(Refusal::NumberOutside);
    }
    Ok(w)
}

pub(crate) fn hour_ok(hour: u8) -> bool
    ensures { result ≡ between 1 day_hours hour }
{
    1 <= hour && hour as usize <= HOURS
}

#[tactic(auto, using(crate::proofs::fields::Step::read_out), unfolding(crate::specs::Numbers::hour))]
pub(crate) fn hour_at(s: &[u8], at: usize) -> Result<Got<u8>, Refusal>
    ensures value { read_as s.now result ≡ hour (from s.now at) }
    ensures placed { InBytes s.now result }
{
    let b = byte_at(s, at)?;
    if !hour_ok(b.value) {
        return Err(Refusal::HourOutside);
    }
    Ok(b)
}
