// What is kept of an hour's records as they are read: where its prices, imports and exports stand in the lent bytes.
ghost use Rattle.std.specs.Prelude.{◌≡◌, IfOk, drop};
ghost use Rattle.money.specs.Answers.{answer_of, fault_in};
ghost use Rattle.records.specs.Names.{empty_name};
ghost use Rattle.records.specs.Views.{prices_in};
ghost use Rattle.book.specs.tables.Places.{put_spot};
ghost use Rattle.hour_offset.specs.tables.Tally.{sheet_of, among, placed_fault, with_price, add_fault, adding, worked_at, end_of};

use book::amounts::guarantees::{entries_at, totals_at};
use book::amounts::places::{Places, Spot, put_spot};
use book::amounts::prices::prices_at;
use money::names::{Name, same_name};
use money::refusals::Refusal;
use money::units::Ticks;
use records::amounts::hour_offset;
use records::keys::Key;
use records::marks::Mark;

// The place of the hour's prices, if there is one, and those of its imports and its exports, by name; none before the first record.
#[derive(Clone, Copy, Default)]
pub struct Tally {
    pub price: Option<usize>,
    pub imports: Places,
    pub exports: Places,
}

// Whether one of the places has the name.
fn holds(places: &[Spot], name: Name) -> bool
    ensures { result ≡ among name places.now }
{
    places.iter().any(|s| same_name(name, s.name))
}

// With a record's name and place; 10 where the name is there, 12 where all places are taken.
fn with_place(places: &mut Places, s: Spot) -> Result<(), Refusal>
    ensures fault { fault_in result ≡ placed_fault s.name places.old.items }
    ensures placed { IfOk result (λ u. places.new.items ≡ put_spot s places.old.items) }
{
    if holds(places, s.name) {
        return Err(Refusal::KeyStands);
    }
    if places.is_full() {
        return Err(Refusal::HourFull);
    }
    put_spot(places, s);
    Ok(())
}

// With the hour's prices at a place; 10 where they are there.
fn with_price(mut t: Tally, at: usize) -> Result<Tally, Refusal>
    ensures fault { fault_in result ≡ add_fault Mark.Pr (empty_name) (sheet_of t) }
    ensures tallied { IfOk result (λ u. sheet_of u ≡ with_price at (sheet_of t)) }
{
    if t.price.is_some() {
        return Err(Refusal::KeyStands);
    }
    t.price = Some(at);
    Ok(t)
}

// With the record of a key that begins at a place, or its refusal.
pub(crate) fn with_record(mut t: Tally, key: Key, at: usize) -> Result<Tally, Refusal>
    ensures fault { fault_in result ≡ add_fault key.mark key.name (sheet_of t) }
    ensures tallied { IfOk result (λ u. sheet_of u ≡ adding key.mark (record { name = key.name; start = at }) (sheet_of t)) }
{
    let spot = Spot {
        name: key.name,
        start: at,
    };
    match key.mark {
        Mark::Pr => t = with_price(t, at)?,
        Mark::Im => with_place(&mut t.imports, spot)?,
        Mark::Ex => with_place(&mut t.exports, spot)?,
        Mark::Gh | Mark::Fi | Mark::Fe => return Err(Refusal::MarkUnknown),
    }
    Ok(t)
}

// ---- at the end

// The offset of the imports and exports at their places, at the prices that stand at one. It stays a function of its own: a call without imports is not to
// set the room of its entries.
#[tactic(auto, using(crate::proofs::tally::AtEnd::ends))]
#[inline(never)]
fn worked(s: &[u8], t: &Tally, at: usize) -> Result<Ticks, Refusal>
    ensures { answer_of result ≡ worked_at s.now (prices_in (drop at s.now)) (sheet_of t.now) }
{
    let prices = prices_at(s, at);
    let entries = entries_at(s, &t.imports, prices);
    let totals = totals_at(s, &t.exports);
    hour_offset(t.imports.len() as u8, entries, prices, totals)
}

// The offset of the records that were tallied; 0 without imports, 15 for imports without prices.
#[tactic(auto, using(crate::proofs::tally::AtEnd::ends))]
pub(crate) fn at_end(s: &[u8], t: Tally) -> Result<Ticks, Refusal>
    ensures { answer_of result ≡ end_of s.now (sheet_of t) }
{
    if t.imports.is_empty() {
        return Ok(Ticks(0));
    }
    let at = t.price.ok_or(Refusal::PriceMissing)?;
    worked(s, &t, at)
}
