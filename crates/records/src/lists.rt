// Lists of pairs of a price and a quantity.
ghost use Rattle.std.specs.Prelude.{◌≡◌, ◌≤◌, length};
ghost use Rattle.money.specs.Offers.{max_pairs};
ghost use Rattle.records.specs.Reading.{from};
ghost use Rattle.records.specs.Numbers.{pairs, list_ok, list_from};
ghost use Rattle.records.specs.tables.Inner.{read_as, InBytes, pair_read};

use crate::fields::{Field, Got, byte_at};
use money::offers::{Offer, PAIRS_MAX, check_offer};
use money::refusals::Refusal;
use money::units::{Price, Quantity};

#[derive(Clone, Copy)]
pub(crate) struct Pair {
    pub(crate) price: Price,
    pub(crate) quantity: Quantity,
}

impl Field for Pair {
    ghost reader = { pair_read };

    #[tactic(auto, using(crate::proofs::fields::Step::read_out), unfolding(crate::specs::Numbers::pair))]
    fn read(s: &[u8], at: usize) -> Result<Got<Pair>, Refusal> {
        let Got { value: price, next } = Price::read(s, at)?;
        let Got {
            value: quantity,
            next,
        } = Quantity::read(s, next)?;
        let value = Pair { price, quantity };
        Ok(Got { value, next })
    }
}

// A number of pairs, 0 too: then the place that came is handed on. The places of the arrays behind them stay 0.
#[tactic(auto, using(crate::proofs::lists::Lemmas::many_pairs))]
fn pairs_at(s: &[u8], at: usize, n: usize) -> Result<Got<Offer>, Refusal>
    requires n_in { n ≤ max_pairs }
    requires at_in { at ≤ length s.now }
    ensures value { read_as s.now result ≡ pairs n (from s.now at) }
    ensures placed { InBytes s.now result }
{
    let mut prices = [Price(0); PAIRS_MAX];
    let mut quantities = [Quantity(0); PAIRS_MAX];
    let mut next = at;
    // By number: with an array of pairs that `iter_mut` fills and two `map`s take apart, a full GH costs 39,165 instructions in the place of 25,440; and the
    // contracts of `iter_mut` and `zip` don't say what two slices end as.
    for i in 0..n {
        let r = Pair::read(s, next)?;
        prices[i] = r.value.price;
        quantities[i] = r.value.quantity;
        next = r.next;
    }
    let value = Offer {
        count: n as u8,
        prices,
        quantities,
    };
    Ok(Got { value, next })
}

// The order of a list whose numbers are in range; an empty one has none to break.
fn list_ok(o: Offer) -> bool
    ensures { result ≡ list_ok o }
{
    o.count == 0 || check_offer(o).is_ok()
}

#[tactic(auto, using(crate::proofs::fields::Step::read_out), unfolding(crate::specs::Numbers::list_from))]
pub(crate) fn list_at(s: &[u8], at: usize, fewest: u8) -> Result<Got<Offer>, Refusal>
    ensures value { read_as s.now result ≡ list_from fewest (from s.now at) }
    ensures placed { InBytes s.now result }
{
    let Got { value: count, next } = byte_at(s, at)?;
    if count < fewest || PAIRS_MAX < count as usize {
        return Err(Refusal::ListFault);
    }
    let list = pairs_at(s, next, count as usize)?;
    if !list_ok(list.value) {
        return Err(Refusal::ListFault);
    }
    Ok(list)
}
