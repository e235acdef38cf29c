// The fields of each record, one layout for each mark.
ghost use Rattle.std.specs.Prelude.{◌≡◌};
ghost use Rattle.records.specs.Reading.{from};
ghost use Rattle.records.specs.Layouts.{hour_prices, import, export, failure, schedules, reserve_series, fewest, lists, within, all_within, unit_of, reserve_of, unit, skip, layout};
ghost use Rattle.records.specs.tables.Inner.{read_as, InBytes};

use crate::fields::{Field, Got, amount_at};
use crate::lists::list_at;
use crate::marks::Mark;
use crate::series::series_at;
use money::failure::Failure;
use money::offers::{Offer, last_of};
use money::production::{Reserve, UnitHour};
use money::refusals::Refusal;
use money::units::{CentsPerHour, CentsPerStart, INTERVALS, Price, Quantity, within_ok};

// The hour's energy prices, and its pre-dispatch price.
#[derive(Clone, Copy, Default)]
pub struct HourPrices {
    pub emp: [Price; INTERVALS],
    pub pd: Price,
}

#[derive(Clone, Copy)]
pub struct Import {
    pub mqsi: [Quantity; INTERVALS],
    pub offer: Offer,
}

#[derive(Clone, Copy)]
pub struct Export {
    pub mqsw: [Quantity; INTERVALS],
}

// ---- the parts of a unit's hour

// What stands before its reserves. No part of money's `UnitHour`: the formulas there would say it before each field, and only `unit_of` copies.
#[derive(Clone, Copy)]
pub struct Schedules {
    pub startup: CentsPerStart,
    pub noload: CentsPerHour,
    pub ahead: [Quantity; INTERVALS],
    pub constrained: [Quantity; INTERVALS],
    pub unconstrained: [Quantity; INTERVALS],
    pub metered: [Quantity; INTERVALS],
    pub capacity: [Quantity; INTERVALS],
}

// Two series and no row of pairs: 01 gives prices and schedules apart, each whole.
#[derive(Clone, Copy)]
pub struct ReserveSeries {
    pub prices: [Price; INTERVALS],
    pub schedules: [Quantity; INTERVALS],
}

// The series of the three kinds of reserve, each under 01's name.
#[derive(Clone, Copy)]
pub struct Reserves {
    pub spinning: ReserveSeries,
    pub nonspinning: ReserveSeries,
    pub thirty: ReserveSeries,
}

#[derive(Clone, Copy)]
pub struct Lists {
    pub ahead: Offer,
    pub real: Offer,
    pub spinning: Offer,
    pub nonspinning: Offer,
    pub thirty: Offer,
}

// ---- a reader for each layout

impl Field for HourPrices {
    ghost reader = { hour_prices };

    #[tactic(auto, using(crate::proofs::fields::Step::read_out), unfolding(crate::specs::Layouts::hour_prices))]
    #[inline(always)]
    fn read(s: &[u8], at: usize) -> Result<Got<HourPrices>, Refusal> {
        let Got { value: emp, next } = series_at(s, at)?;
        let Got { value: pd, next } = Price::read(s, next)?;
        let value = HourPrices { emp, pd };
        Ok(Got { value, next })
    }
}

impl Field for Import {
    ghost reader = { import };

    #[tactic(auto, using(crate::proofs::fields::Step::read_out), unfolding(crate::specs::Layouts::import))]
    #[inline(always)]
    fn read(s: &[u8], at: usize) -> Result<Got<Import>, Refusal> {
        let Got { value: mqsi, next } = series_at(s, at)?;
        let Got { value: offer, next } = list_at(s, next, 1)?;
        if !inside_list(offer, mqsi) {
            return Err(Refusal::BeyondList);
        }
        let value = Import { mqsi, offer };
        Ok(Got { value, next })
    }
}

impl Field for Export {
    ghost reader = { export };

    #[tactic(auto, using(crate::proofs::fields::Step::read_out), unfolding(crate::specs::Layouts::export))]
    #[inline(always)]
    fn read(s: &[u8], at: usize) -> Result<Got<Export>, Refusal> {
        let Got { value: mqsw, next } = series_at(s, at)?;
        let value = Export { mqsw };
        Ok(Got { value, next })
    }
}

impl Field for Failure {
    ghost reader = { failure };

    #[tactic(auto, using(crate::proofs::fields::Step::read_out), unfolding(crate::specs::Layouts::failure))]
    #[inline(always)]
    fn read(s: &[u8], at: usize) -> Result<Got<Failure>, Refusal> {
        let Got {
            value: day_ahead_quantity,
            next,
        } = Quantity::read(s, at)?;
        let Got {
            value: pre_dispatch_quantity,
            next,
        } = Quantity::read(s, next)?;
        let Got {
            value: day_ahead_price,
            next,
        } = Price::read(s, next)?;
        let Got {
            value: pre_dispatch_price,
            next,
        } = Price::read(s, next)?;
        let value = Failure {
            day_ahead_quantity,
            pre_dispatch_quantity,
            day_ahead_price,
            pre_dispatch_price,
        };
        Ok(Got { value, next })
    }
}

impl Field for Schedules {
    ghost reader = { schedules };

    #[tactic(auto, using(crate::proofs::fields::Step::read_out), unfolding(crate::specs::Layouts::schedules))]
    #[inline(always)]
    fn read(s: &[u8], at: usize) -> Result<Got<Schedules>, Refusal> {
        let Got {
            value: startup,
            next,
        } = amount_at(s, at, CentsPerStart::MAX.0)?;
        let Got {
            value: noload,
            next,
        } = amount_at(s, next, CentsPerHour::MAX.0)?;
        let Got { value: ahead, next } = series_at(s, next)?;
        let Got {
            value: constrained,
            next,
        } = series_at(s, next)?;
        let Got {
            value: unconstrained,
            next,
        } = series_at(s, next)?;
        let Got {
            value: metered,
            next,
        } = series_at(s, next)?;
        let Got {
            value: capacity,
            next,
        } = series_at(s, next)?;
        let value = Schedules {
            startup: CentsPerStart(startup),
            noload: CentsPerHour(noload),
            ahead,
            constrained,
            unconstrained,
            metered,
            capacity,
        };
        Ok(Got { value, next })
    }
}

impl Field for ReserveSeries {
    ghost reader = { reserve_series };

    #[tactic(auto, using(crate::proofs::fields::Step::read_out), unfolding(crate::specs::Layouts::reserve_series))]
    #[inline(always)]
    fn read(s: &[u8], at: usize) -> Result<Got<ReserveSeries>, Refusal> {
        let Got {
            value: prices,
            next,
        } = series_at(s, at)?;
        let Got {
            value: schedules,
            next,
        } = series_at(s, next)?;
        let value = ReserveSeries { prices, schedules };
        Ok(Got { value, next })
    }
}

// The least count of a reserve's list: 0 if its schedules are all 0.
fn fewest_of(schedules: [Quantity; INTERVALS]) -> u8
    ensures { result ≡ fewest schedules }
{
    if within_ok(schedules, Quantity(0)) {
        0
    } else {
        1
    }
}

// The lists of a unit's hour, of which the reserves' may be empty where their schedules are all 0.
#[tactic(auto, using(crate::proofs::fields::Step::read_out), unfolding(crate::specs::Layouts::lists))]
#[inline(always)]
fn lists_at(s: &[u8], at: usize, r: Reserves) -> Result<Got<Lists>, Refusal>
    ensures value { read_as s.now result ≡ lists r.spinning.schedules r.nonspinning.schedules r.thirty.schedules (from s.now at) }
    ensures placed { InBytes s.now result }
{
    let Got { value: ahead, next } = list_at(s, at, 1)?;
    let Got { value: real, next } = list_at(s, next, 1)?;
    let Got {
        value: spinning,
        next,
    } = list_at(s, next, fewest_of(r.spinning.schedules))?;
    let Got {
        value: nonspinning,
        next,
    } = list_at(s, next, fewest_of(r.nonspinning.schedules))?;
    let Got {
        value: thirty,
        next,
    } = list_at(s, next, fewest_of(r.thirty.schedules))?;
    let value = Lists {
        ahead,
        real,
        spinning,
        nonspinning,
        thirty,
    };
    Ok(Got { value, next })
}

#[inline(always)]
fn inside_list(o: Offer, values: [Quantity; INTERVALS]) -> bool
    ensures { result ≡ within o values }
{
    within_ok(values, last_of(o))
}

// D within both lists, each reserve schedule within its own.
#[inline(always)]
fn all_inside(l: Lists, d: [Quantity; INTERVALS], r: Reserves) -> bool
    ensures { result ≡ all_within l d r.spinning.schedules r.nonspinning.schedules r.thirty.schedules }
{
    inside_list(l.ahead, d)
        && inside_list(l.real, d)
        && inside_list(l.spinning, r.spinning.schedules)
        && inside_list(l.nonspinning, r.nonspinning.schedules)
        && inside_list(l.thirty, r.thirty.schedules)
}

#[inline(always)]
fn reserve(series: ReserveSeries, offer: Offer) -> Reserve
    ensures { result ≡ reserve_of series offer }
{
    let ReserveSeries { prices, schedules } = series;
    Reserve {
        prices,
        schedules,
        offer,
    }
}

// A unit's hour of its parts.
#[inline(always)]
fn unit_of(h: Schedules, l: Lists, r: Reserves) -> UnitHour
    ensures { result ≡ unit_of h (reserve_of r.spinning l.spinning) (reserve_of r.nonspinning l.nonspinning) (reserve_of r.thirty l.thirty) l.ahead l.real }
{
    let Schedules {
        startup,
        noload,
        ahead,
        constrained,
        unconstrained,
        metered,
        capacity,
    } = h;
    UnitHour {
        startup,
        noload,
        ahead,
        constrained,
        unconstrained,
        metered,
        capacity,
        spinning: reserve(r.spinning, l.spinning),
        nonspinning: reserve(r.nonspinning, l.nonspinning),
        thirty: reserve(r.thirty, l.thirty),
        aheadoffer: l.ahead,
        realoffer: l.real,
    }
}

impl Field for UnitHour {
    ghost reader = { unit };

    #[tactic(auto, using(crate::proofs::fields::Step::read_out), unfolding(crate::specs::Layouts::unit))]
    #[inline(always)]
    fn read(s: &[u8], at: usize) -> Result<Got<UnitHour>, Refusal> {
        let Got { value: h, next } = Schedules::read(s, at)?;
        let Got {
            value: spinning,
            next,
        } = ReserveSeries::read(s, next)?;
        let Got {
            value: nonspinning,
            next,
        } = ReserveSeries::read(s, next)?;
        let Got {
            value: thirty,
            next,
        } = ReserveSeries::read(s, next)?;
        let r = Reserves {
            spinning,
            nonspinning,
            thirty,
        };
        let Got { value: l, next } = lists_at(s, next, r)?;
        if !all_inside(l, h.ahead, r) {
            return Err(Refusal::BeyondList);
        }
        let value = unit_of(h, l, r);
        Ok(Got { value, next })
    }
}

// The place behind a layout's fields.
#[inline(always)]
fn skip<T: Field>(s: &[u8], at: usize) -> Result<Got<()>, Refusal>
    ensures value { read_as s.now result ≡ skip T.reader (from s.now at) }
    ensures placed { InBytes s.now result }
{
    let Got { next, .. } = T::read(s, at)?;
    Ok(Got { value: (), next })
}

// The same of the layout of a mark.
pub(crate) fn layout_at(s: &[u8], at: usize, mark: Mark) -> Result<Got<()>, Refusal>
    ensures value { read_as s.now result ≡ layout mark (from s.now at) }
    ensures placed { InBytes s.now result }
{
    match mark {
        Mark::Pr => skip::<HourPrices>(s, at),
        Mark::Im => skip::<Import>(s, at),
        Mark::Ex => skip::<Export>(s, at),
        Mark::Gh => skip::<UnitHour>(s, at),
        Mark::Fi => skip::<Failure>(s, at),
        Mark::Fe => skip::<Failure>(s, at),
    }
}
