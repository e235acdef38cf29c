// What a call brings back: a value, or 01's refusal.
ghost use Rattle.std.specs.Prelude.{◌≡◌, Err};
ghost use Rattle.money.specs.declared.refusals.Refusal.TheVariants.{NoSuchKey};
ghost use Rattle.book.specs.Layer.{empty_name, no_ticks};

use crate::book::{Book, CHANGES_MAX};
use fixed_list::{Blank, FixedList};
use money::imports::IMPORTS_MAX;
use money::names::Name;
use money::production::DayTotals;
use money::refusals::Refusal;
use money::units::{HOURS, Ticks};
use records::marks::HOUR_LIMIT;

// The book as a change hands it back, and whether it was accepted. No bare Result: 01 hands the book back with a refusal, too.
#[derive(Clone, Copy)]
pub struct Done {
    pub book: Book,
    pub answer: Result<(), Refusal>,
}

// Where a record is written: its start and its length.
#[derive(Clone, Copy)]
pub struct Place {
    pub start: usize,
    pub len: usize,
}

// The most credits of an hour: it holds no more imports.
pub const CREDITS_MAX: usize = IMPORTS_MAX;

// The most charges of an hour and mark: it holds no more failures.
pub const CHARGES_MAX: usize = HOUR_LIMIT as usize;

// An amount, and the decoded name that it belongs to.
#[derive(Clone, Copy, Default)]
pub struct NamedAmount {
    pub name: Name,
    pub ticks: Ticks,
}

// No amount stands in a list's place without an element.
impl Blank for NamedAmount {
    ghost blank = { record { name = empty_name; ticks = no_ticks } };

    fn blank() -> Self {
        NamedAmount {
            name: Blank::blank(),
            ticks: Ticks(0),
        }
    }
}

// Credits by name.
pub type Credits = FixedList<NamedAmount, CREDITS_MAX>;

// Charges by name.
pub type Charges = FixedList<NamedAmount, CHARGES_MAX>;

// The credits of an hour's imports and its wheel offset.
#[derive(Clone, Copy)]
pub struct Guarantees {
    pub credits: Credits,
    pub offset: Ticks,
}

// An hour's guarantees, its charges of failed imports and those of failed exports.
#[derive(Clone, Copy)]
pub struct HourAmounts {
    pub guarantees: Result<Guarantees, Refusal>,
    pub imports: Result<Charges, Refusal>,
    pub exports: Result<Charges, Refusal>,
}

// A unit's decoded name and its day.
#[derive(Clone, Copy)]
pub struct UnitAmounts {
    pub name: Name,
    pub day: Result<DayTotals, Refusal>,
}

// A place without a unit.
impl Default for UnitAmounts {
    ghost is_default = { λ u. u.day ≡ Err NoSuchKey };

    fn default() -> Self {
        UnitAmounts {
            name: Default::default(),
            day: Err(Refusal::NoSuchKey),
        }
    }
}

// The same in a list's place without an element.
impl Blank for UnitAmounts {
    ghost blank = { record { name = empty_name; day = Err NoSuchKey } };

    fn blank() -> Self {
        UnitAmounts {
            name: Blank::blank(),
            day: Err(Refusal::NoSuchKey),
        }
    }
}

// All amounts of a day: those of hour h at h - 1, and the units by name.
#[derive(Clone, Copy)]
pub struct DayAmounts {
    pub hours: [HourAmounts; HOURS],
    pub units: FixedList<UnitAmounts, CHANGES_MAX>,
}
