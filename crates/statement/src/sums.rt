// What a line counts in a sum of lines.
ghost use Rattle.std.specs.Prelude.{◌≡◌, ◌+ℤ◌};
ghost use Rattle.money.specs.tables.Numbers.{Moderate};
ghost use Rattle.statement.specs.Total.{effect_of, towards};
ghost use Rattle.statement.specs.tables.Inner.{Countable};

use crate::lines::{Kind, Line};
use money::units::Cents;

// What becomes of an amount that counts in a sum.
#[derive(Clone, Copy)]
pub enum Effect {
    Added,
    TakenOff,
}

impl Kind {
    // None: it counts nothing.
    pub(crate) fn effect(self) -> Option<Effect>
        ensures { result ≡ effect_of self }
    {
        match self {
            Kind::Iog => Some(Effect::Added),
            Kind::Off => Some(Effect::TakenOff),
            Kind::Ifc => Some(Effect::TakenOff),
            Kind::Efc => Some(Effect::TakenOff),
            Kind::Pcg => Some(Effect::Added),
            Kind::Rev => Some(Effect::Added),
            Kind::Err => None,
            Kind::Tot => None,
        }
    }
}

impl Line {
    // Its cents as they count.
    pub(crate) fn towards(self) -> Cents
        requires { Countable self }
        ensures { result.0 ≡ towards self }
    {
        match self.kind.effect() {
            Some(Effect::Added) => self.cents,
            Some(Effect::TakenOff) => Cents(-self.cents.0),
            None => Cents(0),
        }
    }
}

// The sum with one more amount, as it counts.
pub(crate) fn counted(sum: Cents, towards: Cents) -> Cents
    requires { Moderate sum.0 × Moderate towards.0 }
    ensures { result.0 ≡ sum.0 +ℤ towards.0 }
{
    Cents(sum.0 + towards.0)
}
