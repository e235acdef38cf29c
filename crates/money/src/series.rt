// Series of twelve quantities, an interval's from two.
ghost use Rattle.std.specs.Prelude.{ℕ, ◌<◌, get_or};
ghost use Rattle.money.specs.Units.{intervals, no_quantity};

use crate::units::{INTERVALS, Quantity};
use std::array;

// For each interval, what `by` makes of the two.
pub(crate) fn zip_series<F: Fn(Quantity, Quantity) -> Quantity>(
    a: [Quantity; INTERVALS],
    b: [Quantity; INTERVALS],
    by: F,
) -> [Quantity; INTERVALS]
    requires { (k : ℕ) → k < intervals → F.pre by (get_or a k no_quantity) (get_or b k no_quantity) }
    ensures { (k : ℕ) → k < intervals → F.post by (get_or a k no_quantity) (get_or b k no_quantity) (get_or result k no_quantity) }
{
    array::from_fn(|k| by(a[k], b[k]))
}
