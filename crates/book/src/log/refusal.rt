// The refusals 10 to 13.
ghost use Rattle.std.specs.Prelude.{◌≡◌, is_some};
ghost use Rattle.book.specs.Layer.{fault_in};
ghost use Rattle.book.specs.Register.{capped, space_fault};
ghost use Rattle.book.specs.tables.Tables.{change_fault};

use crate::book::{CHANGES_MAX, USED_MAX};
use crate::log::rows::Standing;
use money::refusals::Refusal;
use records::marks::is_filing;
use records::scan::View;

// The bytes that a book can use of those lent.
pub(crate) fn capacity(lent: usize) -> usize
    ensures { result ≡ capped lent }
{
    lent.min(USED_MAX)
}

fn check_space(changes: usize, used: usize, len: usize, lent: usize) -> Result<(), Refusal>
    ensures { fault_in result ≡ space_fault changes used len lent }
{
    let most = capacity(lent);
    if CHANGES_MAX <= changes || most < used || most - used < len {
        return Err(Refusal::NoSpace);
    }
    Ok(())
}

// Whether a change can be made, by what stands under its key, by how many stand of its mark and hour, and by what is free. A struct of
// the seven would be made at the two calls and taken apart here.
#[tactic(auto, unfolding(crate::specs::tables::Tables::change_fault))]
pub(crate) fn check_change(
    view: View,
    standing: Option<Standing>,
    count: usize,
    most: usize,
    changes: usize,
    used: usize,
    lent: usize,
) -> Result<(), Refusal>
    ensures { fault_in result ≡ change_fault view.kind (is_some standing) count most changes used view.len lent }
{
    if is_filing(view.kind) {
        if standing.is_some() {
            return Err(Refusal::KeyStands);
        }
        if most <= count {
            return Err(Refusal::HourFull);
        }
    } else if standing.is_none() {
        return Err(Refusal::NoSuchKey);
    }
    check_space(changes, used, view.len, lent)
}
