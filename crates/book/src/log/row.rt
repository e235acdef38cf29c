// What a checked book knows of a change, in one number: where it begins, its mark and hour, its kind, and whether the record that it wrote stands.
ghost use Rattle.std.specs.Prelude.{◌≡◌, not, ◌&&◌, eqb, drop, ◌<◌, ◌+◌};
ghost use Rattle.book.specs.Layer.{begins, is_withdrawal, key_order};
ghost use Rattle.book.specs.tables.Index.{slots};
ghost use Rattle.book.specs.tables.Rows.{slot_unit, row_slot, row_live, row_place, row_start, row_kind, row_gone, kind_code, packed};
ghost use Rattle.book.specs.tables.Checked.{row_stands};
ghost use Rattle.book.specs.tables.Hours.{mark_hour};

use crate::log::index::{MARK_SLOTS, SLOTS};
use records::marks::{Kind, Mark, is_correction, is_withdrawal, key_order, starts};
use records::scan::View;

// A row's units: below the first stands the place, then mark and hour, then the kind, then whether the record stands.
const SLOT_UNIT: u32 = 65536;

const KIND_UNIT: u32 = 33554432;

const LIVE_UNIT: u32 = 134217728;

// Where a record has its name: behind mark and hour.
const NAME_AT: usize = 3;

// No fields: the count of an hour's records takes eight rows of one number at a time. To feed a busy day of 513 records costs 2,068,497
// instructions so, and 2,323,083 with four fields, above the tenth that a form may cost more; 2,256,121 with a `&` in the place of `stands`' `&&`.
#[derive(Clone, Copy, Default)]
pub(crate) struct Row(u32);

// A kind in two bits of a row. No `From`: these bits mean a kind in a row alone.
fn code_of(kind: Kind) -> u32
    ensures { (result ≡ kind_code kind) × (result < 4) }
{
    match kind {
        Kind::File => 1,
        Kind::Correct => 2,
        Kind::Withdraw => 3,
    }
}

impl Row {
    // A change at q whose record stands, unless it is a withdrawal.
    pub(crate) fn of(view: View, slot: usize, q: usize) -> Row
        requires { (slot < slots) × (q < slot_unit) }
        ensures { result ≡ packed (not (is_withdrawal view.kind)) view.kind slot q }
    {
        let row = code_of(view.kind) * KIND_UNIT + slot as u32 * SLOT_UNIT + q as u32;
        if is_withdrawal(view.kind) {
            return Row(row);
        }
        Row(LIVE_UNIT + row)
    }

    pub(crate) fn start(self) -> usize
        ensures { (result ≡ row_start self) × (result < slot_unit) }
    {
        (self.0 % SLOT_UNIT) as usize
    }

    // The kind of its two bits.
    pub(crate) fn kind(self) -> Kind
        ensures { result ≡ row_kind self }
    {
        match self.0 / KIND_UNIT % 4 {
            1 => Kind::File,
            2 => Kind::Correct,
            _ => Kind::Withdraw,
        }
    }

    // Where the change wrote its record.
    pub(crate) fn place(self) -> usize
        ensures { (result ≡ row_place self) × (result < slot_unit + 2) }
    {
        if is_correction(self.kind()) {
            return self.start() + 2;
        }
        self.start()
    }

    // The mark and hour of its record.
    pub(crate) fn slot(self) -> usize
        ensures { (result ≡ row_slot self) × (result < slots) }
    {
        (self.0 / SLOT_UNIT % SLOTS as u32) as usize
    }

    // Whether the record that it wrote stands.
    pub(crate) fn is_live(self) -> bool
        ensures { result ≡ row_live self }
    {
        LIVE_UNIT <= self.0
    }

    // Whether its record stands, and is of the mark and hour.
    pub(crate) fn stands(self, slot: usize) -> bool
        ensures { result ≡ (row_live self && eqb (row_slot self) slot) }
    {
        self.is_live() && self.slot() == slot
    }

    // Whether it filed or corrected a record of the mark and hour.
    pub(crate) fn wrote(self, slot: usize) -> bool
        ensures { result ≡ (not (is_withdrawal (row_kind self)) && eqb (row_slot self) slot) }
    {
        !is_withdrawal(self.kind()) && self.slot() == slot
    }

    // Whether its record begins with a name, behind mark and hour. One beyond the log's end has no bytes.
    pub(crate) fn has_name(self, log: &[u8], name: &[u8]) -> bool
        ensures { result ≡ begins name.now (drop (row_place self + 3) log.now) }
    {
        let at = (self.place() + NAME_AT).min(log.len());
        starts(&log[at..], name)
    }

    // The hour of its record, where that stands and is of the mark.
    pub(crate) fn hour_of(self, mark: Mark) -> Option<usize>
        ensures { result ≡ mark_hour (key_order mark) self }
    {
        let slot = self.slot();
        if self.is_live() && slot / MARK_SLOTS == key_order(mark) as usize {
            return Some(slot % MARK_SLOTS);
        }
        None
    }

    // The row where its record stands no longer.
    pub(crate) fn gone(self) -> Row
        ensures { result ≡ row_gone self }
    {
        Row(self.0 % LIVE_UNIT)
    }

    // The row where its record stands again.
    pub(crate) fn restored(self) -> Row
        ensures { result ≡ row_stands self }
    {
        Row(self.0 % LIVE_UNIT + LIVE_UNIT)
    }
}
