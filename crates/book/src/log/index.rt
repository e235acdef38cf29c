// Where a replay looks for a key: by a number of the key, and by mark and hour. No map: the book owns no heap.
ghost use Rattle.std.specs.Prelude.{◌≡◌, ◌<◌};
ghost use Rattle.book.specs.tables.Index.{slots, buckets, hour_slot, bucket};

use records::keys::Key;
use records::marks::key_order;

// A mark has one slot for each hour and some that none has; 16 marks have them.
pub(crate) const MARK_SLOTS: usize = 32;

pub(crate) const SLOTS: usize = 512;

// The numbers that a key may have.
pub(crate) const BUCKETS: usize = 8192;

pub(crate) fn hour_slot(key: Key) -> usize
    ensures { (result ≡ hour_slot key) × (result < slots) }
{
    let mark = key.mark;
    usize::from(key_order(mark)) * MARK_SLOTS + usize::from(key.hour)
}

pub(crate) fn bucket_of(key: Key) -> usize
    ensures { (result ≡ bucket key) × (result < buckets) }
{
    let name = key.name;
    let bytes = name.bytes;
    let mut sum = hour_slot(key);
    let mut weight: usize = 449;
    for b in bytes {
        sum += usize::from(b) * weight;
        weight = weight * 31 % BUCKETS;
    }
    sum % BUCKETS
}
