// What an hour holds, and keys of one name.
ghost use Rattle.std.specs.Prelude.{◌≡◌};
ghost use Rattle.records.specs.Hours.{limit_of, same_name};

use crate::keys::{Key, same_key};
use crate::marks::limit;

// How many records of the key's mark an hour may hold.
#[tactic(auto, unfolding(crate::specs::Hours::limit_of))]
pub fn limit_of(key: Key) -> usize
    ensures { result ≡ limit_of key }
{
    limit(key.mark) as usize
}

// The same mark and name, in any hours. No `==` of keys says it: that would want the hours too.
#[tactic(auto, unfolding(crate::specs::Hours::same_name, crate::specs::Hours::at_hour))]
pub fn same_name(a: Key, b: Key) -> bool
    ensures { result ≡ same_name a b }
{
    let hour = a.hour;
    same_key(a, Key { hour, ..b })
}
