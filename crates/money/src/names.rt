// Decoded names: their rule and their order.
ghost use Rattle.std.specs.Prelude.{◌≡◌, refl, Some, nat_eq, replicate};
ghost use Rattle.std.specs.Ordering.{nat_cmp, on};
ghost use Rattle.std.specs.Cmp.{on_po, partial_equiv_from_equiv};
ghost use Rattle.std.specs.Cmp.Lexicographic.{pointwise, slice_cmp, on_texts, on_texts_equal, texts_po, texts_ties};
ghost use Rattle.money.specs.Names.{max_name, decoded_bytes, name_before, same_name, name_ok};

use fixed_list::Blank;
use std::cmp::Ordering;

// Bytes of a decoded name, at most.
pub const NAME_MAX: usize = 12;

// A decoded name: its length, and places for twelve bytes. No FixedList: a caller may make a name of any bytes behind its length.
// No derived `==` and `<`: the places behind the length would count.
#[derive(Clone, Copy, Default)]
pub struct Name {
    pub len: u8,
    pub bytes: [u8; NAME_MAX],
}

// No name stands in a list's place without an element.
impl Blank for Name {
    ghost blank = { record { len = 0; bytes = replicate max_name 0 } };

    fn blank() -> Self {
        Name {
            len: 0,
            bytes: [0; NAME_MAX],
        }
    }
}

impl Name {
    // Its decoded bytes.
    pub(crate) fn decoded(&self) -> &[u8]
        ensures { result.now ≡ decoded_bytes self.now }
    {
        let used = NAME_MAX.min(self.len as usize);
        &self.bytes[..used]
    }
}

impl PartialEq for Name {
    ghost eq = { on decoded_bytes (pointwise nat_eq) };

    ghost laws = { partial_equiv_from_equiv (on_texts_equal decoded_bytes) };

    fn eq(&self, other: &Name) -> bool {
        self.decoded() == other.decoded()
    }
}

impl Eq for Name {
    ghost laws = { on_texts_equal decoded_bytes };
}

// Byte order, a prefix first.
impl PartialOrd for Name {
    ghost partial_cmp = { λ a b. Some (slice_cmp nat_cmp (decoded_bytes a) (decoded_bytes b)) };

    ghost laws = { on_po decoded_bytes texts_po };

    fn partial_cmp(&self, other: &Name) -> Option<Ordering> {
        Some(self.cmp(other))
    }
}

impl Ord for Name {
    ghost cmp = { on decoded_bytes (slice_cmp nat_cmp) };

    ghost total = { on_texts decoded_bytes };

    ghost matches_partial_cmp = { λ a b. refl };

    ghost matches_eq = { λ a b. texts_ties (decoded_bytes a) (decoded_bytes b) };

    fn cmp(&self, other: &Name) -> Ordering {
        self.decoded().cmp(other.decoded())
    }
}

// 01's words for `<` and `==` of names; definitions and other crates' theorems cite them.
pub fn name_before(a: Name, b: Name) -> bool
    ensures { result ≡ name_before (decoded_bytes a) (decoded_bytes b) }
{
    a < b
}

pub fn same_name(a: Name, b: Name) -> bool
    ensures { result ≡ same_name a b }
{
    a == b
}

// 1 to 12 bytes, each 0x21 to 0x7E: std's graphic bytes.
pub fn name_ok(a: Name) -> bool
    ensures { result ≡ name_ok a }
{
    (1..=NAME_MAX as u8).contains(&a.len) && a.decoded().iter().all(|b| b.is_ascii_graphic())
}
