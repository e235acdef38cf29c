// What the written bytes of a book are.
ghost use Rattle.std.specs.Prelude.{◌≡◌};
ghost use Rattle.records.specs.Changes.{scan};
ghost use Rattle.records.specs.Answers.{view_in};

use crate::changes::{Read, read_change};
use crate::keys::Key;
use crate::marks::{Kind, Wanted, starts};
use crate::writing::head_of;

// A change of a record as the book sees it: what it does, its key, and its written length.
#[derive(Clone, Copy)]
pub struct View {
    pub kind: Kind,
    pub key: Key,
    pub len: usize,
}

// The change that some bytes of a book begin with, if they are written so. Its head is at hand, as it is compared, so that no `change_at` is asked.
#[tactic(auto, using(crate::proofs::writing::Lemmas::peeks))]
pub fn peek(s: &[u8]) -> Option<View>
    ensures { result ≡ view_in (scan s.now) }
{
    let Read {
        kind,
        key,
        body,
        end,
    } = read_change(s, Wanted::Any).ok()?;
    let head = head_of(kind, key);
    if !starts(s, head.as_slice()) {
        return None;
    }
    let len = head.len() + (end - body);
    Some(View { kind, key, len })
}
