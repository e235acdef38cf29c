// Changes written, each name in its one spelling.
ghost use Rattle.std.specs.Prelude.{◌≡◌, ◌+◌, ◌≤◌, ◌++◌, length};
ghost use Rattle.money.specs.Answers.{fault_in};
ghost use Rattle.money.specs.Names.{max_name};
ghost use Rattle.records.specs.Changes.{lead_bytes, name_bytes, head_bytes, parse, put_number, put_bytes};
ghost use Rattle.records.specs.tables.Viewed.{is_view, viewed_number, viewed_bytes};
ghost use Rattle.records.specs.tables.Inner.{Wrote, max_name_head};

use crate::changes::read_change;
use crate::keys::Key;
use crate::marks::{Kind, Mark, Wanted, bytes_of, has_name};
use crate::names::{push_name, spelled_len};
use crate::scan::View;
use fixed_list::FixedList;
use money::names::{NAME_MAX, Name};
use money::refusals::Refusal;

// The most bytes of a name with its length byte, and of a head: two marks and the hour before it.
pub const NAME_HEAD_MAX: usize = 37;

const HEAD_MAX: usize = 42;

// Copies bytes to a place, and answers the place behind them. The statement's `put_part` does not call it: each crate's promise is in its own word, `Wrote`
// here and `Writes` there, and a public `copy` would be std's copy_from_slice under a second name.
// Byte by byte, and not by `copy_from_slice`: of that the archives for C would need `memmove` from outside, which they did not before.
fn copy(src: &[u8], out: &mut [u8], at: usize) -> usize
    requires { at + length src.now ≤ length out.old }
    ensures { Wrote out.old out.new at result src.now }
{
    let mut i: usize = 0;
    while i < src.len() {
        out[at + i] = src[i];
        i += 1;
    }
    at + i
}

// What is pushed here asks for its room: the room that is left is a fact of each step, not of a value.
fn push_lead<const N: usize>(kind: Kind, out: &mut FixedList<u8, N>)
    requires { length out.old.items + 2 ≤ N }
    ensures { out.new.items ≡ out.old.items ++ lead_bytes kind }
{
    match kind {
        Kind::File => {}
        Kind::Correct => push_two(*b"CO", out),
        Kind::Withdraw => push_two(*b"WD", out),
    }
}

fn push_two<const N: usize>(bytes: [u8; 2], out: &mut FixedList<u8, N>)
    requires { length out.old.items + 2 ≤ N }
    ensures { out.new.items ≡ out.old.items ++ bytes }
{
    out.push(bytes[0]);
    out.push(bytes[1]);
}

// Mark and name, no key: the hour stands before them.
#[tactic(auto, unfolding(crate::specs::Changes::name_bytes))]
pub(crate) fn push_key_name<const N: usize>(
    kind: Kind,
    mark: Mark,
    name: Name,
    out: &mut FixedList<u8, N>,
)
    requires name_in { name.len ≤ max_name }
    requires room { length out.old.items + max_name_head ≤ N }
    ensures { out.new.items ≡ out.old.items ++ name_bytes kind mark name }
{
    if has_name(mark) {
        out.push(spelled_len(name) as u8);
        push_name(name, out);
    } else if kind == Kind::Withdraw {
        out.push(0);
    }
}

// The bytes of a change before its fields.
#[tactic(auto, using(crate::proofs::writing::Lemmas::heads), unfolding(crate::specs::Changes::head_bytes))]
pub(crate) fn head_of(kind: Kind, key: Key) -> FixedList<u8, HEAD_MAX>
    requires { key.name.len ≤ max_name }
    ensures { result.items ≡ head_bytes kind key }
{
    let mut out = FixedList::new();
    push_lead(kind, &mut out);
    push_two(bytes_of(key.mark), &mut out);
    out.push(key.hour);
    push_key_name(kind, key.mark, key.name, &mut out);
    out
}

// Writes the change that an argument's bytes are at a place of the log. 13 where it does not fit there.
#[tactic(auto, using(crate::proofs::writing::Lemmas::puts))]
pub fn put(log: &mut [u8], at: usize, s: &[u8], want: Wanted) -> Result<(), Refusal>
    ensures value { fault_in result ≡ put_number (parse want s.now) at log.old }
    ensures log_after { log.new ≡ put_bytes (parse want s.now) at log.old }
{
    let read = read_change(s, want)?;
    if read.end < s.len() {
        return Err(Refusal::BytesLeftOver);
    }
    let head = head_of(read.kind, read.key);
    let m = head.len();
    let body = &s[read.body..read.end];
    if log.len() < at || log.len() - at < m + body.len() {
        return Err(Refusal::NoSpace);
    }
    let next = copy(head.as_slice(), log, at);
    copy(body, log, next);
    Ok(())
}

// Whether a view is one of a change whose body has room in some bytes.
#[tactic(auto, using(crate::proofs::writing::PutViewed::views))]
fn is_view(view: View, lent: usize) -> bool
    ensures { result ≡ is_view view lent }
{
    if NAME_MAX < view.key.name.len as usize {
        return false;
    }
    let head = head_of(view.kind, view.key);
    head.len() <= view.len && view.len - head.len() <= lent
}

// Writes the change that bytes end with, of which the view is known, at a place of the log. 13 where it does not fit there, 2 where the view is none: `peek`'s
// answer can be handed on as it is.
// `put` ends alike, with a body of its own: one end for both would be promised a third time.
#[tactic(auto, using(crate::proofs::writing::PutViewed::viewed))]
pub fn put_viewed(log: &mut [u8], at: usize, s: &[u8], view: Option<View>) -> Result<(), Refusal>
    ensures value { fault_in result ≡ viewed_number view at s.now log.old }
    ensures log_after { log.new ≡ viewed_bytes view at s.now log.old }
{
    let view = view.ok_or(Refusal::MarkUnknown)?;
    if !is_view(view, s.len()) {
        return Err(Refusal::MarkUnknown);
    }
    let len = view.len;
    if log.len() < at || log.len() - at < len {
        return Err(Refusal::NoSpace);
    }
    let head = head_of(view.kind, view.key);
    let m = head.len();
    let next = copy(head.as_slice(), log, at);
    let body = s.len() - (len - m);
    copy(&s[body..], log, next);
    Ok(())
}
