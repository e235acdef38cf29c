// The proved crates over numbers and slices, for a program in another language that holds them against its own. A slice is a
// pointer and a count. Each function answers 0 or the number of the refusal, and promises what it leaves in every lent place: at a
// refusal what stood there. Exported functions take each argument by itself, as C does: a book is three numbers of `state` beside the
// `lent` bytes, a key is mark, hour and name, and answers go to places in `sizes` and `amounts`, two rows for numbers of two types.
// Private functions pass `out` and these rows on as they are lent. Numbers of methods are C's too: each function tells them apart once.
#![tactic(auto)]

ghost use Rattle.std.specs.Prelude.{◌≡◌, ◌+◌, ◌*◌, ◌≤◌, cond, eqb, Option, is_some, length, IfOk};
ghost use Rattle.money.specs.Answers.{Amount, answer_of, fault_in};
ghost use Rattle.records.specs.Changes.{parse, put_number, put_bytes, entry};
ghost use Rattle.records.specs.Answers.{front_of};
ghost use Rattle.book.specs.Register.{record_of, count_of, free_bytes, hour_guarantees, day_of, failure_charge};
ghost use Rattle.book.specs.Meaning.{place_reply, number_reply, charge_reply, guarantees_reply, day_reply};
ghost use Rattle.book.specs.Replies.{replied};
ghost use Rattle.book.specs.Handed.{max_credits};
ghost use Rattle.demands.specs.Script.{change_of};
ghost use Rattle.statement.specs.Statement.{written};
ghost use Rattle.bridge.specs.Bridge.{stored, told, fault_of, end_in, size_in, order, compare_fault, order_of, any_fault, any_size, any_bytes, write_fault, write_size, write_bytes, wanted_by};
ghost use Rattle.bridge.specs.Bridge.{filing_fault, amount_mark, amount_at, amount_in, amount_fault, amount_told};
ghost use Rattle.bridge.specs.Bridge.{no_book, book_from, book_in, handed_back, method_in, hour_in, Changed};
ghost use Rattle.bridge.specs.Bridge.{asked, sizes_told, amounts_told, import_place, place_told, credit_sizes, credits_sizes, credits_amounts, hour_sizes, hour_amounts};
ghost use Rattle.bridge.specs.Bridge.{feed_in, feed_state, feed_sizes, FeedBytes, statement_in, pages_in};

use book::answers::{Done, Guarantees, NamedAmount, Place};
use book::book::Book;
use book::feed::{Fed, feed};
use demands::make_change;
use money::names::Name;
use money::production::DayTotals;
use money::refusals::Refusal;
use money::units::Ticks;
use records::amounts::{failure_charge, import_credit, unit_amount};
use records::keys::ask_name;
use records::layouts::HourPrices;
use records::marks::{Kind, Mark, Wanted, starts};
use records::names::spell_name;
use records::parse::{Act, first_change, parse_any, parse_change, parse_close, parse_take_back};
use records::views::prices_of;
use records::writing::put;
use statement::day::statement;
use statement::pages::pages;
use std::cmp::Ordering;

#[unsafe(no_mangle)]
pub extern "C" fn pewatuno_interface() -> u32
    ensures { result ≡ 2 }
{
    2
}

// Bit 0: records; bit 1: amounts of single records; bit 2: the book; bit 3: its questions for amounts; bit 4: the offset of an hour,
// which stands in an archive of its own; bit 5: records back to back, and the statement with its pages.
#[unsafe(no_mangle)]
pub extern "C" fn pewatuno_layers() -> u32
    ensures { result ≡ 63 }
{
    63
}

// Sets a place that is lent for an answer, where there is such a place.
fn set<T: Copy>(row: &mut [T], i: usize, x: T)
    ensures { row.new ≡ stored row.old i x }
{
    if i < row.len() {
        row[i] = x;
    }
}

// A call's number: 0, or that of its refusal.
fn code<T>(answer: &Result<T, Refusal>) -> u32
    ensures { result ≡ fault_in answer.now }
{
    match answer {
        Ok(_) => 0,
        Err(refusal) => refusal.number() as u32,
    }
}

// Start and length of a record, in two places from the i-th on.
fn set_place(sizes: &mut [u64], i: usize, place: Place)
    requires { i ≤ 2 * max_credits + 1 }
    ensures { sizes.new ≡ stored (stored sizes.old i place.start) (i + 1) place.len }
{
    set(sizes, i, place.start as u64);
    set(sizes, i + 1, place.len as u64);
}

// A number of records or of bytes, or the number of the refusal. Five functions tell a call's answer, one for each shape (number, place, guarantees, charge,
// day), as each sets other places: one over a closure that sets them would state the promise for the places a second time, at the closure.
fn tell_number(sizes: &mut [u64], answer: Result<usize, Refusal>) -> u32
    ensures value { result ≡ fault_in answer }
    ensures sizes_after { sizes.new ≡ told result (written answer) sizes.old }
    ensures replied { replied (number_reply answer) ≡ fault_in answer }
    ensures told_so { sizes_told (number_reply answer) sizes.old ≡ sizes.new }
{
    if let Ok(n) = answer {
        set(sizes, 0, n as u64);
    }
    code(&answer)
}

fn write_change(want: Wanted, bytes: &[u8], out: &mut [u8], sizes: &mut [u64]) -> u32
    ensures value { result ≡ put_number (parse want bytes.now) 0 out.old }
    ensures out_after { out.new ≡ put_bytes (parse want bytes.now) 0 out.old }
    ensures sizes_after { sizes.new ≡ told result (size_in (parse want bytes.now)) sizes.old }
{
    let len = parse_change(bytes, want).map_or(0, |view| view.len);
    tell_number(sizes, put(out, 0, bytes, want).map(|()| len))
}

fn write_any(bytes: &[u8], out: &mut [u8], sizes: &mut [u64]) -> u32
    ensures value { result ≡ any_fault bytes.now out.old }
    ensures out_after { out.new ≡ any_bytes bytes.now out.old }
    ensures sizes_after { sizes.new ≡ told result (any_size bytes.now) sizes.old }
{
    match parse_any(bytes) {
        Ok(Act::Change(_)) => write_change(Wanted::Any, bytes, out, sizes),
        read => tell_number(sizes, read.map(|_| 0)),
    }
}

// What a method's number asks for, by its last two bits.
#[tactic(auto, unfolding(crate::specs::Bridge::wanted_by))]
fn wanted_by(method: u32) -> Wanted
    ensures { result ≡ wanted_by method }
{
    match method % 4 {
        1 => Wanted::Only(Kind::File),
        2 => Wanted::Only(Kind::Correct),
        3 => Wanted::Only(Kind::Withdraw),
        _ => Wanted::Any,
    }
}

// Reads one change, for any mark (0) or a method's (1 to 5), and writes it in its written form.
#[unsafe(no_mangle)]
pub extern "C" fn pewatuno_write(
    method: u32,
    bytes: &[u8],
    out: &mut [u8],
    sizes: &mut [u64],
) -> u32
    ensures value { result ≡ write_fault method bytes.now out.old }
    ensures out_after { out.new ≡ write_bytes method bytes.now out.old }
    ensures sizes_after { sizes.new ≡ told result (write_size method bytes.now) sizes.old }
{
    match method {
        0 => write_any(bytes, out, sizes),
        4 => tell_number(sizes, parse_take_back(bytes).map(|()| 0)),
        5 => tell_number(sizes, parse_close(bytes).map(|()| 0)),
        _ => write_change(wanted_by(method), bytes, out, sizes),
    }
}

// Where the change ends that the bytes begin with.
#[unsafe(no_mangle)]
pub extern "C" fn pewatuno_next(bytes: &[u8], sizes: &mut [u64]) -> u32
    ensures value { result ≡ fault_of (front_of bytes.now (entry bytes.now)) }
    ensures sizes_after { sizes.new ≡ told result (end_in (front_of bytes.now (entry bytes.now))) sizes.old }
{
    tell_number(sizes, first_change(bytes).map(|front| front.end))
}

// 0 before, 1 same, 2 after.
#[tactic(auto, using(crate::proofs::Names::orders))]
fn order_of(a: Name, b: Name) -> usize
    ensures { result ≡ order a b }
{
    match a.cmp(&b) {
        Ordering::Less => 0,
        Ordering::Equal => 1,
        Ordering::Greater => 2,
    }
}

// Two spelled names, by their decoded bytes.
fn compare(a: &[u8], b: &[u8]) -> Result<usize, Refusal>
    ensures fault { fault_in result ≡ compare_fault a.now b.now }
    ensures value { IfOk result (λ n. n ≡ order_of a.now b.now) }
{
    let a = ask_name(a)?;
    let b = ask_name(b)?;
    Ok(order_of(a, b))
}

// The same for a program in another language.
#[unsafe(no_mangle)]
pub extern "C" fn pewatuno_compare(a: &[u8], b: &[u8], sizes: &mut [u64]) -> u32
    ensures value { result ≡ compare_fault a.now b.now }
    ensures sizes_after { sizes.new ≡ told result (order_of a.now b.now) sizes.old }
{
    tell_number(sizes, compare(a, b))
}

// ---- amounts of single records

// The mark that was found in front of bytes, where they are a record.
fn filed(bytes: &[u8], found: Option<Mark>) -> Result<Mark, Refusal>
    ensures fault { fault_in result ≡ filing_fault bytes.now (is_some found) }
    ensures value { IfOk result (λ m. found ≡ Option.Some m) }
{
    if bytes.len() < 2 {
        return Err(Refusal::EndsEarly);
    }
    let mark = found.ok_or(Refusal::MarkUnknown)?;
    parse_change(bytes, Wanted::Only(Kind::File))?;
    Ok(mark)
}

// The mark of a record that has an amount, where bytes begin with one.
fn amount_mark(bytes: &[u8]) -> Option<Mark>
    ensures { result ≡ amount_mark bytes.now }
{
    match bytes {
        [b'I', b'M', ..] => Some(Mark::Im),
        [b'G', b'H', ..] => Some(Mark::Gh),
        [b'F', b'I', ..] => Some(Mark::Fi),
        [b'F', b'E', ..] => Some(Mark::Fe),
        _ => None,
    }
}

// Its amount, by the mark that was found. A `PR` and an `EX` have none; `failure_charge` would refuse them.
fn amount_of(mark: Mark, bytes: &[u8], prices: HourPrices) -> Result<Ticks, Refusal>
    requires { amount_mark bytes.now ≡ Option.Some mark }
    ensures { answer_of result ≡ amount_at prices bytes.now }
{
    match mark {
        Mark::Im => import_credit(bytes, prices),
        Mark::Gh => unit_amount(bytes, prices),
        Mark::Fi | Mark::Fe | Mark::Pr | Mark::Ex => failure_charge(bytes, mark, prices),
    }
}

// The amount of a record at the prices of a `PR`.
#[tactic(auto, using(crate::proofs::Amounts::found_by), unfolding(crate::specs::Bridge::amount_fault))]
fn amount(prices: &[u8], bytes: &[u8]) -> Result<Ticks, Refusal>
    ensures fault { fault_in result ≡ amount_fault prices.now bytes.now }
    ensures value { IfOk result (λ t. Amount t ≡ amount_in prices.now bytes.now) }
{
    filed(prices, starts(prices, b"PR").then_some(Mark::Pr))?;
    let mark = filed(bytes, amount_mark(bytes))?;
    amount_of(mark, bytes, prices_of(prices)?)
}

// The credit of an IM, the amount of a GH without its start-up, the charge of an FI or FE, at the prices of a PR.
#[unsafe(no_mangle)]
pub extern "C" fn pewatuno_amount(prices: &[u8], bytes: &[u8], amounts: &mut [i64]) -> u32
    ensures value { result ≡ amount_fault prices.now bytes.now }
    ensures amounts_after { amounts.new ≡ amount_told prices.now bytes.now amounts.old }
{
    tell_charge(amounts, amount(prices, bytes))
}

// ---- the book: its number of changes, its used bytes, and 0 where it is open

// A book that no bytes belong to: every call with it gives 16.
fn no_book() -> Book
    ensures { result ≡ no_book }
{
    Book {
        changes: 0,
        used: 1,
        closed: false,
    }
}

fn book_of(changes: u64, used: u64, closed: u64) -> Book
    ensures { result ≡ book_from changes used closed }
{
    match (u16::try_from(changes), u32::try_from(used)) {
        (Ok(changes), Ok(used)) => Book {
            changes,
            used,
            closed: closed != 0,
        },
        _ => no_book(),
    }
}

#[tactic(auto, unfolding(crate::specs::Bridge::book_in))]
fn book_in(state: &[u64]) -> Book
    ensures { result ≡ book_in state.now }
{
    match state {
        [changes, used, closed, ..] => book_of(*changes, *used, *closed),
        _ => no_book(),
    }
}

fn hand_back(state: &mut [u64], b: Book)
    ensures { state.new ≡ handed_back b state.old }
{
    set(state, 0, b.changes as u64);
    set(state, 1, b.used as u64);
    set(state, 2, b.closed as u64);
}

fn method_of(method: u32) -> u8
    ensures { result ≡ method_in method }
{
    if method < 6 { method as u8 } else { 0 }
}

// One of the five changes (1 to 5), or any.
#[unsafe(no_mangle)]
pub extern "C" fn pewatuno_change(
    method: u32,
    state: &mut [u64],
    lent: &mut [u8],
    bytes: &[u8],
) -> u32
    ensures { Changed (change_of (method_in method) bytes.now) state.old lent.old result state.new lent.new }
{
    let b = book_in(&state[..]);
    let Done { book, answer } = make_change(b, lent, method_of(method), bytes);
    if answer.is_ok() {
        hand_back(state, book);
    }
    code(&answer)
}

// An hour of more than 8 bits is outside the day, as their greatest number is.
fn hour_of(hour: u32) -> u8
    ensures { result ≡ hour_in hour }
{
    u8::try_from(hour).unwrap_or(u8::MAX)
}

// The place of a record, or the number of the refusal.
fn tell_place(sizes: &mut [u64], answer: Result<Place, Refusal>) -> u32
    ensures value { result ≡ replied (place_reply answer) }
    ensures sizes_after { sizes.new ≡ sizes_told (place_reply answer) sizes.old }
{
    if let Ok(place) = answer {
        set_place(sizes, 0, place);
    }
    code(&answer)
}

// The record of a key: where it starts, and its length.
#[tactic(auto, unfolding(crate::specs::Bridge::asked))]
#[unsafe(no_mangle)]
pub extern "C" fn pewatuno_record(
    state: &[u64],
    lent: &[u8],
    mark: &[u8],
    hour: u32,
    name: &[u8],
    sizes: &mut [u64],
) -> u32
    ensures value { result ≡ replied (asked (record_of mark.now (hour_in hour) name.now) state.now lent.now) }
    ensures sizes_after { sizes.new ≡ sizes_told (asked (record_of mark.now (hour_in hour) name.now) state.now lent.now) sizes.old }
{
    let b = book_in(state);
    tell_place(sizes, b.record_of(lent, mark, hour_of(hour), name))
}

#[tactic(auto, unfolding(crate::specs::Bridge::asked))]
#[unsafe(no_mangle)]
pub extern "C" fn pewatuno_count(
    state: &[u64],
    lent: &[u8],
    mark: &[u8],
    hour: u32,
    sizes: &mut [u64],
) -> u32
    ensures value { result ≡ replied (asked (count_of mark.now (hour_in hour)) state.now lent.now) }
    ensures sizes_after { sizes.new ≡ sizes_told (asked (count_of mark.now (hour_in hour)) state.now lent.now) sizes.old }
{
    let b = book_in(state);
    tell_number(sizes, b.count_of(lent, mark, hour_of(hour)))
}

#[tactic(auto, unfolding(crate::specs::Bridge::asked))]
#[unsafe(no_mangle)]
pub extern "C" fn pewatuno_free(state: &[u64], lent: &[u8], sizes: &mut [u64]) -> u32
    ensures value { result ≡ replied (asked free_bytes state.now lent.now) }
    ensures sizes_after { sizes.new ≡ sizes_told (asked free_bytes state.now lent.now) sizes.old }
{
    let b = book_in(state);
    tell_number(sizes, b.free_bytes(lent))
}

// ---- the book's questions for amounts

// Where the record of an hour's import i starts, counted from 0, and its length.
fn tell_import(i: usize, answer: Result<Place, Refusal>, sizes: &mut [u64])
    requires { i ≤ max_credits }
    ensures { sizes.new ≡ place_told i (place_reply answer) sizes.old }
{
    if let Ok(place) = answer {
        set_place(sizes, 2 * i + 1, place);
    }
}

// An hour that is asked for on a book over lent bytes.
#[derive(Clone, Copy)]
struct AskedHour<'a> {
    book: Book,
    lent: &'a [u8],
    hour: u8,
}

impl<'a> AskedHour<'a> {
    // The record of the hour's import, by its decoded name.
    #[tactic(auto, unfolding(crate::specs::Bridge::import_place))]
    fn place_of(self, name: Name) -> Result<Place, Refusal>
        ensures { place_reply result ≡ import_place self.entry.book self.entry.lent.now self.entry.hour name }
    {
        let spelled = spell_name(name).unwrap_or_default();
        self.book.record_of(self.lent, b"IM", self.hour, &spelled)
    }

    // The place of the hour's import i, and its credit.
    fn tell_credit(self, i: usize, c: NamedAmount, sizes: &mut [u64], amounts: &mut [i64])
        requires { i ≤ max_credits }
        ensures sizes_after { sizes.new ≡ credit_sizes self.entry.book self.entry.lent.now self.entry.hour i c sizes.old }
        ensures amounts_after { amounts.new ≡ stored amounts.old (i + 1) c.ticks.0 }
    {
        tell_import(i, self.place_of(c.name), sizes);
        set(amounts, i + 1, c.ticks.0);
    }

    #[tactic(auto, using(crate::proofs::Credits::all_told))]
    fn tell_credits(self, credits: &[NamedAmount], sizes: &mut [u64], amounts: &mut [i64])
        requires { length credits.now ≤ max_credits }
        ensures sizes_after { sizes.new ≡ credits_sizes self.entry.book self.entry.lent.now self.entry.hour 0 credits.now
            (stored sizes.old 0 (length credits.now)) }
        ensures amounts_after { amounts.new ≡ credits_amounts 0 credits.now amounts.old }
    {
        set(sizes, 0, credits.len() as u64);
        for (i, c) in credits.iter().enumerate() {
            self.tell_credit(i, *c, sizes, amounts);
        }
    }

    fn tell_guarantees(
        self,
        answer: Result<Guarantees, Refusal>,
        sizes: &mut [u64],
        amounts: &mut [i64],
    ) -> u32
        ensures value { result ≡ replied (guarantees_reply answer) }
        ensures sizes_after { sizes.new ≡ hour_sizes self.entry.book self.entry.lent.now self.entry.hour (guarantees_reply answer) sizes.old }
        ensures amounts_after { amounts.new ≡ hour_amounts (guarantees_reply answer) amounts.old }
    {
        if let Ok(Guarantees { credits, offset }) = &answer {
            set(amounts, 0, offset.0);
            self.tell_credits(credits, sizes, amounts);
        }
        code(&answer)
    }
}

// An hour's guarantees: the number of imports, then start and length of each; the offset, then each credit.
#[tactic(auto, unfolding(crate::specs::Bridge::asked))]
#[unsafe(no_mangle)]
pub extern "C" fn pewatuno_guarantees(
    state: &[u64],
    lent: &[u8],
    hour: u32,
    sizes: &mut [u64],
    amounts: &mut [i64],
) -> u32
    ensures value { result ≡ replied (asked (hour_guarantees (hour_in hour)) state.now lent.now) }
    ensures sizes_after { sizes.new ≡ hour_sizes (book_in state.now) lent.now (hour_in hour)
        (asked (hour_guarantees (hour_in hour)) state.now lent.now) sizes.old }
    ensures amounts_after { amounts.new ≡ hour_amounts (asked (hour_guarantees (hour_in hour)) state.now lent.now) amounts.old }
{
    let book = book_in(state);
    let hour = hour_of(hour);
    AskedHour { book, lent, hour }.tell_guarantees(book.guarantees(lent, hour), sizes, amounts)
}

fn tell_charge(amounts: &mut [i64], answer: Result<Ticks, Refusal>) -> u32
    ensures value { result ≡ replied (charge_reply answer) }
    ensures amounts_after { amounts.new ≡ amounts_told (charge_reply answer) amounts.old }
{
    if let Ok(ticks) = answer {
        set(amounts, 0, ticks.0);
    }
    code(&answer)
}

fn tell_day(amounts: &mut [i64], answer: Result<DayTotals, Refusal>) -> u32
    ensures value { result ≡ replied (day_reply answer) }
    ensures amounts_after { amounts.new ≡ amounts_told (day_reply answer) amounts.old }
{
    if let Ok(day) = answer {
        set(amounts, 0, day.total.0);
        set(amounts, 1, day.reversal.0);
    }
    code(&answer)
}

// A unit's day: its total, and the reversal.
#[tactic(auto, unfolding(crate::specs::Bridge::asked))]
#[unsafe(no_mangle)]
pub extern "C" fn pewatuno_unit_day(
    state: &[u64],
    lent: &[u8],
    name: &[u8],
    amounts: &mut [i64],
) -> u32
    ensures value { result ≡ replied (asked (day_of name.now) state.now lent.now) }
    ensures amounts_after { amounts.new ≡ amounts_told (asked (day_of name.now) state.now lent.now) amounts.old }
{
    let b = book_in(state);
    tell_day(amounts, b.unit_day(lent, name))
}

// The charge of a failure that stands.
#[tactic(auto, unfolding(crate::specs::Bridge::asked))]
#[unsafe(no_mangle)]
pub extern "C" fn pewatuno_failure_charge(
    state: &[u64],
    lent: &[u8],
    mark: &[u8],
    hour: u32,
    name: &[u8],
    amounts: &mut [i64],
) -> u32
    ensures value { result ≡ replied (asked (failure_charge mark.now (hour_in hour) name.now) state.now lent.now) }
    ensures amounts_after { amounts.new ≡ amounts_told (asked (failure_charge mark.now (hour_in hour) name.now) state.now lent.now) amounts.old }
{
    let b = book_in(state);
    tell_charge(amounts, b.failure_charge(lent, mark, hour_of(hour), name))
}

// ---- records back to back, the statement and its pages

// The book is handed back if a record was taken.
fn hand_back_fed(state: &mut [u64], count: u64, b: Book)
    ensures { state.new ≡ cond (eqb count 0) state.old (handed_back b state.old) }
{
    if count != 0 {
        hand_back(state, b);
    }
}

// Takes records back to back, up to the first that is refused. How many were taken, and how many bytes, are told at a refusal too, and
// the book is handed back if one was taken.
#[tactic(auto, unfolding(crate::specs::Bridge::feed_in))]
#[unsafe(no_mangle)]
pub extern "C" fn pewatuno_feed(
    state: &mut [u64],
    lent: &mut [u8],
    input: &[u8],
    sizes: &mut [u64],
) -> u32
    ensures value { result ≡ (feed_in state.old lent.old input.now).number }
    ensures state_after { state.new ≡ feed_state (feed_in state.old lent.old input.now) state.old }
    ensures feed_bytes { FeedBytes (book_in state.old) lent.old input.now lent.new }
    ensures sizes_after { sizes.new ≡ feed_sizes (feed_in state.old lent.old input.now) sizes.old }
{
    let b = book_in(&state[..]);
    let Fed {
        book,
        count,
        taken,
        end,
    } = feed(b, lent, input);
    set(sizes, 0, count);
    set(sizes, 1, taken as u64);
    hand_back_fed(state, count, book);
    code(&end)
}

// The text of the statement, and its length.
#[tactic(auto, unfolding(crate::specs::Bridge::statement_in))]
#[unsafe(no_mangle)]
pub extern "C" fn pewatuno_statement(
    state: &[u64],
    lent: &[u8],
    out: &mut [u8],
    sizes: &mut [u64],
) -> u32
    ensures value { result ≡ (statement_in state.now lent.now out.old).number }
    ensures out_after { out.new ≡ (statement_in state.now lent.now out.old).bytes }
    ensures sizes_after { sizes.new ≡ told result (statement_in state.now lent.now out.old).len sizes.old }
{
    let b = book_in(state);
    tell_number(sizes, statement(b, lent, out))
}

// The pages of the statement, and their length.
#[tactic(auto, unfolding(crate::specs::Bridge::pages_in))]
#[unsafe(no_mangle)]
pub extern "C" fn pewatuno_pages(
    state: &[u64],
    lent: &[u8],
    out: &mut [u8],
    sizes: &mut [u64],
) -> u32
    ensures value { result ≡ (pages_in state.now lent.now out.old).number }
    ensures out_after { out.new ≡ (pages_in state.now lent.now out.old).bytes }
    ensures sizes_after { sizes.new ≡ told result (pages_in state.now lent.now out.old).len sizes.old }
{
    let b = book_in(state);
    tell_number(sizes, pages(b, lent, out))
}
