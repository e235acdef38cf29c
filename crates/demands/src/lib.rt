// The machine link between the three demands (specs/Demands.antt) and the book's methods: one function that makes any call of the register
// by the book's own method. It promises demands 1 and 3 of that call, so it is proved only while every method keeps its own promise whole. Book and lent
// bytes are two arguments, as the methods take them.
#![tactic(auto)]

ghost use Rattle.std.specs.Prelude.{◌≡◌, []};
ghost use Rattle.book.specs.Register.{ask};
ghost use Rattle.book.specs.Meaning.{change_reply, charges_reply};
ghost use Rattle.book.specs.Session.{Session};
ghost use Rattle.demands.specs.Demands.{Demanded};
ghost use Rattle.demands.specs.Beside.{ReadAsCalls, ChargesByKey};
ghost use Rattle.demands.specs.Script.{method_of, change_of, question_of, call_of, said_reply};

use book::answers::{Charges, Done, Guarantees, Place};
use book::book::Book;
use book::feed::{Fed, feed};
use money::production::DayTotals;
use money::refusals::Refusal;
use money::units::Ticks;
use records::marks::Mark;

// The methods of the book, by their numbers from 0 on.
#[derive(Clone, Copy)]
enum Method {
    Change,
    File,
    Correct,
    Withdraw,
    TakeBack,
    Close,
    HourGuarantees,
    RecordOf,
    CountOf,
    FreeBytes,
    DayOf,
    FailureCharge,
}

// A method's number comes from outside, so the functions below take any: one beyond these is the last one's.
impl From<u8> for Method {
    ghost from_gives = { λ number method. method ≡ method_of number };

    fn from(number: u8) -> Self {
        match number {
            0 => Method::Change,
            1 => Method::File,
            2 => Method::Correct,
            3 => Method::Withdraw,
            4 => Method::TakeBack,
            5 => Method::Close,
            6 => Method::HourGuarantees,
            7 => Method::RecordOf,
            8 => Method::CountOf,
            9 => Method::FreeBytes,
            10 => Method::DayOf,
            _ => Method::FailureCharge,
        }
    }
}

// What a call brings back that is not refused.
#[derive(Clone, Copy)]
pub enum Said {
    Accepted,
    Place(Place),
    Number(usize),
    Charge(Ticks),
    Guarantees(Guarantees),
    Day(DayTotals),
}

// What a call hands back: the book, and what it was told.
#[derive(Clone, Copy)]
pub struct Turned {
    pub book: Book,
    pub said: Result<Said, Refusal>,
}

// The book that every list of calls starts from.
pub fn begin() -> Book
    ensures { Session [] [] result [] }
{
    Book::fresh()
}

// File, correct, withdraw, take back and close (1 to 5), or the change of any mark.
pub fn make_change(b: Book, log: &mut [u8], method: u8, bytes: &[u8]) -> Done
    ensures { Demanded (change_of method bytes.now) b log.old result.book (change_reply result.answer) log.new }
{
    match Method::from(method) {
        Method::File => b.file(log, bytes),
        Method::Correct => b.correct(log, bytes),
        Method::Withdraw => b.withdraw(log, bytes),
        Method::TakeBack => b.take_back(log, bytes),
        Method::Close => b.close(log, bytes),
        _ => b.change(log, bytes),
    }
}

// The record of a key, counts by mark and hour, free bytes (7 to 9), or a failure charge.
pub fn put_question(
    b: Book,
    log: &[u8],
    method: u8,
    mark: &[u8],
    hour: u8,
    bytes: &[u8],
) -> Result<Said, Refusal>
    ensures { Demanded (ask (question_of method mark.now hour bytes.now)) b log.now b (said_reply result) log.now }
{
    match Method::from(method) {
        Method::RecordOf => b.record_of(log, mark, hour, bytes).map(Said::Place),
        Method::CountOf => b.count_of(log, mark, hour).map(Said::Number),
        Method::FreeBytes => b.free_bytes(log).map(Said::Number),
        _ => b.failure_charge(log, mark, hour, bytes).map(Said::Charge),
    }
}

// Any call of the register: a change (0 to 5), an hour's guarantees (6), a unit's day (10), or another question (7 to 11). The number is handed on, as the two
// functions above take it.
pub fn step(b: Book, log: &mut [u8], method: u8, mark: &[u8], hour: u8, bytes: &[u8]) -> Turned
    ensures { Demanded (call_of method mark.now hour bytes.now) b log.old result.book (said_reply result.said) log.new }
{
    match Method::from(method) {
        Method::HourGuarantees => Turned {
            book: b,
            said: b.guarantees(log, hour).map(Said::Guarantees),
        },
        Method::DayOf => Turned {
            book: b,
            said: b.unit_day(log, bytes).map(Said::Day),
        },
        Method::RecordOf | Method::CountOf | Method::FreeBytes | Method::FailureCharge => Turned {
            book: b,
            said: put_question(b, log, method, mark, hour, bytes),
        },
        _ => {
            let done = make_change(b, log, method, bytes);
            Turned {
                book: done.book,
                said: done.answer.map(|_| Said::Accepted),
            }
        }
    }
}

// ---- the calls beside the register's

// The records of an input: each is one call for a change of any mark.
pub fn read_records(b: Book, log: &mut [u8], input: &[u8]) -> Fed
    ensures { ReadAsCalls b log.old input.now result log.new }
{
    feed(b, log, input)
}

// The charges of an hour's failed imports or exports: each is what the question for its key answers.
pub fn hour_charges(b: Book, log: &[u8], mark: Mark, hour: u8) -> Result<Charges, Refusal>
    ensures { ChargesByKey b log.now mark hour (charges_reply result) }
{
    b.charges(log, mark, hour)
}
