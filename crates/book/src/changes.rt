// The five changes. Each takes the bytes lent as its record, with its mark. Log and record are two arguments, as 01 lends them.
// No frame as the questions' `asked`: the closure of `enter` or `try_change` would hold the log for writing while the check reads it.
ghost use Rattle.std.specs.Prelude.{◌≡◌};
ghost use Rattle.book.specs.Layer.{parse};
ghost use Rattle.book.specs.Register.{listed, taken_back, closing, general, bare_take_back, bare_close, file, correct, withdraw, take_back, close, change};
ghost use Rattle.book.specs.tables.Checked.{done_of};
ghost use Rattle.book.specs.Meaning.{Leaves, Meets, change_reply};

use crate::answers::Done;
use crate::book::{Book, CHANGES_MAX};
use crate::log::row::Row;
use money::refusals::Refusal;
use records::marks::{Kind, Wanted};
use records::parse::{parse_any, parse_change, parse_close, parse_take_back};

impl Book {
    // The book that a change made, or the one before it with the refusal.
    fn done(self, changed: Result<Book, Refusal>) -> Done
        ensures { result ≡ done_of self changed }
    {
        match changed {
            Ok(book) => Done {
                book,
                answer: Ok(()),
            },
            Err(fault) => Done {
                book: self,
                answer: Err(fault),
            },
        }
    }

    #[tactic(auto, using(crate::proofs::book::Together::together))]
    fn enter(self, log: &mut [u8], rec: &[u8], want: Wanted) -> Result<Book, Refusal>
        ensures { Leaves (listed (parse want rec.now)) self log.old (done_of self result).book (change_reply (done_of self result).answer) log.new }
    {
        let mut rows = [Row::default(); CHANGES_MAX];
        self.check_rows(log, &mut rows)?;
        let n = self.changes as usize;
        let view = parse_change(rec, want)?;
        self.checked_enter(log, &mut rows, n, view, rec)
    }

    #[tactic(auto, using(crate::proofs::book::Together::together))]
    fn try_take_back(self, log: &[u8], rec: &[u8]) -> Result<Book, Refusal>
        ensures { Leaves (taken_back (bare_take_back rec.now)) self log.now (done_of self result).book (change_reply (done_of self result).answer) log.now }
    {
        let mut rows = [Row::default(); CHANGES_MAX];
        self.check_rows(log, &mut rows)?;
        parse_take_back(rec)?;
        self.checked_take_back(log, &mut rows)
    }

    #[tactic(auto, using(crate::proofs::book::Together::together))]
    fn try_close(self, log: &[u8], rec: &[u8]) -> Result<Book, Refusal>
        ensures { Leaves (closing (bare_close rec.now)) self log.now (done_of self result).book (change_reply (done_of self result).answer) log.now }
    {
        let mut rows = [Row::default(); CHANGES_MAX];
        self.check_rows(log, &mut rows)?;
        parse_close(rec)?;
        self.checked_close()
    }

    #[tactic(auto, using(crate::proofs::book::Together::together))]
    fn try_change(self, log: &mut [u8], rec: &[u8]) -> Result<Book, Refusal>
        ensures { Leaves (general rec.now) self log.old (done_of self result).book (change_reply (done_of self result).answer) log.new }
    {
        let mut rows = [Row::default(); CHANGES_MAX];
        self.check_rows(log, &mut rows)?;
        let n = self.changes as usize;
        let act = parse_any(rec)?;
        self.checked_change(log, &mut rows, n, act, rec)
    }

    pub fn file(mut self, log: &mut [u8], rec: &[u8]) -> Done
        ensures { Meets (file rec.now) self log.old result.book (change_reply result.answer) log.new }
    {
        self.done(self.enter(log, rec, Wanted::Only(Kind::File)))
    }

    pub fn correct(mut self, log: &mut [u8], rec: &[u8]) -> Done
        ensures { Meets (correct rec.now) self log.old result.book (change_reply result.answer) log.new }
    {
        self.done(self.enter(log, rec, Wanted::Only(Kind::Correct)))
    }

    pub fn withdraw(mut self, log: &mut [u8], rec: &[u8]) -> Done
        ensures { Meets (withdraw rec.now) self log.old result.book (change_reply result.answer) log.new }
    {
        self.done(self.enter(log, rec, Wanted::Only(Kind::Withdraw)))
    }

    pub fn take_back(mut self, log: &[u8], rec: &[u8]) -> Done
        ensures { Meets (take_back rec.now) self log.now result.book (change_reply result.answer) log.now }
    {
        self.done(self.try_take_back(log, rec))
    }

    pub fn close(mut self, log: &[u8], rec: &[u8]) -> Done
        ensures { Meets (close rec.now) self log.now result.book (change_reply result.answer) log.now }
    {
        self.done(self.try_close(log, rec))
    }

    // A change of any mark.
    pub fn change(mut self, log: &mut [u8], rec: &[u8]) -> Done
        ensures { Meets (change rec.now) self log.old result.book (change_reply result.answer) log.new }
    {
        self.done(self.try_change(log, rec))
    }
}
