// The texts that a program prints of the changes in a book. Log and output are lent each by itself.
ghost use Rattle.std.proofs.Common.{rules};
ghost use Rattle.book.specs.Meaning.{load};
ghost use Rattle.statement.specs.Statement.{AnswersBy, statement_of, longest_statement};
ghost use Rattle.statement.specs.Pages.{pages_of, longest_pages};

use book::book::Book;
use money::refusals::Refusal;
use statement::day::statement;
use statement::pages::pages;

pub trait Text {
    ghost use Rattle.std.specs.Prelude.{ℕ, ◌≤◌, List};
    ghost use Rattle.records.specs.Changes.{Change};
    ghost use Rattle.statement.specs.Lines.{max_line};

    // The text of a list of changes.
    ghost text: { List Change → List ℕ };

    // No text is longer than this.
    ghost longest: { ℕ };

    // Writes it from the first lent byte on, and answers how many bytes it has. 13 where it is longer than what is lent, 16 where book and log don't
    // belong together.
    fn write(book: Book, log: &[u8], out: &mut [u8]) -> Result<usize, Refusal>
        ensures { AnswersBy text longest (load book log.now) out.old out.new result };

    // The line of a refusal is no longer than that either.
    ghost line_fits: { max_line ≤ longest };
}

// The statement, without pages.
pub struct Statement;

impl Text for Statement {
    ghost text = { statement_of };

    ghost longest = { longest_statement };

    fn write(book: Book, log: &[u8], out: &mut [u8]) -> Result<usize, Refusal> {
        statement(book, log, out)
    }

    ghost line_fits = { Prim.search rules };
}

// The statement on pages.
pub struct Pages;

impl Text for Pages {
    ghost text = { pages_of };

    ghost longest = { longest_pages };

    fn write(book: Book, log: &[u8], out: &mut [u8]) -> Result<usize, Refusal> {
        pages(book, log, out)
    }

    ghost line_fits = { Prim.search rules };
}
