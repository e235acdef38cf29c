// The output of a reading.
ghost use Rattle.std.specs.Prelude.{◌≡◌};
ghost use Rattle.book.specs.Meaning.{load};
ghost use Rattle.filter.specs.Reading.{ordinal, Prints};

use crate::reading::{Reading, plus};
use crate::text::Text;
use money::refusals::Refusal;
use statement::refusal::refusal;

impl Reading {
    // The ordinal of the record at which the reading stands.
    pub fn ordinal(self) -> u64
        ensures { result ≡ ordinal self }
    {
        plus(self.count, 1)
    }

    // Writes from the first lent byte on all that is printed if the input ends here: the text of the book's changes, or `REF n r`, which stands on no page.
    // 13 where it is longer than what is lent; as many bytes as the longest text has are enough.
    pub fn output<T: Text>(self, log: &[u8], out: &mut [u8]) -> Result<usize, Refusal>
        ensures { Prints T.text T.longest self (load self.book log.now) out.old out.new result }
    {
        match self.number {
            0 => T::write(self.book, log, out),
            number => refusal(self.ordinal(), number, out),
        }
    }
}
