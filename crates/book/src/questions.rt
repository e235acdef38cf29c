// The questions of a key, of a mark and hour, and for free bytes. Mark, hour and name are 01's arguments: a key is made of them only where all are in order.
ghost use Rattle.std.specs.Prelude.{◌≡◌, List};
ghost use Rattle.book.specs.Layer.{Change};
ghost use Rattle.book.specs.tables.LayerTables.{Wellformed};
ghost use Rattle.book.specs.tables.CheckedLog.{Says};
ghost use Rattle.book.specs.Register.{ask, record_of, count_of, free_bytes, place_of};
ghost use Rattle.book.specs.Meaning.{Meets, place_reply, number_reply};

use crate::answers::Place;
use crate::book::Book;
use crate::log::checked_log::CheckedLog;
use crate::log::refusal::capacity;
use crate::log::rows::written_len;
use money::refusals::Refusal;
use records::keys::{Key, ask_hour, ask_key};

impl<'a> CheckedLog<'a> {
    // Start and length of the written record of a key, without a CO mark.
    fn place(&self, key: Key) -> Result<Place, Refusal>
        requires { Wellformed key }
        ensures { (l : List Change) → Says self.now l → place_reply result ≡ place_of key l }
    {
        let start = self.find(key).ok_or(Refusal::NoSuchKey)?.start;
        let len = written_len(self.bytes, start);
        Ok(Place { start, len })
    }
}

impl Book {
    // Start and length of the written record of a key, without a CO mark.
    pub fn record_of(self, log: &[u8], mark: &[u8], hour: u8, name: &[u8]) -> Result<Place, Refusal>
        ensures { Meets (ask (record_of mark.now hour name.now)) self log.now self (place_reply result) log.now }
    {
        self.asked(log, ask_key(mark, hour, name), |held, key| held.place(key))
    }

    // How many records of a mark stand in an hour.
    pub fn count_of(self, log: &[u8], mark: &[u8], hour: u8) -> Result<usize, Refusal>
        ensures { Meets (ask (count_of mark.now hour)) self log.now self (number_reply result) log.now }
    {
        self.asked(log, ask_hour(mark, hour), |held, key| Ok(held.count(key)))
    }

    // How many bytes are left of those lent, above 65,535 counted as 65,535.
    pub fn free_bytes(self, log: &[u8]) -> Result<usize, Refusal>
        ensures { Meets (ask free_bytes) self log.now self (number_reply result) log.now }
    {
        self.asked(
            log,
            Ok(()),
            |_, _| Ok(capacity(log.len()).saturating_sub(self.used as usize)),
        )
    }
}
