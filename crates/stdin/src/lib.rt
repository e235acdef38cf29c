// Standard input, read to its end into a book.
#![tactic(auto)]

ghost use Rattle.std.specs.Prelude.{◌≡◌, ◌+◌, ◌≤◌, length, take};
ghost use Rattle.stdin.specs.Rounds.{TakesIn, brought, broke_off, extent_after, unread, ReadAll, failed};

use filter::reading::{COUNT_MAX, Reading};
use std::io::Read;

// The most bytes of a read, and so few reads that all that they bring can be counted.
const READ_MAX: u64 = 65536;

const READS_MAX: u64 = COUNT_MAX / READ_MAX;

// How far an input was read: there may be more to read, it was read to its end, or the last read broke off.
#[derive(Clone, Copy, PartialEq, Eq)]
pub enum Extent {
    Open,
    Whole,
    Broken,
}

// The reading of all that was read, and how far that is.
#[derive(Clone, Copy)]
pub struct Input {
    pub reading: Reading,
    pub extent: Extent,
}

// How far the input was read after a read that answered so.
fn extent_after(got: Option<usize>, over: bool) -> Extent
    ensures { result ≡ extent_after (broke_off got) (brought got) over }
{
    match got {
        None => Extent::Broken,
        Some(n) if n == 0 || over => Extent::Whole,
        Some(_) => Extent::Open,
    }
}

impl Input {
    // Nothing is read.
    fn unread() -> Input
        ensures { result ≡ unread }
    {
        Input {
            reading: Reading::fresh(),
            extent: Extent::Open,
        }
    }

    // Takes in what a read left in the bytes behind those that are held, and what it answered.
    fn take_in(self, got: Option<usize>, log: &mut [u8], bytes: &mut [u8]) -> Input
        ensures { TakesIn self got log.old bytes.old result log.new bytes.new }
    {
        let reading = self.reading.read_on(log, bytes, got.unwrap_or(0));
        let extent = extent_after(got, reading.is_over());
        Input { reading, extent }
    }

    // Whether the input was not read to its end.
    pub fn failed(self) -> bool
        ensures { result ≡ failed self }
    {
        self.extent != Extent::Whole
    }
}

// One read of the input into the bytes behind those that are held: how many it brought, or none where it broke off. No contract can say what it brings.
fn read_behind<R: Read>(source: &mut R, bytes: &mut [u8], held: usize) -> Option<usize>
    requires { held ≤ length bytes.old }
    ensures kept { (length bytes.new ≡ length bytes.old) × (take held bytes.new ≡ take held bytes.old) }
    ensures within { held + brought result ≤ length bytes.new }
{
    source.read(&mut bytes[held..]).ok()
}

// Reads an input, as a program's standard input, to its end, over the lent log.
pub fn read_input<R: Read>(source: &mut R, log: &mut [u8]) -> Input
    ensures { ReadAll result log.new × (length log.new ≡ length log.old) }
{
    let mut bytes = io::large_buffer();
    let mut input = Input::unread();
    for _ in 0..READS_MAX {
        if input.extent != Extent::Open {
            return input;
        }
        let got = read_behind(source, &mut bytes, input.reading.held);
        input = input.take_in(got, log, &mut bytes);
    }
    input
}
