// What a program writes out, once standard input is read.
ghost use Rattle.std.specs.Prelude.{◌≡◌, ◌≤◌, length};
ghost use Rattle.stdio.specs.Printing.{Shows, Printed, printed_len};

use book::book::USED_MAX;
use filter::text::Text;
use money::refusals::Refusal;
use std::env::{Env, FillError};
use std::io::{Read, Stdin, Write};
use stdin::{Input, read_input};

// Puts into the lent bytes all that is printed for an input: how many bytes these are, and none where the input could not be read.
fn print_input<T: Text>(input: Input, log: &[u8], out: &mut [u8]) -> Option<Result<usize, Refusal>>
    ensures { Shows T.text T.longest input log.now out.old out.new result }
{
    if input.failed() {
        return None;
    }
    Some(input.reading.output::<T>(log, out))
}

// The same for an input, as standard input, that is read to its end.
pub fn print<T: Text, R: Read>(source: &mut R, out: &mut [u8]) -> Option<Result<usize, Refusal>>
    ensures { Printed T.text T.longest out.old out.new result }
{
    let mut log = [0u8; USED_MAX];
    let input = read_input(source, &mut log);
    print_input::<T>(input, &log, out)
}

// A program that prints a text of standard input.
pub trait Program {
    ghost use Rattle.std.specs.Prelude.{ℕ, List};
    ghost use Rattle.records.specs.Changes.{Change};
    ghost use Rattle.stdio.specs.Printing.{Printed};

    // The text of a list of changes.
    ghost text: { List Change → List ℕ };

    // No text is longer than this.
    ghost longest: { ℕ };

    // Puts into the lent bytes all that is printed for standard input.
    fn print(source: &mut Stdin, out: &mut [u8]) -> Option<Result<usize, Refusal>>
        ensures { Printed text longest out.old out.new result };
}

// What a program says on standard error: where it was given an argument, where the input can't be read, and where the output can't be written.
#[derive(Clone, Copy)]
pub struct Words<'a> {
    pub usage: &'a [u8],
    pub unread: &'a [u8],
    pub unwritten: &'a [u8],
}

// Says something on standard error, as far as it can be written.
pub fn say(rt: &HostRuntime, text: &[u8]) {
    rt.stderr().write_all(text).is_ok();
}

// Whether the program was given an argument.
pub fn has_argument(rt: &HostRuntime) -> bool {
    let mut first = [0u8; 1];
    !matches!(rt.arg(1, &mut first), Err(FillError::NotPresent))
}

// How many bytes were printed: none where the input could not be read.
fn printed_len(printed: Option<Result<usize, Refusal>>) -> usize
    ensures { result ≡ printed_len printed }
{
    match printed {
        None => 0,
        Some(written) => written.unwrap_or(0),
    }
}

// Writes what was printed, the first bytes of the output, to standard output, or to standard error what failed: the reading, or the writing.
fn put_out(rt: &HostRuntime, printed: Option<Result<usize, Refusal>>, out: &[u8], words: Words)
    requires { printed_len printed ≤ length out.now }
{
    match printed {
        None => say(rt, words.unread),
        Some(_) => {
            if rt.stdout().write_all(&out[..printed_len(printed)]).is_err() {
                say(rt, words.unwritten);
            }
        }
    }
}

// The same of any answer: so many bytes may not be there, and then they can't be written.
pub fn write_out(
    rt: &HostRuntime,
    printed: Option<Result<usize, Refusal>>,
    out: &[u8],
    words: Words,
) {
    if printed_len(printed) <= out.len() {
        put_out(rt, printed, out, words);
    } else {
        say(rt, words.unwritten);
    }
}

// Prints into the lent bytes what there is for standard input and writes it out, or says what failed. A program takes no argument: a file that is named
// there would not be read.
pub fn run_program<P: Program>(rt: &HostRuntime, out: &mut [u8], words: Words) {
    if has_argument(rt) {
        say(rt, words.usage);
        return;
    }
    let printed = P::print(&mut rt.stdin(), out);
    put_out(rt, printed, out, words);
}

// The same with what a caller has that is no `Program`: anything that can be called. It promises nothing of its answer, so `write_out` asks whether so many
// bytes are there.
pub fn run<F: FnOnce(&mut Stdin, &mut [u8]) -> Option<Result<usize, Refusal>>>(
    rt: &HostRuntime,
    out: &mut [u8],
    print: F,
    words: Words,
)
    requires { F.IsAlwaysCallable print }
{
    if has_argument(rt) {
        say(rt, words.usage);
        return;
    }
    let printed = print(&mut rt.stdin(), out);
    write_out(rt, printed, out, words);
}
