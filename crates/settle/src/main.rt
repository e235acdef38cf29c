// Settles a day: reads records back to back from standard input into a book over 65,535 bytes, and prints the statement, or
// `REF n r` where record n (from 1) is refused with number r.
#![tactic(auto)]

ghost use Rattle.statement.specs.Statement.{statement_of, longest_statement};
ghost use Rattle.settle.specs.Settle.{Printed};

use filter::text::Statement;
use money::refusals::Refusal;
use statement::day::STATEMENT_MAX;
use std::io::{Read, Stdin};
use stdio::output::{Program, Words, print, run_program};

// Puts into the lent bytes all that is printed for an input, as standard input.
fn settle_input<R: Read>(source: &mut R, out: &mut [u8]) -> Option<Result<usize, Refusal>>
    ensures { Printed out.old out.new result }
{
    print::<Statement, R>(source, out)
}

// What `run_program` needs of the program.
struct Settling;

impl Program for Settling {
    ghost text = { statement_of };

    ghost longest = { longest_statement };

    fn print(source: &mut Stdin, out: &mut [u8]) -> Option<Result<usize, Refusal>> {
        settle_input(source, out)
    }
}

fn main(rt: HostRuntime) {
    let mut out = [0u8; STATEMENT_MAX];
    let words = Words {
        usage: b"usage: settle < records > statement\nsettle-day takes files, and has an exit status\n",
        unread: b"settle: the input can't be read\n",
        unwritten: b"settle: the output can't be written\n",
    };
    run_program::<Settling>(&rt, &mut out, words);
}
