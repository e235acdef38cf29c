// Lays a day out on pages: reads records back to back from standard input into a book over 65,535 bytes, and prints the statement
// on pages of 60 lines, or `REF n r` where record n (from 1) is refused with number r.
#![tactic(auto)]

ghost use Rattle.statement.specs.Pages.{pages_of, longest_pages};
ghost use Rattle.stdio.specs.Printing.{Printed};

use filter::text::Pages;
use money::refusals::Refusal;
use statement::pages::PAGES_MAX;
use std::io::{Read, Stdin};
use stdio::output::{Program, Words, print, run_program};

// Puts into the lent bytes all that is printed for an input, as standard input.
fn page_input<R: Read>(source: &mut R, out: &mut [u8]) -> Option<Result<usize, Refusal>>
    ensures { Printed pages_of longest_pages out.old out.new result }
{
    print::<Pages, R>(source, out)
}

// What `run_program` needs of the program.
struct Paging;

impl Program for Paging {
    ghost text = { pages_of };

    ghost longest = { longest_pages };

    fn print(source: &mut Stdin, out: &mut [u8]) -> Option<Result<usize, Refusal>> {
        page_input(source, out)
    }
}

fn main(rt: HostRuntime) {
    let mut out = [0u8; PAGES_MAX];
    let words = Words {
        usage: b"usage: pages < records | lpr\n",
        unread: b"pages: the input can't be read\n",
        unwritten: b"pages: the output can't be written\n",
    };
    run_program::<Paging>(&rt, &mut out, words);
}
