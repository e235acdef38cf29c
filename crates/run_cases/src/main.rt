// Runs what is no `Program` through `run`: what prints bytes of its own, what answers more than there are, a refusal, or that nothing could be read, and the
// statement of standard input.
#![tactic(auto)]

use filter::text::Statement;
use money::refusals::Refusal;
use statement::day::STATEMENT_MAX;
use std::io::Stdin;
use stdio::output::{Words, print, run};

const LINE: [u8; 18] = *b"a line of its own\n";

fn line(_source: &mut Stdin, out: &mut [u8]) -> Option<Result<usize, Refusal>> {
    if out.len() < LINE.len() {
        return None;
    }
    out[..LINE.len()].copy_from_slice(&LINE);
    Some(Ok(LINE.len()))
}

fn more(_source: &mut Stdin, out: &mut [u8]) -> Option<Result<usize, Refusal>> {
    Some(Ok(out.len().saturating_add(1)))
}

fn refused(_source: &mut Stdin, _out: &mut [u8]) -> Option<Result<usize, Refusal>> {
    Some(Err(Refusal::NoSpace))
}

fn unread(_source: &mut Stdin, _out: &mut [u8]) -> Option<Result<usize, Refusal>> {
    None
}

fn main(rt: HostRuntime) {
    let mut out = [0u8; STATEMENT_MAX];
    let words = Words {
        usage: b"run_cases: takes no argument\n",
        unread: b"run_cases: the input can't be read\n",
        unwritten: b"run_cases: the output can't be written\n",
    };
    run(&rt, &mut out, line, words);
    run(&rt, &mut out, more, words);
    run(&rt, &mut out, refused, words);
    run(&rt, &mut out, unread, words);
    run(
        &rt,
        &mut out,
        |source: &mut Stdin, out: &mut [u8]| print::<Statement, Stdin>(source, out),
        words,
    );
}
