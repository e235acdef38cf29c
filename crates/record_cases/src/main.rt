// Runs the record layer on the cases of its standard input, each a two-byte length (little-endian) and as many bytes: prints the
// change in its written form, or the number with which it is refused. The expected output was made by the independent
// implementation.
#![tactic(auto)]

use records::marks::Wanted;
use records::parse::{Act, parse_any};
use records::writing::put;

// Capital hex digits: `io::print_hex` writes small ones.
const DIGITS: [u8; 16] = *b"0123456789ABCDEF";

// So many cases at most are read: a program has to end.
const CASES_MAX: u32 = 100000;

fn print_byte(b: u8) {
    let pair = [DIGITS[(b / 16) as usize], DIGITS[(b % 16) as usize]];
    io::write_all(1, &pair);
}

fn print_bytes(s: &[u8]) {
    for b in s {
        print_byte(*b);
    }
}

fn print_written(s: &[u8], len: usize) {
    io::write_all(1, b"OK ");
    if len <= s.len() {
        print_bytes(&s[..len]);
    }
    io::write_all(1, b"\n");
}

fn show(s: &[u8]) {
    match parse_any(s) {
        Ok(Act::Change(view)) => {
            let mut out = io::buffer();
            put(&mut out, 0, s, Wanted::Any).is_ok();
            print_written(&out, view.len);
        }
        Ok(Act::TakeBack | Act::Close) => print_written(s, s.len()),
        Err(refusal) => {
            io::print_decimal(1, refusal.number() as u64);
            io::write_all(1, b"\n");
        }
    }
}

fn case_in(part: &mut [u8]) {
    io::read_full(0, part);
    show(&part[..]);
}

// One case, or false where the input ends.
fn next_case() -> bool {
    let mut head = [0u8; 2];
    if io::read_full(0, &mut head) < 2 {
        return false;
    }
    let n = u16::from_le_bytes(head) as usize;
    if 2048 < n {
        return false;
    }
    let mut buffer = [0u8; 2048];
    case_in(&mut buffer[..n]);
    true
}

fn main() {
    for _ in 0..CASES_MAX {
        if !next_case() {
            return;
        }
    }
}
