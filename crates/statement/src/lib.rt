// The statement: its lines and their text, the lines of a book's day, as they are or on pages; and the line of a refusal.
#![tactic(auto)]

mod bytes;
mod columns;
mod cursor;
pub mod day;
mod hours;
pub mod lines;
pub mod pages;
pub mod refusal;
pub mod sums;
mod units;
