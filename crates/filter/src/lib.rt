// What a program does between its input and its output: records read in pieces into a book, and the text that is printed of them.
#![tactic(auto)]

pub mod output;
pub mod reading;
pub mod text;
