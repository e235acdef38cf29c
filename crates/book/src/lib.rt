// The book: a participant's day as written changes in lent bytes, and three numbers that the caller keeps.
#![tactic(auto)]

pub mod amounts;
pub mod answers;
pub mod book;
pub mod changes;
pub mod feed;
mod log;
pub mod questions;
