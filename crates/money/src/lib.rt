// The market rules' amounts, over numbers alone: nothing here knows of records or of a book.
#![tactic(auto)]

pub mod failure;
pub mod guarantee;
pub mod imports;
pub mod names;
pub mod offers;
pub mod offset;
pub mod production;
pub mod refusals;
pub mod series;
pub mod units;
