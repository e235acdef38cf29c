// The record layer: names, the six records and the five changes, read and written.
#![tactic(auto)]

pub mod amounts;
pub mod changes;
pub mod fields;
pub mod heads;
pub mod hour_records;
pub mod hours;
pub mod keys;
pub mod layouts;
pub mod lists;
pub mod marks;
pub mod names;
pub mod parse;
pub mod scan;
pub mod series;
pub mod views;
pub mod writing;
