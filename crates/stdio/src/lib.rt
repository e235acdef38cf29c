// What programs share that write a text out once standard input is read.
#![tactic(auto)]

pub mod output;
