// The records of `replay`: their fields, read from an input, and the lines that answer them.
#![tactic(auto)]

pub mod input;
pub mod line;
