// Checks 1 to 10: the length of the image and the volume facts, the entries of the directory tested, counted and compared, and
// all from 2 on in their order.
#![tactic(auto)]

mod differ;
mod limits;
mod pairs;
mod table;
mod tally;
mod verdict;

pub use limits::{bad_length, judge_facts};
pub use verdict::judge;

// What is compared of two entries. It is an enum and no closure: `same_by` and `home_by`, by which the table is stated, go by it.
#[derive(Clone, Copy, Debug, PartialEq, Eq)]
pub enum Field {
    Number,
    Name,
}
