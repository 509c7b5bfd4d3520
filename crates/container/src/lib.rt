// The Disk Copy 4.2 file: its parts, its checksum, refusals 22 to 24, the data checksum renewed, and a bare image wrapped.
#![tactic(auto)]

mod header;
mod parts;
mod renewing;
mod sum;
mod wrapping;

pub use header::judge;
pub use parts::{DATA_AT, DATA_END, data};
pub use renewing::renew;
pub use wrapping::{bad_lengths, fill};
