// The nine calls on a wrapped file: each checks the container itself, then serves the data inside in place. `make_call` ties them
// to the claim on every list of calls on wrapped files. The calls are named as those of `volume`, and both stand: what is stated of
// these is `DoesWrapped`, of another list of bytes.
#![tactic(auto)]

mod changing;
mod making;
mod reading;

pub use changing::{create, cut, delete, write};
pub use making::make_call;
pub use reading::{block, check, entry, find, read};
