// The allocation block map: its 12-bit entries read, stored and sorted, checks 5, 9 and 10 over all of them, chains walked and
// marked, which is check 8 of a fork, blocks allocated and freed. The image and N, and the decoded entries and N,
// go as two parameters: a type of both would ask an invariant of whoever calls these functions, which the pages in docs/ name as they are.
#![tactic(auto)]

mod allocate;
mod chain;
mod free;
mod packed;
mod scan;

pub use allocate::extend;
pub use chain::{block_at, claim_fork};
pub use free::{free_chain, shorten};
pub use packed::{decode, load};
pub use scan::{any_bad, any_unowned, free_count};
