// What the calls that change nothing, entry, find, block and read, answer on an accepted image, whose facts are known.
#![tactic(auto)]

mod block_read;
mod entry_find;

pub use block_read::{serve_block, serve_read};
pub use entry_find::{serve_entry, serve_find};
