// The bytes of a fork, block by block, the blocks that it needs and those that a write takes. S and A go as two parameters: the model's
// `block_byte` and `fork_bytes`, by which all is stated, take them so.
#![tactic(auto)]

mod content;
mod needs;

pub use content::{copy_fork, fill_fork};
pub use needs::{fewest_blocks, needed_blocks, taken_blocks};
