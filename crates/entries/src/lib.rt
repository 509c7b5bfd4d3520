// What is stored in the volume information and in the directory: numbers and counts, an entry put in, its fork's fields or its name
// rewritten, an entry taken out.
#![tactic(auto)]

mod counts;
mod fork_fields;
mod insert;
mod numbers;
mod remove;
mod search;
mod title;

pub use counts::{put_files, put_free, put_next};
pub use fork_fields::store_fork;
pub use insert::{insert_entry, insert_with_head};
pub use numbers::{put16_at, put32_at};
pub use remove::remove_entry;
pub use search::{find_room, find_room_without};
pub use title::{kept_head, rename_entry};

// Room for an entry to be put in: the byte of the image where its directory block starts, and how far into the block the reading ends.
#[derive(Clone, Copy)]
pub struct Room {
    pub base: usize,
    pub end: usize,
}
