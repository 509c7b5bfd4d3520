// The directory: its entries in order, the fields of an entry, names compared without case, entries found by name and by place, and a name
// found in a directory that was not checked.
#![tactic(auto)]

ghost use Rattle.std.specs.Prelude.{◌≡◌};
ghost use Rattle.model.specs.declared.refusal.Refusal.TheVariants as refusal;

mod fields;
mod folds;
mod iterator;
mod names;
mod places;
mod quick;
mod reading;
mod search;

pub use fields::{fork_place, number_of, read_entry, read_fork};
pub use folds::fold_table;
pub use iterator::Entries;
use model::Refusal;
pub use names::same_name;
pub use places::entry_size;
pub use quick::quick_locate;
pub use search::{entry_at, locate};

// A place in the directory's reading.
#[derive(Clone, Copy)]
pub struct Cursor {
    // The byte of the image where the directory block starts.
    pub base: usize,
    // How far into the block the next entry begins.
    pub at: usize,
    // Directory blocks behind this one.
    pub left: usize,
}

// An entry that was read. The image is a parameter beside it, with `Stands`: a struct of both could not stand while a call stores into
// the image.
#[derive(Clone, Copy)]
pub struct EntryAt {
    // The byte of the image where it starts.
    pub start: usize,
    pub name_length: usize,
}

// The next entry crosses its block, has name length 0 or version other than 0: check 6 refuses it.
#[derive(Clone, Copy, Debug, PartialEq, Eq)]
pub struct BadEntry;

impl From<BadEntry> for Refusal {
    ghost from_gives = { λ _ r. r ≡ refusal.BadEntry };

    fn from(_: BadEntry) -> Refusal {
        Refusal::BadEntry
    }
}

// An entry that a search found, with its place in directory order.
#[derive(Clone, Copy)]
pub struct Found {
    pub place: usize,
    pub entry: EntryAt,
}

// An entry found in the directory blocks, one after another: its place is among those read.
#[derive(Clone, Copy)]
pub struct QuickEntry {
    pub place: usize,
    pub entry: EntryAt,
    // Blocks looked at.
    pub looked: usize,
}
