// Names given to a call. A named file of an accepted volume: found, its locks, and whether it or a fork of it may be changed. What
// find and quick find tell, and the zeros beside a refusal's number.
#![tactic(auto)]

ghost use Rattle.std.specs.Prelude.{◌≡◌};

mod answers;
mod locks;
mod names;
mod searching;

pub use answers::{no_entry, no_facts};
use directory::EntryAt;
pub use locks::is_locked;
use model::{DirectoryEntry, ForkFacts, Refusal};
pub use names::{bad_name, too_long};
pub use searching::{changeable, changeable_fork, first_entry, lookup};

// What a name and a fork given to a call name: the file's entry with the fork's facts.
#[derive(Clone, Copy)]
pub struct NamedFork {
    pub entry: EntryAt,
    pub facts: ForkFacts,
}

// What find tells: a file's place in directory order and its entry.
#[derive(Clone, Copy)]
pub struct FoundFile {
    pub place: u64,
    pub entry: DirectoryEntry,
}

// What quick find tells: the place among the entries that it read, the entry, and the number of directory blocks looked at.
#[derive(Clone, Copy)]
pub struct QuickFound {
    pub place: u64,
    pub entry: DirectoryEntry,
    pub looked: u16,
}

// A refusal of quick find, with the number of directory blocks looked at: 0 but beside 13.
#[derive(Clone, Copy)]
pub struct QuickRefusal {
    pub refusal: Refusal,
    pub looked: u16,
}

impl From<Refusal> for QuickRefusal {
    ghost from_gives = { λ r q. q ≡ record { refusal = r; looked = 0 } };

    fn from(refusal: Refusal) -> QuickRefusal {
        QuickRefusal { refusal, looked: 0 }
    }
}
