// Where the fields of a directory entry stand, and the size that it takes.
ghost use Rattle.std.specs.Prelude.{◌≡◌, ◌+◌, ◌≤◌};
ghost use Rattle.model.specs.Directory.{size_for};

use crate::EntryAt;

// An entry is 51 bytes and its name, here of n bytes, plus one byte to make the size even.
pub fn entry_size(n: usize) -> usize
    requires { n ≤ 255 }
    ensures { result ≡ size_for n }
{
    let size = EntryAt::NAME_AT + n;
    size + size % 2
}

impl EntryAt {
    // Where its fields stand, counted from its start.
    pub const FLAGS_AT: usize = 0;

    pub const VERSION_AT: usize = 1;

    pub const FINDER_AT: usize = 2;

    pub const NUMBER_AT: usize = 18;

    // A fork's start, logical and physical length.
    pub const DATA_AT: usize = 22;

    pub const RESOURCE_AT: usize = 32;

    pub const CREATED_AT: usize = 42;

    pub const CHANGED_AT: usize = 46;

    // The name's length byte, and the name behind it.
    pub const NAME_LENGTH_AT: usize = 50;

    pub const NAME_AT: usize = 51;

    // No entry is shorter.
    pub const LEAST: usize = 52;

    // Bytes in the longest name.
    pub const MOST_NAME: usize = 255;
}
