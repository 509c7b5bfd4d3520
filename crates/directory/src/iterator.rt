// The entries of a directory that passed check 6, one after another.
ghost use Rattle.std.specs.Prelude.{◌≡◌};
ghost use Rattle.directory.specs.Cursor.{Passes};

use crate::{Cursor, EntryAt};

// The entries from a cursor on. It is used up by one pass, so a function that makes more, or hands the cursor on, takes image and cursor
// with `Passes`.
#[derive(Drop)]
pub struct Entries<'a> {
    image: &'a [u8],
    cursor: Cursor,
    ghost passes: { Passes image.now cursor },
}

impl Cursor {
    // The entries from here on, in a directory that passed check 6.
    pub fn entries(self, image: &[u8]) -> Entries<'_>
        requires { Passes image.now self }
        ensures { (result.image.now ≡ image.now) × (result.cursor ≡ self) }
    {
        Entries {
            image,
            cursor: self,
        }
    }
}

impl<'a> Iterator for Entries<'a> {
    ghost use Rattle.directory.specs.Entries.{Reads, left};

    type Item = EntryAt;

    ghost next_gives = { Reads };

    ghost remaining = { left };

    fn next(&mut self) -> Option<EntryAt> {
        let (entry, behind) = self.cursor.advance(self.image)?;
        self.cursor = behind;
        Some(entry)
    }
}
