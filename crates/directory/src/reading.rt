// The reading of the directory: one entry after another, one block after another.
ghost use Rattle.std.specs.Prelude.{◌≡◌, false, ◌≤◌};
ghost use Rattle.model.specs.Directory.{ends_at};
ghost use Rattle.directory.specs.Cursor.{block_of, CursorFits, Passes, Entered, Stepped, Advanced, Begins};

use crate::places::entry_size;
use crate::{BadEntry, Cursor, EntryAt};
use model::LogicalBlock;

impl Cursor {
    // Bytes in a directory block.
    pub const BLOCK: usize = 512;

    // An entry in use has this bit in its first byte.
    pub const IN_USE: u8 = 128;

    // At the first entry of the directory that starts there and has so many blocks.
    pub fn new(start: LogicalBlock, length: u16) -> Cursor
        requires { 1 ≤ length }
        ensures { Begins start length result }
    {
        let base = start.byte();
        let left = length as usize - 1;
        Cursor { base, at: 0, left }
    }

    // Whether the block's reading ends here: at the block's end, or at an entry whose bit 7 is clear.
    fn ends(self, image: &[u8]) -> bool
        requires { CursorFits image.now self }
        ensures { result ≡ ends_at (block_of image.now self) self.at }
    {
        Self::BLOCK <= self.at || image[self.base + self.at] < Self::IN_USE
    }

    // The entry here, where the block's reading does not end.
    fn entry(self, image: &[u8]) -> Result<(EntryAt, Cursor), BadEntry>
        requires cursor_fits { CursorFits image.now self }
        requires at_value { ends_at (block_of image.now self) self.at ≡ false }
        ensures { Entered image.now self result }
    {
        let at = self.at;
        if Self::BLOCK < at + EntryAt::LEAST {
            return Err(BadEntry);
        }
        let start = self.base + at;
        if image[start + EntryAt::VERSION_AT] != 0 {
            return Err(BadEntry);
        }
        let name_length = image[start + EntryAt::NAME_LENGTH_AT] as usize;
        if name_length == 0 {
            return Err(BadEntry);
        }
        let next = at + entry_size(name_length);
        if Self::BLOCK < next {
            return Err(BadEntry);
        }
        Ok((
            EntryAt { start, name_length },
            Cursor {
                base: self.base,
                at: next,
                left: self.left,
            },
        ))
    }

    // The next entry, in this block or in one behind it, with the cursor moved past it: document 01's form of the reading, a cursor by
    // value.
    pub fn next(self, image: &[u8]) -> Result<Option<(EntryAt, Cursor)>, BadEntry>
        requires { CursorFits image.now self }
        ensures { Stepped image.now self result }
    {
        let mut c = self;
        while c.ends(image) {
            if c.left == 0 {
                return Ok(None);
            }
            c = Cursor {
                base: c.base + Self::BLOCK,
                at: 0,
                left: c.left - 1,
            };
        }
        Ok(Some(c.entry(image)?))
    }

    // The same in a directory that passed check 6.
    pub fn advance(self, image: &[u8]) -> Option<(EntryAt, Cursor)>
        requires { Passes image.now self }
        ensures { Advanced image.now self result }
    {
        // A directory that passed check 6 has no bad entry.
        self.next(image).unwrap()
    }
}
