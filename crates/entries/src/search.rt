// Room for an entry to be put in: looked for in the directory as it is, and as it is once an entry is out of it.
ghost use Rattle.std.specs.Prelude.{◌≡◌, ℕ, ◌+◌, ◌*◌, ◌^◌, ◌≤◌, ◌<◌};
ghost use Rattle.directory.specs.Cursor.{Passes, Stands, Lies};
ghost use Rattle.entries.specs.Blocks.{Block, StandsIn, EndsWithout};
ghost use Rattle.entries.specs.Rooms.{Searched, Roomy, RoomyWithout};

use crate::Room;
use crate::remove::read_end;
use directory::{Cursor, EntryAt, entry_size};

// The first directory block, from a cursor at a block's start on, that has room for so many bytes. The reading of the block at a byte
// of the image ends where `end_of` says.
fn first_room<F: Fn(usize) -> usize>(from: Cursor, size: usize, end_of: F) -> Option<Room>
    requires size_bound { size ≤ 512 }
    requires fits { from.base + 512 * (from.left + 1) < 2 ^ 64 }
    requires callable { (i : ℕ) → i ≤ from.left → F.pre end_of (from.base + 512 * i) }
    ensures { Searched (F.post end_of) from.base from.left size result }
{
    for i in 0..=from.left {
        let base = from.base + Cursor::BLOCK * i;
        let end = end_of(base);
        if end <= Cursor::BLOCK - size {
            return Some(Room { base, end });
        }
    }
    None
}

// The first directory block, from a cursor at a block's start on, that has room for so many bytes.
pub fn find_room(image: &[u8], from: Cursor, size: usize) -> Option<Room>
    requires passes { Passes image.now from }
    requires at_value { from.at ≡ 0 }
    requires size_bound { size ≤ 512 }
    ensures { Roomy image.now from.base from.left size result }
{
    first_room(from, size, |base| read_end(image, base))
}

// Where the reading of the directory block at byte base ends once the entry is out, where it stands in that block.
fn end_without(image: &[u8], base: usize, e: EntryAt) -> usize
    requires block { Block image.now base }
    requires stands { Stands image.now e }
    requires stands_in { StandsIn image.now base e }
    ensures { EndsWithout image.now base e result }
{
    let end = read_end(image, base);
    if base <= e.start && e.start < base + Cursor::BLOCK {
        end - entry_size(e.name_length)
    } else {
        end
    }
}

// The first directory block, from a cursor at a block's start on, that has room for so many bytes once the entry is out.
pub fn find_room_without(image: &[u8], from: Cursor, size: usize, e: EntryAt) -> Option<Room>
    requires passes { Passes image.now from }
    requires at_value { from.at ≡ 0 }
    requires size_bound { size ≤ 512 }
    requires stands { Stands image.now e }
    requires lies { Lies image.now from.base (from.left + 1) e }
    ensures { RoomyWithout image.now from.base from.left size e result }
{
    first_room(from, size, |base| end_without(image, base, e))
}
