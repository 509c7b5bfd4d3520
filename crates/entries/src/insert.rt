// An entry put into a directory block that has room for it.
ghost use Rattle.std.specs.Prelude.{◌≡◌, [], ◌∷◌, ◌++◌, ◌+◌, ◌≤◌, length};
ghost use Rattle.std.proofs.Math.Seq.{paste};
ghost use Rattle.model.specs.Bytes.{bytes32, zeros, part};
ghost use Rattle.model.specs.Directory.{size_for, entries, read_end};
ghost use Rattle.model.specs.Calls.{new_entry, date_and_name, filled};
ghost use Rattle.entries.specs.Blocks.{Block};

use crate::Room;
use crate::numbers::put32_at;
use crate::title::put_date_and_name;
use directory::{Cursor, EntryAt};

// Stores bytes from a place on.
pub fn put_bytes(image: &mut [u8], at: usize, bytes: &[u8])
    requires { at + length bytes.now ≤ length image.old }
    ensures { image.new ≡ paste image.old at bytes.now (length bytes.now) }
{
    image[at..at + bytes.len()].copy_from_slice(bytes);
}

// Puts an entry behind the last one of the directory block where the room is: its bytes up to the change date are given, then come
// date and name. Zeros follow it to the block's end.
pub fn insert_with_head(image: &mut [u8], room: Room, head: &[u8; 46], name: &[u8], changed: u32)
    requires block { Block image.old room.base }
    requires end_value { (room.end ≡ read_end (part room.base 512 image.old)) × (room.end + size_for (length name.now) ≤ 512) × (length name.now ≤ 255) }
    ensures { image.new ≡ paste image.old room.base (filled (entries (part room.base 512 image.old) ++ ((head.now ++ date_and_name changed name.now) ∷ []))) 512 }
{
    let at = room.base + room.end;
    put_bytes(image, at, head);
    put_date_and_name(image, at, name, changed);
    let behind = at + EntryAt::NAME_AT + name.len();
    image[behind..room.base + Cursor::BLOCK].fill(0);
}

// The bytes of an empty file's entry up to its change date.
fn new_head(number: u32, finder: &[u8; 16], created: u32) -> [u8; 46]
    ensures { result ≡ 0x80 ∷ 0 ∷ (finder.now ++ (bytes32 number ++ (zeros 20 ++ bytes32 created))) }
{
    let mut head = [0; EntryAt::CHANGED_AT];
    head[EntryAt::FLAGS_AT] = 0x80;
    put_bytes(&mut head, EntryAt::FINDER_AT, finder);
    put32_at(&mut head, EntryAt::NUMBER_AT, number);
    put32_at(&mut head, EntryAt::CREATED_AT, created);
    head
}

// As `insert_with_head`, for the entry of an empty file.
pub fn insert_entry(
    image: &mut [u8],
    room: Room,
    number: u32,
    name: &[u8],
    finder: &[u8; 16],
    created: u32,
    changed: u32,
)
    requires block { Block image.old room.base }
    requires end_value { (room.end ≡ read_end (part room.base 512 image.old)) × (room.end + size_for (length name.now) ≤ 512) × (length name.now ≤ 255) }
    ensures { image.new ≡ paste image.old room.base (filled (entries (part room.base 512 image.old) ++ (new_entry number name.now finder.now created changed ∷ []))) 512 }
{
    let head = new_head(number, finder, created);
    insert_with_head(image, room, &head, name, changed);
}
