// An entry's change date and name, which come last in it and which create and rename store; the bytes before them.
ghost use Rattle.std.specs.Prelude.{◌≡◌, ◌∷◌, ◌++◌, ◌+◌, ◌≤◌, length};
ghost use Rattle.std.proofs.Math.Seq.{paste};
ghost use Rattle.model.specs.Bytes.{bytes32, part};
ghost use Rattle.model.specs.Directory.{size_for};
ghost use Rattle.model.specs.Calls.{retitled};
ghost use Rattle.directory.specs.Cursor.{bytes_at, Stands};

use crate::insert::put_bytes;
use crate::numbers::put32_at;
use directory::{EntryAt, entry_size};
use model::array_at;

// Stores date and name in the entry at a byte of the image.
pub fn put_date_and_name(image: &mut [u8], at: usize, name: &[u8], changed: u32)
    requires { (at + (51 + length name.now) ≤ length image.old) × (length name.now ≤ 255) }
    ensures { image.new ≡ paste image.old (at + 46) (bytes32 changed ++ (length name.now ∷ name.now)) (5 + length name.now) }
{
    put32_at(image, at + EntryAt::CHANGED_AT, changed);
    image[at + EntryAt::NAME_LENGTH_AT] = name.len() as u8;
    put_bytes(image, at + EntryAt::NAME_AT, name);
}

// The entry's bytes up to its change date.
pub fn kept_head(image: &[u8], e: EntryAt) -> [u8; 46]
    requires { Stands image.now e }
    ensures { result ≡ part e.start 46 image.now }
{
    array_at(image, e.start)
}

// Gives the entry another date and a name of the same padded size, where it stands. A pad byte is 0 afterwards.
pub fn rename_entry(image: &mut [u8], e: EntryAt, name: &[u8], changed: u32)
    requires stands { Stands image.old e }
    requires name_value { (size_for (length name.now) ≡ size_for e.name_length) × (length name.now ≤ 255) }
    requires name_length_in_bounds { e.start + size_for e.name_length ≤ length image.old }
    ensures { image.new ≡ paste image.old e.start (retitled name.now changed (bytes_at image.old e)) (size_for (length name.now)) }
{
    let start = e.start;
    put_date_and_name(image, start, name, changed);
    let behind = start + EntryAt::NAME_AT + name.len();
    image[behind..start + entry_size(name.len())].fill(0);
}
