// The fields of a directory entry, and how they are read.
ghost use Rattle.std.specs.Prelude.{◌≡◌, ◌+◌, ◌≤◌, length, drop};
ghost use Rattle.model.specs.Bytes.{part};
ghost use Rattle.model.specs.Directory.{number_in, fork_place, fork_of, fork_in, wide, entry_in};
ghost use Rattle.directory.specs.Cursor.{bytes_at, Stands};

use crate::EntryAt;
use model::{AllocationBlock, DirectoryEntry, Fork, ForkFacts, array_at, be16_at, be32_at};

// The file number.
pub fn number_of(image: &[u8], e: EntryAt) -> u32
    requires { Stands image.now e }
    ensures { result ≡ number_in (bytes_at image.now e) }
{
    be32_at(image, e.start + EntryAt::NUMBER_AT)
}

// The fork's fields.
pub fn read_fork(image: &[u8], e: EntryAt, fork: Fork) -> ForkFacts
    requires { Stands image.now e }
    ensures { result ≡ fork_of fork (bytes_at image.now e) }
{
    fork_at(image, e.start + fork_place(fork))
}

// Where an entry has the fork's fields.
pub fn fork_place(fork: Fork) -> usize
    ensures { (result ≡ fork_place fork) × (result ≤ 32) }
{
    match fork {
        Fork::Data => EntryAt::DATA_AT,
        Fork::Resource => EntryAt::RESOURCE_AT,
    }
}

fn fork_at(image: &[u8], at: usize) -> ForkFacts
    requires { at + 10 ≤ length image.now }
    ensures { result ≡ fork_in (drop at image.now) }
{
    ForkFacts {
        start: AllocationBlock(be16_at(image, at)),
        logical: be32_at(image, at + 2),
        physical: be32_at(image, at + 6),
    }
}

// A name as 255 bytes, zero behind it.
fn name_at(image: &[u8], at: usize, count: usize) -> [u8; 255]
    requires { (at + count ≤ length image.now) × (count ≤ 255) }
    ensures { result ≡ wide (part at count image.now) }
{
    let mut name = [0; EntryAt::MOST_NAME];
    name[..count].copy_from_slice(&image[at..at + count]);
    name
}

// The entry.
pub fn read_entry(image: &[u8], e: EntryAt) -> DirectoryEntry
    requires { Stands image.now e }
    ensures { result ≡ entry_in (bytes_at image.now e) }
{
    let start = e.start;
    // First, for speed: behind the copy of the name each number is one load.
    let name = name_at(image, start + EntryAt::NAME_AT, e.name_length);
    DirectoryEntry {
        flags: image[start + EntryAt::FLAGS_AT],
        version: image[start + EntryAt::VERSION_AT],
        finder: array_at(image, start + EntryAt::FINDER_AT),
        number: number_of(image, e),
        data: read_fork(image, e, Fork::Data),
        resource: read_fork(image, e, Fork::Resource),
        created: be32_at(image, start + EntryAt::CREATED_AT),
        changed: be32_at(image, start + EntryAt::CHANGED_AT),
        name_length: image[start + EntryAt::NAME_LENGTH_AT],
        name,
    }
}
