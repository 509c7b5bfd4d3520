// What write and cut store in an entry.
ghost use Rattle.std.specs.Prelude.{◌≡◌, ◌++◌, ◌+◌, ◌≤◌, length};
ghost use Rattle.std.proofs.lemmas.List.Edits.{sets};
ghost use Rattle.model.specs.Bytes.{bytes16, bytes32};
ghost use Rattle.model.specs.Directory.{fork_place};
ghost use Rattle.directory.specs.Cursor.{Stands};

use crate::numbers::{put16_at, put32_at};
use directory::{EntryAt, fork_place};
use model::{Fork, ForkFacts};

// Stores a fork's start, logical and physical length.
fn put_fork(image: &mut [u8], at: usize, g: ForkFacts)
    requires { at + 10 ≤ length image.old }
    ensures { image.new ≡ sets image.old at (bytes16 g.start.0 ++ (bytes32 g.logical ++ bytes32 g.physical)) }
{
    put16_at(image, at, g.start.0);
    put32_at(image, at + 2, g.logical);
    put32_at(image, at + 6, g.physical);
}

// Stores the fork's fields and the change date of the entry.
pub fn store_fork(image: &mut [u8], e: EntryAt, fork: Fork, g: ForkFacts, changed: u32)
    requires { Stands image.old e }
    ensures { image.new ≡ sets (sets image.old (e.start + fork_place fork) (bytes16 g.start.0 ++ (bytes32 g.logical ++ bytes32 g.physical))) (e.start + 46) (bytes32 changed) }
{
    let at = e.start + fork_place(fork);
    put_fork(image, at, g);
    put32_at(image, e.start + EntryAt::CHANGED_AT, changed);
}
