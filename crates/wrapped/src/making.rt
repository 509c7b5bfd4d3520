// Whichever call is made on a wrapped file, it is an event of the claim on every list of calls on wrapped files.
ghost use Rattle.volume.specs.Happens.{call_of};
ghost use Rattle.wrapped.specs.Happens.{HappensWrapped};

use crate::changing::{create, cut, delete, write};
use crate::reading::{block, check, entry, find, read};
use model::Fork;
use volume::{Outcome, Wanted};

// Makes the call that is wanted with what it needs of all this, and gives back what that call gives. A later call than the nine
// takes the file for a bare image.
pub fn make_call(
    file: &mut [u8],
    wanted: Wanted,
    name: &[u8],
    fork: Fork,
    place: u64,
    buffer: &mut [u8],
    finder: &[u8; 16],
    bytes: &[u8],
    created: u32,
    changed: u32,
    format: u8,
) -> Outcome
    ensures { HappensWrapped (call_of wanted name.now fork place buffer.old finder.now bytes.now created changed format) file.old result buffer.old buffer.new file.new }
{
    match wanted {
        Wanted::Check => Outcome::from(check(file)),
        Wanted::Entry => Outcome::from(entry(file, place)),
        Wanted::Find => Outcome::from(find(file, name)),
        Wanted::Block => Outcome::from(block(file, name, fork, place)),
        Wanted::Read => Outcome::from(read(file, name, fork, place, buffer)),
        Wanted::Create => Outcome::from(create(file, name, finder, created, changed)),
        Wanted::Write => Outcome::from(write(file, name, fork, place, bytes, changed)),
        Wanted::Cut => Outcome::from(cut(file, name, fork, place, changed)),
        Wanted::Delete => Outcome::from(delete(file, name)),
        Wanted::Wrap => Outcome::from(volume::wrap(file, name, format, buffer)),
        Wanted::Rename => Outcome::from(volume::rename(file, name, bytes, changed)),
        Wanted::QuickFind => Outcome::from(volume::quick_find(file, name)),
    }
}
