// From a name to its entry: refusals 12 and 13, for a call that changes the file 11 and 15 too, and 16 for one that changes a fork.
// An image and its facts go as two parameters with `Readable`: a struct of both could not stand while a call stores into the image, and
// the pages in docs/ name these functions as they are.
ghost use Rattle.std.specs.Prelude.{◌≤◌};
ghost use Rattle.model.specs.Facts.{dir_start, dir_length};
ghost use Rattle.directory.specs.Cursor.{Begins};
ghost use Rattle.files.specs.Lookup.{Readable, Names, MayChange, MayChangeFork};

use crate::NamedFork;
use crate::locks::{file_locked, is_locked};
use crate::names::bad_name;
use directory::{Cursor, Found};
use model::{Fork, Refusal, VolumeFacts};

// At the first entry of the volume's directory.
pub fn first_entry(f: VolumeFacts) -> Cursor
    requires { 1 ≤ dir_length f }
    ensures { Begins (dir_start f) (dir_length f) result }
{
    let start = f.directory_start;
    Cursor::new(start, f.directory_length)
}

// The entry that the name names.
pub fn lookup(image: &[u8], f: VolumeFacts, name: &[u8]) -> Result<Found, Refusal>
    requires { Readable f image.now }
    ensures { Names image.now name.now result }
{
    if bad_name(name) {
        return Err(Refusal::BadName);
    }
    directory::locate(image, first_entry(f), name).ok_or(Refusal::NotFound)
}

// The entry of the name for a call that changes the file.
pub fn changeable(image: &[u8], f: VolumeFacts, name: &[u8]) -> Result<Found, Refusal>
    requires { Readable f image.now }
    ensures { MayChange image.now name.now result }
{
    if is_locked(f) {
        return Err(Refusal::VolumeLocked);
    }
    let named = lookup(image, f, name)?;
    if file_locked(image, named.entry) {
        return Err(Refusal::FileLocked);
    }
    Ok(named)
}

// The fork of the name for a call that changes it from the offset on.
pub fn changeable_fork(
    image: &[u8],
    f: VolumeFacts,
    name: &[u8],
    fork: Fork,
    offset: u64,
) -> Result<NamedFork, Refusal>
    requires { Readable f image.now }
    ensures { MayChangeFork image.now name.now fork offset result }
{
    let entry = changeable(image, f, name)?.entry;
    let facts = directory::read_fork(image, entry, fork);
    if (facts.logical as u64) < offset {
        return Err(Refusal::BeyondEnd);
    }
    Ok(NamedFork { entry, facts })
}
