// What the calls that tell of an entry answer on an accepted image, whose facts are f.
ghost use Rattle.model.specs.Calls.{Call, Does};
ghost use Rattle.files.specs.Lookup.{Readable};
ghost use Rattle.files.specs.Told.{told_entry, told_find};

use files::{FoundFile, first_entry, lookup};
use model::{DirectoryEntry, Refusal, VolumeFacts};

// For a program that has checked the image: its facts spare the check for each file.
pub fn serve_entry(image: &[u8], f: VolumeFacts, place: u64) -> Result<DirectoryEntry, Refusal>
    requires { Readable f image.now }
    ensures { Does (Call.entry place) image.now (told_entry result) image.now }
{
    match directory::entry_at(image, first_entry(f), place) {
        Some(found) => Ok(directory::read_entry(image, found.entry)),
        None => Err(Refusal::NotFound),
    }
}

pub fn serve_find(image: &[u8], f: VolumeFacts, name: &[u8]) -> Result<FoundFile, Refusal>
    requires { Readable f image.now }
    ensures { Does (Call.find name.now) image.now (told_find result) image.now }
{
    let named = lookup(image, f, name)?;
    Ok(FoundFile {
        place: named.place as u64,
        entry: directory::read_entry(image, named.entry),
    })
}
