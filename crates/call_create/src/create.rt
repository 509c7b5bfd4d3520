// create: all that may refuse it comes before the change.
ghost use Rattle.model.specs.Calls.{Call, Does};
ghost use Rattle.files.specs.Lookup.{Readable};
ghost use Rattle.files.specs.Told.{told_number};

use directory::entry_size;
use files::{bad_name, first_entry, is_locked, lookup, too_long};
use model::{Refusal, VolumeFacts};

// On an accepted image, whose facts are f. Name, Finder bytes and dates are four parameters, as `Call.create` and C have them.
pub fn serve_create(
    image: &mut [u8],
    f: VolumeFacts,
    name: &[u8],
    finder: &[u8; 16],
    created: u32,
    changed: u32,
) -> Result<(), Refusal>
    requires { Readable f image.old }
    ensures { Does (Call.create name.now finder.now created changed) image.old (told_number result) image.new }
{
    crate::add::whole(finder);
    if is_locked(f) {
        return Err(Refusal::VolumeLocked);
    }
    if bad_name(name) {
        return Err(Refusal::BadName);
    }
    if too_long(name) {
        return Err(Refusal::NameTooLong);
    }
    if lookup(image, f, name).is_ok() {
        return Err(Refusal::NameExists);
    }
    if f.next_number == VolumeFacts::LAST_NUMBER {
        return Err(Refusal::LastNumber);
    }
    match entries::find_room(image, first_entry(f), entry_size(name.len())) {
        None => Err(Refusal::DirectoryFull),
        Some(room) => {
            crate::add::add_file(image, f, room, name, finder, created, changed);
            Ok(())
        }
    }
}
