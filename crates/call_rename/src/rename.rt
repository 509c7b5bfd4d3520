// rename: all that may refuse it comes before the change.
ghost use Rattle.std.specs.Prelude.{◌≡◌, false};
ghost use Rattle.model.specs.Calls.{Call, Does, bad_name};
ghost use Rattle.files.specs.Lookup.{Readable};
ghost use Rattle.files.specs.Told.{told_number};
ghost use Rattle.call_rename.specs.Renaming.{NamesAnother};

use crate::retitle::rename_file;
use files::{bad_name, changeable, is_locked, lookup, too_long};
use model::{Refusal, VolumeFacts};

// Whether another file than the one at that place has the new name.
fn names_another(image: &[u8], f: VolumeFacts, place: usize, new: &[u8]) -> bool
    requires readable { Readable f image.now }
    requires value { bad_name new.now ≡ false }
    ensures { NamesAnother image.now place new.now result }
{
    match lookup(image, f, new) {
        Ok(other) => other.place != place,
        Err(_) => false,
    }
}

// On an accepted image, whose facts are f. The new name's 12 and 21 come before the old one's 13, so 11 and 12 are asked here and
// again with it.
pub fn serve_rename(
    image: &mut [u8],
    f: VolumeFacts,
    name: &[u8],
    new: &[u8],
    changed: u32,
) -> Result<(), Refusal>
    requires { Readable f image.old }
    ensures { Does (Call.rename name.now new.now changed) image.old (told_number result) image.new }
{
    if is_locked(f) {
        return Err(Refusal::VolumeLocked);
    }
    if bad_name(name) || bad_name(new) {
        return Err(Refusal::BadName);
    }
    if too_long(new) {
        return Err(Refusal::NameTooLong);
    }
    let named = changeable(image, f, name)?;
    if names_another(image, f, named.place, new) {
        return Err(Refusal::NameExists);
    }
    rename_file(image, f, named.entry, new, changed)
}
