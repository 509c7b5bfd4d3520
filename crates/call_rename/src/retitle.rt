// The entry of a file with another name, in its place or in another one.
ghost use Rattle.std.specs.Prelude.{◌≡◌, false};
ghost use Rattle.model.specs.Calls.{bad_name};
ghost use Rattle.model.specs.Refusals.{done_number};
ghost use Rattle.files.specs.Lookup.{FileAt};
ghost use Rattle.call_rename.specs.Renaming.{Renames};

use directory::{EntryAt, entry_size};
use files::first_entry;
use model::{Refusal, VolumeFacts};

// Gives the entry the name and the change date: it stays where the padded size is equal, and else goes into the first directory block
// that has room once it is out. Where none has, 18 and nothing is changed.
pub fn rename_file(
    image: &mut [u8],
    f: VolumeFacts,
    e: EntryAt,
    new: &[u8],
    changed: u32,
) -> Result<(), Refusal>
    requires file_at { FileAt f image.old e }
    requires value { bad_name new.now ≡ false }
    ensures { Renames f image.old e new.now changed (done_number result) image.new }
{
    let size = entry_size(new.len());
    if size == entry_size(e.name_length) {
        entries::rename_entry(image, e, new, changed);
        return Ok(());
    }
    match entries::find_room_without(image, first_entry(f), size, e) {
        None => Err(Refusal::DirectoryFull),
        Some(room) => {
            let head = entries::kept_head(image, e);
            entries::remove_entry(image, e);
            entries::insert_with_head(image, room, &head, new, changed);
            Ok(())
        }
    }
}
