// The entry of a name, and the entry at a place.
ghost use Rattle.std.specs.Prelude.{◌≡◌};
ghost use Rattle.model.specs.Directory.{named};
ghost use Rattle.directory.specs.Cursor.{rest_of, bytes_at, Stands, Passes};
ghost use Rattle.directory.specs.Folding.{Folds};
ghost use Rattle.directory.specs.Search.{Finds, Located, Gives};

use crate::folds::fold_table;
use crate::names::same_name;
use crate::{Cursor, EntryAt, Found};

// Whether the entry has the name.
pub fn has_name(image: &[u8], e: EntryAt, name: &[u8], fold: &[u8; 256]) -> bool
    requires stands { Stands image.now e }
    requires folds { Folds fold.now }
    ensures { result ≡ named name.now (bytes_at image.now e) }
{
    let from = e.start + EntryAt::NAME_AT;
    let to = from + e.name_length;
    same_name(name, &image[from..to], fold)
}

// The first entry of the name, with its place counted from the cursor, and where in the directory it stands.
pub fn locate(image: &[u8], from: Cursor, name: &[u8]) -> Option<Found>
    requires { Passes image.now from }
    ensures finds { Finds image.now name.now (rest_of image.now from) result }
    ensures located { Located image.now from result }
{
    let fold = fold_table();
    for (place, entry) in from.entries(image).enumerate() {
        if has_name(image, entry, name, &fold) {
            return Some(Found { place, entry });
        }
    }
    None
}

// The entry at a place counted from the cursor.
pub fn entry_at(image: &[u8], from: Cursor, place: u64) -> Option<Found>
    requires { Passes image.now from }
    ensures { Gives image.now (rest_of image.now from) place result }
{
    let place = place as usize;
    let entry = from.entries(image).nth(place)?;
    Some(Found { place, entry })
}
