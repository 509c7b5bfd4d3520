// Entries compared pair by pair.
ghost use Rattle.std.specs.Prelude.{◌≡◌, ◌&&◌};
ghost use Rattle.model.specs.Lists.{any, distinct};
ghost use Rattle.model.specs.Check.{same_numbers, same_names};
ghost use Rattle.directory.specs.Cursor.{rest_of, bytes_at, Stands, Passes};
ghost use Rattle.directory.specs.Folding.{Folds};
ghost use Rattle.checks.specs.Same.{same_by, clash};

use crate::Field;
use directory::{Cursor, EntryAt, number_of, same_name};

// Whether two entries are the same in this field: the same file number, or equal names.
pub fn same(image: &[u8], d: EntryAt, e: EntryAt, field: Field, fold: &[u8; 256]) -> bool
    requires stands { Stands image.now d }
    requires stands_2 { Stands image.now e }
    requires folds { Folds fold.now }
    ensures { result ≡ same_by field (bytes_at image.now d) (bytes_at image.now e) }
{
    match field {
        Field::Number => number_of(image, d) == number_of(image, e),
        Field::Name => {
            let d_from = d.start + EntryAt::NAME_AT;
            let d_to = d_from + d.name_length;
            let e_from = e.start + EntryAt::NAME_AT;
            let e_to = e_from + e.name_length;
            same_name(&image[d_from..d_to], &image[e_from..e_to], fold)
        }
    }
}

// Whether two entries have the same file number or equal names.
fn clashes(image: &[u8], e: EntryAt, d: EntryAt, fold: &[u8; 256]) -> bool
    requires stands { Stands image.now e }
    requires stands_2 { Stands image.now d }
    requires folds { Folds fold.now }
    ensures { result ≡ clash (bytes_at image.now e) (bytes_at image.now d) }
{
    same(image, e, d, Field::Number, fold) || same(image, e, d, Field::Name, fold)
}

// Whether the entry clashes with one from the cursor on.
fn clashes_behind(image: &[u8], from: Cursor, e: EntryAt, fold: &[u8; 256]) -> bool
    requires passes { Passes image.now from }
    requires stands { Stands image.now e }
    requires folds { Folds fold.now }
    ensures { result ≡ any (clash (bytes_at image.now e)) (rest_of image.now from) }
{
    for d in from.entries(image) {
        if clashes(image, e, d, fold) {
            return true;
        }
    }
    false
}

// Whether no file number is repeated and no two names are equal: each entry is compared with those behind it.
pub fn pairs_differ(image: &[u8], from: Cursor, fold: &[u8; 256]) -> bool
    requires passes { Passes image.now from }
    requires folds { Folds fold.now }
    ensures { result ≡ (distinct same_numbers (rest_of image.now from) && distinct same_names (rest_of image.now from)) }
{
    // By the cursor, since the one behind an entry is where those that it is compared with begin.
    let mut c = from;
    while let Some((e, behind)) = c.advance(image) {
        if clashes_behind(image, behind, e, fold) {
            return false;
        }
        c = behind;
    }
    true
}
