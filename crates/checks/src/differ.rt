// Check 7: no two entries share a file number or a name.
ghost use Rattle.std.specs.Prelude.{◌≡◌, ◌&&◌};
ghost use Rattle.model.specs.Lists.{distinct};
ghost use Rattle.model.specs.Check.{same_numbers, same_names};
ghost use Rattle.directory.specs.Cursor.{rest_of, Passes};
ghost use Rattle.directory.specs.Folding.{Folds};
ghost use Rattle.checks.specs.Table.{ComparesBoth};

use crate::Field;
use crate::pairs::pairs_differ;
use crate::table::{NoSlot, compare_by};
use directory::{Cursor, fold_table};

// Fewer entries are compared pair by pair sooner than two tables are cleared.
const FEW: usize = 6;

// Whether the entries differ in their file numbers and in their names, by a table for each.
fn compare_both(image: &[u8], from: Cursor, fold: &[u8; 256]) -> Result<(), NoSlot>
    requires passes { Passes image.now from }
    requires folds { Folds fold.now }
    ensures { ComparesBoth (rest_of image.now from) result }
{
    compare_by(image, from, Field::Number, fold)?;
    compare_by(image, from, Field::Name, fold)
}

// Whether no file number is repeated and no two names are equal. The answer does not depend on the count.
pub fn all_differ(image: &[u8], from: Cursor, count: usize) -> bool
    requires { Passes image.now from }
    ensures { result ≡ (distinct same_numbers (rest_of image.now from) && distinct same_names (rest_of image.now from)) }
{
    let fold = fold_table();
    if count < FEW {
        return pairs_differ(image, from, &fold);
    }
    match compare_both(image, from, &fold) {
        Ok(()) => true,
        Err(NoSlot::Repeated) => false,
        Err(NoSlot::Full) => pairs_differ(image, from, &fold),
    }
}
