// The search for entries with the same file number or equal names, by a hash table with open addressing. An entry stands in its
// home slot, which its number or its name gives, or behind it with no free slot between. So it is enough to compare an entry
// with those from its home slot to the next free one. It is a table in fixed memory and no HashMap, since the library has no heap.
// A slot is a number with 0 for none: an Option of one would take eight bytes, and the table is cleared for each comparison.
ghost use Rattle.std.specs.Prelude.{◌≡◌, ◌-◌, ◌≤◌};
ghost use Rattle.directory.specs.Cursor.{rest_of, bytes_at, Stands, Passes};
ghost use Rattle.directory.specs.Folding.{folded, Folds};
ghost use Rattle.checks.specs.Table.{hashed, spread_of, home_by, entry_from, AllFree, Filled, Probed, Compares};

use crate::Field;
use crate::pairs::same;
use directory::{Cursor, EntryAt, number_of};

// Slots of the table. The first 4,096 are home slots. No directory has more than 2,304 entries, nine in each of 256 blocks, so that
// even those of one home slot have room behind it, and nothing wraps around.
pub const SLOTS: usize = 6400;

// A slot holds a start below this.
pub const LIMIT: usize = 0xffff_ffff;

// Why the table has no slot for an entry.
#[derive(Clone, Copy, Debug, PartialEq, Eq)]
pub enum NoSlot {
    // An entry of the table is the same.
    Repeated,
    // No slot is free, or none can hold its start. No volume has so many entries, or is so long.
    Full,
}

// The entry that an occupied slot holds.
fn entry_in_slot(image: &[u8], kept: u32) -> EntryAt
    requires le_kept { 1 ≤ kept }
    requires stands { Stands image.now (entry_from image.now (kept - 1)) }
    ensures { result ≡ entry_from image.now (kept - 1) }
{
    let start = kept as usize - 1;
    EntryAt {
        start,
        name_length: image[start + EntryAt::NAME_LENGTH_AT] as usize,
    }
}

// The hash of a name, of 16 bits, with no regard to case.
fn hash_name(name: &[u8], fold: &[u8; 256]) -> u32
    requires { Folds fold.now }
    ensures { result ≡ hashed 0 (folded name.now) }
{
    let mut h: u32 = 0;
    for x in name {
        let b = fold[*x as usize];
        h = (h * 293 + b as u32) % 65536;
    }
    h
}

// A hash spread over the 4,096 home slots by multiplication, so that numbers in a row are far apart.
fn spread(h: u32) -> usize
    ensures { result ≡ spread_of h }
{
    (h % 65536 * 40503 % 65536 / 16) as usize
}

// The home slot of an entry, by its number or its name.
fn home(image: &[u8], e: EntryAt, field: Field, fold: &[u8; 256]) -> usize
    requires stands { Stands image.now e }
    requires folds { Folds fold.now }
    ensures { result ≡ home_by field (bytes_at image.now e) }
{
    match field {
        Field::Number => spread(number_of(image, e)),
        Field::Name => {
            let from = e.start + EntryAt::NAME_AT;
            let to = from + e.name_length;
            spread(hash_name(&image[from..to], fold))
        }
    }
}

// The free slot for an entry, from its home slot on.
fn probe(
    image: &[u8],
    table: &[u32; SLOTS],
    e: EntryAt,
    field: Field,
    fold: &[u8; 256],
) -> Result<usize, NoSlot>
    requires stands { Stands image.now e }
    requires filled { Filled image.now table.now }
    requires folds { Folds fold.now }
    ensures { Probed field image.now table.now e result }
{
    if LIMIT <= e.start {
        return Err(NoSlot::Full);
    }
    for i in home(image, e, field, fold)..SLOTS {
        let kept = table[i];
        if kept == 0 {
            return Ok(i);
        }
        let d = entry_in_slot(image, kept);
        if same(image, d, e, field, fold) {
            return Err(NoSlot::Repeated);
        }
    }
    Err(NoSlot::Full)
}

// Whether the entries differ. Each is put into the table as its start and 1, since 0 is a free slot.
fn insert_all(
    image: &[u8],
    from: Cursor,
    field: Field,
    fold: &[u8; 256],
    table: &mut [u32; SLOTS],
) -> Result<(), NoSlot>
    requires passes { Passes image.now from }
    requires folds { Folds fold.now }
    requires all_free { AllFree table.old }
    ensures { Compares field (rest_of image.now from) result }
{
    for e in from.entries(image) {
        let i = probe(image, table, e, field, fold)?;
        table[i] = (e.start + 1) as u32;
    }
    Ok(())
}

// A table with every slot free.
fn empty() -> [u32; SLOTS]
    ensures { AllFree result }
{
    [0; SLOTS]
}

// Whether the entries differ in their file numbers, or in their names. Not inlined, so that the table is on the stack only of a call that
// needs one: a volume of a few files, and one refused before, is checked on a small stack.
#[inline(never)]
pub fn compare_by(image: &[u8], from: Cursor, field: Field, fold: &[u8; 256]) -> Result<(), NoSlot>
    requires passes { Passes image.now from }
    requires folds { Folds fold.now }
    ensures { Compares field (rest_of image.now from) result }
{
    let mut table = empty();
    insert_all(image, from, field, fold, &mut table)
}
