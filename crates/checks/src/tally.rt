// What checks 6 and 7 ask of each entry.
ghost use Rattle.std.specs.Prelude.{◌≡◌};
ghost use Rattle.model.specs.Check.{good_number};
ghost use Rattle.directory.specs.Cursor.{rest_of, CursorFits, bytes_at, Stands};
ghost use Rattle.checks.specs.Tallied.{Tallied};

use directory::{BadEntry, Cursor, EntryAt, number_of};

// How many entries there are, and whether each file number is above 0 and below the next one.
#[derive(Clone, Copy)]
pub struct Tally {
    pub count: usize,
    pub numbered: bool,
}

// Whether the entry's file number is above 0 and below the next one.
fn good_number(image: &[u8], e: EntryAt, next: u32) -> bool
    requires { Stands image.now e }
    ensures { result ≡ good_number next (bytes_at image.now e) }
{
    let number = number_of(image, e);
    0 < number && number < next
}

// Check 6, and where it does not fire, the count of entries and the test of their file numbers for check 7.
pub fn count_entries(image: &[u8], from: Cursor, next: u32) -> Result<Tally, BadEntry>
    requires { CursorFits image.now from }
    ensures { Tallied next (rest_of image.now from) result }
{
    // The entries may end in a bad one: an iterator of Results would serve this loop alone, and be longer.
    let mut c = from;
    let mut count: usize = 0;
    let mut numbered = true;
    while let Some((e, behind)) = c.next(image)? {
        numbered &= good_number(image, e, next);
        count += 1;
        c = behind;
    }
    Ok(Tally { count, numbered })
}
