// The entry of a name in a directory that was not checked: a block's reading stops at an entry that check 6 would refuse, and the next
// block is read.
ghost use Rattle.std.specs.Prelude.{◌+◌, drop};
ghost use Rattle.model.specs.Lists.{leading};
ghost use Rattle.model.specs.Directory.{cut_blocks};
ghost use Rattle.model.specs.Check.{good_entry};
ghost use Rattle.directory.specs.Cursor.{rest_of, CursorFits};
ghost use Rattle.directory.specs.Folding.{Folds};
ghost use Rattle.directory.specs.Search.{Searched, QuickFinds};

use crate::folds::fold_table;
use crate::search::has_name;
use crate::{Cursor, Found, QuickEntry};
use std::ops::ControlFlow;

// The first entry of the name from the cursor on, up to one that check 6 would refuse. It is given a cursor with no block behind its own.
// Where none has it, the number of entries is what the search goes on with.
fn search_block(
    image: &[u8],
    from: Cursor,
    name: &[u8],
    fold: &[u8; 256],
) -> ControlFlow<Found, usize>
    requires cursor_fits { CursorFits image.now from }
    requires folds { Folds fold.now }
    ensures { Searched image.now name.now (leading good_entry (rest_of image.now from)) result }
{
    // Counted by hand: behind the last entry the count is wanted too.
    let mut c = from;
    let mut place: usize = 0;
    // An entry that check 6 would refuse ends the reading as no entry does.
    while let Some((entry, behind)) = c.next(image).unwrap_or(None) {
        if has_name(image, entry, name, fold) {
            return ControlFlow::Break(Found { place, entry });
        }
        place += 1;
        c = behind;
    }
    ControlFlow::Continue(place)
}

// The first entry of the name in the blocks from the start of the cursor's own on; no block behind the one that has it is read.
pub fn quick_locate(image: &[u8], from: Cursor, name: &[u8]) -> Option<QuickEntry>
    requires { CursorFits image.now from }
    ensures { QuickFinds image.now name.now (cut_blocks (from.left + 1) (drop from.base image.now)) result }
{
    let fold = fold_table();
    let mut place: usize = 0;
    for looked in 0..from.left + 1 {
        let base = from.base + looked * Cursor::BLOCK;
        let block = Cursor {
            base,
            at: 0,
            left: 0,
        };
        match search_block(image, block, name, &fold) {
            ControlFlow::Break(found) => {
                return Some(QuickEntry {
                    place: place + found.place,
                    entry: found.entry,
                    looked: looked + 1,
                });
            }
            ControlFlow::Continue(count) => {
                place += count;
            }
        }
    }
    None
}
