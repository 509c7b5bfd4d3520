// An entry taken out of a directory block; where the block's reading ends, which the search for room asks for too.
ghost use Rattle.std.specs.Prelude.{◌≡◌, ◌+◌, ◌≤◌, length, drop};
ghost use Rattle.std.proofs.Math.Seq.{paste};
ghost use Rattle.model.specs.Bytes.{zeros, part};
ghost use Rattle.model.specs.Directory.{read_end};
ghost use Rattle.directory.specs.Cursor.{Stands, Lies};
ghost use Rattle.entries.specs.Blocks.{Block, block_start, Removes};

use directory::{Cursor, EntryAt, entry_size};

// Where the reading of the directory block at byte base ends.
pub fn read_end(image: &[u8], base: usize) -> usize
    requires { Block image.now base }
    ensures { (result ≡ read_end (part base 512 image.now)) × (result ≤ 512) }
{
    let mut c = Cursor {
        base,
        at: 0,
        left: 0,
    };
    // By the cursor, since its place behind the last entry is what is asked.
    while let Some((_, behind)) = c.advance(image) {
        c = behind;
    }
    c.at
}

// Takes the entry out of its directory block: the later entries move up, and zeros follow them.
pub fn remove_entry(image: &mut [u8], e: EntryAt)
    requires block { Block image.old (block_start e) }
    requires stands { Stands image.old e }
    requires lies { Lies image.old (block_start e) 1 e }
    ensures { Removes image.old (block_start e) e image.new }
{
    let start = e.start;
    let base = start - start % Cursor::BLOCK;
    let end = base + read_end(image, base);
    let next = start + entry_size(e.name_length);
    image.copy_within(next..end, start);
    image[start + (end - next)..base + Cursor::BLOCK].fill(0);
}
