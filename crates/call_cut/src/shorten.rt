// A fork cut shorter.
ghost use Rattle.std.specs.Prelude.{◌≤◌};
ghost use Rattle.files.specs.Leaves.{Shortened};
ghost use Rattle.files.specs.Lookup.{ForkAt};

use directory::EntryAt;
use entries::put_free;
use forks::fewest_blocks;
use model::{AllocationBlock, Fork, ForkFacts, VolumeFacts, block_count};

// Frees the blocks of the fork g that its first bytes, as many as the size says, don't need, then stores the fork's fields and the
// free count.
pub fn shorten_fork(
    image: &mut [u8],
    f: VolumeFacts,
    e: EntryAt,
    fork: Fork,
    g: ForkFacts,
    size: u32,
    changed: u32,
)
    requires fork_at { ForkAt f image.old e fork g }
    requires size_le_logical { size ≤ g.logical }
    ensures { Shortened f image.old e fork g size changed image.new }
{
    let a = f.block_size;
    let has = block_count(g, a) as u16;
    let keep = fewest_blocks(size, a) as u16;
    let mut start = g.start.0;
    blockmap::shorten(image, f.allocation_blocks, g.start, has, keep);
    if keep == 0 {
        start = 0;
    }
    let after = ForkFacts {
        start: AllocationBlock(start),
        logical: size,
        physical: keep as u32 * a,
    };
    entries::store_fork(image, e, fork, after, changed);
    put_free(image, f.free_blocks + (has - keep));
}
