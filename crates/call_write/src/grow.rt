// A fork grown by a write.
ghost use Rattle.std.specs.Prelude.{◌≡◌, ◌≤◌, length};
ghost use Rattle.model.specs.Facts.{free_count};
ghost use Rattle.model.specs.Calls.{taken_blocks};
ghost use Rattle.files.specs.Leaves.{Written};
ghost use Rattle.files.specs.Lookup.{ForkAt};

use directory::EntryAt;
use entries::put_free;
use forks::fill_fork;
use model::{AllocationBlock, Fork, ForkFacts, VolumeFacts, block_count};

// Joins so many new blocks to the fork g, stores the bytes from the offset on, then the fork's fields and the free count.
// Entry, fork and its facts are three parameters: `ForkAt` and `Written` speak of each.
pub fn grow_fork(
    image: &mut [u8],
    f: VolumeFacts,
    e: EntryAt,
    fork: Fork,
    g: ForkFacts,
    new: u16,
    offset: usize,
    bytes: &[u8],
    changed: u32,
)
    requires fork_at { ForkAt f image.old e fork g }
    requires offset_le_logical { (offset ≤ g.logical) × (new ≡ taken_blocks f g offset (length bytes.now)) × (new ≤ free_count f) }
    ensures { Written f image.old e fork g offset bytes.now changed image.new }
{
    let a = f.block_size;
    let has = block_count(g, a) as u16;
    let start = blockmap::extend(image, f.allocation_blocks, g.start, has, new);
    let blocks = has + new;
    let first = start.0;
    fill_fork(image, f.allocation_start, a, start, blocks, offset, bytes);
    let after = ForkFacts {
        start: AllocationBlock(first),
        logical: (g.logical as usize).max(offset + bytes.len()) as u32,
        physical: blocks as u32 * a,
    };
    entries::store_fork(image, e, fork, after, changed);
    put_free(image, f.free_blocks - new);
}
