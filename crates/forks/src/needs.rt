// The blocks that a fork needs, and those that a write takes. No sum wraps, whatever is asked.
ghost use Rattle.std.specs.Prelude.{◌≡◌, ◌≤◌};
ghost use Rattle.model.specs.Facts.{clump};
ghost use Rattle.model.specs.Directory.{block_count};
ghost use Rattle.model.specs.Calls.{fewest, taken};
ghost use Rattle.forks.specs.Growth.{Grows};

use model::{ForkFacts, Refusal, VolumeFacts, block_count};

// The fewest blocks of a bytes that hold n bytes.
pub fn fewest_blocks(n: u32, a: u32) -> u32
    requires { 512 ≤ a }
    ensures { result ≡ fewest n a }
{
    n.div_ceil(a)
}

// The new blocks that a write of count bytes at the offset needs; 17 where they exceed those free. So many bytes that the sum of
// offset and count would wrap fit on no volume.
pub fn needed_blocks(
    f: VolumeFacts,
    g: ForkFacts,
    offset: usize,
    count: usize,
) -> Result<u16, Refusal>
    requires { (512 ≤ f.block_size) × (f.block_size ≤ 32768) × (offset ≤ g.logical) }
    ensures { Grows f g offset count result }
{
    let end = offset.checked_add(count).ok_or(Refusal::VolumeFull)?;
    let size = (g.logical as usize).max(end);
    let due = size.div_ceil(f.block_size as usize);
    let has = block_count(g, f.block_size) as usize;
    let need = due.saturating_sub(has);
    if (f.free_blocks as usize) < need {
        return Err(Refusal::VolumeFull);
    }
    Ok(need as u16)
}

// How many blocks a clump has: one, unless the clump size is a multiple of A and at least A.
fn clump_blocks(f: VolumeFacts) -> u32
    requires { 512 ≤ f.block_size }
    ensures { result ≡ clump f }
{
    if f.clump_size < f.block_size || f.clump_size % f.block_size != 0 {
        return 1;
    }
    f.clump_size / f.block_size
}

// The new blocks that a write takes for the fork g where it needs so many: none where it needs none; those that make whole clumps of
// all the fork's blocks, if so many are free; else just those needed.
pub fn taken_blocks(f: VolumeFacts, g: ForkFacts, free: u16, need: u16) -> u16
    requires { 512 ≤ f.block_size }
    ensures { result ≡ taken (clump f) free (block_count f.block_size g) need }
{
    if need == 0 {
        return 0;
    }
    let has = block_count(g, f.block_size) as usize;
    let clump = clump_blocks(f) as usize;
    let whole = (has + need as usize).next_multiple_of(clump);
    let more = whole - has;
    if (free as usize) < more {
        return need;
    }
    more as u16
}
