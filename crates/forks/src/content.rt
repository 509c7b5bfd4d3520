// The bytes of a fork, block by block.
ghost use Rattle.std.specs.Prelude.{◌≡◌, ◌++◌, ◌+◌, ◌*◌, ◌%◌, ◌≤◌, ◌<◌, length, drop};
ghost use Rattle.model.specs.Bytes.{part};
ghost use Rattle.model.specs.Facts.{block_byte};
ghost use Rattle.model.specs.Calls.{fork_bytes, put_content, read_count, copied};
ghost use Rattle.model.specs.Map.{map_entry, chain_blocks};
ghost use Rattle.forks.specs.Content.{Copyable, Fillable};

use model::{AllocationBlock, ForkFacts, LogicalBlock, copy_part};

// The image's byte at a place within allocation block b.
fn byte_in(b: AllocationBlock, start: LogicalBlock, size: u32, within: usize) -> usize
    requires { (2 ≤ b.0) × (b.0 ≤ 641) × (size ≤ 32768) × (size % 512 ≡ 0) × (start.0 < 65536) × (within < size) }
    ensures { result ≡ block_byte start size b + within }
{
    b.logical(start, size).byte() + within
}

// Copies count bytes of the fork from the offset on into the buffer. Of what `chunks_mut` lends a proof would know nothing after, and
// a `for` by steps of A would count what `done` says.
fn copy_blocks(
    image: &[u8],
    start: LogicalBlock,
    size: u32,
    g: ForkFacts,
    offset: usize,
    count: usize,
    buffer: &mut [u8],
)
    requires { Copyable image.now start size g × (1 ≤ count) × (offset + count ≤ g.logical) × (count ≤ length buffer.old) }
    ensures { buffer.new ≡ part offset count (fork_bytes start size image.now g) ++ drop count buffer.old }
{
    let a = size as usize;
    let within = offset % a;
    let mut b = blockmap::block_at(image, g.start, (offset / a) as u16);
    let from = byte_in(b, start, size, within);
    let mut done = count.min(a - within);
    copy_part(image, from, buffer, 0, done);
    while done < count {
        b = AllocationBlock(blockmap::load(image, b));
        let from = byte_in(b, start, size, 0);
        let n = a.min(count - done);
        copy_part(image, from, buffer, done, n);
        done += n;
    }
}

// Copies the fork's bytes from the offset on, as many as there are and the buffer holds, and gives their number.
pub fn copy_fork(
    image: &[u8],
    start: LogicalBlock,
    size: u32,
    g: ForkFacts,
    offset: usize,
    buffer: &mut [u8],
) -> usize
    requires { Copyable image.now start size g × (offset ≤ g.logical) }
    ensures count { result ≡ read_count (length buffer.old) g.logical offset }
    ensures bytes { buffer.new ≡ copied (fork_bytes start size image.now g) offset buffer.old }
{
    let count = buffer.len().min(g.logical as usize - offset);
    if count == 0 {
        return 0;
    }
    copy_blocks(image, start, size, g, offset, count, buffer);
    count
}

// Stores the bytes from the offset on into the chain of blocks that starts at the first. For no bytes nothing is touched.
pub fn fill_fork(
    image: &mut [u8],
    start: LogicalBlock,
    size: u32,
    first: AllocationBlock,
    blocks: u16,
    offset: usize,
    bytes: &[u8],
)
    requires { Fillable image.old start size first.0 blocks × (offset + length bytes.now ≤ blocks * size) }
    ensures { image.new ≡ put_content start size image.old (chain_blocks (map_entry image.old) blocks first.0) offset bytes.now }
{
    if bytes.is_empty() {
        return;
    }
    let a = size as usize;
    let within = offset % a;
    let mut block = blockmap::block_at(image, first, (offset / a) as u16);
    let (head, behind) = bytes.split_at(bytes.len().min(a - within));
    let to = byte_in(block, start, size, within);
    copy_part(head, 0, image, to, head.len());
    for part in behind.chunks(a) {
        block = AllocationBlock(blockmap::load(image, block));
        let to = byte_in(block, start, size, 0);
        copy_part(part, 0, image, to, part.len());
    }
}
