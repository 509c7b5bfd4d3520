// Chains: the walk with marks and the claim of a fork over a decoded map, and the block at a place of the image's map.
ghost use Rattle.std.specs.Prelude.{◌≡◌, true, ◌&&◌, ◌≤◌, length};
ghost use Rattle.model.specs.Map.{map_entry, runs, chain_blocks};
ghost use Rattle.model.specs.Directory.{fork_blocks};
ghost use Rattle.blockmap.specs.Decoded.{decoded_entry};
ghost use Rattle.blockmap.specs.Marks.{fresh, marked, claims};
ghost use Rattle.blockmap.specs.Places.{HasPlace, IsPlace};

use crate::packed::load;
use model::{AllocationBlock, ForkFacts, block_count};

// Whether a chain of exactly k blocks runs from s, none of which is marked. Where it does, each of its blocks is marked.
// s is a map value, or a fork's start as stored, and may be no block's number (0, 1 or bad): so it is a plain number.
// A mark is a byte: `fresh` and `marked`, by which this is stated, speak of numbers.
// Each call but the last marks a block that had no mark, so there are at most n + 1 of them, whatever k is.
pub fn walk(entries: &[u16; 642], n: u16, s: u16, k: u16, marks: &mut [u8; 642]) -> bool
    requires { n ≤ 640 }
    ensures answer { result ≡ (runs (decoded_entry entries.now) n k s && fresh marks.old (chain_blocks (decoded_entry entries.now) k s)) }
    ensures after { result ≡ true → marks.new ≡ marked marks.old (chain_blocks (decoded_entry entries.now) k s) }
{
    if k == 0 {
        return s == 1;
    }
    let place = s as usize;
    if s < 2 || n + 1 < s || marks[place] != 0 {
        return false;
    }
    marks[place] = 1;
    let next = entries[place];
    walk(entries, n, next, k - 1, marks)
}

// Whether a fork is good, by check 8, and has no marked block. Where it is so, each of its blocks is marked.
pub fn claim_fork(entries: &[u16; 642], n: u16, a: u32, g: ForkFacts, marks: &mut [u8; 642]) -> bool
    requires { (n ≤ 640) × (512 ≤ a) }
    ensures answer { result ≡ claims (decoded_entry entries.now) n a marks.old g }
    ensures after { result ≡ true → marks.new ≡ marked marks.old (fork_blocks (decoded_entry entries.now) a g) }
{
    let ForkFacts {
        start: AllocationBlock(first),
        logical,
        physical,
    } = g;
    if first == 0 {
        return logical == 0 && physical == 0;
    }
    if physical == 0 || physical % a != 0 || physical < logical {
        return false;
    }
    let k = block_count(g, a);
    k <= n as u32 && walk(entries, n, first, k as u16, marks)
}

// The block at a place of the chain that runs from s, counted from 0.
pub fn block_at(image: &[u8], s: AllocationBlock, place: u16) -> AllocationBlock
    requires { HasPlace (map_entry image.now) s.0 place × (2048 ≤ length image.now) }
    ensures { IsPlace (map_entry image.now) s.0 place result.0 }
{
    let mut b = s;
    for _ in 0..place {
        b = AllocationBlock(load(image, b));
    }
    b
}
