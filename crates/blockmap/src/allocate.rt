// Blocks allocated: the lowest free ones, joined behind a chain.
ghost use Rattle.std.specs.Prelude.{◌≡◌, true, ◌++◌, ◌+◌, ◌≤◌, ◌<◌, length, take};
ghost use Rattle.model.specs.Lists.{first_or0};
ghost use Rattle.model.specs.Map.{map_entry, runs, chain_blocks, blocks_free, put_chain};
ghost use Rattle.blockmap.specs.Free.{IsFree, free_from};

use crate::chain::block_at;
use crate::packed::{load, store};
use model::AllocationBlock;

// The lowest free block from b on. There is one, so each number tried is a block's. A `find` over the range would test its end too
// at each: `extend` then takes a twelfth more instructions.
fn next_free(image: &[u8], n: u16, b: AllocationBlock) -> AllocationBlock
    requires { (n ≤ 640) × (2048 ≤ length image.now) × (2 ≤ b.0) × (1 ≤ length (free_from (map_entry image.now) n b.0)) }
    ensures { IsFree (map_entry image.now) n b.0 result.0 }
{
    let mut at = b.0;
    while load(image, AllocationBlock(at)) != 0 {
        at += 1;
    }
    AllocationBlock(at)
}

// Joins `need` free blocks: b, which is free, and the lowest ones behind it.
fn join_free(image: &mut [u8], n: u16, b: AllocationBlock, need: u16)
    requires { (n ≤ 640) × (2048 ≤ length image.old) × (2 ≤ b.0) × (b.0 ≤ n + 1) × (map_entry image.old b.0 ≡ 0) × (1 ≤ need) × (need ≤ length (free_from (map_entry image.old) n b.0)) }
    ensures { image.new ≡ put_chain image.old (take need (free_from (map_entry image.old) n b.0)) }
{
    let mut last = b;
    for _ in 1..need {
        let next = next_free(image, n, AllocationBlock(last.0 + 1));
        store(image, last, next.0);
        last = next;
    }
    store(image, last, 1);
}

// Takes the `need` lowest free blocks, joins them behind the chain of k blocks from s and gives the start of the whole.
// Where k is 0 there is no chain, whatever s is, and the start is the first block taken, or 0, the start of an empty fork.
pub fn extend(image: &mut [u8], n: u16, s: AllocationBlock, k: u16, need: u16) -> AllocationBlock
    requires { (n ≤ 640) × (2048 ≤ length image.old) × (0 < k → runs (map_entry image.old) n k s.0 ≡ true) × (need ≤ length (blocks_free (map_entry image.old) n)) }
    ensures after { image.new ≡ put_chain image.old (chain_blocks (map_entry image.old) k s.0 ++ take need (blocks_free (map_entry image.old) n)) }
    ensures start { result.0 ≡ first_or0 (chain_blocks (map_entry image.old) k s.0 ++ take need (blocks_free (map_entry image.old) n)) }
{
    if need == 0 {
        if k == 0 {
            return AllocationBlock(0);
        }
        return s;
    }
    let first = next_free(image, n, AllocationBlock(2));
    if k == 0 {
        join_free(image, n, first, need);
        return first;
    }
    let last = block_at(image, s, k - 1);
    store(image, last, first.0);
    join_free(image, n, first, need);
    s
}
