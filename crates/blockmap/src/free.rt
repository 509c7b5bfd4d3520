// A chain freed, and a chain cut shorter.
ghost use Rattle.std.specs.Prelude.{◌≡◌, true, ◌≤◌, ◌<◌, length, take, drop};
ghost use Rattle.model.specs.Map.{map_entry, runs, chain_blocks, put_chain, put_free};

use crate::chain::block_at;
use crate::packed::{load, store};
use model::AllocationBlock;

// Gives each of the k blocks of the chain from s the entry 0. Behind the last of them b is the end mark: a plain number.
pub fn free_chain(image: &mut [u8], n: u16, s: AllocationBlock, k: u16)
    requires { (n ≤ 640) × (2048 ≤ length image.old) × (0 < k → runs (map_entry image.old) n k s.0 ≡ true) }
    ensures { image.new ≡ put_free image.old (chain_blocks (map_entry image.old) k s.0) }
{
    let mut b = s.0;
    for _ in 0..k {
        let next = load(image, AllocationBlock(b));
        store(image, AllocationBlock(b), 0);
        b = next;
    }
}

// Keeps the first `keep` of the k blocks of the chain from s: the last one kept gets the entry 1 and the others 0.
pub fn shorten(image: &mut [u8], n: u16, s: AllocationBlock, k: u16, keep: u16)
    requires { (n ≤ 640) × (2048 ≤ length image.old) × (0 < k → runs (map_entry image.old) n k s.0 ≡ true) × (keep ≤ k) }
    ensures { image.new ≡ put_free (put_chain image.old (take keep (chain_blocks (map_entry image.old) k s.0))) (drop keep (chain_blocks (map_entry image.old) k s.0)) }
{
    if keep == k {
        return;
    }
    if keep == 0 {
        free_chain(image, n, s, k);
        return;
    }
    let last = block_at(image, s, keep - 1);
    let next = load(image, last);
    store(image, last, 1);
    free_chain(image, n, AllocationBlock(next), k - keep);
}
