// The two kinds of block number, and the one way from an allocation block to a logical block.
ghost use Rattle.std.specs.Prelude.{◌≡◌, ◌*◌, ◌%◌, ◌≤◌, ◌<◌};
ghost use Rattle.model.specs.Facts.{block_byte};

use crate::{AllocationBlock, LogicalBlock};

impl AllocationBlock {
    // The logical block at which this allocation block starts: block b starts at byte 512·S + (b−2)·A.
    pub fn logical(self, start: LogicalBlock, size: u32) -> LogicalBlock
        requires { (2 ≤ self.0) × (self.0 ≤ 641) × (size ≤ 32768) × (size % 512 ≡ 0) × (start.0 < 65536) }
        ensures { 512 * result.0 ≡ block_byte start size self }
    {
        let past = (self.0 - 2) as u32;
        let blocks = past * (size / 512);
        let first = start.0 + blocks;
        LogicalBlock(first)
    }
}

impl LogicalBlock {
    // Its first byte.
    pub fn byte(self) -> usize
        ensures { result ≡ 512 * self.0 }
    {
        512 * self.0 as usize
    }
}
