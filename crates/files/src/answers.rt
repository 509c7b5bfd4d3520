// The zeros that a refusal gives beside its number.
ghost use Rattle.std.specs.Prelude.{◌≡◌};
ghost use Rattle.model.specs.Facts.{no_facts};
ghost use Rattle.model.specs.Bytes.{zeros};
ghost use Rattle.model.specs.Directory.{fork_in, no_entry};

use model::{AllocationBlock, DirectoryEntry, ForkFacts, LogicalBlock, VolumeFacts};

pub fn no_facts() -> VolumeFacts
    ensures { result ≡ no_facts }
{
    VolumeFacts {
        signature: 0,
        created: 0,
        backup: 0,
        attributes: 0,
        files: 0,
        directory_start: LogicalBlock(0),
        directory_length: 0,
        allocation_blocks: 0,
        block_size: 0,
        clump_size: 0,
        allocation_start: LogicalBlock(0),
        next_number: 0,
        free_blocks: 0,
        name_length: 0,
        name: [0; 27],
    }
}

fn no_fork() -> ForkFacts
    ensures { result ≡ fork_in (zeros 10) }
{
    ForkFacts {
        start: AllocationBlock(0),
        logical: 0,
        physical: 0,
    }
}

pub fn no_entry() -> DirectoryEntry
    ensures { result ≡ no_entry }
{
    DirectoryEntry {
        flags: 0,
        version: 0,
        finder: [0; 16],
        number: 0,
        data: no_fork(),
        resource: no_fork(),
        created: 0,
        changed: 0,
        name_length: 0,
        name: [0; 255],
    }
}
