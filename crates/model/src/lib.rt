// What the papers say: the definitions, in specs/, with the types that they share with the code; bytes copied, numbers and
// volume facts read from bytes, a fork's block count; and the statements that the definitions are held to.
#![tactic(auto)]

ghost use Rattle.model.specs.Cases.{FurtherCases, PCases};
ghost use Rattle.model.specs.Check.{VerdictIsAccepted};
ghost use Rattle.model.specs.Container.{ContainerIsSound};
ghost use Rattle.model.specs.Map.{TwoInThree};

mod block_numbers;
mod copying;
mod fork_facts;
mod numbers;
mod refusal;
mod volume_facts;

pub use copying::{array_at, copy_part};
pub use fork_facts::block_count;
pub use numbers::{be16_at, be32_at};
pub use refusal::{Refusal, done_number};

// The number of an allocation block: 2 to N + 1. No invariant says so: a fork's start is one too, and 0 where the fork has no block.
#[repr(C)]
#[derive(Clone, Copy, Debug, PartialEq, Eq)]
pub struct AllocationBlock(pub u16);

// The number of a logical block of 512 bytes.
#[repr(C)]
#[derive(Clone, Copy, Debug, PartialEq, Eq)]
pub struct LogicalBlock(pub u32);

// The facts of the volume information. C has this struct too, so the name has fixed room, and its length stands beside it.
#[repr(C)]
#[derive(Clone, Copy)]
pub struct VolumeFacts {
    pub signature: u16,
    pub created: u32,
    pub backup: u32,
    pub attributes: u16,
    pub files: u16,
    pub directory_start: LogicalBlock,
    pub directory_length: u16,
    pub allocation_blocks: u16,
    pub block_size: u32,
    pub clump_size: u32,
    pub allocation_start: LogicalBlock,
    pub next_number: u32,
    pub free_blocks: u16,
    pub name_length: u8,
    pub name: [u8; 27],
}

// What a map entry says of its block.
#[derive(Clone, Copy, Debug, PartialEq, Eq)]
pub enum MapValue {
    Free,
    Last,
    Next(AllocationBlock),
    Bad,
}

// Three bytes of the map, AB CD EF ..
#[derive(Clone, Copy)]
pub struct ThreeBytes {
    pub ab: u8,
    pub cd: u8,
    pub ef: u8,
}

// .. and the two entries that they hold: the first is ABC, the second DEF.
#[derive(Clone, Copy)]
pub struct TwoEntries {
    pub first: u16,
    pub second: u16,
}

// A call's choice of fork.
#[derive(Clone, Copy, Debug, PartialEq, Eq)]
pub enum Fork {
    Data,
    Resource,
}

// A fork's fields in a directory entry.
#[repr(C)]
#[derive(Clone, Copy)]
pub struct ForkFacts {
    pub start: AllocationBlock,
    pub logical: u32,
    pub physical: u32,
}

// A directory entry, its name zero behind its length. C has this struct too, so the name has fixed room.
#[repr(C)]
#[derive(Clone, Copy)]
pub struct DirectoryEntry {
    pub flags: u8,
    pub version: u8,
    pub finder: [u8; 16],
    pub number: u32,
    pub data: ForkFacts,
    pub resource: ForkFacts,
    pub created: u32,
    pub changed: u32,
    pub name_length: u8,
    pub name: [u8; 255],
}

// The P cases.
pub fn worked_cases()
    ensures { PCases }
{}

// Further worked cases.
pub fn further_cases()
    ensures { FurtherCases }
{}

// The first check that fires is 0 exactly where the volume is accepted.
pub fn verdict_is_accepted()
    ensures { VerdictIsAccepted }
{}

// None of 22 to 24 fires exactly where the container is sound.
pub fn container_is_sound()
    ensures { ContainerIsSound }
{}

// A block's map entry is the first of the two in its three bytes where its number is even and the second where it is odd, and
// two entries and their three bytes each give back the other.
pub fn two_in_three()
    ensures { TwoInThree }
{}
