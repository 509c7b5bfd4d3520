// The answers as C has them, structs and no enums: each begins with its number, 0 or that of the refusal, and then all else is zero, but
// for the count beside quick find's 13.
ghost use Rattle.std.specs.Prelude.{◌≡◌};
ghost use Rattle.files.specs.Told.{told_check as check_tells, told_entry as entry_tells, told_find as find_tells, told_block as block_tells, told_quick_find as quick_find_tells};
ghost use Rattle.archive.specs.Told.{told_check, told_entry, told_find, told_block, told_quick_find, ReadAs};

use files::{FoundFile, QuickFound, QuickRefusal, no_entry, no_facts};
use model::{AllocationBlock, DirectoryEntry, Refusal, VolumeFacts};

#[repr(C)]
#[derive(Clone, Copy)]
pub struct CheckAnswer {
    pub number: u8,
    pub facts: VolumeFacts,
}

#[repr(C)]
#[derive(Clone, Copy)]
pub struct EntryAnswer {
    pub number: u8,
    pub entry: DirectoryEntry,
}

#[repr(C)]
#[derive(Clone, Copy)]
pub struct FindAnswer {
    pub number: u8,
    pub place: u64,
    pub entry: DirectoryEntry,
}

#[repr(C)]
#[derive(Clone, Copy)]
pub struct BlockAnswer {
    pub number: u8,
    pub block: AllocationBlock,
}

#[repr(C)]
#[derive(Clone, Copy)]
pub struct ReadAnswer {
    pub number: u8,
    pub count: usize,
}

#[repr(C)]
#[derive(Clone, Copy)]
pub struct QuickFindAnswer {
    pub number: u8,
    pub place: u64,
    pub entry: DirectoryEntry,
    // Directory blocks looked at.
    pub looked: u16,
}

impl From<Result<VolumeFacts, Refusal>> for CheckAnswer {
    ghost from_gives = { λ r a. told_check a ≡ check_tells r };

    fn from(answer: Result<VolumeFacts, Refusal>) -> CheckAnswer {
        match answer {
            Ok(facts) => CheckAnswer { number: 0, facts },
            Err(refusal) => CheckAnswer {
                number: refusal.number(),
                facts: no_facts(),
            },
        }
    }
}

impl From<Result<DirectoryEntry, Refusal>> for EntryAnswer {
    ghost from_gives = { λ r a. told_entry a ≡ entry_tells r };

    fn from(answer: Result<DirectoryEntry, Refusal>) -> EntryAnswer {
        match answer {
            Ok(entry) => EntryAnswer { number: 0, entry },
            Err(refusal) => EntryAnswer {
                number: refusal.number(),
                entry: no_entry(),
            },
        }
    }
}

impl From<Result<FoundFile, Refusal>> for FindAnswer {
    ghost from_gives = { λ r a. told_find a ≡ find_tells r };

    fn from(answer: Result<FoundFile, Refusal>) -> FindAnswer {
        match answer {
            Ok(FoundFile { place, entry }) => FindAnswer {
                number: 0,
                place,
                entry,
            },
            Err(refusal) => FindAnswer {
                number: refusal.number(),
                place: 0,
                entry: no_entry(),
            },
        }
    }
}

impl From<Result<AllocationBlock, Refusal>> for BlockAnswer {
    ghost from_gives = { λ r a. told_block a ≡ block_tells r };

    fn from(answer: Result<AllocationBlock, Refusal>) -> BlockAnswer {
        match answer {
            Ok(block) => BlockAnswer { number: 0, block },
            Err(refusal) => BlockAnswer {
                number: refusal.number(),
                block: AllocationBlock(0),
            },
        }
    }
}

impl From<Result<usize, Refusal>> for ReadAnswer {
    ghost from_gives = { ReadAs };

    fn from(answer: Result<usize, Refusal>) -> ReadAnswer {
        match answer {
            Ok(count) => ReadAnswer { number: 0, count },
            Err(refusal) => ReadAnswer {
                number: refusal.number(),
                count: 0,
            },
        }
    }
}

impl From<Result<QuickFound, QuickRefusal>> for QuickFindAnswer {
    ghost from_gives = { λ r a. told_quick_find a ≡ quick_find_tells r };

    fn from(answer: Result<QuickFound, QuickRefusal>) -> QuickFindAnswer {
        match answer {
            Ok(
                QuickFound {
                    place,
                    entry,
                    looked,
                },
            ) => QuickFindAnswer {
                number: 0,
                place,
                entry,
                looked,
            },
            Err(QuickRefusal { refusal, looked }) => QuickFindAnswer {
                number: refusal.number(),
                place: 0,
                entry: no_entry(),
                looked,
            },
        }
    }
}
