// What any of the calls gives back, in one form.
ghost use Rattle.std.specs.Prelude.{◌≡◌};
ghost use Rattle.model.specs.Refusals.{number_of};
ghost use Rattle.volume.specs.Happens.{from_number, from_check, from_entry, from_find, from_block, from_read, from_done, from_quick_find};

use crate::Outcome;
use files::{FoundFile, QuickFound, QuickRefusal, no_entry, no_facts};
use model::{AllocationBlock, DirectoryEntry, Refusal, VolumeFacts, done_number};

// A number alone.
fn of_number(number: u8) -> Outcome
    ensures { result ≡ from_number number }
{
    Outcome {
        number,
        facts: no_facts(),
        place: 0,
        entry: no_entry(),
        block: AllocationBlock(0),
        count: 0,
    }
}

impl From<Refusal> for Outcome {
    ghost from_gives = { λ r o. o ≡ from_number (number_of r) };

    fn from(refusal: Refusal) -> Outcome {
        of_number(refusal.number())
    }
}

impl From<Result<(), Refusal>> for Outcome {
    ghost from_gives = { λ r o. o ≡ from_done r };

    fn from(done: Result<(), Refusal>) -> Outcome {
        of_number(done_number(done))
    }
}

impl From<Result<VolumeFacts, Refusal>> for Outcome {
    ghost from_gives = { λ r o. o ≡ from_check r };

    fn from(answer: Result<VolumeFacts, Refusal>) -> Outcome {
        match answer {
            Ok(facts) => Outcome {
                facts,
                ..of_number(0)
            },
            Err(refusal) => Outcome::from(refusal),
        }
    }
}

impl From<Result<DirectoryEntry, Refusal>> for Outcome {
    ghost from_gives = { λ r o. o ≡ from_entry r };

    fn from(answer: Result<DirectoryEntry, Refusal>) -> Outcome {
        match answer {
            Ok(entry) => Outcome {
                entry,
                ..of_number(0)
            },
            Err(refusal) => Outcome::from(refusal),
        }
    }
}

impl From<Result<FoundFile, Refusal>> for Outcome {
    ghost from_gives = { λ r o. o ≡ from_find r };

    fn from(answer: Result<FoundFile, Refusal>) -> Outcome {
        match answer {
            Ok(found) => Outcome {
                place: found.place,
                entry: found.entry,
                ..of_number(0)
            },
            Err(refusal) => Outcome::from(refusal),
        }
    }
}

impl From<Result<AllocationBlock, Refusal>> for Outcome {
    ghost from_gives = { λ r o. o ≡ from_block r };

    fn from(answer: Result<AllocationBlock, Refusal>) -> Outcome {
        match answer {
            Ok(block) => Outcome {
                block,
                ..of_number(0)
            },
            Err(refusal) => Outcome::from(refusal),
        }
    }
}

impl From<Result<usize, Refusal>> for Outcome {
    ghost from_gives = { λ r o. o ≡ from_read r };

    fn from(answer: Result<usize, Refusal>) -> Outcome {
        match answer {
            Ok(count) => Outcome {
                count,
                ..of_number(0)
            },
            Err(refusal) => Outcome::from(refusal),
        }
    }
}

impl From<Result<QuickFound, QuickRefusal>> for Outcome {
    ghost from_gives = { λ r o. o ≡ from_quick_find r };

    fn from(answer: Result<QuickFound, QuickRefusal>) -> Outcome {
        match answer {
            Ok(
                QuickFound {
                    place,
                    entry,
                    looked,
                },
            ) => Outcome {
                place,
                entry,
                count: looked as usize,
                ..of_number(0)
            },
            Err(refused) => Outcome {
                count: refused.looked as usize,
                ..Outcome::from(refused.refusal)
            },
        }
    }
}
