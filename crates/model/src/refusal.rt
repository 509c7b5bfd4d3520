// Why a call is refused.
ghost use Rattle.std.specs.Prelude.{◌≡◌};
ghost use Rattle.model.specs.Refusals.{number_of, done_number};

// The refusals, by document 01's numbers; 21 is of document 02's T-01, and 22 to 24 are of wrapped files.
#[derive(Clone, Copy, Debug, PartialEq, Eq)]
pub enum Refusal {
    BadLength = 1,
    BadSignature = 2,
    BadLayout = 3,
    BadVolumeName = 4,
    BadMapEntry = 5,
    BadEntry = 6,
    BadFiles = 7,
    BadFork = 8,
    LostBlock = 9,
    BadFreeCount = 10,
    VolumeLocked = 11,
    BadName = 12,
    NotFound = 13,
    NameExists = 14,
    FileLocked = 15,
    BeyondEnd = 16,
    VolumeFull = 17,
    DirectoryFull = 18,
    LastNumber = 19,
    NameTooLong = 21,
    BadHeader = 22,
    BadDataSum = 23,
    BadTagSum = 24,
}

impl Refusal {
    // Its number. A method and no `From`, since nothing asks for a conversion of any type.
    pub fn number(self) -> u8
        ensures { result ≡ number_of self }
    {
        self as u8
    }
}

// The number that a call gives back: 0 is success. No `From`, since Result is no type of this crate.
pub fn done_number(done: Result<(), Refusal>) -> u8
    ensures { result ≡ done_number done }
{
    match done {
        Ok(()) => 0,
        Err(refusal) => refusal.number(),
    }
}
