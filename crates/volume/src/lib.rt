// The calls on a volume. Each checks the image itself, and states its answer and every byte that it leaves. `make_call` ties them
// to the claim on every list of calls.
#![tactic(auto)]

mod answer_of;
mod changing;
mod checking;
mod making;
mod quick;
mod reading;
mod wrapping;

pub use changing::{create, cut, delete, rename, write};
pub use checking::check;
pub use making::make_call;
use model::{AllocationBlock, DirectoryEntry, VolumeFacts};
pub use quick::quick_find;
pub use reading::{block, entry, find, read};
pub use wrapping::wrap;

// What any call gives back: what its answer does not tell is zero. The claim on every list of calls speaks of such answers (`Happens`),
// so it is a struct with a number and no enum. The count is read's, or quick find's of directory blocks.
#[derive(Clone, Copy)]
pub struct Outcome {
    pub number: u8,
    pub facts: VolumeFacts,
    pub place: u64,
    pub entry: DirectoryEntry,
    pub block: AllocationBlock,
    pub count: usize,
}

// Each call by its name. `call_of`, and so `Happens`, go by it.
#[derive(Clone, Copy, Debug, PartialEq, Eq)]
pub enum Wanted {
    Check,
    Entry,
    Find,
    Block,
    Read,
    Create,
    Write,
    Cut,
    Delete,
    Wrap,
    Rename,
    QuickFind,
}
