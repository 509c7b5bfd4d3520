// The calls that change nothing: each checks the volume, then answers.
ghost use Rattle.model.specs.Calls.{Call, Does};
ghost use Rattle.files.specs.Told.{told_entry, told_find, told_block, told_read};

use crate::checking::check;
use call_read::{serve_block, serve_entry, serve_find, serve_read};
use files::FoundFile;
use model::{AllocationBlock, DirectoryEntry, Fork, Refusal};

// The entry at a place in directory order.
pub fn entry(image: &[u8], place: u64) -> Result<DirectoryEntry, Refusal>
    ensures { Does (Call.entry place) image.now (told_entry result) image.now }
{
    serve_entry(image, check(image)?, place)
}

// The place and the entry of a name.
pub fn find(image: &[u8], name: &[u8]) -> Result<FoundFile, Refusal>
    ensures { Does (Call.find name.now) image.now (told_find result) image.now }
{
    serve_find(image, check(image)?, name)
}

// The allocation block at a place in a fork.
pub fn block(image: &[u8], name: &[u8], fork: Fork, place: u64) -> Result<AllocationBlock, Refusal>
    ensures { Does (Call.block name.now fork place) image.now (told_block result) image.now }
{
    serve_block(image, check(image)?, name, fork, place)
}

// Reads fork bytes from an offset on into the buffer, and gives their number.
pub fn read(
    image: &[u8],
    name: &[u8],
    fork: Fork,
    offset: u64,
    buffer: &mut [u8],
) -> Result<usize, Refusal>
    ensures { Does (Call.read name.now fork offset buffer.old) image.now (told_read result buffer.new) image.now }
{
    serve_read(image, check(image)?, name, fork, offset, buffer)
}
