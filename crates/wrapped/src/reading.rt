// The calls that change nothing, on a wrapped file: each checks the container, then asks the data inside.
ghost use Rattle.std.specs.Prelude.{◌≡◌, MatchResult};
ghost use Rattle.model.specs.Calls.{Call};
ghost use Rattle.model.specs.Container.{inside, container_verdict};
ghost use Rattle.model.specs.Refusals.{number_of};
ghost use Rattle.files.specs.Told.{told_check, told_entry, told_find, told_block, told_read};
ghost use Rattle.model.specs.Wrapped.{DoesWrapped};

use container::{data, judge};
use files::FoundFile;
use model::{AllocationBlock, DirectoryEntry, Fork, Refusal, VolumeFacts};

// The data of a file whose container is sound.
fn sound_data(file: &[u8]) -> Result<&[u8], Refusal>
    ensures { MatchResult result (λ d. (container_verdict file.now ≡ 0) × (d.now ≡ inside file.now)) (λ r. number_of r ≡ container_verdict file.now) }
{
    judge(file)?;
    Ok(data(file))
}

// Checks the volume and gives its facts.
pub fn check(file: &[u8]) -> Result<VolumeFacts, Refusal>
    ensures { DoesWrapped Call.check file.now (told_check result) file.now }
{
    volume::check(sound_data(file)?)
}

// The entry at a place in directory order.
pub fn entry(file: &[u8], place: u64) -> Result<DirectoryEntry, Refusal>
    ensures { DoesWrapped (Call.entry place) file.now (told_entry result) file.now }
{
    volume::entry(sound_data(file)?, place)
}

// The place and the entry of a name.
pub fn find(file: &[u8], name: &[u8]) -> Result<FoundFile, Refusal>
    ensures { DoesWrapped (Call.find name.now) file.now (told_find result) file.now }
{
    volume::find(sound_data(file)?, name)
}

// The allocation block at a place in a fork.
pub fn block(file: &[u8], name: &[u8], fork: Fork, place: u64) -> Result<AllocationBlock, Refusal>
    ensures { DoesWrapped (Call.block name.now fork place) file.now (told_block result) file.now }
{
    volume::block(sound_data(file)?, name, fork, place)
}

// Reads fork bytes from an offset on into the buffer, and gives their number.
pub fn read(
    file: &[u8],
    name: &[u8],
    fork: Fork,
    offset: u64,
    buffer: &mut [u8],
) -> Result<usize, Refusal>
    ensures { DoesWrapped (Call.read name.now fork offset buffer.old)
        file.now (told_read result buffer.new) file.now }
{
    volume::read(sound_data(file)?, name, fork, offset, buffer)
}
